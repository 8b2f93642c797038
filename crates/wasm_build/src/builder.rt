//! Modules from files that come in pieces: entries of sections are built as they come, and sections that have none.

ghost use Rattle.std.specs.Prelude.{◌≡◌, ◌+◌, ◌-◌, ◌^◌, ◌<◌, ◌≤◌, ◌⊎◌, ℕ, ◌∷◌, length, drop, Ok, IfOk, IfSome};
ghost use Rattle.wa_types.specs.View.{module_of};
ghost use Rattle.wasm_build.specs.BuildsEntries.{IsOther};
ghost use Rattle.wasm_build.specs.BuildsPieces.{Coming, Holds, Steps, Takes, stage_behind, stage_before};
ghost use Rattle.wasm_build.specs.declared.builder.Stage as Stage;

use crate::build_types::BuildFault;
use crate::entries::{Body, CodeEntry};
use crate::entry::Entry;
use crate::extents::{number, sized_end};
use crate::sections::{Entries, Sections};
use std::alloc::Global;
use wa_types::{Func, Module};
use wasm_grammar::Cursor;

// So many bytes are read again for each piece; what takes more waits till there is as much more.
const READ_AGAIN: usize = 64;

/// What of a file comes next.
#[derive(Clone, Copy, Drop)]
pub(crate) enum Stage {
    Preamble,
    Section,
    /// An entry of a section, of so many that are left.
    Entry(Entries, u32),
    /// A body of the code section, behind so many others.
    Body(usize),
}

/// Builds the module of a file that comes in pieces, and keeps none of them.
#[derive(Drop)]
pub struct Builder {
    sections: Sections,
    stage: Stage,
    // How many bytes are to be there before the next entry is tried again.
    wanted: usize,
}

impl Builder {
    /// Before the first byte. Takes no memory.
    pub fn new(alloc: Global) -> Builder
        ensures { Coming result }
    {
        Builder {
            sections: Sections::new(alloc),
            stage: Stage::Preamble,
            wanted: 0,
        }
    }

    /// Builds what is whole of these bytes, which come next at this offset, and tells how many bytes that is. Where they are the rest of the file that
    /// is all of them. For bytes that are no part of a file that spells a module the answer has no meaning.
    pub fn take(&mut self, alloc: Global, bytes: &[u8], first: usize) -> Result<usize, BuildFault>
        requires { first + length bytes.now < 2 ^ 64 }
        ensures within { IfOk result (λ used. used ≤ length bytes.now) }
        ensures takes { Takes result self.old self.new first bytes.now }
    {
        let mut used = 0;
        while let Some(more) = self.step(alloc, &bytes[used..], first + used)? {
            used += more;
        }
        Ok(used)
    }

    /// So many of the bytes that come next are to be there before it is worth while to call `take`. An entry that wasn't whole was read up to
    /// where bytes were wanting: as many more come before it is read again, so that all of this takes no longer than reading the file once more.
    pub fn wanted(&self) -> usize {
        self.wanted
    }

    /// The module of what has come.
    pub fn into_module(self) -> Module
        ensures { Holds self (module_of result) }
    {
        self.sections.into_module()
    }

    // Builds what comes next, if it is whole: how many bytes it has.
    fn step(
        &mut self,
        alloc: Global,
        bytes: &[u8],
        first: usize,
    ) -> Result<Option<usize>, BuildFault>
        ensures within { IfOk result (λ o. IfSome o (λ n. (0 < n) × (n ≤ length bytes.now))) }
        ensures steps { Steps result self.old self.new first bytes.now }
    {
        match self.stage {
            Stage::Preamble => Ok(self.preamble(bytes)),
            Stage::Section => self.section(alloc, bytes, first),
            Stage::Entry(kind, left) => self.entry(alloc, bytes, first, kind, left),
            Stage::Body(read) => self.body(alloc, bytes, first, read),
        }
    }

    // The preamble, which isn't looked at.
    fn preamble(&mut self, bytes: &[u8]) -> Option<usize>
        requires { self.old.stage ≡ Stage.Preamble }
        ensures within { IfSome result (λ n. (0 < n) × (n ≤ length bytes.now)) }
        ensures steps { (first : ℕ) → Steps (Ok result) self.old self.new first bytes.now }
    {
        if bytes.len() < 8 {
            return None;
        }
        self.stage = Stage::Section;
        Some(8)
    }

    // What stands in front of the entries of a section, or a section that has none.
    fn section(
        &mut self,
        alloc: Global,
        bytes: &[u8],
        first: usize,
    ) -> Result<Option<usize>, BuildFault>
        requires { self.old.stage ≡ Stage.Section }
        ensures within { IfOk result (λ o. IfSome o (λ n. (0 < n) × (n ≤ length bytes.now))) }
        ensures steps { Steps result self.old self.new first bytes.now }
    {
        if bytes.len() < 1 {
            return Ok(None);
        }
        let id = bytes[0];
        match id {
            0 => self.single(alloc, bytes, first),
            8 => self.single(alloc, bytes, first),
            10 => Ok(self.code(bytes)),
            _ => self.vector(bytes, id),
        }
    }

    // A custom section, or the start section (standard, sections 5.5.3 and 5.5.11).
    fn single(
        &mut self,
        alloc: Global,
        bytes: &[u8],
        first: usize,
    ) -> Result<Option<usize>, BuildFault>
        requires stage { self.old.stage ≡ Stage.Section }
        requires id { (bytes.now ≡ 0 ∷ drop 1 bytes.now) ⊎ (bytes.now ≡ 8 ∷ drop 1 bytes.now) }
        ensures within { IfOk result (λ o. IfSome o (λ n. (0 < n) × (n ≤ length bytes.now))) }
        ensures steps { Steps result self.old self.new first bytes.now }
    {
        let Some(end) = sized_end(bytes, 1) else {
            return Ok(None);
        };
        let mut input = Cursor::new_at(first, &bytes[..end]);
        self.sections.single(alloc, &mut input)?;
        Ok(Some(end))
    }

    // What stands in front of the entries of the section with this id, which is another one.
    fn vector(&mut self, bytes: &[u8], id: u8) -> Result<Option<usize>, BuildFault>
        requires stage { self.old.stage ≡ Stage.Section }
        requires id { bytes.now ≡ id ∷ drop 1 bytes.now }
        requires other { IsOther id }
        ensures within { IfOk result (λ o. IfSome o (λ n. (0 < n) × (n ≤ length bytes.now))) }
        ensures steps { (first : ℕ) → Steps result self.old self.new first bytes.now }
    {
        let Some(kind) = Entries::of(id) else {
            return Err(BuildFault::NotSpelled);
        };
        let mut place = 1;
        let Some(_size) = number(bytes, &mut place) else {
            return Ok(None);
        };
        let Some(count) = number(bytes, &mut place) else {
            return Ok(None);
        };
        self.sections.last = id;
        self.stage = before_entries(kind, count);
        Ok(Some(place))
    }

    // What stands in front of the bodies of the code section (standard, section 5.5.13).
    fn code(&mut self, bytes: &[u8]) -> Option<usize>
        requires stage { self.old.stage ≡ Stage.Section }
        requires id { bytes.now ≡ 10 ∷ drop 1 bytes.now }
        ensures within { IfSome result (λ n. (0 < n) × (n ≤ length bytes.now)) }
        ensures steps { (first : ℕ) → Steps (Ok result) self.old self.new first bytes.now }
    {
        let mut place = 1;
        let Some(_size) = number(bytes, &mut place) else {
            return None;
        };
        let Some(_count) = number(bytes, &mut place) else {
            return None;
        };
        self.sections.last = 10;
        self.stage = self.behind_body(0);
        Some(place)
    }

    // An entry, of so many that are left.
    fn entry(
        &mut self,
        alloc: Global,
        bytes: &[u8],
        first: usize,
        kind: Entries,
        left: u32,
    ) -> Result<Option<usize>, BuildFault>
        requires { self.old.stage ≡ Stage.Entry kind left }
        ensures within { IfOk result (λ o. IfSome o (λ n. (0 < n) × (n ≤ length bytes.now))) }
        ensures steps { Steps result self.old self.new first bytes.now }
    {
        let mut input = Cursor::new_at(first, bytes);
        match self.sections.entry(alloc, &mut input, kind) {
            Ok(()) => {
                let used = bytes.len() - input.rest().len();
                self.stage = before_entries(kind, left.saturating_sub(1));
                self.wanted = 0;
                Ok(Some(used))
            }
            Err(BuildFault::NotSpelled) => {
                let read = bytes.len() - input.rest().len();
                self.wanted = bytes.len().saturating_add(read.saturating_sub(READ_AGAIN));
                Ok(None)
            }
            Err(BuildFault::Memory) => Err(BuildFault::Memory),
        }
    }

    // A body, behind so many others.
    fn body(
        &mut self,
        alloc: Global,
        bytes: &[u8],
        first: usize,
        read: usize,
    ) -> Result<Option<usize>, BuildFault>
        requires { self.old.stage ≡ Stage.Body read }
        ensures within { IfOk result (λ o. IfSome o (λ n. (0 < n) × (n ≤ length bytes.now))) }
        ensures steps { Steps result self.old self.new first bytes.now }
    {
        let Some(end) = sized_end(bytes, 0) else {
            return Ok(None);
        };
        if read >= self.sections.sorts.len() {
            return Err(BuildFault::NotSpelled);
        }
        let sort = self.sections.sorts[read];
        let mut input = Cursor::new_at(first, &bytes[..end]);
        let Body { locals, code } = CodeEntry::read(alloc, &mut input)?;
        self.sections.module.funcs.push(Func {
            sort,
            locals,
            body: code,
        })?;
        self.stage = self.behind_body(read + 1);
        Ok(Some(end))
    }

    // What comes behind so many bodies.
    fn behind_body(&self, read: usize) -> Stage
        ensures { result ≡ stage_behind read self.now.sections.sorts.items }
    {
        if read < self.sections.sorts.len() {
            Stage::Body(read)
        } else {
            Stage::Section
        }
    }
}

// What comes where so many entries of a section are left.
fn before_entries(kind: Entries, left: u32) -> Stage
    ensures { result ≡ stage_before kind left }
{
    if 0 < left {
        Stage::Entry(kind, left)
    } else {
        Stage::Section
    }
}
