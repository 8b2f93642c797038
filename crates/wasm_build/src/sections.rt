//! Sections one behind another, and the module that they are (standard, sections 5.5.2 and 5.5.15).

ghost use Rattle.std.specs.Prelude.{◌≡◌, ◌≤◌, ◌<◌, length, OnOk, OnErr};
ghost use Rattle.wa_types.specs.View.{module_of};
ghost use Rattle.wasm_build.specs.Builds.{Builds};
ghost use Rattle.wasm_build.specs.BuildsEntries.{AreOf, SpelledEntry};
ghost use Rattle.wasm_build.specs.BuildsModule.{state_of, nothing_yet, SpelledSingle, SpelledStart};

use crate::build_types::BuildFault;
use crate::entries::{DataEntry, ElementEntry, GlobalEntry, custom};
use crate::entry::put;
use crate::imports::{ExportEntry, ImportEntry};
use crate::types::{IndexEntry, MemoryEntry, TableEntry, TypeEntry};
use std::alloc::Global;
use wa_types::Module;
use wasm_grammar::Cursor;

/// What a section holds that is one vector (standard, sections 5.5.4 to 5.5.14). Bodies, whose types are known from elsewhere, are apart.
#[derive(Clone, Copy, Drop)]
pub(crate) enum Entries {
    Types,
    Imports,
    Functions,
    Tables,
    Memories,
    Globals,
    Exports,
    Elements,
    Segments,
}

impl Entries {
    /// Those of the section with this id, if it is one vector of them.
    pub(crate) fn of(id: u8) -> Option<Entries>
        ensures { AreOf result id }
    {
        match id {
            1 => Some(Entries::Types),
            2 => Some(Entries::Imports),
            3 => Some(Entries::Functions),
            4 => Some(Entries::Tables),
            5 => Some(Entries::Memories),
            6 => Some(Entries::Globals),
            7 => Some(Entries::Exports),
            9 => Some(Entries::Elements),
            11 => Some(Entries::Segments),
            _ => None,
        }
    }
}

/// The sections that were read: the module so far, the types of its functions, and the id of the last known section.
#[derive(Drop)]
pub(crate) struct Sections {
    pub(crate) module: Module,
    pub(crate) sorts: Vec<u32>,
    pub(crate) last: u8,
}

impl Sections {
    /// No section.
    pub(crate) fn new(alloc: Global) -> Sections
        ensures { state_of result ≡ nothing_yet }
    {
        let module = Module {
            types: Vec::new(alloc),
            imports: Vec::new(alloc),
            funcs: Vec::new(alloc),
            tables: Vec::new(alloc),
            memories: Vec::new(alloc),
            globals: Vec::new(alloc),
            exports: Vec::new(alloc),
            start: None,
            elems: Vec::new(alloc),
            segments: Vec::new(alloc),
            customs: Vec::new(alloc),
        };
        Sections {
            module,
            sorts: Vec::new(alloc),
            last: 0,
        }
    }

    /// Adds the custom section or the start section that comes next (standard, sections 5.5.3 and 5.5.11).
    pub(crate) fn single(&mut self, alloc: Global, input: &mut Cursor<'_>) -> Result<(), BuildFault>
        ensures { Builds (λ (_ : Unit {0}). state_of self.new) (SpelledSingle (state_of self.old)) result input.old input.new }
    {
        let id = input.byte()?;
        if id == 0 {
            let custom = custom(alloc, input, self.last)?;
            self.module.customs.push(custom)?;
            return Ok(());
        }
        self.start(input)
    }

    // Adds the start section, from its size on.
    fn start(&mut self, input: &mut Cursor<'_>) -> Result<(), BuildFault>
        ensures { Builds (λ (_ : Unit {0}). state_of self.new) (SpelledStart (state_of self.old)) result input.old input.new }
    {
        let _size = input.number()?;
        let x = input.number()?;
        self.module.start = Some(x);
        self.last = 8;
        Ok(())
    }

    /// Adds the entry that comes next. After an `Err` nothing is added.
    #[inline(always)]
    pub(crate) fn entry(
        &mut self,
        alloc: Global,
        input: &mut Cursor<'_>,
        kind: Entries,
    ) -> Result<(), BuildFault>
        ensures built { Builds (λ (_ : Unit {0}). state_of self.new) (SpelledEntry kind (state_of self.old)) result input.old input.new }
        ensures kept { OnErr result (state_of self.new ≡ state_of self.old) }
        ensures left { length input.new.left ≤ length input.old.left }
        ensures falls { OnOk result (length input.new.left < length input.old.left) }
    {
        match kind {
            Entries::Types => put::<TypeEntry>(alloc, input, &mut self.module.types),
            Entries::Imports => put::<ImportEntry>(alloc, input, &mut self.module.imports),
            Entries::Functions => put::<IndexEntry>(alloc, input, &mut self.sorts),
            Entries::Tables => put::<TableEntry>(alloc, input, &mut self.module.tables),
            Entries::Memories => put::<MemoryEntry>(alloc, input, &mut self.module.memories),
            Entries::Globals => put::<GlobalEntry>(alloc, input, &mut self.module.globals),
            Entries::Exports => put::<ExportEntry>(alloc, input, &mut self.module.exports),
            Entries::Elements => put::<ElementEntry>(alloc, input, &mut self.module.elems),
            Entries::Segments => put::<DataEntry>(alloc, input, &mut self.module.segments),
        }
    }

    /// The module of these sections.
    pub(crate) fn into_module(self) -> Module
        ensures { module_of result ≡ (state_of self).held }
    {
        self.module
    }
}
