//! Modules from files that come in pieces.

ghost use Rattle.std.specs.Prelude.{◌≡◌, ◌≤◌, ◌++◌, ℕ, List, length, IfOk, OnOk, Err, None, Some};
ghost use Rattle.std.specs.Result.{IfErr};
ghost use Rattle.wa_types.specs.Begun.{Begun, IsWhole};
ghost use Rattle.wa_types.specs.Encoding.{Enc};
ghost use Rattle.wa_types.specs.ModuleBounds.{source_bounds};
ghost use Rattle.wa_types.specs.Sizes.{SizeRule, StrictSizeRule};
ghost use Rattle.wa_types.specs.View.{module_of};
ghost use Rattle.wasm_reader.specs.Answers.{IsAccepted, IsRefused};
ghost use Rattle.wasm_grammar.specs.Machine.{AreMarks, IsCause};
ghost use Rattle.wasm_reader.specs.Pieces.{HoldsLast, IsFeedFault, begun_with, fed};
ghost use Rattle.wasm_reader.specs.Progress.{Goes, IsGoing, bytes_of};
ghost use Rattle.wasm_reader.specs.declared.read_fault.ReadFault.{ReadFault as FaultValue};

use crate::progress::{Progress, take};
use crate::read_fault::ReadFault;
use crate::reader::{Unbuilt, read_whole};
use std::alloc::Global;
use std::marker::Model;
use wa_types::{Bounds, Module};
use wasm_build::Builder;
use wasm_grammar::{CheckFault, Machine, Marks, Passed, Window, check};

/// Reads a module from a file that comes in pieces, one behind another. The pieces that were fed count as one input; of them only what isn't
/// built yet is held: at most the entry that is coming (a type, an import, a body, a segment, a custom section), and up to as much behind it of a
/// long one whose end isn't known from its front. Contracts see the bounds, the bytes so far, those of them that are held, and the first fault that
/// they met.
#[derive(Drop)]
pub struct Reader {
    alloc: Global,
    bounds: Bounds,
    progress: Progress,
    fault: Option<ReadFault>,
}

impl Model for Reader {
    ghost use Rattle.wasm_reader.specs.Pieces.{Reading};
    ghost use Rattle.wasm_reader.specs.Progress.{KeepsUp, bytes_of};

    ghost Value = { Reading };

    ghost view = { λ r. record { bounds = r.bounds; bytes = bytes_of r.progress; held = r.progress.window.items; fault = r.fault } };

    ghost invariant = { λ r. KeepsUp r.bounds r.progress r.fault };
}

impl Reader {
    /// A reader that has been fed nothing. Takes no memory.
    pub fn new(alloc: Global, bounds: Bounds) -> Reader
        ensures { result ≡ begun_with bounds }
    {
        Reader {
            alloc,
            bounds,
            progress: Progress {
                before: Passed::none(),
                base: 0,
                window: Vec::new(alloc),
                machine: None,
                builder: Some(Builder::new(alloc)),
            },
            fault: None,
        }
    }

    /// How many bytes are held: those that have come of what isn't built yet.
    pub fn held(&self) -> usize
        ensures count { result ≡ length self.now.held }
        ensures last { HoldsLast self.now }
    {
        self.progress.window.len()
    }

    /// Takes the next piece. `Limit` of `File` comes exactly where the bytes fed so far pass the bound, else `Malformed` exactly where
    /// they aren't the beginning of items in an order of the grammar (`Begun`), with the least number of first bytes that aren't.
    /// `Memory` may come in the place of any answer. After a fault that fault comes again, and nothing changes.
    pub fn feed(&mut self, piece: &[u8]) -> Result<(), ReadFault>
        ensures fed { self.old.fault ≡ None → OnOk result (self.new ≡ fed self.old piece.now self.new.held) }
        ensures begun { self.old.fault ≡ None → OnOk result (Begun (self.old.bytes ++ piece.now)) }
        ensures few { self.old.fault ≡ None → OnOk result (length (self.old.bytes ++ piece.now) ≤ self.old.bounds.file) }
        ensures fault { self.old.fault ≡ None → IfErr result (IsFeedFault self.old.bounds.file (self.old.bytes ++ piece.now)) }
        ensures failed { IfErr result (λ fault. self.new.fault ≡ Some fault) }
        ensures again { (fault : FaultValue) → self.old.fault ≡ Some fault → (result ≡ Err fault) × (self.new ≡ self.old) }
    {
        if let Some(fault) = self.fault {
            return Err(fault);
        }
        match take(self.alloc, &mut self.progress, &self.bounds, piece) {
            Ok(()) => Ok(()),
            Err(fault) => {
                self.fault = Some(fault);
                Err(fault)
            }
        }
    }

    /// The module that the pieces spell: what `read` answers for all of them as one input; or the fault that a piece met.
    pub fn finish(self) -> Result<Module, ReadFault>
        ensures ok { self.fault ≡ None → IfOk result (λ r. IsAccepted self.bounds self.bytes (module_of r)) }
        ensures sizes { IfOk result (λ r. SizeRule (module_of r)) }
        ensures source_sizes { self.bounds ≡ source_bounds → IfOk result (λ r. StrictSizeRule (module_of r)) }
        ensures short { IfOk result (λ r. length (Enc (module_of r)) ≤ length self.bytes) }
        ensures refused { self.fault ≡ None → IfErr result (λ fault. IsRefused self.bounds self.bytes fault) }
        ensures again { (fault : FaultValue) → self.fault ≡ Some fault → result ≡ Err fault }
    {
        if let Some(fault) = self.fault {
            return Err(fault);
        }
        let Reader {
            alloc,
            bounds,
            progress,
            ..
        } = self;
        finish(alloc, progress, &bounds)
    }
}

// The module of all bytes that have come.
fn finish(alloc: Global, progress: Progress, bounds: &Bounds) -> Result<Module, ReadFault>
    requires going { Goes bounds.now progress progress.window.items }
    requires few { length (bytes_of progress) ≤ bounds.now.file }
    ensures ok { IfOk result (λ r. IsAccepted bounds.now (bytes_of progress) (module_of r)) }
    ensures sizes { IfOk result (λ r. SizeRule (module_of r)) }
    ensures source_sizes { bounds.now ≡ source_bounds → IfOk result (λ r. StrictSizeRule (module_of r)) }
    ensures short { IfOk result (λ r. length (Enc (module_of r)) ≤ length (bytes_of progress)) }
    ensures refused { IfErr result (λ fault. IsRefused bounds.now (bytes_of progress) fault) }
{
    let Progress {
        before,
        base,
        window,
        machine,
        builder,
    } = progress;
    let _limit = bounds.file();
    let file = Window::new(&before, base, &window);
    match whole(alloc, &machine, &file, bounds) {
        Ok(marks) => {
            let rest = Unbuilt {
                builder,
                left: &window,
                base,
            };
            read_whole(alloc, &file, rest, bounds, &marks)
        }
        Err(CheckFault::Memory) => Err(ReadFault::Memory),
        Err(CheckFault::Malformed { at }) => Err(ReadFault::Malformed { at: at as u64 }),
    }
}

// Whether all bytes that came are a whole file, and what is marked along it.
fn whole(
    alloc: Global,
    machine: &Option<Machine>,
    file: &Window<'_>,
    bounds: &Bounds,
) -> Result<Marks, CheckFault>
    requires { IsGoing bounds.now file.now.all file.now.base machine.now }
    ensures ok { IfOk result (λ m. IsWhole file.now.all) }
    ensures marks { IfOk result (λ m. AreMarks bounds.now file.now.all m) }
    ensures err { IfErr result (IsCause file.now.all) }
{
    match machine {
        Some(machine) => machine.finish(file, bounds),
        None => check(alloc, file, bounds),
    }
}
