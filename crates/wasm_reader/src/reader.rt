//! A module from the bytes of a whole file, or why it is refused (standard, section 5).

ghost use Rattle.std.specs.Prelude.{◌≡◌, ◌+◌, ◌^◌, ◌<◌, ◌≤◌, ◌⊎◌, ℕ, List, length, IfOk};
ghost use Rattle.std.specs.Result.{IfErr};
ghost use Rattle.wa_types.specs.Begun.{IsWhole};
ghost use Rattle.wa_types.specs.Binary.{Section};
ghost use Rattle.wa_types.specs.Encoding.{Enc};
ghost use Rattle.wa_types.specs.ModuleBounds.{prepared_bounds, source_bounds};
ghost use Rattle.wa_types.specs.Sizes.{SizeRule, StrictSizeRule};
ghost use Rattle.wa_types.specs.View.{module_of};
ghost use Rattle.wasm_reader.specs.Answers.{IsAccepted, IsFile, IsRefused};
ghost use Rattle.file_laws.specs.Found.{MarksOf};
ghost use Rattle.wasm_grammar.specs.Machine.{AreMarks};
ghost use Rattle.wasm_reader.specs.Marking.{IsJudged};
ghost use Rattle.wasm_reader.specs.Progress.{GivesLeft, IsLeft};

use crate::locals::locals_above;
use crate::read_fault::ReadFault;
use std::alloc::Global;
use wa_types::{Bounds, LimitKind, Module};
use wasm_build::{BuildFault, Builder};
use wasm_grammar::{CheckFault, Marks, Passed, Window, check};

/// The module that the bytes spell (standard, section 5), where it has no float and is within the bounds. Any
/// spelling is accepted, padded numbers too; custom sections are kept unread. Takes time linear in the bytes, and room
/// for what the module holds and for the constructs that are open at once.
///
/// Else the first of these: `Limit` of `File`; `Malformed`, exactly where the bytes spell no module, with the least
/// number of first bytes that aren't the beginning of items in an order of the grammar (`Begun`), or the input's length
/// where there is none; `Float` and `Deep` with the least offset; the other limits in the order of `LimitKind`, `Deep`
/// before `Locals`, each with the first number past its bound. `Memory` may come in the place of any answer.
pub fn read(alloc: Global, bytes: &[u8], bounds: &Bounds) -> Result<Module, ReadFault>
    ensures ok { IfOk result (λ r. IsAccepted bounds.now bytes.now (module_of r)) }
    ensures sizes { IfOk result (λ r. SizeRule (module_of r)) }
    ensures source_sizes { bounds.now ≡ source_bounds → IfOk result (λ r. StrictSizeRule (module_of r)) }
    ensures short { IfOk result (λ r. length (Enc (module_of r)) ≤ length bytes.now) }
    ensures refused { IfErr result (λ fault. IsRefused bounds.now bytes.now fault) }
{
    if bytes.len() > bounds.file() as usize {
        return Err(ReadFault::Limit {
            what: LimitKind::File,
            found: bounds.file() as u64 + 1,
        });
    }
    let nothing = Passed::none();
    let file = Window::whole(&nothing, bytes);
    match check(alloc, &file, bounds) {
        Ok(marks) => {
            let rest = Unbuilt {
                builder: Some(Builder::new(alloc)),
                left: bytes,
                base: 0,
            };
            read_whole(alloc, &file, rest, bounds, &marks)
        }
        Err(CheckFault::Memory) => Err(ReadFault::Memory),
        Err(CheckFault::Malformed { at }) => Err(ReadFault::Malformed { at: at as u64 }),
    }
}

/// The last bytes of a file, which aren't built yet: what builds it, where it still can, these bytes, and where they begin.
#[derive(Drop)]
pub(crate) struct Unbuilt<'a> {
    pub builder: Option<Builder>,
    pub left: &'a [u8],
    pub base: usize,
}

/// The module of a whole file along which this was marked, of which these last bytes aren't built, or why it is refused.
pub(crate) fn read_whole(
    alloc: Global,
    file: &Window<'_>,
    rest: Unbuilt<'_>,
    bounds: &Bounds,
    marks: &Marks,
) -> Result<Module, ReadFault>
    requires few { length file.now.all ≤ bounds.now.file }
    requires columns { (bounds.now ≡ source_bounds) ⊎ (bounds.now ≡ prepared_bounds) }
    requires whole { IsWhole file.now.all }
    requires marks { AreMarks bounds.now file.now.all marks.now }
    requires left { IsLeft bounds.now file.now.all rest.builder rest.left.now rest.base }
    ensures ok { IfOk result (λ r. IsAccepted bounds.now file.now.all (module_of r)) }
    ensures sizes { IfOk result (λ r. SizeRule (module_of r)) }
    ensures source_sizes { bounds.now ≡ source_bounds → IfOk result (λ r. StrictSizeRule (module_of r)) }
    ensures short { IfOk result (λ r. length (Enc (module_of r)) ≤ length file.now.all) }
    ensures refused { IfErr result (λ fault. IsRefused bounds.now file.now.all fault) }
{
    if let Some(fault) = judge(marks, bounds) {
        return Err(fault);
    }
    let module = match build_left(alloc, rest) {
        Ok(module) => module,
        Err(BuildFault::Memory) => return Err(ReadFault::Memory),
        Err(BuildFault::NotSpelled) => unreachable!(),
    };
    if let Some(found) = locals_above(&module, bounds.locals()) {
        return Err(ReadFault::Limit {
            what: LimitKind::Locals,
            found,
        });
    }
    Ok(module)
}

// The module of a file whose last bytes these are.
fn build_left(alloc: Global, rest: Unbuilt<'_>) -> Result<Module, BuildFault>
    requires { rest.base + length rest.left.now < 2 ^ 64 }
    ensures { GivesLeft result rest.entry.builder rest.entry.left.now rest.entry.base }
{
    let Unbuilt {
        builder,
        left,
        base,
    } = rest;
    let Some(mut builder) = builder else {
        return Err(BuildFault::NotSpelled);
    };
    let _used = builder.take(alloc, left, base)?;
    Ok(builder.into_module())
}

// Why a file of these marks is refused, if it is.
fn judge(marks: &Marks, bounds: &Bounds) -> Option<ReadFault>
    ensures { (bytes : List ℕ) (ss : List Section) → IsFile bounds.now bytes ss → MarksOf bounds.now ss marks.now → IsJudged bounds.now bytes ss result }
{
    if let Some(at) = marks.float {
        return Some(ReadFault::Float { at });
    }
    if marks.functions > bounds.functions() as u64 {
        return Some(ReadFault::Limit {
            what: LimitKind::Functions,
            found: marks.functions,
        });
    }
    if let Some(found) = marks.parameters {
        return Some(ReadFault::Limit {
            what: LimitKind::Parameters,
            found: found as u64,
        });
    }
    if let Some(found) = marks.body {
        return Some(ReadFault::Limit {
            what: LimitKind::Body,
            found: found as u64,
        });
    }
    if let Some(at) = marks.deep {
        return Some(ReadFault::Deep { at });
    }
    None
}
