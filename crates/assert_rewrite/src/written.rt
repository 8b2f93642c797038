//! Written bodies with asserts.

ghost use Rattle.std.specs.Prelude.{◌≡◌, IfOk};
ghost use Rattle.wa_types.specs.Syntax.{Code, done};
ghost use Rattle.wa_types.specs.View.{code, in_front};
ghost use Rattle.guard_form.specs.Asserts.{asserted, tested_behind};
ghost use Rattle.guard_form.specs.Pieces.{sole_callee};
ghost use Rattle.assert_rewrite.specs.Testing.{without_number};

use crate::calls::is_free;
use crate::tests::put_where;
use std::alloc::{AllocError, Global};
use wa_types::{Instr, copy_leaf};

/// A written body, with a test behind each call whose callee has no number: it is no listed import and may not pause, or stands in the
/// table, where those are ignored.
#[cycle(free)]
pub fn assert_free(
    alloc: Global,
    body: &[Instr],
    which: &[bool],
    listed: &[bool],
    ignore_indirect: bool,
    state: u32,
) -> Result<Vec<Instr>, AllocError>
    ensures { IfOk result (λ v. code v.items ≡ asserted (without_number which.now listed.now ignore_indirect) state (code body.now)) }
{
    let mut out = Vec::new(alloc);
    for instr in body {
        out.push(free_instr(alloc, instr, which, listed, ignore_indirect, state)?)?;
        let wanted = is_free(instr, which, listed, ignore_indirect);
        put_where(alloc, &mut out, wanted, state)?;
    }
    Ok(out)
}

/// The instruction, with such tests inside.
#[cycle(free)]
fn free_instr(
    alloc: Global,
    instr: &Instr,
    which: &[bool],
    listed: &[bool],
    ignore_indirect: bool,
    state: u32,
) -> Result<Instr, AllocError>
    ensures { IfOk result (λ i. (rest : Code) → asserted (without_number which.now listed.now ignore_indirect) state (in_front instr.now rest)
        ≡ in_front i (tested_behind (without_number which.now listed.now ignore_indirect) state (sole_callee (in_front instr.now done))
        (asserted (without_number which.now listed.now ignore_indirect) state rest))) }
{
    match instr {
        Instr::Block { result, body } => Ok(Instr::Block {
            result: *result,
            body: assert_free(alloc, body, which, listed, ignore_indirect, state)?,
        }),
        Instr::Loop { result, body } => Ok(Instr::Loop {
            result: *result,
            body: assert_free(alloc, body, which, listed, ignore_indirect, state)?,
        }),
        Instr::If {
            result,
            then_arm,
            else_arm,
        } => Ok(Instr::If {
            result: *result,
            then_arm: assert_free(alloc, then_arm, which, listed, ignore_indirect, state)?,
            else_arm: assert_free(alloc, else_arm, which, listed, ignore_indirect, state)?,
        }),
        _ => copy_leaf(alloc, instr),
    }
}
