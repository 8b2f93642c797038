//! Functions that can't pause, with asserts.

ghost use Rattle.std.specs.Prelude.{◌≡◌, IfOk};
ghost use Rattle.wa_types.specs.Syntax.{Code};
ghost use Rattle.wa_types.specs.View.{code, func_of, in_front, onto};
ghost use Rattle.guard_form.specs.Asserts.{Asserted, asserted_reached};
ghost use Rattle.assert_rewrite.specs.Testing.{StandsFor, where_reached};

use crate::calls::is_call;
use crate::tests::put_where;
use std::alloc::{AllocError, Global};
use wa_types::{Func, Instr, copy_body, copy_leaf};

/// A function that can't pause, with a test behind each of its calls that can be reached.
pub fn assert_plain(alloc: Global, func: &Func, state: u32) -> Result<Func, AllocError>
    ensures asserted { IfOk result (λ f. Asserted state (func_of func.now) (func_of f)) }
    ensures whole { IfOk result (λ f. func_of f ≡ record (func_of func.now) { body = asserted_reached state (func_of func.now).body }) }
{
    Ok(Func {
        sort: func.sort,
        locals: Vec::from_slice(alloc, &func.locals)?,
        body: assert_body(alloc, &func.body, state)?,
    })
}

/// Its body.
#[cycle(reached)]
fn assert_body(alloc: Global, body: &[Instr], state: u32) -> Result<Vec<Instr>, AllocError>
    ensures { IfOk result (λ v. code v.items ≡ asserted_reached state (code body.now)) }
{
    let mut out = Vec::new(alloc);
    let mut reached = true;
    for instr in body {
        let made = assert_instr(alloc, instr, reached, state)?;
        reached = put_next(alloc, &mut out, instr, made, reached, state)?;
    }
    Ok(out)
}

/// The instruction, with such tests inside where it can be reached, else as it is.
#[cycle(reached)]
fn assert_instr(
    alloc: Global,
    instr: &Instr,
    reached: bool,
    state: u32,
) -> Result<Instr, AllocError>
    ensures { IfOk result (λ i. StandsFor state reached instr.now i) }
{
    if !reached {
        return copy_instr(alloc, instr);
    }
    match instr {
        Instr::Block { result, body } => Ok(Instr::Block {
            result: *result,
            body: assert_body(alloc, body, state)?,
        }),
        Instr::Loop { result, body } => Ok(Instr::Loop {
            result: *result,
            body: assert_body(alloc, body, state)?,
        }),
        Instr::If {
            result,
            then_arm,
            else_arm,
        } => Ok(Instr::If {
            result: *result,
            then_arm: assert_body(alloc, then_arm, state)?,
            else_arm: assert_body(alloc, else_arm, state)?,
        }),
        _ => copy_leaf(alloc, instr),
    }
}

/// Puts the next instruction as it was made, and the test behind a call that can be reached; and tells whether what comes behind can be
/// reached.
fn put_next(
    alloc: Global,
    out: &mut Vec<Instr>,
    instr: &Instr,
    made: Instr,
    reached: bool,
    state: u32,
) -> Result<bool, AllocError>
    requires { StandsFor state reached instr.now made }
    ensures { IfOk result (λ b. (rest : Code) → onto out.new.items (where_reached state b rest) ≡ onto out.old.items (where_reached state reached (in_front instr.now rest))) }
{
    out.push(made)?;
    if reached && !instr.is_last() {
        put_where(alloc, out, is_call(instr), state)?;
        return Ok(true);
    }
    Ok(false)
}

/// An equal instruction.
fn copy_instr(alloc: Global, instr: &Instr) -> Result<Instr, AllocError>
    ensures { IfOk result (λ i. (rest : Code) → in_front i rest ≡ in_front instr.now rest) }
{
    match instr {
        Instr::Block { result, body } => Ok(Instr::Block {
            result: *result,
            body: copy_body(alloc, body)?,
        }),
        Instr::Loop { result, body } => Ok(Instr::Loop {
            result: *result,
            body: copy_body(alloc, body)?,
        }),
        Instr::If {
            result,
            then_arm,
            else_arm,
        } => Ok(Instr::If {
            result: *result,
            then_arm: copy_body(alloc, then_arm)?,
            else_arm: copy_body(alloc, else_arm)?,
        }),
        _ => copy_leaf(alloc, instr),
    }
}
