//! The test, put behind others.

ghost use Rattle.std.specs.Prelude.{◌≡◌, OnOk, if◌then◌else◌};
ghost use Rattle.flow_rewrite.specs.Putting.{Puts};
ghost use Rattle.guard_form.specs.Asserts.{assert_code};

use std::alloc::{AllocError, Global};
use wa_types::{Instr, NumOp, Value};

/// Puts the code that traps where the state is 1.
fn put_test(alloc: Global, out: &mut Vec<Instr>, state: u32) -> Result<(), AllocError>
    ensures { OnOk result (Puts out.old.items out.new.items (assert_code state)) }
{
    out.push(Instr::GlobalGet(state))?;
    out.push(Instr::Const(Value::I32(1)))?;
    out.push(Instr::Num(NumOp::I32Eq))?;
    let mut trap = Vec::new(alloc);
    trap.push(Instr::Unreachable)?;
    out.push(Instr::If {
        result: None,
        then_arm: trap,
        else_arm: Vec::new(alloc),
    })?;
    Ok(())
}

/// Puts it where one is wanted.
pub fn put_where(
    alloc: Global,
    out: &mut Vec<Instr>,
    wanted: bool,
    state: u32,
) -> Result<(), AllocError>
    ensures { OnOk result (Puts out.old.items out.new.items (λ c. if wanted then assert_code state c else c)) }
{
    if wanted {
        put_test(alloc, out, state)?;
        return Ok(());
    }
    Ok(())
}
