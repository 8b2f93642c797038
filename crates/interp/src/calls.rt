//! Calls: `call`, `call_indirect`, and the invocation of a function (standard, sections 4.4.5.10, 4.4.5.11 and 4.4.7.1).

ghost use Rattle.std.specs.Prelude.{◌≡◌, OnOk, ◌<◌, ◌+◌, ◌^◌, ◌++◌, ℕ, Some, IfErr, IfOk, MatchOption, map, slice_get, reverse, take, drop};
ghost use Rattle.wa_types.specs.Modules.{declared_locals, defined_at};
ghost use Rattle.wa_types.specs.Syntax.{call, call_indirect};
ghost use Rattle.wa_types.specs.View.{func_of, module_of};
ghost use Rattle.wa_model.specs.Store.{Store};
ghost use Rattle.wa_model.specs.Step.{zero_of};
ghost use Rattle.interp_state.specs.Rooms.{room_of};
ghost use Rattle.interp.specs.StackRooms.{Reserves, StackRoom, paid_for};
ghost use Rattle.interp.specs.Stacks.{IsEntered, HasNumber, LacksNumber, invoke_of, plain_of};
ghost use Rattle.interp.specs.Told.{Tells};
ghost use Rattle.interp_state.specs.View.{running_of, store_of};

use interp_state::{Activation, Flow, Program, Stack, Waiting};
use std::alloc::{AllocError, Global};
use std::mem;
use wa_types::{Func, Run, Trap, ValType, Value};

/// How many activations there may be.
const MOST_ACTIVATIONS: usize = 4_096;

/// The locals of a new activation: its arguments, and zeros (standard, section 4.4.7.1).
fn make_locals(alloc: Global, args: &[Value], runs: &[Run]) -> Result<Vec<Value>, AllocError>
    ensures { IfOk result (λ v. v.items ≡ args.now ++ map zero_of (declared_locals runs.now)) }
{
    let mut locals = Vec::from_slice(alloc, args)?;
    for run in runs {
        locals.resize(locals.len() + run.count as usize, zero(run.ty))?;
    }
    Ok(locals)
}

/// A new activation of a function, with these arguments (standard, section 4.4.7.1). It has room for all operands and
/// labels that it will hold.
pub fn enter<'m>(
    program: &Program<'m>,
    func: u32,
    callee: &'m Func,
    args: &[Value],
) -> Result<Activation<'m>, AllocError>
    requires { defined_at (module_of program.now) func ≡ Some (func_of callee.now) }
    ensures entered { IfOk result (λ a. IsEntered a func args.now (func_of callee.now)) }
    ensures reserves { IfOk result (λ a. Reserves a (room_of (module_of program.now) (func_of callee.now))) }
{
    let alloc = program.alloc();
    let room = program.room(func);
    Ok(Activation {
        func,
        locals: make_locals(alloc, args, &callee.locals)?,
        operands: Vec::with_capacity(alloc, room.operands)?,
        code: callee.body.as_slice(),
        labels: Vec::with_capacity(alloc, room.labels)?,
    })
}

/// The zero of a type.
fn zero(ty: ValType) -> Value
    ensures { result ≡ zero_of ty }
{
    match ty {
        ValType::I32 => Value::I32(0),
        ValType::I64 => Value::I64(0),
    }
}

/// So many operands below the topmost ones, the lowest first.
pub fn args_of(operands: &Vec<Value>, own: usize, params: usize) -> &[Value]
    ensures { result.now ≡ reverse (take params (drop own (reverse operands.now.items))) }
{
    let end = operands.len().saturating_sub(own);
    &operands[end.saturating_sub(params)..end]
}

/// A call of the function of this index, which takes so many operands itself and then the arguments. One that would make
/// an activation too many traps (standard, section 4.4.7.1).
fn invoke<'m>(
    program: &Program<'m>,
    stack: &mut Stack<'m>,
    own: usize,
    params: usize,
    func: u32,
    left: u64,
) -> Result<Flow, AllocError>
    requires { own + params < 2 ^ 64 }
    ensures tells { IfOk result (λ f. (s : Store) → Tells s (invoke_of (module_of program.now) s stack.old own params func) left f (running_of s stack.new)) }
    ensures holds { OnOk result (StackRoom (module_of program.now) stack.old → StackRoom (module_of program.now) stack.new) }
    ensures lacks { IfErr result (λ _. (s : Store) → paid_for (invoke_of (module_of program.now) s stack.old own params func) ≡ 0) }
{
    let more = params as u64;
    let taken = own + params;
    if left <= more {
        return Ok(Flow::Spent);
    }
    let Some(callee) = program.defined(func) else {
        if program.is_imported(func) {
            return Ok(Flow::Asked {
                more,
                import: func,
                own,
                taken,
            });
        }
        return Ok(Flow::Spent);
    };
    if stack.under.len() + 1 >= MOST_ACTIVATIONS {
        let trap = Trap::StackExhausted;
        return Ok(Flow::Trapped { more, trap });
    }
    let args = args_of(&stack.here.operands, own, params);
    let entered = enter(program, func, callee, args)?;
    let caller = mem::replace(&mut stack.here, entered);
    stack.under.push(Waiting {
        activation: caller,
        taken,
    })?;
    Ok(Flow::Moved { more })
}

/// The topmost operand, where it is an i32. It stays.
#[tactic(auto, using(crate::proofs::NumberLemmas::peeking))]
fn top_number(operands: &Vec<Value>) -> Option<u32>
    ensures { MatchOption result (LacksNumber (reverse operands.now.items)) (λ n. HasNumber (reverse operands.now.items) n) }
{
    let Some(Value::I32(n)) = operands.last().copied() else {
        return None;
    };
    Some(n)
}

/// The element of a table at this place.
fn element_at(table: &Vec<Option<u32>>, place: u32) -> Option<Option<u32>>
    ensures { result ≡ slice_get table.now.items place }
{
    table.get(place as usize).copied()
}

/// `call` (standard, section 4.4.5.10).
pub fn call<'m>(
    program: &Program<'m>,
    stack: &mut Stack<'m>,
    func: u32,
    left: u64,
) -> Result<Flow, AllocError>
    ensures tells { IfOk result (λ f. (s : Store) → Tells s (plain_of (module_of program.now) s stack.old (call func)) left f (running_of s stack.new)) }
    ensures holds { OnOk result (StackRoom (module_of program.now) stack.old → StackRoom (module_of program.now) stack.new) }
    ensures lacks { IfErr result (λ _. (s : Store) → paid_for (plain_of (module_of program.now) s stack.old (call func)) ≡ 0) }
{
    let params = program.func_params(func);
    invoke(program, stack, 0, params, func, left)
}

/// `call_indirect` (standard, section 4.4.5.11).
pub fn call_indirect<'m>(
    program: &Program<'m>,
    table: &Vec<Option<u32>>,
    stack: &mut Stack<'m>,
    sort: u32,
    left: u64,
) -> Result<Flow, AllocError>
    ensures tells { IfOk result (λ f. (s : Store) → s.table ≡ table.now.items → Tells s (plain_of (module_of program.now) s stack.old (call_indirect sort)) left f
        (running_of s stack.new)) }
    ensures holds { OnOk result (StackRoom (module_of program.now) stack.old → StackRoom (module_of program.now) stack.new) }
    ensures lacks { IfErr result (λ _. (s : Store) → s.table ≡ table.now.items → paid_for (plain_of (module_of program.now) s stack.old (call_indirect sort)) ≡ 0) }
{
    let params = program.sort_params(sort);
    let more = params as u64;
    let Some(place) = top_number(&stack.here.operands) else {
        return Ok(Flow::Spent);
    };
    if left <= more {
        return Ok(Flow::Spent);
    }
    let Some(element) = element_at(table, place) else {
        let trap = Trap::UndefinedElement;
        return Ok(Flow::Trapped { more, trap });
    };
    let Some(func) = element else {
        let trap = Trap::UninitializedElement;
        return Ok(Flow::Trapped { more, trap });
    };
    if !program.has_type(func, sort) {
        let trap = Trap::TypeMismatch;
        return Ok(Flow::Trapped { more, trap });
    }
    invoke(program, stack, 1, params, func, left)
}
