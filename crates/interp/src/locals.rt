//! Accesses of locals: `local.get`, `local.set` and `local.tee` (standard, section 4.4.3).

ghost use Rattle.std.specs.Prelude.{◌≡◌, ◌<◌, ◌≤◌, vec_capacity, vec_len, OnErr, ℕ, IfOk};
ghost use Rattle.wa_types.specs.Syntax.{Module, local_get, local_set, local_tee};
ghost use Rattle.wa_model.specs.Store.{Store};
ghost use Rattle.interp.specs.Stacks.{plain_of};
ghost use Rattle.interp.specs.StackRooms.{Roomier};
ghost use Rattle.interp.specs.Told.{Tells};
ghost use Rattle.interp_state.specs.View.{running_of};

use interp_state::{Flow, Stack, set_at, value_at};
use std::alloc::AllocError;

/// `local.get` (standard, section 4.4.3.1).
pub fn get_local(stack: &mut Stack, x: u32) -> Result<Flow, AllocError>
    ensures tells { IfOk result (λ f. (m : Module) (s : Store) (left : ℕ) → 0 < left → Tells s (plain_of m s stack.old (local_get x)) left f (running_of s stack.new)) }
    ensures holds { Roomier stack.old stack.new }
    ensures lacks { OnErr result (vec_capacity stack.old.here.operands ≤ vec_len stack.old.here.operands) }
{
    let v = value_at(&stack.here.locals, x);
    stack.here.operands.push(v)?;
    Ok(Flow::Moved { more: 0 })
}

/// `local.set` (standard, section 4.4.3.2).
pub fn set_local(stack: &mut Stack, x: u32) -> Flow
    ensures tells { (m : Module) (s : Store) (left : ℕ) → 0 < left → Tells s (plain_of m s stack.old (local_set x)) left result (running_of s stack.new) }
    ensures holds { Roomier stack.old stack.new }
{
    let Some(v) = stack.here.operands.pop() else {
        return Flow::Spent;
    };
    set_at(&mut stack.here.locals, x, v);
    Flow::Moved { more: 0 }
}

/// `local.tee` (standard, section 4.4.3.3).
pub fn tee_local(stack: &mut Stack, x: u32) -> Flow
    ensures tells { (m : Module) (s : Store) (left : ℕ) → 0 < left → Tells s (plain_of m s stack.old (local_tee x)) left result (running_of s stack.new) }
    ensures holds { Roomier stack.old stack.new }
{
    let Some(v) = stack.here.operands.last().copied() else {
        return Flow::Spent;
    };
    set_at(&mut stack.here.locals, x, v);
    Flow::Moved { more: 0 }
}
