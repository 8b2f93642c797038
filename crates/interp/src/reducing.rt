//! One reduction, by the instruction that stands next (standard, section 4.4).

ghost use Rattle.std.specs.Prelude.{List, OnOk, OnErr, IfErr, ◌≡◌, ◌<◌, IfOk, ◌∷◌};
ghost use Rattle.wa_types.specs.View.{code, in_front, module_of};
ghost use Rattle.wa_model.specs.Step.{memory_max, step};
ghost use Rattle.interp.specs.Stacks.{code_of};
ghost use Rattle.interp.specs.StackRooms.{StackRoom, TakesMemory, paid_for};
ghost use Rattle.interp.specs.Told.{Tells};
ghost use Rattle.wa_types.specs.declared.values.ValType.{ValType};
ghost use Rattle.wa_types.specs.Validity.{Valid};
ghost use Rattle.run_theory.specs.Fitting.{Fits, NextFits};
ghost use Rattle.interp_state.specs.View.{store_of, running_of};

use crate::branches::{branch_by, branch_if, enter_arm, enter_block, enter_loop};
use crate::calls::{call, call_indirect};
use crate::control::{finish, jump, leave};
use crate::locals::{get_local, set_local, tee_local};
use interp_state::{
    Flow, Program, Stack, Store, choose, constant, drop_top, get_global, load_at, memory_copy,
    memory_fill, memory_grow, memory_size, numeric, set_global, store_at,
};
use std::alloc::AllocError;
use wa_types::{Instr, Trap};

/// One reduction, where it costs no more than is left (standard, section 4.4). Of code that fits, calls of
/// defined functions and `memory.grow` alone may want memory, and then the store is as it was.
pub fn reduce<'m>(
    program: &Program<'m>,
    store: &mut Store,
    stack: &mut Stack<'m>,
    left: u64,
) -> Result<Flow, AllocError>
    requires paid { 0 < left }
    requires most { store.old.memory.max ≡ memory_max (module_of program.now) }
    ensures tells { IfOk result (λ f. Tells (store_of store.old) (step (module_of program.now) (running_of (store_of store.old) stack.old)) left f
        (running_of (store_of store.new) stack.new)) }
    ensures max { store.new.memory.max ≡ store.old.memory.max }
    ensures holds { OnOk result (StackRoom (module_of program.now) stack.old → StackRoom (module_of program.now) stack.new) }
    ensures lacks { IfErr result (λ _. (outs : List ValType) → StackRoom (module_of program.now) stack.old → Valid (module_of program.now)
        → Fits (module_of program.now) outs (running_of (store_of store.old) stack.old)
        → TakesMemory (code stack.old.here.code.now) × (paid_for (step (module_of program.now) (running_of (store_of store.old) stack.old)) ≡ 0)) }
    ensures unchanged { OnErr result (store_of store.new ≡ store_of store.old) }
{
    let Some((instr, rest)) = stack.here.code.split_first() else {
        return finish(program, stack);
    };
    stack.here.code = rest;
    dispatch(program, store, stack, instr, left)
}

/// By the instruction, the code of the activation being what follows it.
fn dispatch<'m>(
    program: &Program<'m>,
    store: &mut Store,
    stack: &mut Stack<'m>,
    instr: &'m Instr,
    left: u64,
) -> Result<Flow, AllocError>
    requires paid { 0 < left }
    requires most { store.old.memory.max ≡ memory_max (module_of program.now) }
    ensures tells { IfOk result (λ f. Tells (store_of store.old) (code_of (module_of program.now) (store_of store.old) stack.old
        (in_front instr.now (code stack.old.here.code.now))) left f (running_of (store_of store.new) stack.new)) }
    ensures max { store.new.memory.max ≡ store.old.memory.max }
    ensures holds { OnOk result (StackRoom (module_of program.now) stack.old → StackRoom (module_of program.now) stack.new) }
    ensures lacks { IfErr result (λ _. (outs : List ValType) → StackRoom (module_of program.now) stack.old
        → NextFits (module_of program.now) outs (code_of (module_of program.now) (store_of store.old) stack.old (in_front instr.now (code stack.old.here.code.now)))
        → TakesMemory (in_front instr.now (code stack.old.here.code.now))
        × (paid_for (code_of (module_of program.now) (store_of store.old) stack.old (in_front instr.now (code stack.old.here.code.now))) ≡ 0)) }
    ensures unchanged { OnErr result (store_of store.new ≡ store_of store.old) }
{
    match instr {
        Instr::LocalGet(x) => get_local(stack, *x),
        Instr::Const(value) => constant(&mut stack.here.operands, *value),
        Instr::Num(op) => numeric(*op, &mut stack.here.operands),
        Instr::Load { op, offset, .. } => load_at(store, &mut stack.here.operands, *op, *offset),
        Instr::Store { op, offset, .. } => Ok(store_at(
            store,
            &mut stack.here.operands,
            *op,
            *offset,
        )),
        Instr::LocalSet(x) => Ok(set_local(stack, *x)),
        Instr::LocalTee(x) => Ok(tee_local(stack, *x)),
        Instr::GlobalGet(x) => get_global(store, &mut stack.here.operands, *x),
        Instr::GlobalSet(x) => Ok(set_global(store, &mut stack.here.operands, *x)),
        Instr::BrIf(label) => branch_if(program, stack, *label),
        Instr::Br(label) => jump(program, stack, *label, 0),
        Instr::BrTable { labels, last } => branch_by(program, stack, labels, *last, left),
        Instr::Block { result, body } => enter_block(stack, *result, body),
        Instr::Loop { result, body } => enter_loop(stack, *result, body),
        Instr::If {
            result,
            then_arm,
            else_arm,
        } => enter_arm(stack, *result, then_arm, else_arm),
        Instr::Call(func) => call(program, stack, *func, left),
        Instr::CallIndirect(sort) => call_indirect(program, &store.table, stack, *sort, left),
        Instr::Return => leave(stack, program.func_results(stack.here.func), 0),
        Instr::Drop => Ok(drop_top(&mut stack.here.operands)),
        Instr::Select => choose(&mut stack.here.operands),
        Instr::MemorySize => memory_size(store, &mut stack.here.operands),
        Instr::MemoryGrow => memory_grow(store, &mut stack.here.operands),
        Instr::MemoryCopy => Ok(memory_copy(store, &mut stack.here.operands, left)),
        Instr::MemoryFill => Ok(memory_fill(store, &mut stack.here.operands, left)),
        Instr::Nop => Ok(Flow::Moved { more: 0 }),
        Instr::Unreachable => Ok(Flow::Trapped {
            more: 0,
            trap: Trap::Unreachable,
        }),
    }
}
