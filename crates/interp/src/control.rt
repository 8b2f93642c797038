//! Branches to a label, ends of sequences, and returns (standard, sections 4.4.5.6, 4.4.6.2 and 4.4.7.2).

ghost use Rattle.std.specs.Prelude.{◌≡◌, ◌<◌, ◌≤◌, List, vec_capacity, OnErr, IfErr, ◌++◌, ℕ, [], IfOk, length, reverse, take, drop};
ghost use Rattle.wa_types.specs.View.{module_of};
ghost use Rattle.wa_model.specs.Store.{Store};
ghost use Rattle.wa_model.specs.Step.{keep};
ghost use Rattle.wa_model.specs.Blocking.{value_of_results};
ghost use Rattle.interp.specs.Stacks.{leave_of, jump_of, finish_of};
ghost use Rattle.wa_types.specs.Syntax.{Module};
ghost use Rattle.wa_types.specs.declared.values.ValType.{ValType};
ghost use Rattle.run_theory.specs.Fitting.{NextFits};
ghost use Rattle.interp.specs.StackRooms.{StackRoom};
ghost use Rattle.interp.specs.Told.{Tells};
ghost use Rattle.interp_state.specs.View.{count_of, running_of};

use interp_state::{Flow, Label, Program, Stack};
use std::alloc::AllocError;
use std::mem;
use wa_types::Value;

/// The results go to the caller, or out of the outermost activation (standard, section 4.4.7.2).
pub fn leave(stack: &mut Stack, arity: usize, more: u64) -> Result<Flow, AllocError>
    ensures tells { IfOk result (λ f. (s : Store) (left : ℕ) → more < left → Tells s (leave_of s more stack.old arity) left f (running_of s stack.new)) }
    ensures holds { (m : Module) → StackRoom m stack.old → StackRoom m stack.new }
    ensures lacks { IfErr result (λ _. (m : Module) (s : Store) (outs : List ValType) → StackRoom m stack.old → NextFits m outs (leave_of s more stack.old arity) → ⊥) }
{
    let Some(caller) = stack.under.pop() else {
        let value = top_of(&stack.here.operands, arity);
        return Ok(Flow::Returned { more, value });
    };
    let callee = mem::replace(&mut stack.here, caller.activation);
    hand_over(
        &callee.operands,
        arity,
        &mut stack.here.operands,
        caller.taken,
    )?;
    Ok(Flow::Moved { more })
}

/// The topmost of so many results, where there are any.
#[tactic(auto, using(crate::proofs::JumpLemmas::topping))]
fn top_of(operands: &Vec<Value>, arity: usize) -> Option<Value>
    ensures { result ≡ value_of_results (take arity (reverse operands.now.items)) }
{
    if arity == 0 {
        return None;
    }
    operands.last().copied()
}

/// Takes operands off a caller's, and puts the results in their place.
#[tactic(auto, using(crate::proofs::JumpLemmas::handing))]
fn hand_over(
    from: &Vec<Value>,
    arity: usize,
    to: &mut Vec<Value>,
    taken: usize,
) -> Result<(), AllocError>
    ensures puts { IfOk result (λ _. reverse to.new.items ≡ take arity (reverse from.now.items) ++ drop taken (reverse to.old.items)) }
    ensures holds { vec_capacity to.old ≤ vec_capacity to.new }
    ensures lacks { OnErr result (vec_capacity to.old < length (take arity (reverse from.now.items) ++ drop taken (reverse to.old.items))) }
{
    to.truncate(to.len().saturating_sub(taken));
    to.extend_from_slice(&from[from.len().saturating_sub(arity)..])?;
    Ok(())
}

/// A branch to the label of this number; past the last one it leaves the function (standard, section 4.4.5.6).
pub fn jump(program: &Program, stack: &mut Stack, label: u32, more: u64) -> Result<Flow, AllocError>
    ensures tells { IfOk result (λ f. (s : Store) (left : ℕ) → more < left → Tells s (jump_of (module_of program.now) s more stack.old label) left f (running_of s stack.new)) }
    ensures holds { (m : Module) → StackRoom m stack.old → StackRoom m stack.new }
    ensures lacks { IfErr result (λ _. (s : Store) (outs : List ValType) → StackRoom (module_of program.now) stack.old
        → NextFits (module_of program.now) outs (jump_of (module_of program.now) s more stack.old label) → ⊥) }
{
    let mut passed = label;
    while let Some(entry) = stack.here.labels.last() {
        if passed == 0 {
            match *entry {
                Label::Block {
                    height,
                    carries,
                    rest,
                    ..
                } => {
                    carry(&mut stack.here.operands, height, carries)?;
                    stack.here.code = rest;
                    let _ = stack.here.labels.pop();
                }
                Label::Loop { height, body, .. } => {
                    stack.here.operands.truncate(height);
                    stack.here.code = body;
                }
            }
            return Ok(Flow::Moved { more });
        }
        let _ = stack.here.labels.pop();
        passed -= 1;
    }
    leave(stack, program.func_results(stack.here.func), more)
}

/// Keeps the lowest operands, and the topmost one where it is carried.
#[tactic(auto, using(crate::proofs::JumpLemmas::keeping))]
fn carry(operands: &mut Vec<Value>, height: usize, carries: bool) -> Result<(), AllocError>
    ensures keeps { IfOk result (λ _. reverse operands.new.items ≡ take (count_of carries) (reverse operands.old.items) ++ keep height (reverse operands.old.items)) }
    ensures holds { vec_capacity operands.old ≤ vec_capacity operands.new }
    ensures lacks { OnErr result (vec_capacity operands.old < length (take (count_of carries) (reverse operands.old.items) ++ keep height (reverse operands.old.items))) }
{
    if !carries {
        operands.truncate(height);
        return Ok(());
    }
    let Some(top) = operands.last().copied() else {
        return Ok(());
    };
    operands.truncate(height);
    operands.push(top)?;
    Ok(())
}

/// The end of a sequence (standard, sections 4.4.6.2 and 4.4.7.2).
pub fn finish(program: &Program, stack: &mut Stack) -> Result<Flow, AllocError>
    requires { stack.old.here.code.now ≡ [] }
    ensures tells { IfOk result (λ f. (s : Store) (left : ℕ) → 0 < left → Tells s (finish_of (module_of program.now) s stack.old) left f (running_of s stack.new)) }
    ensures holds { (m : Module) → StackRoom m stack.old → StackRoom m stack.new }
    ensures lacks { IfErr result (λ _. (s : Store) (outs : List ValType) → StackRoom (module_of program.now) stack.old
        → NextFits (module_of program.now) outs (finish_of (module_of program.now) s stack.old) → ⊥) }
{
    match stack.here.labels.pop() {
        None => leave(stack, program.func_results(stack.here.func), 0),
        Some(Label::Block { rest, .. }) => {
            stack.here.code = rest;
            Ok(Flow::Moved { more: 0 })
        }
        Some(Label::Loop { rest, .. }) => {
            stack.here.code = rest;
            Ok(Flow::Moved { more: 0 })
        }
    }
}
