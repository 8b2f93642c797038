//! Conditional branches, and constructs entered: `br_if`, `br_table`, `block`, `loop` and `if` (standard, section 4.4.5).

ghost use Rattle.std.specs.Prelude.{◌≡◌, ◌<◌, ◌≤◌, List, vec_capacity, vec_len, OnErr, IfErr, ◌∷◌, ℕ, IfOk, MatchOption, reverse, slice_get, unwrap_or};
ghost use Rattle.wa_types.specs.Syntax.{Module, a_block, a_loop, nest, branch, br_if, br_table, done};
ghost use Rattle.wa_types.specs.declared.values.Value.TheVariants as V;
ghost use Rattle.wa_types.specs.View.{code, module_of};
ghost use Rattle.wa_model.specs.Store.{Store};
ghost use Rattle.interp.specs.Stacks.{LacksNumber, code_of, plain_of};
ghost use Rattle.wa_types.specs.declared.values.ValType.{ValType};
ghost use Rattle.run_theory.specs.Fitting.{NextFits};
ghost use Rattle.interp.specs.StackRooms.{Roomier, StackRoom};
ghost use Rattle.interp.specs.Told.{Tells};
ghost use Rattle.interp_state.specs.View.{running_of};

use crate::control::jump;
use interp_state::{Flow, Label, Program, Stack};
use std::alloc::AllocError;
use wa_types::{Instr, ValType, Value};

/// `br_if` (standard, section 4.4.5.7).
pub fn branch_if(program: &Program, stack: &mut Stack, label: u32) -> Result<Flow, AllocError>
    ensures tells { IfOk result (λ f. (s : Store) (left : ℕ) → 0 < left → Tells s (plain_of (module_of program.now) s stack.old (br_if label)) left f (running_of s stack.new)) }
    ensures holds { (m : Module) → StackRoom m stack.old → StackRoom m stack.new }
    ensures lacks { IfErr result (λ _. (s : Store) (outs : List ValType) → StackRoom (module_of program.now) stack.old
        → NextFits (module_of program.now) outs (plain_of (module_of program.now) s stack.old (br_if label)) → ⊥) }
{
    let Some(test) = pop_number(&mut stack.here.operands) else {
        return Ok(Flow::Spent);
    };
    if test != 0 {
        return jump(program, stack, label, 0);
    }
    Ok(Flow::Moved { more: 0 })
}

/// `br_table` (standard, section 4.4.5.8).
pub fn branch_by(
    program: &Program,
    stack: &mut Stack,
    labels: &Vec<u32>,
    last: u32,
    left: u64,
) -> Result<Flow, AllocError>
    ensures tells { IfOk result (λ f. (s : Store) → Tells s (plain_of (module_of program.now) s stack.old (br_table labels.now.items last)) left f (running_of s stack.new)) }
    ensures holds { (m : Module) → StackRoom m stack.old → StackRoom m stack.new }
    ensures lacks { IfErr result (λ _. (s : Store) (outs : List ValType) → StackRoom (module_of program.now) stack.old
        → NextFits (module_of program.now) outs (plain_of (module_of program.now) s stack.old (br_table labels.now.items last)) → ⊥) }
{
    let more = labels.len() as u64 + 1;
    if left <= more {
        return Ok(Flow::Spent);
    }
    let Some(n) = pop_number(&mut stack.here.operands) else {
        return Ok(Flow::Spent);
    };
    let label = target_of(labels, n, last);
    jump(program, stack, label, more)
}

/// The label of this place in a list, or the last one.
fn target_of(labels: &Vec<u32>, n: u32, last: u32) -> u32
    ensures { result ≡ unwrap_or (slice_get labels.now.items n) last }
{
    labels.get(n as usize).copied().unwrap_or(last)
}

/// Takes the topmost operand, where it is an i32.
#[tactic(auto, using(crate::proofs::NumberLemmas::popping))]
fn pop_number(operands: &mut Vec<Value>) -> Option<u32>
    ensures popped { MatchOption result (LacksNumber (reverse operands.old.items)) (λ n. reverse operands.old.items ≡ V.I32 n ∷ reverse operands.new.items) }
    ensures holds { vec_capacity operands.old ≡ vec_capacity operands.new }
{
    match operands.pop() {
        Some(Value::I32(n)) => Some(n),
        Some(Value::I64(_)) => None,
        None => None,
    }
}

/// Enters a block (standard, section 4.4.5.3).
pub fn enter_block<'m>(
    stack: &mut Stack<'m>,
    result_type: Option<ValType>,
    body: &'m [Instr],
) -> Result<Flow, AllocError>
    ensures tells { IfOk result (λ f. (m : Module) (s : Store) (left : ℕ) → 0 < left → Tells s
        (code_of m s stack.old (nest a_block result_type (code body.now) (code stack.old.here.code.now))) left f (running_of s stack.new)) }
    ensures holds { Roomier stack.old stack.new }
    ensures lacks { OnErr result (vec_capacity stack.old.here.labels ≤ vec_len stack.old.here.labels) }
{
    let label = Label::Block {
        height: stack.here.operands.len(),
        carries: result_type.is_some(),
        rest: stack.here.code,
        skipped: None,
    };
    stack.here.labels.push(label)?;
    stack.here.code = body;
    Ok(Flow::Moved { more: 0 })
}

/// Enters a loop (standard, section 4.4.5.4).
pub fn enter_loop<'m>(
    stack: &mut Stack<'m>,
    result_type: Option<ValType>,
    body: &'m [Instr],
) -> Result<Flow, AllocError>
    ensures tells { IfOk result (λ f. (m : Module) (s : Store) (left : ℕ) → 0 < left → Tells s
        (code_of m s stack.old (nest a_loop result_type (code body.now) (code stack.old.here.code.now))) left f (running_of s stack.new)) }
    ensures holds { Roomier stack.old stack.new }
    ensures lacks { OnErr result (vec_capacity stack.old.here.labels ≤ vec_len stack.old.here.labels) }
{
    let label = Label::Loop {
        height: stack.here.operands.len(),
        body,
        rest: stack.here.code,
    };
    stack.here.labels.push(label)?;
    stack.here.code = body;
    Ok(Flow::Moved { more: 0 })
}

/// Enters an arm of an if (standard, section 4.4.5.5).
pub fn enter_arm<'m>(
    stack: &mut Stack<'m>,
    result_type: Option<ValType>,
    then_arm: &'m [Instr],
    else_arm: &'m [Instr],
) -> Result<Flow, AllocError>
    ensures tells { IfOk result (λ f. (m : Module) (s : Store) (left : ℕ) → 0 < left → Tells s
        (code_of m s stack.old (branch result_type (code then_arm.now) (code else_arm.now) (code stack.old.here.code.now))) left f (running_of s stack.new)) }
    ensures holds { Roomier stack.old stack.new }
    ensures lacks { OnErr result (vec_capacity stack.old.here.labels ≤ vec_len stack.old.here.labels) }
{
    let Some(test) = pop_number(&mut stack.here.operands) else {
        return Ok(Flow::Spent);
    };
    let height = stack.here.operands.len();
    let carries = result_type.is_some();
    let rest = stack.here.code;
    if test != 0 {
        let skipped = Some(else_arm);
        stack.here.labels.push(Label::Block {
            height,
            carries,
            rest,
            skipped,
        })?;
        stack.here.code = then_arm;
        return Ok(Flow::Moved { more: 0 });
    }
    stack.here.labels.push(Label::Block {
        height,
        carries,
        rest,
        skipped: None,
    })?;
    stack.here.code = else_arm;
    Ok(Flow::Moved { more: 0 })
}
