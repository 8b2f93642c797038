//! The stack of operand types of a check, some of them unknown, and what instructions do to it (standard, section 3.3).

ghost use Rattle.std.specs.Prelude.{◌≡◌, [], ◌∷◌, ◌++◌, length, reverse, true, IfOk, IfNone, MatchOption};
ghost use Rattle.wa_types.specs.Typing.{listed};
ghost use Rattle.validate_bodies.specs.Running.{pop1, pops, knows, ended, next, dropped, two};
ghost use Rattle.validate_bodies.specs.Stack.{known, Deep, Level, Applied, popped, passed};
ghost use Rattle.validate_bodies.specs.Table.{sig_of, tested};

use crate::table::{Asks, listing};
use std::alloc::{AllocError, AllocFailed};
use wa_ops::same_types;
use wa_types::{Rule, ValType};

/// Operands of all open constructs: those from `base` on are of the innermost one, and where `free` more may lie below them.
#[derive(Drop)]
pub struct Operands {
    pub types: Vec<Option<ValType>>,
    pub base: usize,
    pub free: bool,
}

// Takes an operand of this type off, and says whether there was one.
#[tactic(auto, using(crate::proofs::Lists::stacks))]
pub(crate) fn pop(o: &mut Operands, t: ValType) -> bool
    requires { Deep o.old }
    ensures level { Level o.old o.new }
    ensures free { o.new.free ≡ o.old.free }
    ensures popped { pop1 t (known o.old) o.old.free ≡ popped result (known o.new) }
{
    if o.types.len() == o.base {
        return o.free;
    }
    match o.types.pop() {
        None => o.free,
        Some(None) => true,
        Some(Some(u)) => same_types(u, t),
    }
}

#[tactic(auto, using(crate::proofs::Lists::stacks))]
fn push(o: &mut Operands, t: Option<ValType>) -> Result<(), AllocError>
    requires { Deep o.old }
    ensures level { IfOk result (λ _. Level o.old o.new) }
    ensures free { IfOk result (λ _. o.new.free ≡ o.old.free) }
    ensures pushed { IfOk result (λ _. known o.new ≡ t ∷ known o.old) }
{
    o.types.push(t)?;
    Ok(())
}

// Takes operands of these types off, the last one first. Where the construct's own operands have run out, the others
// are all there or the next one is missing: so a call in dead code takes no time for its parameters.
#[tactic(auto, using(crate::proofs::Lists::stacks))]
fn pop_all(o: &mut Operands, wanted: &[ValType]) -> bool
    requires { Deep o.old }
    ensures level { Level o.old o.new }
    ensures free { o.new.free ≡ o.old.free }
    ensures popped { pops (reverse wanted.now) (known o.old) o.old.free ≡ popped result (known o.new) }
{
    let mut n = wanted.len();
    while n > 0 {
        if o.types.len() == o.base {
            return o.free;
        }
        n -= 1;
        if !pop(o, wanted[n]) {
            return false;
        }
    }
    true
}

#[tactic(auto, using(crate::proofs::Lists::stacks))]
fn push_all(o: &mut Operands, given: &[ValType]) -> Result<(), AllocError>
    requires { Deep o.old }
    ensures level { IfOk result (λ _. Level o.old o.new) }
    ensures free { IfOk result (λ _. o.new.free ≡ o.old.free) }
    ensures pushed { IfOk result (λ _. known o.new ≡ knows (reverse given.now) ++ known o.old) }
{
    for t in given {
        push(o, Some(*t))?;
    }
    Ok(())
}

// Takes the topmost operand off, where one is there.
#[tactic(auto, using(crate::proofs::Lists::stacks))]
fn pop_any(o: &mut Operands) -> Option<Option<ValType>>
    requires { Deep o.old }
    ensures level { Level o.old o.new }
    ensures free { o.new.free ≡ o.old.free }
    ensures taken { MatchOption result ((known o.old ≡ []) × (known o.new ≡ [])) (λ t. known o.old ≡ t ∷ known o.new) }
{
    if o.types.len() == o.base {
        return None;
    }
    o.types.pop()
}

#[tactic(auto, using(crate::proofs::Lists::stacks))]
fn drop_any(o: &mut Operands) -> bool
    requires { Deep o.old }
    ensures level { Level o.old o.new }
    ensures free { o.new.free ≡ o.old.free }
    ensures gone { dropped (known o.old) o.old.free ≡ passed result (known o.new) o.old.free }
{
    match pop_any(o) {
        None => o.free,
        Some(_) => true,
    }
}

// Takes two operands of one type off, and puts one back.
#[tactic(auto, using(crate::proofs::Lists::levels))]
fn one_of_two(o: &mut Operands) -> Result<bool, AllocError>
    requires { Deep o.old }
    ensures level { IfOk result (λ _. Level o.old o.new) }
    ensures free { IfOk result (λ _. o.new.free ≡ o.old.free) }
    ensures joined { IfOk result (λ yes. two (known o.old) o.old.free ≡ passed yes (known o.new) o.old.free) }
{
    let Some(first) = pop_any(o) else {
        if !o.free {
            return Ok(false);
        }
        push(o, None)?;
        return Ok(true);
    };
    let Some(second) = pop_any(o) else {
        if !o.free {
            return Ok(false);
        }
        push(o, first)?;
        return Ok(true);
    };
    match (first, second) {
        (None, p) => {
            push(o, p)?;
            Ok(true)
        }
        (Some(t), None) => {
            push(o, Some(t))?;
            Ok(true)
        }
        (Some(t), Some(u)) => {
            if !same_types(t, u) {
                return Ok(false);
            }
            push(o, Some(t))?;
            Ok(true)
        }
    }
}

// Takes operands of these types off, and an i32 before them where one is tested.
#[tactic(auto, using(crate::proofs::Lists::levels))]
fn take_off(o: &mut Operands, test: bool, wanted: &[ValType]) -> bool
    requires { Deep o.old }
    ensures level { Level o.old o.new }
    ensures free { o.new.free ≡ o.old.free }
    ensures popped { pops (tested test (reverse wanted.now)) (known o.old) o.old.free ≡ popped result (known o.new) }
{
    if test && !pop(o, ValType::I32) {
        return false;
    }
    pop_all(o, wanted)
}

// Does what an instruction does to the operands, or says which rule fails.
#[tactic(auto, using(crate::proofs::Lists::levels))]
pub(crate) fn apply(o: &mut Operands, s: Asks) -> Result<Option<Rule>, AllocError>
    requires { Deep o.old }
    ensures level { IfOk result (λ r. IfNone r (Level o.old o.new)) }
    ensures applied { IfOk result (λ r. Applied (next (sig_of s.entry) (known o.old) o.old.free) r (known o.new) o.new.free) }
{
    match s {
        Asks::Moves { test, ins, outs } => {
            if !take_off(o, test, ins) {
                return Ok(Some(Rule::StackTypes));
            }
            push_all(o, outs)?;
            Ok(None)
        }
        Asks::Leaves { test, ins } => {
            if !take_off(o, test, ins) {
                return Ok(Some(Rule::StackTypes));
            }
            o.types.truncate(o.base);
            o.free = true;
            Ok(None)
        }
        Asks::Drops => {
            if !drop_any(o) {
                return Ok(Some(Rule::StackTypes));
            }
            Ok(None)
        }
        Asks::Selects => {
            if !pop(o, ValType::I32) {
                return Ok(Some(Rule::StackTypes));
            }
            if !one_of_two(o)? {
                return Ok(Some(Rule::StackTypes));
            }
            Ok(None)
        }
        Asks::Lacks(rule) => Ok(Some(rule)),
        Asks::Late { rule, ins, .. } => {
            if !take_off(o, false, ins) {
                return Ok(Some(Rule::StackTypes));
            }
            Ok(Some(rule))
        }
    }
}

// Whether the innermost construct has no operand.
#[tactic(auto, using(crate::proofs::Lists::ending))]
fn is_bare(o: &Operands) -> bool
    requires { Deep o.now }
    ensures { result ≡ ended [] (known o.now) o.now.free }
{
    o.types.len() == o.base
}

// Whether the operands are the results, at an end. Takes them off.
#[inline(never)]
#[tactic(auto, using(crate::proofs::Lists::ending))]
pub(crate) fn ends(o: &mut Operands, gives: Option<ValType>) -> bool
    requires { Deep o.old }
    ensures level { Level o.old o.new }
    ensures ended { result ≡ ended (listed gives) (known o.old) o.old.free }
    ensures bare { result ≡ true → length o.new.types.items ≡ o.old.base }
{
    match gives {
        None => is_bare(o),
        Some(t) => {
            if !pop(o, t) {
                return false;
            }
            is_bare(o)
        }
    }
}

// Puts the result of a construct on the operands.
#[inline(never)]
#[tactic(auto, using(crate::proofs::LabelLemmas::listing))]
pub(crate) fn push_result(o: &mut Operands, r: Option<ValType>) -> Result<(), AllocError>
    requires { Deep o.old }
    ensures level { IfOk result (λ _. Level o.old o.new) }
    ensures free { IfOk result (λ _. o.new.free ≡ o.old.free) }
    ensures pushed { IfOk result (λ _. known o.new ≡ knows (listed r) ++ known o.old) }
{
    push_all(o, listing(r))
}
