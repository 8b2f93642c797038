//! A body, checked from front to back: typed, or its first fault (standard, section 3.3).

ghost use Rattle.std.specs.Prelude.{◌≡◌, [], ◌∷◌, ◌++◌, false, true, ◌+◌, ◌<◌, ◌^◌, reverse, List, IfNone, IfOk, OnOk};
ghost use Rattle.wa_types.specs.declared.values.ValType.{ValType as ValTypeValue};
ghost use Rattle.wa_types.specs.FirstFault.{size, mid};
ghost use Rattle.wa_types.specs.Syntax.{Code, done};
ghost use Rattle.wa_types.specs.Leaves.{is_leaf};
ghost use Rattle.wa_types.specs.Typing.{listed, sig};
ghost use Rattle.wa_types.specs.View.{code, in_front};
ghost use Rattle.validate_bodies.specs.Judging.{Finds, Judged};
ghost use Rattle.validate_bodies.specs.Running.{body_verdict, checks, fine, next};
ghost use Rattle.validate_bodies.specs.Stack.{known, Applied, Deep, Level};
ghost use Rattle.validate_bodies.specs.Table.{plain_of, Says};

use crate::context::Context;
use crate::stack::{Operands, apply, ends, pop, push_result};
use crate::table::asks_at;
use std::alloc::AllocError;
use wa_types::{Instr, Rule, ValType};

/// Why a body wasn't found typed: the rule that fails first, and the number of the instruction, `else` or `end`
/// where it fails.
#[derive(Clone, Copy)]
pub enum BodyFail {
    Memory,
    Invalid { rule: Rule, at: u64 },
}

/// The same without the place, where the check stops: small enough to be handed up in a register.
#[derive(Clone, Copy)]
enum Flaw {
    Memory,
    Breaks(Rule),
}

impl From<AllocError> for Flaw {
    ghost use Rattle.std.specs.Prelude.{◌≡◌};
    ghost use Rattle.validate_bodies.specs.declared.bodies.Flaw.TheVariants.{Memory};

    ghost from_gives = { λ _ e. e ≡ Memory };

    fn from(_error: AllocError) -> Flaw {
        Flaw::Memory
    }
}

/// What an open construct gives at its ends: the result that a branch to its label carries, and the one of its own end.
#[derive(Clone, Copy)]
struct Frame {
    label: Option<ValType>,
    gives: Option<ValType>,
}

#[tactic(auto, using(crate::proofs::InstrKinds::middling))]
fn middle(arm: &[Instr]) -> u64
    ensures { result ≡ mid (code arm.now) }
{
    if arm.is_empty() { 0 } else { 1 }
}

// Opens a construct's label.
#[inline(never)]
fn push_label(labels: &mut Vec<Option<ValType>>, label: Option<ValType>) -> Result<(), AllocError>
    ensures { OnOk result (labels.new.items ≡ labels.old.items ++ label ∷ []) }
{
    labels.push(label)?;
    Ok(())
}

// Does to the operands what an instruction does that holds no other, or says which rule fails.
#[inline(never)]
fn apply_leaf(
    context: &Context<'_>,
    labels: &[Option<ValType>],
    o: &mut Operands,
    instr: &Instr,
) -> Result<Option<Rule>, AllocError>
    requires deep { Deep o.old }
    requires leaf { is_leaf instr.now ≡ true }
    ensures level { IfOk result (λ r. IfNone r (Level o.old o.new)) }
    ensures applied { IfOk result (λ r. Says (plain_of instr.now)
        (λ p. Applied (next (sig context.now (reverse labels.now) p) (known o.old) o.old.free) r (known o.new) o.new.free)) }
{
    apply(o, asks_at(context, labels, instr))
}

// Checks the code of a construct, up to its end. What isn't needed any more behind a construct stands in calls of its own, so that
// little stands on the stack at a level.
#[cycle(check)]
#[tactic(auto, using(crate::proofs::Trees::bodies))]
fn check_body(
    context: &Context<'_>,
    labels: &mut Vec<Option<ValType>>,
    o: &mut Operands,
    body: &[Instr],
    frame: Frame,
    at: &mut u64,
) -> Result<(), Flaw>
    requires deep { Deep o.old }
    requires room { at.old + size (code body.now) < 2 ^ 64 }
    ensures labels { IfOk result (λ _. labels.new.items ≡ labels.old.items) }
    ensures level { IfOk result (λ _. Level o.old o.new) }
    ensures free { IfOk result (λ _. o.new.free ≡ o.old.free) }
    ensures known { IfOk result (λ _. known o.new ≡ known o.old) }
    ensures place { IfOk result (λ _. at.new ≡ at.old + size (code body.now)) }
    ensures judged { Judged result at.new (checks context.now (frame.label ∷ reverse labels.old.items) (code body.now) (listed frame.gives) [] false at.old) fine }
{
    let base = o.base;
    let free = o.free;
    let height = o.types.len();
    push_label(labels, frame.label)?;
    o.base = height;
    o.free = false;
    for instr in body {
        check_instr(context, labels, o, instr, at)?;
    }
    if !ends(o, frame.gives) {
        return Err(Flaw::Breaks(Rule::StackTypes));
    }
    o.base = base;
    o.free = free;
    let _ = labels.pop();
    Ok(())
}

#[cycle(check)]
#[tactic(auto, using(crate::proofs::Trees::instrs))]
fn check_instr(
    context: &Context<'_>,
    labels: &mut Vec<Option<ValType>>,
    o: &mut Operands,
    instr: &Instr,
    at: &mut u64,
) -> Result<(), Flaw>
    requires deep { Deep o.old }
    requires room { at.old + size (in_front instr.now done) < 2 ^ 64 }
    ensures labels { IfOk result (λ _. labels.new.items ≡ labels.old.items) }
    ensures level { IfOk result (λ _. Level o.old o.new) }
    ensures place { IfOk result (λ _. at.new ≡ at.old + size (in_front instr.now done)) }
    ensures judged { (rest : Code) (outs : List ValType) → Judged result at.new (checks context.now (reverse labels.old.items) (in_front instr.now rest) outs
        (known o.old) o.old.free at.old) (checks context.now (reverse labels.old.items) rest outs (known o.new) o.new.free at.new) }
{
    match instr {
        Instr::Block { result, body } => {
            let frame = Frame {
                label: *result,
                gives: *result,
            };
            *at += 1;
            check_body(context, labels, o, body, frame, at)?;
            *at += 1;
            push_result(o, *result)?;
            Ok(())
        }
        Instr::Loop { result, body } => {
            let frame = Frame {
                label: None,
                gives: *result,
            };
            *at += 1;
            check_body(context, labels, o, body, frame, at)?;
            *at += 1;
            push_result(o, *result)?;
            Ok(())
        }
        Instr::If {
            result,
            then_arm,
            else_arm,
        } => {
            if !pop(o, ValType::I32) {
                return Err(Flaw::Breaks(Rule::StackTypes));
            }
            let frame = Frame {
                label: *result,
                gives: *result,
            };
            *at += 1;
            check_body(context, labels, o, then_arm, frame, at)?;
            *at += middle(else_arm);
            check_body(context, labels, o, else_arm, frame, at)?;
            *at += 1;
            push_result(o, *result)?;
            Ok(())
        }
        _ => {
            if let Some(rule) = apply_leaf(context, labels, o, instr)? {
                return Err(Flaw::Breaks(rule));
            }
            *at += 1;
            Ok(())
        }
    }
}

/// Whether a body has its type; if not, its first fault. The stacks are emptied first, so that one pair of them serves
/// all bodies.
pub fn check_whole(
    context: &Context<'_>,
    labels: &mut Vec<Option<ValType>>,
    o: &mut Operands,
    body: &[Instr],
) -> Result<(), BodyFail>
    requires { size (code body.now) < 2 ^ 64 }
    ensures { Finds result (body_verdict context.now (code body.now)) }
{
    labels.clear();
    o.types.clear();
    o.base = 0;
    o.free = false;
    let mut at = 0;
    let result = context.result();
    let frame = Frame {
        label: result,
        gives: result,
    };
    match check_body(context, labels, o, body, frame, &mut at) {
        Ok(()) => Ok(()),
        Err(Flaw::Memory) => Err(BodyFail::Memory),
        Err(Flaw::Breaks(rule)) => Err(BodyFail::Invalid { rule, at }),
    }
}
