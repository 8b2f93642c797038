//! How many instructions a body has, and how deep its constructs nest.

ghost use Rattle.std.specs.Prelude.{◌≡◌, ◌+◌, ◌^◌, ◌<◌};
ghost use Rattle.wa_types.specs.View.{code, in_front};
ghost use Rattle.wa_types.specs.Syntax.{done};
ghost use Rattle.wa_types.specs.Counts.{count_of, depth_of};

use crate::instrs::Instr;

/// The number of instructions of a body, those inside others included.
#[cycle(count)]
#[tactic(auto, using(crate::proofs::MeasureLemmas::counting))]
pub fn count(body: &[Instr]) -> u64
    requires { count_of (code body.now) < 2 ^ 64 }
    ensures { result ≡ count_of (code body.now) }
{
    let mut n = 0;
    for instr in body {
        n += count_one(instr);
    }
    n
}

#[cycle(count)]
#[tactic(auto, using(crate::proofs::MeasureLemmas::counting))]
fn count_one(instr: &Instr) -> u64
    requires { count_of (in_front instr.now done) < 2 ^ 64 }
    ensures { result ≡ count_of (in_front instr.now done) }
{
    match instr {
        Instr::Block { result: _, body } => 1 + count(body),
        Instr::Loop { result: _, body } => 1 + count(body),
        Instr::If {
            result: _,
            then_arm,
            else_arm,
        } => 1 + count(then_arm) + count(else_arm),
        _ => 1,
    }
}

/// How many blocks, loops and ifs of a body stand inside one another, at most.
#[cycle(depth)]
#[tactic(auto, using(crate::proofs::MeasureLemmas::measuring))]
pub fn depth(body: &[Instr]) -> u64
    requires { count_of (code body.now) < 2 ^ 64 }
    ensures { result ≡ depth_of (code body.now) }
{
    let mut deepest = 0;
    for instr in body {
        deepest = deepest.max(depth_one(instr));
    }
    deepest
}

#[cycle(depth)]
#[tactic(auto, using(crate::proofs::MeasureLemmas::measuring))]
fn depth_one(instr: &Instr) -> u64
    requires { count_of (in_front instr.now done) < 2 ^ 64 }
    ensures { result ≡ depth_of (in_front instr.now done) }
{
    match instr {
        Instr::Block { result: _, body } => 1 + depth(body),
        Instr::Loop { result: _, body } => 1 + depth(body),
        Instr::If {
            result: _,
            then_arm,
            else_arm,
        } => 1 + depth(then_arm).max(depth(else_arm)),
        _ => 0,
    }
}
