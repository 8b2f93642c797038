//! Bodies without the code that can't be reached.

ghost use Rattle.std.specs.Prelude.{◌≡◌, IfOk, true, if◌then◌else◌};
ghost use Rattle.wa_types.specs.View.{code, in_front};
ghost use Rattle.wa_types.specs.Syntax.{Code, done};
ghost use Rattle.wa_types.specs.Pruned.{is_last_instr, pruned};

use crate::instrs::Instr;
use crate::leaves::copy_leaf;
use std::alloc::{AllocError, Global};

/// The body without what follows a `br`, `br_table`, `return` or `unreachable`, in each sequence.
#[cycle(prune)]
#[tactic(auto, using(crate::proofs::PruneLemmas::pruning))]
pub fn prune(alloc: Global, body: &[Instr]) -> Result<Vec<Instr>, AllocError>
    ensures { IfOk result (λ v. code v.items ≡ pruned (code body.now)) }
{
    let mut out = Vec::new(alloc);
    for instr in body {
        let last = instr.is_last();
        out.push(prune_instr(alloc, instr)?)?;
        if last {
            return Ok(out);
        }
    }
    Ok(out)
}

// The instruction, with its bodies pruned.
#[cycle(prune)]
#[tactic(auto, using(crate::proofs::PruneLemmas::pruning_one))]
fn prune_instr(alloc: Global, instr: &Instr) -> Result<Instr, AllocError>
    ensures { IfOk result (λ i. (rest : Code) → pruned (in_front instr.now rest) ≡ in_front i (if is_last_instr instr.now then done else pruned rest)) }
{
    match instr {
        Instr::Block { result, body } => Ok(Instr::Block {
            result: *result,
            body: prune(alloc, body)?,
        }),
        Instr::Loop { result, body } => Ok(Instr::Loop {
            result: *result,
            body: prune(alloc, body)?,
        }),
        Instr::If {
            result,
            then_arm,
            else_arm,
        } => Ok(Instr::If {
            result: *result,
            then_arm: prune(alloc, then_arm)?,
            else_arm: prune(alloc, else_arm)?,
        }),
        _ => copy_leaf(alloc, instr),
    }
}
