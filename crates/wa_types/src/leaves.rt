//! One instruction that holds no other, copied.

ghost use Rattle.std.specs.Prelude.{◌≡◌, IfOk, true};
ghost use Rattle.wa_types.specs.Leaves.{is_leaf};
ghost use Rattle.wa_types.specs.Syntax.{Code};
ghost use Rattle.wa_types.specs.View.{in_front};

use crate::instrs::Instr;
use std::alloc::{AllocError, Global};

/// An equal instruction, of one that holds no other.
#[tactic(auto, using(crate::proofs::LeafLemmas::copying_leaf))]
pub fn copy_leaf(alloc: Global, instr: &Instr) -> Result<Instr, AllocError>
    requires { is_leaf instr.now ≡ true }
    ensures { IfOk result (λ i. (rest : Code) → in_front i rest ≡ in_front instr.now rest) }
{
    match instr {
        Instr::Unreachable => Ok(Instr::Unreachable),
        Instr::Nop => Ok(Instr::Nop),
        Instr::Drop => Ok(Instr::Drop),
        Instr::Select => Ok(Instr::Select),
        Instr::Return => Ok(Instr::Return),
        Instr::MemorySize => Ok(Instr::MemorySize),
        Instr::MemoryGrow => Ok(Instr::MemoryGrow),
        Instr::MemoryCopy => Ok(Instr::MemoryCopy),
        Instr::MemoryFill => Ok(Instr::MemoryFill),
        Instr::Const(value) => Ok(Instr::Const(*value)),
        Instr::Num(op) => Ok(Instr::Num(*op)),
        Instr::Br(label) => Ok(Instr::Br(*label)),
        Instr::BrIf(label) => Ok(Instr::BrIf(*label)),
        Instr::BrTable { labels, last } => Ok(Instr::BrTable {
            labels: Vec::from_slice(alloc, labels)?,
            last: *last,
        }),
        Instr::Call(func) => Ok(Instr::Call(*func)),
        Instr::CallIndirect(sort) => Ok(Instr::CallIndirect(*sort)),
        Instr::LocalGet(x) => Ok(Instr::LocalGet(*x)),
        Instr::LocalSet(x) => Ok(Instr::LocalSet(*x)),
        Instr::LocalTee(x) => Ok(Instr::LocalTee(*x)),
        Instr::GlobalGet(x) => Ok(Instr::GlobalGet(*x)),
        Instr::GlobalSet(x) => Ok(Instr::GlobalSet(*x)),
        Instr::Load { op, align, offset } => Ok(Instr::Load {
            op: *op,
            align: *align,
            offset: *offset,
        }),
        Instr::Store { op, align, offset } => Ok(Instr::Store {
            op: *op,
            align: *align,
            offset: *offset,
        }),
        Instr::Block { .. } | Instr::Loop { .. } | Instr::If { .. } => unreachable!(),
    }
}
