//! What instructions take.

ghost use Rattle.wa_types.specs.Syntax.{done};
ghost use Rattle.wa_types.specs.View.{in_front};
ghost use Rattle.slim_rewrite.specs.Walking.{TakesTold};

use crate::stack::{Walk, is_slot};
use wa_ops::operand_count;
use wa_types::Instr;

/// How many operands an instruction takes, where it is neither control nor an access to a slot.
pub(crate) fn taken_by(at: &Walk, op: &Instr) -> Option<usize>
    ensures { TakesTold at.now (in_front op.now done) result }
{
    match op {
        Instr::Nop => Some(0),
        Instr::Const(_) => Some(0),
        Instr::GlobalGet(_) => Some(0),
        Instr::MemorySize => Some(0),
        Instr::Drop => Some(1),
        Instr::GlobalSet(_) => Some(1),
        Instr::MemoryGrow => Some(1),
        Instr::Load { .. } => Some(1),
        Instr::Store { .. } => Some(2),
        Instr::Select => Some(3),
        Instr::MemoryCopy => Some(3),
        Instr::MemoryFill => Some(3),
        Instr::Num(num) => Some(operand_count(*num)),
        Instr::LocalGet(x) => {
            if is_slot(at, *x) {
                return None;
            }
            Some(0)
        }
        Instr::LocalSet(x) => {
            if is_slot(at, *x) {
                return None;
            }
            Some(1)
        }
        Instr::LocalTee(x) => {
            if is_slot(at, *x) {
                return None;
            }
            Some(1)
        }
        _ => None,
    }
}
