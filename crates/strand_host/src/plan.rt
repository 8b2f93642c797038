//! What a program with strands is given, and why it can't be set up.

use host_setup::{Entry, SetupFault};
use pause_host::Plan;
use std::alloc::AllocError;
use thiserror::Error;
use wa_model::{AnswerLine, Area};

/// A further strand: its area, its entries and its answer lines.
#[derive(Drop)]
pub struct StrandPart {
    pub area: Area,
    pub entries: Vec<Entry>,
    pub answers: Vec<AnswerLine>,
}

/// A program with strands: the plan has the area, the entries and the answer lines of the first, behind which come the others.
#[derive(Drop)]
pub struct StrandPlan<'m> {
    pub plan: Plan<'m>,
    pub strands: Vec<StrandPart>,
}

/// Why strands can't be set up, in the order in which faults are looked for.
#[derive(Clone, Copy, Debug, PartialEq, Eq, Error)]
pub enum StrandFault {
    #[error("out of memory")]
    Memory,
    /// The first fault of the first strand that has one.
    #[error("strand {strand} can't run: {fault}")]
    Setup { strand: u32, fault: SetupFault },
    /// The first strand whose area overlaps that of an earlier one.
    #[error("strand {strand} overlaps an earlier one")]
    Overlap { strand: u32 },
}

impl From<AllocError> for StrandFault {
    ghost use Rattle.std.specs.Prelude.{◌≡◌};
    ghost use Rattle.strand_host.specs.declared.plan.StrandFault.TheVariants.{Memory};

    ghost from_gives = { λ _ fault. fault ≡ Memory };

    fn from(_error: AllocError) -> StrandFault {
        StrandFault::Memory
    }
}
