//! A program with strands, made of its plan.

ghost use Rattle.std.specs.Prelude.{◌≡◌, ℕ, List, Ok, Option, IfOk, length, map};
ghost use Rattle.host_setup.specs.Views.{Blames};
ghost use Rattle.pause_host.specs.Programs.{BindsAs, source_of};
ghost use Rattle.transcript.specs.Printing.{names_of};
ghost use Rattle.strand_host.specs.StrandPlans.{AllSetUp, IsStrandPlan, parts_of, world_strands};
ghost use Rattle.script_command.specs.StrandStages.{CanBeSetUp, IsFaultOfNone, IsStrandsStaged, range_look};

use host_setup::SetupFault;
use std::alloc::{AllocError, Global};
use strand_host::{StrandFault, StrandPlan, StrandProgram};
use transcript::Names;

/// A range of a program's memory that is shown behind its end: the first byte and how many.
#[derive(Clone, Copy)]
pub struct MemoryRange {
    pub at: u32,
    pub len: u32,
}

/// A program with strands that has told nothing yet, the names of each strand's lines, and what is shown of its memory behind its end.
#[derive(Drop)]
pub struct StagedStrands<'m> {
    pub(crate) program: StrandProgram<'m>,
    pub(crate) names: Vec<Names>,
    pub(crate) shows: Vec<MemoryRange>,
}

/// The program of a plan, at its start. Each strand of the plan can be set up, no two of their areas overlap, and there are names for each.
pub fn stage_strand_plan<'m>(
    alloc: Global,
    plan: StrandPlan<'m>,
    names: Vec<Names>,
    shows: Vec<MemoryRange>,
) -> Result<StagedStrands<'m>, AllocError>
    requires plan { IsStrandPlan plan }
    requires sets_up { CanBeSetUp plan }
    requires named { length names.items ≡ length (parts_of plan) }
    ensures { (funcs : List (List ℕ)) (binds : List (Option (List ℕ))) → AllSetUp (source_of plan.entry.plan) (parts_of plan.entry) funcs → BindsAs plan.entry.plan binds
        → IfOk result (IsStrandsStaged (record { world = world_strands plan.entry funcs (map range_look shows.items) binds; names = map names_of names.items })) }
{
    match StrandProgram::new(alloc, plan) {
        Ok(program) => Ok(StagedStrands {
            program,
            names,
            shows,
        }),
        // The plan was asked for what `StrandProgram::new` asks.
        Err(fault) => Err(want_of_memory(fault)),
    }
}

// The one fault of a plan that has none.
fn want_of_memory(fault: StrandFault) -> AllocError
    requires { IsFaultOfNone fault }
{
    match fault {
        StrandFault::Memory => AllocError,
        StrandFault::Setup { strand: _, fault } => want_of_setup(fault),
        StrandFault::Overlap { strand: _ } => unreachable!(),
    }
}

// The one fault of a strand that has none.
fn want_of_setup(fault: SetupFault) -> AllocError
    requires { (funcs : List ℕ) × Blames fault (Ok funcs) }
{
    match fault {
        SetupFault::Memory => AllocError,
        _ => unreachable!(),
    }
}
