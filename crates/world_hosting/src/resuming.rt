//! A program of a script that stands for its record of a snapshot.

ghost use Rattle.std.specs.Prelude.{◌≡◌, ◌*◌, length};
ghost use Rattle.wa_types.specs.Memory.{page_size};
ghost use Rattle.wa_types.specs.View.{module_of};
ghost use Rattle.script_reader.specs.Views.{program_of};
ghost use Rattle.script_setup.specs.Views.{set_up_of};
ghost use Rattle.snapshot_store.specs.Snapshots.{paused};
ghost use Rattle.snapshot_store.specs.Views.{parts_of, record_of};
ghost use Rattle.world_hosting.specs.Continued.{IsWhole, Resumes, unpaused_record};
ghost use Rattle.world_hosting.specs.Resuming.{RecordsAreResumed};
ghost use Rattle.world_hosting.specs.Views.{IsPlanned, Suits, listing};
ghost use Rattle.world_hosting.specs.Worlds.{FitsPlan, IsListing, Part, part};

use crate::staging::{ScriptPlan, Staged, plan_program, start_planned};
use many_host::Program;
use pause_host::ThawFault;
use script_reader::ProgramText;
use script_setup::SetUp;
use snapshot_store::{PausedParts, ProgramRecord};
use std::alloc::Global;
use wasm_validate::Valid;

/// A program that goes on from its record, when it is due, and whether it has ended.
#[derive(Drop)]
pub struct Resumed<'m> {
    pub(crate) staged: Staged<'m>,
    pub(crate) due: u64,
    pub(crate) ended: bool,
}

/// A script's program over its prepared module, as `stage_program` makes it, where its record of a snapshot has it: at its start, at a
/// pause, or behind its end. Unfit exactly where the record doesn't suit the program.
pub fn resume_program<'m>(
    alloc: Global,
    valid: &'m Valid,
    listed: Option<Vec<bool>>,
    text: ProgramText,
    given: SetUp,
    stored: &ProgramRecord,
) -> Result<Resumed<'m>, ThawFault>
    requires listed { IsListing (module_of valid.now) (listing listed) }
    requires fits { FitsPlan (program_of text) }
    requires suits { Suits (module_of valid.now) (program_of text) given }
    requires whole { IsWhole (record_of stored.now) }
    ensures { Resumes (part (module_of valid.now) (listing listed) (program_of text) (set_up_of given)) (record_of stored.now) result }
{
    match plan_program(alloc, valid, listed, text, given) {
        Ok(planned) => resume_planned(alloc, planned, stored),
        Err(_) => Err(ThawFault::Memory),
    }
}

// The program of a plan, where its record has it.
fn resume_planned<'m>(
    alloc: Global,
    planned: ScriptPlan<'m>,
    stored: &ProgramRecord,
) -> Result<Resumed<'m>, ThawFault>
    requires planned { (x : Part) × IsPlanned x planned }
    requires whole { IsWhole (record_of stored.now) }
    ensures { (x : Part) → IsPlanned x planned.entry → Resumes x (record_of stored.now) result }
{
    match stored {
        ProgramRecord::Fresh => unpaused(alloc, planned, false),
        ProgramRecord::Over => unpaused(alloc, planned, true),
        ProgramRecord::Paused { due, parts, memory } => {
            thaw_planned(alloc, planned, *due, parts, memory)
        }
    }
}

// The program at its start, or marked as one that has ended.
fn unpaused<'m>(
    alloc: Global,
    planned: ScriptPlan<'m>,
    ended: bool,
) -> Result<Resumed<'m>, ThawFault>
    requires { (x : Part) × IsPlanned x planned }
    ensures { (x : Part) → IsPlanned x planned.entry → Resumes x (unpaused_record ended) result }
{
    match start_planned(alloc, planned) {
        Ok(staged) => Ok(Resumed {
            staged,
            due: 0,
            ended,
        }),
        Err(_) => Err(ThawFault::Memory),
    }
}

// The program at a pause.
fn thaw_planned<'m>(
    alloc: Global,
    planned: ScriptPlan<'m>,
    due: u64,
    parts: &PausedParts,
    memory: &[u8],
) -> Result<Resumed<'m>, ThawFault>
    requires planned { (x : Part) × IsPlanned x planned }
    requires whole { length memory.now ≡ parts.now.pages * page_size }
    ensures { (x : Part) → IsPlanned x planned.entry → Resumes x (paused due (parts_of parts.now) memory.now) result }
{
    if due >= 1 << 62 {
        return Err(ThawFault::Unfit);
    }
    let ScriptPlan { plan, names, shows } = planned;
    match Program::thaw(alloc, plan, parts, memory) {
        Ok(program) => Ok(Resumed {
            staged: Staged {
                program,
                names,
                shows,
            },
            due,
            ended: false,
        }),
        Err(fault) => Err(fault),
    }
}

/// A program that stands for a record is that of the world which begins as the record has it.
pub fn records_are_resumed()
    ensures { RecordsAreResumed }
{}
