//! Programs that stand for their records of a snapshot.

ghost use Rattle.std.specs.Prelude.{◌≡◌, ◌++◌, [], ◌∷◌, All, Err, IfOk, OnOk, length, map};
ghost use Rattle.std.specs.List.{AllZip};
ghost use Rattle.pause_host.specs.declared.faults.ThawFault.TheVariants.{Unfit};
ghost use Rattle.snapshot_store.specs.Views.{record_of, snapshot_of};
ghost use Rattle.script_command.specs.Views.{CanStage, parts_of};
ghost use Rattle.world_hosting.specs.Continued.{IsWhole};
ghost use Rattle.world_hosting.specs.Suiting.{RecordSuits, SnapshotSuits};
ghost use Rattle.world_hosting.specs.Worlds.{world_programs};
ghost use Rattle.script_command.specs.SnapshotViews.{StandFor, StandForEach};

use crate::programs::Planned;
use pause_host::ThawFault;
use snapshot_store::{ProgramRecord, Snapshot};
use std::alloc::{AllocError, Global};
use wasm_validate::Valid;
use world_hosting::{Resumed, resume_program};

/// The events of a snapshot that fits are fewer than these.
const EVENTS_BOUND: u64 = 1 << 62;

/// The programs that are planned over these modules, each where its record of a snapshot has it. Unfit exactly where the snapshot doesn't
/// suit them.
pub(crate) fn resume_all<'m>(
    alloc: Global,
    modules: &'m [Valid],
    planned: Vec<Planned>,
    snapshot: Snapshot,
) -> Result<Vec<Resumed<'m>>, ThawFault>
    requires can { AllZip CanStage modules.now planned.items }
    requires whole { All IsWhole (map record_of snapshot.programs.items) }
    ensures resumed { IfOk result (λ rs. StandFor (parts_of modules.now planned.items) (snapshot_of snapshot) rs.items) }
    ensures unfit { result ≡ Err Unfit → SnapshotSuits (world_programs (parts_of modules.now planned.items)) (snapshot_of snapshot) → ⊥ }
{
    if snapshot.events >= EVENTS_BOUND {
        return Err(ThawFault::Unfit);
    }
    if snapshot.programs.len() != planned.len() {
        return Err(ThawFault::Unfit);
    }
    resume_each(alloc, modules, planned, &snapshot.programs)
}

// Each program where its record has it.
fn resume_each<'m>(
    alloc: Global,
    modules: &'m [Valid],
    planned: Vec<Planned>,
    records: &[ProgramRecord],
) -> Result<Vec<Resumed<'m>>, ThawFault>
    requires can { AllZip CanStage modules.now planned.items }
    requires many { length records.now ≡ length planned.items }
    requires whole { All IsWhole (map record_of records.now) }
    ensures resumed { IfOk result (λ rs. StandForEach (parts_of modules.now planned.items) (map record_of records.now) rs.items) }
    ensures unfit { result ≡ Err Unfit → AllZip RecordSuits (world_programs (parts_of modules.now planned.items)) (map record_of records.now) → ⊥ }
{
    let mut resumed = Vec::new(alloc);
    for plan in planned {
        let number = resumed.len();
        let valid = &modules[number];
        let record = &records[number];
        let program = match resume_program(
            alloc,
            valid,
            plan.listed,
            plan.text,
            plan.given,
            record,
        ) {
            Ok(program) => program,
            Err(fault) => return Err(fault),
        };
        put_program(&mut resumed, program)?;
    }
    Ok(resumed)
}

// Puts a program behind others.
fn put_program<'m>(resumed: &mut Vec<Resumed<'m>>, program: Resumed<'m>) -> Result<(), AllocError>
    ensures { OnOk result (resumed.new.items ≡ resumed.old.items ++ program.entry ∷ []) }
{
    resumed.push(program)?;
    Ok(())
}
