//! The programs of a script in a host, and the names of their lines.

ghost use Rattle.std.specs.Prelude.{◌<◌, ◌≤◌, ◌^◌, ◌≡◌, ◌++◌, [], ◌∷◌, ℕ, All, IfOk, List, OnOk, length, map};
ghost use Rattle.many_host.specs.Standing.{InRange};
ghost use Rattle.snapshot_store.specs.Snapshots.{ProgramRecord};
ghost use Rattle.world_laws.specs.Snapshots.{from_records};
ghost use Rattle.world_hosting.specs.Continued.{AreResumedAt};
ghost use Rattle.world_hosting.specs.Parted.{AreTimed, Begins, BeginsMail};
ghost use Rattle.world_hosting.specs.Views.{AreStaged};
ghost use Rattle.world_hosting.specs.Worlds.{Part, world_programs};

use crate::parting::{Parted, part_programs};
use crate::resuming::Resumed;
use crate::staging::Staged;
use many_host::Host;
use std::alloc::{AllocError, Global};
use transcript::Names;
use wa_model::Detach;

/// A host of programs, and the names of their lines.
#[derive(Drop)]
pub(crate) struct Hosting<'m> {
    pub host: Host<'m>,
    pub names: Vec<Names>,
}

/// Programs that were put back, when each is due, and which have ended.
#[derive(Drop)]
pub(crate) struct Timed<'m> {
    pub staged: Vec<Staged<'m>>,
    pub dues: Vec<u64>,
    pub ended: Vec<bool>,
}

/// Programs that are set up, from the first event on.
pub(crate) fn host_staged<'m>(
    alloc: Global,
    staged: Vec<Staged<'m>>,
    detaches: Vec<Detach>,
) -> Result<Hosting<'m>, AllocError>
    requires { length staged.items ≤ 16 }
    ensures range { IfOk result (λ h. InRange h.host.turns) }
    ensures begins { (parts : List Part) → AreStaged parts staged.entry.items
        → IfOk result (λ h. Begins 0 (world_programs parts) parts detaches.items h.host h.names.items) }
    ensures mail { (parts : List Part) (boxes : List (List ℕ)) → AreStaged parts staged.entry.items
        → IfOk result (λ h. BeginsMail parts detaches.items boxes h.host h.names.items) }
{
    let Parted {
        programs,
        names,
        shows,
    } = part_programs(alloc, staged)?;
    let host = Host::new(alloc, programs, detaches, shows)?;
    Ok(Hosting { host, names })
}

/// Programs that were put back, behind so many events.
pub(crate) fn host_resumed<'m>(
    alloc: Global,
    resumed: Vec<Resumed<'m>>,
    events: u64,
    detaches: Vec<Detach>,
) -> Result<Hosting<'m>, AllocError>
    requires few { length resumed.items ≤ 16 }
    requires events { events < 2 ^ 62 }
    requires early { All (λ z. z.due < 2 ^ 62) resumed.items }
    ensures range { IfOk result (λ h. InRange h.host.turns) }
    ensures begins { (parts : List Part) (records : List ProgramRecord) → AreResumedAt parts records resumed.entry.items
        → IfOk result (λ h. Begins events (from_records (world_programs parts) records) parts detaches.items h.host h.names.items) }
{
    let Timed {
        staged,
        dues,
        ended,
    } = time_programs(alloc, resumed)?;
    let Parted {
        programs,
        names,
        shows,
    } = part_programs(alloc, staged)?;
    let host = Host::resumed(alloc, programs, dues, ended, events, detaches, shows)?;
    Ok(Hosting { host, names })
}

// The programs in their order, with their times.
fn time_programs<'m>(alloc: Global, resumed: Vec<Resumed<'m>>) -> Result<Timed<'m>, AllocError>
    ensures { IfOk result (AreTimed resumed.entry.items) }
{
    let mut timed = Timed {
        staged: Vec::new(alloc),
        dues: Vec::new(alloc),
        ended: Vec::new(alloc),
    };
    for one in resumed {
        put_timed(&mut timed, one)?;
    }
    Ok(timed)
}

// Puts a program behind those before it.
fn put_timed<'m>(timed: &mut Timed<'m>, one: Resumed<'m>) -> Result<(), AllocError>
    ensures staged { OnOk result (timed.new.staged.items ≡ timed.old.staged.items ++ one.entry.staged ∷ []) }
    ensures dues { OnOk result (timed.new.dues.items ≡ timed.old.dues.items ++ one.entry.due ∷ []) }
    ensures ended { OnOk result (timed.new.ended.items ≡ timed.old.ended.items ++ one.entry.ended ∷ []) }
{
    let Resumed { staged, due, ended } = one;
    timed.staged.push(staged)?;
    timed.dues.push(due)?;
    timed.ended.push(ended)?;
    Ok(())
}
