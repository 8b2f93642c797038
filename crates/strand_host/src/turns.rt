//! The next event of a strand whose turn it is, by what comes next of its stage.

ghost use Rattle.std.specs.Prelude.{◌≡◌, ◌<◌, ◌≤◌, ◌+◌, ◌-◌, ◌^◌, All, IfOk, IsErr, None};
ghost use Rattle.wa_model.specs.Protocol.{exports_of};
ghost use Rattle.world_model.specs.World.{Program};
ghost use Rattle.interp.specs.Host.{code_in, store_in, waits_in};
ghost use Rattle.device_port.specs.Listed.{of_all};
ghost use Rattle.host_laws.specs.Supplies.{IsLent, RisesAtMostOne};
ghost use Rattle.pause_host.specs.Hosting.{HostsAt};
ghost use Rattle.pause_host.specs.Moves.{HasShortPokes, IsSetting, PausesSo, PlaceFits};
ghost use Rattle.pause_host.specs.Views.{end_of, left_of, lines_in, place_in};
ghost use Rattle.many_host.specs.Telling.{supply};
ghost use Rattle.strand_host.specs.StrandMoves.{MovesOn};

use device_port::Devices;
use interp::{Instance, Steps};
use mailbox_device::Mailboxes;
use pause_host::{Left, Moved, Setting, Stage, next_event, told};
use std::alloc::AllocError;

/// The next event of a strand from its stage.
pub(crate) fn strand_event(
    setting: &Setting,
    instance: &mut Instance<'_>,
    left: &mut Left,
    steps: &mut Steps,
    stage: Stage,
    devices: &mut Devices<'_>,
) -> Result<Moved, AllocError>
    requires lent { IsLent }
    requires few { steps.old.left + steps.old.used < 2 ^ 64 }
    requires there { HostsAt setting.now (code_in instance.old) (λ w. place_in (exports_of w.source) w.plan.area (left_of left.old) (store_in instance.old) (waits_in instance.old) stage) }
    ensures comes { (w : Program) → IsSetting w setting.now → code_in instance.old ≡ w.source → All HasShortPokes (lines_in left.old.answers.items)
        → PlaceFits w (place_in (exports_of w.source) w.plan.area (left_of left.old) (store_in instance.old) (waits_in instance.old) stage) → end_of stage ≡ None
        → IfOk result (λ m. MovesOn w (place_in (exports_of w.source) w.plan.area (left_of left.old) (store_in instance.old) (waits_in instance.old) stage) steps.old.left
        (steps.new.used - steps.old.used) m (supply (lines_in left.old.answers.items) (of_all seen devices.old) (of_all faults devices.old))
        (supply (lines_in left.new.answers.items) (of_all seen devices.new) (of_all faults devices.new)) (left_of left.new) (store_in instance.new) (waits_in instance.new)) }
    ensures pauses { IfOk result PausesSo }
    ensures code { code_in instance.new ≡ code_in instance.old }
    ensures sum { steps.new.left + steps.new.used ≡ steps.old.left + steps.old.used }
    ensures grows { steps.old.used ≤ steps.new.used }
    ensures kept { IsErr result → of_all seen devices.new ≡ of_all seen devices.old }
    ensures once { IsErr result → RisesAtMostOne (of_all faults devices.old) (of_all faults devices.new) }
    ensures same_list { devices.new.list.ghost_name ≡ devices.old.list.ghost_name }
{
    let mut none = Mailboxes::new(setting.alloc, Vec::new(setting.alloc))?;
    let next = next_event(setting, instance, left, steps, stage)?;
    let heard = told(
        setting,
        instance,
        &mut left.answers,
        devices,
        &mut none,
        next,
    )?;
    Ok(heard.moved)
}

/// So many steps, of which none is used.
pub(crate) fn unused(left: u64) -> Steps
    ensures left { result.left ≡ left }
    ensures used { result.used ≡ 0 }
    ensures sum { result.left + result.used < 2 ^ 64 }
{
    Steps { left, used: 0 }
}
