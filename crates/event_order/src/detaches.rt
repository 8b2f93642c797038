//! The devices that are taken out before an event.

ghost use Rattle.std.specs.Prelude.{◌≡◌, nat_eq};
ghost use Rattle.world_model.specs.World.{taken_out, detached, detached_if};
ghost use Rattle.device_port.specs.Listed.{of_all};
ghost use Rattle.event_order.specs.Left.{without, without_if, left_before};

use device_port::Devices;
use wa_model::Detach;

/// Before an event, each detach with its number takes out the first device of its name, where there is one, in order. The
/// rest keep their order, journals and counts. Takes no memory.
pub fn detach_before(devices: &mut Devices<'_>, detaches: &[Detach], event: u64)
    ensures same_list { devices.new.list.ghost_name ≡ devices.old.list.ghost_name }
    ensures devices { of_all seen devices.new
        ≡ detached event detaches.now (of_all seen devices.old) }
    ensures counts { of_all (λ d. record { device = seen d; faults = faults d }) devices.new
        ≡ left_before event detaches.now
        (of_all (λ d. record { device = seen d; faults = faults d }) devices.old) }
{
    for detach in detaches {
        detach_at(devices, detach, event);
    }
}

/// Takes out the first device of a detach's name, if its number is the event's.
fn detach_at(devices: &mut Devices<'_>, detach: &Detach, event: u64)
    ensures same_list { devices.new.list.ghost_name ≡ devices.old.list.ghost_name }
    ensures devices { of_all seen devices.new
        ≡ detached_if (nat_eq detach.now.before event) detach.now.device (of_all seen devices.old) }
    ensures counts { of_all (λ d. record { device = seen d; faults = faults d }) devices.new
        ≡ without_if (nat_eq detach.now.before event) detach.now.device
        (of_all (λ d. record { device = seen d; faults = faults d }) devices.old) }
{
    if detach.before == event {
        detach_first(devices, detach.device.as_str());
    }
}

/// Takes out the first device of this name, where there is one.
fn detach_first(devices: &mut Devices<'_>, name: &str)
    ensures same_list { devices.new.list.ghost_name ≡ devices.old.list.ghost_name }
    ensures devices { of_all seen devices.new ≡ taken_out name.now (of_all seen devices.old) }
    ensures counts { of_all (λ d. record { device = seen d; faults = faults d }) devices.new
        ≡ without name.now (of_all (λ d. record { device = seen d; faults = faults d }) devices.old) }
{
    let Some(place) = devices.find(name) else {
        return;
    };
    devices.detach(place);
}
