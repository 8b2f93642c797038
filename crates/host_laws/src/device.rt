//! What a device answers to a new call of an import that is bound to it.

ghost use Rattle.std.specs.Prelude.{◌≡◌, [], ◌∷◌, IfOk, IsErr, Some};
ghost use Rattle.world_model.specs.World.{MeetsDevice};
ghost use Rattle.device_port.specs.Journals.{replied};
ghost use Rattle.device_port.specs.Listed.{of_all};
ghost use Rattle.host_laws.specs.Supplies.{Counts, IsLent, RisesAtMostOne};
ghost use Rattle.host_laws.specs.Answering.{outcome_of};

use crate::lines::Met;
use device_port::{DeviceFail, Devices, Reply};
use std::alloc::{AllocError, Global};
use wa_model::{Answer, End, Said};
use wa_types::Value;

/// What a new call of the import of this number meets that is bound to the device of this name: the reply of the first device with
/// that name, which is asked once, or the end of the program. Where that comes a count rises if a device's fault is told, and not else.
pub fn device_outcome(
    alloc: Global,
    import: u32,
    base: &str,
    name: &str,
    args: &[Value],
    devices: &mut Devices<'_>,
) -> Result<Met, AllocError>
    requires { IsLent }
    ensures kept { IsErr result → of_all seen devices.new ≡ of_all seen devices.old }
    ensures once { IsErr result → RisesAtMostOne (of_all faults devices.old) (of_all faults devices.new) }
    ensures same_list { devices.new.list.ghost_name ≡ devices.old.list.ghost_name }
    ensures meets { IfOk result (λ met. MeetsDevice import base.now name.now args.now (of_all seen devices.old) (outcome_of met) (of_all seen devices.new)) }
    ensures counts { IfOk result (λ met. Counts import (Some name.now) (of_all seen devices.old) (outcome_of met) (of_all faults devices.old) (of_all faults devices.new)) }
{
    let Some(place) = devices.find(name) else {
        return Ok(Met::Refused(End::NoDevice(import)));
    };
    match devices.ask(place, base, args) {
        Ok(reply) => return Ok(Met::Given(reply_answer(alloc, reply))),
        Err(fail) => return failed(import, fail),
    }
}

// A reply is an answer without pokes.
fn reply_answer(alloc: Global, reply: Reply) -> Answer
    ensures { outcome_of (Met.Given result) ≡ replied reply }
{
    Answer {
        said: Said::Value(reply.value),
        pokes: Vec::new(alloc),
        ticks: reply.ticks,
    }
}

// A device's fault is the end of the program.
fn failed(import: u32, fail: DeviceFail) -> Result<Met, AllocError>
    ensures { IfOk result (λ met. (met ≡ Met.Refused (End.DeviceFault import)) × (fail ≡ DeviceFail.Fault)) }
{
    match fail {
        DeviceFail::Fault => Ok(Met::Refused(End::DeviceFault(import))),
        DeviceFail::Memory => Err(AllocError),
    }
}
