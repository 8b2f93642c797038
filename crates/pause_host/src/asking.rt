//! What a new call of an import meets: what the mailbox or the device answers to which it is bound, or the next answer line.

ghost use Rattle.std.specs.Prelude.{◌≡◌, ◌<◌, ℕ, Option, [], ◌∷◌, IfOk, IsErr, None, Some, length, slice_get};
ghost use Rattle.std.specs.Option.{option_map};
ghost use Rattle.wa_types.specs.declared.values.Value.TheVariants as V;
ghost use Rattle.wa_model.specs.View.{answer_of, call_of};
ghost use Rattle.wa_model.specs.Plan.{given};
ghost use Rattle.world_model.specs.World.{MeetsDevice, MeetsLine, Program};
ghost use Rattle.device_port.specs.Listed.{of_all};
ghost use Rattle.mail_laws.specs.Mailboxes.{mailed};
ghost use Rattle.host_laws.specs.Answering.{outcome_of};
ghost use Rattle.host_laws.specs.Supplies.{Counts, RisesAtMostOne};
ghost use Rattle.pause_host.specs.Mailing.{AsksAt, MailAnswers, WaitsATick, awaits_in, bound_in, latest, mail_supply};
ghost use Rattle.pause_host.specs.Moves.{IsSetting};
ghost use Rattle.pause_host.specs.Views.{lines_in};

use crate::stages::{HostImport, Setting};
use device_port::Devices;
use host_laws::{Met, device_outcome, next_answer};
use mailbox_device::Mailboxes;
use std::alloc::{AllocError, Global};
use std::collections::VecDeque;
use wa_model::{Answer, AnswerLine, Call, End, Said};
use wa_types::{Name, Value};

/// What a new call met, and its import where it is a receive at an empty mailbox: that runs on a zero behind a pause, until its value
/// is known.
#[derive(Drop)]
pub(crate) struct Asked {
    pub met: Met,
    pub receive: Option<u32>,
}

/// What a new call of this import meets: where it is bound to a name what the mailbox of that name says, or, where there is none,
/// the first device of the name, which is asked once; where it is bound to none, the next answer line.
pub(crate) fn next_outcome(
    setting: &Setting,
    import: &HostImport,
    call: &Call,
    answers: &mut VecDeque<AnswerLine>,
    devices: &mut Devices<'_>,
    mail: &mut Mailboxes,
) -> Result<Asked, AllocError>
    ensures answers { (w : Program) → IsSetting w setting.now → slice_get setting.now.imports.items call.now.import ≡ Some import.now
        → (r : Option ℕ) → IfOk result (λ asked. MailAnswers w (call_of call.now)
        (mail_supply seen faults (lines_in answers.old.items) devices.old mail.old (awaits_in setting.now r)) (outcome_of asked.met)
        (mail_supply seen faults (lines_in answers.new.items) devices.new mail.new (awaits_in setting.now (latest asked.receive r)))) }
    ensures waits { IfOk result WaitsATick }
    ensures kept { IsErr result → of_all seen devices.new ≡ of_all seen devices.old }
    ensures once { IsErr result → RisesAtMostOne (of_all faults devices.old) (of_all faults devices.new) }
    ensures mail { IsErr result → mail.new ≡ mail.old }
    ensures same_list { devices.new.list.ghost_name ≡ devices.old.list.ghost_name }
{
    match bound_to(setting, call.import) {
        None => ask_line(setting.alloc, call.import, import, answers),
        Some(name) => match mail.find(name) {
            None => ask_device(setting.alloc, import, name, call, devices),
            Some(place) => ask_mailbox(setting.alloc, call, place, mail),
        },
    }
}

// The next answer line.
fn ask_line(
    alloc: Global,
    number: u32,
    import: &HostImport,
    answers: &mut VecDeque<AnswerLine>,
) -> Result<Asked, AllocError>
    ensures meets { IfOk result (λ asked. MeetsLine number import.now.name (lines_in answers.old.items) (outcome_of asked.met) (lines_in answers.new.items)) }
    ensures none { IfOk result (λ asked. asked.receive ≡ None) }
{
    let met = next_answer(alloc, number, import.name.as_str(), answers)?;
    let receive = None;
    Ok(Asked { met, receive })
}

// The first device of this name.
fn ask_device(
    alloc: Global,
    import: &HostImport,
    name: &str,
    call: &Call,
    devices: &mut Devices<'_>,
) -> Result<Asked, AllocError>
    ensures meets { IfOk result (λ asked. MeetsDevice call.now.import import.now.base name.now call.now.args.items (of_all seen devices.old) (outcome_of asked.met) (of_all seen devices.new)) }
    ensures counts { IfOk result (λ asked. Counts call.now.import (Some name.now) (of_all seen devices.old) (outcome_of asked.met) (of_all faults devices.old) (of_all faults devices.new)) }
    ensures none { IfOk result (λ asked. asked.receive ≡ None) }
    ensures kept { IsErr result → of_all seen devices.new ≡ of_all seen devices.old }
    ensures once { IsErr result → RisesAtMostOne (of_all faults devices.old) (of_all faults devices.new) }
    ensures same_list { devices.new.list.ghost_name ≡ devices.old.list.ghost_name }
{
    let base = import.base.as_str();
    let met = device_outcome(alloc, call.import, base, name, &call.args, devices)?;
    let receive = None;
    Ok(Asked { met, receive })
}

// The mailbox at this place: called with one i32 it is sent that, without arguments its first value is received.
fn ask_mailbox(
    alloc: Global,
    call: &Call,
    place: usize,
    mail: &mut Mailboxes,
) -> Result<Asked, AllocError>
    requires { place < length mail.old.boxes }
    ensures asks { IfOk result (λ asked. AsksAt call.now.import call.now.args.items place mail.old mail.new asked) }
    ensures waits { IfOk result WaitsATick }
    ensures kept { IsErr result → mail.new ≡ mail.old }
{
    match call.args.as_slice() {
        [] => Ok(receive(alloc, call.import, place, mail)),
        [value] => ask_with(alloc, call.import, place, *value, mail),
        _ => Ok(no_device(call.import)),
    }
}

// What is no i32 isn't sent.
fn ask_with(
    alloc: Global,
    import: u32,
    place: usize,
    value: Value,
    mail: &mut Mailboxes,
) -> Result<Asked, AllocError>
    requires { place < length mail.old.boxes }
    ensures asks { IfOk result (λ asked. AsksAt import (value ∷ []) place mail.old mail.new asked) }
    ensures none { IfOk result (λ asked. asked.receive ≡ None) }
    ensures kept { IsErr result → mail.new ≡ mail.old }
{
    match value {
        Value::I32(value) => send(alloc, place, value, mail),
        Value::I64(_) => Ok(no_device(import)),
    }
}

// What is sent is answered none at once.
fn send(alloc: Global, place: usize, value: u32, mail: &mut Mailboxes) -> Result<Asked, AllocError>
    requires { place < length mail.old.boxes }
    ensures asks { (import : ℕ) → IfOk result (λ asked. AsksAt import (V.I32 value ∷ []) place mail.old mail.new asked) }
    ensures none { IfOk result (λ asked. asked.receive ≡ None) }
    ensures kept { IsErr result → mail.new ≡ mail.old }
{
    mail.send(place, value)?;
    let met = Met::Given(mail_answer(alloc, None, 0));
    let receive = None;
    Ok(Asked { met, receive })
}

// A receive is answered the first value at once. Where none is queued it waits.
fn receive(alloc: Global, import: u32, place: usize, mail: &mut Mailboxes) -> Asked
    requires { place < length mail.old.boxes }
    ensures asks { AsksAt import [] place mail.old mail.new result }
    ensures waits { WaitsATick result }
{
    match mail.receive(place) {
        Some(reply) => Asked {
            met: Met::Given(mail_answer(alloc, reply.value, reply.ticks)),
            receive: None,
        },
        None => Asked {
            met: Met::Given(mail_answer(alloc, Some(Value::I32(0)), 1)),
            receive: Some(import),
        },
    }
}

// What no mailbox takes meets no device.
fn no_device(import: u32) -> Asked
    ensures { result ≡ record { met = Met.Refused (End.NoDevice import); receive = None } }
{
    Asked {
        met: Met::Refused(End::NoDevice(import)),
        receive: None,
    }
}

// An answer of a mailbox.
pub(crate) fn mail_answer(alloc: Global, value: Option<Value>, ticks: u32) -> Answer
    ensures { given (answer_of result) ≡ mailed value ticks }
{
    Answer {
        said: Said::Value(value),
        pokes: Vec::new(alloc),
        ticks,
    }
}

// The name to which an import is bound, where it is.
pub(crate) fn bound_to(setting: &Setting, import: u32) -> Option<&str>
    ensures { option_map (λ name. name.now) result ≡ bound_in setting.now import }
{
    match setting.binds.get(import as usize) {
        None => None,
        Some(bound) => name_in(bound),
    }
}

fn name_in(bound: &Option<Name>) -> Option<&str>
    ensures { option_map (λ name. name.now) result ≡ bound.now }
{
    match bound {
        None => None,
        Some(name) => Some(name.as_str()),
    }
}
