//! What comes of each stage but the pauses: the start function, entries, and calls of imports with their answers.

ghost use Rattle.std.specs.Prelude.{◌≡◌, ◌<◌, ◌≤◌, ◌+◌, ◌-◌, ◌^◌, ℕ, List, [], ◌∷◌, All, Option, IfOk, IsErr, OnOk, None, false, true, map, slice_get, length};
ghost use Rattle.std.specs.Option.{option_map, option_to_list};
ghost use Rattle.wa_types.specs.Modules.{func_imports};
ghost use Rattle.wa_model.specs.Store.{Store};
ghost use Rattle.wa_model.specs.View.{answer_of};
ghost use Rattle.wa_model.specs.Blocking.{Asker, Left as PlainLeft, Task as PlainTask, an_entry, fault_of, next_entry, the_start};
ghost use Rattle.wa_model.specs.Protocol.{Held, exports_of, starting};
ghost use Rattle.world_model.specs.World.{Program};
ghost use Rattle.run_laws.specs.FittingStates.{HeldFits};
ghost use Rattle.interp.specs.Host.{code_in, store_in, waits_in};
ghost use Rattle.interp.specs.Instance.{Calls, Waits};
ghost use Rattle.device_port.specs.Listed.{of_all};
ghost use Rattle.host_laws.specs.Answering.{IsShort, listed_of};
ghost use Rattle.host_laws.specs.Places.{Place, stands};
ghost use Rattle.host_laws.specs.Supplies.{RisesAtMostOne};
ghost use Rattle.pause_host.specs.Holding.{HoldsArea, PokesInside};
ghost use Rattle.pause_host.specs.Hosting.{AsksOnly, CallsOne, HasMemory, HostsAt, MayAsk, StartRan, StopsFirst};
ghost use Rattle.pause_host.specs.Mailing.{MailSupply, awaits_in, latest, mail_supply};
ghost use Rattle.pause_host.specs.Moves.{Asks, Comes, ComesFrom, HasShortPokes, IsAsking, IsSetting, IsTask, NextFrom, NextPauses, NextStarts, NextStops, PausesSo, PlaceFits, Stops, StopsAtReceive, TaskTurn};
ghost use Rattle.pause_host.specs.Views.{entry_of, free_place, is_paused, is_starting, is_stopping, left_of, lines_in, place_in, stage_after, stage_told, starts};

use crate::asking::{Asked, next_outcome};
use crate::ends::ends;
use crate::memory::write_pokes;
use crate::stages::{
    EntryCall, Given, Heard, HostImport, Left, Moved, NewCall, Next, Pause, Setting, Stage, Task,
    stage_told,
};
use device_port::Devices;
use host_laws::{AnsweredCall, Met, answer_fault};
use interp::{Instance, Steps, Turn};
use mailbox_device::Mailboxes;
use std::alloc::AllocError;
use std::collections::VecDeque;
use wa_model::{Answer, AnswerLine, Call, End, Event};
use wa_types::Value;

/// Calls the start function, which may be an import.
pub fn start(
    setting: &Setting,
    instance: &mut Instance<'_>,
    left: &mut Left,
    steps: &mut Steps,
    func: u32,
) -> Result<Next, AllocError>
    requires few { steps.old.left + steps.old.used < 2 ^ 64 }
    requires there { HostsAt setting.now (code_in instance.old) (λ w. stands [] (starting func (store_in instance.old) (left_of left.old))) }
    ensures comes { (w : Program) → IsSetting w setting.now → code_in instance.old ≡ w.source → HeldFits w.source (starting func (store_in instance.old) (left_of left.old))
        → IfOk result (λ n. NextFrom w (stands [] (starting func (store_in instance.old) (left_of left.old))) steps.old.left (steps.new.used - steps.old.used) n (left_of left.new)
        (store_in instance.new) (waits_in instance.new)) }
    ensures asks { IfOk result (MayAsk setting.now (store_in instance.new)) }
    ensures pauses { IfOk result NextPauses }
    ensures answers { left.new.answers ≡ left.old.answers }
    ensures code { code_in instance.new ≡ code_in instance.old }
    ensures sum { steps.new.left + steps.new.used ≡ steps.old.left + steps.old.used }
    ensures grows { steps.old.used ≤ steps.new.used }
{
    let turn = instance.begin(func, &[], steps)?;
    if (func as usize) < setting.imports.len() {
        return start_asked(setting, turn);
    }
    start_ran(setting, instance, left, steps, turn)
}

// The start function is an import.
fn start_asked(setting: &Setting, turn: Turn) -> Result<Next, AllocError>
    requires turn { AsksOnly (length setting.now.imports.items) turn }
    ensures comes { (w : Program) → IsSetting w setting.now → (s s' : Store) (waits : Waits) (func : ℕ) (l : PlainLeft) (left_then used : ℕ) → func < func_imports w.source
        → Calls w.source s func [] left_then used turn s' waits → IfOk result (λ n. NextFrom w (stands [] (starting func s l)) left_then used n l s' waits) }
    ensures asks { (s : Store) → HoldsArea setting.now.area s → IfOk result (MayAsk setting.now s) }
    ensures pauses { IfOk result NextPauses }
{
    match turn {
        Turn::Returned(_) => unreachable!(),
        Turn::Trapped(_) => unreachable!(),
        Turn::Waiting(call) => {
            let task = Task::Outermost;
            return Ok(Next::Calls { task, call });
        }
        Turn::StepsSpent => return ends(setting.alloc, End::StepsSpent(setting.steps)),
    }
}

// The start function ran: the entries come next.
fn start_ran(
    setting: &Setting,
    instance: &mut Instance<'_>,
    left: &mut Left,
    steps: &mut Steps,
    turn: Turn,
) -> Result<Next, AllocError>
    requires few { steps.old.left + steps.old.used < 2 ^ 64 }
    requires area { HoldsArea setting.now.area (store_in instance.old) }
    requires turn { StartRan setting.now (code_in instance.old) (left_of left.old) turn (store_in instance.old) }
    ensures comes { (w : Program) → IsSetting w setting.now → code_in instance.old ≡ w.source → (h : Held) (left_then used : ℕ)
        → TaskTurn w h (left_of left.old) the_start left_then used turn (store_in instance.old) (waits_in instance.old) → steps.old.left + used ≡ left_then → HeldFits w.source h
        → IfOk result (λ n. NextFrom w (stands [] h) left_then (used + (steps.new.used - steps.old.used)) n (left_of left.new) (store_in instance.new) (waits_in instance.new)) }
    ensures asks { IfOk result (MayAsk setting.now (store_in instance.new)) }
    ensures pauses { IfOk result NextPauses }
    ensures answers { left.new.answers ≡ left.old.answers }
    ensures code { code_in instance.new ≡ code_in instance.old }
    ensures sum { steps.new.left + steps.new.used ≡ steps.old.left + steps.old.used }
    ensures grows { steps.old.used ≤ steps.new.used }
{
    match turn {
        Turn::Returned(_) => call_next(setting, instance, left, steps),
        other => stopped(setting, Task::Start, other),
    }
}

/// Calls the next entry; behind the last one the program is done.
pub(crate) fn call_next(
    setting: &Setting,
    instance: &mut Instance<'_>,
    left: &mut Left,
    steps: &mut Steps,
) -> Result<Next, AllocError>
    requires few { steps.old.left + steps.old.used < 2 ^ 64 }
    requires there { HostsAt setting.now (code_in instance.old) (λ w. free_place (left_of left.old) (store_in instance.old)) }
    ensures comes { (w : Program) → IsSetting w setting.now → code_in instance.old ≡ w.source → PlaceFits w (free_place (left_of left.old) (store_in instance.old))
        → IfOk result (λ n. NextFrom w (free_place (left_of left.old) (store_in instance.old)) steps.old.left (steps.new.used - steps.old.used) n (left_of left.new)
        (store_in instance.new) (waits_in instance.new)) }
    ensures asks { IfOk result (MayAsk setting.now (store_in instance.new)) }
    ensures pauses { IfOk result NextPauses }
    ensures answers { left.new.answers ≡ left.old.answers }
    ensures code { code_in instance.new ≡ code_in instance.old }
    ensures sum { steps.new.left + steps.new.used ≡ steps.old.left + steps.old.used }
    ensures grows { steps.old.used ≤ steps.new.used }
{
    match left.entries.pop_front() {
        None => ends(setting.alloc, End::Done),
        Some(entry) => {
            let turn = instance.begin(entry.func, &entry.args, steps)?;
            entry_ran(setting, left, entry, turn)
        }
    }
}

// An entry ran.
fn entry_ran(
    setting: &Setting,
    left: &mut Left,
    entry: EntryCall,
    turn: Turn,
) -> Result<Next, AllocError>
    requires number { left.old.number + 1 < 2 ^ 32 }
    requires turn { CallsOne (length setting.now.imports.items) turn }
    ensures comes { (w : Program) → IsSetting w setting.now → (h : Held) (left_then used : ℕ) (s : Store) (waits : Waits)
        → TaskTurn w h (left_of left.old) (an_entry (entry_of entry)) left_then used turn s waits → IfOk result (λ n. NextFrom w (stands [] h) left_then used n (left_of left.new) s waits) }
    ensures asks { (s : Store) → HoldsArea setting.now.area s → IfOk result (MayAsk setting.now s) }
    ensures pauses { IfOk result NextPauses }
    ensures answers { left.new.answers ≡ left.old.answers }
{
    match turn {
        Turn::Returned(value) => Ok(Next::Told(returned(left, value))),
        other => stopped(setting, Task::Entry(entry), other),
    }
}

// An entry returned.
fn returned(left: &mut Left, value: Option<Value>) -> Moved
    requires { left.old.number + 1 < 2 ^ 32 }
    ensures event { result.event ≡ Event.Returned left.old.number value }
    ensures stage { result.stage ≡ Stage.Free }
    ensures pauses { PausesSo result }
    ensures left { left_of left.new ≡ next_entry (left_of left.old) }
    ensures answers { left.new.answers ≡ left.old.answers }
{
    let entry = left.number;
    left.number += 1;
    let event = Event::Returned { entry, value };
    let stage = Stage::Free;
    Moved { event, stage }
}

// What runs for a task stopped before it returned.
fn stopped(setting: &Setting, task: Task, turn: Turn) -> Result<Next, AllocError>
    requires turn { StopsFirst (length setting.now.imports.items) turn }
    ensures comes { (w : Program) → IsSetting w setting.now → (t : PlainTask) (h : Held) (l : PlainLeft) (left_then used : ℕ) (s : Store) (waits : Waits) → IsTask task t
        → TaskTurn w h l t left_then used turn s waits → IfOk result (λ n. NextFrom w (stands [] h) left_then used n l s waits) }
    ensures asks { (s : Store) → HoldsArea setting.now.area s → IfOk result (MayAsk setting.now s) }
    ensures pauses { IfOk result NextPauses }
{
    match turn {
        Turn::Returned(_) => unreachable!(),
        Turn::Trapped(trap) => return ends(setting.alloc, End::Trapped(trap)),
        Turn::Waiting(call) => return Ok(Next::Calls { task, call }),
        Turn::StepsSpent => return ends(setting.alloc, End::StepsSpent(setting.steps)),
    }
}

/// What is told: the event that comes, or the new call that does, with the outcome that it meets.
pub fn told(
    setting: &Setting,
    instance: &Instance<'_>,
    answers: &mut VecDeque<AnswerLine>,
    devices: &mut Devices<'_>,
    mail: &mut Mailboxes,
    next: Next,
) -> Result<Heard, AllocError>
    requires memory { HasMemory (code_in instance.now) }
    requires asks { MayAsk setting.now (store_in instance.now) next }
    requires paused { NextPauses next }
    ensures comes { (w : Program) → IsSetting w setting.now → code_in instance.now ≡ w.source → All HasShortPokes (lines_in answers.old.items)
        → (from : Place) (l : PlainLeft) (left_then used : ℕ) (r : Option ℕ) → NextFrom w from left_then used next l (store_in instance.now) (waits_in instance.now)
        → IfOk result (λ h. ComesFrom w from left_then used h.moved (mail_supply seen faults (lines_in answers.old.items) devices.old mail.old (awaits_in setting.now r))
        (mail_supply seen faults (lines_in answers.new.items) devices.new mail.new (awaits_in setting.now (latest h.receive r))) l (store_in instance.now) (waits_in instance.now)) }
    ensures pauses { IfOk result (λ h. PausesSo h.moved) }
    ensures receives { IfOk result StopsAtReceive }
    ensures stops { NextStops next → IfOk result (λ h. Stops h.moved) }
    ensures starts { NextStarts next → IfOk result (λ h. is_starting h.moved.stage ≡ true) }
    ensures kept { IsErr result → of_all seen devices.new ≡ of_all seen devices.old }
    ensures once { IsErr result → RisesAtMostOne (of_all faults devices.old) (of_all faults devices.new) }
    ensures mail { IsErr result → mail.new ≡ mail.old }
    ensures same_list { devices.new.list.ghost_name ≡ devices.old.list.ghost_name }
{
    match next {
        Next::Told(moved) => {
            let receive = None;
            Ok(Heard { moved, receive })
        }
        Next::Calls { task, call } => {
            let new_call = NewCall { task, call };
            called(setting, instance, answers, devices, mail, new_call)
        }
    }
}

// A new call of an import is told, and meets an outcome.
fn called(
    setting: &Setting,
    instance: &Instance<'_>,
    answers: &mut VecDeque<AnswerLine>,
    devices: &mut Devices<'_>,
    mail: &mut Mailboxes,
    new_call: NewCall,
) -> Result<Heard, AllocError>
    requires memory { HasMemory (code_in instance.now) }
    requires area { HoldsArea setting.now.area (store_in instance.now) }
    requires import { new_call.call.import < length setting.now.imports.items }
    ensures comes { (w : Program) → IsSetting w setting.now → code_in instance.now ≡ w.source → All HasShortPokes (lines_in answers.old.items)
        → (who : Asker) (h : Held) (l : PlainLeft) (left_then used : ℕ) (r : Option ℕ) → Asks w h used new_call.call.import new_call.call.args.items who l → used ≤ left_then
        → IsAsking new_call.task (waits_in instance.now) (store_in instance.now) who → IfOk result
        (λ x. Comes w h left_then used x.moved (mail_supply seen faults (lines_in answers.old.items) devices.old mail.old (awaits_in setting.now r))
        (mail_supply seen faults (lines_in answers.new.items) devices.new mail.new (awaits_in setting.now (latest x.receive r))) l (store_in instance.now) (waits_in instance.now)) }
    ensures pauses { IfOk result (λ x. PausesSo x.moved) }
    ensures receives { IfOk result StopsAtReceive }
    ensures starts { starts new_call.task ≡ true → IfOk result (λ x. is_starting x.moved.stage ≡ true) }
    ensures kept { IsErr result → of_all seen devices.new ≡ of_all seen devices.old }
    ensures once { IsErr result → RisesAtMostOne (of_all faults devices.old) (of_all faults devices.new) }
    ensures mail { IsErr result → mail.new ≡ mail.old }
    ensures same_list { devices.new.list.ghost_name ≡ devices.old.list.ghost_name }
{
    let NewCall { task, call } = new_call;
    let import = &setting.imports[call.import as usize];
    let Some(memory) = instance.memory() else {
        unreachable!();
    };
    let size = memory.len() as u64;
    let Asked { met, receive } = next_outcome(setting, import, &call, answers, devices, mail)?;
    match met {
        Met::Refused(end) => {
            let stage = Stage::Ending(end);
            let event = Event::Called(call);
            let moved = Moved { event, stage };
            return Ok(Heard { moved, receive });
        }
        Met::Given(answer) => {
            let stage = answered(setting, import, size, task, call.import, answer);
            let event = Event::Called(call);
            let moved = Moved { event, stage };
            return Ok(Heard { moved, receive });
        }
    }
}

/// Where an answer leads: to an end by the first test that it fails, to a pause, or to itself.
pub(crate) fn answered(
    setting: &Setting,
    import: &HostImport,
    size: u64,
    task: Task,
    number: u32,
    answer: Answer,
) -> Stage
    ensures stage { (w : Program) → IsSetting w setting.now → All IsShort (answer_of answer).pokes
        → result ≡ stage_after (fault_of (option_to_list import.now.result) size w.plan (starts task) number (answer_of answer)) answer.ticks task number answer }
    ensures apart { is_paused result ≡ false }
    ensures stops { 0 < answer.ticks → is_stopping result ≡ true }
    ensures starts { starts task ≡ true → is_starting result ≡ true }
{
    let call = AnsweredCall {
        import: number,
        result_type: import.result,
        in_start: is_start(&task),
    };
    match answer_fault(
        call,
        size,
        setting.area,
        &setting.others,
        listed_in(setting),
        &answer,
    ) {
        Some(end) => Stage::Ending(end),
        None => passed(task, number, answer),
    }
}

// Which function imports are listed, where that is told.
fn listed_in(setting: &Setting) -> Option<&[bool]>
    ensures { listed_of result ≡ option_map (λ l. l.items) setting.now.listed }
{
    match &setting.listed {
        None => None,
        Some(listed) => Some(listed.as_slice()),
    }
}

// Whether a call for the task is inside the start function, or is it.
fn is_start(task: &Task) -> bool
    ensures { result ≡ starts task.now }
{
    match task {
        Task::Entry(_) => false,
        _ => true,
    }
}

// An answer that passes its tests: a trap waits for its ticks as a value does.
fn passed(task: Task, import: u32, answer: Answer) -> Stage
    ensures stage { result ≡ stage_after None answer.ticks task import answer }
    ensures apart { is_paused result ≡ false }
    ensures stops { 0 < answer.ticks → is_stopping result ≡ true }
    ensures starts { starts task ≡ true → is_starting result ≡ true }
{
    if answer.ticks == 0 {
        return Stage::Answering { task, answer };
    }
    match task {
        Task::Entry(entry) => Stage::Pausing(Pause {
            entry,
            import,
            answer,
        }),
        _ => Stage::Ending(End::PauseInStart(import)),
    }
}

/// An answer is told, with what it writes into the memory; behind a trap comes the end.
pub fn tell_answer(instance: &mut Instance<'_>, task: Task, answer: Answer) -> Moved
    requires memory { HasMemory (code_in instance.old) }
    requires inside { PokesInside (length (store_in instance.old).memory) (answer_of answer).pokes }
    ensures comes { (w : Program) (l : PlainLeft) (supply : MailSupply) (left_then : ℕ) → PlaceFits w
        (place_in (exports_of w.source) w.plan.area l (store_in instance.old) (waits_in instance.old) (Stage.Answering task answer))
        → ComesFrom w (place_in (exports_of w.source) w.plan.area l (store_in instance.old) (waits_in instance.old) (Stage.Answering task answer)) left_then 0 result supply
        supply l (store_in instance.new) (waits_in instance.new) }
    ensures stage { result.stage ≡ stage_told task answer.said }
    ensures pauses { PausesSo result }
    ensures code { code_in instance.new ≡ code_in instance.old }
{
    write_pokes(instance, &answer.pokes);
    let said = answer.said;
    let event = Event::Answered(said);
    let stage = stage_told(task, said);
    Moved { event, stage }
}

/// A value that was told is given to what waits for it.
pub(crate) fn give(
    setting: &Setting,
    instance: &mut Instance<'_>,
    left: &mut Left,
    steps: &mut Steps,
    given: Given,
) -> Result<Next, AllocError>
    requires few { steps.old.left + steps.old.used < 2 ^ 64 }
    requires there { HostsAt setting.now (code_in instance.old) (λ w. place_in (exports_of w.source) w.plan.area (left_of left.old) (store_in instance.old) (waits_in instance.old) (Stage.Giving given.task given.value)) }
    ensures comes { (w : Program) → IsSetting w setting.now → code_in instance.old ≡ w.source
        → PlaceFits w (place_in (exports_of w.source) w.plan.area (left_of left.old) (store_in instance.old) (waits_in instance.old) (Stage.Giving given.task given.value))
        → IfOk result (λ n. NextFrom w (place_in (exports_of w.source) w.plan.area (left_of left.old) (store_in instance.old) (waits_in instance.old) (Stage.Giving given.task given.value))
        steps.old.left (steps.new.used - steps.old.used) n (left_of left.new) (store_in instance.new) (waits_in instance.new)) }
    ensures asks { IfOk result (MayAsk setting.now (store_in instance.new)) }
    ensures pauses { IfOk result NextPauses }
    ensures answers { left.new.answers ≡ left.old.answers }
    ensures code { code_in instance.new ≡ code_in instance.old }
    ensures sum { steps.new.left + steps.new.used ≡ steps.old.left + steps.old.used }
    ensures grows { steps.old.used ≤ steps.new.used }
{
    let Given { task, value } = given;
    let turn = instance.resume(value, steps)?;
    match task {
        Task::Entry(entry) => entry_ran(setting, left, entry, turn),
        Task::Start => start_ran(setting, instance, left, steps, turn),
        Task::Outermost => unreachable!(),
    }
}
