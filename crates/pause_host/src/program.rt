//! `Program`: a plan over a prepared module, advanced from event to event.

ghost use Rattle.std.specs.Prelude.{◌≡◌, ◌<◌, ◌≤◌, ◌+◌, ◌*◌, ◌++◌, ◌^◌, [], ◌∷◌, ℕ, suc, List, IfOk, IsErr, IfErr, IfSome, IsSome, None, Ok, Some, false, true, length, map, min};
ghost use Rattle.std.specs.Option.{option_copied, option_map, unwrap_or};
ghost use Rattle.wa_types.specs.Memory.{page_size};
ghost use Rattle.wa_model.specs.View.{event_of};
ghost use Rattle.world_model.specs.World.{bytes_shown};
ghost use Rattle.mail_laws.specs.Told.{Await};
ghost use Rattle.mail_laws.specs.MailWorld.{told_pause};
ghost use Rattle.pause_host.specs.declared.stages.Setting.{Setting as SettingValue};
ghost use Rattle.pause_host.specs.Mailing.{awaits_in, bound_in, latest};
ghost use Rattle.pause_host.specs.Programs.{is_at_pause};
ghost use Rattle.pause_host.specs.Views.{is_paused, is_stopping};

use crate::asking::{bound_to, mail_answer};
use crate::ends::copy_end;
use crate::entries::entry_calls;
use crate::events::next_event;
use crate::plan::Plan;
use crate::running::{start, told};
use crate::setting::setting_of;
use crate::stages::{Heard, Left, Pause, Setting, Stage};
use device_port::Devices;
use host_setup::{SetupFault, set_up};
use interp::{Instance, MakeFault, Steps};
use mailbox_device::Mailboxes;
use snapshot_store::PausedParts;
use std::alloc::{AllocError, Global};
use std::collections::VecDeque;
use std::mem;
use wa_model::{End, Event};
use wa_types::Value;
use wasm_validate::Valid;

/// Where a program stands: before its instantiation, with an instance, ended without one, or out of memory.
#[derive(Drop)]
pub(crate) enum State<'m> {
    Fresh,
    Live {
        instance: Instance<'m>,
        stage: Stage,
    },
    Failed(End),
    Lost,
}

/// A program: a plan over a prepared module, on its way, with what is left of the plan, and the import of its receive that wasn't
/// answered, where there is one. It was given so many answer lines.
pub struct Program<'m> {
    pub(crate) valid: &'m Valid,
    pub(crate) globals: Vec<Value>,
    pub(crate) setting: Setting,
    pub(crate) left: Left,
    pub(crate) given: usize,
    pub(crate) steps_left: u64,
    pub(crate) receive: Option<u32>,
    pub(crate) state: State<'m>,
}

impl<'m> Program<'m> {
    ghost use Rattle.wa_model.specs.declared.events.End.{End};
    ghost use Rattle.wa_model.specs.Outside.{ended};
    ghost use Rattle.wa_model.specs.Blocking.{Note, no_store, note};
    ghost use Rattle.wa_model.specs.Protocol.{over, starting};
    ghost use Rattle.wa_model.specs.Plan.{Outcome};
    ghost use Rattle.world_model.specs.World.{Device, Program as WorldProgram, call_in};
    ghost use Rattle.wa_types.specs.View.{module_of};
    ghost use Rattle.wa_model.specs.Instantiation.{opening, opens};
    ghost use Rattle.interp_state.specs.Faults.{FailsAs};
    ghost use Rattle.interp.specs.Host.{code_in, store_in};
    ghost use Rattle.device_port.specs.Listed.{of_all};
    ghost use Rattle.mailbox_device.specs.Mail.{Mail};
    ghost use Rattle.mail_laws.specs.Mailboxes.{mailed};
    ghost use Rattle.wa_types.specs.declared.values.Value.TheVariants as V;
    ghost use Rattle.world_laws.specs.Originals.{new_calls};
    ghost use Rattle.host_laws.specs.Places.{stands};
    ghost use Rattle.host_setup.specs.SetUp.{set_up};
    ghost use Rattle.host_setup.specs.Views.{Blames};
    ghost use Rattle.pause_host.specs.FromPlans.{IsOfPlan};
    ghost use Rattle.host_laws.specs.Supplies.{IsLent, RisesAtMostOne};
    ghost use Rattle.pause_host.specs.Views.{end_of, left_of};
    ghost use Rattle.snapshot_store.specs.Views.{parts_of};
    ghost use Rattle.pause_host.specs.Parting.{memory_if, parts_in};
    ghost use Rattle.pause_host.specs.Programs.{Advances, AdvancesAlone, Follows, FollowsAlone, FollowsAt, IsOnItsWay, IsPlan, MailAdvances, MayGoOn, OnItsWay, RunsCode, SetsUp, StopsBehindReceive, TellsNext, behind_end, end_due, ended_as, ending_in, mail_supply_of, mail_supply_with, memory_in, named_entries, parked_in, place_of, receive_in, source_of, supply_of, lines_left};

    /// A program of a plan, before its instantiation, or the first fault of the plan.
    pub fn new(alloc: Global, plan: Plan<'m>) -> Result<Program<'m>, SetupFault>
        requires { IsPlan plan }
        ensures { SetsUp plan.entry result }
    {
        Program::of_plan(alloc, plan)
    }

    // The same, told part by part.
    pub(crate) fn of_plan(alloc: Global, plan: Plan<'m>) -> Result<Program<'m>, SetupFault>
        requires { IsPlan plan }
        ensures ok { IfOk result (λ program. (funcs : List ℕ) × (set_up (source_of plan.entry) plan.entry.area (named_entries plan.entry) ≡ Ok funcs) × IsOfPlan plan.entry funcs program) }
        ensures err { IfErr result (λ fault. Blames fault (set_up (source_of plan.entry) plan.entry.area (named_entries plan.entry))) }
    {
        let funcs = set_up(alloc, plan.module, plan.area, &plan.entries)?;
        let Plan {
            module: valid,
            listed,
            binds,
            area,
            steps,
            globals,
            entries,
            answers,
        } = plan;
        let setting = setting_of(alloc, valid.module(), listed, binds, area, steps)?;
        let entries = entry_calls(alloc, entries, &funcs)?;
        let given = answers.len();
        Ok(Program {
            valid,
            globals,
            setting,
            left: Left {
                number: 0,
                entries,
                answers: VecDeque::from_vec(answers),
            },
            given,
            steps_left: steps,
            receive: None,
            state: State::Fresh,
        })
    }

    /// The next event of the run under the protocol. A new call of an import that is bound to a name asks the mailbox of that name,
    /// where there is one, else the first device of the name, once; any other new call takes an answer line. A receive at an empty
    /// mailbox runs up to its pause, which is told as parking. After the end it is the end again, and nothing is asked. After want of
    /// memory it isn't called again.
    pub fn advance(
        &mut self,
        devices: &mut Devices<'_>,
        mail: &mut Mailboxes,
    ) -> Result<Event, AllocError>
        requires lent { IsLent }
        requires goes { MayGoOn self.old }
        requires awake { parked_in self.old ≡ None }
        ensures next { (w : WorldProgram) (notes : List Note) (os : List Outcome) → Follows w notes os self.old → ended_as self.old ≡ None
            → IfOk result (λ event. TellsNext w notes os (event_of event) (mail_supply_of seen faults self.old devices.old mail.old) (mail_supply_of seen faults self.new devices.new mail.new)
            self.new) }
        ensures again { (how : End) → ended_as self.old ≡ Some how
            → IfOk result (λ event. (event_of event ≡ ended how) × (self.new ≡ self.old) × (devices.new ≡ devices.old) × (mail.new ≡ mail.old)) }
        ensures ending { (how : End) → ending_in self.old ≡ Some how
            → IfOk result (λ event. (event_of event ≡ ended how) × (self.new ≡ record self.old { state = behind_end how self.old.state }) × (devices.new ≡ devices.old) × (mail.new ≡ mail.old)) }
        ensures stops { StopsBehindReceive self.old → IfOk result (λ event. StopsBehindReceive self.new × ((r : Await) → receive_in self.old ≡ Some r → call_in (event_of event) ≡ None)) }
        ensures kept { IsErr result → of_all seen devices.new ≡ of_all seen devices.old }
        ensures once { IsErr result → RisesAtMostOne (of_all faults devices.old) (of_all faults devices.new) }
        ensures mail { IsErr result → mail.new ≡ mail.old }
        ensures same_list { devices.new.list.ghost_name ≡ devices.old.list.ghost_name }
    {
        let event = self.step(devices, mail)?;
        Ok(told_event(self.receive, event))
    }

    /// The next event of the run under the protocol, where there are no mailboxes. A new call of an import that is bound to a name
    /// asks the first device of that name, once, and any other new call takes an answer line. After the end it is the end again, and
    /// no device is asked. After want of memory it isn't called again.
    pub fn advance_without_mail(&mut self, devices: &mut Devices<'_>) -> Result<Event, AllocError>
        requires lent { IsLent }
        requires goes { IsOnItsWay self.old }
        ensures next { (w : WorldProgram) (notes : List Note) (os : List Outcome) → Follows w notes os self.old → ended_as self.old ≡ None
            → IfOk result (λ event. Advances w notes os event (supply_of seen faults self.old devices.old) (supply_of seen faults self.new devices.new) self.new) }
        ensures again { (how : End) → ended_as self.old ≡ Some how → IfOk result (λ event. (event_of event ≡ ended how) × (self.new ≡ self.old) × (devices.new ≡ devices.old)) }
        ensures kept { IsErr result → of_all seen devices.new ≡ of_all seen devices.old }
        ensures once { IsErr result → RisesAtMostOne (of_all faults devices.old) (of_all faults devices.new) }
        ensures same_list { devices.new.list.ghost_name ≡ devices.old.list.ghost_name }
    {
        let alloc = self.setting.alloc;
        let mut none = Mailboxes::new(alloc, Vec::new(alloc))?;
        self.step(devices, &mut none)
    }

    // The next event of the run, a pause also where it parks the program.
    fn step(&mut self, devices: &mut Devices<'_>, mail: &mut Mailboxes) -> Result<Event, AllocError>
        requires goes { MayGoOn self.old }
        ensures next { (w : WorldProgram) (notes : List Note) (os : List Outcome) → Follows w notes os self.old → ended_as self.old ≡ None
            → IfOk result (λ event. MailAdvances w notes os event (mail_supply_of seen faults self.old devices.old mail.old) (mail_supply_of seen faults self.new devices.new mail.new) self.new) }
        ensures again { (how : End) → ended_as self.old ≡ Some how
            → IfOk result (λ event. (event_of event ≡ ended how) × (self.new ≡ self.old) × (devices.new ≡ devices.old) × (mail.new ≡ mail.old)) }
        ensures ending { (how : End) → ending_in self.old ≡ Some how
            → IfOk result (λ event. (event_of event ≡ ended how) × (self.new ≡ record self.old { state = behind_end how self.old.state }) × (devices.new ≡ devices.old) × (mail.new ≡ mail.old)) }
        ensures stops { StopsBehindReceive self.old → parked_in self.old ≡ None
            → IfOk result (λ event. StopsBehindReceive self.new × ((r : Await) → receive_in self.old ≡ Some r → call_in (event_of event) ≡ None)) }
        ensures kept { IsErr result → of_all seen devices.new ≡ of_all seen devices.old }
        ensures once { IsErr result → RisesAtMostOne (of_all faults devices.old) (of_all faults devices.new) }
        ensures mail { IsErr result → mail.new ≡ mail.old }
        ensures same_list { devices.new.list.ghost_name ≡ devices.old.list.ghost_name }
    {
        match mem::replace(&mut self.state, State::Lost) {
            State::Fresh => self.open(devices, mail),
            State::Live { instance, stage } => self.live(instance, stage, devices, mail),
            State::Failed(end) => self.fail(end),
            State::Lost => unreachable!(),
        }
    }

    /// The next event of a program that is alone, without devices.
    pub fn advance_alone(&mut self) -> Result<Event, AllocError>
        requires { IsOnItsWay self.old }
        ensures next { (w : WorldProgram) (notes : List Note) → FollowsAlone w notes self.old → ended_as self.old ≡ None → IfOk result (λ event. AdvancesAlone w notes event self.new) }
        ensures again { (how : End) → ended_as self.old ≡ Some how → IfOk result (λ event. (event_of event ≡ ended how) × (self.new ≡ self.old)) }
    {
        let mut none = Vec::new(self.setting.alloc);
        self.advance_without_mail(&mut Devices::new(&mut none))
    }

    // The module is instantiated, and its start function called where it has one.
    fn open(&mut self, devices: &mut Devices<'_>, mail: &mut Mailboxes) -> Result<Event, AllocError>
        requires { OnItsWay self.old (place_of self.old State.Fresh) State.Fresh }
        ensures next { (w : WorldProgram) (notes : List Note) (os : List Outcome) → FollowsAt w notes os self.old (place_of self.old State.Fresh)
            → IfOk result (λ event. MailAdvances w notes os event (mail_supply_of seen faults self.old devices.old mail.old) (mail_supply_of seen faults self.new devices.new mail.new) self.new) }
        ensures receives { receive_in self.old ≡ None → IfOk result (λ event. StopsBehindReceive self.new) }
        ensures kept { IsErr result → of_all seen devices.new ≡ of_all seen devices.old }
        ensures once { IsErr result → RisesAtMostOne (of_all faults devices.old) (of_all faults devices.new) }
        ensures mail { IsErr result → mail.new ≡ mail.old }
        ensures same_list { devices.new.list.ghost_name ≡ devices.old.list.ghost_name }
    {
        match Instance::make(self.setting.alloc, self.valid, &self.globals) {
            Ok(instance) => self.opened(instance, devices, mail),
            Err(fault) => self.not_opened(fault),
        }
    }

    fn opened(
        &mut self,
        instance: Instance<'m>,
        devices: &mut Devices<'_>,
        mail: &mut Mailboxes,
    ) -> Result<Event, AllocError>
        requires code { code_in instance ≡ module_of self.old.valid.now }
        requires store { opening (module_of self.old.valid.now) self.old.globals.items ≡ opens (store_in instance) }
        requires goes { OnItsWay self.old (place_of self.old State.Fresh) State.Fresh }
        ensures next { (w : WorldProgram) (notes : List Note) (os : List Outcome) → code_in instance.entry ≡ module_of self.old.valid.now
            → opening (module_of self.old.valid.now) self.old.globals.items ≡ opens (store_in instance.entry) → FollowsAt w notes os self.old (place_of self.old State.Fresh)
            → IfOk result (λ event. MailAdvances w notes os event (mail_supply_of seen faults self.old devices.old mail.old) (mail_supply_of seen faults self.new devices.new mail.new) self.new) }
        ensures receives { receive_in self.old ≡ None → IfOk result (λ event. StopsBehindReceive self.new) }
        ensures kept { IsErr result → of_all seen devices.new ≡ of_all seen devices.old }
        ensures once { IsErr result → RisesAtMostOne (of_all faults devices.old) (of_all faults devices.new) }
        ensures mail { IsErr result → mail.new ≡ mail.old }
        ensures same_list { devices.new.list.ghost_name ≡ devices.old.list.ghost_name }
    {
        match self.valid.module().start {
            None => self.go_on(instance, Stage::Free, devices, mail),
            Some(func) => self.begin(instance, func, devices, mail),
        }
    }

    fn not_opened(&mut self, fault: MakeFault) -> Result<Event, AllocError>
        ensures next { (w : WorldProgram) (notes : List Note) (os : List Outcome) (ds : List Device) (counts : List ℕ) (mail : Mail)
            → FailsAs (opening (module_of self.old.valid.now) self.old.globals.items) fault → FollowsAt w notes os self.old (place_of self.old State.Fresh)
            → IfOk result (λ event. MailAdvances w notes os event (mail_supply_with self.old ds counts mail) (mail_supply_with self.new ds counts mail) self.new) }
        ensures stops { IfOk result (λ event. StopsBehindReceive self.new) }
    {
        match fault {
            MakeFault::Memory => Err(AllocError),
            MakeFault::HostLimit { entries, found } => {
                self.fail(End::HostLimit { entries, found })
            }
            MakeFault::ElementsOut(number) => self.fail(End::ElementsOut(number)),
            MakeFault::BytesOut(number) => self.fail(End::BytesOut(number)),
        }
    }

    // The program has ended without an instance.
    fn fail(&mut self, end: End) -> Result<Event, AllocError>
        ensures next { (w : WorldProgram) (notes : List Note) (os : List Outcome) (ds : List Device) (counts : List ℕ) (mail : Mail)
            → FollowsAt w notes os self.old (stands (note (ended end) no_store ∷ []) (over no_store))
            → IfOk result (λ event. MailAdvances w notes os event (mail_supply_with self.old ds counts mail) (mail_supply_with self.new ds counts mail) self.new) }
        ensures again { IfOk result (λ event. (event_of event ≡ ended end) × (self.new ≡ record self.old { state = State.Failed end })) }
        ensures stops { IfOk result (λ event. StopsBehindReceive self.new × (call_in (event_of event) ≡ None)) }
    {
        let told = copy_end(self.setting.alloc, &end)?;
        self.put_state(State::Failed(end));
        Ok(Event::Ended(told))
    }

    fn live(
        &mut self,
        instance: Instance<'m>,
        stage: Stage,
        devices: &mut Devices<'_>,
        mail: &mut Mailboxes,
    ) -> Result<Event, AllocError>
        requires { end_due stage ≡ None → OnItsWay self.old (place_of self.old (State.Live instance stage)) (State.Live instance stage) }
        ensures next { (w : WorldProgram) (notes : List Note) (os : List Outcome) → FollowsAt w notes os self.old (place_of self.old (State.Live instance.entry stage))
            → RunsCode w.source (State.Live instance.entry stage) → end_of stage ≡ None
            → IfOk result (λ event. MailAdvances w notes os event (mail_supply_of seen faults self.old devices.old mail.old) (mail_supply_of seen faults self.new devices.new mail.new) self.new) }
        ensures again { (how : End) → end_of stage ≡ Some how → IfOk result (λ event. (event_of event ≡ ended how)
            × (self.new ≡ record self.old { state = (State.Live instance.entry stage) }) × (devices.new ≡ devices.old) × (mail.new ≡ mail.old)) }
        ensures ending { (how : End) → end_due stage ≡ Some how → IfOk result (λ event. (event_of event ≡ ended how)
            × (self.new ≡ record self.old { state = State.Live instance.entry (Stage.Ended how) }) × (devices.new ≡ devices.old) × (mail.new ≡ mail.old)) }
        ensures receives { receive_in self.old ≡ None → IfOk result (λ event. StopsBehindReceive self.new) }
        ensures stops { is_stopping stage ≡ true → is_paused stage ≡ false → IfOk result (λ event. StopsBehindReceive self.new × (call_in (event_of event) ≡ None)) }
        ensures kept { IsErr result → of_all seen devices.new ≡ of_all seen devices.old }
        ensures once { IsErr result → RisesAtMostOne (of_all faults devices.old) (of_all faults devices.new) }
        ensures mail { IsErr result → mail.new ≡ mail.old }
        ensures same_list { devices.new.list.ghost_name ≡ devices.old.list.ghost_name }
    {
        match stage {
            Stage::Ended(end) => self.tell_end(instance, end),
            Stage::Ending(end) => self.tell_end(instance, end),
            stage => self.go_on(instance, stage, devices, mail),
        }
    }

    // The end is told, be it again.
    fn tell_end(&mut self, instance: Instance<'m>, end: End) -> Result<Event, AllocError>
        ensures told { IfOk result (λ event. (event_of event ≡ ended end) × (self.new ≡ record self.old { state = State.Live instance.entry (Stage.Ended end) })) }
        ensures stops { IfOk result (λ event. StopsBehindReceive self.new × (call_in (event_of event) ≡ None)) }
        ensures next { (w : WorldProgram) (notes : List Note) (os : List Outcome) (ds : List Device) (counts : List ℕ) (mail : Mail)
            → FollowsAt w notes os self.old (place_of self.old (State.Live instance.entry (Stage.Ending end))) → RunsCode w.source (State.Live instance.entry (Stage.Ending end))
            → IfOk result (λ event. MailAdvances w notes os event (mail_supply_with self.old ds counts mail) (mail_supply_with self.new ds counts mail) self.new) }
    {
        let told = copy_end(self.setting.alloc, &end)?;
        let stage = Stage::Ended(end);
        self.put_state(State::Live { instance, stage });
        Ok(Event::Ended(told))
    }

    // From a stage to the next event.
    fn go_on(
        &mut self,
        mut instance: Instance<'m>,
        stage: Stage,
        devices: &mut Devices<'_>,
        mail: &mut Mailboxes,
    ) -> Result<Event, AllocError>
        requires { OnItsWay self.old (place_of self.old (State.Live instance stage)) (State.Live instance stage) }
        ensures next { (w : WorldProgram) (notes : List Note) (os : List Outcome) → FollowsAt w notes os self.old (place_of self.old (State.Live instance.entry stage))
            → RunsCode w.source (State.Live instance.entry stage) → end_of stage ≡ None
            → IfOk result (λ event. MailAdvances w notes os event (mail_supply_of seen faults self.old devices.old mail.old) (mail_supply_of seen faults self.new devices.new mail.new) self.new) }
        ensures receives { receive_in self.old ≡ None → IfOk result (λ event. StopsBehindReceive self.new) }
        ensures stops { is_stopping stage ≡ true → is_paused stage ≡ false → IfOk result (λ event. StopsBehindReceive self.new × (call_in (event_of event) ≡ None)) }
        ensures kept { IsErr result → of_all seen devices.new ≡ of_all seen devices.old }
        ensures once { IsErr result → RisesAtMostOne (of_all faults devices.old) (of_all faults devices.new) }
        ensures mail { IsErr result → mail.new ≡ mail.old }
        ensures same_list { devices.new.list.ghost_name ≡ devices.old.list.ghost_name }
    {
        let mut steps = unused(self.steps_left);
        let next = next_event(
            &self.setting,
            &mut instance,
            &mut self.left,
            &mut steps,
            stage,
        )?;
        let answers = &mut self.left.answers;
        let heard = told(&self.setting, &instance, answers, devices, mail, next)?;
        let Heard { moved, receive } = heard;
        self.steps_left = steps.left;
        self.put_receive(receive);
        let stage = moved.stage;
        self.put_state(State::Live { instance, stage });
        Ok(moved.event)
    }

    // From the call of the start function to the first event.
    fn begin(
        &mut self,
        mut instance: Instance<'m>,
        func: u32,
        devices: &mut Devices<'_>,
        mail: &mut Mailboxes,
    ) -> Result<Event, AllocError>
        requires { OnItsWay self.old (stands [] (starting func (store_in instance) (left_of self.old.left))) (State.Live instance Stage.Free) }
        ensures next { (w : WorldProgram) (notes : List Note) (os : List Outcome) → code_in instance.entry ≡ w.source
            → FollowsAt w notes os self.old (stands [] (starting func (store_in instance.entry) (left_of self.old.left)))
            → IfOk result (λ event. MailAdvances w notes os event (mail_supply_of seen faults self.old devices.old mail.old) (mail_supply_of seen faults self.new devices.new mail.new) self.new) }
        ensures receives { receive_in self.old ≡ None → IfOk result (λ event. StopsBehindReceive self.new) }
        ensures kept { IsErr result → of_all seen devices.new ≡ of_all seen devices.old }
        ensures once { IsErr result → RisesAtMostOne (of_all faults devices.old) (of_all faults devices.new) }
        ensures mail { IsErr result → mail.new ≡ mail.old }
        ensures same_list { devices.new.list.ghost_name ≡ devices.old.list.ghost_name }
    {
        let mut steps = unused(self.steps_left);
        let next = start(
            &self.setting,
            &mut instance,
            &mut self.left,
            &mut steps,
            func,
        )?;
        let answers = &mut self.left.answers;
        let heard = told(&self.setting, &instance, answers, devices, mail, next)?;
        let Heard { moved, receive } = heard;
        self.steps_left = steps.left;
        self.put_receive(receive);
        let stage = moved.stage;
        self.put_state(State::Live { instance, stage });
        Ok(moved.event)
    }

    // A receive at an empty mailbox, where there is a new one, is the one that wasn't answered.
    fn put_receive(&mut self, receive: Option<u32>)
        ensures { self.new ≡ record self.old { receive = latest receive self.old.receive } }
    {
        let Some(import) = receive else {
            return;
        };
        self.receive = Some(import);
    }

    // Where the program stands from here on. What it held there before is dropped.
    fn put_state(&mut self, state: State<'m>)
        ensures { self.new ≡ record self.old { state = state.entry } }
    {
        self.state = state;
    }

    /// The name of the mailbox at which it is parked: its last event was the pause of a receive that wasn't answered. None exactly
    /// where it isn't parked.
    pub fn parked_at(&self) -> Option<&str>
        ensures { option_map (λ name. name.now) result ≡ parked_in self.now }
    {
        if !is_paused(&self.state) {
            return None;
        }
        match self.receive {
            None => None,
            Some(import) => Some(name_of(&self.setting, import)),
        }
    }

    /// The receive at which it is parked is answered this value, with which the program goes on.
    pub fn settle(&mut self, value: u32)
        requires { IsSome (parked_in self.old) }
        ensures follows { (w : WorldProgram) (notes : List Note) (os : List Outcome) → new_calls notes ≡ suc (length os)
            → Follows w notes (os ++ mailed (Some (V.I32 0)) 1 ∷ []) self.old → Follows w notes (os ++ mailed (Some (V.I32 value)) 1 ∷ []) self.new }
        ensures awake { (receive_in self.new ≡ None) × (parked_in self.new ≡ None) }
        ensures kept { (memory_in self.new ≡ memory_in self.old) × (lines_left self.new ≡ lines_left self.old) }
    {
        let alloc = self.setting.alloc;
        self.receive = None;
        let State::Live { instance, stage } = mem::replace(&mut self.state, State::Lost) else {
            unreachable!();
        };
        let Stage::Paused(pause) = stage else {
            unreachable!();
        };
        let answer = mail_answer(alloc, Some(Value::I32(value)), 1);
        let Pause {
            entry,
            import,
            answer: _,
        } = pause;
        let stage = Stage::Paused(Pause {
            entry,
            import,
            answer,
        });
        self.put_state(State::Live { instance, stage });
    }

    /// Nobody will send what it waits for: its next event is its end, of which this is why. Nothing else of it changes.
    pub fn stall(&mut self)
        requires { IsSome (parked_in self.old) }
        ensures ending { (r : Await) → receive_in self.old ≡ Some r → ending_in self.new ≡ Some (End.Stalled r.import) }
        ensures awake { (receive_in self.new ≡ None) × (parked_in self.new ≡ None) }
        ensures kept { (memory_in self.new ≡ memory_in self.old) × (lines_left self.new ≡ lines_left self.old) }
    {
        let State::Live { instance, stage: _ } = mem::replace(&mut self.state, State::Lost) else {
            unreachable!();
        };
        let Some(import) = self.receive else {
            unreachable!();
        };
        self.receive = None;
        let stage = Stage::Ending(End::Stalled(import));
        self.put_state(State::Live { instance, stage });
    }

    /// What the program is at its pause, but for its memory. None exactly where it isn't paused: where the event told last isn't a
    /// pause.
    pub fn parts(&self, alloc: Global) -> Result<Option<PausedParts>, AllocError>
        ensures parts { IfOk result (λ parts. option_map parts_of parts ≡ parts_in self.now) }
        ensures whole { IfOk result (λ parts. IfSome parts (λ x. length (memory_in self.now) ≡ x.pages * page_size)) }
    {
        let State::Live { instance, stage } = &self.state else {
            return Ok(None);
        };
        let Stage::Paused(pause) = stage else {
            return Ok(None);
        };
        let globals = Vec::from_slice(alloc, instance.globals())?;
        Ok(Some(PausedParts {
            steps_used: self.setting.steps.saturating_sub(self.steps_left),
            entry: self.left.number,
            answers: narrowed(self.given.saturating_sub(self.left.answers.len())),
            import: pause.import,
            globals,
            pages: instance.pages(),
        }))
    }

    /// All bytes of the memory. None exactly where the program has no instance.
    pub fn memory(&self) -> Option<&[u8]>
        ensures { option_copied result ≡ memory_if self.now.state }
    {
        let State::Live { instance, stage: _ } = &self.state else {
            return None;
        };
        match instance.memory() {
            None => Some(&[]),
            Some(memory) => Some(memory),
        }
    }

    /// Bytes of the memory. None exactly where the program has no instance or the range isn't inside its memory.
    pub fn show(&self, at: u32, len: u32) -> Option<&[u8]>
        ensures { option_copied result ≡ bytes_shown (memory_in self.now) (record { at = at; len = len }) }
    {
        let State::Live { instance, stage: _ } = &self.state else {
            return None;
        };
        match instance.memory() {
            None => None,
            Some(memory) => shown(memory, at, len),
        }
    }
}

// Written out and not derived: who holds programs then calls it, and nothing of what a program consists of is dropped there.
impl Drop for Program<'_> {
    fn drop(self) {
        let Program {
            valid: _,
            globals: _,
            setting: _,
            left: _,
            given: _,
            steps_left: _,
            receive: _,
            state: _,
        } = self;
    }
}

// Whether a program stands at a pause.
fn is_paused(state: &State<'_>) -> bool
    ensures { result ≡ is_at_pause state.now }
{
    match state {
        State::Live { instance: _, stage } => is_pause(stage),
        _ => false,
    }
}

fn is_pause(stage: &Stage) -> bool
    ensures { result ≡ is_paused stage.now }
{
    match stage {
        Stage::Paused(_) => true,
        _ => false,
    }
}

// The name to which an import is bound, empty where it is bound to none.
fn name_of(setting: &Setting, import: u32) -> &str
    ensures { result.now ≡ unwrap_or (bound_in setting.now import) [] }
{
    match bound_to(setting, import) {
        None => "",
        Some(name) => name,
    }
}

// A pause is told as parking where a receive wasn't answered.
fn told_event(receive: Option<u32>, event: Event) -> Event
    ensures { (x : SettingValue) → event_of result ≡ told_pause (awaits_in x receive) (event_of event) }
{
    match receive {
        None => event,
        Some(_) => told_parked(event),
    }
}

// A pause is told as parking.
fn told_parked(event: Event) -> Event
    ensures { (r : Await) → event_of result ≡ told_pause (Some r) (event_of event) }
{
    match event {
        Event::Paused { ticks: _, used } => Event::Parked { used },
        other => other,
    }
}

// So many steps, of which none is used.
fn unused(left: u64) -> Steps
    ensures left { result.left ≡ left }
    ensures used { result.used ≡ 0 }
    ensures sum { result.left + result.used < 2 ^ 64 }
{
    Steps { left, used: 0 }
}

// A number in 32 bits, which one past them is cut to.
fn narrowed(count: usize) -> u32
    ensures { result ≡ min count u32.MAX }
{
    if count < u32::MAX as usize {
        return count as u32;
    }
    u32::MAX
}

// Bytes of a memory, where they are inside it.
fn shown(memory: &[u8], at: u32, len: u32) -> Option<&[u8]>
    ensures { option_copied result ≡ bytes_shown memory.now (record { at = at; len = len }) }
{
    let from = at as usize;
    let to = from + len as usize;
    if memory.is_empty() || to > memory.len() {
        return None;
    }
    Some(&memory[from..to])
}
