//! `StrandProgram`: a plan with strands over one instance, advanced from event to event.

ghost use Rattle.std.specs.Prelude.{◌≡◌, ◌<◌, ◌≤◌, ◌+◌, ◌^◌, ℕ, List, IfOk, IsErr, Option, Some, None, false, true, length, slice_get};
ghost use Rattle.std.specs.Option.{option_copied, option_map};
ghost use Rattle.interp.specs.Host.{memory_in};
ghost use Rattle.strand_host.specs.StrandPrograms.{IsFirstDue, due_at};
ghost use Rattle.wa_model.specs.View.{event_of};
ghost use Rattle.wa_types.specs.View.{module_of};
ghost use Rattle.world_model.specs.World.{bytes_shown};
ghost use Rattle.device_port.specs.Listed.{of_all};
ghost use Rattle.host_laws.specs.Supplies.{IsLent, RisesAtMostOne};
ghost use Rattle.strand_laws.specs.StrandWorld.{StrandsInWorld};
ghost use Rattle.strand_laws.specs.ToldStrands.{ProgramTeller};

use crate::plan::{StrandFault, StrandPlan};
use crate::setup::{Parted, all_parted};
use crate::strands::{Going, Strand, StrandEvent, Then, leads_to};
use crate::turns::{strand_event, unused};
use device_port::Devices;
use event_order::next_turn;
use interp::{Instance, MakeFault, Turn};
use mailbox_device::Mailboxes;
use pause_host::{Moved, Next, Setting, Stage, Task, copy_end, tell_answer, told};
use std::alloc::{AllocError, Global};
use std::mem;
use wa_model::{Answer, Call, End, Event};
use wa_types::Value;
use wasm_validate::Valid;

/// Where a program with strands stands: before its instantiation, in a strand's turn, between two turns, at its end with an instance or
/// without, or out of memory.
#[derive(Drop)]
pub(crate) enum State<'m> {
    Fresh,
    Runs {
        instance: Instance<'m>,
        going: Going,
    },
    Between {
        instance: Instance<'m>,
    },
    Over {
        instance: Instance<'m>,
    },
    Failed,
    Lost,
}

/// A program with strands on its way: what stays of it, with the area of the strand whose turn it is; its steps left; of each strand
/// when it is due, none once it has ended, and where it waits for its turn.
pub struct StrandProgram<'m> {
    pub(crate) valid: &'m Valid,
    pub(crate) globals: Vec<Value>,
    pub(crate) setting: Setting,
    pub(crate) steps_left: u64,
    pub(crate) dues: Vec<Option<u64>>,
    pub(crate) strands: Vec<Option<Strand>>,
    pub(crate) state: State<'m>,
}

impl<'m> StrandProgram<'m> {
    ghost use Rattle.std.specs.Vec.{with_item};
    ghost use Rattle.wa_types.specs.View.{module_of};
    ghost use Rattle.wa_model.specs.Instantiation.{opening};
    ghost use Rattle.wa_model.specs.Outside.{ended};
    ghost use Rattle.world_model.specs.World.{Device};
    ghost use Rattle.interp_state.specs.Faults.{FailsAs};
    ghost use Rattle.pause_host.specs.Views.{is_starting, starts};
    ghost use Rattle.strand_laws.specs.Woven.{ends_strand};
    ghost use Rattle.strand_host.specs.StrandPlans.{IsStrandPlan};
    ghost use Rattle.strand_host.specs.declared.strands.Going.{Going as GoingValue};
    ghost use Rattle.strand_host.specs.StrandPrograms.{BetweenAt, FollowsStrands, ForSome, FreshAt, GoesOnStrands, InTurnAt, IsDueThen, OpensAt, SetsUpStrands, Settles, StartRan, StartsAt, TellsEvent, TurnAt, end_leads_to, leads_to, memory_of, stock_of};

    /// The strands of a plan, before instantiation, or the first fault: each strand is asked, and then whether areas overlap.
    pub fn new(alloc: Global, plan: StrandPlan<'m>) -> Result<StrandProgram<'m>, StrandFault>
        requires { IsStrandPlan plan }
        ensures { SetsUpStrands plan.entry result }
    {
        match all_parted(alloc, plan) {
            Err(fault) => Err(fault),
            Ok(
                Parted {
                    valid,
                    globals,
                    setting,
                    steps_left,
                    dues,
                    strands,
                },
            ) => Ok(StrandProgram {
                valid,
                globals,
                setting,
                steps_left,
                dues,
                strands,
                state: State::Fresh,
            }),
        }
    }

    /// The next event, of the strand whose turn it is: of the one whose turn goes on, else of the one that is due first. After want of
    /// memory, and after its end, it isn't called again.
    pub(crate) fn advance(&mut self, devices: &mut Devices<'_>) -> Result<StrandEvent, AllocError>
        requires lent { IsLent }
        requires goes { GoesOnStrands self.old }
        ensures told { (g : StrandsInWorld) (t : ProgramTeller) → FollowsStrands g t self.old → t.has_ended ≡ false
            → IfOk result (λ told. TellsEvent g t told (of_all seen devices.old) (of_all faults devices.old) (of_all seen devices.new) (of_all faults devices.new) self.new) }
        ensures kept { IsErr result → of_all seen devices.new ≡ of_all seen devices.old }
        ensures once { IsErr result → RisesAtMostOne (of_all faults devices.old) (of_all faults devices.new) }
        ensures same_list { devices.new.list.ghost_name ≡ devices.old.list.ghost_name }
    {
        match mem::replace(&mut self.state, State::Lost) {
            State::Fresh => self.open(devices),
            State::Runs { instance, going } => self.goes(instance, going, devices),
            State::Between { instance } => self.begin_turn(instance, devices),
            _ => unreachable!(),
        }
    }

    // The module is instantiated; its start function, where it has one, is called in the first strand's turn.
    fn open(&mut self, devices: &mut Devices<'_>) -> Result<StrandEvent, AllocError>
        requires lent { IsLent }
        requires goes { ForSome (λ g t. FreshAt g t (stock_of self.old)) }
        ensures next { (g : StrandsInWorld) (t : ProgramTeller) → FreshAt g t (stock_of self.old)
            → IfOk result (λ told. TellsEvent g t told (of_all seen devices.old) (of_all faults devices.old) (of_all seen devices.new) (of_all faults devices.new) self.new) }
        ensures kept { IsErr result → of_all seen devices.new ≡ of_all seen devices.old }
        ensures once { IsErr result → RisesAtMostOne (of_all faults devices.old) (of_all faults devices.new) }
        ensures same_list { devices.new.list.ghost_name ≡ devices.old.list.ghost_name }
    {
        match Instance::make(self.setting.alloc, self.valid, &self.globals) {
            Ok(instance) => self.opened(instance, devices),
            Err(fault) => self.not_opened(fault),
        }
    }

    fn opened(
        &mut self,
        instance: Instance<'m>,
        devices: &mut Devices<'_>,
    ) -> Result<StrandEvent, AllocError>
        requires lent { IsLent }
        requires goes { ForSome (λ g t. OpensAt g t (stock_of self.old) instance) }
        ensures next { (g : StrandsInWorld) (t : ProgramTeller) → OpensAt g t (stock_of self.old) instance.entry
            → IfOk result (λ told. TellsEvent g t told (of_all seen devices.old) (of_all faults devices.old) (of_all seen devices.new) (of_all faults devices.new) self.new) }
        ensures kept { IsErr result → of_all seen devices.new ≡ of_all seen devices.old }
        ensures once { IsErr result → RisesAtMostOne (of_all faults devices.old) (of_all faults devices.new) }
        ensures same_list { devices.new.list.ghost_name ≡ devices.old.list.ghost_name }
    {
        let Some(strand) = mem::replace(&mut self.strands[0], None) else {
            unreachable!();
        };
        match self.valid.module().start {
            None => self.go_on(instance, 0, strand, devices),
            Some(func) => self.begin_start(instance, strand, func, devices),
        }
    }

    fn not_opened(&mut self, fault: MakeFault) -> Result<StrandEvent, AllocError>
        ensures next { (g : StrandsInWorld) (t : ProgramTeller) (ds : List Device) (faults : List ℕ) → FailsAs (opening (module_of self.old.valid.now) self.old.globals.items) fault
            → FreshAt g t (stock_of self.old) → IfOk result (λ told. TellsEvent g t told ds faults ds faults self.new) }
    {
        match fault {
            MakeFault::Memory => Err(AllocError),
            MakeFault::HostLimit { entries, found } => {
                Ok(self.fail(End::HostLimit { entries, found }))
            }
            MakeFault::ElementsOut(number) => Ok(self.fail(End::ElementsOut(number))),
            MakeFault::BytesOut(number) => Ok(self.fail(End::BytesOut(number))),
        }
    }

    // The program has ended without an instance.
    fn fail(&mut self, end: End) -> StrandEvent
        ensures event { (result.strand ≡ 0) × (event_of result.event ≡ ended end) }
        ensures state { self.new ≡ record self.old { state = State.Failed } }
    {
        self.put_state(State::Failed);
        StrandEvent {
            strand: 0,
            event: Event::Ended(end),
        }
    }

    // The turn of the strand that is due first begins.
    fn begin_turn(
        &mut self,
        instance: Instance<'m>,
        devices: &mut Devices<'_>,
    ) -> Result<StrandEvent, AllocError>
        requires lent { IsLent }
        requires goes { ForSome (λ g t. BetweenAt g t (stock_of self.old) instance) }
        ensures next { (g : StrandsInWorld) (t : ProgramTeller) → BetweenAt g t (stock_of self.old) instance.entry
            → IfOk result (λ told. TellsEvent g t told (of_all seen devices.old) (of_all faults devices.old) (of_all seen devices.new) (of_all faults devices.new) self.new) }
        ensures kept { IsErr result → of_all seen devices.new ≡ of_all seen devices.old }
        ensures once { IsErr result → RisesAtMostOne (of_all faults devices.old) (of_all faults devices.new) }
        ensures same_list { devices.new.list.ghost_name ≡ devices.old.list.ghost_name }
    {
        let Some(turn) = next_turn(&self.dues) else {
            unreachable!();
        };
        let Some(strand) = mem::replace(&mut self.strands[turn.program], None) else {
            unreachable!();
        };
        self.go_on(instance, turn.program as u32, strand, devices)
    }

    // A turn goes on, in the start function or behind it.
    fn goes(
        &mut self,
        instance: Instance<'m>,
        going: Going,
        devices: &mut Devices<'_>,
    ) -> Result<StrandEvent, AllocError>
        requires lent { IsLent }
        requires goes { ForSome (λ g t. InTurnAt g t (stock_of self.old) instance going) }
        ensures next { (g : StrandsInWorld) (t : ProgramTeller) → InTurnAt g t (stock_of self.old) instance.entry going
            → IfOk result (λ told. TellsEvent g t told (of_all seen devices.old) (of_all faults devices.old) (of_all seen devices.new) (of_all faults devices.new) self.new) }
        ensures kept { IsErr result → of_all seen devices.new ≡ of_all seen devices.old }
        ensures once { IsErr result → RisesAtMostOne (of_all faults devices.old) (of_all faults devices.new) }
        ensures same_list { devices.new.list.ghost_name ≡ devices.old.list.ghost_name }
    {
        let Going {
            number,
            strand,
            starts,
        } = going;
        if starts {
            return self.start_on(instance, strand, devices);
        }
        self.go_on(instance, number, strand, devices)
    }

    // The next event of a strand behind the start function.
    fn go_on(
        &mut self,
        mut instance: Instance<'m>,
        number: u32,
        strand: Strand,
        devices: &mut Devices<'_>,
    ) -> Result<StrandEvent, AllocError>
        requires lent { IsLent }
        requires goes { ForSome (λ g t. TurnAt g t (stock_of self.old) instance number strand false) }
        ensures next { (g : StrandsInWorld) (t : ProgramTeller) → TurnAt g t (stock_of self.old) instance.entry number strand false
            → IfOk result (λ told. TellsEvent g t told (of_all seen devices.old) (of_all faults devices.old) (of_all seen devices.new) (of_all faults devices.new) self.new) }
        ensures kept { IsErr result → of_all seen devices.new ≡ of_all seen devices.old }
        ensures once { IsErr result → RisesAtMostOne (of_all faults devices.old) (of_all faults devices.new) }
        ensures same_list { devices.new.list.ghost_name ≡ devices.old.list.ghost_name }
    {
        let Strand {
            area,
            mut left,
            stage,
        } = strand;
        self.setting.area = area;
        let mut steps = unused(self.steps_left);
        let moved = strand_event(
            &self.setting,
            &mut instance,
            &mut left,
            &mut steps,
            stage,
            devices,
        )?;
        self.steps_left = steps.left;
        let Moved { event, stage } = moved;
        let going = Going {
            number,
            strand: Strand { area, left, stage },
            starts: false,
        };
        Ok(self.tell(instance, going, event))
    }

    // ---- the start function

    // The start function is called, in the first strand's turn.
    fn begin_start(
        &mut self,
        mut instance: Instance<'m>,
        strand: Strand,
        func: u32,
        devices: &mut Devices<'_>,
    ) -> Result<StrandEvent, AllocError>
        requires lent { IsLent }
        requires goes { ForSome (λ g t. StartsAt g t (stock_of self.old) instance strand func) }
        ensures next { (g : StrandsInWorld) (t : ProgramTeller) → StartsAt g t (stock_of self.old) instance.entry strand func
            → IfOk result (λ told. TellsEvent g t told (of_all seen devices.old) (of_all faults devices.old) (of_all seen devices.new) (of_all faults devices.new) self.new) }
        ensures kept { IsErr result → of_all seen devices.new ≡ of_all seen devices.old }
        ensures once { IsErr result → RisesAtMostOne (of_all faults devices.old) (of_all faults devices.new) }
        ensures same_list { devices.new.list.ghost_name ≡ devices.old.list.ghost_name }
    {
        self.setting.area = strand.area;
        let mut steps = unused(self.steps_left);
        let turn = instance.begin(func, &[], &mut steps)?;
        self.steps_left = steps.left;
        if (func as usize) < self.setting.imports.len() {
            return self.start_ran(instance, strand, Task::Outermost, turn, devices);
        }
        self.start_ran(instance, strand, Task::Start, turn, devices)
    }

    // The next event of the start function from its stage.
    fn start_on(
        &mut self,
        instance: Instance<'m>,
        strand: Strand,
        devices: &mut Devices<'_>,
    ) -> Result<StrandEvent, AllocError>
        requires lent { IsLent }
        requires goes { ForSome (λ g t. TurnAt g t (stock_of self.old) instance 0 strand true × (is_starting strand.stage ≡ true)) }
        ensures next { (g : StrandsInWorld) (t : ProgramTeller) → TurnAt g t (stock_of self.old) instance.entry 0 strand true → is_starting strand.stage ≡ true
            → IfOk result (λ told. TellsEvent g t told (of_all seen devices.old) (of_all faults devices.old) (of_all seen devices.new) (of_all faults devices.new) self.new) }
        ensures kept { IsErr result → of_all seen devices.new ≡ of_all seen devices.old }
        ensures once { IsErr result → RisesAtMostOne (of_all faults devices.old) (of_all faults devices.new) }
        ensures same_list { devices.new.list.ghost_name ≡ devices.old.list.ghost_name }
    {
        let Strand { area, left, stage } = strand;
        let strand = Strand {
            area,
            left,
            stage: Stage::Free,
        };
        match stage {
            Stage::Answering { task, answer } => {
                Ok(self.start_answered(instance, strand, task, answer))
            }
            Stage::Giving { task: _, value } => self.give_start(instance, strand, value, devices),
            Stage::Ending(end) => self.start_ends(instance, strand, end),
            _ => unreachable!(),
        }
    }

    // The answer of an import that the start function has called is told.
    fn start_answered(
        &mut self,
        mut instance: Instance<'m>,
        strand: Strand,
        task: Task,
        answer: Answer,
    ) -> StrandEvent
        requires goes { ForSome (λ g t. TurnAt g t (stock_of self.old) instance 0 (record strand { stage = Stage.Answering task answer }) true) }
        requires starts { starts task ≡ true }
        ensures next { (g : StrandsInWorld) (t : ProgramTeller) (ds : List Device) (faults : List ℕ)
            → TurnAt g t (stock_of self.old) instance.entry 0 (record strand { stage = Stage.Answering task answer }) true → TellsEvent g t result ds faults ds faults self.new }
    {
        let Strand {
            area,
            left,
            stage: _,
        } = strand;
        let moved = tell_answer(&mut instance, task, answer);
        let Moved { event, stage } = moved;
        let starts = !matches!(&stage, Stage::Free);
        let going = Going {
            number: 0,
            strand: Strand { area, left, stage },
            starts,
        };
        self.tell(instance, going, event)
    }

    // It is given the value.
    fn give_start(
        &mut self,
        mut instance: Instance<'m>,
        strand: Strand,
        value: Option<Value>,
        devices: &mut Devices<'_>,
    ) -> Result<StrandEvent, AllocError>
        requires lent { IsLent }
        requires goes { ForSome (λ g t. TurnAt g t (stock_of self.old) instance 0 (record strand { stage = Stage.Giving Task.Start value }) true) }
        requires free { strand.stage ≡ Stage.Free }
        ensures next { (g : StrandsInWorld) (t : ProgramTeller) → TurnAt g t (stock_of self.old) instance.entry 0 (record strand { stage = Stage.Giving Task.Start value }) true
            → IfOk result (λ told. TellsEvent g t told (of_all seen devices.old) (of_all faults devices.old) (of_all seen devices.new) (of_all faults devices.new) self.new) }
        ensures kept { IsErr result → of_all seen devices.new ≡ of_all seen devices.old }
        ensures once { IsErr result → RisesAtMostOne (of_all faults devices.old) (of_all faults devices.new) }
        ensures same_list { devices.new.list.ghost_name ≡ devices.old.list.ghost_name }
    {
        let mut steps = unused(self.steps_left);
        let turn = instance.resume(value, &mut steps)?;
        self.steps_left = steps.left;
        self.start_ran(instance, strand, Task::Start, turn, devices)
    }

    // An end that was due in the start function is told.
    fn start_ends(
        &mut self,
        instance: Instance<'m>,
        strand: Strand,
        end: End,
    ) -> Result<StrandEvent, AllocError>
        requires there { 0 < length self.old.dues.items }
        requires slots { length self.old.strands.items ≡ length self.old.dues.items }
        ensures event { IfOk result (λ told. (told.strand ≡ 0) × (event_of told.event ≡ ended end)) }
        ensures settles { IfOk result (λ told. Settles self.old instance.entry (record { number = 0; strand = record strand { stage = Stage.Ended end }; starts = true })
            (end_leads_to (ends_strand true end)) self.new) }
    {
        let Strand {
            area,
            left,
            stage: _,
        } = strand;
        let told = copy_end(self.setting.alloc, &end)?;
        let going = Going {
            number: 0,
            strand: Strand {
                area,
                left,
                stage: Stage::Ended(end),
            },
            starts: true,
        };
        Ok(self.tell(instance, going, Event::Ended(told)))
    }

    // The start function ran so far.
    fn start_ran(
        &mut self,
        instance: Instance<'m>,
        strand: Strand,
        task: Task,
        turn: Turn,
        devices: &mut Devices<'_>,
    ) -> Result<StrandEvent, AllocError>
        requires lent { IsLent }
        requires goes { ForSome (λ g t. StartRan g t (stock_of self.old) instance strand task turn) }
        ensures next { (g : StrandsInWorld) (t : ProgramTeller) → StartRan g t (stock_of self.old) instance.entry strand task turn
            → IfOk result (λ told. TellsEvent g t told (of_all seen devices.old) (of_all faults devices.old) (of_all seen devices.new) (of_all faults devices.new) self.new) }
        ensures kept { IsErr result → of_all seen devices.new ≡ of_all seen devices.old }
        ensures once { IsErr result → RisesAtMostOne (of_all faults devices.old) (of_all faults devices.new) }
        ensures same_list { devices.new.list.ghost_name ≡ devices.old.list.ghost_name }
    {
        match turn {
            Turn::Returned(_) => self.go_on(instance, 0, strand, devices),
            Turn::Trapped(trap) => self.start_ends(instance, strand, End::Trapped(trap)),
            Turn::Waiting(call) => self.start_calls(instance, strand, task, call, devices),
            Turn::StepsSpent => {
                let end = End::StepsSpent(self.setting.steps);
                self.start_ends(instance, strand, end)
            }
        }
    }

    // It has called an import.
    fn start_calls(
        &mut self,
        instance: Instance<'m>,
        strand: Strand,
        task: Task,
        call: Call,
        devices: &mut Devices<'_>,
    ) -> Result<StrandEvent, AllocError>
        requires lent { IsLent }
        requires goes { ForSome (λ g t. StartRan g t (stock_of self.old) instance strand task (Turn.Waiting call)) }
        ensures next { (g : StrandsInWorld) (t : ProgramTeller) → StartRan g t (stock_of self.old) instance.entry strand task (Turn.Waiting call)
            → IfOk result (λ told. TellsEvent g t told (of_all seen devices.old) (of_all faults devices.old) (of_all seen devices.new) (of_all faults devices.new) self.new) }
        ensures kept { IsErr result → of_all seen devices.new ≡ of_all seen devices.old }
        ensures once { IsErr result → RisesAtMostOne (of_all faults devices.old) (of_all faults devices.new) }
        ensures same_list { devices.new.list.ghost_name ≡ devices.old.list.ghost_name }
    {
        let Strand {
            area,
            mut left,
            stage: _,
        } = strand;
        self.setting.area = area;
        let alloc = self.setting.alloc;
        let mut none = Mailboxes::new(alloc, Vec::new(alloc))?;
        let next = Next::Calls { task, call };
        let answers = &mut left.answers;
        let heard = told(&self.setting, &instance, answers, devices, &mut none, next)?;
        let Moved { event, stage } = heard.moved;
        let going = Going {
            number: 0,
            strand: Strand { area, left, stage },
            starts: true,
        };
        Ok(self.tell(instance, going, event))
    }

    // ---- what an event leads to

    // An event of a strand is told.
    fn tell(&mut self, instance: Instance<'m>, going: Going, event: Event) -> StrandEvent
        requires there { going.number < length self.old.dues.items }
        requires slots { length self.old.strands.items ≡ length self.old.dues.items }
        requires few { (due ticks : ℕ) → slice_get self.old.dues.items going.number ≡ Some (Some due) → leads_to going.starts (event_of event) ≡ Then.Pauses ticks → ticks < 2 ^ 32
            → due + ticks < 2 ^ 64 }
        ensures event { (result.strand ≡ going.number) × (result.event ≡ event) }
        ensures settles { Settles self.old instance.entry going (leads_to going.starts (event_of event)) self.new }
        ensures short { (ticks : ℕ) → leads_to going.starts (event_of event) ≡ Then.Pauses ticks → ticks < 2 ^ 32 }
    {
        let strand = going.number;
        let then = leads_to(&event, going.starts);
        self.settle(instance, going, then);
        StrandEvent { strand, event }
    }

    // Where the program stands behind it.
    fn settle(&mut self, instance: Instance<'m>, going: Going, then: Then)
        requires there { going.number < length self.old.dues.items }
        requires slots { length self.old.strands.items ≡ length self.old.dues.items }
        requires few { (due ticks : ℕ) → slice_get self.old.dues.items going.number ≡ Some (Some due) → then ≡ Then.Pauses ticks → due + ticks < 2 ^ 64 }
        ensures { Settles self.old instance.entry going then self.new }
    {
        match then {
            Then::GoesOn => self.put_state(State::Runs { instance, going }),
            Then::Pauses(ticks) => self.put_off(instance, going, ticks),
            Then::EndsAlone => self.end_strand(instance, going.number),
            Then::EndsAll => self.put_state(State::Over { instance }),
        }
    }

    // The strand waits for its next turn, so many ticks later.
    fn put_off(&mut self, instance: Instance<'m>, going: Going, ticks: u32)
        requires there { going.number < length self.old.dues.items }
        requires slots { length self.old.strands.items ≡ length self.old.dues.items }
        requires few { (due : ℕ) → slice_get self.old.dues.items going.number ≡ Some (Some due) → due + ticks < 2 ^ 64 }
        ensures { Settles self.old instance.entry going (Then.Pauses ticks) self.new }
    {
        let Going {
            number,
            strand,
            starts: _,
        } = going;
        let place = number as usize;
        self.dues[place] = later(self.dues[place], ticks);
        self.put_strand(place, strand);
        self.put_state(State::Between { instance });
    }

    // The strand waits in this place. What stood there before is dropped.
    fn put_strand(&mut self, place: usize, strand: Strand)
        requires { place < length self.old.strands.items }
        ensures { self.new ≡ record self.old { strands = with_item self.old.strands place (Some strand) } }
    {
        self.strands[place] = Some(strand);
    }

    // Where the program stands from here on. What it held there before is dropped.
    fn put_state(&mut self, state: State<'m>)
        ensures { self.new ≡ record self.old { state = state.entry } }
    {
        self.state = state;
    }

    // The strand has ended; where no other is left, so has the program.
    fn end_strand(&mut self, instance: Instance<'m>, number: u32)
        requires there { number < length self.old.dues.items }
        ensures { (going : GoingValue) → going.number ≡ number → Settles self.old instance.entry going Then.EndsAlone self.new }
    {
        self.dues[number as usize] = None;
        if next_turn(&self.dues).is_none() {
            self.put_state(State::Over { instance });
            return;
        }
        self.put_state(State::Between { instance });
    }

    // ---- what a host asks

    /// The tick of its next turn, or of the one that goes on. None exactly where it has ended.
    pub(crate) fn due(&self) -> Option<u64>
        ensures { IsDueThen self.now.dues.items self.now.state result }
    {
        match &self.state {
            State::Over { instance: _ } => None,
            State::Failed => None,
            State::Runs { instance: _, going } => due_at(&self.dues, going.number),
            _ => first_due(&self.dues),
        }
    }

    /// Bytes of the memory. None exactly where the program has no instance or the range isn't inside its memory.
    pub(crate) fn show(&self, at: u32, len: u32) -> Option<&[u8]>
        ensures { option_copied result ≡ bytes_shown (memory_of self.now) (record { at = at; len = len }) }
    {
        match &self.state {
            State::Runs { instance, going: _ } => shown_of(instance, at, len),
            State::Between { instance } => shown_of(instance, at, len),
            State::Over { instance } => shown_of(instance, at, len),
            _ => None,
        }
    }
}

// Written out and not derived: who holds programs then calls it, and nothing of what a program consists of is dropped there.
impl Drop for StrandProgram<'_> {
    fn drop(self) {
        let StrandProgram {
            valid: _,
            globals: _,
            setting: _,
            steps_left: _,
            dues: _,
            strands: _,
            state: _,
        } = self;
    }
}

// So many ticks later, where there is a tick.
fn later(due: Option<u64>, ticks: u32) -> Option<u64>
    requires { (tick : ℕ) → due ≡ Some tick → tick + ticks < 2 ^ 64 }
    ensures { result ≡ option_map (λ tick. tick + ticks) due }
{
    match due {
        None => None,
        Some(due) => Some(due + u64::from(ticks)),
    }
}

// The tick of a strand's turn, where it has one.
fn due_at(dues: &[Option<u64>], strand: u32) -> Option<u64>
    ensures { result ≡ due_at strand dues.now }
{
    match dues.get(strand as usize) {
        None => None,
        Some(due) => *due,
    }
}

// The least tick.
fn first_due(dues: &[Option<u64>]) -> Option<u64>
    ensures { IsFirstDue dues.now result }
{
    match next_turn(dues) {
        None => None,
        Some(turn) => Some(turn.due),
    }
}

// Bytes of an instance's memory, where they are inside it.
fn shown_of<'a>(instance: &'a Instance<'_>, at: u32, len: u32) -> Option<&'a [u8]>
    ensures { option_copied result ≡ bytes_shown (memory_in instance.now) (record { at = at; len = len }) }
{
    match instance.memory() {
        None => None,
        Some(memory) => shown(memory, at, len),
    }
}

// Bytes of a memory, where they are inside it.
fn shown(memory: &[u8], at: u32, len: u32) -> Option<&[u8]>
    ensures { option_copied result ≡ bytes_shown memory.now (record { at = at; len = len }) }
{
    let from = at as usize;
    let to = from + len as usize;
    if memory.is_empty() || to > memory.len() {
        return None;
    }
    Some(&memory[from..to])
}
