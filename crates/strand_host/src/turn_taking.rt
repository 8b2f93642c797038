//! `StrandTurns`: programs with strands that share a list of devices, told line by line.

ghost use Rattle.std.specs.Prelude.{◌≡◌, ◌≤◌, ◌<◌, ℕ, List, [], IfOk, IsErr, length, map, MatchOption, if◌then◌else◌};
ghost use Rattle.wa_model.specs.View.{event_of};
ghost use Rattle.world_model.specs.World.{Device};
ghost use Rattle.device_port.specs.Listed.{of_all};
ghost use Rattle.event_order.specs.Dues.{HaveEnded};
ghost use Rattle.host_laws.specs.Supplies.{IsLent, RisesAtMostOne};
ghost use Rattle.many_host.specs.Calls.{AreLeft, left_at};
ghost use Rattle.strand_laws.specs.StrandWorld.{StrandLine as WorldLine, StrandsInWorld, strand_in as told_in};
ghost use Rattle.strand_host.specs.StrandCalls.{BegunNext, strand_line_of};
ghost use Rattle.strand_host.specs.StrandStanding.{AllStrandsStart, AreInRange, AreLooksOut, AreTelling, StrandsStanding, TellsNextLine, TellsStrandLine, hosted_of, stage_behind as behind};

use crate::weaver::Weaver;
use device_port::Devices;
use event_order::{Show, Turn, detach_before, next_show, next_turn, show_event};
use std::alloc::{AllocError, Global};
use wa_model::{Detach, Event};

/// An event of a strand of a program, and the tick at which it began.
#[derive(Drop)]
pub struct StrandLine {
    pub tick: u64,
    pub program: u32,
    pub strand: u32,
    pub event: Event,
}

/// Where a host stands between two lines: behind whole turns, in the turn of a program's strand, or at the shows behind a program's end.
#[derive(Clone, Copy)]
pub(crate) enum Stage {
    Between,
    Telling(Turn),
    Showing { turn: Turn, from: usize },
}

/// Programs with strands that share a list of devices and take turns. So many turns have begun.
#[derive(Drop)]
pub(crate) struct StrandTurns<T> {
    pub(crate) alloc: Global,
    pub(crate) programs: Vec<T>,
    pub(crate) dues: Vec<Option<u64>>,
    pub(crate) detaches: Vec<Detach>,
    pub(crate) shows: Vec<Show>,
    pub(crate) begun: u64,
    pub(crate) stage: Stage,
}

impl<T: Weaver + Drop> StrandTurns<T> {
    /// Programs of which none has told anything yet.
    pub fn new(
        alloc: Global,
        programs: Vec<T>,
        detaches: Vec<Detach>,
        shows: Vec<Show>,
    ) -> Result<StrandTurns<T>, AllocError>
        requires few { length programs.items ≤ 16 }
        ensures range { IfOk result (λ turns. AreInRange turns) }
        ensures begun { IfOk result (λ turns. turns.begun ≡ 0) }
        ensures stands { (gs : List StrandsInWorld) (ds : List Device) → AllStrandsStart T.follows shows.items gs programs.items
            → IfOk result (λ turns. StrandsStanding T.follows T.due_at T.memory gs detaches.items ds [] (hosted_of turns) ds turns.stage) }
    {
        let dues = dues_of(alloc, &programs)?;
        Ok(StrandTurns {
            alloc,
            programs,
            dues,
            detaches,
            shows,
            begun: 0,
            stage: Stage::Between,
        })
    }

    /// The next line; None where all programs have ended and all shows are out, and all is then as it was. After want of memory it isn't
    /// called again.
    pub fn next(&mut self, devices: &mut Devices<'_>) -> Result<Option<StrandLine>, AllocError>
        requires lent { IsLent }
        requires range { AreInRange self.old }
        requires tells { AreTelling T.follows T.due_at T.memory (hosted_of self.old) (of_all seen devices.old) self.old.stage }
        ensures range { IfOk result (λ line. AreInRange self.new) }
        ensures same_list { devices.new.list.ghost_name ≡ devices.old.list.ghost_name }
        ensures told { (gs : List StrandsInWorld) (detaches : List Detach) (ds : List Device) (lines : List WorldLine)
            (s : StrandsStanding T.follows T.due_at T.memory gs detaches ds lines (hosted_of self.old) (of_all seen devices.old) self.old.stage)
            → IfOk result (TellsNextLine T.follows T.due_at T.memory gs detaches ds lines s.tellers (of_all (λ d. record { device = seen d; faults = faults d }) devices.old)
            (left_at self.old.begun self.new.begun detaches (of_all (λ d. record { device = seen d; faults = faults d }) devices.old))
            (of_all (λ d. record { device = seen d; faults = faults d }) devices.new) self.new (of_all seen devices.new)) }
        ensures left { (gs : List StrandsInWorld) (detaches : List Detach) (ds : List Device) (lines : List WorldLine)
            → StrandsStanding T.follows T.due_at T.memory gs detaches ds lines (hosted_of self.old) (of_all seen devices.old) self.old.stage
            → IsErr result → AreLeft self.old.begun detaches (of_all (λ d. record { device = seen d; faults = faults d }) devices.old)
            (of_all (λ d. record { device = seen d; faults = faults d }) devices.new) }
        ensures none { IfOk result (λ line. MatchOption line (HaveEnded self.old.dues.items × AreLooksOut self.old.shows.items self.old.stage)
            (λ l. HaveEnded self.old.dues.items → AreLooksOut self.old.shows.items self.old.stage → ⊥)) }
        ensures begun { IfOk result (λ line. BegunNext self.old.stage self.old.begun self.new.begun line) }
        ensures goes_on { (AreLooksOut self.old.shows.items self.old.stage → ⊥) → self.new.begun ≡ self.old.begun }
        ensures same { IfOk result (λ line. MatchOption line (self.new ≡ self.old) (λ l. Unit {0})) }
    {
        match self.stage {
            Stage::Between => self.begin(devices),
            Stage::Telling(turn) => Ok(Some(self.tell(turn, devices)?)),
            Stage::Showing { turn, from } => self.show(turn, from, devices),
        }
    }

    // The next turn, behind whole ones, from its first line on.
    fn begin(&mut self, devices: &mut Devices<'_>) -> Result<Option<StrandLine>, AllocError>
        requires lent { IsLent }
        requires range { AreInRange self.old }
        requires tells { AreTelling T.follows T.due_at T.memory (hosted_of self.old) (of_all seen devices.old) Stage.Between }
        ensures range { IfOk result (λ line. AreInRange self.new) }
        ensures same_list { devices.new.list.ghost_name ≡ devices.old.list.ghost_name }
        ensures told { (gs : List StrandsInWorld) (detaches : List Detach) (ds : List Device) (lines : List WorldLine)
            (s : StrandsStanding T.follows T.due_at T.memory gs detaches ds lines (hosted_of self.old) (of_all seen devices.old) Stage.Between)
            → IfOk result (TellsNextLine T.follows T.due_at T.memory gs detaches ds lines s.tellers (of_all (λ d. record { device = seen d; faults = faults d }) devices.old)
            (left_at self.old.begun self.new.begun detaches (of_all (λ d. record { device = seen d; faults = faults d }) devices.old))
            (of_all (λ d. record { device = seen d; faults = faults d }) devices.new) self.new (of_all seen devices.new)) }
        ensures left { (gs : List StrandsInWorld) (detaches : List Detach) (ds : List Device) (lines : List WorldLine)
            → StrandsStanding T.follows T.due_at T.memory gs detaches ds lines (hosted_of self.old) (of_all seen devices.old) Stage.Between
            → IsErr result → AreLeft self.old.begun detaches (of_all (λ d. record { device = seen d; faults = faults d }) devices.old)
            (of_all (λ d. record { device = seen d; faults = faults d }) devices.new) }
        ensures none { IfOk result (λ line. MatchOption line (HaveEnded self.old.dues.items) (λ l. HaveEnded self.old.dues.items → ⊥)) }
        ensures begun { IfOk result (λ line. BegunNext Stage.Between self.old.begun self.new.begun line) }
        ensures same { IfOk result (λ line. MatchOption line (self.new ≡ self.old) (λ l. Unit {0})) }
    {
        let Some(turn) = next_turn(&self.dues) else {
            return Ok(None);
        };
        let begun = self.begun + 1;
        self.begun = begun;
        detach_before(devices, &self.detaches, begun);
        Ok(Some(self.tell(turn, devices)?))
    }

    // The next line of a turn.
    fn tell(&mut self, turn: Turn, devices: &mut Devices<'_>) -> Result<StrandLine, AllocError>
        requires lent { IsLent }
        requires few { length self.old.programs.items ≤ 16 }
        requires wide { length self.old.dues.items ≡ length self.old.programs.items }
        requires place { turn.program < length self.old.programs.items }
        requires tells { AreTelling T.follows T.due_at T.memory (hosted_of self.old) (of_all seen devices.old) (Stage.Telling turn) }
        ensures range { IfOk result (λ line. AreInRange self.new) }
        ensures same_list { devices.new.list.ghost_name ≡ devices.old.list.ghost_name }
        ensures told { (gs : List StrandsInWorld) (detaches : List Detach) (ds : List Device) (lines : List WorldLine)
            (s : StrandsStanding T.follows T.due_at T.memory gs detaches ds lines (hosted_of self.old) (of_all seen devices.old) (Stage.Telling turn))
            → IfOk result (λ line. TellsStrandLine T.follows T.due_at T.memory gs detaches ds lines s.tellers (of_all (λ d. record { device = seen d; faults = faults d }) devices.old)
            (of_all (λ d. record { device = seen d; faults = faults d }) devices.new) (strand_line_of line) (hosted_of self.new) (of_all seen devices.new) self.new.stage) }
        ensures kept { IsErr result → of_all seen devices.new ≡ of_all seen devices.old }
        ensures once { IsErr result → RisesAtMostOne (of_all faults devices.old) (of_all faults devices.new) }
        ensures begun { self.new.begun ≡ self.old.begun }
    {
        let told = self.programs[turn.program].advance(devices)?;
        let due = self.programs[turn.program].due();
        self.stage = stage_behind(turn, due.is_none(), &told.event);
        self.dues[turn.program] = due;
        let strand = strand_in(told.strand, &told.event);
        Ok(StrandLine {
            tick: turn.due,
            program: turn.program as u32,
            strand,
            event: told.event,
        })
    }

    // The next show behind a program's end, or the next turn.
    fn show(
        &mut self,
        turn: Turn,
        from: usize,
        devices: &mut Devices<'_>,
    ) -> Result<Option<StrandLine>, AllocError>
        requires lent { IsLent }
        requires range { AreInRange self.old }
        requires place { turn.program < length self.old.programs.items }
        requires tells { AreTelling T.follows T.due_at T.memory (hosted_of self.old) (of_all seen devices.old) (Stage.Showing turn from) }
        ensures range { IfOk result (λ line. AreInRange self.new) }
        ensures same_list { devices.new.list.ghost_name ≡ devices.old.list.ghost_name }
        ensures told { (gs : List StrandsInWorld) (detaches : List Detach) (ds : List Device) (lines : List WorldLine)
            (s : StrandsStanding T.follows T.due_at T.memory gs detaches ds lines (hosted_of self.old) (of_all seen devices.old) (Stage.Showing turn from))
            → IfOk result (TellsNextLine T.follows T.due_at T.memory gs detaches ds lines s.tellers (of_all (λ d. record { device = seen d; faults = faults d }) devices.old)
            (left_at self.old.begun self.new.begun detaches (of_all (λ d. record { device = seen d; faults = faults d }) devices.old))
            (of_all (λ d. record { device = seen d; faults = faults d }) devices.new) self.new (of_all seen devices.new)) }
        ensures left { (gs : List StrandsInWorld) (detaches : List Detach) (ds : List Device) (lines : List WorldLine)
            → StrandsStanding T.follows T.due_at T.memory gs detaches ds lines (hosted_of self.old) (of_all seen devices.old) (Stage.Showing turn from)
            → IsErr result → AreLeft self.old.begun detaches (of_all (λ d. record { device = seen d; faults = faults d }) devices.old)
            (of_all (λ d. record { device = seen d; faults = faults d }) devices.new) }
        ensures none { IfOk result (λ line. MatchOption line (HaveEnded self.old.dues.items × AreLooksOut self.old.shows.items (Stage.Showing turn from))
            (λ l. HaveEnded self.old.dues.items → AreLooksOut self.old.shows.items (Stage.Showing turn from) → ⊥)) }
        ensures begun { IfOk result (λ line. BegunNext (Stage.Showing turn from) self.old.begun self.new.begun line) }
        ensures goes_on { (AreLooksOut self.old.shows.items (Stage.Showing turn from) → ⊥) → self.new.begun ≡ self.old.begun }
        ensures same { IfOk result (λ line. MatchOption line (self.new ≡ self.old) (λ l. Unit {0})) }
    {
        let program = turn.program as u32;
        let Some(place) = next_show(&self.shows, from, program) else {
            return self.begin(devices);
        };
        let show = self.shows[place];
        let bytes = self.programs[turn.program].show(show.at, show.len);
        let event = show_event(self.alloc, &show, bytes)?;
        self.stage = Stage::Showing {
            turn,
            from: place + 1,
        };
        Ok(Some(StrandLine {
            tick: turn.due,
            program,
            strand: 0,
            event,
        }))
    }
}

// Memory that is shown counts as told by the first strand.
fn strand_in(strand: u32, event: &Event) -> u32
    ensures { result ≡ told_in strand (event_of event.now) }
{
    match event {
        Event::Shown { .. } => 0,
        Event::Called(_) => strand,
        Event::Answered(_) => strand,
        Event::Paused { .. } => strand,
        Event::Parked { .. } => strand,
        Event::Returned { .. } => strand,
        Event::Ended(_) => strand,
    }
}

// Where a host stands behind an event of a turn's strand, with which the program may have ended.
fn stage_behind(turn: Turn, is_over: bool, event: &Event) -> Stage
    ensures { result ≡ behind turn is_over (event_of event.now) }
{
    match event {
        Event::Paused { .. } => Stage::Between,
        Event::Ended(_) => behind_end(turn, is_over),
        Event::Called(_) => Stage::Telling(turn),
        Event::Answered(_) => Stage::Telling(turn),
        Event::Parked { .. } => Stage::Telling(turn),
        Event::Returned { .. } => Stage::Telling(turn),
        Event::Shown { .. } => Stage::Telling(turn),
    }
}

// Behind a strand's end, which may be the program's.
fn behind_end(turn: Turn, is_over: bool) -> Stage
    ensures { result ≡ if is_over then Stage.Showing turn 0 else Stage.Between }
{
    if is_over {
        Stage::Showing { turn, from: 0 }
    } else {
        Stage::Between
    }
}

// When each program is due.
fn dues_of<T: Weaver>(alloc: Global, programs: &[T]) -> Result<Vec<Option<u64>>, AllocError>
    ensures { IfOk result (λ dues. dues.items ≡ map T.due_at programs.now) }
{
    let mut dues = Vec::new(alloc);
    for program in programs {
        dues.push(program.due())?;
    }
    Ok(dues)
}
