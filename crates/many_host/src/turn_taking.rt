//! `Turns`: programs that share a list of devices, told line by line.

ghost use Rattle.std.specs.Prelude.{◌≡◌, ◌≤◌, ◌<◌, ◌+◌, ◌*◌, ◌^◌, ℕ, All, List, [], IfOk, IsErr, drop, length, map, slice_get, MatchOption, Some};
ghost use Rattle.std.specs.Bool.{OnTrue, OnFalse};
ghost use Rattle.wa_model.specs.Outside.{Line as WorldLine};
ghost use Rattle.wa_model.specs.View.{line_of};
ghost use Rattle.world_model.specs.World.{Device, Program};
ghost use Rattle.device_port.specs.Listed.{of_all};
ghost use Rattle.host_laws.specs.Supplies.{IsLent, RisesAtMostOne};
ghost use Rattle.event_order.specs.Dues.{HaveEnded};
ghost use Rattle.event_order.specs.Looks.{looks_of};
ghost use Rattle.many_host.specs.Calls.{BegunNext, left_at, AreLeft};
ghost use Rattle.many_host.specs.Standing.{AllStart, InRange, IsDueBy, IsTelling, LooksOut, StandingFrom, TellsLineFrom, TellsNext, due_told, held_of, latest, most_due, most_ticks};

use crate::settling::settle;
use crate::teller::Teller;
use device_port::Devices;
use event_order::{Show, Turn, detach_before, next_show, next_turn, show_event};
use std::alloc::{AllocError, Global};
use wa_model::{Detach, Line};

/// Where a host stands between two lines: behind whole turns, in a program's turn, or at the shows behind a program's end.
#[derive(Clone, Copy)]
pub(crate) enum Stage {
    Between,
    Telling(Turn),
    Showing { turn: Turn, from: usize },
}

/// Programs that share a list of devices and take turns. So many turns have begun, `earlier` of them before these programs were held; the
/// last had the tick `last`, which is 0 before the first.
#[derive(Drop)]
pub struct Turns<T> {
    pub(crate) alloc: Global,
    pub(crate) programs: Vec<T>,
    pub(crate) dues: Vec<Option<u64>>,
    pub(crate) detaches: Vec<Detach>,
    pub(crate) shows: Vec<Show>,
    pub(crate) begun: u64,
    pub(crate) earlier: u64,
    pub(crate) last: u64,
    pub(crate) stage: Stage,
}

impl<T: Teller + Drop> Turns<T> {
    /// Programs of which none has told anything yet, with the ticks at which they are due, behind so many events. One that has ended
    /// is never due.
    pub fn new(
        alloc: Global,
        programs: Vec<T>,
        dues: Vec<Option<u64>>,
        begun: u64,
        detaches: Vec<Detach>,
        shows: Vec<Show>,
    ) -> Turns<T>
        requires few { length programs.items ≤ 16 }
        requires wide { length dues.items ≡ length programs.items }
        requires early { begun ≤ most_due }
        requires dues { All (IsDueBy most_due) dues.items }
        ensures range { InRange result }
        ensures begun { result.begun ≡ begun }
        ensures stands { (ws : List Program) (ds : List Device) → AllStart T.follows T.has_ended shows.items ws programs.items dues.items
            → StandingFrom begun T.follows T.has_ended T.memory ws detaches.items ds [] (held_of result) ds result.stage }
        ensures held { held_of result ≡ record { programs = programs.items; dues = dues.items; detaches = detaches.items; shows = shows.items; begun = begun; earlier = begun } }
        ensures last { result.last ≡ 0 }
        ensures between { result.stage ≡ Stage.Between }
    {
        Turns {
            alloc,
            programs,
            dues,
            detaches,
            shows,
            begun,
            earlier: begun,
            last: 0,
            stage: Stage::Between,
        }
    }

    /// A program.
    pub fn program(&self, program: usize) -> &T
        requires { program < length self.now.programs.items }
        ensures { slice_get self.now.programs.items program ≡ Some result.now }
    {
        &self.programs[program]
    }

    /// All of them.
    pub fn programs(&self) -> &[T]
        ensures { result.now ≡ self.now.programs.items }
    {
        self.programs.as_slice()
    }

    /// When each is due: not once it has ended, nor while it is parked.
    pub fn dues(&self) -> &[Option<u64>]
        ensures { result.now ≡ self.now.dues.items }
    {
        self.dues.as_slice()
    }

    /// When a program is due; 0 where it has ended, or is parked.
    pub fn due(&self, program: usize) -> u64
        requires { program < length self.now.dues.items }
        ensures { Some result ≡ due_told (slice_get self.now.dues.items program) }
    {
        self.dues[program].unwrap_or(0)
    }

    /// Whether the next line, where there is one, begins a turn.
    pub fn is_between(&self) -> bool
        requires { InRange self.now }
        ensures yes { OnTrue result (LooksOut self.now.shows.items self.now.stage) }
        ensures no { OnFalse result (LooksOut self.now.shows.items self.now.stage → ⊥) }
    {
        match self.stage {
            Stage::Between => true,
            Stage::Telling(_) => false,
            Stage::Showing { turn, from } => self.are_out(turn, from),
        }
    }

    // Whether no show of a turn's program is left from this place on.
    fn are_out(&self, turn: Turn, from: usize) -> bool
        requires { turn.program < 16 }
        ensures yes { OnTrue result (looks_of turn.program (drop from self.now.shows.items) ≡ []) }
        ensures no { OnFalse result (looks_of turn.program (drop from self.now.shows.items) ≡ [] → ⊥) }
    {
        match next_show(&self.shows, from, turn.program as u32) {
            None => true,
            Some(_) => false,
        }
    }

    /// How many turns have begun.
    pub fn events(&self) -> u64
        ensures { result ≡ (held_of self.now).begun }
    {
        self.begun
    }

    /// The next line; None where all programs have ended and all shows are out, and all is then as it was. After want of memory it isn't
    /// called again.
    pub fn next(&mut self, devices: &mut Devices<'_>) -> Result<Option<Line>, AllocError>
        requires lent { IsLent }
        requires range { InRange self.old }
        requires turns { self.old.begun < self.old.earlier + 2 ^ 31 }
        requires tells { IsTelling T.follows T.has_ended T.memory (held_of self.old) (of_all seen devices.old) self.old.stage }
        ensures range { IfOk result (λ line. InRange self.new) }
        ensures same_list { devices.new.list.ghost_name ≡ devices.old.list.ghost_name }
        ensures told { (begun : ℕ) (programs : List Program) (detaches : List Detach) (ds : List Device) (lines : List WorldLine)
            (s : StandingFrom begun T.follows T.has_ended T.memory programs detaches ds lines (held_of self.old) (of_all seen devices.old) self.old.stage)
            → IfOk result (TellsNext begun T.follows T.has_ended T.memory programs detaches ds lines s.tellers (of_all (λ d. record { device = seen d; faults = faults d }) devices.old)
            (left_at self.old.begun self.new.begun detaches (of_all (λ d. record { device = seen d; faults = faults d }) devices.old))
            (of_all (λ d. record { device = seen d; faults = faults d }) devices.new) self.new (of_all seen devices.new)) }
        ensures none { IfOk result (λ line. MatchOption line (HaveEnded self.old.dues.items × LooksOut self.old.shows.items self.old.stage)
            (λ l. HaveEnded self.old.dues.items → LooksOut self.old.shows.items self.old.stage → ⊥)) }
        ensures begun { IfOk result (λ line. BegunNext self.old.stage self.old.begun self.new.begun line) }
        ensures goes_on { (LooksOut self.old.shows.items self.old.stage → ⊥) → self.new.begun ≡ self.old.begun }
        ensures same { IfOk result (λ line. MatchOption line (self.new ≡ self.old) (λ l. Unit {0})) }
        ensures left { (begun : ℕ) (programs : List Program) (detaches : List Detach) (ds : List Device) (lines : List WorldLine)
            → StandingFrom begun T.follows T.has_ended T.memory programs detaches ds lines (held_of self.old) (of_all seen devices.old) self.old.stage
            → IsErr result → AreLeft self.old.begun detaches (of_all (λ d. record { device = seen d; faults = faults d }) devices.old)
            (of_all (λ d. record { device = seen d; faults = faults d }) devices.new) }
    {
        match self.stage {
            Stage::Between => self.begin(devices),
            Stage::Telling(turn) => Ok(Some(self.tell(turn, devices)?)),
            Stage::Showing { turn, from } => self.show(turn, from, devices),
        }
    }

    // The next turn, behind whole ones, from its first line on.
    fn begin(&mut self, devices: &mut Devices<'_>) -> Result<Option<Line>, AllocError>
        requires lent { IsLent }
        requires range { InRange self.old }
        requires turns { self.old.begun < self.old.earlier + 2 ^ 31 }
        requires tells { IsTelling T.follows T.has_ended T.memory (held_of self.old) (of_all seen devices.old) Stage.Between }
        ensures range { IfOk result (λ line. InRange self.new) }
        ensures same_list { devices.new.list.ghost_name ≡ devices.old.list.ghost_name }
        ensures told { (begun : ℕ) (programs : List Program) (detaches : List Detach) (ds : List Device) (lines : List WorldLine)
            (s : StandingFrom begun T.follows T.has_ended T.memory programs detaches ds lines (held_of self.old) (of_all seen devices.old) Stage.Between)
            → IfOk result (TellsNext begun T.follows T.has_ended T.memory programs detaches ds lines s.tellers (of_all (λ d. record { device = seen d; faults = faults d }) devices.old)
            (left_at self.old.begun self.new.begun detaches (of_all (λ d. record { device = seen d; faults = faults d }) devices.old))
            (of_all (λ d. record { device = seen d; faults = faults d }) devices.new) self.new (of_all seen devices.new)) }
        ensures none { IfOk result (λ line. MatchOption line (HaveEnded self.old.dues.items) (λ l. HaveEnded self.old.dues.items → ⊥)) }
        ensures begun { IfOk result (λ line. BegunNext Stage.Between self.old.begun self.new.begun line) }
        ensures same { IfOk result (λ line. MatchOption line (self.new ≡ self.old) (λ l. Unit {0})) }
        ensures left { (begun : ℕ) (programs : List Program) (detaches : List Detach) (ds : List Device) (lines : List WorldLine)
            → StandingFrom begun T.follows T.has_ended T.memory programs detaches ds lines (held_of self.old) (of_all seen devices.old) Stage.Between
            → IsErr result → AreLeft self.old.begun detaches (of_all (λ d. record { device = seen d; faults = faults d }) devices.old)
            (of_all (λ d. record { device = seen d; faults = faults d }) devices.new) }
    {
        let Some(turn) = next_turn(&self.dues) else {
            return Ok(None);
        };
        let begun = self.begun + 1;
        self.begun = begun;
        self.last = turn.due;
        detach_before(devices, &self.detaches, begun);
        Ok(Some(self.tell(turn, devices)?))
    }

    // The next line of a turn.
    fn tell(&mut self, turn: Turn, devices: &mut Devices<'_>) -> Result<Line, AllocError>
        requires lent { IsLent }
        requires few { length self.old.programs.items ≤ 16 }
        requires wide { length self.old.dues.items ≡ length self.old.programs.items }
        requires place { turn.program < length self.old.programs.items }
        requires early { self.old.earlier ≤ most_due }
        requires in_order { self.old.earlier ≤ self.old.begun }
        requires dues { All (IsDueBy (latest self.old.earlier self.old.begun)) self.old.dues.items }
        requires due { turn.due + most_ticks ≤ latest self.old.earlier self.old.begun }
        requires turns { self.old.begun ≤ self.old.earlier + 2 ^ 31 }
        requires tells { IsTelling T.follows T.has_ended T.memory (held_of self.old) (of_all seen devices.old) (Stage.Telling turn) }
        ensures range { IfOk result (λ line. InRange self.new) }
        ensures same_list { devices.new.list.ghost_name ≡ devices.old.list.ghost_name }
        ensures told { (begun : ℕ) (programs : List Program) (detaches : List Detach) (ds : List Device) (lines : List WorldLine)
            (s : StandingFrom begun T.follows T.has_ended T.memory programs detaches ds lines (held_of self.old) (of_all seen devices.old) (Stage.Telling turn))
            → IfOk result (λ line. TellsLineFrom begun T.follows T.has_ended T.memory programs detaches ds lines s.tellers (of_all (λ d. record { device = seen d; faults = faults d }) devices.old)
            (of_all (λ d. record { device = seen d; faults = faults d }) devices.new) (line_of line) (held_of self.new) (of_all seen devices.new) self.new.stage) }
        ensures kept { (begun : ℕ) (programs : List Program) (detaches : List Detach) (ds : List Device) (lines : List WorldLine)
            → StandingFrom begun T.follows T.has_ended T.memory programs detaches ds lines (held_of self.old) (of_all seen devices.old) (Stage.Telling turn)
            → IsErr result → of_all seen devices.new ≡ of_all seen devices.old }
        ensures once { IsErr result → RisesAtMostOne (of_all faults devices.old) (of_all faults devices.new) }
        ensures begun { self.new.begun ≡ self.old.begun }
    {
        let event = self.programs[turn.program].advance(devices)?;
        let next = settle(turn, &event);
        self.dues[turn.program] = next.due;
        self.stage = next.stage;
        Ok(Line {
            tick: turn.due,
            program: turn.program as u32,
            event,
        })
    }

    // The next show behind a program's end, or the next turn.
    fn show(
        &mut self,
        turn: Turn,
        from: usize,
        devices: &mut Devices<'_>,
    ) -> Result<Option<Line>, AllocError>
        requires lent { IsLent }
        requires range { InRange self.old }
        requires turns { self.old.begun < self.old.earlier + 2 ^ 31 }
        requires place { turn.program < length self.old.programs.items }
        requires tells { IsTelling T.follows T.has_ended T.memory (held_of self.old) (of_all seen devices.old) (Stage.Showing turn from) }
        ensures range { IfOk result (λ line. InRange self.new) }
        ensures same_list { devices.new.list.ghost_name ≡ devices.old.list.ghost_name }
        ensures told { (begun : ℕ) (programs : List Program) (detaches : List Detach) (ds : List Device) (lines : List WorldLine)
            (s : StandingFrom begun T.follows T.has_ended T.memory programs detaches ds lines (held_of self.old) (of_all seen devices.old) (Stage.Showing turn from))
            → IfOk result (TellsNext begun T.follows T.has_ended T.memory programs detaches ds lines s.tellers (of_all (λ d. record { device = seen d; faults = faults d }) devices.old)
            (left_at self.old.begun self.new.begun detaches (of_all (λ d. record { device = seen d; faults = faults d }) devices.old))
            (of_all (λ d. record { device = seen d; faults = faults d }) devices.new) self.new (of_all seen devices.new)) }
        ensures none { IfOk result (λ line. MatchOption line (HaveEnded self.old.dues.items × LooksOut self.old.shows.items (Stage.Showing turn from))
            (λ l. HaveEnded self.old.dues.items → LooksOut self.old.shows.items (Stage.Showing turn from) → ⊥)) }
        ensures begun { IfOk result (λ line. BegunNext (Stage.Showing turn from) self.old.begun self.new.begun line) }
        ensures goes_on { (LooksOut self.old.shows.items (Stage.Showing turn from) → ⊥) → self.new.begun ≡ self.old.begun }
        ensures same { IfOk result (λ line. MatchOption line (self.new ≡ self.old) (λ l. Unit {0})) }
        ensures left { (begun : ℕ) (programs : List Program) (detaches : List Detach) (ds : List Device) (lines : List WorldLine)
            → StandingFrom begun T.follows T.has_ended T.memory programs detaches ds lines (held_of self.old) (of_all seen devices.old) (Stage.Showing turn from)
            → IsErr result → AreLeft self.old.begun detaches (of_all (λ d. record { device = seen d; faults = faults d }) devices.old)
            (of_all (λ d. record { device = seen d; faults = faults d }) devices.new) }
    {
        let program = turn.program as u32;
        let Some(place) = next_show(&self.shows, from, program) else {
            return self.begin(devices);
        };
        let show = self.shows[place];
        let bytes = self.programs[turn.program].show(show.at, show.len);
        let event = show_event(self.alloc, &show, bytes)?;
        self.stage = Stage::Showing {
            turn,
            from: place + 1,
        };
        Ok(Some(Line {
            tick: turn.due,
            program,
            event,
        }))
    }
}

/// At their start all programs are due at tick 0.
pub(crate) fn first_dues<T>(alloc: Global, programs: &[T]) -> Result<Vec<Option<u64>>, AllocError>
    ensures { IfOk result (λ dues. dues.items ≡ map (λ x. Some 0) programs.now) }
{
    let mut dues = Vec::new(alloc);
    for _ in programs {
        dues.push(Some(0))?;
    }
    Ok(dues)
}
