//! `Turns` of programs with mailboxes: they share a list of devices and mailboxes, and are told line by line.

ghost use Rattle.std.specs.Prelude.{◌≡◌, ◌≤◌, ◌<◌, ◌+◌, ◌^◌, ℕ, All, List, [], IfOk, IsErr, OnOk, is_some, length, true, MatchOption, None, Some};
ghost use Rattle.wa_model.specs.Outside.{Line as WorldLine};
ghost use Rattle.wa_model.specs.View.{event_of, line_of};
ghost use Rattle.world_model.specs.World.{Device, Program};
ghost use Rattle.device_port.specs.Listed.{of_all};
ghost use Rattle.host_laws.specs.Supplies.{IsLent, RisesAtMostOne};
ghost use Rattle.mail_laws.specs.Told.{NoneDue};
ghost use Rattle.wa_model.specs.declared.answers.Detach.{Detach};
ghost use Rattle.pause_host.specs.Programs.{parked_in};
ghost use Rattle.std.specs.Option.{option_map};
ghost use Rattle.many_host.specs.Calls.{BegunNext, left_at, AreLeft};
ghost use Rattle.many_host.specs.MailStanding.{AllOver, AreParked, CanWait, HaveGot, IsFirstParked, IsTelling, StandingFrom, TellsLineFrom, TellsNext, due_behind, dues_settled, stage_behind, with_waiting};
ghost use Rattle.many_host.specs.Standing.{InRange, IsDueBy, LooksOut, held_of, latest, most_due, most_ticks};

use crate::hosted::Hosted;
use crate::settling::{Settled, settle};
use crate::turn_taking::{Stage, Turns};
use device_port::Devices;
use event_order::{Turn, detach_before, next_show, next_turn, show_event};
use mailbox_device::Mailboxes;
use std::alloc::AllocError;
use wa_model::{Event, Line};

impl<'m> Turns<Hosted<'m>> {
    /// The next line; None where all programs have ended and all shows are out, and all is then as it was. After want of memory it isn't
    /// called again.
    pub fn next_with_mail(
        &mut self,
        devices: &mut Devices<'_>,
        mail: &mut Mailboxes,
    ) -> Result<Option<Line>, AllocError>
        requires lent { IsLent }
        requires range { InRange self.old }
        requires turns { self.old.begun < self.old.earlier + 2 ^ 31 }
        requires tells { IsTelling (held_of self.old) self.old.last (of_all seen devices.old) mail.old self.old.stage }
        ensures range { IfOk result (λ line. InRange self.new) }
        ensures same_list { devices.new.list.ghost_name ≡ devices.old.list.ghost_name }
        ensures told { (begun : ℕ) (programs : List Program) (detaches : List Detach) (boxes : List (List ℕ)) (ds : List Device) (lines : List WorldLine)
            (s : StandingFrom begun programs detaches boxes ds lines (held_of self.old) self.old.last (of_all seen devices.old) mail.old self.old.stage)
            → IfOk result (TellsNext begun programs detaches boxes ds lines s.tellers (of_all (λ d. record { device = seen d; faults = faults d }) devices.old)
            (left_at self.old.begun self.new.begun detaches (of_all (λ d. record { device = seen d; faults = faults d }) devices.old))
            (of_all (λ d. record { device = seen d; faults = faults d }) devices.new) mail.old self.new (of_all seen devices.new) mail.new) }
        ensures none { IfOk result (λ line. MatchOption line (AllOver self.old × LooksOut self.old.shows.items self.old.stage)
            (λ l. AllOver self.old → LooksOut self.old.shows.items self.old.stage → ⊥)) }
        ensures begun { IfOk result (λ line. BegunNext self.old.stage self.old.begun self.new.begun line) }
        ensures goes_on { (LooksOut self.old.shows.items self.old.stage → ⊥) → self.new.begun ≡ self.old.begun }
        ensures same { IfOk result (λ line. MatchOption line ((self.new ≡ self.old) × (mail.new ≡ mail.old)) (λ l. Unit {0})) }
        ensures left { (begun : ℕ) (programs : List Program) (detaches : List Detach) (boxes : List (List ℕ)) (ds : List Device) (lines : List WorldLine)
            → StandingFrom begun programs detaches boxes ds lines (held_of self.old) self.old.last (of_all seen devices.old) mail.old self.old.stage
            → IsErr result → AreLeft self.old.begun detaches (of_all (λ d. record { device = seen d; faults = faults d }) devices.old)
            (of_all (λ d. record { device = seen d; faults = faults d }) devices.new) }
    {
        match self.stage {
            Stage::Between => self.begin_event(devices, mail),
            Stage::Telling(turn) => Ok(Some(self.tell_event(turn, devices, mail)?)),
            Stage::Showing { turn, from } => self.show_next(turn, from, devices, mail),
        }
    }

    // The next event, behind whole ones, from its first line on.
    fn begin_event(
        &mut self,
        devices: &mut Devices<'_>,
        mail: &mut Mailboxes,
    ) -> Result<Option<Line>, AllocError>
        requires lent { IsLent }
        requires range { InRange self.old }
        requires turns { self.old.begun < self.old.earlier + 2 ^ 31 }
        requires tells { IsTelling (held_of self.old) self.old.last (of_all seen devices.old) mail.old Stage.Between }
        ensures range { IfOk result (λ line. InRange self.new) }
        ensures same_list { devices.new.list.ghost_name ≡ devices.old.list.ghost_name }
        ensures told { (begun : ℕ) (programs : List Program) (detaches : List Detach) (boxes : List (List ℕ)) (ds : List Device) (lines : List WorldLine)
            (s : StandingFrom begun programs detaches boxes ds lines (held_of self.old) self.old.last (of_all seen devices.old) mail.old Stage.Between)
            → IfOk result (TellsNext begun programs detaches boxes ds lines s.tellers (of_all (λ d. record { device = seen d; faults = faults d }) devices.old)
            (left_at self.old.begun self.new.begun detaches (of_all (λ d. record { device = seen d; faults = faults d }) devices.old))
            (of_all (λ d. record { device = seen d; faults = faults d }) devices.new) mail.old self.new (of_all seen devices.new) mail.new) }
        ensures none { IfOk result (λ line. MatchOption line (AllOver self.old) (λ l. AllOver self.old → ⊥)) }
        ensures begun { IfOk result (λ line. BegunNext Stage.Between self.old.begun self.new.begun line) }
        ensures same { IfOk result (λ line. MatchOption line ((self.new ≡ self.old) × (mail.new ≡ mail.old)) (λ l. Unit {0})) }
        ensures left { (begun : ℕ) (programs : List Program) (detaches : List Detach) (boxes : List (List ℕ)) (ds : List Device) (lines : List WorldLine)
            → StandingFrom begun programs detaches boxes ds lines (held_of self.old) self.old.last (of_all seen devices.old) mail.old Stage.Between
            → IsErr result → AreLeft self.old.begun detaches (of_all (λ d. record { device = seen d; faults = faults d }) devices.old)
            (of_all (λ d. record { device = seen d; faults = faults d }) devices.new) }
    {
        let Some(turn) = next_turn(&self.dues) else {
            return self.stall_first(devices, mail);
        };
        let begun = self.begun + 1;
        self.begun = begun;
        self.last = turn.due;
        detach_before(devices, &self.detaches, begun);
        Ok(Some(self.tell_event(turn, devices, mail)?))
    }

    // Nobody is due: the first program that is parked ends.
    fn stall_first(
        &mut self,
        devices: &mut Devices<'_>,
        mail: &mut Mailboxes,
    ) -> Result<Option<Line>, AllocError>
        requires lent { IsLent }
        requires range { InRange self.old }
        requires turns { self.old.begun < self.old.earlier + 2 ^ 31 }
        requires none { NoneDue self.old.dues.items }
        requires tells { IsTelling (held_of self.old) self.old.last (of_all seen devices.old) mail.old Stage.Between }
        ensures range { IfOk result (λ line. InRange self.new) }
        ensures same_list { devices.new.list.ghost_name ≡ devices.old.list.ghost_name }
        ensures told { (begun : ℕ) (programs : List Program) (detaches : List Detach) (boxes : List (List ℕ)) (ds : List Device) (lines : List WorldLine)
            (s : StandingFrom begun programs detaches boxes ds lines (held_of self.old) self.old.last (of_all seen devices.old) mail.old Stage.Between)
            → IfOk result (TellsNext begun programs detaches boxes ds lines s.tellers (of_all (λ d. record { device = seen d; faults = faults d }) devices.old)
            (left_at self.old.begun self.new.begun detaches (of_all (λ d. record { device = seen d; faults = faults d }) devices.old))
            (of_all (λ d. record { device = seen d; faults = faults d }) devices.new) mail.old self.new (of_all seen devices.new) mail.new) }
        ensures none { IfOk result (λ line. MatchOption line (AllOver self.old) (λ l. AllOver self.old → ⊥)) }
        ensures begun { IfOk result (λ line. BegunNext Stage.Between self.old.begun self.new.begun line) }
        ensures same { IfOk result (λ line. MatchOption line ((self.new ≡ self.old) × (mail.new ≡ mail.old)) (λ l. Unit {0})) }
        ensures left { (begun : ℕ) (programs : List Program) (detaches : List Detach) (boxes : List (List ℕ)) (ds : List Device) (lines : List WorldLine)
            → StandingFrom begun programs detaches boxes ds lines (held_of self.old) self.old.last (of_all seen devices.old) mail.old Stage.Between
            → IsErr result → AreLeft self.old.begun detaches (of_all (λ d. record { device = seen d; faults = faults d }) devices.old)
            (of_all (λ d. record { device = seen d; faults = faults d }) devices.new) }
    {
        let Some(parked) = first_parked(&self.programs) else {
            return Ok(None);
        };
        let begun = self.begun + 1;
        self.begun = begun;
        detach_before(devices, &self.detaches, begun);
        let turn = Turn {
            program: parked,
            due: self.last,
        };
        let event = self.programs[parked].end_stalled(devices, mail)?;
        self.stage = Stage::Showing { turn, from: 0 };
        Ok(Some(Line {
            tick: turn.due,
            program: parked as u32,
            event,
        }))
    }

    // The next line of a turn.
    fn tell_event(
        &mut self,
        turn: Turn,
        devices: &mut Devices<'_>,
        mail: &mut Mailboxes,
    ) -> Result<Line, AllocError>
        requires lent { IsLent }
        requires few { length self.old.programs.items ≤ 16 }
        requires wide { length self.old.dues.items ≡ length self.old.programs.items }
        requires place { turn.program < length self.old.programs.items }
        requires early { self.old.earlier ≤ most_due }
        requires in_order { self.old.earlier ≤ self.old.begun }
        requires dues { All (IsDueBy (latest self.old.earlier self.old.begun)) self.old.dues.items }
        requires due { turn.due + most_ticks ≤ latest self.old.earlier self.old.begun }
        requires turns { self.old.begun ≤ self.old.earlier + 2 ^ 31 }
        requires tells { IsTelling (held_of self.old) self.old.last (of_all seen devices.old) mail.old (Stage.Telling turn) }
        ensures range { IfOk result (λ line. InRange self.new) }
        ensures same_list { devices.new.list.ghost_name ≡ devices.old.list.ghost_name }
        ensures told { (begun : ℕ) (programs : List Program) (detaches : List Detach) (boxes : List (List ℕ)) (ds : List Device) (lines : List WorldLine)
            (s : StandingFrom begun programs detaches boxes ds lines (held_of self.old) self.old.last (of_all seen devices.old) mail.old (Stage.Telling turn))
            → IfOk result (λ line. TellsLineFrom begun programs detaches boxes ds lines s.tellers (of_all (λ d. record { device = seen d; faults = faults d }) devices.old)
            (of_all (λ d. record { device = seen d; faults = faults d }) devices.new) mail.old (line_of line) (held_of self.new) self.new.last (of_all seen devices.new) mail.new
            self.new.stage) }
        ensures kept { (begun : ℕ) (programs : List Program) (detaches : List Detach) (boxes : List (List ℕ)) (ds : List Device) (lines : List WorldLine)
            → StandingFrom begun programs detaches boxes ds lines (held_of self.old) self.old.last (of_all seen devices.old) mail.old (Stage.Telling turn)
            → IsErr result → of_all seen devices.new ≡ of_all seen devices.old }
        ensures once { IsErr result → RisesAtMostOne (of_all faults devices.old) (of_all faults devices.new) }
        ensures begun { self.new.begun ≡ self.old.begun }
    {
        let event = self.programs[turn.program].program.advance(devices, mail)?;
        let parked_at = self.programs[turn.program].program.parked_at();
        let next = settle_or_park(turn, &event, parked_at.is_some());
        wait_where_parked(parked_at, turn.program as u32, mail)?;
        self.dues[turn.program] = next.due;
        self.stage = next.stage;
        self.settle_sent(turn.due + 1, mail);
        Ok(Line {
            tick: turn.due,
            program: turn.program as u32,
            event,
        })
    }

    // The next show behind a program's end, or the next event.
    fn show_next(
        &mut self,
        turn: Turn,
        from: usize,
        devices: &mut Devices<'_>,
        mail: &mut Mailboxes,
    ) -> Result<Option<Line>, AllocError>
        requires lent { IsLent }
        requires range { InRange self.old }
        requires turns { self.old.begun < self.old.earlier + 2 ^ 31 }
        requires place { turn.program < length self.old.programs.items }
        requires tells { IsTelling (held_of self.old) self.old.last (of_all seen devices.old) mail.old (Stage.Showing turn from) }
        ensures range { IfOk result (λ line. InRange self.new) }
        ensures same_list { devices.new.list.ghost_name ≡ devices.old.list.ghost_name }
        ensures told { (begun : ℕ) (programs : List Program) (detaches : List Detach) (boxes : List (List ℕ)) (ds : List Device) (lines : List WorldLine)
            (s : StandingFrom begun programs detaches boxes ds lines (held_of self.old) self.old.last (of_all seen devices.old) mail.old (Stage.Showing turn from))
            → IfOk result (TellsNext begun programs detaches boxes ds lines s.tellers (of_all (λ d. record { device = seen d; faults = faults d }) devices.old)
            (left_at self.old.begun self.new.begun detaches (of_all (λ d. record { device = seen d; faults = faults d }) devices.old))
            (of_all (λ d. record { device = seen d; faults = faults d }) devices.new) mail.old self.new (of_all seen devices.new) mail.new) }
        ensures none { IfOk result (λ line. MatchOption line (AllOver self.old × LooksOut self.old.shows.items (Stage.Showing turn from))
            (λ l. AllOver self.old → LooksOut self.old.shows.items (Stage.Showing turn from) → ⊥)) }
        ensures begun { IfOk result (λ line. BegunNext (Stage.Showing turn from) self.old.begun self.new.begun line) }
        ensures goes_on { (LooksOut self.old.shows.items (Stage.Showing turn from) → ⊥) → self.new.begun ≡ self.old.begun }
        ensures same { IfOk result (λ line. MatchOption line ((self.new ≡ self.old) × (mail.new ≡ mail.old)) (λ l. Unit {0})) }
        ensures left { (begun : ℕ) (programs : List Program) (detaches : List Detach) (boxes : List (List ℕ)) (ds : List Device) (lines : List WorldLine)
            → StandingFrom begun programs detaches boxes ds lines (held_of self.old) self.old.last (of_all seen devices.old) mail.old (Stage.Showing turn from)
            → IsErr result → AreLeft self.old.begun detaches (of_all (λ d. record { device = seen d; faults = faults d }) devices.old)
            (of_all (λ d. record { device = seen d; faults = faults d }) devices.new) }
    {
        let program = turn.program as u32;
        let Some(place) = next_show(&self.shows, from, program) else {
            return self.begin_event(devices, mail);
        };
        let show = self.shows[place];
        let bytes = self.programs[turn.program].program.show(show.at, show.len);
        let event = show_event(self.alloc, &show, bytes)?;
        self.stage = Stage::Showing {
            turn,
            from: place + 1,
        };
        Ok(Some(Line {
            tick: turn.due,
            program,
            event,
        }))
    }

    // Those that were sent a value go on with it, due at this tick.
    fn settle_sent(&mut self, due: u64, mail: &mut Mailboxes)
        requires parked { AreParked mail.old.settled self.old.programs.items }
        requires wide { length self.old.dues.items ≡ length self.old.programs.items }
        ensures got { HaveGot mail.old.settled self.old.programs.items self.new.programs.items }
        ensures rest { self.new ≡ record self.old { programs = self.new.programs; dues = self.new.dues } }
        ensures dues { self.new.dues.items ≡ dues_settled due mail.old.settled self.old.dues.items }
        ensures mail { mail.new ≡ record mail.old { settled = [] } }
    {
        let Some((program, value)) = mail.take_settled() else {
            return;
        };
        let place = program as usize;
        self.programs[place].program.settle(value);
        self.dues[place] = Some(due);
        self.settle_sent(due, mail);
    }
}

// The first of these programs that is parked.
fn first_parked(programs: &[Hosted<'_>]) -> Option<usize>
    ensures { MatchOption result (All (λ x. parked_in x.program ≡ None) programs.now) (λ i. IsFirstParked programs.now i) }
{
    for i in 0..programs.len() {
        if programs[i].program.parked_at().is_some() {
            return Some(i);
        }
    }
    None
}

// A program that is parked waits at its mailbox.
fn wait_where_parked(
    parked_at: Option<&str>,
    program: u32,
    mail: &mut Mailboxes,
) -> Result<(), AllocError>
    requires { (name : List ℕ) → option_map (λ name. name.now) parked_at ≡ Some name → CanWait program name mail.old }
    ensures waits { OnOk result (mail.new ≡ with_waiting program (option_map (λ name. name.now) parked_at.entry) mail.old) }
    ensures parked { IsErr result → is_some (option_map (λ name. name.now) parked_at.entry) ≡ true }
{
    let Some(name) = parked_at else {
        return Ok(());
    };
    let Some(place) = mail.find(name) else {
        unreachable!();
    };
    mail.wait(place, program)
}

// What an event of a turn leads to: a program that is parked isn't due until it is sent a value.
fn settle_or_park(turn: Turn, event: &Event, is_parked: bool) -> Settled
    requires { turn.due + most_ticks < 2 ^ 64 }
    ensures due { result.due ≡ due_behind is_parked turn.due (event_of event.now) }
    ensures later { (due : ℕ) → result.due ≡ Some due → due ≤ turn.due + most_ticks }
    ensures stage { result.stage ≡ stage_behind is_parked turn (event_of event.now) }
{
    if is_parked {
        return Settled {
            due: None,
            stage: Stage::Between,
        };
    }
    settle(turn, event)
}
