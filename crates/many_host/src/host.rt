//! `Host`: several programs on one thread, told line by line.

ghost use Rattle.std.specs.Prelude.{◌≡◌, ◌≤◌, ◌<◌, ◌^◌, ℕ, List, [], All, IfOk, IsErr, MatchOption, Some, is_some, length, map, slice_get};
ghost use Rattle.std.specs.Bool.{OnTrue, OnFalse};
ghost use Rattle.std.specs.Option.{option_map};
ghost use Rattle.wa_model.specs.Outside.{Line as WorldLine};
ghost use Rattle.world_model.specs.World.{Device, Program as WorldProgram};
ghost use Rattle.device_port.specs.Listed.{of_all};
ghost use Rattle.host_laws.specs.Supplies.{IsLent};
ghost use Rattle.event_order.specs.Dues.{HaveEnded};
ghost use Rattle.mailbox_device.specs.Mail.{empty_mail};
ghost use Rattle.snapshot_store.specs.Parts.{CountsFit};
ghost use Rattle.snapshot_store.specs.Views.{record_of, snapshot_of};
ghost use Rattle.many_host.specs.Calls.{BegunNext, left_at, AreLeft};
ghost use Rattle.many_host.specs.Standing.{InRange, IsTelling, LooksOut, due_told, held_of};
ghost use Rattle.many_host.specs.Hosts.{AreResumed, AreSetUp, HostNext, HostNextFrom, HostTold, HostToldFrom, dues_left, follows, has_ended, memory_of};
ghost use Rattle.many_host.specs.MailHosts.{HostTellsFrom, HostTellsNext, NoneWaits};
ghost use Rattle.many_host.specs.MailStanding.{AllOver, IsTelling as IsTellingMail};
ghost use Rattle.many_host.specs.Saving.{CanBeSaved, IsSaved, saved_of};
ghost use Rattle.many_host.specs.Turns.{unless};

use crate::hosted::Hosted;
use crate::saving::saved_records;
use crate::turn_taking::{Turns, first_dues};
use device_port::Devices;
use event_order::Show;
use mailbox_device::Mailboxes;
use pause_host::Program;
use snapshot_store::Snapshot;
use std::alloc::{AllocError, Global};
use wa_model::{Detach, Line};

/// Several programs on one thread.
#[derive(Drop)]
pub struct Host<'m> {
    turns: Turns<Hosted<'m>>,
}

impl<'m> Host<'m> {
    /// A host of programs of which none was advanced, with the devices to be taken out, by the numbers of events, from 1, and what is
    /// shown of the programs' memories behind their ends.
    pub fn new(
        alloc: Global,
        programs: Vec<Program<'m>>,
        detaches: Vec<Detach>,
        shows: Vec<Show>,
    ) -> Result<Host<'m>, AllocError>
        requires few { length programs.items ≤ 16 }
        ensures range { IfOk result (λ h. InRange h.turns) }
        ensures begun { IfOk result (λ h. h.turns.begun ≡ 0) }
        ensures told { (ws : List WorldProgram) (ds : List Device) → AreSetUp ws shows.items programs.entry.items → IfOk result (λ h. HostTold ws detaches.items ds [] h ds) }
        ensures mail { (ws : List WorldProgram) (ds : List Device) (names : List (List ℕ)) → AreSetUp ws shows.items programs.entry.items → NoneWaits programs.entry.items
            → IfOk result (λ h. HostTellsFrom 0 ws detaches.items names ds [] h ds (empty_mail names)) }
    {
        let held = held_programs(alloc, programs)?;
        let dues = first_dues(alloc, &held)?;
        Ok(Host {
            turns: Turns::new(alloc, held, dues, 0, detaches, shows),
        })
    }

    /// A host that goes on behind so many events, with programs that are new or were put back, and the ticks at which they are due. One
    /// that is marked as ended has ended, whatever its own state, and what is shown of it is out.
    pub fn resumed(
        alloc: Global,
        programs: Vec<Program<'m>>,
        dues: Vec<u64>,
        ended: Vec<bool>,
        events: u64,
        detaches: Vec<Detach>,
        shows: Vec<Show>,
    ) -> Result<Host<'m>, AllocError>
        requires few { length programs.items ≤ 16 }
        requires dues { length dues.items ≡ length programs.items }
        requires ended { length ended.items ≡ length programs.items }
        requires events { events < 2 ^ 62 }
        requires early { All (λ due. due < 2 ^ 62) dues.items }
        ensures range { IfOk result (λ h. InRange h.turns) }
        ensures begun { IfOk result (λ h. h.turns.begun ≡ events) }
        ensures told { (ws : List WorldProgram) (ds : List Device) → AreResumed ws shows.items programs.entry.items dues.items ended.items
            → IfOk result (λ h. HostToldFrom events ws detaches.items ds [] h ds) }
        ensures mail { (ws : List WorldProgram) (ds : List Device) (names : List (List ℕ)) → AreResumed ws shows.items programs.entry.items dues.items ended.items → NoneWaits programs.entry.items
            → IfOk result (λ h. HostTellsFrom events ws detaches.items names ds [] h ds (empty_mail names)) }
    {
        let held = held_programs(alloc, programs)?;
        let dues = resumed_dues(alloc, &dues, &ended)?;
        Ok(Host {
            turns: Turns::new(alloc, held, dues, events, detaches, shows),
        })
    }

    /// The next line, with the tick at which its event began; None exactly where all programs have ended and all shows are out, and the
    /// host is then as it was. A new call of a bound import asks its device once, and a device's fault is told only where that device's
    /// count rose. After want of memory it isn't called again.
    pub fn next_without_mail(
        &mut self,
        devices: &mut Devices<'_>,
    ) -> Result<Option<Line>, AllocError>
        requires lent { IsLent }
        requires range { InRange self.old.turns }
        requires tells { IsTelling follows has_ended memory_of (held_of self.old.turns) (of_all seen devices.old) self.old.turns.stage }
        ensures range { IfOk result (λ line. InRange self.new.turns) }
        ensures same_list { devices.new.list.ghost_name ≡ devices.old.list.ghost_name }
        ensures told { (programs : List WorldProgram) (detaches : List Detach) (ds : List Device) (lines : List WorldLine)
            (told : HostTold programs detaches ds lines self.old (of_all seen devices.old))
            → IfOk result (HostNext programs detaches ds lines told.tellers (of_all (λ d. record { device = seen d; faults = faults d }) devices.old)
            (left_at self.old.turns.begun self.new.turns.begun detaches (of_all (λ d. record { device = seen d; faults = faults d }) devices.old))
            (of_all (λ d. record { device = seen d; faults = faults d }) devices.new) self.new (of_all seen devices.new)) }
        ensures told_from { (begun : ℕ) (programs : List WorldProgram) (detaches : List Detach) (ds : List Device) (lines : List WorldLine)
            (told : HostToldFrom begun programs detaches ds lines self.old (of_all seen devices.old))
            → IfOk result (HostNextFrom begun programs detaches ds lines told.tellers (of_all (λ d. record { device = seen d; faults = faults d }) devices.old)
            (left_at self.old.turns.begun self.new.turns.begun detaches (of_all (λ d. record { device = seen d; faults = faults d }) devices.old))
            (of_all (λ d. record { device = seen d; faults = faults d }) devices.new) self.new (of_all seen devices.new)) }
        ensures left { (programs : List WorldProgram) (detaches : List Detach) (ds : List Device) (lines : List WorldLine)
            → HostTold programs detaches ds lines self.old (of_all seen devices.old)
            → IsErr result → AreLeft self.old.turns.begun detaches (of_all (λ d. record { device = seen d; faults = faults d }) devices.old)
            (of_all (λ d. record { device = seen d; faults = faults d }) devices.new) }
        ensures left_from { (begun : ℕ) (programs : List WorldProgram) (detaches : List Detach) (ds : List Device) (lines : List WorldLine)
            → HostToldFrom begun programs detaches ds lines self.old (of_all seen devices.old)
            → IsErr result → AreLeft self.old.turns.begun detaches (of_all (λ d. record { device = seen d; faults = faults d }) devices.old)
            (of_all (λ d. record { device = seen d; faults = faults d }) devices.new) }
        ensures none { IfOk result (λ line. MatchOption line (HaveEnded self.old.turns.dues.items × LooksOut self.old.turns.shows.items self.old.turns.stage)
            (λ l. HaveEnded self.old.turns.dues.items → LooksOut self.old.turns.shows.items self.old.turns.stage → ⊥)) }
        ensures begun { IfOk result (λ line. BegunNext self.old.turns.stage self.old.turns.begun self.new.turns.begun line) }
        ensures goes_on { (LooksOut self.old.turns.shows.items self.old.turns.stage → ⊥) → self.new.turns.begun ≡ self.old.turns.begun }
        ensures same { IfOk result (λ line. MatchOption line (self.new ≡ self.old) (λ l. Unit {0})) }
    {
        self.turns.next(devices)
    }

    /// The next line, with the tick at which its event began, of programs that ask mailboxes too. A program that receives at an empty mailbox
    /// parks with its next pause, and goes on once it is sent a value; where none is due the first that is parked ends there, and tells it.
    /// None exactly where all programs have ended and all shows are out, and host, devices and mailboxes are then as they were. After want of
    /// memory it isn't called again.
    pub fn next(
        &mut self,
        devices: &mut Devices<'_>,
        mail: &mut Mailboxes,
    ) -> Result<Option<Line>, AllocError>
        requires lent { IsLent }
        requires range { InRange self.old.turns }
        requires tells { IsTellingMail (held_of self.old.turns) self.old.turns.last (of_all seen devices.old) mail.old self.old.turns.stage }
        ensures range { IfOk result (λ line. InRange self.new.turns) }
        ensures same_list { devices.new.list.ghost_name ≡ devices.old.list.ghost_name }
        ensures told { (begun : ℕ) (programs : List WorldProgram) (detaches : List Detach) (boxes : List (List ℕ)) (ds : List Device) (lines : List WorldLine)
            (told : HostTellsFrom begun programs detaches boxes ds lines self.old (of_all seen devices.old) mail.old)
            → IfOk result (HostTellsNext begun programs detaches boxes ds lines told.tellers (of_all (λ d. record { device = seen d; faults = faults d }) devices.old)
            (left_at self.old.turns.begun self.new.turns.begun detaches (of_all (λ d. record { device = seen d; faults = faults d }) devices.old))
            (of_all (λ d. record { device = seen d; faults = faults d }) devices.new) mail.old self.new (of_all seen devices.new) mail.new) }
        ensures left { (begun : ℕ) (programs : List WorldProgram) (detaches : List Detach) (boxes : List (List ℕ)) (ds : List Device) (lines : List WorldLine)
            → HostTellsFrom begun programs detaches boxes ds lines self.old (of_all seen devices.old) mail.old
            → IsErr result → AreLeft self.old.turns.begun detaches (of_all (λ d. record { device = seen d; faults = faults d }) devices.old)
            (of_all (λ d. record { device = seen d; faults = faults d }) devices.new) }
        ensures none { IfOk result (λ line. MatchOption line (AllOver self.old.turns × LooksOut self.old.turns.shows.items self.old.turns.stage)
            (λ l. AllOver self.old.turns → LooksOut self.old.turns.shows.items self.old.turns.stage → ⊥)) }
        ensures begun { IfOk result (λ line. BegunNext self.old.turns.stage self.old.turns.begun self.new.turns.begun line) }
        ensures goes_on { (LooksOut self.old.turns.shows.items self.old.turns.stage → ⊥) → self.new.turns.begun ≡ self.old.turns.begun }
        ensures same { IfOk result (λ line. MatchOption line ((self.new ≡ self.old) × (mail.new ≡ mail.old)) (λ l. Unit {0})) }
    {
        self.turns.next_with_mail(devices, mail)
    }

    /// How many events have begun.
    pub fn events(&self) -> u64
        ensures { result ≡ self.now.turns.begun }
    {
        self.turns.events()
    }

    /// The tick at which a program is due; 0 where it has ended, or is parked.
    pub fn due(&self, program: u32) -> u64
        requires { program < length self.now.turns.dues.items }
        ensures { Some result ≡ due_told (slice_get self.now.turns.dues.items program) }
    {
        self.turns.due(program as usize)
    }

    /// Whether a program is due: not while it is parked, and never once it has ended.
    pub fn is_due(&self, program: u32) -> bool
        requires { program < length self.now.turns.dues.items }
        ensures { Some result ≡ option_map is_some (slice_get self.now.turns.dues.items program) }
    {
        self.turns.dues()[program as usize].is_some()
    }

    /// Whether the next line, where there is one, begins an event.
    pub fn is_between(&self) -> bool
        requires { InRange self.now.turns }
        ensures yes { OnTrue result (LooksOut self.now.turns.shows.items self.now.turns.stage) }
        ensures no { OnFalse result (LooksOut self.now.turns.shows.items self.now.turns.stage → ⊥) }
    {
        self.turns.is_between()
    }

    /// What is held between events: of each program that it hasn't begun, or where it waits, or that it has ended. Of programs that began at
    /// their start, without bound imports, that is the snapshot of the world up to its last event.
    pub fn snapshot(&self, alloc: Global) -> Result<Snapshot, AllocError>
        requires range { InRange self.now.turns }
        requires between { LooksOut self.now.turns.shows.items self.now.turns.stage }
        requires tells { (ds : List Device) × IsTelling follows has_ended memory_of (held_of self.now.turns) ds self.now.turns.stage }
        ensures is { IfOk result (λ s. snapshot_of s ≡ saved_of self.now.turns) }
        ensures saved { (begun : ℕ) (programs : List WorldProgram) (detaches : List Detach) (ds ds' : List Device) (lines : List WorldLine)
            (told : HostToldFrom begun programs detaches ds lines self.now ds') → All CanBeSaved programs
            → IfOk result (λ s. IsSaved begun programs detaches ds lines ds' told.tellers (snapshot_of s)) }
        ensures few { IfOk result (λ s. length s.programs.items ≤ 16) }
        ensures counts { IfOk result (λ s. All CountsFit (map record_of s.programs.items)) }
    {
        let programs = saved_records(alloc, self.turns.programs(), self.turns.dues())?;
        let events = self.turns.events();
        Ok(Snapshot { events, programs })
    }

    /// A program, as it is now.
    pub fn program(&self, program: u32) -> &Program<'m>
        requires { program < length self.now.turns.programs.items }
        ensures { slice_get (map (λ x. x.program) self.now.turns.programs.items) program ≡ Some result.now }
    {
        &self.turns.program(program as usize).program
    }
}

// The programs, as a host holds them.
fn held_programs<'m>(
    alloc: Global,
    programs: Vec<Program<'m>>,
) -> Result<Vec<Hosted<'m>>, AllocError>
    ensures { IfOk result (λ held. map (λ x. x.program) held.items ≡ programs.entry.items) }
{
    let mut held = Vec::new(alloc);
    for program in programs {
        held.push(Hosted { program })?;
    }
    Ok(held)
}

// The ticks at which those are due that haven't ended.
fn resumed_dues(alloc: Global, dues: &[u64], ended: &[bool]) -> Result<Vec<Option<u64>>, AllocError>
    requires { length ended.now ≡ length dues.now }
    ensures { IfOk result (λ left. left.items ≡ dues_left dues.now ended.now) }
{
    let mut left = Vec::new(alloc);
    for i in 0..dues.len() {
        left.push(due_unless(ended[i], dues[i]))?;
    }
    Ok(left)
}

// The tick, where the program hasn't ended.
fn due_unless(ended: bool, due: u64) -> Option<u64>
    ensures { result ≡ unless ended due }
{
    if ended { None } else { Some(due) }
}
