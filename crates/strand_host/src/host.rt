//! `StrandHost`: several programs with strands on one thread, told line by line.

ghost use Rattle.std.specs.Prelude.{◌≡◌, ◌≤◌, ℕ, List, [], IfOk, IsErr, MatchOption, length};
ghost use Rattle.world_model.specs.World.{Device};
ghost use Rattle.device_port.specs.Listed.{of_all};
ghost use Rattle.event_order.specs.Dues.{HaveEnded};
ghost use Rattle.host_laws.specs.Supplies.{IsLent};
ghost use Rattle.many_host.specs.Calls.{AreLeft, left_at};
ghost use Rattle.strand_laws.specs.StrandWorld.{StrandLine as WorldLine, StrandsInWorld};
ghost use Rattle.strand_host.specs.StrandCalls.{BegunNext};
ghost use Rattle.strand_host.specs.StrandHosts.{AreSetUpStrands, StrandHostNext, StrandHostTells, StrandHostTold};
ghost use Rattle.strand_host.specs.StrandStanding.{AreInRange, AreLooksOut};

use crate::program::StrandProgram;
use crate::turn_taking::{StrandLine, StrandTurns};
use device_port::Devices;
use event_order::Show as Look;
use std::alloc::{AllocError, Global};
use wa_model::Detach;

/// Several programs with strands on one thread.
#[derive(Drop)]
pub struct StrandHost<'m> {
    turns: StrandTurns<StrandProgram<'m>>,
}

impl<'m> StrandHost<'m> {
    /// A host of programs of which none was advanced, with the devices to be taken out, by the numbers of events, from 1, and what is
    /// shown of the programs' memories behind their ends.
    pub fn new(
        alloc: Global,
        programs: Vec<StrandProgram<'m>>,
        detaches: Vec<Detach>,
        shows: Vec<Look>,
    ) -> Result<StrandHost<'m>, AllocError>
        requires few { length programs.items ≤ 16 }
        ensures range { IfOk result (λ h. AreInRange h.turns) }
        ensures begun { IfOk result (λ h. h.turns.begun ≡ 0) }
        ensures told { (gs : List StrandsInWorld) (ds : List Device) → AreSetUpStrands gs shows.items programs.entry.items → IfOk result (λ h. StrandHostTold gs detaches.items ds [] h ds) }
    {
        let turns = StrandTurns::new(alloc, programs, detaches, shows)?;
        Ok(StrandHost { turns })
    }

    /// The next line, with the tick at which its event began; None exactly where all programs have ended and all looks are out, and the
    /// host is then as it was. A new call of a bound import asks its device once, and a device's fault is told only where that device's
    /// count rose. After want of memory it isn't called again.
    pub fn next(&mut self, devices: &mut Devices<'_>) -> Result<Option<StrandLine>, AllocError>
        requires lent { IsLent }
        requires range { AreInRange self.old.turns }
        requires tells { StrandHostTells self.old (of_all seen devices.old) }
        ensures range { IfOk result (λ line. AreInRange self.new.turns) }
        ensures same_list { devices.new.list.ghost_name ≡ devices.old.list.ghost_name }
        ensures told { (gs : List StrandsInWorld) (detaches : List Detach) (ds : List Device) (lines : List WorldLine)
            (told : StrandHostTold gs detaches ds lines self.old (of_all seen devices.old))
            → IfOk result (StrandHostNext gs detaches ds lines told.tellers (of_all (λ d. record { device = seen d; faults = faults d }) devices.old)
            (left_at self.old.turns.begun self.new.turns.begun detaches (of_all (λ d. record { device = seen d; faults = faults d }) devices.old))
            (of_all (λ d. record { device = seen d; faults = faults d }) devices.new) self.new (of_all seen devices.new)) }
        ensures left { (gs : List StrandsInWorld) (detaches : List Detach) (ds : List Device) (lines : List WorldLine)
            → StrandHostTold gs detaches ds lines self.old (of_all seen devices.old)
            → IsErr result → AreLeft self.old.turns.begun detaches (of_all (λ d. record { device = seen d; faults = faults d }) devices.old)
            (of_all (λ d. record { device = seen d; faults = faults d }) devices.new) }
        ensures none { IfOk result (λ line. MatchOption line (HaveEnded self.old.turns.dues.items × AreLooksOut self.old.turns.shows.items self.old.turns.stage)
            (λ l. HaveEnded self.old.turns.dues.items → AreLooksOut self.old.turns.shows.items self.old.turns.stage → ⊥)) }
        ensures begun { IfOk result (λ line. BegunNext self.old.turns.stage self.old.turns.begun self.new.turns.begun line) }
        ensures goes_on { (AreLooksOut self.old.turns.shows.items self.old.turns.stage → ⊥) → self.new.turns.begun ≡ self.old.turns.begun }
        ensures same { IfOk result (λ line. MatchOption line (self.new ≡ self.old) (λ l. Unit {0})) }
    {
        self.turns.next(devices)
    }

    /// How many events have begun.
    pub fn events(&self) -> u64
        ensures { result ≡ self.now.turns.begun }
    {
        self.turns.begun
    }
}
