//! The trait `Weaver`: a program with strands, as its host meets it.

ghost use Rattle.std.specs.Prelude.{◌≡◌, ℕ, List, Option, false, IfOk, IsErr};
ghost use Rattle.std.specs.Option.{option_copied};
ghost use Rattle.wa_model.specs.View.{event_of};
ghost use Rattle.world_model.specs.World.{bytes_shown};
ghost use Rattle.device_port.specs.Listed.{of_all};
ghost use Rattle.host_laws.specs.Supplies.{IsLent, RisesAtMostOne};
ghost use Rattle.strand_laws.specs.StrandWorld.{StrandsInWorld};
ghost use Rattle.strand_laws.specs.ToldStrands.{ProgramTeller};
ghost use Rattle.strand_host.specs.StrandTelling.{IsToldSo, TellsStrandNote};

use crate::strands::StrandEvent;
use device_port::Devices;
use std::alloc::AllocError;

/// A program with strands, which tells what happens to them, event by event, and asks devices.
pub trait Weaver {
    /// Its strands have told so much of a program of a world.
    ghost follows: { Self → StrandsInWorld → ProgramTeller → Type 0 };

    /// When its next turn is due, or was due where it goes on; never once it has ended.
    ghost due_at: { Self → Option ℕ };

    /// The bytes of its memory.
    ghost memory: { Self → List ℕ };

    /// The next event of the strand whose turn it is, before the program's end.
    fn advance(&mut self, devices: &mut Devices<'_>) -> Result<StrandEvent, AllocError>
        requires lent { IsLent }
        requires goes { (g : StrandsInWorld) × (t : ProgramTeller) × follows self.old g t × (t.has_ended ≡ false) }
        ensures kept { IsErr result → of_all seen devices.new ≡ of_all seen devices.old }
        ensures once { IsErr result → RisesAtMostOne (of_all faults devices.old) (of_all faults devices.new) }
        ensures same_list { devices.new.list.ghost_name ≡ devices.old.list.ghost_name }
        ensures told { (g : StrandsInWorld) (t : ProgramTeller) → follows self.old g t → t.has_ended ≡ false
            → IfOk result (λ told. TellsStrandNote (follows self.new g) (memory self.new) g t told.strand (event_of told.event)
            (of_all seen devices.old) (of_all faults devices.old) (of_all seen devices.new) (of_all faults devices.new)) };

    /// When its next turn is due, or was due where it goes on; None once it has ended.
    fn due(&self) -> Option<u64>
        ensures { result ≡ due_at self.now };

    /// Bytes of its memory; None where there is no memory or they aren't all there.
    fn show(&self, at: u32, len: u32) -> Option<&[u8]>
        ensures { option_copied result ≡ bytes_shown (memory self.now) (record { at = at; len = len }) };

    /// What it has told begins the story of its strands, and it is due as they are.
    ghost told_so: { (x : Self) (g : StrandsInWorld) (t : ProgramTeller) → follows x g t → IsToldSo g t (due_at x) };
}
