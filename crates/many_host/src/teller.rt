//! The trait `Teller`: a program that tells its events one after another.

ghost use Rattle.std.specs.Prelude.{◌≡◌, ℕ, List, Bool, false, IfOk, IsErr};
ghost use Rattle.std.specs.Option.{option_copied};
ghost use Rattle.wa_model.specs.Outside.{AnswerLine};
ghost use Rattle.wa_model.specs.Plan.{Outcome};
ghost use Rattle.wa_model.specs.Blocking.{Note};
ghost use Rattle.wa_model.specs.View.{event_of};
ghost use Rattle.world_model.specs.World.{Program, bytes_shown};
ghost use Rattle.device_port.specs.Listed.{of_all};
ghost use Rattle.host_laws.specs.Supplies.{IsLent, RisesAtMostOne};
ghost use Rattle.many_host.specs.Telling.{TellsNote, supply};

use device_port::Devices;
use std::alloc::AllocError;
use wa_model::Event;

/// A program that tells what happens to it, event by event, and asks devices.
pub trait Teller {
    /// It has told these notes of a program of a world, whose calls met these outcomes; these answer lines are left.
    ghost follows: { Self → Program → List Note → List Outcome → List AnswerLine → Type 0 };

    /// Whether it has told its end.
    ghost has_ended: { Self → Bool };

    /// The bytes of its memory.
    ghost memory: { Self → List ℕ };

    /// Its next event, before its end.
    fn advance(&mut self, devices: &mut Devices<'_>) -> Result<Event, AllocError>
        requires lent { IsLent }
        requires goes { (w : Program) × (notes : List Note) × (os : List Outcome) × (answers : List AnswerLine) × follows self.old w notes os answers }
        ensures kept { IsErr result → of_all seen devices.new ≡ of_all seen devices.old }
        ensures once { IsErr result → RisesAtMostOne (of_all faults devices.old) (of_all faults devices.new) }
        ensures same_list { devices.new.list.ghost_name ≡ devices.old.list.ghost_name }
        ensures told { (w : Program) (notes : List Note) (os : List Outcome) (answers : List AnswerLine) → follows self.old w notes os answers → has_ended self.old ≡ false
            → IfOk result (λ event. TellsNote (follows self.new w) (has_ended self.new) (memory self.new) w notes os
            (supply answers (of_all seen devices.old) (of_all faults devices.old)) (event_of event) (of_all seen devices.new) (of_all faults devices.new)) };

    /// Bytes of its memory; none where there is no memory or they aren't all there.
    fn show(&self, at: u32, len: u32) -> Option<&[u8]>
        ensures { option_copied result ≡ bytes_shown (memory self.now) (record { at = at; len = len }) };
}
