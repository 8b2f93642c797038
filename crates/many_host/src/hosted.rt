//! A program of a host, as one that takes turns.

use crate::teller::Teller;
use device_port::Devices;
use mailbox_device::Mailboxes;
use pause_host::Program;
use std::alloc::AllocError;
use wa_model::Event;

/// A program of a host.
#[derive(Drop)]
pub(crate) struct Hosted<'m> {
    pub program: Program<'m>,
}

impl<'m> Teller for Hosted<'m> {
    ghost use Rattle.many_host.specs.Hosts.{follows, has_ended, memory_of};

    ghost follows = { λ x w notes os answers. follows x w notes os answers };

    ghost has_ended = { λ x. has_ended x };

    ghost memory = { λ x. memory_of x };

    fn advance(&mut self, devices: &mut Devices<'_>) -> Result<Event, AllocError> {
        self.program.advance_without_mail(devices)
    }

    fn show(&self, at: u32, len: u32) -> Option<&[u8]> {
        self.program.show(at, len)
    }
}

impl<'m> Hosted<'m> {
    ghost use Rattle.std.specs.Prelude.{◌≡◌, IfOk, IsErr, IsSome, Some, true};
    ghost use Rattle.wa_model.specs.declared.events.End.TheVariants.{Stalled};
    ghost use Rattle.wa_model.specs.Outside.{ended};
    ghost use Rattle.wa_model.specs.View.{event_of};
    ghost use Rattle.device_port.specs.Listed.{of_all};
    ghost use Rattle.host_laws.specs.Supplies.{IsLent, RisesAtMostOne};
    ghost use Rattle.mail_laws.specs.Told.{Await};
    ghost use Rattle.pause_host.specs.Programs.{parked_in, receive_in};
    ghost use Rattle.many_host.specs.Hosts.{has_ended, memory_of};

    /// A program that is parked ends where it waits.
    pub fn end_stalled(
        &mut self,
        devices: &mut Devices<'_>,
        mail: &mut Mailboxes,
    ) -> Result<Event, AllocError>
        requires lent { IsLent }
        requires parked { IsSome (parked_in self.old.program) }
        ensures ends { (r : Await) → receive_in self.old.program ≡ Some r
            → IfOk result (λ event. (event_of event ≡ ended (Stalled r.import)) × (has_ended self.new ≡ true) × (memory_of self.new ≡ memory_of self.old) × (devices.new ≡ devices.old) × (mail.new ≡ mail.old)) }
        ensures kept { IsErr result → of_all seen devices.new ≡ of_all seen devices.old }
        ensures once { IsErr result → RisesAtMostOne (of_all faults devices.old) (of_all faults devices.new) }
        ensures same_list { devices.new.list.ghost_name ≡ devices.old.list.ghost_name }
    {
        self.program.stall();
        self.program.advance(devices, mail)
    }
}
