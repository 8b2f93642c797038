//! The trait `Device`: what answers imports, with its replies and failures.

ghost use Rattle.std.specs.Prelude.{◌≡◌, ◌≤◌, ℕ, IfOk, OnErr, IsErrOf};
ghost use Rattle.vault_port.specs.Counts.{HasRisen};
ghost use Rattle.device_port.specs.declared.device.DeviceFail.TheVariants.{Memory};
ghost use Rattle.device_port.specs.Journals.{Seen, entry, with_entry};

use std::alloc::AllocError;
use thiserror::Error;
use wa_types::Value;

/// Why a device did not answer a call.
#[derive(Clone, Copy, Debug, Error)]
pub enum DeviceFail {
    #[error("the device failed")]
    Fault,
    #[error("out of memory")]
    Memory,
}

impl From<AllocError> for DeviceFail {
    ghost from_gives = { λ _ fail. fail ≡ Memory };

    fn from(_: AllocError) -> DeviceFail {
        DeviceFail::Memory
    }
}

/// What a device answers: a value, where it has one, and the ticks after which the program goes on.
#[derive(Clone, Copy)]
pub struct Reply {
    pub value: Option<Value>,
    pub ticks: u32,
}

/// What answers the imports that are bound to it.
pub trait Device: Drop {
    /// Its name, and its journal: the calls that it has answered, in order.
    ghost seen: { Self → Seen };

    /// How many calls have failed.
    ghost faults: { Self → ℕ };

    /// Its name. No call changes it.
    fn name(&self) -> &str
        ensures { result.now ≡ (seen self.now).name };

    /// Answers a call of an import with this base name. An answer is one more entry of the journal, and after an error
    /// the journal is as before. `Fault`: only after a fault.
    fn call(&mut self, base: &str, args: &[Value]) -> Result<Reply, DeviceFail>
        ensures answered { IfOk result (λ reply.
            seen self.new ≡ with_entry (entry base.now args.now reply) (seen self.old)) }
        ensures kept { OnErr result (seen self.new ≡ seen self.old) }

        ensures fault { IsErrOf result DeviceFail.Fault
            → HasRisen (faults self.old) (faults self.new) }
        ensures steady { IfOk result (λ reply. faults self.new ≡ faults self.old) }
        ensures rising { faults self.old ≤ faults self.new };
}
