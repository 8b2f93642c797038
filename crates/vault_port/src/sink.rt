//! The trait `Sink`: where printed bytes go.

ghost use Rattle.std.specs.Prelude.{◌≡◌, ◌≢◌, ◌≤◌, ℕ, List, length, take, Option, IfOk, OnErr, IsErrOf};
ghost use Rattle.vault_port.specs.declared.sink.SinkFail.TheVariants.{Memory};
ghost use Rattle.vault_port.specs.Counts.{FailsOnce};
ghost use Rattle.vault_port.specs.Told.{Becomes};
ghost use Rattle.vault_port.specs.Taken.{Appends};

use std::alloc::AllocError;
use thiserror::Error;

/// Why a sink took nothing.
#[derive(Clone, Copy, Debug, Error)]
pub enum SinkFail {
    #[error("the output could not be written")]
    Failed,
    #[error("out of memory")]
    Memory,
}

impl From<AllocError> for SinkFail {
    ghost from_gives = { λ _ fail. fail ≡ Memory };

    fn from(_: AllocError) -> SinkFail {
        SinkFail::Memory
    }
}

/// Where printed bytes go.
pub trait Sink {
    /// The bytes taken so far, where the sink tells them.
    ghost taken: { Self → Option (List ℕ) };

    /// How many calls have failed.
    ghost faults: { Self → ℕ };

    /// Takes the first bytes of a piece and answers how many: at least one, unless the piece is empty. After an
    /// error nothing was taken. `Failed`: after a fault, which the count tells, and no other answer is.
    fn put(&mut self, piece: &[u8]) -> Result<usize, SinkFail>
        ensures count { IfOk result (λ n. n ≤ length piece.now) }
        ensures some { IfOk result (λ n. n ≡ 0 → length piece.now ≡ 0) }
        ensures taken { IfOk result (λ n. Becomes (taken self.old) (taken self.new)
            (Appends (take n piece.now))) }
        ensures kept { OnErr result (taken self.new ≡ taken self.old) }

        ensures failed { IsErrOf result SinkFail.Failed → FailsOnce (faults self.old) (faults self.new) }
        ensures stays { result ≢ Err SinkFail.Failed → faults self.new ≡ faults self.old }
        ensures rising { faults self.old ≤ faults self.new };
}
