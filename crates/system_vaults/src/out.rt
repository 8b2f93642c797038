//! The trait `Out`: what a system does with output.

ghost use Rattle.std.specs.Prelude.{◌≡◌, ◌≢◌, ◌⊎◌, ◌≤◌, ℕ, List, length, take, Option, IfOk, OnErr, IsErr};
ghost use Rattle.vault_port.specs.Counts.{one_more};
ghost use Rattle.vault_port.specs.Told.{Becomes};
ghost use Rattle.vault_port.specs.Taken.{Appends};

use std::io;

/// What a system does with output. An error is the system's own. A fault raises the count by one, and nothing else does; it
/// stands still at the greatest `u64`.
pub trait Out {
    /// The bytes written so far, where the output tells them.
    ghost written: { Self → Option (List ℕ) };

    /// How many writes have failed, or took nothing of a piece.
    ghost faults: { Self → ℕ };

    /// Writes the first bytes of a piece by one call, and answers how many. After an error none was written. To take none,
    /// where there are some, counts as failed.
    fn write(&mut self, piece: &[u8]) -> io::Result<usize>
        ensures count { IfOk result (λ n. n ≤ length piece.now) }
        ensures written { IfOk result (λ n. Becomes (written self.old) (written self.new)
            (Appends (take n piece.now))) }
        ensures kept { OnErr result (written self.new ≡ written self.old) }

        ensures failed { IsErr result → faults self.new ≡ one_more (faults self.old) }
        ensures none { IfOk result (λ n. n ≡ 0
            → (length piece.now ≡ 0) ⊎ (faults self.new ≡ one_more (faults self.old))) }
        ensures stays { IfOk result (λ n. (n ≢ 0) ⊎ (length piece.now ≡ 0)
            → faults self.new ≡ faults self.old) }
        ensures rising { faults self.old ≤ faults self.new };
}
