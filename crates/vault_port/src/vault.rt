//! The trait `Vault`: files by name.

ghost use Rattle.std.specs.Prelude.{◌≡◌, ◌≢◌, ◌≤◌, ◌↔◌, ℕ, List, ◌++◌, length, take, Option, None, IfOk, OnOk, OnErr, IsErrOf};
ghost use Rattle.vault_port.specs.declared.vault.VaultFail.TheVariants.{Memory};
ghost use Rattle.vault_port.specs.Counts.{FailsOnce};
ghost use Rattle.vault_port.specs.Told.{WhereTold, Becomes};
ghost use Rattle.vault_port.specs.Files.{Files, bytes_of, IsFetched, ChangesOnly, ChangesAtMost};

use std::alloc::AllocError;
use thiserror::Error;

/// Why a call of a vault did nothing or not all of its work.
#[derive(Clone, Copy, Debug, Error)]
pub enum VaultFail {
    #[error("no such file")]
    Absent,
    #[error("the file could not be read or written")]
    Failed,
    #[error("out of memory")]
    Memory,
}

impl From<AllocError> for VaultFail {
    ghost from_gives = { λ _ fail. fail ≡ Memory };

    fn from(_: AllocError) -> VaultFail {
        VaultFail::Memory
    }
}

/// Files by name, as a program reads and writes them.
pub trait Vault {
    /// The files, where the vault tells them.
    ghost files: { Self → Option Files };

    /// How many fetches have failed.
    ghost fetch_faults: { Self → ℕ };

    /// How many saves have failed.
    ghost save_faults: { Self → ℕ };

    /// Copies bytes of a file, from the place `from` on, to the front of the buffer, and answers how many. No file
    /// changes, and it takes no memory. `Absent`: no such file; of a vault that doesn't tell its files it counts
    /// as a fault. `Failed`: after a fault. The count tells each fault, and nothing else.
    fn fetch(&mut self, name: &str, from: u64, buf: &mut [u8]) -> Result<usize, VaultFail>
        ensures count { IfOk result (λ n. n ≤ length buf.old) }
        ensures fetched { IfOk result (λ n. WhereTold (files self.old) (λ all.
            IsFetched (bytes_of all name.now) from n buf.old buf.new)) }
        ensures kept { files self.new ≡ files self.old }

        ensures absent { WhereTold (files self.old) (λ all.
            IsErrOf result VaultFail.Absent ↔ (all name.now ≡ None)) }
        ensures absent_untold { IsErrOf result VaultFail.Absent → files self.old ≡ None
            → FailsOnce (fetch_faults self.old) (fetch_faults self.new) }
        ensures failed { IsErrOf result VaultFail.Failed
            → FailsOnce (fetch_faults self.old) (fetch_faults self.new) }
        ensures no_memory { result ≢ Err VaultFail.Memory }

        ensures stays { OnOk result (fetch_faults self.new ≡ fetch_faults self.old) }
        ensures stays_absent { WhereTold (files self.old) (λ _. IsErrOf result VaultFail.Absent
            → fetch_faults self.new ≡ fetch_faults self.old) }
        ensures faults { fetch_faults self.old ≤ fetch_faults self.new }
        ensures saves { save_faults self.new ≡ save_faults self.old };

    /// Makes a file its first `from` bytes and then the first bytes of the piece, and answers how many of the piece
    /// it took: at least one, unless the piece is empty. An absent file counts as empty and is made. After an error
    /// the file is as before or holds its first `from` bytes. `Failed`: after a fault, which the count
    /// tells, and no other answer is. Never `Absent`.
    fn save(&mut self, name: &str, from: u64, piece: &[u8]) -> Result<usize, VaultFail>
        requires { WhereTold (files self.old) (λ all. from ≤ length (bytes_of all name.now)) }
        ensures count { IfOk result (λ n. n ≤ length piece.now) }
        ensures some { IfOk result (λ n. n ≡ 0 → length piece.now ≡ 0) }
        ensures saved { IfOk result (λ n. Becomes (files self.old) (files self.new) (λ old new.
            ChangesOnly name.now (take from (bytes_of old name.now) ++ take n piece.now) old new)) }
        ensures cut { OnErr result (Becomes (files self.old) (files self.new) (λ old new.
            ChangesAtMost name.now (take from (bytes_of old name.now)) old new)) }

        ensures failed { IsErrOf result VaultFail.Failed
            → FailsOnce (save_faults self.old) (save_faults self.new) }
        ensures not_absent { result ≢ Err VaultFail.Absent }

        ensures stays { result ≢ Err VaultFail.Failed → save_faults self.new ≡ save_faults self.old }
        ensures faults { save_faults self.old ≤ save_faults self.new }
        ensures fetches { fetch_faults self.new ≡ fetch_faults self.old };
}
