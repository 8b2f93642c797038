//! The trait `Disk`: what a system does with files.

ghost use Rattle.std.specs.Prelude.{◌≡◌, ◌≢◌, ◌⊎◌, ◌≤◌, ◌↔◌, ◌++◌, ℕ, length, take, Option, None, IfOk, OnOk, OnErr, IsErr, IsErrAnd};
ghost use Rattle.std.specs.IoError.{error_kind};
ghost use Rattle.std.specs.declared.io.ErrorKind.TheVariants.{NotFound};
ghost use Rattle.vault_port.specs.Counts.{one_more};
ghost use Rattle.vault_port.specs.Told.{WhereTold, Becomes};
ghost use Rattle.vault_port.specs.Files.{Files, bytes_of, IsFetched, ChangesOnly, ChangesAtMost};

use std::io;

/// What a system does with files, by one call each. An error is the system's own. A fault raises a count by one, and nothing
/// else does; a count stands still at the greatest `u64`.
pub trait Disk {
    /// The files, where the disk tells them.
    ghost files: { Self → Option Files };

    /// How many reads have failed, other than for a file that isn't there where the disk tells so.
    ghost read_faults: { Self → ℕ };

    /// How many cuts and writes have failed, or took nothing of a piece.
    ghost write_faults: { Self → ℕ };

    /// Reads once from the place `from` of a file on, to the front of the buffer, and answers how many bytes came. No
    /// file changes. `NotFound`: exactly where there is no such file. Of a disk that doesn't tell its files it counts as
    /// failed, as any other error does; of one that tells them it doesn't.
    fn read(&mut self, name: &str, from: u64, buf: &mut [u8]) -> io::Result<usize>
        ensures count { IfOk result (λ n. n ≤ length buf.old) }
        ensures read { IfOk result (λ n. WhereTold (files self.old) (λ all.
            IsFetched (bytes_of all name.now) from n buf.old buf.new)) }
        ensures kept { files self.new ≡ files self.old }
        ensures absent { WhereTold (files self.old) (λ all.
            IsErrAnd result (λ e. error_kind e ≡ NotFound) ↔ (all name.now ≡ None)) }

        ensures failed { IsErrAnd result (λ e. error_kind e ≢ NotFound)
            → read_faults self.new ≡ one_more (read_faults self.old) }
        ensures failed_untold { IsErr result → files self.old ≡ None
            → read_faults self.new ≡ one_more (read_faults self.old) }
        ensures stays { OnOk result (read_faults self.new ≡ read_faults self.old) }
        ensures stays_absent { WhereTold (files self.old) (λ _.
            IsErrAnd result (λ e. error_kind e ≡ NotFound) → read_faults self.new ≡ read_faults self.old) }
        ensures rising { read_faults self.old ≤ read_faults self.new }
        ensures writes { write_faults self.new ≡ write_faults self.old };

    /// Makes a file its first `at` bytes. An absent file counts as empty and is made. After an error it is so or as
    /// before.
    fn cut(&mut self, name: &str, at: u64) -> io::Result<()>
        requires { WhereTold (files self.old) (λ all. at ≤ length (bytes_of all name.now)) }
        ensures cut { OnOk result (Becomes (files self.old) (files self.new) (λ old new.
            ChangesOnly name.now (take at (bytes_of old name.now)) old new)) }
        ensures spared { OnErr result (Becomes (files self.old) (files self.new) (λ old new.
            ChangesAtMost name.now (take at (bytes_of old name.now)) old new)) }

        ensures failed { IsErr result → write_faults self.new ≡ one_more (write_faults self.old) }
        ensures stays { OnOk result (write_faults self.new ≡ write_faults self.old) }
        ensures rising { write_faults self.old ≤ write_faults self.new }
        ensures reads { read_faults self.new ≡ read_faults self.old };

    /// Writes once behind the bytes of a file, which has `from` of them, and answers how many of the piece were
    /// taken. After an error the bytes are as before. To take none, where there are some, counts as failed.
    fn write(&mut self, name: &str, from: u64, piece: &[u8]) -> io::Result<usize>
        requires { WhereTold (files self.old) (λ all. length (bytes_of all name.now) ≡ from) }
        ensures count { IfOk result (λ n. n ≤ length piece.now) }
        ensures written { IfOk result (λ n. Becomes (files self.old) (files self.new) (λ old new.
            ChangesOnly name.now (bytes_of old name.now ++ take n piece.now) old new)) }
        ensures spared { OnErr result (Becomes (files self.old) (files self.new) (λ old new.
            ChangesAtMost name.now (bytes_of old name.now) old new)) }

        ensures failed { IsErr result → write_faults self.new ≡ one_more (write_faults self.old) }
        ensures none { IfOk result (λ n. n ≡ 0
            → (length piece.now ≡ 0) ⊎ (write_faults self.new ≡ one_more (write_faults self.old))) }
        ensures stays { IfOk result (λ n. (n ≢ 0) ⊎ (length piece.now ≡ 0)
            → write_faults self.new ≡ write_faults self.old) }
        ensures rising { write_faults self.old ≤ write_faults self.new }
        ensures reads { read_faults self.new ≡ read_faults self.old };
}
