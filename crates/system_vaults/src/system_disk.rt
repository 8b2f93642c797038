//! `SystemDisk`: the files of the system.

ghost use Rattle.std.specs.Prelude.{◌≡◌, ◌≢◌, ◌≤◌, ◌⊎◌, None, IfOk, OnOk, IsErr, IsErrAnd, length};
ghost use Rattle.std.specs.IoError.{error_kind};
ghost use Rattle.std.specs.declared.io.ErrorKind.TheVariants.{NotFound};
ghost use Rattle.vault_port.specs.Counts.{one_more};

use crate::disk::Disk;
use crate::faults::{counted, counted_write};
use crate::system_files::SystemFiles;
use std::fs::Files;
use std::io;

/// The files of the system, by path. It doesn't tell what they hold: that they do what `Disk` says is trusted, and so is that
/// it hands on what `SystemFiles` answers. It counts its calls that fail, or take nothing of a piece.
#[derive(Drop)]
pub struct SystemDisk<R: Files + Drop> {
    files: SystemFiles<R>,
    failed_reads: u64,
    failed_writes: u64,
}

impl<R: Files + Drop> SystemDisk<R> {
    /// The files that this runtime reaches.
    pub fn new(rt: R) -> SystemDisk<R>
        ensures reads { ⟦<SystemDisk<R> as Disk>⟧.read_faults result ≡ 0 }
        ensures writes { ⟦<SystemDisk<R> as Disk>⟧.write_faults result ≡ 0 }
    {
        SystemDisk {
            files: SystemFiles::new(rt),
            failed_reads: 0,
            failed_writes: 0,
        }
    }
}

impl<R: Files + Drop> Disk for SystemDisk<R> {
    ghost files = { λ _. None };

    ghost read_faults = { λ disk. disk.failed_reads };

    ghost write_faults = { λ disk. disk.failed_writes };

    fn read(&mut self, name: &str, from: u64, buf: &mut [u8]) -> io::Result<usize>
        ensures count { IfOk result (λ n. n ≤ length buf.old) }
        ensures failed { IsErrAnd result (λ e. error_kind e ≢ NotFound)
            → self.new.failed_reads ≡ one_more self.old.failed_reads }
        ensures failed_untold { IsErr result → self.new.failed_reads ≡ one_more self.old.failed_reads }
        ensures stays { OnOk result (self.new.failed_reads ≡ self.old.failed_reads) }
        ensures rising { self.old.failed_reads ≤ self.new.failed_reads }
        ensures writes { self.new.failed_writes ≡ self.old.failed_writes }
    {
        counted(self.files.read(name, from, buf), &mut self.failed_reads)
    }

    fn cut(&mut self, name: &str, at: u64) -> io::Result<()>
        ensures failed { IsErr result → self.new.failed_writes ≡ one_more self.old.failed_writes }
        ensures stays { OnOk result (self.new.failed_writes ≡ self.old.failed_writes) }
        ensures rising { self.old.failed_writes ≤ self.new.failed_writes }
        ensures reads { self.new.failed_reads ≡ self.old.failed_reads }
    {
        counted(self.files.cut(name, at), &mut self.failed_writes)
    }

    fn write(&mut self, name: &str, from: u64, piece: &[u8]) -> io::Result<usize>
        ensures count { IfOk result (λ n. n ≤ length piece.now) }
        ensures failed { IsErr result → self.new.failed_writes ≡ one_more self.old.failed_writes }
        ensures none { IfOk result (λ n. n ≡ 0
            → (length piece.now ≡ 0) ⊎ (self.new.failed_writes ≡ one_more self.old.failed_writes)) }
        ensures stays { IfOk result (λ n. (n ≢ 0) ⊎ (length piece.now ≡ 0)
            → self.new.failed_writes ≡ self.old.failed_writes) }
        ensures rising { self.old.failed_writes ≤ self.new.failed_writes }
        ensures reads { self.new.failed_reads ≡ self.old.failed_reads }
    {
        let answer = self.files.write(name, from, piece);
        counted_write(answer, piece, &mut self.failed_writes)
    }
}
