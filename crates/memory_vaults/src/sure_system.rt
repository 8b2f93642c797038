//! `SureDisk` and `SureOut`: what `system_vaults` asks of a system, over files and output in memory.

ghost use Rattle.std.specs.Prelude.{◌≡◌, ◌≤◌, ◌↔◌, ◌++◌, length, take, Some, None, IfOk, OnOk, OnErr, IfErr, IsErr, IsErrAnd};
ghost use Rattle.std.specs.IoError.{error_kind};
ghost use Rattle.vault_port.specs.Counts.{one_more};
ghost use Rattle.vault_port.specs.Files.{bytes_of, IsFetched, ChangesOnly, ChangesAtMost};

use crate::{SureSink, SureVault};
use std::io::{self, Error, ErrorKind};
use system_vaults::{Disk, Out};
use vault_port::{Sink, Vault};

/// The files of a `SureVault` as a disk. No call fails but for want of memory, and a read of an absent file.
#[derive(Drop)]
pub struct SureDisk {
    vault: SureVault,
    failed: u64,
}

impl SureDisk {
    ghost use Rattle.memory_vaults.specs.InMemory.{disk_files, failed_changes, sure_files};

    /// A disk with the files of this vault.
    pub fn new(vault: SureVault) -> SureDisk
        ensures files { disk_files result ≡ sure_files vault }
        ensures changes { failed_changes result ≡ 0 }
    {
        SureDisk { vault, failed: 0 }
    }
}

impl Disk for SureDisk {
    ghost use Rattle.memory_vaults.specs.InMemory.{disk_files, failed_changes};

    ghost files = { λ disk. Some (disk_files disk) };

    ghost read_faults = { λ _. 0 };

    ghost write_faults = { failed_changes };

    fn read(&mut self, name: &str, from: u64, buf: &mut [u8]) -> io::Result<usize>
        ensures count { IfOk result (λ n. n ≤ length buf.old) }
        ensures read { IfOk result (λ n.
            IsFetched (bytes_of (disk_files self.old) name.now) from n buf.old buf.new) }
        ensures kept { disk_files self.new ≡ disk_files self.old }
        ensures absent { IsErrAnd result (λ e. error_kind e ≡ ErrorKind.NotFound)
            ↔ (disk_files self.old name.now ≡ None) }
        ensures sure { IfErr result (λ e. error_kind e ≡ ErrorKind.NotFound) }
        ensures writes { failed_changes self.new ≡ failed_changes self.old }
    {
        match self.vault.fetch(name, from, buf) {
            Ok(count) => Ok(count),
            Err(_) => Err(Error::from(ErrorKind::NotFound)),
        }
    }

    fn cut(&mut self, name: &str, at: u64) -> io::Result<()>
        requires { at ≤ length (bytes_of (disk_files self.old) name.now) }
        ensures cut { OnOk result (ChangesOnly name.now
            (take at (bytes_of (disk_files self.old) name.now))
            (disk_files self.old) (disk_files self.new)) }
        ensures spared { OnErr result (ChangesAtMost name.now
            (take at (bytes_of (disk_files self.old) name.now))
            (disk_files self.old) (disk_files self.new)) }
        ensures sure { IfErr result (λ e. error_kind e ≡ ErrorKind.OutOfMemory) }
        ensures failed { IsErr result → failed_changes self.new ≡ one_more (failed_changes self.old) }
        ensures stays { OnOk result (failed_changes self.new ≡ failed_changes self.old) }
        ensures rising { failed_changes self.old ≤ failed_changes self.new }
    {
        match self.vault.save(name, at, &[]) {
            Ok(_) => Ok(()),
            Err(_) => Err(no_memory(&mut self.failed)),
        }
    }

    fn write(&mut self, name: &str, from: u64, piece: &[u8]) -> io::Result<usize>
        requires { length (bytes_of (disk_files self.old) name.now) ≡ from }
        ensures all { IfOk result (λ n. n ≡ length piece.now) }
        ensures written { IfOk result (λ n. ChangesOnly name.now
            (bytes_of (disk_files self.old) name.now ++ take n piece.now)
            (disk_files self.old) (disk_files self.new)) }
        ensures spared { OnErr result (ChangesAtMost name.now
            (bytes_of (disk_files self.old) name.now)
            (disk_files self.old) (disk_files self.new)) }
        ensures sure { IfErr result (λ e. error_kind e ≡ ErrorKind.OutOfMemory) }
        ensures failed { IsErr result → failed_changes self.new ≡ one_more (failed_changes self.old) }
        ensures stays { OnOk result (failed_changes self.new ≡ failed_changes self.old) }
        ensures rising { failed_changes self.old ≤ failed_changes self.new }
    {
        match self.vault.save(name, from, piece) {
            Ok(count) => Ok(count),
            Err(_) => Err(no_memory(&mut self.failed)),
        }
    }
}

/// What a `SureSink` takes as an output. No call fails but for want of memory.
#[derive(Drop)]
pub struct SureOut {
    sink: SureSink,
    failed: u64,
}

impl SureOut {
    ghost use Rattle.memory_vaults.specs.InMemory.{failed_writes, out_bytes, sure_bytes};

    /// An output to this sink.
    pub fn new(sink: SureSink) -> SureOut
        ensures bytes { out_bytes result ≡ sure_bytes sink }
        ensures writes { failed_writes result ≡ 0 }
    {
        SureOut { sink, failed: 0 }
    }

    /// The bytes taken so far.
    pub fn bytes(&self) -> &[u8]
        ensures { result.now ≡ out_bytes self.now }
    {
        self.sink.bytes()
    }
}

impl Out for SureOut {
    ghost use Rattle.memory_vaults.specs.InMemory.{failed_writes, out_bytes};

    ghost written = { λ out. Some (out_bytes out) };

    ghost faults = { failed_writes };

    fn write(&mut self, piece: &[u8]) -> io::Result<usize>
        ensures all { IfOk result (λ n. n ≡ length piece.now) }
        ensures written { IfOk result (λ n. out_bytes self.new ≡ out_bytes self.old ++ take n piece.now) }
        ensures kept { OnErr result (out_bytes self.new ≡ out_bytes self.old) }
        ensures sure { IfErr result (λ e. error_kind e ≡ ErrorKind.OutOfMemory) }
        ensures failed { IsErr result → failed_writes self.new ≡ one_more (failed_writes self.old) }
        ensures stays { OnOk result (failed_writes self.new ≡ failed_writes self.old) }
        ensures rising { failed_writes self.old ≤ failed_writes self.new }
    {
        match self.sink.put(piece) {
            Ok(count) => Ok(count),
            Err(_) => Err(no_memory(&mut self.failed)),
        }
    }
}

/// Counts a call that failed, and gives its error: there was no memory.
fn no_memory(failed: &mut u64) -> Error
    ensures kind { error_kind result ≡ ErrorKind.OutOfMemory }
    ensures one { failed.new ≡ one_more failed.old }
    ensures rising { failed.old ≤ failed.new }
{
    *failed = failed.saturating_add(1);
    Error::from(ErrorKind::OutOfMemory)
}
