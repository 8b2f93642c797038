//! `FileVault`: files by name, over a disk.

ghost use Rattle.std.specs.Prelude.{◌≡◌, ◌≢◌, ◌≤◌, ◌↔◌, ◌++◌, None, IfOk, OnOk, OnErr, IsErr, IsErrOf, length, take};
ghost use Rattle.std.specs.IoError.{error_kind};
ghost use Rattle.vault_port.specs.Counts.{FailsOnce, one_more};
ghost use Rattle.vault_port.specs.Files.{bytes_of, IsFetched, ChangesOnly, ChangesAtMost};
ghost use Rattle.vault_port.specs.Told.{WhereTold, Becomes};

use crate::disk::Disk;
use crate::faults::took_nothing;
use crate::system_disk::SystemDisk;
use std::fs::Files;
use std::io::{self, Error, ErrorKind};
use vault_port::{Vault, VaultFail};

/// The files of a disk. It tells what the disk tells, and its counts of faults are the disk's: no call fails but for a
/// call of the disk that did, or that took nothing of a piece, and each that fails counts once.
#[derive(Drop)]
pub struct FileVault<D: Disk + Drop> {
    disk: D,
    cause: Option<Error>,
}

impl<R: Files + Drop> FileVault<SystemDisk<R>> {
    ghost use Rattle.system_vaults.specs.Kept.{disk_of};

    /// The files of the system that this runtime reaches, by path.
    pub fn new(rt: R) -> FileVault<SystemDisk<R>>
        ensures fetches { ⟦<SystemDisk<R> as Disk>⟧.read_faults (disk_of result) ≡ 0 }
        ensures saves { ⟦<SystemDisk<R> as Disk>⟧.write_faults (disk_of result) ≡ 0 }
    {
        FileVault::over(SystemDisk::new(rt))
    }
}

impl<D: Disk + Drop> FileVault<D> {
    ghost use Rattle.system_vaults.specs.Kept.{disk_of};

    /// The files of this disk.
    pub fn over(disk: D) -> FileVault<D>
        ensures disk { disk_of result ≡ disk }
        ensures fetches { D.read_faults (disk_of result) ≡ D.read_faults disk }
        ensures saves { D.write_faults (disk_of result) ≡ D.write_faults disk }
    {
        FileVault { disk, cause: None }
    }

    /// Why the last call that failed did, as the disk says it.
    pub fn cause(&self) -> Option<Error> {
        self.cause
    }
}

impl<D: Disk + Drop> Vault for FileVault<D> {
    ghost use Rattle.system_vaults.specs.Kept.{disk_of};

    ghost files = { λ vault. D.files (disk_of vault) };

    ghost fetch_faults = { λ vault. D.read_faults (disk_of vault) };

    ghost save_faults = { λ vault. D.write_faults (disk_of vault) };

    fn fetch(&mut self, name: &str, from: u64, buf: &mut [u8]) -> Result<usize, VaultFail>
        ensures count { IfOk result (λ n. n ≤ length buf.old) }
        ensures fetched { IfOk result (λ n. WhereTold (D.files (disk_of self.old)) (λ all.
            IsFetched (bytes_of all name.now) from n buf.old buf.new)) }
        ensures kept { D.files (disk_of self.new) ≡ D.files (disk_of self.old) }
        ensures absent { WhereTold (D.files (disk_of self.old)) (λ all.
            IsErrOf result VaultFail.Absent ↔ (all name.now ≡ None)) }
        ensures absent_untold { IsErrOf result VaultFail.Absent → D.files (disk_of self.old) ≡ None
            → FailsOnce (D.read_faults (disk_of self.old)) (D.read_faults (disk_of self.new)) }
        ensures no_memory { result ≢ Err VaultFail.Memory }

        ensures failed { IsErrOf result VaultFail.Failed
            → FailsOnce (D.read_faults (disk_of self.old)) (D.read_faults (disk_of self.new)) }
        ensures rises_untold { IsErr result → D.files (disk_of self.old) ≡ None
            → FailsOnce (D.read_faults (disk_of self.old)) (D.read_faults (disk_of self.new)) }
        ensures stays { OnOk result (D.read_faults (disk_of self.new) ≡ D.read_faults (disk_of self.old)) }
        ensures stays_absent { WhereTold (D.files (disk_of self.old)) (λ _. IsErrOf result VaultFail.Absent
            → D.read_faults (disk_of self.new) ≡ D.read_faults (disk_of self.old)) }
        ensures faults { D.read_faults (disk_of self.old) ≤ D.read_faults (disk_of self.new) }
        ensures saves { D.write_faults (disk_of self.new) ≡ D.write_faults (disk_of self.old) }
    {
        match self.disk.read(name, from, buf) {
            Ok(count) => Ok(count),
            Err(error) => {
                self.cause = Some(error);
                Err(fail_of(&error))
            }
        }
    }

    fn save(&mut self, name: &str, from: u64, piece: &[u8]) -> Result<usize, VaultFail>
        requires { WhereTold (D.files (disk_of self.old)) (λ all.
            from ≤ length (bytes_of all name.now)) }
        ensures count { IfOk result (λ n. n ≤ length piece.now) }
        ensures some { IfOk result (λ n. n ≡ 0 → length piece.now ≡ 0) }
        ensures saved { IfOk result (λ n. Becomes (D.files (disk_of self.old)) (D.files (disk_of self.new)) (λ old new.
            ChangesOnly name.now (take from (bytes_of old name.now) ++ take n piece.now) old new)) }
        ensures cut { OnErr result (Becomes (D.files (disk_of self.old)) (D.files (disk_of self.new)) (λ old new.
            ChangesAtMost name.now (take from (bytes_of old name.now)) old new)) }
        ensures no_memory { result ≢ Err VaultFail.Memory }
        ensures not_absent { result ≢ Err VaultFail.Absent }

        ensures failed { IsErrOf result VaultFail.Failed
            → FailsOnce (D.write_faults (disk_of self.old)) (D.write_faults (disk_of self.new)) }
        ensures rises { OnErr result
            (FailsOnce (D.write_faults (disk_of self.old)) (D.write_faults (disk_of self.new))) }
        ensures stays { result ≢ Err VaultFail.Failed
            → D.write_faults (disk_of self.new) ≡ D.write_faults (disk_of self.old) }
        ensures faults { D.write_faults (disk_of self.old) ≤ D.write_faults (disk_of self.new) }
        ensures fetches { D.read_faults (disk_of self.new) ≡ D.read_faults (disk_of self.old) }
    {
        match cut_and_write(&mut self.disk, name, from, piece) {
            Ok(count) => Ok(count),
            Err(error) => {
                self.cause = Some(error);
                Err(VaultFail::Failed)
            }
        }
    }
}

/// What a vault answers for an error of reading.
fn fail_of(error: &Error) -> VaultFail
    ensures absent { (result ≡ VaultFail.Absent) ↔ (error_kind error.now ≡ ErrorKind.NotFound) }
    ensures failed { result ≡ VaultFail.Failed → error_kind error.now ≢ ErrorKind.NotFound }
    ensures no_memory { result ≢ VaultFail.Memory }
{
    match error.kind() {
        ErrorKind::NotFound => VaultFail::Absent,
        _ => VaultFail::Failed,
    }
}

/// Cuts a file at a place, making it where it is absent, and writes first bytes of a piece there. To write none, where
/// there are some, is an error. After an error the file is cut or as before.
fn cut_and_write<D: Disk>(disk: &mut D, name: &str, from: u64, piece: &[u8]) -> io::Result<usize>
    requires { WhereTold (D.files disk.old) (λ all. from ≤ length (bytes_of all name.now)) }
    ensures count { IfOk result (λ n. n ≤ length piece.now) }
    ensures some { IfOk result (λ n. n ≡ 0 → length piece.now ≡ 0) }
    ensures saved { IfOk result (λ n. Becomes (D.files disk.old) (D.files disk.new) (λ old new.
        ChangesOnly name.now (take from (bytes_of old name.now) ++ take n piece.now) old new)) }
    ensures cut { OnErr result (Becomes (D.files disk.old) (D.files disk.new) (λ old new.
        ChangesAtMost name.now (take from (bytes_of old name.now)) old new)) }

    ensures rises { OnErr result (D.write_faults disk.new ≡ one_more (D.write_faults disk.old)) }
    ensures stays { OnOk result (D.write_faults disk.new ≡ D.write_faults disk.old) }
    ensures faults { D.write_faults disk.old ≤ D.write_faults disk.new }
    ensures reads { D.read_faults disk.new ≡ D.read_faults disk.old }
{
    disk.cut(name, from)?;
    let written = disk.write(name, from, piece)?;
    if took_nothing(written, piece) {
        return Err(Error::from(ErrorKind::WriteZero));
    }
    Ok(written)
}
