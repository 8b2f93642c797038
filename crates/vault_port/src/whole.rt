//! Whole files and whole pieces of output, over calls that may take less than they are given.

ghost use Rattle.std.specs.Prelude.{◌≡◌, ◌≢◌, ◌⊎◌, ◌+◌, ◌≤◌, ◌<◌, length, take, IfOk, OnOk, OnErr, IsErrOf, IsSome, vec_len};
ghost use Rattle.vault_port.specs.declared.whole.FetchFault.TheVariants.{Memory};
ghost use Rattle.vault_port.specs.Counts.{FailsOnce};
ghost use Rattle.vault_port.specs.Told.{WhereTold, Becomes};
ghost use Rattle.vault_port.specs.Files.{bytes_of, CannotRead, FetchesMore, ChangesOnly, HoldsFrontAtMost};
ghost use Rattle.vault_port.specs.Taken.{Appends, AppendsLess};

use crate::{Sink, SinkFail, Vault, VaultFail};
use std::alloc::{AllocError, Global};
use thiserror::Error;

/// Why a file was not read.
#[derive(Clone, Copy, Debug, Error)]
pub enum FetchFault {
    #[error("the file could not be read")]
    Read,
    #[error("out of memory")]
    Memory,
}

impl From<AllocError> for FetchFault {
    ghost from_gives = { λ _ fault. fault ≡ Memory };

    fn from(_: AllocError) -> FetchFault {
        FetchFault::Memory
    }
}

/// Why a file was not written.
#[derive(Clone, Copy, Debug, Error)]
pub enum SaveFault {
    #[error("the file could not be written")]
    Write,
    #[error("out of memory")]
    Memory,
}

/// Why output was not taken.
#[derive(Clone, Copy, Debug, Error)]
pub enum PutFault {
    #[error("the output could not be written")]
    Fault,
    #[error("out of memory")]
    Memory,
}

/// The bytes for which the first fetch has room.
const FIRST_ROOM: usize = 65_536;

/// Reads a file up to its end, or until `limit` bytes are there. Takes time linear in what it reads, and room for
/// at most twice as much, or for 64 KiB. `Read`: after a fault, or where the vault tells that there is no such
/// file. No file changes, and behind a fetch that failed there is no other.
pub fn fetch_whole<V: Vault>(
    alloc: Global,
    vault: &mut V,
    name: &str,
    limit: u64,
) -> Result<Vec<u8>, FetchFault>
    ensures whole { IfOk result (λ bytes. WhereTold (V.files vault.old) (λ all.
        bytes.items ≡ take limit (bytes_of all name.now))) }
    ensures there { OnOk result (WhereTold (V.files vault.old) (λ all. IsSome (all name.now))) }
    ensures bound { IfOk result (λ bytes. length bytes.items ≤ limit) }
    ensures kept { V.files vault.new ≡ V.files vault.old }

    ensures read { IsErrOf result FetchFault.Read
        → CannotRead (V.files vault.old) name.now (V.fetch_faults vault.old) (V.fetch_faults vault.new) }
    ensures stays { result ≢ Err FetchFault.Read → V.fetch_faults vault.new ≡ V.fetch_faults vault.old }
    ensures faults { V.fetch_faults vault.old ≤ V.fetch_faults vault.new }
    ensures saves { V.save_faults vault.new ≡ V.save_faults vault.old }
{
    let mut bytes = Vec::new(alloc);
    let mut done = 0usize;
    'fetching: loop {
        make_room(&mut bytes, done, limit)?;
        let count = fetch_behind(vault, name, done, bytes.as_mut_slice())?;
        done += count;
        if count == 0 || done as u64 == limit {
            bytes.truncate(done);
            return Ok(bytes);
        }
    }
}

/// Makes room behind the first `done` bytes of a buffer, unless `limit` bytes are there: it grows to twice as many,
/// at least 64 KiB, and at most `limit`.
fn make_room(buffer: &mut Vec<u8>, done: usize, limit: u64) -> Result<(), AllocError>
    requires within { done ≤ vec_len buffer.old }
    requires bound { vec_len buffer.old ≤ limit }
    ensures room { OnOk result ((done < vec_len buffer.new) ⊎ (vec_len buffer.new ≡ limit)) }
    ensures enough { OnOk result (done ≤ vec_len buffer.new) }
    ensures bound { OnOk result (vec_len buffer.new ≤ limit) }
    ensures same { OnOk result (take done buffer.new.items ≡ take done buffer.old.items) }
{
    if done < buffer.len() {
        return Ok(());
    }
    let limit = limit as usize;
    let room = if done > limit / 2 {
        limit
    } else {
        (2 * done).max(FIRST_ROOM).min(limit)
    };
    buffer.resize(room, 0u8)
}

/// Fetches bytes of a file from the place `done` on to that place of a buffer, and answers how many.
fn fetch_behind<V: Vault>(
    vault: &mut V,
    name: &str,
    done: usize,
    buffer: &mut [u8],
) -> Result<usize, FetchFault>
    requires { done ≤ length buffer.old }
    ensures count { IfOk result (λ n. done + n ≤ length buffer.old) }
    ensures fetched { IfOk result (λ n. WhereTold (V.files vault.old) (λ all.
        FetchesMore (bytes_of all name.now) done n buffer.old buffer.new)) }
    ensures there { OnOk result (WhereTold (V.files vault.old) (λ all. IsSome (all name.now))) }
    ensures kept { V.files vault.new ≡ V.files vault.old }

    ensures read { IsErrOf result FetchFault.Read
        → CannotRead (V.files vault.old) name.now (V.fetch_faults vault.old) (V.fetch_faults vault.new) }
    ensures stays { result ≢ Err FetchFault.Read → V.fetch_faults vault.new ≡ V.fetch_faults vault.old }
    ensures faults { V.fetch_faults vault.old ≤ V.fetch_faults vault.new }
    ensures saves { V.save_faults vault.new ≡ V.save_faults vault.old }
{
    match vault.fetch(name, done as u64, &mut buffer[done..]) {
        Ok(count) => Ok(count),
        Err(VaultFail::Memory) => unreachable!(),
        Err(_) => Err(FetchFault::Read),
    }
}

/// Makes a file these bytes, going on after each save that takes less. Where there are none, the file is made or
/// emptied. After an error it is as before or holds some first bytes of these. `Write`: after a fault, behind which
/// nothing is saved.
pub fn save_whole<V: Vault>(vault: &mut V, name: &str, bytes: &[u8]) -> Result<(), SaveFault>
    ensures saved { OnOk result (Becomes (V.files vault.old) (V.files vault.new)
        (ChangesOnly name.now bytes.now)) }
    ensures cut { OnErr result (Becomes (V.files vault.old) (V.files vault.new)
        (HoldsFrontAtMost name.now bytes.now)) }

    ensures write { IsErrOf result SaveFault.Write
        → FailsOnce (V.save_faults vault.old) (V.save_faults vault.new) }
    ensures stays { result ≢ Err SaveFault.Write → V.save_faults vault.new ≡ V.save_faults vault.old }
    ensures faults { V.save_faults vault.old ≤ V.save_faults vault.new }
    ensures fetches { V.fetch_faults vault.new ≡ V.fetch_faults vault.old }
{
    let mut done = 0usize;
    'saving: loop {
        done += match vault.save(name, done as u64, &bytes[done..]) {
            Ok(count) => count,
            Err(VaultFail::Failed) => return Err(SaveFault::Write),
            Err(VaultFail::Memory) => return Err(SaveFault::Memory),
            Err(VaultFail::Absent) => unreachable!(),
        };
        if done == bytes.len() {
            return Ok(());
        }
    }
}

/// Prints these bytes, going on after each put that takes less. After an error the sink has taken some first bytes
/// of these, and not all. `Fault`: after a fault, behind which nothing is put.
pub fn put_whole<S: Sink>(out: &mut S, bytes: &[u8]) -> Result<(), PutFault>
    ensures taken { OnOk result (Becomes (S.taken out.old) (S.taken out.new) (Appends bytes.now)) }
    ensures less { OnErr result (Becomes (S.taken out.old) (S.taken out.new)
        (AppendsLess bytes.now)) }

    ensures fault { IsErrOf result PutFault.Fault → FailsOnce (S.faults out.old) (S.faults out.new) }
    ensures stays { result ≢ Err PutFault.Fault → S.faults out.new ≡ S.faults out.old }
    ensures faults { S.faults out.old ≤ S.faults out.new }
{
    let mut done = 0usize;
    'putting: while done < bytes.len() {
        done += match out.put(&bytes[done..]) {
            Ok(count) => count,
            Err(SinkFail::Failed) => return Err(PutFault::Fault),
            Err(SinkFail::Memory) => return Err(PutFault::Memory),
        };
    }
    Ok(())
}
