//! `SureVault`: files in memory.

ghost use Rattle.std.specs.Prelude.{◌≡◌, ◌≢◌, ◌⊎◌, ◌≤◌, ◌<◌, ◌↔◌, ◌++◌, [], ◌∷◌, ℕ, List, length, take, Some, None, Contains, option_map, IsTrue, IfOk, IsNone, OnOk, OnErr, IsErrOf};
ghost use Rattle.std.specs.Prelude.{IsOkUnless, MatchOption, vec_len};
ghost use Rattle.vault_port.specs.declared.vault.VaultFail.TheVariants.{Memory};
ghost use Rattle.vault_port.specs.Told.{WhereTold, Becomes};
ghost use Rattle.vault_port.specs.Files.{Files, bytes_of, IsFetched, ChangesOnly, ChangesAtMost};
ghost use Rattle.memory_vaults.specs.InMemory.{files_of, IsFirstOf};

use std::alloc::{AllocError, Global};
use vault_port::{Vault, VaultFail};
use wa_types::Name;

/// A file with its name.
#[derive(Drop)]
pub struct NamedFile {
    pub name: Name,
    pub bytes: Vec<u8>,
}

/// Files in memory. No call fails but for want of memory.
#[derive(Drop)]
pub struct SureVault {
    alloc: Global,
    files: Vec<NamedFile>,
}

impl SureVault {
    ghost use Rattle.memory_vaults.specs.InMemory.{sure_files};

    /// A vault with these files. Of several with one name it has the first.
    pub fn new(alloc: Global, files: Vec<NamedFile>) -> SureVault
        ensures { sure_files result ≡ files_of files.items }
    {
        SureVault { alloc, files }
    }

    /// The bytes of a file; None where there is none of that name.
    pub fn file(&self, name: &str) -> Option<&[u8]>
        ensures { option_map (λ bytes. bytes.now) result ≡ sure_files self.now name.now }
    {
        find(&self.files, name)
    }
}

impl Vault for SureVault {
    ghost use Rattle.memory_vaults.specs.InMemory.{sure_files};

    ghost files = { λ vault. Some (sure_files vault) };

    ghost fetch_faults = { λ _. 0 };

    ghost save_faults = { λ _. 0 };

    fn fetch(&mut self, name: &str, from: u64, buf: &mut [u8]) -> Result<usize, VaultFail>
        ensures count { IfOk result (λ n. n ≤ length buf.old) }
        ensures fetched { IfOk result (λ n.
            IsFetched (bytes_of (sure_files self.old) name.now) from n buf.old buf.new) }
        ensures kept { sure_files self.new ≡ sure_files self.old }
        ensures absent { IsErrOf result VaultFail.Absent ↔ (sure_files self.old name.now ≡ None) }
        ensures no_memory { result ≢ Err VaultFail.Memory }
        ensures sure { result ≢ Err VaultFail.Failed }
    {
        match find(&self.files, name) {
            Some(bytes) => Ok(copy_from(bytes, from, buf)),
            None => Err(VaultFail::Absent),
        }
    }

    fn save(&mut self, name: &str, from: u64, piece: &[u8]) -> Result<usize, VaultFail>
        requires { from ≤ length (bytes_of (sure_files self.old) name.now) }
        ensures all { IfOk result (λ n. n ≡ length piece.now) }
        ensures saved { IfOk result (λ n. ChangesOnly name.now
            (take from (bytes_of (sure_files self.old) name.now) ++ take n piece.now)
            (sure_files self.old) (sure_files self.new)) }
        ensures cut { OnErr result (ChangesAtMost name.now
            (take from (bytes_of (sure_files self.old) name.now))
            (sure_files self.old) (sure_files self.new)) }
        ensures not_absent { result ≢ Err VaultFail.Absent }
        ensures sure { result ≢ Err VaultFail.Failed }
    {
        match place_of(&self.files, name) {
            Some(place) => replace_end(&mut self.files, place, from as usize, piece)?,
            None => add_file(self.alloc, &mut self.files, name, piece)?,
        }
        Ok(piece.len())
    }
}

/// The place of the first file of that name.
fn place_of(files: &[NamedFile], name: &str) -> Option<usize>
    ensures { MatchOption result (files_of files.now name.now ≡ None)
        (λ place. IsFirstOf files.now name.now place) }
{
    for (place, file) in files.iter().enumerate() {
        if file.name.as_str() == name {
            return Some(place);
        }
    }
    None
}

/// The bytes of the first file of that name.
fn find<'a>(files: &'a [NamedFile], name: &str) -> Option<&'a [u8]>
    ensures { option_map (λ bytes. bytes.now) result ≡ files_of files.now name.now }
{
    let place = place_of(files, name)?;
    Some(files[place].bytes.as_slice())
}

/// Copies bytes from a place on to the front of a buffer, and answers how many.
fn copy_from(bytes: &[u8], from: u64, buf: &mut [u8]) -> usize
    ensures count { result ≤ length buf.old }
    ensures fetched { IsFetched bytes.now from result buf.old buf.new }
{
    if from >= bytes.len() as u64 {
        return 0;
    }
    let rest = &bytes[from as usize..];
    let count = rest.len().min(buf.len());
    buf[..count].copy_from_slice(&rest[..count]);
    count
}

/// Cuts the first file of a name at a place and puts a piece behind. After an error it is cut.
fn replace_end(
    files: &mut Vec<NamedFile>,
    place: usize,
    from: usize,
    piece: &[u8],
) -> Result<(), AllocError>
    requires { place < vec_len files.old }
    ensures ok { OnOk result ((name : List ℕ) → IsFirstOf files.old.items name place
        → ChangesOnly name (take from (bytes_of (files_of files.old.items) name) ++ piece.now)
        (files_of files.old.items) (files_of files.new.items)) }
    ensures err { OnErr result ((name : List ℕ) → IsFirstOf files.old.items name place
        → ChangesOnly name (take from (bytes_of (files_of files.old.items) name))
        (files_of files.old.items) (files_of files.new.items)) }
{
    let file = &mut files[place];
    file.bytes.truncate(from);
    file.bytes.extend_from_slice(piece)?;
    Ok(())
}

/// Adds a file behind the others. After an error they are as before.
fn add_file(
    alloc: Global,
    files: &mut Vec<NamedFile>,
    name: &str,
    bytes: &[u8],
) -> Result<(), AllocError>
    ensures ok { OnOk result (files_of files.old.items name.now ≡ None
        → ChangesOnly name.now bytes.now (files_of files.old.items) (files_of files.new.items)) }
    ensures err { OnErr result (files.new.items ≡ files.old.items) }
{
    let mut held = Vec::new(alloc);
    held.extend_from_slice(bytes)?;
    files.push(NamedFile {
        name: Name::new(alloc, name)?,
        bytes: held,
    })?;
    Ok(())
}
