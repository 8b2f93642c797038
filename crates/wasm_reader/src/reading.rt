//! A file, fetched piece by piece, and read as it comes.

ghost use Rattle.std.specs.Prelude.{◌≡◌, ◌≢◌, ◌⊎◌, ◌+◌, ◌≤◌, ◌<◌, ◌^◌, ℕ, List, All, length, IfOk, IsErrOf, IsSome, None, OnOk};
ghost use Rattle.std.specs.Result.{IfErr};
ghost use Rattle.vault_port.specs.Files.{bytes_of, CannotRead};
ghost use Rattle.vault_port.specs.Told.{WhereTold};
ghost use Rattle.wa_types.specs.ModuleBounds.{ModuleBounds};
ghost use Rattle.wa_types.specs.Sizes.{SizeRule};
ghost use Rattle.wa_types.specs.View.{module_of};
ghost use Rattle.wasm_reader.specs.Answers.{IsAccepted};
ghost use Rattle.wasm_reader.specs.Pieces.{IsFeedFault};
ghost use Rattle.wasm_reader.specs.Held.{HoldsModule, IsToldFault};
ghost use Rattle.wasm_reader.specs.FilePieces.{BeginsWith, IsFaultOf, IsPiece};

use crate::fault::ModuleFault;
use crate::pieces::Reader;
use crate::read_fault::ReadFault;
use std::alloc::Global;
use vault_port::{Vault, VaultFail};
use wa_types::{Bounds, LimitKind, Module};

/// The most bytes that are fetched at once.
const PIECE: usize = 65_536;

/// The module in this file, within these bounds. It is fetched up to its end, or one byte past the limit of a file, in pieces of at
/// most 64 KiB. `Read`: after a fault, or where the vault tells that there is no such file. No file changes.
pub fn read_file<V: Vault>(
    alloc: Global,
    vault: &mut V,
    name: &str,
    bounds: Bounds,
) -> Result<Module, ModuleFault>
    ensures ok { IfOk result (λ r. HoldsModule bounds (V.files vault.old) name.now (module_of r)) }
    ensures sizes { IfOk result (λ r. SizeRule (module_of r)) }
    ensures refused { IfErr result (λ fault. IsToldFault bounds (V.files vault.old) name.now fault) }
    ensures read { IsErrOf result ModuleFault.Read
        → CannotRead (V.files vault.old) name.now (V.fetch_faults vault.old) (V.fetch_faults vault.new) }
    ensures stays { result ≢ Err ModuleFault.Read → V.fetch_faults vault.new ≡ V.fetch_faults vault.old }
    ensures kept { V.files vault.new ≡ V.files vault.old }
    ensures faults { V.fetch_faults vault.old ≤ V.fetch_faults vault.new }
    ensures saves { V.save_faults vault.new ≡ V.save_faults vault.old }
{
    let most = bounds.file() as u64;
    let mut buffer = Vec::new(alloc);
    buffer.resize(PIECE, 0u8)?;
    let mut reader = Reader::new(alloc, bounds);
    let mut done = 0u64;
    'fetching: loop {
        let count = fetch_piece(vault, name, done, most, buffer.as_mut_slice())?;
        if count == 0 {
            return finish(reader);
        }
        done += count as u64;
        if let Err(fault) = reader.feed(&buffer[..count]) {
            return Err(refuse(vault, name, done, most, buffer.as_mut_slice(), fault));
        }
    }
}

// Fetches the next bytes of a file behind the first `done`, up to one byte past the most that a file may have, and answers how many.
fn fetch_piece<V: Vault>(
    vault: &mut V,
    name: &str,
    done: u64,
    most: u64,
    buffer: &mut [u8],
) -> Result<usize, ModuleFault>
    requires done { done ≤ most }
    requires most { most < 2 ^ 32 }
    requires room { 0 < length buffer.old }
    ensures count { IfOk result (λ n. (n ≤ length buffer.new) × (done + n ≤ most + 1)) }
    ensures fetched { IfOk result (λ n. WhereTold (V.files vault.old) (λ all. IsPiece (bytes_of all name.now) done n buffer.new)) }
    ensures there { OnOk result (WhereTold (V.files vault.old) (λ all. IsSome (all name.now))) }
    ensures bytes { All (λ b. b < 2 ^ 8) buffer.new }
    ensures long { length buffer.new ≡ length buffer.old }
    ensures read { IsErrOf result ModuleFault.Read
        → CannotRead (V.files vault.old) name.now (V.fetch_faults vault.old) (V.fetch_faults vault.new) }
    ensures stays { result ≢ Err ModuleFault.Read → V.fetch_faults vault.new ≡ V.fetch_faults vault.old }
    ensures unread { IfErr result (λ fault. fault ≡ ModuleFault.Read) }
    ensures kept { V.files vault.new ≡ V.files vault.old }
    ensures faults { V.fetch_faults vault.old ≤ V.fetch_faults vault.new }
    ensures saves { V.save_faults vault.new ≡ V.save_faults vault.old }
{
    let room = buffer.len().min((most + 1 - done) as usize);
    match vault.fetch(name, done, &mut buffer[..room]) {
        Ok(count) => Ok(count),
        Err(VaultFail::Memory) => unreachable!(),
        Err(_) => Err(ModuleFault::Read),
    }
}

// Why a file is refused whose first `done` bytes met this fault: it is fetched on, since that it can't be read, or is too long, comes first.
fn refuse<V: Vault>(
    vault: &mut V,
    name: &str,
    done: u64,
    most: u64,
    buffer: &mut [u8],
    fault: ReadFault,
) -> ModuleFault
    requires done { done ≤ most + 1 }
    requires most { most < 2 ^ 32 }
    requires room { 0 < length buffer.old }
    requires fault { (front : List ℕ) × (length front ≡ done) × BeginsWith (V.files vault.old) name.now front × IsFeedFault most front fault }
    ensures refused { (b : ModuleBounds) → b.file ≡ most → IsToldFault b (V.files vault.old) name.now result }
    ensures read { result ≡ ModuleFault.Read
        → CannotRead (V.files vault.old) name.now (V.fetch_faults vault.old) (V.fetch_faults vault.new) }
    ensures stays { result ≢ ModuleFault.Read → V.fetch_faults vault.new ≡ V.fetch_faults vault.old }
    ensures kept { V.files vault.new ≡ V.files vault.old }
    ensures faults { V.fetch_faults vault.old ≤ V.fetch_faults vault.new }
    ensures saves { V.save_faults vault.new ≡ V.save_faults vault.old }
{
    if let ReadFault::Memory = fault {
        return ModuleFault::Memory;
    }
    let mut done = done;
    'fetching: while done <= most {
        match fetch_piece(vault, name, done, most, buffer) {
            Ok(0) => return ModuleFault::Refused(fault),
            Ok(count) => done += count as u64,
            Err(fault) => return fault,
        }
    }
    ModuleFault::Refused(ReadFault::Limit {
        what: LimitKind::File,
        found: most + 1,
    })
}

// The module of a file of which all pieces were fed.
fn finish(reader: Reader) -> Result<Module, ModuleFault>
    requires { reader.fault ≡ None }
    ensures ok { IfOk result (λ r. IsAccepted reader.bounds reader.bytes (module_of r)) }
    ensures sizes { IfOk result (λ r. SizeRule (module_of r)) }
    ensures refused { IfErr result (IsFaultOf reader.bounds reader.bytes) }
{
    match reader.finish() {
        Ok(module) => Ok(module),
        Err(ReadFault::Memory) => Err(ModuleFault::Memory),
        Err(fault) => Err(ModuleFault::Refused(fault)),
    }
}
