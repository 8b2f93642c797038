//! `MemVault`: files in memory, whose calls fail where chosen.

ghost use Rattle.std.specs.Prelude.{◌≡◌, ◌≢◌, ◌⊎◌, ◌≤◌, ◌↔◌, ◌++◌, ℕ, List, length, take, Some, None, Contains, option_map, IsSome, IfOk, OnErr, IsErrOf};
ghost use Rattle.vault_port.specs.Counts.{one_more};
ghost use Rattle.vault_port.specs.Files.{Files, bytes_of, IsFetched, ChangesOnly, ChangesAtMost};

use crate::schedule::Schedule;
use crate::{NamedFile, SureVault};
use std::alloc::Global;
use vault_port::{Vault, VaultFail};

/// Files in memory. The calls whose numbers, from 1 over all calls, are in a list that it was made with fail, but
/// for fetches of an absent file.
#[derive(Drop)]
pub struct MemVault {
    kept: SureVault,
    schedule: Schedule,
    fetch_faults: u64,
    save_faults: u64,
}

impl MemVault {
    ghost use Rattle.memory_vaults.specs.InMemory.{files_of, mem_files, vault_schedule, failed_fetches, failed_saves};
    ghost use Rattle.memory_vaults.specs.Schedule.{failing, next_call};

    /// A vault with these files. Of several with one name it has the first.
    pub fn new(alloc: Global, files: Vec<NamedFile>, fail: Vec<u64>) -> MemVault
        ensures files { mem_files result ≡ files_of files.items }
        ensures fail { failing (vault_schedule result) ≡ fail.items }
        ensures calls { next_call (vault_schedule result) ≡ 1 }
        ensures fetches { failed_fetches result ≡ 0 }
        ensures saves { failed_saves result ≡ 0 }
    {
        MemVault {
            kept: SureVault::new(alloc, files),
            schedule: Schedule::new(fail),
            fetch_faults: 0,
            save_faults: 0,
        }
    }

    /// The bytes of a file; None where there is none of that name.
    pub fn file(&self, name: &str) -> Option<&[u8]>
        ensures { option_map (λ bytes. bytes.now) result ≡ mem_files self.now name.now }
    {
        self.kept.file(name)
    }
}

impl Vault for MemVault {
    ghost use Rattle.memory_vaults.specs.InMemory.{mem_files, vault_schedule, failed_fetches, failed_saves};
    ghost use Rattle.memory_vaults.specs.Schedule.{failing, next_call, GoesOn};

    ghost files = { λ vault. Some (mem_files vault) };

    ghost fetch_faults = { failed_fetches };

    ghost save_faults = { failed_saves };

    fn fetch(&mut self, name: &str, from: u64, buf: &mut [u8]) -> Result<usize, VaultFail>
        ensures count { IfOk result (λ n. n ≤ length buf.old) }
        ensures fetched { IfOk result (λ n.
            IsFetched (bytes_of (mem_files self.old) name.now) from n buf.old buf.new) }
        ensures kept { mem_files self.new ≡ mem_files self.old }
        ensures absent { IsErrOf result VaultFail.Absent ↔ (mem_files self.old name.now ≡ None) }
        ensures no_memory { result ≢ Err VaultFail.Memory }

        // A file that is there is refused exactly where the call's number is in the list.
        ensures failed { IsErrOf result VaultFail.Failed
            ↔ (IsSome (mem_files self.old name.now)
            × Contains (failing (vault_schedule self.old)) (next_call (vault_schedule self.old))) }
        ensures called { GoesOn (vault_schedule self.old) (vault_schedule self.new) }
        ensures rises { IsErrOf result VaultFail.Failed
            → failed_fetches self.new ≡ one_more (failed_fetches self.old) }
        ensures stays { result ≢ Err VaultFail.Failed
            → failed_fetches self.new ≡ failed_fetches self.old }
        ensures faults { failed_fetches self.old ≤ failed_fetches self.new }
        ensures saves { failed_saves self.new ≡ failed_saves self.old }
    {
        let fails = self.schedule.next_fails();
        if fails && self.kept.file(name).is_some() {
            self.fetch_faults = self.fetch_faults.saturating_add(1);
            return Err(VaultFail::Failed);
        }
        self.kept.fetch(name, from, buf)
    }

    fn save(&mut self, name: &str, from: u64, piece: &[u8]) -> Result<usize, VaultFail>
        requires { from ≤ length (bytes_of (mem_files self.old) name.now) }
        ensures all { IfOk result (λ n. n ≡ length piece.now) }
        ensures saved { IfOk result (λ n. ChangesOnly name.now
            (take from (bytes_of (mem_files self.old) name.now) ++ take n piece.now)
            (mem_files self.old) (mem_files self.new)) }
        ensures cut { OnErr result (ChangesAtMost name.now
            (take from (bytes_of (mem_files self.old) name.now))
            (mem_files self.old) (mem_files self.new)) }
        ensures not_absent { result ≢ Err VaultFail.Absent }

        // It fails exactly where the call's number is in the list.
        ensures failed { IsErrOf result VaultFail.Failed
            ↔ Contains (failing (vault_schedule self.old)) (next_call (vault_schedule self.old)) }
        ensures called { GoesOn (vault_schedule self.old) (vault_schedule self.new) }
        ensures rises { IsErrOf result VaultFail.Failed
            → failed_saves self.new ≡ one_more (failed_saves self.old) }
        ensures stays { result ≢ Err VaultFail.Failed
            → failed_saves self.new ≡ failed_saves self.old }
        ensures faults { failed_saves self.old ≤ failed_saves self.new }
        ensures fetches { failed_fetches self.new ≡ failed_fetches self.old }
    {
        if self.schedule.next_fails() {
            self.save_faults = self.save_faults.saturating_add(1);
            return Err(VaultFail::Failed);
        }
        self.kept.save(name, from, piece)
    }
}
