//! A script, opened with all its programs, or why it is not played.

ghost use Rattle.std.specs.Prelude.{◌≡◌, ◌≤◌, ℕ, List, IfOk, OnOk, map};
ghost use Rattle.std.specs.Result.{IfErr};
ghost use Rattle.script_model.specs.Script.{strand_line};
ghost use Rattle.script_reader.specs.Views.{program_of, script_of};
ghost use Rattle.script_setup.specs.Scripts.{IsScript};
ghost use Rattle.script_command.specs.Playing.{HasScript};
ghost use Rattle.script_command.specs.Views.{AreOpened, Blames, BlamesPrograms, BlamesScript, IsReady, Opens, box_names_of};

use crate::programs::{Programs, open_programs};
use crate::stop::{Stop, refused, unread};
use crate::way::Way;
use module_files::FileFault;
use script_reader::{MailboxText, Script, strand_line};
use script_setup::fetch_script;
use std::alloc::Global;
use vault_port::Vault;
use wa_model::Detach;
use world_hosting::scripts_fit;

/// A script's programs, all set up over their modules, the devices that it takes out, its mailboxes, and its first `strand` line, where it has one.
#[derive(Drop)]
pub struct Opened {
    pub programs: Programs,
    pub detaches: Vec<Detach>,
    pub mailboxes: Vec<MailboxText>,
    pub strand: Option<u32>,
}

/// Reads a script, then each of its programs in order: its module, and then its set-up rules. Answers them, or why the first that
/// isn't set up can't be. No file changes.
pub(crate) fn open_script<V: Vault>(
    alloc: Global,
    vault: &mut V,
    way: Way,
    script: &str,
) -> Result<Opened, Stop>
    ensures opened { IfOk result (λ o. Opens way (V.files vault.old) script.now o) }
    ensures ready { IfOk result IsReady }
    ensures refused { IfErr result (λ stop. Blames way (V.files vault.old) (V.fetch_faults vault.old) (V.fetch_faults vault.new) script.now stop) }
    ensures kept { V.files vault.new ≡ V.files vault.old }
    ensures stays { OnOk result (V.fetch_faults vault.new ≡ V.fetch_faults vault.old) }
    ensures faults { V.fetch_faults vault.old ≤ V.fetch_faults vault.new }
    ensures saves { V.save_faults vault.new ≡ V.save_faults vault.old }
{
    match read_whole(alloc, vault, script) {
        Ok(whole) => open_whole(alloc, vault, way, whole),
        Err(stop) => Err(stop),
    }
}

/// The script in a file, or why there is none. No file changes.
pub(crate) fn read_whole<V: Vault>(
    alloc: Global,
    vault: &mut V,
    script: &str,
) -> Result<Script, Stop>
    ensures script { IfOk result (λ whole. HasScript (V.files vault.old) script.now (script_of whole)) }
    ensures refused { IfErr result (λ stop. BlamesScript (V.files vault.old) (V.fetch_faults vault.old) (V.fetch_faults vault.new) script.now stop) }
    ensures kept { V.files vault.new ≡ V.files vault.old }
    ensures stays { OnOk result (V.fetch_faults vault.new ≡ V.fetch_faults vault.old) }
    ensures faults { V.fetch_faults vault.old ≤ V.fetch_faults vault.new }
    ensures saves { V.save_faults vault.new ≡ V.save_faults vault.old }
{
    match fetch_script(alloc, vault, script) {
        Ok(whole) => Ok(whole),
        Err(FileFault::Memory) => Err(Stop::Memory),
        Err(FileFault::Read) => Err(unread(alloc, script)),
        Err(FileFault::Refused(kind)) => Err(refused(kind)),
    }
}

/// The programs of a script that was read, in order, the devices that it takes out, its mailboxes and its first `strand` line; or why the first program
/// that isn't set up can't be. No file changes.
pub(crate) fn open_whole<V: Vault>(
    alloc: Global,
    vault: &mut V,
    way: Way,
    whole: Script,
) -> Result<Opened, Stop>
    requires { (bytes : List ℕ) × IsScript bytes (script_of whole) }
    ensures opened { IfOk result (λ o. AreOpened way (box_names_of whole.mailboxes.items) (V.files vault.old) (map program_of whole.programs.items) o.programs) }
    ensures detaches { IfOk result (λ o. o.detaches.items ≡ whole.detaches.items) }
    ensures mailboxes { IfOk result (λ o. o.mailboxes.items ≡ whole.mailboxes.items) }
    ensures strand { IfOk result (λ o. o.strand ≡ strand_line (script_of whole)) }
    ensures ready { IfOk result IsReady }
    ensures refused { IfErr result (λ stop. BlamesPrograms way (box_names_of whole.mailboxes.items) (V.files vault.old) (V.fetch_faults vault.old) (V.fetch_faults vault.new)
        (map program_of whole.programs.items) stop) }
    ensures kept { V.files vault.new ≡ V.files vault.old }
    ensures stays { OnOk result (V.fetch_faults vault.new ≡ V.fetch_faults vault.old) }
    ensures faults { V.fetch_faults vault.old ≤ V.fetch_faults vault.new }
    ensures saves { V.save_faults vault.new ≡ V.save_faults vault.old }
{
    scripts_fit();
    let strand = strand_line(&whole);
    let Script {
        programs,
        detaches,
        mailboxes,
    } = whole;
    match open_programs(alloc, vault, way, &mailboxes, programs) {
        Ok(programs) => Ok(Opened {
            programs,
            detaches,
            mailboxes,
            strand,
        }),
        Err(stop) => Err(stop),
    }
}
