//! The programs of a script, one after another.

ghost use Rattle.std.specs.Prelude.{◌≡◌, ◌≤◌, ◌<◌, ◌^◌, ◌++◌, [], ◌∷◌, All, IfOk, List, OnOk, Option, length, map};
ghost use Rattle.std.specs.Result.{IfErr};
ghost use Rattle.vault_port.specs.Files.{Files};
ghost use Rattle.wa_types.specs.View.{module_of};
ghost use Rattle.script_reader.specs.Views.{program_of};
ghost use Rattle.script_setup.specs.SetUpRules.{set_up_rules};
ghost use Rattle.world_hosting.specs.Worlds.{FitsPlan, IsListing};
ghost use Rattle.world_hosting.specs.Views.{listing};
ghost use Rattle.script_command.specs.Playing.{HasChoice, IsModule, asks_all};
ghost use Rattle.script_command.specs.Views.{AreOpened, BlamesLine, BlamesNext, BlamesPrograms, OpensNext, box_names_of};

use crate::modules::{Loaded, fetch_module};
use crate::stop::{Stop, refused, refused_module, unread};
use crate::way::Way;
use module_files::FileFault;
use script_reader::{MailboxText, ProgramText};
use script_setup::{RuleFault, SetUp, set_up_program};
use std::alloc::{AllocError, Global};
use transcript::RefusalKind;
use vault_port::Vault;
use wasm_validate::Valid;

/// What is planned over a program's module: which of its function imports are listed, where that is told, the program's text, and
/// what the set-up rules give it.
#[derive(Drop)]
pub struct Planned {
    pub listed: Option<Vec<bool>>,
    pub text: ProgramText,
    pub given: SetUp,
}

/// Programs in order: the module of each, and what is planned over it.
#[derive(Drop)]
pub struct Programs {
    pub modules: Vec<Valid>,
    pub planned: Vec<Planned>,
}

/// The programs of these texts, of a script with these mailboxes, each over its module and set up before the next is looked at. No file
/// changes.
pub(crate) fn open_programs<V: Vault>(
    alloc: Global,
    vault: &mut V,
    way: Way,
    mailboxes: &[MailboxText],
    texts: Vec<ProgramText>,
) -> Result<Programs, Stop>
    requires few { length texts.items ≤ 16 }
    requires fits { All FitsPlan (map program_of texts.items) }
    requires choices { All HasChoice (map program_of texts.items) }
    ensures opened { IfOk result (λ ps. AreOpened way (box_names_of mailboxes.now) (V.files vault.old) (map program_of texts.items) ps) }
    ensures refused { IfErr result (λ stop. BlamesPrograms way (box_names_of mailboxes.now) (V.files vault.old) (V.fetch_faults vault.old) (V.fetch_faults vault.new) (map program_of texts.items) stop) }
    ensures kept { V.files vault.new ≡ V.files vault.old }
    ensures stays { OnOk result (V.fetch_faults vault.new ≡ V.fetch_faults vault.old) }
    ensures faults { V.fetch_faults vault.old ≤ V.fetch_faults vault.new }
    ensures saves { V.save_faults vault.new ≡ V.save_faults vault.old }
{
    let mut programs = Programs {
        modules: Vec::new(alloc),
        planned: Vec::new(alloc),
    };
    for text in texts {
        if let Err(stop) = open_next(alloc, vault, way, mailboxes, &mut programs, text) {
            return Err(stop);
        }
    }
    Ok(programs)
}

// One program more, behind those that are opened.
fn open_next<V: Vault>(
    alloc: Global,
    vault: &mut V,
    way: Way,
    mailboxes: &[MailboxText],
    programs: &mut Programs,
    text: ProgramText,
) -> Result<(), Stop>
    requires few { length programs.old.planned.items < 16 }
    requires fits { FitsPlan (program_of text) }
    requires choice { HasChoice (program_of text) }
    ensures opened { OnOk result (OpensNext way (box_names_of mailboxes.now) (V.files vault.old) (program_of text) programs.old programs.new) }
    ensures refused { IfErr result (λ stop. BlamesNext way (box_names_of mailboxes.now) (V.files vault.old) (V.fetch_faults vault.old) (V.fetch_faults vault.new) (length programs.old.planned.items) (program_of text) stop) }
    ensures kept { V.files vault.new ≡ V.files vault.old }
    ensures stays { OnOk result (V.fetch_faults vault.new ≡ V.fetch_faults vault.old) }
    ensures faults { V.fetch_faults vault.old ≤ V.fetch_faults vault.new }
    ensures saves { V.save_faults vault.new ≡ V.save_faults vault.old }
{
    let number = programs.planned.len() as u32;
    match fetch_module(alloc, vault, way, &text) {
        Ok(loaded) => plan_program(alloc, way, mailboxes, programs, loaded, text),
        Err(FileFault::Memory) => Err(Stop::Memory),
        Err(FileFault::Read) => Err(unread(alloc, text.path.as_str())),
        Err(FileFault::Refused(kind)) => Err(refused_module(number, kind)),
    }
}

// A program over its module, behind others, once it keeps the set-up rules.
fn plan_program(
    alloc: Global,
    way: Way,
    mailboxes: &[MailboxText],
    programs: &mut Programs,
    loaded: Loaded,
    text: ProgramText,
) -> Result<(), Stop>
    requires fits { FitsPlan (program_of text) }
    requires listing { IsListing (module_of loaded.valid) (listing loaded.listed) }
    ensures opened { (files : Option Files) → IsModule way files (program_of text) (module_of loaded.valid) (listing loaded.listed)
        → OnOk result (OpensNext way (box_names_of mailboxes.now) files (program_of text) programs.old programs.new) }
    ensures refused { IfErr result (λ stop. BlamesLine (set_up_rules (asks_all way) (box_names_of mailboxes.now) (module_of loaded.valid) (program_of text)) stop) }
{
    match set_up_program(alloc, &loaded.valid, mailboxes, &text, way.asks_all()) {
        Ok(given) => put_program(programs, loaded, text, given),
        Err(RuleFault::Memory) => Err(Stop::Memory),
        Err(RuleFault::Rule { line, rule }) => Err(refused(RefusalKind::Script { line, rule })),
    }
}

// A program that is set up, behind others.
fn put_program(
    programs: &mut Programs,
    loaded: Loaded,
    text: ProgramText,
    given: SetUp,
) -> Result<(), Stop>
    ensures modules { OnOk result (programs.new.modules.items ≡ programs.old.modules.items ++ loaded.valid ∷ []) }
    ensures planned { OnOk result (programs.new.planned.items ≡ programs.old.planned.items ++ record { listed = loaded.listed; text = text; given = given } ∷ []) }
    ensures memory { IfErr result (λ stop. stop ≡ Stop.Memory) }
{
    let Loaded { valid, listed } = loaded;
    put(&mut programs.modules, valid)?;
    put(
        &mut programs.planned,
        Planned {
            listed,
            text,
            given,
        },
    )?;
    Ok(())
}

// Puts an item behind others.
fn put<T: Drop>(items: &mut Vec<T>, item: T) -> Result<(), AllocError>
    ensures { OnOk result (items.new.items ≡ items.old.items ++ item ∷ []) }
{
    items.push(item)?;
    Ok(())
}
