//! The module of a program: a prepared one as it is, or an original that is rewritten.

ghost use Rattle.std.specs.Prelude.{◌≡◌, ◌≢◌, ◌⊎◌, ◌≤◌, List, IfOk, IsErrOf, IsSome, None, Ok, Some};
ghost use Rattle.std.specs.Option.{option_map};
ghost use Rattle.std.specs.Result.{IfErr};
ghost use Rattle.call_graph.specs.Lists.{Blames};
ghost use Rattle.call_graph.specs.Settings.{choice_of, policy_of, settings_of};
ghost use Rattle.vault_port.specs.Files.{CannotRead};
ghost use Rattle.wa_types.specs.Pausing.{Choice as PlainChoice, Entry as PlainEntry, list_of};
ghost use Rattle.wa_types.specs.View.{module_of};
ghost use Rattle.script_model.specs.Command.{choice_said, listed_choice};
ghost use Rattle.script_reader.specs.Views.{program_of};
ghost use Rattle.script_command.specs.declared.way.Way.TheVariants.{Host, Run};
ghost use Rattle.script_command.specs.Playing.{HasChoice, policy_for, settings_for};
ghost use Rattle.script_command.specs.Views.{IsBadModuleFor, Loads};

use crate::way::Way;
use call_graph::{Choice, ImportList, ListFault, Policy, Settings};
use module_files::FileFault;
use script_reader::ProgramText;
use script_setup::fetch_prepared;
use std::alloc::{AllocError, Global};
use transform_command::rewritten;
use vault_port::Vault;
use wa_types::Name;
use wasm_validate::Valid;

/// A program's module, as it is hosted; and which of its function imports are listed, where it was rewritten.
#[derive(Drop)]
pub(crate) struct Loaded {
    pub valid: Valid,
    pub listed: Option<Vec<bool>>,
}

/// The module of a program. No file changes.
pub(crate) fn fetch_module<V: Vault>(
    alloc: Global,
    vault: &mut V,
    way: Way,
    text: &ProgramText,
) -> Result<Loaded, FileFault>
    requires { HasChoice (program_of text.now) }
    ensures loaded { IfOk result (λ l. Loads way (V.files vault.old) (program_of text.now) l) }
    ensures refused { IfErr result (λ fault. IsBadModuleFor way (V.files vault.old) (program_of text.now) fault) }
    ensures read { IsErrOf result FileFault.Read
        → CannotRead (V.files vault.old) text.now.path (V.fetch_faults vault.old) (V.fetch_faults vault.new) }
    ensures stays { result ≢ Err FileFault.Read → V.fetch_faults vault.new ≡ V.fetch_faults vault.old }
    ensures kept { V.files vault.new ≡ V.files vault.old }
    ensures faults { V.fetch_faults vault.old ≤ V.fetch_faults vault.new }
    ensures saves { V.save_faults vault.new ≡ V.save_faults vault.old }
{
    match way {
        Way::Host => fetch_as_it_is(alloc, vault, text),
        Way::Run => fetch_rewritten(alloc, vault, text),
    }
}

fn fetch_as_it_is<V: Vault>(
    alloc: Global,
    vault: &mut V,
    text: &ProgramText,
) -> Result<Loaded, FileFault>
    ensures loaded { IfOk result (λ l. Loads Host (V.files vault.old) (program_of text.now) l) }
    ensures refused { IfErr result (λ fault. IsBadModuleFor Host (V.files vault.old) (program_of text.now) fault) }
    ensures read { IsErrOf result FileFault.Read
        → CannotRead (V.files vault.old) text.now.path (V.fetch_faults vault.old) (V.fetch_faults vault.new) }
    ensures stays { result ≢ Err FileFault.Read → V.fetch_faults vault.new ≡ V.fetch_faults vault.old }
    ensures kept { V.files vault.new ≡ V.files vault.old }
    ensures faults { V.fetch_faults vault.old ≤ V.fetch_faults vault.new }
    ensures saves { V.save_faults vault.new ≡ V.save_faults vault.old }
{
    match fetch_prepared(alloc, vault, text.path.as_str()) {
        Ok(valid) => Ok(Loaded {
            valid,
            listed: None,
        }),
        Err(fault) => Err(fault),
    }
}

fn fetch_rewritten<V: Vault>(
    alloc: Global,
    vault: &mut V,
    text: &ProgramText,
) -> Result<Loaded, FileFault>
    requires { HasChoice (program_of text.now) }
    ensures loaded { IfOk result (λ l. Loads Run (V.files vault.old) (program_of text.now) l) }
    ensures refused { IfErr result (λ fault. IsBadModuleFor Run (V.files vault.old) (program_of text.now) fault) }
    ensures read { IsErrOf result FileFault.Read
        → CannotRead (V.files vault.old) text.now.path (V.fetch_faults vault.old) (V.fetch_faults vault.new) }
    ensures stays { result ≢ Err FileFault.Read → V.fetch_faults vault.new ≡ V.fetch_faults vault.old }
    ensures kept { V.files vault.new ≡ V.files vault.old }
    ensures faults { V.fetch_faults vault.old ≤ V.fetch_faults vault.new }
    ensures saves { V.save_faults vault.new ≡ V.save_faults vault.old }
{
    let Ok(settings) = settings_for(alloc, text) else {
        return Err(FileFault::Memory);
    };
    match rewritten(alloc, vault, text.path.as_str(), &settings) {
        Ok(runnable) => Ok(Loaded {
            valid: runnable.module,
            listed: Some(runnable.listed),
        }),
        Err(fault) => Err(fault),
    }
}

// The settings by which a program's original is rewritten.
fn settings_for(alloc: Global, text: &ProgramText) -> Result<Settings, AllocError>
    requires { HasChoice (program_of text.now) }
    ensures settings { IfOk result (λ s. settings_for (program_of text.now) ≡ Some (settings_of s)) }
{
    let choice = choice_for(alloc, &text.list, text.ignore_imports)?;
    Ok(Settings {
        choice,
        ignore_indirect: false,
        policy: policy_for(text.policy_live),
        asserts: false,
    })
}

fn policy_for(live: bool) -> Policy
    ensures { policy_of result ≡ policy_for live }
{
    if live { Policy::Live } else { Policy::All }
}

fn choice_for(
    alloc: Global,
    list: &Option<Name>,
    ignore_imports: bool,
) -> Result<Choice, AllocError>
    requires { (c : PlainChoice) × (choice_said list.now ignore_imports ≡ Some c) }
    ensures { IfOk result (λ choice. choice_said list.now ignore_imports ≡ Some (choice_of choice)) }
{
    match list {
        None => Ok(plain_choice(ignore_imports)),
        Some(text) => listed_choice(alloc, text),
    }
}

// The choice of a LIST that is one.
fn listed_choice(alloc: Global, text: &Name) -> Result<Choice, AllocError>
    requires { (entries : List PlainEntry) × (list_of text.now ≡ Ok entries) }
    ensures { IfOk result (λ choice. listed_choice (list_of text.now) ≡ Some (choice_of choice)) }
{
    match ImportList::parse(alloc, text.as_str()) {
        Ok(list) => Ok(Choice::Listed(list)),
        Err(fault) => Err(want_of_memory(fault)),
    }
}

// The one fault of a text that is a list.
fn want_of_memory(fault: ListFault) -> AllocError
    requires { (entries : List PlainEntry) × Blames fault (Ok entries) }
{
    match fault {
        ListFault::Memory => AllocError,
        _ => unreachable!(),
    }
}

fn plain_choice(ignore_imports: bool) -> Choice
    ensures { choice_said None ignore_imports ≡ Some (choice_of result) }
{
    if ignore_imports {
        Choice::Nobody
    } else {
        Choice::Every
    }
}
