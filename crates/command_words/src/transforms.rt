//! A `transform`: its settings and its two files.

ghost use Rattle.std.specs.Prelude.{◌≡◌, None, Some, false, IfOk};
ghost use Rattle.std.specs.Option.{option_map};
ghost use Rattle.clap.specs.Words.{found_of, rows_of};
ghost use Rattle.call_graph.specs.Settings.{choice_of, policy_of};
ghost use Rattle.script_model.specs.Command.{choice_said, policy_said, with_files};
ghost use Rattle.script_model.specs.Spelled.{rewrites};
ghost use Rattle.command_words.specs.Grammar.{TellsFlags, read_of, transform_words};
ghost use Rattle.command_words.specs.Words.{HasItsNumber, Reads, spelled_of, text_of};

use crate::matches::{flag_at, text_at};
use crate::words::{Command, WordsFault};
use call_graph::{Choice, ImportList, ListFault, Policy, Settings};
use clap::ArgMatches;
use std::alloc::Global;

/// The `transform` that the words say, if that is one whole.
pub(crate) fn transform_from<'w>(
    alloc: Global,
    matches: &ArgMatches<'w>,
) -> Result<Command<'w>, WordsFault>
    ensures command { TellsFlags transform_words (rows_of (found_of matches.now)) → Reads spelled_of result (read_of transform_words (rows_of (found_of matches.now))) }
    ensures number { IfOk result HasItsNumber }
{
    let imports = text_at(matches, "imports");
    let ignore_imports = flag_at(matches, "ignore-imports");
    let ignore_indirect = flag_at(matches, "ignore-indirect");
    let asserts = flag_at(matches, "asserts");
    let save = text_at(matches, "save");
    let input = text_at(matches, "input");
    let output = text_at(matches, "output");
    match choice_said(alloc, imports, ignore_imports) {
        Ok(choice) => with_policy(choice, ignore_indirect, asserts, save, input, output),
        Err(fault) => Err(fault),
    }
}

/// What is listed by the two options of imports, of which one at most is given.
fn choice_said(
    alloc: Global,
    imports: Option<&str>,
    ignore_imports: bool,
) -> Result<Choice, WordsFault>
    ensures { Reads choice_of result (choice_said (text_of imports.entry) ignore_imports) }
{
    match imports {
        None => Ok(plain_choice(ignore_imports)),
        Some(text) => {
            if ignore_imports {
                return Err(WordsFault::Usage);
            }
            listed_choice(alloc, text)
        }
    }
}

fn plain_choice(ignore_imports: bool) -> Choice
    ensures { choice_said None ignore_imports ≡ Some (choice_of result) }
{
    if ignore_imports {
        Choice::Nobody
    } else {
        Choice::Every
    }
}

fn listed_choice(alloc: Global, text: &str) -> Result<Choice, WordsFault>
    ensures { Reads choice_of result (choice_said (Some text.now) false) }
{
    match ImportList::parse(alloc, text) {
        Ok(list) => Ok(Choice::Listed(list)),
        Err(ListFault::Memory) => Err(WordsFault::Memory),
        Err(ListFault::EmptyEntry) => Err(WordsFault::Usage),
        Err(ListFault::NoDot) => Err(WordsFault::Usage),
        Err(ListFault::StarInside) => Err(WordsFault::Usage),
    }
}

/// What frames save: all locals, where nothing is said.
fn policy_said(save: Option<&str>) -> Result<Policy, WordsFault>
    ensures { Reads policy_of result (policy_said (text_of save.entry)) }
{
    match save {
        None => Ok(Policy::All),
        Some(name) => named_policy(name),
    }
}

fn named_policy(name: &str) -> Result<Policy, WordsFault>
    ensures { Reads policy_of result (policy_said (Some name.now)) }
{
    if name == "all" {
        return Ok(Policy::All);
    }
    if name == "live" {
        return Ok(Policy::Live);
    }
    Err(WordsFault::Usage)
}

fn with_policy<'w>(
    choice: Choice,
    ignore_indirect: bool,
    asserts: bool,
    save: Option<&'w str>,
    input: Option<&'w str>,
    output: Option<&'w str>,
) -> Result<Command<'w>, WordsFault>
    ensures command { Reads spelled_of result (option_map rewrites (with_files (Some (choice_of choice)) ignore_indirect asserts (policy_said (text_of save.entry)) (text_of input.entry)
        (text_of output.entry))) }
    ensures number { IfOk result HasItsNumber }
{
    match policy_said(save) {
        Ok(policy) => {
            let settings = Settings {
                choice,
                ignore_indirect,
                policy,
                asserts,
            };
            with_files(settings, input, output)
        }
        Err(fault) => Err(fault),
    }
}

fn with_files<'w>(
    settings: Settings,
    input: Option<&'w str>,
    output: Option<&'w str>,
) -> Result<Command<'w>, WordsFault>
    ensures command { Reads spelled_of result (option_map rewrites (with_files (Some (choice_of settings.choice)) settings.ignore_indirect settings.asserts (Some (policy_of settings.policy))
        (text_of input.entry) (text_of output.entry))) }
    ensures number { IfOk result HasItsNumber }
{
    let Some(input) = input else {
        return Err(WordsFault::Usage);
    };
    let Some(output) = output else {
        return Err(WordsFault::Usage);
    };
    Ok(Command::Transform {
        settings,
        input,
        output,
    })
}
