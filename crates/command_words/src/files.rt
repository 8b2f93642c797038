//! Commands whose words name a script, a number and a file, or a script and a snapshot.

ghost use Rattle.std.specs.Prelude.{◌≡◌, Some, IfOk};
ghost use Rattle.clap.specs.Words.{found_of, rows_of};
ghost use Rattle.script_model.specs.Spelled.{hosts, number_and_file, runs, script_and_snap, script_events_snap};
ghost use Rattle.command_words.specs.Grammar.{continue_words, gen_words, host_words, read_of, run_words, save_words};
ghost use Rattle.command_words.specs.Words.{HasItsNumber, Reads, spelled_of, text_of};

use crate::matches::text_at;
use crate::words::{Command, WordsFault};
use clap::ArgMatches;
use script_reader::number_within;

/// The most functions of a generated module.
const MOST_FUNCTIONS: u64 = 4_000;

/// The most events of a `save`.
const MOST_EVENTS: u64 = 1_000_000_000;

/// The script of a `host` or a `run`.
pub(crate) fn script_from<'w>(matches: &ArgMatches<'w>) -> Result<&'w str, WordsFault>
    ensures hosts { Reads (λ script. hosts script.now) result (read_of host_words (rows_of (found_of matches.now))) }
    ensures runs { Reads (λ script. runs script.now) result (read_of run_words (rows_of (found_of matches.now))) }
{
    match text_at(matches, "script") {
        Some(script) => Ok(script),
        None => Err(WordsFault::Usage),
    }
}

/// The `gen` that the words say.
pub(crate) fn generate_from<'w>(matches: &ArgMatches<'w>) -> Result<Command<'w>, WordsFault>
    ensures command { Reads spelled_of result (read_of gen_words (rows_of (found_of matches.now))) }
    ensures number { IfOk result HasItsNumber }
{
    number_and_file(text_at(matches, "number"), text_at(matches, "output"))
}

fn number_and_file<'w>(
    number: Option<&'w str>,
    output: Option<&'w str>,
) -> Result<Command<'w>, WordsFault>
    ensures command { Reads spelled_of result (number_and_file (text_of number.entry) (text_of output.entry)) }
    ensures number { IfOk result HasItsNumber }
{
    let Some(number) = number else {
        return Err(WordsFault::Usage);
    };
    let Some(output) = output else {
        return Err(WordsFault::Usage);
    };
    gen_of(number, output)
}

fn gen_of<'w>(number: &str, output: &'w str) -> Result<Command<'w>, WordsFault>
    ensures command { Reads spelled_of result (number_and_file (Some number.now) (Some output.now)) }
    ensures number { IfOk result HasItsNumber }
{
    match number_within(number, 1, MOST_FUNCTIONS) {
        None => Err(WordsFault::Usage),
        Some(number) => Ok(Command::Gen {
            number: number as u32,
            output,
        }),
    }
}

/// The `save` that the words say.
pub(crate) fn save_from<'w>(matches: &ArgMatches<'w>) -> Result<Command<'w>, WordsFault>
    ensures command { Reads spelled_of result (read_of save_words (rows_of (found_of matches.now))) }
    ensures number { IfOk result HasItsNumber }
{
    script_events_snap(
        text_at(matches, "script"),
        text_at(matches, "events"),
        text_at(matches, "snapshot"),
    )
}

fn script_events_snap<'w>(
    script: Option<&'w str>,
    events: Option<&'w str>,
    snap: Option<&'w str>,
) -> Result<Command<'w>, WordsFault>
    ensures command { Reads spelled_of result (script_events_snap (text_of script.entry) (text_of events.entry) (text_of snap.entry)) }
    ensures number { IfOk result HasItsNumber }
{
    let Some(script) = script else {
        return Err(WordsFault::Usage);
    };
    let Some(events) = events else {
        return Err(WordsFault::Usage);
    };
    let Some(snap) = snap else {
        return Err(WordsFault::Usage);
    };
    save_of(script, events, snap)
}

fn save_of<'w>(script: &'w str, events: &str, snap: &'w str) -> Result<Command<'w>, WordsFault>
    ensures command { Reads spelled_of result (script_events_snap (Some script.now) (Some events.now) (Some snap.now)) }
    ensures number { IfOk result HasItsNumber }
{
    match number_within(events, 1, MOST_EVENTS) {
        None => Err(WordsFault::Usage),
        Some(events) => Ok(Command::Save {
            script,
            events,
            snap,
        }),
    }
}

/// The `continue` that the words say.
pub(crate) fn continue_from<'w>(matches: &ArgMatches<'w>) -> Result<Command<'w>, WordsFault>
    ensures command { Reads spelled_of result (read_of continue_words (rows_of (found_of matches.now))) }
    ensures number { IfOk result HasItsNumber }
{
    script_and_snap(text_at(matches, "script"), text_at(matches, "snapshot"))
}

fn script_and_snap<'w>(
    script: Option<&'w str>,
    snap: Option<&'w str>,
) -> Result<Command<'w>, WordsFault>
    ensures command { Reads spelled_of result (script_and_snap (text_of script.entry) (text_of snap.entry)) }
    ensures number { IfOk result HasItsNumber }
{
    let Some(script) = script else {
        return Err(WordsFault::Usage);
    };
    let Some(snap) = snap else {
        return Err(WordsFault::Usage);
    };
    Ok(Command::Continue { script, snap })
}
