//! The words of the command line, as a command or none.

ghost use Rattle.std.specs.Prelude.{◌≡◌, Option, map, IfOk};
ghost use Rattle.std.specs.String.{string_bytes};
ghost use Rattle.clap.specs.Words.{subcommand_rows_of};
ghost use Rattle.script_model.specs.Spelled.{Spelled, spelled};
ghost use Rattle.command_words.specs.Grammar.{MatchesSpell};
ghost use Rattle.command_words.specs.Words.{HasItsNumber, Reads, spelled_of};

use crate::files::{continue_from, generate_from, save_from, script_from};
use crate::line::parse_line;
use crate::matches::parse_fault;
use crate::transforms::transform_from;
use call_graph::Settings;
use clap::ArgMatches;
use std::alloc::Global;
use thiserror::Error;

/// A command, with its settings and the names of its files.
#[derive(Drop)]
pub enum Command<'w> {
    /// Rewrite the module in one file into another.
    Transform {
        settings: Settings,
        input: &'w str,
        output: &'w str,
    },
    /// Run the prepared modules of a script.
    Host {
        script: &'w str,
    },
    /// Run the original modules of a script, rewritten.
    Run {
        script: &'w str,
    },
    /// Write the generated module of this many functions, 1 to 4,000, and run it rewritten.
    Gen {
        number: u32,
        output: &'w str,
    },
    /// Run the original modules of a script, rewritten, for this many events at most, 1 to 1,000,000,000, and write a snapshot.
    Save {
        script: &'w str,
        events: u64,
        snap: &'w str,
    },
    /// Run the original modules of a script, rewritten, on from a snapshot.
    Continue {
        script: &'w str,
        snap: &'w str,
    },
}

/// Why no command was read.
#[derive(Clone, Copy, Debug, PartialEq, Eq, Error)]
pub enum WordsFault {
    #[error("out of memory")]
    Memory,
    #[error("the words spell no command")]
    Usage,
}

/// The command that the words spell, if they spell one.
pub fn read_words<'w>(alloc: Global, words: &'w [String]) -> Result<Command<'w>, WordsFault>
    ensures command { Reads spelled_of result (spelled (map string_bytes words.now)) }
    ensures number { IfOk result HasItsNumber }
{
    match parse_line(alloc, words) {
        Ok(matches) => command_from(alloc, &matches),
        Err(error) => Err(parse_fault(&error)),
    }
}

/// The command that was met, with what the words say of it.
fn command_from<'w>(alloc: Global, matches: &ArgMatches<'w>) -> Result<Command<'w>, WordsFault>
    ensures command { (spelling : Option Spelled) → MatchesSpell (subcommand_rows_of matches.now) spelling → Reads spelled_of result spelling }
    ensures number { IfOk result HasItsNumber }
{
    if let Some(matches) = matches.subcommand_matches("transform") {
        return transform_from(alloc, matches);
    }
    if let Some(matches) = matches.subcommand_matches("host") {
        let script = script_from(matches)?;
        return Ok(Command::Host { script });
    }
    if let Some(matches) = matches.subcommand_matches("run") {
        let script = script_from(matches)?;
        return Ok(Command::Run { script });
    }
    if let Some(matches) = matches.subcommand_matches("gen") {
        return generate_from(matches);
    }
    if let Some(matches) = matches.subcommand_matches("save") {
        return save_from(matches);
    }
    match matches.subcommand_matches("continue") {
        Some(matches) => continue_from(matches),
        None => Err(WordsFault::Usage),
    }
}
