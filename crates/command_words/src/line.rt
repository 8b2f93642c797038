//! The command line as one command of `clap` with one level of subcommands.

ghost use Rattle.std.specs.Prelude.{◌≡◌, IfErr, IfOk, None, false, map};
ghost use Rattle.std.specs.String.{string_bytes};
ghost use Rattle.clap.specs.Simple.{Shape};
ghost use Rattle.clap.specs.Words.{app_of, kind_of, shape_of, subcommand_rows_of, with_subcommand};
ghost use Rattle.clap.specs.declared.builder.command.Command.TheViews.{out-Command};
ghost use Rattle.clap.specs.declared.error.kind.ErrorKind.TheVariants.{OutOfMemory};
ghost use Rattle.script_model.specs.Spelled.{spelled};
ghost use Rattle.command_words.specs.Grammar.{MatchesSpell, line};
ghost use Rattle.command_words.specs.Line.{bare_line};

use crate::shapes::{continue_line, gen_line, save_line, script_line, transform_line};
use clap::{ArgMatches, Command, Error};
use std::alloc::{AllocError, Global};

/// What `clap` makes of the words. An error other than want of memory says that they spell nothing.
pub fn parse_line<'w>(alloc: Global, words: &'w [String]) -> Result<ArgMatches<'w>, Error>
    ensures spells { IfOk result (λ m. MatchesSpell (subcommand_rows_of m) (spelled (map string_bytes words.now))) }
    ensures fails { IfErr result (λ e. (kind_of e ≡ OutOfMemory → ⊥) → spelled (map string_bytes words.now) ≡ None) }
{
    let line = command_line(alloc)?;
    line.try_get_matches_from(words)
}

/// The line with its six commands.
fn command_line<'w>(alloc: Global) -> Result<Command<'w>, AllocError>
    ensures { IfOk result (λ c. app_of c ≡ line) }
{
    let line = with_command(bare_line(alloc), transform_line(alloc))?;
    let line = with_command(line, script_line(alloc, "host"))?;
    let line = with_command(line, script_line(alloc, "run"))?;
    let line = with_command(line, gen_line(alloc))?;
    let line = with_command(line, save_line(alloc))?;
    with_command(line, continue_line(alloc))
}

/// A line with one command more, where that could be made.
fn with_command<'w>(
    line: Command<'w>,
    command: Result<Command<'w>, AllocError>,
) -> Result<Command<'w>, AllocError>
    requires { IfOk command (λ c. (out-Command c).has_globals ≡ false) }
    ensures { (shape : Shape) → IfOk command.entry (λ c. shape_of c ≡ shape)
        → IfOk result (λ c. app_of c ≡ with_subcommand (app_of line.entry) shape) }
{
    line.subcommand(command?)
}

/// All words are arguments. No word asks for help, and a command has to come.
fn bare_line<'w>(alloc: Global) -> Command<'w>
    ensures { app_of result ≡ bare_line }
{
    Command::new(alloc, "asyncify")
        .no_binary_name(true)
        .disable_help_flag(true)
        .disable_help_subcommand(true)
        .subcommand_required(true)
}
