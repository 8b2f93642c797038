//! The commands, with their options and places.

ghost use Rattle.std.specs.Prelude.{◌≡◌, ◌||◌, IfOk, false};
ghost use Rattle.clap.specs.Words.{app_of, rule_of, shape_of, with_rule};
ghost use Rattle.clap.specs.declared.builder.command.Command.TheViews.{out-Command};
ghost use Rattle.command_words.specs.Grammar.{command_shape, continue_words, flag_rule, gen_words, option_rule, placed_rule, save_words, transform_words};
ghost use Rattle.command_words.specs.Scripts.{script_shape};

use clap::{Arg, ArgAction, Command};
use std::alloc::{AllocError, Global};

/// `transform [--imports LIST] [--ignore-imports] [--ignore-indirect] [--asserts] [--save all|live] IN OUT`
pub fn transform_line<'w>(alloc: Global) -> Result<Command<'w>, AllocError>
    ensures shape { IfOk result (λ c. shape_of c ≡ command_shape transform_words) }
    ensures local { IfOk result (λ c. (out-Command c).has_globals ≡ false) }
{
    let line = with_arg(
        Command::new(alloc, "transform"),
        option_arg(alloc, "imports"),
    )?;
    let line = with_arg(line, flag_arg(alloc, "ignore-imports"))?;
    let line = with_arg(line, flag_arg(alloc, "ignore-indirect"))?;
    let line = with_arg(line, flag_arg(alloc, "asserts"))?;
    let line = with_arg(line, option_arg(alloc, "save"))?;
    with_places(alloc, line, "input", "output")
}

/// `host SCRIPT` and `run SCRIPT`
pub fn script_line<'w>(alloc: Global, name: &'w str) -> Result<Command<'w>, AllocError>
    ensures shape { IfOk result (λ c. shape_of c ≡ script_shape name.now) }
    ensures local { IfOk result (λ c. (out-Command c).has_globals ≡ false) }
{
    Command::new(alloc, name).arg(placed_arg(alloc, "script"))
}

/// `gen N OUT`
pub fn gen_line<'w>(alloc: Global) -> Result<Command<'w>, AllocError>
    ensures shape { IfOk result (λ c. shape_of c ≡ command_shape gen_words) }
    ensures local { IfOk result (λ c. (out-Command c).has_globals ≡ false) }
{
    with_places(alloc, Command::new(alloc, "gen"), "number", "output")
}

/// `save SCRIPT E SNAP`
pub fn save_line<'w>(alloc: Global) -> Result<Command<'w>, AllocError>
    ensures shape { IfOk result (λ c. shape_of c ≡ command_shape save_words) }
    ensures local { IfOk result (λ c. (out-Command c).has_globals ≡ false) }
{
    let line = with_arg(Command::new(alloc, "save"), placed_arg(alloc, "script"))?;
    with_places(alloc, line, "events", "snapshot")
}

/// `continue SCRIPT SNAP`
pub fn continue_line<'w>(alloc: Global) -> Result<Command<'w>, AllocError>
    ensures shape { IfOk result (λ c. shape_of c ≡ command_shape continue_words) }
    ensures local { IfOk result (λ c. (out-Command c).has_globals ≡ false) }
{
    with_places(alloc, Command::new(alloc, "continue"), "script", "snapshot")
}

/// A command with an argument more.
fn with_arg<'w>(line: Command<'w>, arg: Arg<'w>) -> Result<Command<'w>, AllocError>
    requires { arg.global ≡ false }
    ensures shape { IfOk result (λ c. app_of c ≡ with_rule (app_of line.entry) (rule_of arg.entry)) }
    ensures local { IfOk result (λ c. (out-Command c).has_globals ≡ ((out-Command line.entry).has_globals || false)) }
{
    line.arg(arg)
}

/// A command with two places.
fn with_places<'w>(
    alloc: Global,
    line: Command<'w>,
    first: &'w str,
    second: &'w str,
) -> Result<Command<'w>, AllocError>
    ensures shape { IfOk result (λ c. app_of c ≡ with_rule (with_rule (app_of line.entry) (placed_rule first.now)) (placed_rule second.now)) }
    ensures local { IfOk result (λ c. (out-Command c).has_globals ≡ (((out-Command line.entry).has_globals || false) || false)) }
{
    let line = with_arg(line, placed_arg(alloc, first))?;
    with_arg(line, placed_arg(alloc, second))
}

/// An option with a value.
fn option_arg<'w>(alloc: Global, name: &'w str) -> Arg<'w>
    ensures rule { rule_of result ≡ option_rule name.now }
    ensures local { result.global ≡ false }
{
    Arg::new(alloc, name).long(name)
}

fn flag_arg<'w>(alloc: Global, name: &'w str) -> Arg<'w>
    ensures rule { rule_of result ≡ flag_rule name.now }
    ensures local { result.global ≡ false }
{
    Arg::new(alloc, name).long(name).action(ArgAction::SetTrue)
}

/// A file, or a number, by its place.
fn placed_arg<'w>(alloc: Global, id: &'w str) -> Arg<'w>
    ensures rule { rule_of result ≡ placed_rule id.now }
    ensures local { result.global ≡ false }
{
    Arg::new(alloc, id).required(true)
}
