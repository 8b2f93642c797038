//! What the matches of a command say.

ghost use Rattle.std.specs.Prelude.{◌≡◌};
ghost use Rattle.clap.specs.Words.{first_of, found_of, kind_of, rows_of};
ghost use Rattle.clap.specs.declared.error.kind.ErrorKind.TheVariants.{OutOfMemory};
ghost use Rattle.command_words.specs.Grammar.{TellsFlag, flag_of};
ghost use Rattle.command_words.specs.Words.{text_of};
ghost use Rattle.command_words.specs.declared.words.WordsFault.TheVariants.{Usage};

use crate::words::WordsFault;
use clap::error::ErrorKind;
use clap::{ArgMatches, Error};

/// Only want of memory is no fault of the words.
pub(crate) fn parse_fault(error: &Error) -> WordsFault
    ensures { result ≡ Usage → kind_of error.now ≡ OutOfMemory → ⊥ }
{
    match error.kind() {
        ErrorKind::OutOfMemory => WordsFault::Memory,
        _ => WordsFault::Usage,
    }
}

/// The value that the words give an argument.
pub(crate) fn text_at<'w>(matches: &ArgMatches<'w>, id: &str) -> Option<&'w str>
    ensures { text_of result ≡ first_of id.now (rows_of (found_of matches.now)) }
{
    matches.get_str(id)
}

/// Whether the words give a flag.
pub(crate) fn flag_at(matches: &ArgMatches<'_>, id: &str) -> bool
    ensures { TellsFlag id.now (rows_of (found_of matches.now)) → result ≡ flag_of id.now (rows_of (found_of matches.now)) }
{
    matches.get_flag(id)
}
