//! The words of a command line.
//!
//! `read_words` answers the command that the words spell, exactly by `Spelled` of `script_model`, or that they spell none. The words are
//! read with `clap` as one simple command with one level of subcommands, `transform`, `host`, `run`, `gen`, `save` and `continue`; ours is
//! what `clap` doesn't say: a LIST's grammar, the two policies, a number's digits, and that one option of imports at most is given.
//!
//! `specs/Grammar.antt` has the command line as `clap` knows it, and what the matches of each say. `proofs/Exact.antt` ties `clap`'s walk
//! over words to `Spelled`: where a parse of the words passes, what its matches say is what the words spell, and where it fails they
//! spell nothing. No command is run here, and no file looked for.
//!
//! - `shapes`, `line`: the commands with their options and places, and the command line, made and parsed with `clap`.
//! - `matches`, `transforms`, `files`: what matches say: of any command, of `transform`, of the others.
//! - `words`: `read_words`.
#![tactic(auto)]

mod files;
mod line;
mod matches;
mod shapes;
mod transforms;
mod words;

pub use words::{Command, WordsFault, read_words};
