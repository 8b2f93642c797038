//! What standard error tells people. It is no part of what the program promises, and where it can't be told nothing more
//! is said.

use crate::unmatched::{tell_list, tell_script};
use crate::wrong::wrong_in;
use command_words::{Command, read_words};
use std::env;
use std::io::Error;
use std::rt::{Env, Files};

/// The commands with their options. `./asyncify` prints them from here where the program isn't there yet.
const HELP: &str = "\
asyncify transform [OPTION ..] IN OUT   rewrites the module in the file IN into the file OUT
    --imports LIST      it may pause at these imports alone: env.read,env.sl* (else at each)
    --ignore-imports    it may pause at none
    --ignore-indirect   you promise that nothing pauses below a call through the table
    --asserts           where something does, its unwind traps: a test behind such calls
    --save all|live     a pause keeps all locals, or those that are read again: less memory
asyncify run SCRIPT     rewrites the modules of a script, and runs them with its answers
asyncify host SCRIPT    runs modules that are rewritten already
asyncify save SCRIPT E SNAP     runs a script for E events, and keeps its programs in SNAP
asyncify continue SCRIPT SNAP   goes on from there
asyncify gen N OUT      writes a module of N functions, 1 to 4000, and runs it
Options stand anywhere behind the command, and -- ends them. More: docs/COMMAND.md
";

/// Tells more of words that are no command: which of them isn't, and what would be one.
pub(crate) fn tell_usage<R: Env + AllocGlobal + Eprint>(rt: &R, words: &[String]) {
    if words.is_empty() && env::args(rt).is_err() {
        let _ = eprintln!(rt; "asyncify: a word isn't UTF-8");
    } else if let Some(wrong) = wrong_in(rt.alloc(), words) {
        let _ = eprintln!(rt; "asyncify: {wrong}");
    }
    let _ = eprint!(rt; "{HELP}");
}

/// Tells what the system said of a call that failed.
pub(crate) fn tell_cause<R: Eprint>(rt: &R, cause: Option<Error>) {
    if let Some(cause) = cause {
        let _ = eprintln!(rt; "asyncify: {cause}");
    }
}

/// Tells what may be wrong with a command that was done.
pub(crate) fn tell_done<R: Files + AllocGlobal + Eprint>(rt: &R, words: &[String]) {
    let Ok(command) = read_words(rt.alloc(), words) else {
        return;
    };
    match command {
        Command::Transform { input, output, .. } => {
            if let Some(list) = list_in(words) {
                tell_list(rt, list, input, output);
            }
        }
        Command::Run { script } => tell_script(rt, script),
        Command::Save { script, .. } => tell_script(rt, script),
        _ => {}
    }
}

/// The value of `--imports` in the words of a `transform`.
fn list_in(words: &[String]) -> Option<&str> {
    let mut is_next = false;
    for word in words {
        let word = word.as_str();
        if is_next {
            return Some(word);
        }
        if word == "--" {
            return None;
        }
        if let Some(list) = word.strip_prefix("--imports=") {
            return Some(list);
        }
        is_next = word == "--imports";
    }
    None
}
