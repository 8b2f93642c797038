//! The program `asyncify`: `asyncify_app::asyncify` over the files of the system, standard output, and two devices.
//!
//! It ends with the status that the call answers, 9 where there is no memory to make what it is given. What it answers over any disk
//! and any output is told by the contract of `answer_words`, and `main` calls that over the system's. What stands on standard error is for
//! people (`help`): words and files are read once more for it, when all is done.
#![tactic(auto)]

mod answering;
mod help;
mod imports;
mod unmatched;
mod wrong;

use answering::answer_words;
use help::{tell_cause, tell_done, tell_usage};
use std::env;
use std::io::ErrorKind;
use std::process::ExitCode;
use std::rt::{Env, Files};
use system_vaults::{FileVault, OutSink};

/// The status of what was done.
const DONE: u8 = 0;

/// Of words that are no command.
const USAGE: u8 = 2;

/// Of want of memory.
const MEMORY: u8 = 9;

/// Of a file that couldn't be read.
const READ: u8 = 10;

/// Of one that couldn't be written.
const WRITE: u8 = 11;

/// Of standard output that failed.
const OUTPUT: u8 = 12;

fn main(rt: HostRuntime) -> ExitCode {
    ExitCode::from(run(&rt).unwrap_or(MEMORY))
}

/// The status of the program's words, or none where memory is wanting.
fn run<R: Files + Print + Eprint + Env + AllocGlobal + Clone + Drop>(rt: &R) -> Option<u8> {
    let words = words(rt)?;
    let mut vault = FileVault::new(rt.clone().ok()?);
    let mut out = OutSink::new(rt.clone().ok()?);
    let status = answer_words(rt.alloc(), &words, &mut vault, &mut out)?;
    let causes = (vault.cause(), out.cause());
    // A pipe that was written to is closed before anything else is told.
    drop(vault);
    match status {
        DONE => tell_done(rt, &words),
        USAGE => tell_usage(rt, &words),
        READ | WRITE => tell_cause(rt, causes.0),
        OUTPUT => tell_cause(rt, causes.1),
        _ => {}
    }
    Some(status)
}

/// The words behind the program's own name; none at all, so that they spell no command, where one of them isn't
/// UTF-8.
fn words<R: Env + AllocGlobal>(rt: &R) -> Option<Vec<String>> {
    let mut words = Vec::new(rt.alloc());
    match env::args(rt) {
        Ok(args) => {
            for word in args.skip(1) {
                words.push(word).ok()?;
            }
            Some(words)
        }
        Err(error) if error.kind() == ErrorKind::OutOfMemory => None,
        Err(_) => Some(words),
    }
}
