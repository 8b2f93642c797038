//! Writes the code of frames that differ by call, instruction by instruction.
//!
//! `saving` and `restoring` are the codes of `call_frames` for parts that are told by numbers of calls; what they do is proved there.
//! What all calls keep is stored and loaded at fixed offsets from the scratch local. A part that some calls keep stands under one test
//! of the call index, and moves the scratch local, so that later offsets stay.
//!
//! A test is 1 at some calls and 0 at all others: row by row, or by words whose bits tell which of 64 calls are meant, where that is
//! shorter (`at_calls` of `call_frames`). The size of the call's frame is what all calls keep (`shared_of`), and the sizes of the call's
//! own parts, added up part by part, or by the binary digits of the calls' sizes where that isn't longer (`put_size`).
//!
//! - `counting`, `words`, `testing`: how many instructions a test has, tests by words, and code under a test.
//! - `fields`, `ends`, `digits`, `measuring`, `sizing`: sizes of fields, what rows of calls add, the digits of calls' sizes, and the code that tells
//!   a frame's size.
//! - `putting`, `locating`, `storing`, `loading`: the scratch local and the location moved, parts stored and loaded.
//! - `spilling`: both codes.
#![tactic(auto)]

mod counting;
mod digits;
mod ends;
mod fields;
mod loading;
mod locating;
mod measuring;
mod putting;
mod sizing;
mod spilling;
mod storing;
mod testing;
mod words;

pub use spilling::{restoring, saving};
