//! Reads scripts: texts that say which programs to run, what answers their imports, and what to show of them.
//!
//! ```text
//! program clock.wasm
//! area 1024 64
//! enter run i32:7
//! answer env.sleep i32:42 ticks 5
//! ```
//!
//! The law: the answer is `script_text` of `script_model`, with the line and the rule of the first fault. Whether a module has such
//! entries or imports isn't asked: that is `script_setup`.
//!
//! The text is read in one pass, which copies a word where it is kept. Each line goes through four steps (`line_says` of `script_model`,
//! the least rule where more are broken): it is UTF-8, and is cut into words at spaces and tabs, in which `%hh` stands for a byte; its
//! first word is one of fourteen; the words behind it are of that line's form; and their numbers, values and bytes are of theirs.
//!
//! - `word_fault`, `words`, `numbers`, `bytes`: why a line says nothing; words, numbers and values in decimal, bytes in hexadecimal digits.
//! - `keywords`, `answers`, `statements`: first words, lines that answer a call, and what a line says.
//! - `script`, `drafts`, `mailboxes`: a script as it was read, the program that is being told, and the mailboxes so far.
//! - `faults`, `lines`, `reading`: why a text is no script, its lines, and `read_script`.
#![tactic(auto)]

mod answers;
mod bytes;
mod drafts;
mod faults;
mod keywords;
mod lines;
mod mailboxes;
mod numbers;
mod reading;
mod script;
mod statements;
mod word_fault;
mod words;

pub use faults::ScriptFault;
pub use numbers::number_within;
pub use reading::read_script;
pub use script::{
    BindText, EntryText, GlobalText, MailboxText, ProgramText, Script, ShowText, StrandText,
    strand_line, unsaved_line,
};
