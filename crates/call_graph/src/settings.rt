//! The settings of rewriting: which imports are listed, whether calls through the table count, which locals frames save, and whether
//! calls without a number are tested.

use crate::lists::ImportList;

/// Which function imports are listed: every one, none, or those that a list names.
#[derive(Drop)]
pub enum Choice {
    Every,
    Nobody,
    Listed(ImportList),
}

/// Which locals a frame saves: all of them, or those that may still be read.
#[derive(Clone, Copy)]
pub enum Policy {
    All,
    Live,
}

/// How a module is rewritten: what may pause it, whether calls through the table count, what frames save, and whether a test stands
/// behind each call without a number, which traps where an unwind meets it.
#[derive(Drop)]
pub struct Settings {
    pub choice: Choice,
    pub ignore_indirect: bool,
    pub policy: Policy,
    pub asserts: bool,
}
