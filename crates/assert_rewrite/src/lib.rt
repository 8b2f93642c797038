//! Writes asserts, tests behind calls that have no number, which trap where the state is 1, and the bytes of a module with them.
//!
//! ```text
//! local.get 0  call_indirect 3        ==>        local.get 0  call_indirect 3  global.get s  i32.const 1  i32.eq  if unreachable end
//! ```
//!
//! What code with asserts is, `guard_form` says (`specs/Asserts.antt`); what it does, and what it owes its original, `assert_laws`. A
//! caller may rely on this: the answers are that code, exactly. A function that can't pause gets a test behind each call that can be
//! reached; a body that was written, behind each call whose callee has no number, as `flow_rewrite` numbers calls.
//!
//! `module_rewrite` rewrites the module; here each function of the answer gets its asserts, is put as an entry of the code section and
//! dropped, so that beside the rewritten module one function with asserts is in memory, and the other sections are written around the
//! entries. The bytes are those of a module that `EmittedWithAsserts` of `assert_laws` describes, which is the original, rewritten with
//! asserts (`RewritesWithAsserts`), or that is said to be too long, with its length; else the first function with too many locals is told.
//!
//! - `calls`: which instructions get a test; `tests`: the test, put behind others.
//! - `written`: written bodies; `reached`: functions that can't pause.
//! - `asserting`: functions with asserts, as entries of the code section; `emitting`: the bytes of the module.
#![tactic(auto)]

mod asserting;
mod calls;
mod emitting;
mod reached;
mod tests;
mod written;

pub use emitting::emit_with_asserts;
pub use reached::assert_plain;
pub use written::assert_free;
