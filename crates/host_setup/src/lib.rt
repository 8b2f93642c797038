//! What is asked of a prepared module before a program over it can run.
//!
//! A prepared module has the five exports through which a host unwinds and rewinds its stack. The program's area lies in the
//! memory that the module declares, and its entries are exported functions of the module, with arguments of their types.
//! `set_up` answers the entries' functions, or the first fault in a fixed order (`specs/SetUp.antt`).
#![tactic(auto)]

mod entries;
mod exports;
mod faults;
mod spaces;
mod types;

pub use entries::{Entry, set_up};
pub use faults::SetupFault;
