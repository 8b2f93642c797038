//! Sets up the programs of a script: their files, their modules, and what each is given.
//!
//! `fetch_script` answers the script in a file (`specs/Scripts.antt`), `fetch_prepared` the prepared module in a file; both tell why there
//! is none. A host takes a module as it is, if its file spells one, without a float and within the limits of a prepared module, and it
//! is valid (`specs/Prepared.antt`).
//!
//! `set_up_program` answers what the program is given, or the line and the rule of its first fault. What is asked of its lines once the
//! module is there (`specs/SetUpRules.antt`): the areas of all strands, the five exports and the entries, as `host_setup` asks; each
//! `global` line sets imported globals of its value's type; for `run`, no memory is shown that overlaps an area; an import that is bound
//! to a mailbox sends an i32 or receives one; and no two areas overlap. `bindings` tells which device answers each import: that of the last
//! `device` line with its joined name (`specs/Bindings.antt`). Nothing runs here.
//!
//! `copied_entries` are the entries that lines tell, with which a strand is planned; `program_names` and `strand_names` are the names of a
//! strand's lines.
//!
//! - `scripts`, `modules`: scripts and prepared modules in files, or their refusal.
//! - `fault`, `names`, `entries`: why a program isn't set up, the names in its lines, and its entries.
//! - `areas`: the areas of its strands.
//! - `globals`, `binding`, `mail`: imported globals and the lines that set them, imports and the devices of lines, imports that are bound
//!   to mailboxes.
//! - `setting`: `set_up_program`.
#![tactic(auto)]

mod areas;
mod binding;
mod entries;
mod fault;
mod globals;
mod mail;
mod modules;
mod names;
mod scripts;
mod setting;

pub use binding::bindings;
pub use entries::copied_entries;
pub use fault::RuleFault;
pub use modules::fetch_prepared;
pub use names::{program_names, strand_names};
pub use scripts::fetch_script;
pub use setting::{SetUp, set_up_program};
