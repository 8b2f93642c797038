//! Laws of the binary format; they stand apart from `wa_types`, as their proofs are longer than its definitions.
//!
//! What is whole is spelled, bytes spell one file and one module, and what a module is written as spells it. Each law is the
//! contract of a function with an empty body over the definitions of `wa_types`.
//!
//! Beside them stands what a file is judged by besides its spelling: its first float, the numbers that limits bound, and how deep
//! its code nests. Each item of a file shows a part of that by its goal, its value and its place (`Shows` of `specs/Showing.antt`),
//! and `Marks` keeps what was shown so far. That all items together show what the sections hold (`MarksOf` of `specs/Found.antt`)
//! is the law `items_show_the_sections`.
//!
//! - `spelling_laws`: spelling, reading and writing.
//! - `floats`, `marks`, `mark_laws`: which bytes are floats, what was met along a file, and that nothing was missed.
#![tactic(auto)]

mod floats;
mod mark_laws;
mod marks;
mod spelling_laws;

pub use floats::{is_float_op, is_float_type};
pub use mark_laws::items_show_the_sections;
pub use marks::Marks;
pub use spelling_laws::{
    beginnings_are_begun, cut_preambles_fail, faults_spell_nothing, one_file_is_spelled,
    one_module_is_spelled, spelled_is_well_formed, whole_is_spelled, written_is_spelled,
};
