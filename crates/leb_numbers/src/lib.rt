//! Numbers in LEB128: how they are spelled, read and written (standard, section 5.2.2).
//!
//! Definitions stand in `specs/Leb.antt`: which number stands at the front of bytes (`unsigned_at`, `signed_at`), which bytes spell a
//! number (`IsUnsigned`, `IsSigned`), padded spellings included, and the shortest spelling (`shortest`, `shortest_signed`). `wa_types`
//! hands all of it on.
#![tactic(auto)]

mod leb;

pub use leb::{
    LebFault, Spelling, read_s32, read_s64, read_u32, signed_spelling_laws, unsigned_spelling_laws,
    write_s32, write_s64, write_u32,
};
