//! The linear memory of an instance: bytes in pages of 65,536, at most 1,024 pages (standard, section 4.2.8).
//!
//! Contracts see a `Pages` as a `Memory` of `wa_types`: the list of its bytes and its declared maximum. The one
//! law: each call answers what the definition of the same deed says (`number_at` for `load`, `with_number` for
//! `store`, `with_piece` for `write`, `copied` for `copy`, `filled_with` for `fill`, `grown` for `grow`), and a call that refuses leaves the memory as it was.
//!
//! A caller may rely on whole pages, 1,024 at most, from `size`. Addresses are taken without wrapping, and only
//! `new` and `grow` take memory of the system. Opcodes are none of this crate's matter: what a load makes of
//! the number that it reads is said by `wa_ops`.
#![tactic(auto)]

mod pages;

pub use pages::{Pages, page_bound};
