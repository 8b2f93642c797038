//! What frames keep, by parts.

use crate::rows::Calls;
use wa_types::ValType;

/// A local that frames keep, and its type.
#[derive(Clone, Copy)]
pub struct KeptLocal {
    pub local: u32,
    pub ty: ValType,
}

/// What the calls with these numbers keep.
#[derive(Drop)]
pub struct CallClass {
    pub calls: Calls,
    pub fields: Vec<KeptLocal>,
}

/// What all calls keep, or what some do.
#[derive(Drop)]
pub enum KeptPart {
    Every(Vec<KeptLocal>),
    These(CallClass),
}

/// The frames of a function: what its calls keep, part by part.
#[derive(Drop)]
pub struct FrameParts {
    pub parts: Vec<KeptPart>,
}
