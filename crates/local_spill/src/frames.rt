//! What a frame keeps, and where.

use wa_types::ValType;

/// A local that a frame keeps, and where it stands in the frame.
#[derive(Clone, Copy)]
pub struct Place {
    pub local: u32,
    pub ty: ValType,
    pub offset: u32,
}

/// The frame of a numbered call: the call's number, the bytes that the frame takes, and what it keeps.
#[derive(Drop)]
pub struct Layout {
    pub index: u32,
    pub size: u32,
    pub places: Vec<Place>,
}
