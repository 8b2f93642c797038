//! Goals: what may come next in a file.

ghost use Rattle.std.specs.Prelude.{◌<◌};

/// What a vector counts (standard, section 5.1.3).
#[derive(Clone, Copy)]
pub enum EntryKind {
    Types,
    Imports,
    Functions,
    Tables,
    Memories,
    Globals,
    Exports,
    Elements,
    Bodies,
    Segments,
    ValueTypes,
    Runs,
    Indices,
    Bytes,
}

/// The length of a name's bytes, where there are any.
#[derive(Clone, Copy)]
pub struct TextLen {
    pub count: u32,
    ghost some: { 0 < count },
}

/// What may come next in a file. Those of a sequence wait behind the first.
#[derive(Clone, Copy)]
pub enum Goal {
    /// This byte.
    Exact(u8),
    /// Sections with ids above `last`, where `owed` functions have no body so far (standard, section 5.5.15).
    Sections {
        last: u8,
        owed: u32,
    },
    /// The size of the section with this id.
    Size {
        id: u8,
        last: u8,
        owed: u32,
    },
    /// The first number of a section whose content ends there.
    Head {
        id: u8,
        last: u8,
        owed: u32,
        end: u64,
    },
    /// A content is complete, and ends there.
    Until(u64),
    /// Any bytes up to there.
    Rest(u64),
    /// So many entries.
    Entries(EntryKind, u32),
    /// A number of entries, and the entries.
    Count(EntryKind),
    /// An unsigned number of 32 bits.
    Number,
    /// The length of a name, and its bytes.
    Name,
    ValueType,
    BlockType,
    /// Whether a global is mutable (standard, section 5.3.7).
    Mutable,
    /// What is imported (standard, section 5.5.5).
    ImportKind,
    /// Where an export's index counts (standard, section 5.5.10).
    Space,
    Limits,
    Signed32,
    Signed64,
    /// The number of a copy or a fill of memory, and its zero bytes.
    BulkNumber,
    NameBytes(TextLen),
    Float32,
    Float64,
    /// Instructions up to their end; in the first arm of an if an else may stand (standard, section 5.4.1).
    Code {
        first_arm: bool,
    },
}

// A nested construct keeps one goal for each level.
const _: () = prove!(size_of::<Goal>() == 16);
