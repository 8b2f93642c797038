//! What was met along a file of that which it is judged by besides its spelling.

ghost use Rattle.std.specs.Prelude.{◌≡◌, nat_le};
ghost use Rattle.wa_types.specs.Marks.{place_if};
ghost use Rattle.wa_types.specs.ModuleBounds.{ModuleBounds};
ghost use Rattle.wa_types.specs.Opcodes.{is_float_op, is_float_type};
ghost use Rattle.file_laws.specs.Showing.{Noted, floats_seen, functions_seen, no_marks, opens_seen, parameters_seen, size_seen};

use crate::floats::{is_float_op, is_float_type};
use wa_types::Bounds;

/// What a file is judged by besides its spelling.
#[derive(Clone, Copy, Drop)]
pub struct Marks {
    /// The offset of the first float type or float opcode.
    pub float: Option<u64>,
    /// The number of functions, imports included.
    pub functions: u64,
    /// The parameters of the first type that has more than the bound.
    pub parameters: Option<u32>,
    /// The declared size of the first body that is above the bound.
    pub body: Option<u32>,
    /// The offset of the first opcode that opens a level past the bound.
    pub deep: Option<u64>,
}

impl Marks {
    /// Nothing was met.
    pub fn none() -> Marks
        ensures { result ≡ no_marks }
    {
        Marks {
            float: None,
            functions: 0,
            parameters: None,
            body: None,
            deep: None,
        }
    }

    /// A value type at this offset.
    pub fn note_type(&mut self, byte: u32, at: u64)
        ensures { (b : ModuleBounds) → Noted b (floats_seen (place_if (is_float_type byte) at)) self.old self.new }
    {
        if self.float.is_none() && is_float_type(byte) {
            self.float = Some(at);
        }
    }

    /// An opcode at this offset.
    pub fn note_op(&mut self, op: u32, at: u64)
        ensures { (b : ModuleBounds) → Noted b (floats_seen (place_if (is_float_op op) at)) self.old self.new }
    {
        if self.float.is_none() && is_float_op(op) {
            self.float = Some(at);
        }
    }

    /// An opcode at this offset that opens a level, inside so many constructs.
    pub fn note_level(&mut self, level: u64, at: u64, bounds: &Bounds)
        ensures { Noted bounds.now (opens_seen (place_if (nat_le bounds.now.nesting level) at)) self.old self.new }
    {
        if self.deep.is_none() && bounds.nesting() as u64 <= level {
            self.deep = Some(at);
        }
    }

    /// More functions.
    pub fn note_functions(&mut self, count: u32)
        ensures { (b : ModuleBounds) → Noted b (functions_seen count) self.old self.new }
    {
        self.functions = self.functions.saturating_add(count as u64);
    }

    /// A type with so many parameters.
    pub fn note_parameters(&mut self, count: u32, bounds: &Bounds)
        ensures { Noted bounds.now (parameters_seen count) self.old self.new }
    {
        if self.parameters.is_none() && bounds.parameters() < count {
            self.parameters = Some(count);
        }
    }

    /// A body of this declared size.
    pub fn note_size(&mut self, size: u32, bounds: &Bounds)
        ensures { Noted bounds.now (size_seen size) self.old self.new }
    {
        if self.body.is_none() && bounds.body() < size {
            self.body = Some(size);
        }
    }
}
