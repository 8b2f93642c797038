//! The bounds that source and prepared modules are held to, and which limit is passed.

ghost use Rattle.std.specs.Prelude.{◌≡◌, ◌⊎◌};
ghost use Rattle.wa_types.specs.ModuleBounds.{prepared_bounds, source_bounds};

use std::marker::Model;

/// What a module may hold at most. There are two sets of bounds: those of a source module, and the wider ones of a
/// prepared module, which has the runtime's parts.
#[derive(Drop)]
pub struct Bounds {
    file: u32,
    functions: u32,
    parameters: u32,
    body: u32,
    nesting: u32,
    locals: u32,
}

impl Model for Bounds {
    ghost use Rattle.std.specs.Prelude.{◌≡◌, ◌⊎◌};
    ghost use Rattle.wa_types.specs.ModuleBounds.{ModuleBounds, prepared_bounds, source_bounds};

    ghost Value = { ModuleBounds };

    ghost view = { λ b. record { file = b.file; functions = b.functions; parameters = b.parameters; body = b.body; nesting = b.nesting; locals = b.locals } };

    ghost invariant = { λ b.
        (record { file = b.file; functions = b.functions; parameters = b.parameters; body = b.body; nesting = b.nesting; locals = b.locals } ≡ source_bounds)
        ⊎ (record { file = b.file; functions = b.functions; parameters = b.parameters; body = b.body; nesting = b.nesting; locals = b.locals } ≡ prepared_bounds) };
}

impl Bounds {
    /// The bounds of a source module.
    pub fn source() -> Bounds
        ensures { result ≡ source_bounds }
    {
        Bounds {
            file: 8_388_608,
            functions: 100_000,
            parameters: 1_000,
            body: 1_048_576,
            nesting: 1_000,
            locals: 50_000,
        }
    }

    /// The bounds of a prepared module.
    pub fn prepared() -> Bounds
        ensures { result ≡ prepared_bounds }
    {
        Bounds {
            file: 67_108_864,
            functions: 100_005,
            parameters: 1_000,
            body: 67_108_864,
            nesting: 3_008,
            locals: 50_000,
        }
    }

    /// The most bytes of a module's file.
    pub fn file(&self) -> u32
        ensures file { result ≡ self.now.file }
        ensures columns { (self.now ≡ source_bounds) ⊎ (self.now ≡ prepared_bounds) }
    {
        self.file
    }

    /// The most functions, imported ones included.
    pub fn functions(&self) -> u32
        ensures { result ≡ self.now.functions }
    {
        self.functions
    }

    /// The most parameters of a type.
    pub fn parameters(&self) -> u32
        ensures { result ≡ self.now.parameters }
    {
        self.parameters
    }

    /// The most bytes of a body, its declared size.
    pub fn body(&self) -> u32
        ensures { result ≡ self.now.body }
    {
        self.body
    }

    /// The most constructs around an instruction.
    pub fn nesting(&self) -> u32
        ensures { result ≡ self.now.nesting }
    {
        self.nesting
    }

    /// The most parameters and locals of a function.
    pub fn locals(&self) -> u32
        ensures { result ≡ self.now.locals }
    {
        self.locals
    }
}

/// Which limit is passed.
#[derive(Clone, Copy, Debug, PartialEq, Eq)]
pub enum LimitKind {
    /// Bytes of a module's file.
    File,
    /// Functions, imported ones included.
    Functions,
    /// Parameters of a type.
    Parameters,
    /// Bytes of a body.
    Body,
    /// Parameters and locals of a function.
    Locals,
    /// Bytes of a written module.
    Output,
    /// Bytes of a script.
    Script,
    /// Programs of a script.
    Programs,
}
