//! What holds an expression: a global its initialiser, a segment its offset.

ghost use Rattle.std.specs.Prelude.{◌≡◌};
ghost use Rattle.wa_types.specs.declared.syntax.Elem.{Elem as ElemValue};
ghost use Rattle.wa_types.specs.declared.syntax.GlobalDef.{GlobalDef as GlobalValue};
ghost use Rattle.wa_types.specs.declared.syntax.Segment.{Segment as SegmentValue};
ghost use Rattle.wa_types.specs.declared.values.ValType.{ValType};
ghost use Rattle.wa_types.specs.declared.values.ValType.TheVariants.{I32};
ghost use Rattle.wa_types.specs.Syntax.{Code};
ghost use Rattle.wa_types.specs.View.{code};

use wa_types::{Elem, GlobalDef, Instr, Segment, ValType};

/// What holds an expression.
pub(crate) trait Holder {
    // the expression,
    ghost held: { Self → Code };

    // and what it has to give
    ghost sort: { Self → ValType };

    /// The expression.
    fn expression(&self) -> &[Instr]
        ensures { code result.now ≡ held self.now };

    /// The type of its value.
    fn ty(&self) -> ValType
        ensures { result ≡ sort self.now };
}

impl Holder for GlobalDef {
    ghost held = { λ (g : GlobalValue). code g.init.items };

    ghost sort = { λ (g : GlobalValue). g.ty };

    fn expression(&self) -> &[Instr] {
        &self.init
    }

    fn ty(&self) -> ValType {
        self.ty
    }
}

impl Holder for Elem {
    ghost held = { λ (e : ElemValue). code e.offset.items };

    ghost sort = { λ (e : ElemValue). I32 };

    fn expression(&self) -> &[Instr] {
        &self.offset
    }

    fn ty(&self) -> ValType {
        ValType::I32
    }
}

impl Holder for Segment {
    ghost held = { λ (s : SegmentValue). code s.offset.items };

    ghost sort = { λ (s : SegmentValue). I32 };

    fn expression(&self) -> &[Instr] {
        &self.offset
    }

    fn ty(&self) -> ValType {
        ValType::I32
    }
}
