//! Equal entries of a module's sections.

ghost use Rattle.std.specs.Prelude.{◌≡◌, IfOk, map};
ghost use Rattle.wa_types.specs.declared.syntax.Import.{Import as ImportValue};
ghost use Rattle.wa_types.specs.declared.syntax.Export.{Export as ExportValue};
ghost use Rattle.wa_types.specs.Syntax.{FuncType as PlainType, Func as PlainFunc, GlobalDef as PlainGlobal, Elem as PlainElem, Segment as PlainSegment, Custom as PlainCustom};
ghost use Rattle.wa_types.specs.View.{func_type_of, func_of, global_of, elem_of, segment_of, custom_of};

use crate::bodies::{copy_body, copy_func};
use crate::names::Name;
use crate::syntax::{Custom, Elem, Export, Func, FuncType, GlobalDef, Import, Segment};
use std::alloc::{AllocError, Global};

/// What a vector of a module holds, of which there are equal copies.
pub(crate) trait Part: Drop {
    // the part as plain data
    ghost plain: { Type 0 };

    ghost view: { Self → plain };

    /// An equal part.
    fn copied(&self, alloc: Global) -> Result<Self, AllocError>
        ensures { IfOk result (λ part. view part ≡ view self.now) };
}

/// Equal parts, in their order.
#[tactic(auto, using(crate::proofs::Copying::mapping))]
pub(crate) fn copy_each<P: Part>(alloc: Global, parts: &[P]) -> Result<Vec<P>, AllocError>
    ensures { IfOk result (λ v. map P.view v.items ≡ map P.view parts.now) }
{
    let mut out = Vec::with_capacity(alloc, parts.len())?;
    for part in parts {
        out.push(part.copied(alloc)?)?;
    }
    Ok(out)
}

impl Part for FuncType {
    ghost plain = { PlainType };

    ghost view = { func_type_of };

    fn copied(&self, alloc: Global) -> Result<FuncType, AllocError> {
        Ok(FuncType {
            params: Vec::from_slice(alloc, &self.params)?,
            results: Vec::from_slice(alloc, &self.results)?,
        })
    }
}

impl Part for Import {
    ghost plain = { ImportValue };

    ghost view = { λ i. i };

    fn copied(&self, alloc: Global) -> Result<Import, AllocError> {
        Ok(Import {
            module: copy_name(alloc, &self.module)?,
            base: copy_name(alloc, &self.base)?,
            kind: self.kind,
        })
    }
}

impl Part for Func {
    ghost plain = { PlainFunc };

    ghost view = { func_of };

    fn copied(&self, alloc: Global) -> Result<Func, AllocError> {
        copy_func(alloc, self)
    }
}

impl Part for GlobalDef {
    ghost plain = { PlainGlobal };

    ghost view = { global_of };

    fn copied(&self, alloc: Global) -> Result<GlobalDef, AllocError> {
        Ok(GlobalDef {
            ty: self.ty,
            mutable: self.mutable,
            init: copy_body(alloc, &self.init)?,
        })
    }
}

impl Part for Export {
    ghost plain = { ExportValue };

    ghost view = { λ e. e };

    fn copied(&self, alloc: Global) -> Result<Export, AllocError> {
        Ok(Export {
            name: copy_name(alloc, &self.name)?,
            space: self.space,
            index: self.index,
        })
    }
}

impl Part for Elem {
    ghost plain = { PlainElem };

    ghost view = { elem_of };

    fn copied(&self, alloc: Global) -> Result<Elem, AllocError> {
        Ok(Elem {
            table: self.table,
            offset: copy_body(alloc, &self.offset)?,
            funcs: Vec::from_slice(alloc, &self.funcs)?,
        })
    }
}

impl Part for Segment {
    ghost plain = { PlainSegment };

    ghost view = { segment_of };

    fn copied(&self, alloc: Global) -> Result<Segment, AllocError> {
        Ok(Segment {
            memory: self.memory,
            offset: copy_body(alloc, &self.offset)?,
            bytes: Vec::from_slice(alloc, &self.bytes)?,
        })
    }
}

impl Part for Custom {
    ghost plain = { PlainCustom };

    ghost view = { custom_of };

    fn copied(&self, alloc: Global) -> Result<Custom, AllocError> {
        Ok(Custom {
            after: self.after,
            name: copy_name(alloc, &self.name)?,
            bytes: Vec::from_slice(alloc, &self.bytes)?,
        })
    }
}

fn copy_name(alloc: Global, name: &Name) -> Result<Name, AllocError>
    ensures { IfOk result (λ n. n ≡ name.now) }
{
    Name::new(alloc, name.as_str())
}
