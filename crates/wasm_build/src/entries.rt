//! Entries of the global, element, code and data sections, and custom sections, from bytes (standard, sections 5.5.3, 5.5.9 and 5.5.12
//! to 5.5.14).

ghost use Rattle.std.specs.Prelude.{◌≡◌, ◌≤◌, length};
ghost use Rattle.wa_types.specs.Syntax.{GlobalDef as PlainGlobal, Elem as PlainElem, Segment as PlainSegment, Custom as PlainCustom};
ghost use Rattle.wa_types.specs.View.{global_of, elem_of, segment_of, custom_of};
ghost use Rattle.wa_types.specs.Spells.{GlobalOf, ElementOf, SegmentOf};
ghost use Rattle.wa_types.specs.Reading.{IsGlobal, IsElem, IsSegment};
ghost use Rattle.wasm_build.specs.Builds.{Builds, SpelledAs};
ghost use Rattle.wasm_build.specs.BuildsSections.{PlainBody, SpelledBody, body_of, SpelledCustom};

use crate::build_types::BuildFault;
use crate::code::expression;
use crate::entry::{Entry, vector};
use crate::types::{IndexEntry, RunEntry, global_type, name};
use std::alloc::Global;
use wa_types::{Custom, Elem, GlobalDef, Instr, Run, Segment};
use wasm_grammar::Cursor;

/// A defined global (standard, section 5.5.9).
pub struct GlobalEntry;

impl Entry for GlobalEntry {
    type Item = GlobalDef;

    ghost plain = { PlainGlobal };

    ghost view = { global_of };

    ghost spelled = { SpelledAs GlobalOf IsGlobal };

    fn read(alloc: Global, input: &mut Cursor<'_>) -> Result<GlobalDef, BuildFault> {
        let (ty, mutable) = global_type(alloc, input)?;
        let init = expression(alloc, input)?;
        Ok(GlobalDef { ty, mutable, init })
    }
}

/// An element segment (standard, section 5.5.12).
pub struct ElementEntry;

impl Entry for ElementEntry {
    type Item = Elem;

    ghost plain = { PlainElem };

    ghost view = { elem_of };

    ghost spelled = { SpelledAs ElementOf IsElem };

    fn read(alloc: Global, input: &mut Cursor<'_>) -> Result<Elem, BuildFault> {
        let table = input.number()?;
        let offset = expression(alloc, input)?;
        let funcs = vector::<IndexEntry>(alloc, input)?;
        Ok(Elem {
            table,
            offset,
            funcs,
        })
    }
}

/// A function without its type: its locals and its body (standard, section 5.5.13).
#[derive(Drop)]
pub struct Body {
    pub locals: Vec<Run>,
    pub code: Vec<Instr>,
}

/// An entry of the code section (standard, section 5.5.13).
pub struct CodeEntry;

impl Entry for CodeEntry {
    type Item = Body;

    ghost plain = { PlainBody };

    ghost view = { body_of };

    ghost spelled = { SpelledBody };

    fn read(alloc: Global, input: &mut Cursor<'_>) -> Result<Body, BuildFault> {
        let _size = input.number()?;
        let locals = vector::<RunEntry>(alloc, input)?;
        let code = expression(alloc, input)?;
        Ok(Body { locals, code })
    }
}

/// A data segment (standard, section 5.5.14).
pub struct DataEntry;

impl Entry for DataEntry {
    type Item = Segment;

    ghost plain = { PlainSegment };

    ghost view = { segment_of };

    ghost spelled = { SpelledAs SegmentOf IsSegment };

    fn read(alloc: Global, input: &mut Cursor<'_>) -> Result<Segment, BuildFault> {
        let memory = input.number()?;
        let offset = expression(alloc, input)?;
        let count = input.number()?;
        let bytes = Vec::from_slice(alloc, input.take(count)?)?;
        Ok(Segment {
            memory,
            offset,
            bytes,
        })
    }
}

/// A custom section, from its size on, behind the sections of ids up to `after` (standard, section 5.5.3).
pub fn custom(alloc: Global, input: &mut Cursor<'_>, after: u8) -> Result<Custom, BuildFault>
    ensures built { Builds custom_of (SpelledCustom after) result input.old input.new }
    ensures left { length input.new.left ≤ length input.old.left }
{
    let size = input.number()?;
    let mut content = Cursor::new(input.take(size)?);
    let name = name(alloc, &mut content)?;
    let bytes = Vec::from_slice(alloc, content.rest())?;
    Ok(Custom { after, name, bytes })
}
