//! Value types, limits, names and types of functions and globals from bytes (standard, sections 5.2.4 and 5.3), and entries that are such a
//! type, an index or a run of locals.

ghost use Rattle.std.specs.Prelude.{ℕ, ◌<◌, ◌≤◌, ◌∷◌, [], length, OnOk};
ghost use Rattle.wa_types.specs.declared.values.ValType.{ValType};
ghost use Rattle.wa_types.specs.declared.syntax.Limits.{Limits};
ghost use Rattle.wa_types.specs.declared.syntax.Run.{Run};
ghost use Rattle.wa_types.specs.Encoding.{mutable_byte};
ghost use Rattle.wa_types.specs.Syntax.{FuncType as PlainFuncType};
ghost use Rattle.wa_types.specs.View.{func_type_of};
ghost use Rattle.wa_types.specs.Spells.{Exactly, Number, ValueType, BlockType, FunctionType, LimitsOf, TableType, RunOf, Text};
ghost use Rattle.wa_types.specs.Reading.{IsValueType, IsFuncType, IsRun};
ghost use Rattle.wasm_build.specs.Builds.{Builds, SpelledAs, Passes, IsResult, SpelledGlobalType};

use crate::build_types::BuildFault;
use crate::entry::{Entry, vector};
use std::alloc::Global;
use wa_types::{FuncType, Limits, Name, Run, ValType};
use wasm_grammar::{Cursor, NotSpelled};

/// This byte.
pub fn tag(input: &mut Cursor<'_>, byte: u8) -> Result<(), NotSpelled>
    ensures passed { Passes (Exactly (byte ∷ [])) result input.old input.new }
    ensures left { length input.new.left ≤ length input.old.left }
    ensures falls { OnOk result (length input.new.left < length input.old.left) }
{
    if input.byte()? == byte {
        Ok(())
    } else {
        Err(NotSpelled)
    }
}

/// A value type (standard, section 5.3.1).
pub struct ValueTypeEntry;

impl Entry for ValueTypeEntry {
    type Item = ValType;

    ghost plain = { ValType };

    ghost view = { λ t. t };

    ghost spelled = { SpelledAs ValueType IsValueType };

    fn read(_alloc: Global, input: &mut Cursor<'_>) -> Result<ValType, BuildFault> {
        match input.byte()? {
            0x7F => Ok(ValType::I32),
            0x7E => Ok(ValType::I64),
            _ => Err(BuildFault::NotSpelled),
        }
    }
}

/// An index (standard, section 5.5.1).
pub struct IndexEntry;

impl Entry for IndexEntry {
    type Item = u32;

    ghost plain = { ℕ };

    ghost view = { λ x. x };

    ghost spelled = { Number };

    fn read(_alloc: Global, input: &mut Cursor<'_>) -> Result<u32, BuildFault> {
        Ok(input.number()?)
    }
}

/// A function type (standard, section 5.3.3).
pub struct TypeEntry;

impl Entry for TypeEntry {
    type Item = FuncType;

    ghost plain = { PlainFuncType };

    ghost view = { func_type_of };

    ghost spelled = { SpelledAs FunctionType IsFuncType };

    fn read(alloc: Global, input: &mut Cursor<'_>) -> Result<FuncType, BuildFault> {
        tag(input, 0x60)?;
        let params = vector::<ValueTypeEntry>(alloc, input)?;
        let results = vector::<ValueTypeEntry>(alloc, input)?;
        Ok(FuncType { params, results })
    }
}

/// The result of a construct (standard, section 5.3.2).
pub fn block_type(input: &mut Cursor<'_>) -> Result<Option<ValType>, BuildFault>
    ensures built { Builds (λ r. r) (SpelledAs BlockType IsResult) result input.old input.new }
    ensures left { length input.new.left ≤ length input.old.left }
{
    match input.byte()? {
        0x40 => Ok(None),
        0x7F => Ok(Some(ValType::I32)),
        0x7E => Ok(Some(ValType::I64)),
        _ => Err(BuildFault::NotSpelled),
    }
}

/// Limits (standard, section 5.3.4), or a memory.
pub struct MemoryEntry;

impl Entry for MemoryEntry {
    type Item = Limits;

    ghost plain = { Limits };

    ghost view = { λ l. l };

    ghost spelled = { LimitsOf };

    fn read(_alloc: Global, input: &mut Cursor<'_>) -> Result<Limits, BuildFault> {
        match input.byte()? {
            0x00 => {
                let min = input.number()?;
                Ok(Limits { min, max: None })
            }
            0x01 => {
                let min = input.number()?;
                let max = input.number()?;
                Ok(Limits {
                    min,
                    max: Some(max),
                })
            }
            _ => Err(BuildFault::NotSpelled),
        }
    }
}

/// A table type (standard, section 5.3.6).
pub struct TableEntry;

impl Entry for TableEntry {
    type Item = Limits;

    ghost plain = { Limits };

    ghost view = { λ l. l };

    ghost spelled = { TableType };

    fn read(alloc: Global, input: &mut Cursor<'_>) -> Result<Limits, BuildFault> {
        tag(input, 0x70)?;
        MemoryEntry::read(alloc, input)
    }
}

// Whether a global is mutable (standard, section 5.3.7).
fn mutability(input: &mut Cursor<'_>) -> Result<bool, BuildFault>
    ensures built { Builds (λ m. m) (λ m. Exactly (mutable_byte m ∷ [])) result input.old input.new }
    ensures left { length input.new.left ≤ length input.old.left }
{
    match input.byte()? {
        0x00 => Ok(false),
        0x01 => Ok(true),
        _ => Err(BuildFault::NotSpelled),
    }
}

/// A global type (standard, section 5.3.7).
pub fn global_type(alloc: Global, input: &mut Cursor<'_>) -> Result<(ValType, bool), BuildFault>
    ensures built { Builds (λ g. g) SpelledGlobalType result input.old input.new }
    ensures left { length input.new.left ≤ length input.old.left }
    ensures falls { OnOk result (length input.new.left < length input.old.left) }
{
    let ty = ValueTypeEntry::read(alloc, input)?;
    let mutable = mutability(input)?;
    Ok((ty, mutable))
}

/// A name (standard, section 5.2.4).
pub fn name(alloc: Global, input: &mut Cursor<'_>) -> Result<Name, BuildFault>
    ensures built { Builds (λ n. n) Text result input.old input.new }
    ensures left { length input.new.left ≤ length input.old.left }
    ensures falls { OnOk result (length input.new.left < length input.old.left) }
{
    let count = input.number()?;
    let bytes = input.take(count)?;
    match str::from_utf8(bytes) {
        Ok(text) => Ok(Name::new(alloc, text)?),
        Err(_) => Err(BuildFault::NotSpelled),
    }
}

/// A run of locals (standard, section 5.5.13).
pub struct RunEntry;

impl Entry for RunEntry {
    type Item = Run;

    ghost plain = { Run };

    ghost view = { λ r. r };

    ghost spelled = { SpelledAs RunOf IsRun };

    fn read(alloc: Global, input: &mut Cursor<'_>) -> Result<Run, BuildFault> {
        let count = input.number()?;
        let ty = ValueTypeEntry::read(alloc, input)?;
        Ok(Run { count, ty })
    }
}
