//! The rules outside the bodies on limits, constants, the start function and results.

ghost use Rattle.std.specs.Prelude.{◌≡◌, ◌++◌, ◌^◌, ◌&&◌, ◌≤◌, Some, map, length, take, nat_le, slice_get};
ghost use Rattle.std.specs.List.{filter_map, list_all};
ghost use Rattle.wa_types.specs.declared.syntax.Import.{Import as ImportValue};
ghost use Rattle.wa_types.specs.declared.values.ValType.TheVariants.{I32};
ghost use Rattle.wa_types.specs.Modules.{imported_table, imported_memory, or_empty};
ghost use Rattle.wa_types.specs.Syntax.{FuncType as PlainType, Elem as PlainElem, GlobalDef as PlainGlobal, Segment as PlainSegment};
ghost use Rattle.wa_types.specs.Validity.{constant_of, is_constant, is_empty_type, limits_fit, start_fits};
ghost use Rattle.wa_types.specs.View.{code, func_type_of, elem_of, global_of, segment_of};
ghost use Rattle.wasm_validate.specs.Outside.{option_all};
ghost use Rattle.validate_bodies.specs.Spaces.{global_type_of};

use crate::holders::Holder;
use validate_bodies::{GlobalType, same_types, type_of_value};
use wa_types::{Elem, FuncType, GlobalDef, Import, ImportKind, Instr, Limits, Segment, ValType};

/// Whether limits are within a range (standard, section 3.2.1).
fn limits_fit(range: u64, limits: Limits) -> bool
    ensures { result ≡ limits_fit range limits }
{
    if u64::from(limits.min) > range {
        return false;
    }
    match limits.max {
        None => true,
        Some(max) => {
            if u64::from(max) > range {
                return false;
            }
            limits.min <= max
        }
    }
}

fn all_fit(range: u64, limits: &[Limits]) -> bool
    ensures { result ≡ list_all (limits_fit range) limits.now }
{
    limits.iter().all(|limits| limits_fit(range, *limits))
}

/// Whether the limits of an import, if it is a table or a memory, are within its range.
fn import_fits(kind: ImportKind) -> bool
    ensures { result ≡ (option_all (limits_fit (2 ^ 32)) (imported_table kind) && option_all (limits_fit 65536) (imported_memory kind)) }
{
    match kind {
        ImportKind::Table(limits) => limits_fit(1 << 32, limits),
        ImportKind::Memory(limits) => limits_fit(65536, limits),
        _ => true,
    }
}

fn imports_fit(imports: &[Import]) -> bool
    ensures { result ≡ (list_all (limits_fit (2 ^ 32)) (filter_map (λ (i : ImportValue). imported_table i.kind) imports.now)
        && list_all (limits_fit 65536) (filter_map (λ (i : ImportValue). imported_memory i.kind) imports.now)) }
{
    imports.iter().all(|import| import_fits(import.kind))
}

/// Tables are within 2^32 entries, memories within 65,536 pages, and no maximum is below its minimum
/// (standard, sections 3.2.3 and 3.2.4).
pub(crate) fn all_limits_fit(imports: &[Import], tables: &[Limits], memories: &[Limits]) -> bool
    ensures { result ≡ (list_all (limits_fit (2 ^ 32)) (filter_map (λ (i : ImportValue). imported_table i.kind) imports.now ++ tables.now)
        && list_all (limits_fit 65536) (filter_map (λ (i : ImportValue). imported_memory i.kind) imports.now ++ memories.now)) }
{
    if !imports_fit(imports) {
        return false;
    }
    if !all_fit(1 << 32, tables) {
        return false;
    }
    all_fit(65536, memories)
}

/// There is one table and one memory at most (standard, section 3.4.10).
pub(crate) fn one_each(tables: usize, memories: usize) -> bool
    ensures { result ≡ (nat_le tables 1 && nat_le memories 1) }
{
    if tables > 1 {
        return false;
    }
    memories <= 1
}

/// Whether the global of this index is a constant of this type.
#[tactic(auto, using(crate::proofs::OutsideLemmas::looking))]
fn is_constant_of(globals: &[GlobalType], x: u32, ty: ValType) -> bool
    ensures { result ≡ constant_of (slice_get (map global_type_of globals.now) x) ty }
{
    let Some(global) = globals.get(x as usize) else {
        return false;
    };
    if global.mutable {
        return false;
    }
    same_types(global.ty, ty)
}

/// Whether code is one constant of this type, or one `global.get` of a constant global of this type (standard,
/// section 3.3.7.2).
#[tactic(auto, using(crate::proofs::ExpressionLemmas::expressions))]
fn is_constant(globals: &[GlobalType], ty: ValType, body: &[Instr]) -> bool
    ensures { result ≡ is_constant (map global_type_of globals.now) ty (code body.now) }
{
    if body.len() != 1 {
        return false;
    }
    match &body[0] {
        Instr::Const(value) => same_types(type_of_value(*value), ty),
        Instr::GlobalGet(x) => is_constant_of(globals, *x, ty),
        _ => false,
    }
}

/// Whether the initialisers or offsets are constant, of their types.
fn are_constant<T: Holder>(globals: &[GlobalType], holders: &[T]) -> bool
    ensures { result ≡ list_all (λ x. is_constant (map global_type_of globals.now) (T.sort x) (T.held x)) holders.now }
{
    holders.iter().all(|holder| is_constant(globals, holder.ty(), holder.expression()))
}

/// Initialisers are constant, and name imported globals alone; offsets are constant, of type i32 (standard,
/// sections 3.4.4 to 3.4.6 and 3.4.10). The first globals are the imported ones.
#[tactic(auto, using(crate::proofs::OutsideLemmas::listing))]
pub(crate) fn all_constant(
    all: &[GlobalType],
    imported: usize,
    globals: &[GlobalDef],
    elems: &[Elem],
    segments: &[Segment],
) -> bool
    requires { imported ≤ length all.now }
    ensures { result ≡ (list_all (λ (g : PlainGlobal). is_constant (map global_type_of (take imported all.now)) g.ty g.init) (map global_of globals.now)
        && list_all (λ (e : PlainElem). is_constant (map global_type_of all.now) I32 e.offset) (map elem_of elems.now)
        && list_all (λ (s : PlainSegment). is_constant (map global_type_of all.now) I32 s.offset) (map segment_of segments.now)) }
{
    if !are_constant(&all[..imported], globals) {
        return false;
    }
    if !are_constant(all, elems) {
        return false;
    }
    are_constant(all, segments)
}

/// Whether the type of this index, which counts as empty if it isn't there, takes and gives nothing.
#[tactic(auto, using(crate::proofs::OutsideLemmas::looking))]
fn is_empty_at(types: &[FuncType], sort: u32) -> bool
    ensures { result ≡ is_empty_type (Some (or_empty (slice_get (map func_type_of types.now) sort))) }
{
    let Some(ty) = types.get(sort as usize) else {
        return true;
    };
    if !ty.params.is_empty() {
        return false;
    }
    ty.results.is_empty()
}

/// The start function is of type `[] -> []` (standard, section 3.4.7).
#[tactic(auto, using(crate::proofs::OutsideLemmas::looking))]
pub(crate) fn start_fits(start: Option<u32>, sorts: &[u32], types: &[FuncType]) -> bool
    ensures { result ≡ start_fits start (map (λ s. or_empty (slice_get (map func_type_of types.now) s)) sorts.now) }
{
    let Some(x) = start else {
        return true;
    };
    let Some(sort) = sorts.get(x as usize) else {
        return false;
    };
    is_empty_at(types, *sort)
}

/// A type has one result at most (standard, section 3.2.2).
#[tactic(auto, using(crate::proofs::OutsideLemmas::listing))]
pub(crate) fn one_result(types: &[FuncType]) -> bool
    ensures { result ≡ list_all (λ (t : PlainType). nat_le (length t.results) 1) (map func_type_of types.now) }
{
    types.iter().all(|ty| ty.results.len() <= 1)
}
