//! Indices outside the bodies: each names something.

ghost use Rattle.std.specs.Prelude.{◌≡◌, ◌++◌, map, nat_lt};
ghost use Rattle.std.specs.List.{flat_map, list_all};
ghost use Rattle.std.specs.Option.{option_to_list};
ghost use Rattle.wa_types.specs.declared.syntax.Space.TheVariants.{Func, Table, Memory, Global};
ghost use Rattle.wa_types.specs.Syntax.{Elem as PlainElem, GlobalDef as PlainGlobal, Segment as PlainSegment};
ghost use Rattle.wa_types.specs.Validity.{all_below, got_global, same_space};
ghost use Rattle.wa_types.specs.View.{code, elem_of, global_of, segment_of};
ghost use Rattle.wasm_validate.specs.Outside.{exported_in, index_in, option_all};

use crate::holders::Holder;
use wa_types::{Elem, Export, GlobalDef, Instr, Segment, Space};

/// Whether each of the indices is below this number of things.
pub(crate) fn all_below(limit: usize, indices: &[u32]) -> bool
    ensures { result ≡ all_below limit indices.now }
{
    indices.iter().all(|x| (*x as usize) < limit)
}

fn same_space(a: Space, b: Space) -> bool
    ensures { result ≡ same_space a b }
{
    match (a, b) {
        (Space::Func, Space::Func) => true,
        (Space::Table, Space::Table) => true,
        (Space::Memory, Space::Memory) => true,
        (Space::Global, Space::Global) => true,
        _ => false,
    }
}

/// Whether an export names a thing below this number, if it is one of that space.
fn is_within(limit: usize, space: Space, export: &Export) -> bool
    ensures { result ≡ option_all (λ x. nat_lt x limit) (index_in space export.now) }
{
    if !same_space(export.space, space) {
        return true;
    }
    (export.index as usize) < limit
}

#[tactic(auto, using(crate::proofs::OutsideLemmas::listing))]
fn exported_below(limit: usize, space: Space, exports: &[Export]) -> bool
    ensures { result ≡ all_below limit (exported_in space exports.now) }
{
    exports.iter().all(|export| is_within(limit, space, export))
}

fn start_below(limit: usize, start: Option<u32>) -> bool
    ensures { result ≡ all_below limit (option_to_list start) }
{
    match start {
        None => true,
        Some(x) => (x as usize) < limit,
    }
}

#[tactic(auto, using(crate::proofs::OutsideLemmas::listing))]
fn elem_funcs_below(limit: usize, elems: &[Elem]) -> bool
    ensures { result ≡ all_below limit (flat_map (λ (e : PlainElem). e.funcs) (map elem_of elems.now)) }
{
    elems.iter().all(|elem| all_below(limit, &elem.funcs))
}

/// The functions that element segments, exports and the start name are there (standard, sections 3.4.5,
/// 3.4.7 and 3.4.8).
#[tactic(auto, using(crate::proofs::OutsideLemmas::joining))]
pub(crate) fn funcs_below(
    limit: usize,
    exports: &[Export],
    start: Option<u32>,
    elems: &[Elem],
) -> bool
    ensures { result ≡ all_below limit (exported_in Func exports.now ++ option_to_list start ++ flat_map (λ (e : PlainElem). e.funcs) (map elem_of elems.now)) }
{
    if !exported_below(limit, Space::Func, exports) {
        return false;
    }
    if !start_below(limit, start) {
        return false;
    }
    elem_funcs_below(limit, elems)
}

#[tactic(auto, using(crate::proofs::OutsideLemmas::listing))]
fn elem_tables_below(limit: usize, elems: &[Elem]) -> bool
    ensures { result ≡ all_below limit (map (λ (e : PlainElem). e.table) (map elem_of elems.now)) }
{
    elems.iter().all(|elem| (elem.table as usize) < limit)
}

/// The tables that element segments and exports name are there (standard, sections 3.4.5 and 3.4.8).
#[tactic(auto, using(crate::proofs::OutsideLemmas::joining))]
pub(crate) fn tables_below(limit: usize, exports: &[Export], elems: &[Elem]) -> bool
    ensures { result ≡ all_below limit (exported_in Table exports.now ++ map (λ (e : PlainElem). e.table) (map elem_of elems.now)) }
{
    if !exported_below(limit, Space::Table, exports) {
        return false;
    }
    elem_tables_below(limit, elems)
}

#[tactic(auto, using(crate::proofs::OutsideLemmas::listing))]
fn segment_memories_below(limit: usize, segments: &[Segment]) -> bool
    ensures { result ≡ all_below limit (map (λ (s : PlainSegment). s.memory) (map segment_of segments.now)) }
{
    segments
        .iter()
        .all(|segment| (segment.memory as usize) < limit)
}

/// The memories that data segments and exports name are there (standard, sections 3.4.6 and 3.4.8).
#[tactic(auto, using(crate::proofs::OutsideLemmas::joining))]
pub(crate) fn memories_below(limit: usize, exports: &[Export], segments: &[Segment]) -> bool
    ensures { result ≡ all_below limit (exported_in Memory exports.now ++ map (λ (s : PlainSegment). s.memory) (map segment_of segments.now)) }
{
    if !exported_below(limit, Space::Memory, exports) {
        return false;
    }
    segment_memories_below(limit, segments)
}

/// Whether a `global.get` that is the only instruction names one of so many globals.
#[tactic(auto, using(crate::proofs::ExpressionLemmas::expressions))]
fn gets_below(limit: usize, body: &[Instr]) -> bool
    ensures { result ≡ all_below limit (got_global (code body.now)) }
{
    if body.len() != 1 {
        return true;
    }
    match &body[0] {
        Instr::GlobalGet(x) => (*x as usize) < limit,
        _ => true,
    }
}

/// Whether the globals that initialisers or offsets of one instruction name are below this number.
fn all_get_below<T: Holder>(limit: usize, holders: &[T]) -> bool
    ensures { result ≡ list_all (λ x. all_below limit (got_global (T.held x))) holders.now }
{
    holders
        .iter()
        .all(|holder| gets_below(limit, holder.expression()))
}

/// The globals that exports, and initialisers and offsets of one instruction, name are there (standard,
/// sections 3.4.8 and 3.3.3.4).
#[tactic(auto, using(crate::proofs::OutsideLemmas::joining))]
pub(crate) fn globals_below(
    limit: usize,
    exports: &[Export],
    globals: &[GlobalDef],
    elems: &[Elem],
    segments: &[Segment],
) -> bool
    ensures { result ≡ all_below limit (exported_in Global exports.now ++ flat_map got_global
        (map (λ (g : PlainGlobal). g.init) (map global_of globals.now) ++ map (λ (e : PlainElem). e.offset) (map elem_of elems.now)
        ++ map (λ (s : PlainSegment). s.offset) (map segment_of segments.now))) }
{
    if !exported_below(limit, Space::Global, exports) {
        return false;
    }
    if !all_get_below(limit, globals) {
        return false;
    }
    if !all_get_below(limit, elems) {
        return false;
    }
    all_get_below(limit, segments)
}
