//! The locals that the frame of a call saves, and the bytes of a suspended stack.

ghost use Rattle.std.specs.Prelude.{◌≡◌, ◌++◌, ◌+◌, ◌*◌, ◌<◌, ◌≤◌, ◌^◌, [], ℕ, Some, None, MatchOption, IfOk, OnOk, length, map, slice_get};
ghost use Rattle.std.specs.List.{sum_by};
ghost use Rattle.wa_types.specs.Frames.{frame_of, named_places, place_onto, slot_places, width, FrameSize, Place as PlainPlace, Room, Saved};
ghost use Rattle.wa_types.specs.Modules.{defined_at, func_imports};
ghost use Rattle.wa_types.specs.Syntax.{Func as PlainFunc};
ghost use Rattle.wa_types.specs.View.{code, module_of};
ghost use Rattle.call_graph.specs.Settings.{policy_of};
ghost use Rattle.frame_sizes.specs.Frames.{keep_local, keep_slot, places_of, suspended_of};
ghost use Rattle.frame_sizes.specs.Points.{lists_of};
ghost use Rattle.frame_sizes.specs.Slots.{pair_of, pairs_of};

use crate::liveness::is_live_behind;
use crate::locals::locals;
use crate::points::{Visits, visit_body};
use crate::slot_pairs::{Pair, slots, stands_in};
use call_graph::Policy;
use std::alloc::{AllocError, Global};
use wa_types::{ImportKind, Instr, Module, ValType, prune};
use wasm_validate::{Typing, Valid};

/// A local that a frame saves.
#[derive(Clone, Copy)]
pub struct Place {
    pub local: usize,
    pub ty: ValType,
}

/// A suspended activation: its function, counted with the imported ones, and the place of the call where it stands.
#[derive(Clone, Copy)]
pub struct Suspended {
    pub func: u32,
    pub place: usize,
}

/// How many functions a module imports.
fn imported_funcs(module: &Module) -> usize
    ensures { result ≡ func_imports (module_of «module».now) }
{
    module
        .imports
        .iter()
        .filter_map(|import| match import.kind {
            ImportKind::Func(sort) => Some(sort),
            _ => None,
        })
        .count()
}

/// The index of a defined function among the defined ones.
#[tactic(auto, using(crate::proofs::FrameLemmas::defining))]
fn defined(module: &Module, func: u32) -> Option<usize>
    ensures within { MatchOption result (defined_at (module_of «module».now) func ≡ None) (λ i. i < length «module».now.funcs.items) }
    ensures same { MatchOption result (defined_at (module_of «module».now) func ≡ None) (λ i. defined_at (module_of «module».now) func ≡ slice_get (module_of «module».now).funcs i) }
{
    let imports = imported_funcs(module);
    let index = func as usize;
    if index < imports {
        return None;
    }
    if index - imports < module.funcs.len() {
        return Some(index - imports);
    }
    None
}

fn type_width(ty: ValType) -> u128
    ensures value { result ≡ width ty }
    ensures few { result ≤ 8 }
{
    match ty {
        ValType::I32 => 4,
        ValType::I64 => 8,
    }
}

/// The bytes of these locals.
#[tactic(auto, using(crate::proofs::FrameLemmas::summing))]
fn widths(places: &[Place]) -> u128
    ensures value { result ≡ sum_by (λ (p : PlainPlace). width p.ty) (places_of places.now) }
    ensures few { result ≤ 8 * length places.now }
{
    let mut sum = 0;
    for place in places {
        sum += type_width(place.ty);
    }
    sum
}

#[tactic(auto, using(crate::proofs::FrameLemmas::pushing))]
fn put_place(
    places: &mut Vec<Place>,
    keep: bool,
    local: usize,
    ty: ValType,
) -> Result<(), AllocError>
    ensures { OnOk result (places_of places.new.items ≡ places_of places.old.items ++ place_onto keep local ty []) }
{
    if keep {
        places.push(Place { local, ty })?;
        return Ok(());
    }
    Ok(())
}

/// Whether the frame of the call at this place saves a parameter or declared local of a function with this pruned body.
fn keeps_local(
    alloc: Global,
    policy: Policy,
    body: &[Instr],
    place: usize,
    local: usize,
) -> Result<bool, AllocError>
    ensures { IfOk result (λ b. b ≡ keep_local (policy_of policy) (code body.now) place local) }
{
    match policy {
        Policy::All => Ok(true),
        Policy::Live => is_live_behind(alloc, local, body, place),
    }
}

/// Puts the parameters and declared locals that are kept.
fn put_named(
    alloc: Global,
    places: &mut Vec<Place>,
    policy: Policy,
    body: &[Instr],
    place: usize,
    locals: &[ValType],
) -> Result<(), AllocError>
    ensures { OnOk result (places_of places.new.items ≡ places_of places.old.items ++ named_places (keep_local (policy_of policy) (code body.now) place) 0 locals.now) }
{
    for local in 0..locals.len() {
        let keep = keeps_local(alloc, policy, body, place, local)?;
        put_place(places, keep, local, locals[local])?;
    }
    Ok(())
}

/// Whether the frame of the call at this place saves a slot, given the operands just before each call.
#[tactic(auto, using(crate::proofs::FrameLemmas::keeping))]
fn keeps_slot(policy: Policy, calls: &[Vec<ValType>], place: usize, slot: Pair) -> bool
    ensures { result ≡ keep_slot (policy_of policy) (slice_get (lists_of calls.now) place) (pair_of slot) }
{
    match policy {
        Policy::All => true,
        Policy::Live => match calls.get(place) {
            None => false,
            Some(ops) => stands_in(ops, slot.number, slot.ty),
        },
    }
}

/// Puts the slots that are kept, whose locals begin with this one.
fn put_slots(
    places: &mut Vec<Place>,
    policy: Policy,
    calls: &[Vec<ValType>],
    place: usize,
    first: usize,
    slots: &[Pair],
) -> Result<(), AllocError>
    requires { first + length slots.now < 2 ^ 64 }
    ensures { OnOk result (places_of places.new.items ≡ places_of places.old.items ++ slot_places (keep_slot (policy_of policy) (slice_get (lists_of calls.now) place)) first (pairs_of slots.now)) }
{
    for index in 0..slots.len() {
        let slot = slots[index];
        let keep = keeps_slot(policy, calls, place, slot);
        put_place(places, keep, first + index, slot.ty)?;
    }
    Ok(())
}

/// The locals that the frame of the call at this place of a function saves, by its number and its index among the defined ones.
fn saved_at(
    alloc: Global,
    valid: &Valid,
    policy: Policy,
    func: u32,
    index: usize,
    place: usize,
) -> Result<Vec<Place>, AllocError>
    requires within { index < length valid.now.funcs.items }
    requires same { defined_at (module_of valid.now) func ≡ slice_get (module_of valid.now).funcs index }
    ensures { IfOk result (λ v. (f : PlainFunc) → slice_get (module_of valid.now).funcs index ≡ Some f → places_of v.items ≡ Saved (module_of valid.now) (policy_of policy) f place) }
{
    let module = valid.module();
    let source = &module.funcs[index];
    let body = prune(alloc, &source.body)?;
    let mut typing = Typing::start(alloc, valid, func)?;
    let mut visits = Visits {
        points: Vec::new(alloc),
        calls: Vec::new(alloc),
    };
    visit_body(alloc, &mut visits, &mut typing, &body)?;
    let slots = slots(alloc, &visits.points)?;
    let locals = locals(alloc, module, source)?;
    let mut places = Vec::new(alloc);
    put_named(alloc, &mut places, policy, &body, place, &locals)?;
    put_slots(
        &mut places,
        policy,
        &visits.calls,
        place,
        locals.len(),
        &slots,
    )?;
    Ok(places)
}

/// The locals that the frame of the call at this place of a defined function saves, in their order. The function's number counts
/// imported functions, the place counts the calls of its pruned body.
pub fn saved(
    alloc: Global,
    valid: &Valid,
    policy: Policy,
    func: u32,
    place: usize,
) -> Result<Vec<Place>, AllocError>
    requires { (f : PlainFunc) × (defined_at (module_of valid.now) func ≡ Some f) }
    ensures { IfOk result (λ v. (f : PlainFunc) → defined_at (module_of valid.now) func ≡ Some f → places_of v.items ≡ Saved (module_of valid.now) (policy_of policy) f place) }
{
    match defined(valid.module(), func) {
        None => unreachable!(),
        Some(index) => saved_at(alloc, valid, policy, func, index, place),
    }
}

/// The bytes of an activation's frame.
fn frame_size(
    alloc: Global,
    valid: &Valid,
    policy: Policy,
    activation: Suspended,
) -> Result<u128, AllocError>
    ensures value { IfOk result (λ n. n ≡ frame_of (module_of valid.now) (policy_of policy) (suspended_of activation)) }
    ensures few { IfOk result (λ n. n < 2 ^ 100) }
{
    match defined(valid.module(), activation.func) {
        None => Ok(0),
        Some(index) => {
            let places = saved_at(
                alloc,
                valid,
                policy,
                activation.func,
                index,
                activation.place,
            )?;
            Ok(4 + widths(&places))
        }
    }
}

/// The bytes of the area that a suspended stack takes, its two words and its frames; None where they are 2^64 or more.
pub fn room(
    alloc: Global,
    valid: &Valid,
    policy: Policy,
    stack: &[Suspended],
) -> Result<Option<u64>, AllocError>
    ensures { IfOk result (λ o. MatchOption o (2 ^ 64 ≤ Room (module_of valid.now) (policy_of policy) (map suspended_of stack.now))
        (λ n. n ≡ Room (module_of valid.now) (policy_of policy) (map suspended_of stack.now))) }
{
    let mut size = 8;
    for activation in stack {
        let frame = frame_size(alloc, valid, policy, *activation)?;
        let total = size as u128 + frame;
        if total >= 1 << 64 {
            return Ok(None);
        }
        size = total as u64;
    }
    Ok(Some(size))
}
