//! Classes of calls, found by their sets.

ghost use Rattle.std.specs.Prelude.{◌≡◌, ◌≤◌, ◌<◌, ◌^◌, ◌++◌, ◌∷◌, [], All, length, IfOk, OnOk, Vec, Bool};
ghost use Rattle.std.specs.declared.alloc.Global.{Global as AGlobal};
ghost use Rattle.call_frames.specs.PlainFrames.{at_these};
ghost use Rattle.call_frames.specs.Classes.{Finds, FindsMore, KeepByClasses, FewFields};
ghost use Rattle.call_frames.specs.Views.{class_part, class_parts, fields_of, sets_of};

use crate::frames::{CallClass, KeptLocal};
use crate::keeping::kept_locals;
use crate::rows::Calls;
use std::alloc::{AllocError, Global};
use std::collections::BTreeMap;
use wa_types::ValType;

/// Notes one more call of a class.
fn put_number(class: &mut CallClass, call: u32) -> Result<(), AllocError>
    ensures calls { OnOk result (class.new.calls ≡ class.old.calls ++ call ∷ []) }
    ensures fields { class.new.fields ≡ class.old.fields }
{
    class.calls.push(call)?;
    Ok(())
}

/// Puts a class that has one call so far.
fn put_class(
    alloc: Global,
    classes: &mut Vec<CallClass>,
    call: u32,
    fields: Vec<KeptLocal>,
) -> Result<(), AllocError>
    ensures part { OnOk result (class_parts classes.new.items ≡ class_parts classes.old.items ++ at_these (call ∷ []) (fields_of fields.items) ∷ []) }
    ensures small { OnOk result (length fields.items ≤ 50000 → FewFields classes.old.items → FewFields classes.new.items) }
{
    let mut calls = Calls::none(alloc);
    calls.push(call)?;
    classes.push(CallClass { calls, fields })?;
    Ok(())
}

/// Puts the next call into the class of its set. The classes are kept in the order of their sets, so that no choice of sets makes a
/// look-up slow.
fn put_call<'s>(
    alloc: Global,
    found: &mut BTreeMap<&'s [bool], usize>,
    classes: &mut Vec<CallClass>,
    call: u32,
    set: &'s [bool],
    types: &[ValType],
) -> Result<(), AllocError>
    requires size { length set.now ≡ length types.now }
    requires few { length types.now ≤ 50000 }
    requires index { Finds types.now found.old (class_parts classes.old.items) }
    requires small { FewFields classes.old.items }
    ensures more { OnOk result (FindsMore types.now call set.now found.new (class_parts classes.old.items) (class_parts classes.new.items)) }
    ensures small { OnOk result (FewFields classes.new.items) }
{
    match found.get(set) {
        Some(number) => put_number(&mut classes[*number], call),
        None => {
            let fields = kept_locals(alloc, set, types)?;
            if fields.is_empty() {
                return Ok(());
            }
            found.insert(set, classes.len())?;
            put_class(alloc, classes, call, fields)
        }
    }
}

/// The classes of calls that keep these sets.
pub(crate) fn classes_of(
    alloc: Global,
    sets: &[Vec<bool>],
    types: &[ValType],
) -> Result<Vec<CallClass>, AllocError>
    requires sizes { All (λ (set : Vec Bool AGlobal). length set.items ≡ length types.now) sets.now }
    requires few { length types.now ≤ 50000 }
    requires calls { length sets.now < 2 ^ 32 }
    ensures keep { IfOk result (λ v. KeepByClasses types.now (sets_of sets.now) (class_parts v.items)) }
    ensures few { IfOk result (λ v. FewFields v.items) }
{
    let mut found = BTreeMap::new(alloc);
    let mut classes = Vec::new(alloc);
    for call in 0..sets.len() {
        put_call(
            alloc,
            &mut found,
            &mut classes,
            call as u32,
            &sets[call],
            types,
        )?;
    }
    Ok(classes)
}
