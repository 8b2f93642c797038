//! What is told of functions, spread from each to all its callers.

ghost use Rattle.std.specs.Prelude.{◌≡◌, ◌<◌, ◌↔◌, ℕ, All, Contains, IfOk, OnOk, Some, true, length, slice_get};
ghost use Rattle.call_graph.specs.Graph.{Reached, Tells, callers_at};

use std::alloc::{AllocError, Global};

/// Tells, of functions by their indices, also the callers of those that are told, their callers, and so on. Takes
/// time linear in the callers.
pub(crate) fn spread(
    alloc: Global,
    callers: &[Vec<u32>],
    told: &mut [bool],
) -> Result<(), AllocError>
    requires len { length told.old ≡ length callers.now }
    requires within { (y x : ℕ) → Contains (callers_at callers.now y) x → x < length callers.now }
    ensures { OnOk result ((x : ℕ) → (slice_get told.new x ≡ Some true) ↔ Reached callers.now told.old x) }
{
    let mut pending = all_told(alloc, told)?;
    while let Some(func) = pending.pop() {
        tell(&callers[func], told, &mut pending)?;
    }
    Ok(())
}

/// The indices of those that are told.
fn all_told(alloc: Global, told: &[bool]) -> Result<Vec<usize>, AllocError>
    ensures { IfOk result (λ v. (x : ℕ) → Contains v.items x ↔ (slice_get told.now x ≡ Some true)) }
{
    let mut places = Vec::new(alloc);
    for func in 0..told.len() {
        if !told[func] {
            continue;
        }
        places.push(func)?;
    }
    Ok(places)
}

/// Tells these functions. Those that weren't told are pending then.
fn tell(funcs: &[u32], told: &mut [bool], pending: &mut Vec<usize>) -> Result<(), AllocError>
    requires { All (λ x. x < length told.old) funcs.now }
    ensures { OnOk result (Tells funcs.now told.old told.new pending.old.items pending.new.items) }
{
    for func in funcs {
        let func = *func as usize;
        if told[func] {
            continue;
        }
        told[func] = true;
        pending.push(func)?;
    }
    Ok(())
}
