//! The slots and result locals of a body, found and numbered.

ghost use Rattle.std.specs.Prelude.{◌≡◌, ◌+◌, ◌<◌, ◌≤◌, ◌^◌, ◌∷◌, [], length, IfOk};
ghost use Rattle.wa_types.specs.Sizes.{code_items};
ghost use Rattle.wa_types.specs.View.{code};
ghost use Rattle.wasm_validate.specs.Walk.{TypedAt};
ghost use Rattle.flatten.specs.Emitting.{SmallTypes};
ghost use Rattle.flatten.specs.Surveying.{names_at};

use crate::marks::numbered;
use crate::numbers::Names;
use crate::survey::{Found, survey_body, visit_result};
use std::alloc::{AllocError, Global};
use wa_types::{Instr, ValType};
use wasm_validate::Typing;

/// The slots and result locals of the body of a function with this result, numbered from the first one on. The walk stands
/// at the body's beginning.
pub fn find_names(
    alloc: Global,
    mut typing: Typing,
    given: Option<ValType>,
    first: u32,
    body: &[Instr],
) -> Result<Names, AllocError>
    requires typed { TypedAt typing (code body.now) }
    requires small { SmallTypes typing.around }
    requires labels { typing.labels ≡ given ∷ [] }
    requires own { typing.own ≡ [] }
    requires under { typing.under ≡ [] }
    requires room { first + code_items (code body.now) + 1 < 2 ^ 32 }
    ensures names { IfOk result (λ n. n ≡ names_at first typing.entry given (code body.now)) }
    ensures few { IfOk result (λ n. length n.slots + length n.results ≤ code_items (code body.now) + 1) }
{
    let mut found = Found {
        slots: Vec::new(alloc),
        results: Vec::new(alloc),
    };
    visit_result(&mut found.results, 0, given)?;
    survey_body(&mut found, &mut typing, 1, body)?;
    let slots = numbered(alloc, first, &found.slots)?;
    let results = numbered(alloc, slots.end(), &found.results)?;
    Ok(Names { slots, results })
}
