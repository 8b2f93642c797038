//! The statements of a whole function body, from where the walk of its types begins.

ghost use Rattle.std.specs.Prelude.{◌≡◌, ◌+◌, ◌<◌, ◌^◌, ◌∷◌, [], length, IfOk};
ghost use Rattle.wa_types.specs.Sizes.{code_items};
ghost use Rattle.wa_types.specs.View.{code};
ghost use Rattle.run_theory.specs.FlatView.{stmts};
ghost use Rattle.wasm_validate.specs.Walk.{TypedAt};
ghost use Rattle.flatten.specs.Emitting.{flat_at, Ready, SmallTypes};

use crate::body::body_stmts;
use crate::constructs::label_local;
use crate::numbers::Names;
use crate::position::Position;
use std::alloc::{AllocError, Global};
use wa_model::Stmt;
use wa_types::{Instr, ValType};
use wasm_validate::Typing;

/// Where flattening begins in a body of a function with this result.
#[tactic(auto, using(crate::proofs::StartLemmas::beginning))]
fn beginning<'m>(
    alloc: Global,
    typing: Typing<'m>,
    names: &Names,
    given: Option<ValType>,
) -> Result<Position<'m>, AllocError>
    requires labels { typing.labels ≡ given ∷ [] }
    requires own { typing.own ≡ [] }
    requires under { typing.under ≡ [] }
    ensures ready { IfOk result (λ p. Ready names.now p) }
    ensures typing { IfOk result (λ p. p.typing ≡ typing.entry) }
    ensures labels { IfOk result (λ p. length p.labels.items ≡ 1) }
{
    let mut labels = Vec::new(alloc);
    labels.push(label_local(names, 0, given))?;
    Ok(Position {
        alloc,
        typing,
        slots: Vec::new(alloc),
        labels,
    })
}

/// The statements of the body of a function with this result.
pub fn flat_body(
    alloc: Global,
    typing: Typing,
    names: &Names,
    given: Option<ValType>,
    body: &[Instr],
) -> Result<Vec<Stmt>, AllocError>
    requires typed { TypedAt typing (code body.now) }
    requires small { SmallTypes typing.around }
    requires labels { typing.labels ≡ given ∷ [] }
    requires own { typing.own ≡ [] }
    requires under { typing.under ≡ [] }
    requires room { 1 + code_items (code body.now) < 2 ^ 32 }
    ensures { IfOk result (λ v. stmts v.items ≡ flat_at names.now typing.entry (code body.now)) }
{
    let mut at = beginning(alloc, typing, names, given)?;
    let mut out = Vec::new(alloc);
    body_stmts(&mut out, names, &mut at, body)?;
    Ok(out)
}
