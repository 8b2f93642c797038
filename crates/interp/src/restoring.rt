//! What is asked of an instance that is put back.

ghost use Rattle.std.specs.Prelude.{◌≡◌, IfOk};
ghost use Rattle.std.specs.Bool.{OnTrue, OnFalse};
ghost use Rattle.wa_types.specs.View.{module_of};
ghost use Rattle.interp.specs.Restoring.{PagesFit};

use interp_state::{all_memories, least_of, most_of, page_bound};
use std::alloc::{AllocError, Global};
use wasm_validate::Valid;

/// Whether the memory of an instance of the module may have so many pages: from the declared minimum to the bound of
/// `memory.grow`.
pub fn may_have_pages(alloc: Global, valid: &Valid, pages: u32) -> Result<bool, AllocError>
    ensures fits { IfOk result (λ may. OnTrue may (PagesFit (module_of valid.now) pages)) }
    ensures past { IfOk result (λ may. OnFalse may (PagesFit (module_of valid.now) pages → ⊥)) }
{
    let memories = all_memories(alloc, valid.module())?;
    if pages < least_of(&memories) {
        return Ok(false);
    }
    Ok(pages <= page_bound(most_of(&memories)))
}
