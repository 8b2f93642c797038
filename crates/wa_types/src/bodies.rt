//! Equal bodies and functions.

ghost use Rattle.std.specs.Prelude.{◌≡◌, IfOk};
ghost use Rattle.wa_types.specs.View.{code, func_of};

use crate::instrs::Instr;
use crate::levels::{Copying, close, copy_next};
use crate::syntax::Func;
use std::alloc::{AllocError, Global};

/// An equal function.
pub fn copy_func(alloc: Global, func: &Func) -> Result<Func, AllocError>
    ensures { IfOk result (λ f. func_of f ≡ func_of func.now) }
{
    Ok(Func {
        sort: func.sort,
        locals: Vec::from_slice(alloc, &func.locals)?,
        body: copy_body(alloc, &func.body)?,
    })
}

/// An equal body. Takes the same native stack however deep it nests.
pub fn copy_body(alloc: Global, body: &[Instr]) -> Result<Vec<Instr>, AllocError>
    ensures { IfOk result (λ v. code v.items ≡ code body.now) }
{
    let mut copying = Copying {
        levels: Vec::new(alloc),
        made: Vec::with_capacity(alloc, body.len())?,
        left: body,
    };
    'left: loop {
        match copying.left.split_first() {
            Some((instr, behind)) => {
                copying.left = behind;
                copy_next(alloc, &mut copying, instr)?;
            }
            None => match copying.levels.pop() {
                Some(level) => close(alloc, &mut copying, level)?,
                None => return Ok(copying.made),
            },
        }
    }
}
