//! Expressions from bytes, in a loop over their instructions (standard, section 5.4.6).

ghost use Rattle.std.specs.Prelude.{◌<◌, ◌≤◌, length, IfOk};
ghost use Rattle.wa_types.specs.View.{code};
ghost use Rattle.wasm_grammar.specs.Places.{Place};
ghost use Rattle.wasm_build.specs.Builds.{Builds};
ghost use Rattle.wasm_build.specs.BuildsCode.{SpelledExpression};
ghost use Rattle.wasm_build.specs.BuildsLevels.{Running, Turned};

use crate::build_types::BuildFault;
use crate::levels::{Level, Opened, discard, end, open, turn};
use crate::putting::put;
use crate::types::block_type;
use std::alloc::Global;
use wa_types::Instr;
use wasm_grammar::Cursor;

/// An expression (standard, section 5.4.6): the instructions up to their end. Constructs that are open wait on a stack.
/// Where it fails, `discard` drops what was built.
pub fn expression(alloc: Global, input: &mut Cursor<'_>) -> Result<Vec<Instr>, BuildFault>
    ensures built { Builds (λ v. code v.items) SpelledExpression result input.old input.new }
    ensures left { length input.new.left ≤ length input.old.left }
{
    let mut levels: Vec<Level> = Vec::new(alloc);
    // A level of one instruction takes room for no more.
    let mut body = Vec::with_capacity(alloc, 1)?;
    loop {
        match go_on(alloc, input, &mut levels, &mut body) {
            Ok(true) => {
                body.shrink_to_fit();
                return Ok(body);
            }
            Ok(false) => {}
            Err(fault) => {
                discard(levels, body);
                return Err(fault);
            }
        }
    }
}

// Takes what stands next (standard, section 5.4) in a body inside these constructs: an instruction that holds no other, the head of
// a construct, an else or an end. True where that ends the expression, which the body then is.
#[inline(always)]
fn go_on(
    alloc: Global,
    input: &mut Cursor<'_>,
    levels: &mut Vec<Level>,
    body: &mut Vec<Instr>,
) -> Result<bool, BuildFault>
    ensures on { (old : Place) → Running old levels.old.items body.old.items input.old → Turned result old levels.new.items body.new input.new }
    ensures left { length input.new.left ≤ length input.old.left }
    ensures falls { IfOk result (λ _. length input.new.left < length input.old.left) }
{
    let op = input.byte()?;
    match op {
        0x0B => end(alloc, levels, body),
        0x05 => turn(alloc, levels, body),
        0x02 => {
            let ty = block_type(input)?;
            open(alloc, levels, body, ty, Opened::Block)
        }
        0x03 => {
            let ty = block_type(input)?;
            open(alloc, levels, body, ty, Opened::Loop)
        }
        0x04 => {
            let ty = block_type(input)?;
            open(alloc, levels, body, ty, Opened::Then)
        }
        _ => put(alloc, input, body, op),
    }
}
