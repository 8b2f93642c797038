//! Trees of instructions, dropped level by level.
//!
//! What a compiler writes to drop a tree goes as deep as its constructs nest. Here a body is taken apart: the bodies that are begun wait in a
//! list, at most two a level of nesting; where there is no memory for the list, a body that would wait is dropped as the compiler drops it.

ghost use Rattle.std.specs.Prelude.{◌≤◌, ◌+◌, ◌*◌};
ghost use Rattle.wa_types.specs.Counts.{count_of};
ghost use Rattle.wa_types.specs.Syntax.{done};
ghost use Rattle.wa_types.specs.View.{code, in_front};
ghost use Rattle.wa_types.specs.Dropping.{to_drop};

use crate::instrs::Instr;
use std::mem;

/// Drops a body, in time linear in its size. Takes the same native stack however deep it nests, unless memory for the list is wanting.
pub fn drop_body(body: Vec<Instr>) {
    let mut begun = Vec::new(*body.allocator());
    let mut body = body;
    'left: loop {
        match body.pop() {
            Some(instr) => enter(&mut begun, &mut body, instr),
            None => match begun.pop() {
                Some(next) => body = next,
                None => return,
            },
        }
    }
}

// Goes on in the bodies of an instruction that was taken from the end of a body.
fn enter(begun: &mut Vec<Vec<Instr>>, body: &mut Vec<Instr>, instr: Instr)
    ensures { to_drop begun.new.items body.new.items + 1 ≤ to_drop begun.old.items body.old.items + 3 * count_of (in_front instr done) }
{
    match instr {
        Instr::Block { body: inner, .. } => go_into(begun, body, inner),
        Instr::Loop { body: inner, .. } => go_into(begun, body, inner),
        Instr::If {
            then_arm,
            else_arm,
            ..
        } => {
            go_into(begun, body, then_arm);
            go_into(begun, body, else_arm);
        }
        _ => {}
    }
}

// Goes on in a body, behind which what is left of the outer one waits.
fn go_into(begun: &mut Vec<Vec<Instr>>, body: &mut Vec<Instr>, inner: Vec<Instr>)
    ensures { to_drop begun.new.items body.new.items ≤ to_drop begun.old.items body.old.items + 3 * count_of (code inner.items) + 1 }
{
    let outer = mem::replace(body, inner);
    if outer.is_empty() {
        return;
    }
    let _unheld = begun.push(outer);
}
