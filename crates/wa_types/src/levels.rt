//! Constructs whose bodies are being copied (standard, section 2.4.5).

ghost use Rattle.std.specs.Prelude.{◌≡◌, ◌+◌, ◌*◌, ◌++◌, [], ◌∷◌, OnOk, true};
ghost use Rattle.wa_types.specs.Counts.{count_of};
ghost use Rattle.wa_types.specs.Leaves.{is_leaf};
ghost use Rattle.wa_types.specs.Syntax.{Code};
ghost use Rattle.wa_types.specs.View.{code, in_front, onto};
ghost use Rattle.wa_types.specs.Levels.{enclosed, closed, owed, GoesOn, IsEntered};

use crate::instrs::Instr;
use crate::leaves::copy_leaf;
use crate::values::ValType;
use std::alloc::{AllocError, Global};
use std::mem;

/// Which body of a construct is being copied.
#[derive(Drop)]
pub(crate) enum Opened<'m> {
    Block,
    Loop,
    /// The first arm of an if, which has this second one.
    Then(&'m [Instr]),
    /// The second arm of an if, whose first one was copied.
    Else(Vec<Instr>),
}

/// A construct whose body is being copied.
#[derive(Drop)]
pub(crate) struct Level<'m> {
    /// Copies of the instructions before it.
    pub(crate) before: Vec<Instr>,
    /// Its result.
    pub(crate) ty: Option<ValType>,
    pub(crate) opened: Opened<'m>,
    /// The instructions behind it.
    pub(crate) behind: &'m [Instr],
}

/// A body that is being copied: the constructs that are open, the innermost last, and of its body what is made and what is left.
#[derive(Drop)]
pub(crate) struct Copying<'m> {
    pub(crate) levels: Vec<Level<'m>>,
    pub(crate) made: Vec<Instr>,
    pub(crate) left: &'m [Instr],
}

/// Copies an instruction, which stands in front of what is left. Of a construct its body comes next.
pub(crate) fn copy_next<'m>(
    alloc: Global,
    copying: &mut Copying<'m>,
    instr: &'m Instr,
) -> Result<(), AllocError>
    ensures { OnOk result (GoesOn (enclosed copying.old.levels.items (onto copying.old.made.items (in_front instr.now (code copying.old.left.now))))
        (owed copying.old.levels.items + 3 * count_of (in_front instr.now (code copying.old.left.now))) copying.new) }
{
    match instr {
        Instr::Block { result, body } => enter(alloc, copying, *result, Opened::Block, body),
        Instr::Loop { result, body } => enter(alloc, copying, *result, Opened::Loop, body),
        Instr::If {
            result,
            then_arm,
            else_arm,
        } => enter(alloc, copying, *result, Opened::Then(else_arm), then_arm),
        _ => copy_one(alloc, copying, instr),
    }
}

// Puts an instruction that holds no other behind what is made.
fn copy_one<'m>(
    alloc: Global,
    copying: &mut Copying<'m>,
    instr: &'m Instr,
) -> Result<(), AllocError>
    requires { is_leaf instr.now ≡ true }
    ensures levels { copying.new.levels ≡ copying.old.levels }
    ensures left { copying.new.left ≡ copying.old.left }
    ensures made { OnOk result ((rest : Code) → onto copying.new.made.items rest ≡ onto copying.old.made.items (in_front instr.now rest)) }
{
    copying.made.push(copy_leaf(alloc, instr)?)?;
    Ok(())
}

// Opens a construct, whose body this is.
fn enter<'m>(
    alloc: Global,
    copying: &mut Copying<'m>,
    ty: Option<ValType>,
    opened: Opened<'m>,
    body: &'m [Instr],
) -> Result<(), AllocError>
    ensures { OnOk result (IsEntered copying.old.levels.items
        (record { before = copying.old.made; ty = ty; opened = opened.entry; behind = copying.old.left }) body.now copying.new) }
{
    let inner = Vec::with_capacity(alloc, body.len())?;
    let before = mem::replace(&mut copying.made, inner);
    let behind = mem::replace(&mut copying.left, body);
    copying.levels.push(Level {
        before,
        ty,
        opened,
        behind,
    })?;
    Ok(())
}

/// Goes on behind the body of a construct, which is made: in its second arm, or behind the construct.
pub(crate) fn close<'m>(
    alloc: Global,
    copying: &mut Copying<'m>,
    level: Level<'m>,
) -> Result<(), AllocError>
    requires { copying.old.left.now ≡ [] }
    ensures { OnOk result (GoesOn (enclosed copying.old.levels.items (onto level.entry.before.items (closed level.entry.opened level.entry.ty
        (code copying.old.made.items) (code level.entry.behind.now)))) (owed (copying.old.levels.items ++ level.entry ∷ [])) copying.new) }
{
    let Level {
        before,
        ty,
        opened,
        behind,
    } = level;
    let inner = mem::replace(&mut copying.made, before);
    copying.left = behind;
    let construct = match opened {
        Opened::Block => Instr::Block {
            result: ty,
            body: inner,
        },
        Opened::Loop => Instr::Loop {
            result: ty,
            body: inner,
        },
        Opened::Then(else_arm) => {
            return enter(alloc, copying, ty, Opened::Else(inner), else_arm);
        }
        Opened::Else(then_arm) => Instr::If {
            result: ty,
            then_arm,
            else_arm: inner,
        },
    };
    copying.made.push(construct)?;
    Ok(())
}
