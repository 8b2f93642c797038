//! Constructs whose bodies are being read (standard, section 5.4.1).

ghost use Rattle.std.specs.Prelude.{◌≡◌, ◌++◌, [], ◌∷◌, false, OnOk, IfOk};
ghost use Rattle.std.specs.Result.{IfErr};
ghost use Rattle.wa_types.specs.Syntax.{Code};
ghost use Rattle.wa_types.specs.View.{code, in_front, onto};
ghost use Rattle.wasm_build.specs.declared.build_types.BuildFault.TheVariants.{Memory};
ghost use Rattle.wasm_build.specs.BuildsCode.{an_else, an_end};
ghost use Rattle.wasm_build.specs.BuildsLevels.{IsTurned, IsLost, Turns, closed};

use crate::build_types::BuildFault;
use std::alloc::Global;
use std::mem;
use wa_types::{Instr, ValType, drop_body};

/// Which body of a construct is being read.
#[derive(Drop)]
pub(crate) enum Opened {
    Block,
    Loop,
    /// The first arm of an if.
    Then,
    /// The second arm of an if, behind this first one.
    Else(Vec<Instr>),
}

/// A construct whose body is being read.
#[derive(Drop)]
pub(crate) struct Level {
    /// The instructions before it.
    pub(crate) before: Vec<Instr>,
    /// Its result.
    pub(crate) ty: Option<ValType>,
    pub(crate) opened: Opened,
}

/// Opens a construct of this kind and result behind the instructions of a body, and begins its own.
#[inline(always)]
pub(crate) fn open(
    alloc: Global,
    levels: &mut Vec<Level>,
    body: &mut Vec<Instr>,
    head: Option<ValType>,
    kind: Opened,
) -> Result<bool, BuildFault>
    ensures on { IfOk result (λ ended. ended ≡ false) }
    ensures levels { OnOk result (levels.new.items ≡ levels.old.items ++ (record { before = body.old; ty = head; opened = kind }) ∷ []) }
    ensures body { OnOk result (body.new.items ≡ []) }
    ensures err { IfErr result (λ e. e ≡ Memory) }
{
    let inner = Vec::with_capacity(alloc, 1)?;
    let before = mem::replace(body, inner);
    levels.push(Level {
        before,
        ty: head,
        opened: kind,
    })?;
    Ok(false)
}

/// An else: the body is the first arm of the innermost construct.
pub(crate) fn turn(
    alloc: Global,
    levels: &mut Vec<Level>,
    body: &mut Vec<Instr>,
) -> Result<bool, BuildFault>
    ensures { Turns an_else levels.old.items body.old result levels.new.items body.new }
{
    match levels.pop() {
        None => Err(BuildFault::NotSpelled),
        Some(level) => turn_level(alloc, levels, body, level),
    }
}

// Goes over from the first arm of an if, which is this body, to the second.
fn turn_level(
    alloc: Global,
    levels: &mut Vec<Level>,
    body: &mut Vec<Instr>,
    level: Level,
) -> Result<bool, BuildFault>
    ensures on { IfOk result (λ ended. ended ≡ false) }
    ensures levels { OnOk result (IsTurned level levels.old.items body.old levels.new.items) }
    ensures body { OnOk result (body.new.items ≡ []) }
    ensures err { IfErr result (IsLost level) }
{
    let Level { before, ty, opened } = level;
    match opened {
        Opened::Then => {
            let inner = Vec::with_capacity(alloc, 1)?;
            let then_arm = mem::replace(body, inner);
            levels.push(Level {
                before,
                ty,
                opened: Opened::Else(then_arm),
            })?;
            Ok(false)
        }
        _ => Err(BuildFault::NotSpelled),
    }
}

/// An end: that of the innermost construct, or of the expression, which the body then is.
#[inline(always)]
pub(crate) fn end(
    alloc: Global,
    levels: &mut Vec<Level>,
    body: &mut Vec<Instr>,
) -> Result<bool, BuildFault>
    ensures { Turns an_end levels.old.items body.old result levels.new.items body.new }
{
    match levels.pop() {
        None => Ok(true),
        Some(level) => close(alloc, body, level),
    }
}

// Ends a construct whose body this is: it stands behind the instructions before it.
#[inline(always)]
fn close(alloc: Global, body: &mut Vec<Instr>, level: Level) -> Result<bool, BuildFault>
    ensures on { IfOk result (λ ended. ended ≡ false) }
    ensures body { OnOk result ((rest : Code) → onto body.new.items rest ≡ onto level.before.items (closed level.opened level.ty (code body.old.items) rest)) }
    ensures err { IfErr result (λ e. e ≡ Memory) }
{
    let Level { before, ty, opened } = level;
    let mut inner = mem::replace(body, before);
    inner.shrink_to_fit();
    body.push(construct(alloc, ty, opened, inner))?;
    Ok(false)
}

// The construct with this body.
#[inline(always)]
fn construct(alloc: Global, ty: Option<ValType>, opened: Opened, inner: Vec<Instr>) -> Instr
    ensures { (rest : Code) → in_front result rest ≡ closed opened ty (code inner.items) rest }
{
    match opened {
        Opened::Block => Instr::Block {
            result: ty,
            body: inner,
        },
        Opened::Loop => Instr::Loop {
            result: ty,
            body: inner,
        },
        Opened::Then => Instr::If {
            result: ty,
            then_arm: inner,
            else_arm: Vec::new(alloc),
        },
        Opened::Else(then_arm) => Instr::If {
            result: ty,
            then_arm,
            else_arm: inner,
        },
    }
}

/// Drops what was built of an expression that isn't read to its end. Takes the same native stack however deep it nests.
pub(crate) fn discard(levels: Vec<Level>, body: Vec<Instr>) {
    drop_body(body);
    for level in levels {
        let Level {
            before,
            ty: _,
            opened,
        } = level;
        drop_body(before);
        if let Opened::Else(then_arm) = opened {
            drop_body(then_arm);
        }
    }
}
