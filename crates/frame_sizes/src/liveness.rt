//! Whether a local is live behind a call: read on some way before it is written.

ghost use Rattle.std.specs.Prelude.{◌≡◌, ◌++◌, ◌∷◌, ◌||◌, [], false, reverse, slice_get, IfOk, OnOk};
ghost use Rattle.std.specs.List.{list_any};
ghost use Rattle.wa_types.specs.Liveness.{live, told_at};
ghost use Rattle.wa_types.specs.Pausing.{is_told};
ghost use Rattle.wa_types.specs.Syntax.{done};
ghost use Rattle.wa_types.specs.View.{code, in_front};
ghost use Rattle.frame_sizes.specs.Lives.{lives, lives_first, live_first};

use std::alloc::{AllocError, Global};
use wa_types::Instr;

/// What is told of a label, before what is told of those around it.
fn told_in(alloc: Global, told: bool, tos: &[bool]) -> Result<Vec<bool>, AllocError>
    ensures { IfOk result (λ v. v.items ≡ told ∷ tos.now) }
{
    let mut inner = Vec::from_slice(alloc, &[told])?;
    inner.extend_from_slice(tos)?;
    Ok(inner)
}

fn is_told_at(tos: &[bool], label: u32) -> bool
    ensures { result ≡ told_at tos.now label }
{
    match tos.get(label as usize).copied() {
        None => false,
        Some(told) => told,
    }
}

fn is_any_told(tos: &[bool], labels: &[u32]) -> bool
    ensures { result ≡ list_any (told_at tos.now) labels.now }
{
    labels.iter().any(|label| is_told_at(tos, *label))
}

fn either(first: bool, second: bool) -> bool
    ensures { result ≡ (first || second) }
{
    first || second
}

/// Whether a local is read before it is written from the front of a body on: `tos` tells it for the target of each label, `out`
/// for what stands behind the body.
#[cycle(live)]
fn is_live(
    alloc: Global,
    local: usize,
    tos: &[bool],
    out: bool,
    body: &[Instr],
) -> Result<bool, AllocError>
    ensures { IfOk result (λ b. b ≡ live local tos.now out (code body.now)) }
{
    let mut told = out;
    let mut left = body.len();
    while left > 0 {
        left -= 1;
        told = is_live_at(alloc, local, tos, told, &body[left])?;
    }
    Ok(told)
}

/// The same from an instruction on, given what is told behind it.
#[cycle(live)]
fn is_live_at(
    alloc: Global,
    local: usize,
    tos: &[bool],
    behind: bool,
    instr: &Instr,
) -> Result<bool, AllocError>
    ensures { IfOk result (λ b. b ≡ live_first local tos.now behind (in_front instr.now done)) }
{
    match instr {
        Instr::LocalGet(other) => Ok(local == *other as usize || behind),
        Instr::LocalSet(other) => Ok(!(local == *other as usize) && behind),
        Instr::LocalTee(other) => Ok(!(local == *other as usize) && behind),
        Instr::Br(label) => Ok(is_told_at(tos, *label)),
        Instr::BrIf(label) => Ok(is_told_at(tos, *label) || behind),
        Instr::BrTable { labels, last } => Ok(is_told_at(tos, *last) || is_any_told(tos, labels)),
        Instr::Return => Ok(false),
        Instr::Unreachable => Ok(false),
        Instr::Block { body, .. } => {
            let inner = told_in(alloc, behind, tos)?;
            is_live(alloc, local, &inner, behind, body)
        }
        Instr::Loop { body, .. } => {
            let inner = told_in(alloc, false, tos)?;
            is_live(alloc, local, &inner, behind, body)
        }
        Instr::If {
            then_arm,
            else_arm,
            ..
        } => {
            let inner = told_in(alloc, behind, tos)?;
            let in_then = is_live(alloc, local, &inner, behind, then_arm)?;
            let in_else = is_live(alloc, local, &inner, behind, else_arm)?;
            Ok(either(in_then, in_else))
        }
        _ => Ok(behind),
    }
}

/// Puts for each call of a body, the last one first, whether a local is read before it is written from just after it on.
/// Answers what is told from the front of the body on.
#[cycle(lives)]
fn put_lives(
    alloc: Global,
    found: &mut Vec<bool>,
    local: usize,
    tos: &[bool],
    out: bool,
    body: &[Instr],
) -> Result<bool, AllocError>
    ensures told { IfOk result (λ b. b ≡ live local tos.now out (code body.now)) }
    ensures found { OnOk result (found.new.items ≡ found.old.items ++ reverse (lives local tos.now out (code body.now))) }
{
    let mut told = out;
    let mut left = body.len();
    while left > 0 {
        left -= 1;
        told = put_lives_at(alloc, found, local, tos, told, &body[left])?;
    }
    Ok(told)
}

/// The same of an instruction, given what is told behind it.
#[cycle(lives)]
fn put_lives_at(
    alloc: Global,
    found: &mut Vec<bool>,
    local: usize,
    tos: &[bool],
    behind: bool,
    instr: &Instr,
) -> Result<bool, AllocError>
    ensures told { IfOk result (λ b. b ≡ live_first local tos.now behind (in_front instr.now done)) }
    ensures found { OnOk result (found.new.items ≡ found.old.items ++ reverse (lives_first local tos.now behind (in_front instr.now done))) }
{
    match instr {
        Instr::Call(_) => {
            found.push(behind)?;
            Ok(behind)
        }
        Instr::CallIndirect(_) => {
            found.push(behind)?;
            Ok(behind)
        }
        Instr::Block { body, .. } => {
            let inner = told_in(alloc, behind, tos)?;
            put_lives(alloc, found, local, &inner, behind, body)
        }
        Instr::Loop { body, .. } => {
            let inner = told_in(alloc, false, tos)?;
            let first = is_live(alloc, local, &inner, behind, body)?;
            let inner = told_in(alloc, first, tos)?;
            put_lives(alloc, found, local, &inner, behind, body)?;
            Ok(first)
        }
        Instr::If {
            then_arm,
            else_arm,
            ..
        } => {
            let inner = told_in(alloc, behind, tos)?;
            let in_else = put_lives(alloc, found, local, &inner, behind, else_arm)?;
            let in_then = put_lives(alloc, found, local, &inner, behind, then_arm)?;
            Ok(either(in_then, in_else))
        }
        _ => is_live_at(alloc, local, tos, behind, instr),
    }
}

/// Whether a local is read before it is written from just after the call at this place of a body on.
pub fn is_live_behind(
    alloc: Global,
    local: usize,
    body: &[Instr],
    place: usize,
) -> Result<bool, AllocError>
    ensures { IfOk result (λ b. b ≡ is_told (slice_get (lives local [] false (code body.now)) place)) }
{
    let mut found = Vec::new(alloc);
    put_lives(alloc, &mut found, local, &[], false, body)?;
    if place < found.len() {
        Ok(found[found.len() - 1 - place])
    } else {
        Ok(false)
    }
}
