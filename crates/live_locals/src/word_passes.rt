//! What is read first from the front of statements on, and from the heads of the loops in them.

ghost use Rattle.std.specs.Prelude.{◌≡◌, ◌<◌, ◌++◌, ◌∷◌, [], length, None, OnOk};
ghost use Rattle.run_theory.specs.Flat.{code_of, no_more};
ghost use Rattle.run_theory.specs.FlatView.{stmt_in_front, stmts};
ghost use Rattle.live_locals.specs.Ops.{OpsFit};
ghost use Rattle.live_locals.specs.Heads.{Fresh, HeadsPut, LabelPut, OwnLabelPut, WordsKept};
ghost use Rattle.live_locals.specs.Words.{WordsPassed};

use crate::levels::{inside, label_told, leave};
use crate::sizes::{is_kept, size_at};
use crate::word_sets::{copied, join, read_operand};
use crate::word_steps::pass_simple;
use std::alloc::{AllocError, Global};
use wa_model::Stmt;

/// One more label, from whose target on a set is read first.
fn push_label(alloc: Global, inner: &mut Vec<Vec<u64>>, set: &[u64]) -> Result<(), AllocError>
    ensures { OnOk result (LabelPut set.now inner.old.items inner.new.items) }
{
    inner.push(copied(alloc, set)?)?;
    Ok(())
}

/// An entry for a loop at this level, and what its label tells of so many locals to what stands in it.
fn push_loop(
    alloc: Global,
    inner: &mut Vec<Vec<u64>>,
    heads: &mut Vec<Option<Vec<u64>>>,
    count: usize,
    level: u32,
) -> Result<(), AllocError>
    ensures head { OnOk result (heads.new.items ≡ heads.old.items ++ None ∷ []) }
    ensures label { OnOk result (OwnLabelPut level count inner.old.items inner.new.items) }
{
    heads.push(None)?;
    inner.push(label_told(alloc, count, level)?)?;
    Ok(())
}

/// Keeps words for the loop whose entry this is, where they are kept.
fn keep_words(
    alloc: Global,
    heads: &mut Vec<Option<Vec<u64>>>,
    at: usize,
    words: &[u64],
    kept: bool,
) -> Result<(), AllocError>
    requires { at < length heads.old.items }
    ensures { OnOk result (WordsKept at words.now heads.old.items heads.new.items) }
{
    if kept {
        heads[at] = Some(copied(alloc, words)?);
    }
    Ok(())
}

/// What is the same for a whole pass over a nest of loops: `outer` tells for the labels around the nest what is read first from
/// their targets on, and `sizes` has the sizes of the nest's loops (`loop_sizes`).
#[derive(Clone, Copy)]
pub(crate) struct WordPass<'a> {
    pub(crate) alloc: Global,
    pub(crate) outer: &'a [Vec<bool>],
    pub(crate) sizes: &'a [u32],
}

/// How many loops of the nest stand around, and the size of the innermost.
#[derive(Clone, Copy)]
pub(crate) struct LoopAround {
    pub(crate) level: u32,
    pub(crate) size: u32,
}

/// A body is passed over backwards in all worlds. `inner` tells for the labels inside the nest what is read first from their targets
/// on. For each loop in the body an entry is put behind `heads`: what is read first from its head on, where that is kept.
#[cycle(pass)]
fn pass_body(
    pass: WordPass<'_>,
    inner: &mut Vec<Vec<u64>>,
    around: LoopAround,
    heads: &mut Vec<Option<Vec<u64>>>,
    set: &mut [u64],
    body: &[Stmt],
) -> Result<(), AllocError>
    requires ops { OpsFit (stmts body.now) }
    requires fresh { Fresh around.level pass.outer.now inner.old.items set.old }
    ensures passed { OnOk result (WordsPassed pass.entry.outer.now inner.old.items inner.new.items set.old set.new (code_of (stmts body.now))) }
    ensures heads { OnOk result (HeadsPut around.level pass.entry.outer.now inner.old.items set.old (stmts body.now) heads.old.items heads.new.items) }
{
    let mut left = body.len();
    while left > 0 {
        left -= 1;
        pass_stmt(pass, inner, around, heads, set, &body[left])?;
    }
    Ok(())
}

/// So is a statement.
#[cycle(pass)]
pub(crate) fn pass_stmt(
    pass: WordPass<'_>,
    inner: &mut Vec<Vec<u64>>,
    around: LoopAround,
    heads: &mut Vec<Option<Vec<u64>>>,
    set: &mut [u64],
    stmt: &Stmt,
) -> Result<(), AllocError>
    requires ops { OpsFit (stmt_in_front stmt.now no_more) }
    requires fresh { Fresh around.level pass.outer.now inner.old.items set.old }
    ensures passed { OnOk result (WordsPassed pass.entry.outer.now inner.old.items inner.new.items set.old set.new (code_of (stmt_in_front stmt.now no_more))) }
    ensures heads { OnOk result (HeadsPut around.level pass.entry.outer.now inner.old.items set.old (stmt_in_front stmt.now no_more) heads.old.items heads.new.items) }
{
    match stmt {
        Stmt::Block(body) => {
            push_label(pass.alloc, inner, set)?;
            pass_body(pass, inner, around, heads, set, body)?;
            inner.pop();
            Ok(())
        }
        Stmt::Loop(body) => {
            let at = heads.len();
            let size = size_at(pass.sizes, at);
            push_loop(pass.alloc, inner, heads, set.len(), around.level)?;
            let within = LoopAround {
                level: inside(around.level),
                size,
            };
            pass_body(pass, inner, within, heads, set, body)?;
            inner.pop();
            leave(set, around.level);
            let kept = is_kept(around.level, size, around.size);
            keep_words(pass.alloc, heads, at, set, kept)
        }
        Stmt::If {
            cond,
            then_arm,
            else_arm,
        } => {
            push_label(pass.alloc, inner, set)?;
            let mut other = copied(pass.alloc, set)?;
            pass_body(pass, inner, around, heads, set, else_arm)?;
            pass_body(pass, inner, around, heads, &mut other, then_arm)?;
            inner.pop();
            join(set, &other);
            read_operand(set, *cond);
            Ok(())
        }
        _ => {
            pass_simple(pass.outer, inner, set, stmt);
            Ok(())
        }
    }
}
