//! What is known of the loops of a nest, and where a nest begins.

ghost use Rattle.std.specs.Prelude.{◌≡◌, ◌<◌, ◌≤◌, ◌∷◌, ◌++◌, [], ℕ, suc, List, Vec, Bool, Option, Some, length, drop, reverse, replicate, IfOk, OnOk};
ghost use Rattle.std.specs.declared.alloc.Global.{Global};
ghost use Rattle.wa_types.specs.Syntax.{a_loop};
ghost use Rattle.run_theory.specs.Flat.{Stmts, code_of, no_more, nests};
ghost use Rattle.run_theory.specs.FlatView.{stmt_in_front, stmts};
ghost use Rattle.live_locals.specs.Ops.{OpsFit};
ghost use Rattle.live_locals.specs.Sets.{told_by, Passed, TellsBefore};
ghost use Rattle.live_locals.specs.Heads.{loop_total};
ghost use Rattle.live_locals.specs.Nests.{AtLoop, Enters, Nest};

use crate::levels::{broadcast, entered, met};
use crate::passes::pass_stmt;
use crate::sizes::loop_sizes;
use crate::word_passes::{LoopAround, WordPass, pass_stmt as pass_words};
use std::alloc::{AllocError, Global};
use wa_model::Stmt;

/// A loop with so many loops inside each other in it begins a nest; one with fewer is passed over once more for each loop
/// around it.
const DEEP: u32 = 4;

/// What is known inside a loop: how many loops of its nest are around, and the worlds that hold of each local.
#[derive(Drop)]
pub(crate) struct Inside {
    pub(crate) level: u32,
    pub(crate) reach: Vec<u64>,
}

/// The same, lent to what stands there.
#[derive(Clone, Copy)]
pub(crate) struct Around<'a> {
    pub(crate) level: u32,
    pub(crate) reach: &'a [u64],
}

/// What a walk goes by at a place: `tos` tells for each label what is read first from its target on, and `heads` has entries for the
/// loops to come, the next last.
#[derive(Drop)]
pub(crate) struct Walk {
    pub(crate) alloc: Global,
    pub(crate) tos: Vec<Vec<bool>>,
    pub(crate) heads: Vec<Option<Vec<u64>>>,
}

/// The words that were kept for the next loop.
fn take_head(heads: &mut Vec<Option<Vec<u64>>>) -> Option<Vec<u64>>
    ensures rest { reverse heads.new.items ≡ drop 1 (reverse heads.old.items) }
    ensures head { (w : Vec ℕ Global) → result ≡ Some w → reverse heads.old.items ≡ Some w ∷ reverse heads.new.items }
{
    match heads.pop() {
        Some(entry) => entry,
        None => None,
    }
}

/// The next entries are left out.
fn skip_heads(heads: &mut Vec<Option<Vec<u64>>>, count: usize)
    ensures { reverse heads.new.items ≡ drop count (reverse heads.old.items) }
{
    heads.truncate(heads.len().saturating_sub(count));
}

/// Entries are put before those that are next.
fn put_heads(
    heads: &mut Vec<Option<Vec<u64>>>,
    mut more: Vec<Option<Vec<u64>>>,
) -> Result<(), AllocError>
    ensures { OnOk result (reverse heads.new.items ≡ more.items ++ reverse heads.old.items) }
{
    while let Some(entry) = more.pop() {
        heads.push(entry)?;
    }
    Ok(())
}

/// The world of no loop holds of each of so many locals.
fn first_reach(alloc: Global, count: usize) -> Result<Vec<u64>, AllocError>
    ensures { IfOk result (λ v. v.items ≡ replicate count 1) }
{
    let mut reach = Vec::with_capacity(alloc, count)?;
    reach.resize(count, 1)?;
    Ok(reach)
}

/// A loop at this level is entered whose words are known.
fn enter_known(
    alloc: Global,
    set: &mut [bool],
    level: u32,
    reach: &[u64],
    words: &[u64],
) -> Result<Inside, AllocError>
    requires level { level < 63 }
    requires reach { length reach.now ≡ length set.old }
    requires words { length words.now ≡ length set.old }
    ensures { IfOk result (λ n. Enters level reach.now words.now set.old set.new n.level n.reach.items) }
{
    met(set, words, reach);
    let inner = entered(alloc, reach, set, level)?;
    Ok(Inside {
        level: level + 1,
        reach: inner,
    })
}

/// A nest begins at a loop: one pass tells the words of all loops inside.
fn begin_nest(
    alloc: Global,
    tos: &[Vec<bool>],
    set: &mut [bool],
    heads: &mut Vec<Option<Vec<u64>>>,
    stmt: &Stmt,
) -> Result<Inside, AllocError>
    requires ops { OpsFit (stmt_in_front stmt.now no_more) }
    requires is_loop { (body : Stmts) × (stmt_in_front stmt.now no_more ≡ nests a_loop body no_more) }
    ensures rest { OnOk result ((body : Stmts) → stmt_in_front stmt.now no_more ≡ nests a_loop body no_more
        → drop (loop_total body) (reverse heads.new.items) ≡ drop (loop_total body) (reverse heads.old.items)) }
    ensures inside { IfOk result (λ n. (body : Stmts) → stmt_in_front stmt.now no_more ≡ nests a_loop body no_more
        → (reach words : List ℕ) × AtLoop 0 reach tos.now set.old words (reverse heads.new.items) body × Enters 0 reach words set.old set.new n.level n.reach.items) }
{
    let mut words = broadcast(alloc, set)?;
    let mut inside = Vec::new(alloc);
    let mut inner = Vec::new(alloc);
    let sizes = loop_sizes(alloc, stmt)?;
    let pass = WordPass {
        alloc,
        outer: tos,
        sizes: &sizes,
    };
    let outermost = LoopAround { level: 0, size: 0 };
    pass_words(pass, &mut inner, outermost, &mut inside, &mut words, stmt)?;
    skip_heads(heads, inside.len().saturating_sub(1));
    put_heads(heads, inside)?;
    take_head(heads);
    let reach = first_reach(alloc, set.len())?;
    enter_known(alloc, set, 0, &reach, &words)
}

/// A loop is entered: `set` tells what is read first from its head on. The walk has entries for this loop and those inside it, the
/// next last.
#[inline(never)]
pub(crate) fn enter_loop(
    walk: &mut Walk,
    set: &mut [bool],
    around: Around<'_>,
    stmt: &Stmt,
    body: &[Stmt],
) -> Result<Inside, AllocError>
    requires ops { OpsFit (stmt_in_front stmt.now no_more) }
    requires is_loop { stmt_in_front stmt.now no_more ≡ nests a_loop (stmts body.now) no_more }
    requires nest { Nest around.level around.reach.now walk.old.tos.items set.old (reverse walk.old.heads.items) (nests a_loop (stmts body.now) no_more) }
    ensures passed { OnOk result (Passed walk.old.tos.items walk.new.tos.items set.old set.new (code_of (nests a_loop (stmts body.now) no_more))) }
    ensures rest { OnOk result (drop (loop_total (stmts body.now)) (reverse walk.new.heads.items) ≡ drop (suc (loop_total (stmts body.now))) (reverse walk.old.heads.items)) }
    ensures inside { IfOk result (λ n. (v : Vec Bool Global) → v.items ≡ set.new → Nest n.level n.reach.items (walk.old.tos.items ++ v ∷ []) set.old (reverse walk.new.heads.items) (stmts body.now)) }
{
    let known = take_head(&mut walk.heads);
    if around.level < 63 {
        if let Some(words) = known {
            if words.len() == set.len() {
                return enter_known(walk.alloc, set, around.level, around.reach, &words);
            }
        }
    }
    if is_deep(body, DEEP) {
        return begin_nest(walk.alloc, &walk.tos, set, &mut walk.heads, stmt);
    }
    pass_stmt(walk.alloc, &mut walk.tos, set, stmt)?;
    Ok(Inside {
        level: 63,
        reach: Vec::new(walk.alloc),
    })
}

/// Whether so many loops stand inside each other in a body.
#[cycle(deep)]
fn is_deep(body: &[Stmt], loops: u32) -> bool {
    for stmt in body {
        if holds_deep(stmt, loops) {
            return true;
        }
    }
    false
}

/// Whether they do in a statement.
#[cycle(deep)]
fn holds_deep(stmt: &Stmt, loops: u32) -> bool {
    match stmt {
        Stmt::Block(body) => is_deep(body, loops),
        Stmt::Loop(body) => loops <= 1 || is_deep(body, loops - 1),
        Stmt::If {
            then_arm,
            else_arm,
            ..
        } => is_deep(then_arm, loops) || is_deep(else_arm, loops),
        _ => false,
    }
}
