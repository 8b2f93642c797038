//! How much stands in loops: which of them a pass keeps words for is chosen by it.

use std::alloc::{AllocError, Global};
use wa_model::Stmt;

/// How many statements stand in each loop of a statement, in the order in which a pass comes to the loops.
pub fn loop_sizes(alloc: Global, stmt: &Stmt) -> Result<Vec<u32>, AllocError> {
    let mut sizes = Vec::new(alloc);
    put_stmt_sizes(&mut sizes, stmt)?;
    Ok(sizes)
}

/// Puts the sizes of a body's loops, and tells how many statements stand in it.
#[cycle(sizes)]
fn put_body_sizes(sizes: &mut Vec<u32>, body: &[Stmt]) -> Result<u32, AllocError> {
    let mut count: u32 = 0;
    let mut left = body.len();
    while left > 0 {
        left -= 1;
        let more = put_stmt_sizes(sizes, &body[left])?;
        count = count.saturating_add(more);
    }
    Ok(count)
}

/// Puts those of a statement's loops, and tells how many statements it is.
#[cycle(sizes)]
fn put_stmt_sizes(sizes: &mut Vec<u32>, stmt: &Stmt) -> Result<u32, AllocError> {
    match stmt {
        Stmt::Block(body) => {
            let count = put_body_sizes(sizes, body)?;
            Ok(count.saturating_add(1))
        }
        Stmt::Loop(body) => {
            let at = sizes.len();
            sizes.push(0)?;
            let count = put_body_sizes(sizes, body)?;
            if let Some(size) = sizes.get_mut(at) {
                *size = count.saturating_add(1);
            }
            Ok(count.saturating_add(1))
        }
        Stmt::If {
            then_arm,
            else_arm,
            ..
        } => {
            let second = put_body_sizes(sizes, else_arm)?;
            let first = put_body_sizes(sizes, then_arm)?;
            Ok(first.saturating_add(second).saturating_add(1))
        }
        _ => Ok(1),
    }
}

/// The size of the loop that a pass comes to at this place.
pub(crate) fn size_at(sizes: &[u32], at: usize) -> u32 {
    if at < sizes.len() { sizes[at] } else { 0 }
}

/// Whether words are kept for a loop at this level, of one size in a loop of another: for the one that is more than half of what
/// it stands in. So the words of at most one loop a level are kept, and a statement stands in few loops that lack them.
pub(crate) fn is_kept(level: u32, size: u32, around: u32) -> bool {
    level < 63 && size > around / 2
}
