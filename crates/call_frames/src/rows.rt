//! Calls, kept as rows.

ghost use Rattle.std.specs.Prelude.{◌≡◌, ◌+◌, ◌++◌, ◌∷◌, ◌<◌, ◌^◌, [], suc, length, nat_eq, reverse, true, IfOk, OnOk};
ghost use Rattle.call_frames.specs.CallParts.{same_calls};
ghost use Rattle.call_frames.specs.CallRows.{AreRows, RowsFit, numbers_in, row_views, upto};
ghost use Rattle.call_frames.specs.PlainFrames.{rows_of};

use std::alloc::{AllocError, Global};
use std::marker::Model;

/// Calls in a row: the first, and how many follow it.
#[derive(Clone, Copy)]
pub struct Row {
    pub first: u32,
    pub more: u32,
}

/// The numbers of calls, kept as rows. Contracts see the numbers.
#[derive(Drop)]
pub struct Calls {
    rows: Vec<Row>,
}

impl Model for Calls {
    ghost use Rattle.std.specs.Prelude.{List, ℕ};
    ghost use Rattle.call_frames.specs.CallRows.{AreRows, numbers_in, row_views};

    ghost Value = { List ℕ };

    ghost view = { λ c. numbers_in (row_views c.rows.items) };

    ghost invariant = { λ c. AreRows c.rows.items };
}

/// Whether a call follows a row.
fn follows(call: u32, row: Row) -> bool
    ensures { result ≡ nat_eq call (suc (row.first + row.more)) }
{
    row.first as u64 + row.more as u64 + 1 == call as u64
}

/// Puts a call behind rows: it joins the last where it follows that.
fn put_behind(rows: &mut Vec<Row>, call: u32) -> Result<(), AllocError>
    ensures numbers { OnOk result (numbers_in (row_views rows.new.items) ≡ numbers_in (row_views rows.old.items) ++ call ∷ []) }
    ensures rows { AreRows rows.old.items → AreRows rows.new.items }
{
    let count = rows.len();
    if count > 0 {
        let last = rows[count - 1];
        if follows(call, last) {
            rows[count - 1] = Row {
                first: last.first,
                more: last.more + 1,
            };
            return Ok(());
        }
    }
    rows.push(Row {
        first: call,
        more: 0,
    })?;
    Ok(())
}

/// Whether these rows are the same as others.
fn same_rows(rows: &[Row], others: &[Row]) -> bool
    ensures same { result ≡ true → row_views rows.now ≡ row_views others.now }
    ensures other { row_views rows.now ≡ row_views others.now → result ≡ true }
{
    if rows.len() != others.len() {
        return false;
    }
    for at in 0..rows.len() {
        if rows[at].first != others[at].first {
            return false;
        }
        if rows[at].more != others[at].more {
            return false;
        }
    }
    true
}

/// Whether rows stand for so many calls.
fn stand_for(rows: &[Row], count: usize) -> bool
    ensures { result ≡ nat_eq (length (numbers_in (row_views rows.now))) count }
{
    let mut left = count;
    for row in rows {
        let size = row.more as usize + 1;
        if left < size {
            return false;
        }
        left -= size;
    }
    left == 0
}

impl Calls {
    /// No calls.
    pub fn none(alloc: Global) -> Calls
        ensures { result ≡ [] }
    {
        Calls {
            rows: Vec::new(alloc),
        }
    }

    /// The same calls once more.
    pub(crate) fn copied(&self, alloc: Global) -> Result<Calls, AllocError>
        ensures { IfOk result (λ v. v ≡ self.now) }
    {
        let rows = Vec::from_slice(alloc, &self.rows)?;
        Ok(Calls { rows })
    }

    /// Puts a call behind the others.
    pub fn push(&mut self, call: u32) -> Result<(), AllocError>
        ensures { OnOk result (self.new ≡ self.old ++ call ∷ []) }
    {
        put_behind(&mut self.rows, call)
    }

    /// Whether there are none.
    pub fn is_empty(&self) -> bool
        ensures { result ≡ nat_eq (length self.now) 0 }
    {
        stand_for(&self.rows, 0)
    }

    /// Whether there are so many.
    pub fn are(&self, count: usize) -> bool
        ensures { result ≡ nat_eq (length self.now) count }
    {
        stand_for(&self.rows, count)
    }

    /// Whether others are the same calls, in the same order.
    pub fn equal(&self, others: &Calls) -> bool
        ensures { result ≡ same_calls self.now others.now }
    {
        same_rows(&self.rows, &others.rows)
    }

    /// The rows.
    pub fn rows(&self) -> &[Row]
        ensures rows { rows_of self.now ≡ row_views result.now }
        ensures numbers { self.now ≡ numbers_in (row_views result.now) }
        ensures fit { RowsFit result.now }
    {
        &self.rows
    }
}

/// Puts calls in a row before rows of which the first stands last: that one joins them where it follows them.
fn put_before(rows: &mut Vec<Row>, first: u32, more: u32) -> Result<(), AllocError>
    requires fit { first + more < 2 ^ 32 }
    requires rows { AreRows (reverse rows.old.items) }
    ensures numbers { OnOk result (numbers_in (row_views (reverse rows.new.items)) ≡ upto first more ++ numbers_in (row_views (reverse rows.old.items))) }
    ensures rows { AreRows (reverse rows.new.items) }
{
    let row = Row { first, more };
    let count = rows.len();
    if count > 0 {
        let next = rows[count - 1];
        if follows(next.first, row) {
            rows[count - 1] = Row {
                first,
                more: more + 1 + next.more,
            };
            return Ok(());
        }
    }
    rows.push(row)?;
    Ok(())
}

/// The numbers of calls that are told last first, kept as rows of which the first stands last. Contracts see the numbers in their order.
#[derive(Drop)]
pub struct LaterCalls {
    rows: Vec<Row>,
}

impl Model for LaterCalls {
    ghost use Rattle.std.specs.Prelude.{List, ℕ, reverse};
    ghost use Rattle.call_frames.specs.CallRows.{AreRows, numbers_in, row_views};

    ghost Value = { List ℕ };

    ghost view = { λ c. numbers_in (row_views (reverse c.rows.items)) };

    ghost invariant = { λ c. AreRows (reverse c.rows.items) };
}

impl LaterCalls {
    /// No calls.
    pub fn none(alloc: Global) -> LaterCalls
        ensures { result ≡ [] }
    {
        LaterCalls {
            rows: Vec::new(alloc),
        }
    }

    /// Puts a call, and so many that follow it, before the others.
    pub fn put(&mut self, first: u32, more: u32) -> Result<(), AllocError>
        requires { first + more < 2 ^ 32 }
        ensures { OnOk result (self.new ≡ upto first more ++ self.old) }
    {
        put_before(&mut self.rows, first, more)
    }

    /// The calls, once all are told.
    pub fn all(self) -> Calls
        ensures { result ≡ self }
    {
        let LaterCalls { rows } = self;
        let mut in_order = rows;
        in_order.reverse();
        Calls { rows: in_order }
    }
}
