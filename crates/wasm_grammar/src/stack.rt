//! `Goals`: the stack of the goals that are owed at a place.

ghost use Rattle.std.specs.Prelude.{◌≡◌, ◌<◌, ◌^◌, [], ◌∷◌, ◌++◌, drop, IfNone, IfSome, OnOk, OnErr, IfOk, Some, None, MatchBool};
ghost use Rattle.std.specs.Bool.{OnTrue, OnFalse};
ghost use Rattle.wa_types.specs.Begun.{settled, start, Steps};
ghost use Rattle.wasm_grammar.specs.Goals.{goal_of, list_of, few_of, stack_of};
ghost use Rattle.wasm_grammar.specs.Ends.{IsLeastEnd, least_ends, NoStep, IsReached, is_end, owes_none};
ghost use Rattle.file_laws.specs.Showing.{level_of, levels};

use crate::ends::{Closing, closing_at, end_of, least_with};
use crate::goals::Goal;
use crate::next::{Few, next};
use std::alloc::{AllocError, Global};
use std::marker::Model;

/// The goals at a place of a file, the first on top. Contracts see the list of them.
#[derive(Drop)]
pub struct Goals {
    stack: Vec<Goal>,
    // For each goal that has an end, the least of its own and of those behind it.
    ends: Vec<u64>,
    // The levels of code that stand open.
    codes: usize,
}

impl Model for Goals {
    ghost use Rattle.std.specs.Prelude.{◌≡◌, List, reverse, length};
    ghost use Rattle.wa_types.specs.Begun.{Goal as Wanted};
    ghost use Rattle.wasm_grammar.specs.Goals.{stack_of};
    ghost use Rattle.wasm_grammar.specs.Ends.{least_ends};
    ghost use Rattle.file_laws.specs.Showing.{levels};

    ghost Value = { List Wanted };

    ghost view = { λ s. stack_of s.stack.items };

    ghost invariant = { λ s. (least_ends (stack_of s.stack.items) ≡ reverse s.ends.items) × (s.codes ≡ levels (stack_of s.stack.items)) };
}

impl Goals {
    /// The goals of a file's first byte (standard, section 5.5.15).
    pub fn start(alloc: Global) -> Result<Goals, AllocError>
        ensures { IfOk result (λ gs. gs ≡ start) }
    {
        let mut goals = Goals::none(alloc);
        goals.push(alloc, Goal::Sections { last: 0, owed: 0 })?;
        let version = (
            Some(Goal::Exact(0x01)),
            Some(Goal::Exact(0x00)),
            Some(Goal::Exact(0x00)),
            Some(Goal::Exact(0x00)),
        );
        goals.put(alloc, version)?;
        let magic = (
            Some(Goal::Exact(0x00)),
            Some(Goal::Exact(0x61)),
            Some(Goal::Exact(0x73)),
            Some(Goal::Exact(0x6D)),
        );
        goals.put(alloc, magic)?;
        Ok(goals)
    }

    /// The first goal.
    pub fn top(&self) -> Option<Goal>
        ensures none { IfNone result (self.now ≡ []) }
        ensures some { IfSome result (λ g. self.now ≡ goal_of g ∷ drop 1 self.now) }
    {
        match self.stack.as_slice() {
            [] => None,
            [.., top] => Some(*top),
        }
    }

    /// The goal behind the first.
    pub fn second(&self) -> Option<Goal>
        ensures none { IfNone result (drop 1 self.now ≡ []) }
        ensures some { IfSome result (λ g. drop 1 self.now ≡ goal_of g ∷ drop 2 self.now) }
    {
        let count = self.stack.len();
        if count < 2 {
            return None;
        }
        Some(self.stack[count - 2])
    }

    /// The levels of code that stand open behind the first goal.
    pub fn outer_levels(&self) -> u64
        ensures { result ≡ levels (drop 1 self.now) }
    {
        match self.top() {
            None => 0,
            Some(goal) => (self.codes - level_of(goal)) as u64,
        }
    }

    // The least end of a content.
    fn least_end(&self) -> Option<u64>
        ensures { IsLeastEnd self.now result }
    {
        match self.ends.as_slice() {
            [] => None,
            [.., least] => Some(*least),
        }
    }

    /// The least end of a content up to a place.
    pub fn end_within(&self, last: usize) -> Option<usize>
        ensures { IsReached self.now last result }
    {
        let end = self.least_end()?;
        if end > last as u64 {
            return None;
        }
        Some(end as usize)
    }

    /// Whether a file may end here: sections may follow, and no function is without a body.
    pub fn is_end(&self) -> bool
        ensures { result ≡ is_end self.now }
    {
        match self.stack.as_slice() {
            [goal] => owes_none(*goal),
            _ => false,
        }
    }

    /// Goes on from the first goal, this one, behind an item of this value that ends at this place; false where
    /// that leads nowhere.
    #[inline(always)]
    pub fn step(
        &mut self,
        alloc: Global,
        goal: Goal,
        value: u32,
        at: u64,
    ) -> Result<bool, AllocError>
        requires first { self.old ≡ goal_of goal ∷ drop 1 self.old }
        requires place { at < 2 ^ 63 }
        ensures { IfOk result (λ on. MatchBool on (Steps (goal_of goal) (drop 1 self.old) value at self.new) (NoStep (goal_of goal) (drop 1 self.old) value at)) }
    {
        let Some(new) = next(goal, value, at) else {
            return Ok(false);
        };
        self.pop();
        self.put(alloc, new)?;
        if !self.settle(at) {
            return Ok(false);
        }
        match self.least_end() {
            None => Ok(true),
            Some(end) => Ok(at < end),
        }
    }

    // No goal.
    fn none(alloc: Global) -> Goals
        ensures { result ≡ [] }
    {
        Goals {
            stack: Vec::new(alloc),
            ends: Vec::new(alloc),
            codes: 0,
        }
    }

    /// Puts a goal before the others, or leaves them.
    #[inline(always)]
    pub fn push(&mut self, _alloc: Global, goal: Goal) -> Result<(), AllocError>
        ensures ok { OnOk result (self.new ≡ goal_of goal ∷ self.old) }
        ensures err { OnErr result (self.new ≡ self.old) }
    {
        let Some(end) = end_of(goal) else {
            self.stack.push(goal)?;
            // Each level has a place on the stack, so their number fits.
            let _places = self.stack.len();
            self.codes += level_of(goal);
            return Ok(());
        };
        let least = least_with(end, &self.ends);
        self.ends.push(least)?;
        match self.stack.push(goal) {
            Ok(()) => Ok(()),
            Err(_) => {
                self.ends.pop();
                Err(AllocError)
            }
        }
    }

    // Puts a goal before the others, where there is one.
    #[inline(always)]
    fn push_some(&mut self, alloc: Global, goal: Option<Goal>) -> Result<(), AllocError>
        ensures { OnOk result (self.new ≡ list_of goal ++ self.old) }
    {
        match goal {
            None => Ok(()),
            Some(goal) => self.push(alloc, goal),
        }
    }

    // Puts goals before the others.
    #[inline(always)]
    fn put(&mut self, alloc: Global, goals: Few) -> Result<(), AllocError>
        ensures { OnOk result (self.new ≡ few_of goals ++ self.old) }
    {
        self.push_some(alloc, goals.3)?;
        self.push_some(alloc, goals.2)?;
        self.push_some(alloc, goals.1)?;
        self.push_some(alloc, goals.0)
    }

    /// Takes the first goal away.
    #[inline(always)]
    pub fn pop(&mut self)
        ensures { self.new ≡ drop 1 self.old }
    {
        if let Some(goal) = self.stack.pop() {
            self.codes -= level_of(goal);
            if end_of(goal).is_some() {
                self.ends.pop();
            }
        }
    }

    // Takes the goals away whose content ends at this place; false where one is complete before its end.
    #[inline(always)]
    fn settle(&mut self, at: u64) -> bool
        ensures yes { OnTrue result (settled at self.old ≡ Some self.new) }
        ensures no { OnFalse result (settled at self.old ≡ None) }
    {
        while let Some(goal) = self.top() {
            match closing_at(goal, at) {
                Closing::Wanted => return true,
                Closing::Early => return false,
                Closing::Ended => self.pop(),
            }
        }
        true
    }
}

// Whether a level of code stands open by this goal: one, or none.
#[inline(always)]
fn level_of(goal: Goal) -> usize
    ensures { result ≡ level_of (goal_of goal) }
{
    match goal {
        Goal::Code { .. } => 1,
        _ => 0,
    }
}

// Whether sections may follow, and no function is without a body.
fn owes_none(goal: Goal) -> bool
    ensures { result ≡ owes_none (goal_of goal) }
{
    match goal {
        Goal::Sections { owed, .. } => owed == 0,
        _ => false,
    }
}
