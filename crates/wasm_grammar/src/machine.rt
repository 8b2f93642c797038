//! The machine of the grammar: it takes the items of a file one behind another, and keeps what may come next (standard, section 5.5.15).

ghost use Rattle.std.specs.Prelude.{◌≡◌, ℕ, Bool, List, Some, ◌∷◌, ◌<◌, ◌≤◌, ◌-◌, ◌++◌, length, take, drop, OnOk, IfOk, IfErr, MatchBool};
ghost use Rattle.std.specs.Bool.{OnTrue};
ghost use Rattle.wa_types.specs.Begun.{Begun, IsWhole, wants, Inside, code, entries, some_runs, Goal as Wanted};
ghost use Rattle.wasm_grammar.specs.Goals.{goal_of, kind_of};
ghost use Rattle.wasm_grammar.specs.Items.{FrontIs};
ghost use Rattle.wa_types.specs.ModuleBounds.{ModuleBounds};
ghost use Rattle.file_laws.specs.declared.marks.Marks.{Marks as MarksValue};
ghost use Rattle.wasm_grammar.specs.Machine.{Stands, Waits, IsFault, IsCause, AreMarks};
ghost use Rattle.wasm_grammar.specs.Passing.{Below, Moves};

use crate::goals::{EntryKind, Goal};
use crate::items::{Front, read_item, wants};
use crate::notes::note;
use crate::short::{closes, opened, pass_short, short_entries, short_runs};
use crate::stack::Goals;
use crate::window::Window;
use file_laws::Marks;
use std::alloc::{AllocError, Global};
use thiserror::Error;
use wa_types::Bounds;

/// Why bytes are no file.
#[derive(Clone, Copy, Debug, PartialEq, Eq, Error)]
pub enum CheckFault {
    /// Want of memory.
    #[error("out of memory")]
    Memory,
    /// The least number of bytes that begin no file, or all of them where they lack only more.
    #[error("malformed at byte {at}")]
    Malformed { at: usize },
}

impl From<AllocError> for CheckFault {
    ghost use Rattle.std.specs.Prelude.{◌≡◌};
    ghost use Rattle.wasm_grammar.specs.declared.machine.CheckFault.TheVariants.{Memory};

    ghost from_gives = { λ _ fault. fault ≡ Memory };

    fn from(_error: AllocError) -> CheckFault {
        CheckFault::Memory
    }
}

/// Reads the items of a file, and keeps nothing of them but what may come next and what was marked.
#[derive(Drop)]
pub struct Machine {
    goals: Goals,
    // Where the item begins that isn't whole so far.
    at: usize,
    marks: Marks,
}

impl Machine {
    /// At the first byte.
    pub fn new(alloc: Global) -> Result<Machine, AllocError>
        ensures stands { IfOk result (λ m. (bounds : ModuleBounds) (bytes : List ℕ) → Stands bounds m.marks bytes m.at m.goals) }
        ensures first { IfOk result (λ m. m.at ≡ 0) }
    {
        let goals = Goals::start(alloc)?;
        Ok(Machine {
            goals,
            at: 0,
            marks: Marks::none(),
        })
    }

    /// Takes all items that are whole so far. As the file grows it may be called again, each time over all bytes so far,
    /// from the first on; after an error it may not.
    pub fn feed(
        &mut self,
        alloc: Global,
        bytes: &Window<'_>,
        bounds: &Bounds,
    ) -> Result<(), CheckFault>
        requires from { bytes.now.base ≤ self.old.at }
        requires stands { Stands bounds.now self.old.marks bytes.now.all self.old.at self.old.goals }
        ensures ok { OnOk result (Waits bounds.now self.new.marks bytes.now.all self.new.at self.new.goals) }
        ensures begun { OnOk result (Begun bytes.now.all) }
        ensures more { OnOk result ((piece : List ℕ) → Stands bounds.now self.new.marks (bytes.now.all ++ piece) self.new.at self.new.goals) }
        ensures err { IfErr result (IsFault bytes.now.all) }
        ensures from { bytes.now.base ≤ self.new.at }
    {
        // A window of its own has its fields in registers.
        let file = bytes.again();
        self.feed_all(alloc, &file, bounds)
    }

    // The same over a window that nobody else holds.
    #[inline(always)]
    fn feed_all(
        &mut self,
        alloc: Global,
        bytes: &Window<'_>,
        bounds: &Bounds,
    ) -> Result<(), CheckFault>
        requires from { bytes.now.base ≤ self.old.at }
        requires stands { Stands bounds.now self.old.marks bytes.now.all self.old.at self.old.goals }
        ensures ok { OnOk result (Waits bounds.now self.new.marks bytes.now.all self.new.at self.new.goals) }
        ensures begun { OnOk result (Begun bytes.now.all) }
        ensures more { OnOk result ((piece : List ℕ) → Stands bounds.now self.new.marks (bytes.now.all ++ piece) self.new.at self.new.goals) }
        ensures err { IfErr result (IsFault bytes.now.all) }
        ensures from { bytes.now.base ≤ self.new.at }
    {
        while self.go_on(alloc, bytes, bounds)? {}
        Ok(())
    }

    /// Whether these bytes, which are all that have come, are a whole file; and what was marked along it.
    pub fn finish(&self, bytes: &Window<'_>, bounds: &Bounds) -> Result<Marks, CheckFault>
        requires { Waits bounds.now self.now.marks bytes.now.all self.now.at self.now.goals }
        ensures ok { IfOk result (λ m. IsWhole bytes.now.all) }
        ensures marks { IfOk result (λ m. AreMarks bounds.now bytes.now.all m) }
        ensures err { IfErr result (IsCause bytes.now.all) }
    {
        let last = bytes.len();
        let cut = CheckFault::Malformed { at: last };
        if self.at < last {
            return Err(cut);
        }
        if !self.goals.is_end() {
            return Err(cut);
        }
        Ok(self.marks)
    }

    /// Where the item begins that isn't whole so far.
    pub fn reached(&self) -> usize
        ensures { result ≡ self.now.at }
    {
        self.at
    }

    /// Whether a level past the bound on nesting stands open, or stood.
    pub fn is_deep(&self) -> bool
        ensures { OnTrue result ((k : ℕ) × (self.now.marks.deep ≡ Some k)) }
    {
        match self.marks.deep {
            Some(_) => true,
            None => false,
        }
    }

    // Takes what is short, and one more item; false where that isn't whole yet.
    fn go_on(
        &mut self,
        alloc: Global,
        bytes: &Window<'_>,
        bounds: &Bounds,
    ) -> Result<bool, CheckFault>
        requires from { bytes.now.base ≤ self.old.at }
        requires stands { Stands bounds.now self.old.marks bytes.now.all self.old.at self.old.goals }
        ensures on { IfOk result (λ on. MatchBool on (Stands bounds.now self.new.marks bytes.now.all self.new.at self.new.goals)
            (Waits bounds.now self.new.marks bytes.now.all self.new.at self.new.goals)) }
        ensures more { IfOk result (λ on. MatchBool on ((self.old.at < self.new.at) × (self.new.at ≤ length bytes.now.all)) Unit) }
        ensures ahead { self.old.at ≤ self.new.at }
        ensures err { IfErr result (IsFault bytes.now.all) }
    {
        self.pass(alloc, bytes, bounds)?;
        self.advance(alloc, bytes, bounds)
    }

    // Takes what is short.
    fn pass(&mut self, alloc: Global, bytes: &Window<'_>, bounds: &Bounds) -> Result<(), AllocError>
        requires from { bytes.now.base ≤ self.old.at }
        requires stands { Stands bounds.now self.old.marks bytes.now.all self.old.at self.old.goals }
        ensures ok { OnOk result (Stands bounds.now self.new.marks bytes.now.all self.new.at self.new.goals) }
        ensures ahead { self.old.at ≤ self.new.at }
    {
        let last = bytes.len();
        let end = self.goals.end_within(last);
        let stop = end.unwrap_or(last);
        self.pass_entries(alloc, bytes, stop)?;
        while self.pass_code(alloc, bytes, stop, bounds)? {}
        Ok(())
    }

    // Takes entries of one byte each, or runs of two, with one left.
    fn pass_entries(
        &mut self,
        alloc: Global,
        bytes: &Window<'_>,
        stop: usize,
    ) -> Result<(), AllocError>
        requires from { bytes.now.base ≤ self.old.at }
        requires below { Below stop self.old.goals }
        requires stop { stop ≤ length bytes.now.all }
        ensures ok { OnOk result (Moves bytes.now.all self.old.marks self.old.at self.old.goals self.new.marks self.new.at self.new.goals) }
        ensures below { OnOk result (Below stop self.new.goals) }
        ensures ahead { self.old.at ≤ self.new.at }
    {
        let Some(goal) = self.goals.top() else {
            return Ok(());
        };
        match goal {
            Goal::Entries(EntryKind::Runs, n) => self.pass_runs(alloc, bytes, stop, n),
            Goal::Entries(kind, n) => self.pass_single(alloc, bytes, stop, kind, n),
            _ => Ok(()),
        }
    }

    // Takes entries of one byte each, of so many, with one left.
    fn pass_single(
        &mut self,
        alloc: Global,
        bytes: &Window<'_>,
        stop: usize,
        kind: EntryKind,
        n: u32,
    ) -> Result<(), AllocError>
        requires from { bytes.now.base ≤ self.old.at }
        requires below { Below stop self.old.goals }
        requires stop { stop ≤ length bytes.now.all }
        requires top { self.old.goals ≡ entries (kind_of kind) n ∷ drop 1 self.old.goals }
        ensures ok { OnOk result (Moves bytes.now.all self.old.marks self.old.at self.old.goals self.new.marks self.new.at self.new.goals) }
        ensures below { OnOk result (Below stop self.new.goals) }
        ensures ahead { self.old.at ≤ self.new.at }
    {
        let passed = short_entries(kind, n, bytes, self.at, stop);
        if passed == 0 {
            return Ok(());
        }
        self.goals.pop();
        self.goals.push(alloc, Goal::Entries(kind, n - passed))?;
        self.at += passed as usize;
        Ok(())
    }

    // Takes runs of two bytes each, of so many, with one left.
    fn pass_runs(
        &mut self,
        alloc: Global,
        bytes: &Window<'_>,
        stop: usize,
        n: u32,
    ) -> Result<(), AllocError>
        requires from { bytes.now.base ≤ self.old.at }
        requires below { Below stop self.old.goals }
        requires stop { stop ≤ length bytes.now.all }
        requires top { self.old.goals ≡ entries some_runs n ∷ drop 1 self.old.goals }
        ensures ok { OnOk result (Moves bytes.now.all self.old.marks self.old.at self.old.goals self.new.marks self.new.at self.new.goals) }
        ensures below { OnOk result (Below stop self.new.goals) }
        ensures ahead { self.old.at ≤ self.new.at }
    {
        let passed = short_runs(n, bytes, self.at, stop);
        if passed == 0 {
            return Ok(());
        }
        self.goals.pop();
        self.goals
            .push(alloc, Goal::Entries(EntryKind::Runs, n - passed))?;
        self.at += 2 * passed as usize;
        Ok(())
    }

    // Takes short instructions of one level, and opens or closes a level behind them; false where neither stands there.
    fn pass_code(
        &mut self,
        alloc: Global,
        bytes: &Window<'_>,
        stop: usize,
        bounds: &Bounds,
    ) -> Result<bool, AllocError>
        requires from { bytes.now.base ≤ self.old.at }
        requires stands { Stands bounds.now self.old.marks bytes.now.all self.old.at self.old.goals }
        requires below { Below stop self.old.goals }
        requires stop { stop ≤ length bytes.now.all }
        ensures ok { OnOk result (Stands bounds.now self.new.marks bytes.now.all self.new.at self.new.goals) }
        ensures below { OnOk result (Below stop self.new.goals) }
        ensures ahead { self.old.at ≤ self.new.at }
        ensures more { IfOk result (λ on. OnTrue on (self.old.at < self.new.at)) }
    {
        let Some(goal) = self.goals.top() else {
            return Ok(false);
        };
        if !is_code(goal) {
            return Ok(false);
        }
        self.at = pass_short(bytes, self.at, stop);
        if let Some(first_arm) = opened(bytes, self.at, stop) {
            let level = self.goals.outer_levels();
            self.marks.note_level(level, self.at as u64, bounds);
            self.goals.push(alloc, Goal::Code { first_arm })?;
            self.at += 2;
            return Ok(true);
        }
        if !closes(bytes, self.at, stop) {
            return Ok(false);
        }
        let Some(second) = self.goals.second() else {
            return Ok(false);
        };
        if !is_code(second) {
            return Ok(false);
        }
        self.goals.pop();
        self.at += 1;
        Ok(true)
    }

    // Takes one more item; false where it isn't whole yet.
    fn advance(
        &mut self,
        alloc: Global,
        bytes: &Window<'_>,
        bounds: &Bounds,
    ) -> Result<bool, CheckFault>
        requires from { bytes.now.base ≤ self.old.at }
        requires stands { Stands bounds.now self.old.marks bytes.now.all self.old.at self.old.goals }
        ensures on { IfOk result (λ on. MatchBool on (Stands bounds.now self.new.marks bytes.now.all self.new.at self.new.goals)
            (Waits bounds.now self.new.marks bytes.now.all self.new.at self.new.goals)) }
        ensures more { IfOk result (λ on. MatchBool on ((self.old.at < self.new.at) × (self.new.at ≤ length bytes.now.all)) Unit) }
        ensures ahead { self.old.at ≤ self.new.at }
        ensures err { IfErr result (IsFault bytes.now.all) }
    {
        let last = bytes.len();
        let Some(goal) = self.goals.top() else {
            if self.at == last {
                return Ok(false);
            }
            return Err(CheckFault::Malformed { at: self.at + 1 });
        };
        let end = self.goals.end_within(last);
        let stop = end.unwrap_or(last);
        self.at = skip(goal, self.at, stop);
        match item_between(goal, bytes, self.at, stop) {
            Front::Part => match end {
                None => Ok(false),
                Some(at) => Err(CheckFault::Malformed { at }),
            },
            Front::Wrong { used } => Err(CheckFault::Malformed { at: self.at + used }),
            Front::Whole { value, used } => {
                let place = self.at as u64;
                note(&mut self.marks, &self.goals, goal, value, place, bounds);
                let at = self.at + used;
                if !self.goals.step(alloc, goal, value, at as u64)? {
                    return Err(CheckFault::Malformed { at });
                }
                self.at = at;
                Ok(true)
            }
        }
    }
}

// Passes over bytes that may be any, but for the last one before a stop.
fn skip(goal: Goal, at: usize, stop: usize) -> usize
    ensures on { (bounds : ModuleBounds) (m : MarksValue) (bytes : List ℕ) (gs : List Wanted) → Stands bounds m bytes at (goal_of goal ∷ gs) → stop ≤ length bytes
        → ((j : ℕ) → j < stop → Inside j (goal_of goal ∷ gs)) → Stands bounds m bytes result (goal_of goal ∷ gs) }
    ensures ahead { at ≤ result }
{
    match goal {
        Goal::Rest(_) => at.max(stop.saturating_sub(1)),
        _ => at,
    }
}

// The item that a goal wants, as far as it stands between two places.
fn item_between(goal: Goal, bytes: &Window<'_>, at: usize, stop: usize) -> Front
    requires from { bytes.now.base ≤ at }
    requires start { at ≤ stop }
    requires stop { stop ≤ length bytes.now.all }
    ensures { FrontIs (wants (goal_of goal)) (take (stop - at) (drop at bytes.now.all)) result }
{
    read_item(wants(goal), bytes.between(at, stop))
}

// Whether instructions are wanted.
fn is_code(goal: Goal) -> bool
    ensures { OnTrue result ((first_arm : Bool) × (goal_of goal ≡ code first_arm)) }
{
    match goal {
        Goal::Code { .. } => true,
        _ => false,
    }
}

/// Whether the bytes are a whole file (standard, section 5.5.15), and then what is marked along it; or else where they fail.
pub fn check(alloc: Global, bytes: &Window<'_>, bounds: &Bounds) -> Result<Marks, CheckFault>
    requires { bytes.now.base ≡ 0 }
    ensures ok { IfOk result (λ m. IsWhole bytes.now.all) }
    ensures marks { IfOk result (λ m. AreMarks bounds.now bytes.now.all m) }
    ensures err { IfErr result (IsCause bytes.now.all) }
{
    let mut machine = Machine::new(alloc)?;
    machine.feed(alloc, bytes, bounds)?;
    machine.finish(bytes, bounds)
}
