//! A program of a plan that is put back at a pause, with the parts and the memory that it had there.

ghost use Rattle.std.specs.Prelude.{◌≡◌, ◌≤◌, ◌<◌, ◌-◌, ◌*◌, ◌^◌, ℕ, List, Ok, All, IfOk, MatchOption, drop, length};
ghost use Rattle.std.specs.Bool.{OnTrue, OnFalse};
ghost use Rattle.wa_types.specs.Memory.{page_size};
ghost use Rattle.wa_types.specs.Modules.{imported, imported_global};
ghost use Rattle.wa_types.specs.View.{module_of};
ghost use Rattle.wa_model.specs.View.{answer_line_of, answer_of};
ghost use Rattle.world_model.specs.World.{Program as WorldProgram};
ghost use Rattle.run_theory.specs.Fitting.{types_of, global_types};
ghost use Rattle.host_laws.specs.Answering.{IsShort};
ghost use Rattle.snapshot_store.specs.Views.{parts_of};
ghost use Rattle.pause_host.specs.Moves.{HasShortPokes, IsSetting};
ghost use Rattle.pause_host.specs.Programs.{lines_left, source_of};
ghost use Rattle.pause_host.specs.Suspending.{NumbersSuit, Suspends};

use crate::faults::ThawFault;
use crate::globals::globals_suit;
use crate::plan::Plan;
use crate::program::{Program, State};
use crate::running::answered;
use crate::stages::{EntryCall, Pause, Setting, Stage, Task};
use host_setup::SetupFault;
use interp::{Instance, may_have_pages};
use snapshot_store::PausedParts;
use std::alloc::{AllocError, Global};
use std::collections::VecDeque;
use wa_model::AnswerLine;

impl<'m> Program<'m> {
    ghost use Rattle.wa_types.specs.View.{module_of};
    ghost use Rattle.host_setup.specs.SetUp.{set_up};
    ghost use Rattle.interp.specs.Host.{code_in};
    ghost use Rattle.pause_host.specs.FromPlans.{IsOfPlan};
    ghost use Rattle.pause_host.specs.Hosting.{HasMemory};
    ghost use Rattle.pause_host.specs.Programs.{IsPlan, named_entries};
    ghost use Rattle.pause_host.specs.Suspending.{IsLeft, TakesNone, TakesPause};
    ghost use Rattle.wa_types.specs.Validity.{Valid as IsValid};
    ghost use Rattle.pause_host.specs.Thawing.{IsAccepted, Thaws};
    ghost use Rattle.pause_host.specs.declared.plan.Plan.{Plan as PlanValue};

    /// A program of a plan of which `new` makes one, put back at the pause of which these are the parts, with this memory of so many
    /// pages. It goes on behind that pause, as the program of a world that begins there. Unfit exactly where the parts don't fit the
    /// plan.
    pub fn thaw(
        alloc: Global,
        plan: Plan<'m>,
        parts: &PausedParts,
        memory: &[u8],
    ) -> Result<Program<'m>, ThawFault>
        requires plan { IsPlan plan }
        requires accepted { IsAccepted plan }
        requires pages { length memory.now ≡ parts.now.pages * page_size }
        ensures { Thaws plan.entry (parts_of parts.now) memory.now result }
    {
        if !numbers_suit(alloc, &plan, parts)? {
            return Err(ThawFault::Unfit);
        }
        match Program::of_plan(alloc, plan) {
            Ok(program) => program.thawed(alloc, parts, memory),
            Err(SetupFault::Memory) => Err(ThawFault::Memory),
            Err(_) => unreachable!(),
        }
    }

    // The program, which hasn't begun, at the pause.
    fn thawed(
        mut self,
        alloc: Global,
        parts: &PausedParts,
        memory: &[u8],
    ) -> Result<Program<'m>, ThawFault>
        requires valid { IsValid (module_of self.valid.now) }
        requires few { parts.now.answers < 2 ^ 32 }
        requires numbers { NumbersSuit (module_of self.valid.now) self.globals.items self.steps_left (parts_of parts.now) }
        requires memory { HasMemory (module_of self.valid.now) }
        requires whole { length memory.now ≡ parts.now.pages * page_size }
        ensures { (x : PlanValue) (funcs : List ℕ) → IsPlan x → set_up (source_of x) x.area (named_entries x) ≡ Ok funcs → IsOfPlan x funcs self.entry
            → NumbersSuit (source_of x) x.globals.items x.steps (parts_of parts.now) → Thaws x (parts_of parts.now) memory.now result }
    {
        let Some(pause) = self.take_pause(parts, memory.len() as u64) else {
            return Err(ThawFault::Unfit);
        };
        let instance = Instance::restore(alloc, self.valid, &parts.globals, memory)?;
        self.stand(instance, pause, parts.steps_used);
        Ok(self)
    }

    // Takes out the entry that runs and the last answer taken, and what stands before them: the pause, where the answer pauses there.
    fn take_pause(&mut self, parts: &PausedParts, size: u64) -> Option<Pause>
        requires { 1 ≤ parts.now.answers }
        ensures takes { (w : WorldProgram) → IsSetting w self.old.setting → All HasShortPokes (lines_left self.old)
            → MatchOption result (TakesNone w self.old (parts_of parts.now) size) (λ pause. TakesPause w self.old (parts_of parts.now) size self.new pause) }
        ensures rest { IsLeft self.old self.new }
    {
        self.left.number = parts.entry;
        drop_front(&mut self.left.entries, parts.entry);
        drop_front(&mut self.left.answers, parts.answers - 1);
        match self.left.entries.pop_front() {
            None => return None,
            Some(entry) => match self.left.answers.pop_front() {
                None => return None,
                Some(line) => return suspended(&self.setting, entry, parts.import, size, line),
            },
        }
    }

    // Where it stands, once so many steps are used.
    fn stand(&mut self, instance: Instance<'m>, pause: Pause, steps_used: u64)
        requires { steps_used ≤ self.old.steps_left }
        ensures { self.new ≡ record self.old { steps_left = self.old.steps_left - steps_used; state = State.Live instance.entry (Stage.Paused pause) } }
    {
        let stage = Stage::Paused(pause);
        self.steps_left -= steps_used;
        self.state = State::Live { instance, stage };
    }
}

// Whether the steps, the pages and the globals of a pause fit a plan, and an answer was taken.
fn numbers_suit(alloc: Global, plan: &Plan<'_>, parts: &PausedParts) -> Result<bool, AllocError>
    requires { types_of plan.now.globals.items ≡ global_types (imported imported_global (source_of plan.now)) }
    ensures few { IfOk result (λ suit. OnTrue suit (parts.now.answers < 2 ^ 32)) }
    ensures yes { IfOk result (λ suit. OnTrue suit (NumbersSuit (source_of plan.now) plan.now.globals.items plan.now.steps (parts_of parts.now))) }
    ensures no { IfOk result (λ suit. OnFalse suit (NumbersSuit (source_of plan.now) plan.now.globals.items plan.now.steps (parts_of parts.now) → ⊥)) }
{
    if parts.steps_used > plan.steps {
        return Ok(false);
    }
    if parts.answers == 0 {
        return Ok(false);
    }
    if !may_have_pages(alloc, plan.module, parts.pages)? {
        return Ok(false);
    }
    globals_suit(alloc, plan.module, &plan.globals, &parts.globals)
}

// The pause at an import, where this answer line names it, and its answer pauses and passes its tests.
fn suspended(
    setting: &Setting,
    entry: EntryCall,
    import: u32,
    size: u64,
    line: AnswerLine,
) -> Option<Pause>
    ensures { (w : WorldProgram) → IsSetting w setting.now → All IsShort (answer_of line.answer).pokes
        → MatchOption result (Suspends w import size (answer_line_of line) → ⊥)
        (λ pause. (pause.entry ≡ entry) × (pause.import ≡ import) × (pause.answer ≡ line.answer) × Suspends w import size (answer_line_of line)) }
{
    let Some(called) = setting.imports.get(import as usize) else {
        return None;
    };
    if !is_name(called.name.as_str(), line.import.as_str()) {
        return None;
    }
    let task = Task::Entry(entry);
    match answered(setting, called, size, task, import, line.answer) {
        Stage::Pausing(pause) => Some(pause),
        _ => None,
    }
}

fn is_name(name: &str, other: &str) -> bool
    ensures yes { OnTrue result (name.now ≡ other.now) }
    ensures no { OnFalse result (name.now ≡ other.now → ⊥) }
{
    name == other
}

// Takes off so many items at the front, or all where there are fewer.
fn drop_front<T: Drop>(queue: &mut VecDeque<T>, count: u32)
    ensures { queue.new.items ≡ drop count queue.old.items }
{
    for _ in 0..count {
        match queue.pop_front() {
            None => return,
            Some(_) => {}
        }
    }
}
