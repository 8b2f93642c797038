//! A program of a script, made over its module.

ghost use Rattle.std.specs.Prelude.{ℕ, List, Ok, IfOk};
ghost use Rattle.wa_types.specs.View.{module_of};
ghost use Rattle.host_setup.specs.Views.{Blames};
ghost use Rattle.script_reader.specs.Views.{program_of};
ghost use Rattle.script_setup.specs.Views.{set_up_of};
ghost use Rattle.world_hosting.specs.Worlds.{FitsPlan, IsListing, Part, part};
ghost use Rattle.world_hosting.specs.Views.{IsPlanned, IsStaged, Suits, listing};

use host_setup::SetupFault;
use many_host::{Plan, Program};
use script_reader::{ProgramText, ShowText};
use script_setup::{SetUp, bindings, program_names};
use std::alloc::{AllocError, Global};
use transcript::Names;
use wasm_validate::Valid;

/// A program that has told nothing yet, the names of its lines, and what is shown of its memory behind its end.
#[derive(Drop)]
pub struct Staged<'m> {
    pub(crate) program: Program<'m>,
    pub(crate) names: Names,
    pub(crate) shows: Vec<ShowText>,
}

/// The plan of a program, the names of its lines, and what is shown of its memory behind its end.
#[derive(Drop)]
pub(crate) struct ScriptPlan<'m> {
    pub plan: Plan<'m>,
    pub names: Names,
    pub shows: Vec<ShowText>,
}

/// A script's program over its prepared module, with what it is given by the set-up rules (`set_up_program`), which it keeps. `listed`
/// tells which function imports are listed, where the module was rewritten to be run.
pub fn stage_program<'m>(
    alloc: Global,
    valid: &'m Valid,
    listed: Option<Vec<bool>>,
    text: ProgramText,
    given: SetUp,
) -> Result<Staged<'m>, AllocError>
    requires listed { IsListing (module_of valid.now) (listing listed) }
    requires fits { FitsPlan (program_of text) }
    requires suits { Suits (module_of valid.now) (program_of text) given }
    ensures { IfOk result (IsStaged (part (module_of valid.now) (listing listed) (program_of text) (set_up_of given))) }
{
    let planned = plan_program(alloc, valid, listed, text, given)?;
    start_planned(alloc, planned)
}

/// The plan of a script's program.
pub(crate) fn plan_program<'m>(
    alloc: Global,
    valid: &'m Valid,
    listed: Option<Vec<bool>>,
    text: ProgramText,
    given: SetUp,
) -> Result<ScriptPlan<'m>, AllocError>
    requires listed { IsListing (module_of valid.now) (listing listed) }
    requires fits { FitsPlan (program_of text) }
    requires suits { Suits (module_of valid.now) (program_of text) given }
    ensures { IfOk result (IsPlanned (part (module_of valid.now) (listing listed) (program_of text) (set_up_of given))) }
{
    let names = program_names(alloc, valid.module(), &text)?;
    let binds = bindings(alloc, valid.module(), &text.binds)?;
    let SetUp {
        entries,
        funcs: _,
        globals,
    } = given;
    let plan = Plan {
        module: valid,
        listed,
        binds,
        area: text.area,
        steps: text.steps,
        globals,
        entries,
        answers: text.answers,
    };
    let shows = text.shows;
    Ok(ScriptPlan { plan, names, shows })
}

/// The program of a plan, at its start.
pub(crate) fn start_planned<'m>(
    alloc: Global,
    planned: ScriptPlan<'m>,
) -> Result<Staged<'m>, AllocError>
    requires { (x : Part) × IsPlanned x planned }
    ensures { (x : Part) → IsPlanned x planned.entry → IfOk result (IsStaged x) }
{
    let ScriptPlan { plan, names, shows } = planned;
    match Program::new(alloc, plan) {
        Ok(program) => Ok(Staged {
            program,
            names,
            shows,
        }),
        // The rules asked for what `Program::new` asks.
        Err(fault) => Err(want_of_memory(fault)),
    }
}

// The one fault of a plan that has none.
fn want_of_memory(fault: SetupFault) -> AllocError
    requires { (funcs : List ℕ) × Blames fault (Ok funcs) }
{
    match fault {
        SetupFault::Memory => AllocError,
        _ => unreachable!(),
    }
}
