//! A generated module, rewritten, and the program over it.

ghost use Rattle.std.specs.Prelude.{All, ◌≤◌, ◌≡◌, ◌∷◌, [], ℕ, IfOk, None};
ghost use Rattle.host_setup.specs.Views.{entry_of};
ghost use Rattle.host_setup.specs.declared.faults.SetupFault.TheVariants.{Memory};
ghost use Rattle.wa_model.specs.Rewrites.{Rewrites};
ghost use Rattle.wa_model.specs.View.{answer_line_of};
ghost use Rattle.wa_types.specs.Frames.{Count};
ghost use Rattle.wa_types.specs.Sizes.{StrictSizeRule};
ghost use Rattle.wa_types.specs.Validity.{Valid as IsValid};
ghost use Rattle.wa_types.specs.View.{module_of};
ghost use Rattle.local_spill.specs.Reserved.{reserved_at};
ghost use Rattle.gen_module.specs.Generated.{generated};
ghost use Rattle.gen_module.specs.GeneratedRuns.{all_listed};
ghost use Rattle.pause_host.specs.Programs.{FollowsAlone};
ghost use Rattle.asyncify_app.specs.Plans.{PlansRun, run_entry};
ghost use Rattle.asyncify_app.specs.Playing.{run_program, sleep_answer};

use call_graph::{Choice, Policy, Settings};
use host_setup::SetupFault;
use module_rewrite::{RewriteFault, rewrite_module};
use pause_host::{Entry, Plan, Program, unbound};
use std::alloc::{AllocError, Global};
use wa_model::{Answer, AnswerLine, Area, Said};
use wa_types::{Module, Name, Value};
use wasm_validate::Valid;

/// A page of memory, which rewriting adds.
const AREA: Area = Area { at: 0, len: 65_536 };

const STEPS: u64 = 100_000_000;

/// A valid module with each of its imports listed, rewritten.
pub(crate) fn rewritten(alloc: Global, module: Module) -> Result<Valid, AllocError>
    requires valid { IsValid (module_of «module») }
    requires sizes { StrictSizeRule (module_of «module») }
    requires free { reserved_at (module_of «module») ≡ None }
    requires few { All (λ f. Count (module_of «module») f ≤ 50000) (module_of «module»).funcs }
    ensures { IfOk result (λ v. Rewrites (module_of «module») all_listed (module_of v)) }
{
    let valid = Valid::proved(alloc, module)?;
    let settings = Settings {
        choice: Choice::Every,
        ignore_indirect: false,
        policy: Policy::All,
        asserts: false,
    };
    match rewrite_module(alloc, &valid, &settings) {
        Ok(rewritten) => Ok(rewritten.module),
        Err(RewriteFault::Memory) => Err(AllocError),
        Err(RewriteFault::Reserved(_)) => unreachable!(),
        Err(RewriteFault::Locals { .. }) => unreachable!(),
    }
}

/// The program over a generated module that was rewritten.
pub(crate) fn program_of<'m>(alloc: Global, module: &'m Valid) -> Result<Program<'m>, AllocError>
    requires { (n : ℕ) × (1 ≤ n) × Rewrites (generated n) all_listed (module_of «module».now) }
    ensures { (n : ℕ) → Rewrites (generated n) all_listed (module_of «module».now) → IfOk result (FollowsAlone (run_program n (module_of «module».now)) []) }
{
    let plan = plan_of(alloc, module)?;
    match Program::new(alloc, plan) {
        Ok(program) => Ok(program),
        Err(fault) => Err(want_of_memory(fault)),
    }
}

// The one fault of such a program's set-up.
fn want_of_memory(fault: SetupFault) -> AllocError
    requires { fault ≡ Memory }
{
    match fault {
        SetupFault::Memory => AllocError,
        _ => unreachable!(),
    }
}

// What the program is given.
fn plan_of<'m>(alloc: Global, module: &'m Valid) -> Result<Plan<'m>, AllocError>
    ensures { IfOk result (PlansRun (module_of «module».now)) }
{
    Ok(Plan {
        module,
        listed: Some(vec![in alloc; true]?),
        binds: unbound(alloc, module.module())?,
        area: AREA,
        steps: STEPS,
        globals: Vec::new(alloc),
        entries: vec![in alloc; run_entry(alloc)?]?,
        answers: vec![in alloc; sleep_answer(alloc)?]?,
    })
}

fn run_entry(alloc: Global) -> Result<Entry, AllocError>
    ensures { IfOk result (λ e. entry_of e ≡ run_entry) }
{
    Ok(Entry {
        name: Name::new(alloc, "run")?,
        args: vec![in alloc; Value::I32(7)]?,
    })
}

fn sleep_answer(alloc: Global) -> Result<AnswerLine, AllocError>
    ensures { IfOk result (λ l. answer_line_of l ≡ sleep_answer) }
{
    Ok(AnswerLine {
        import: Name::new(alloc, "env.sleep")?,
        answer: Answer {
            said: Said::Value(Some(Value::I32(41))),
            pokes: Vec::new(alloc),
            ticks: 1,
        },
    })
}
