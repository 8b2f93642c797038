//! Programs over the modules of a script.

ghost use Rattle.std.specs.Prelude.{◌≡◌, IfOk};
ghost use Rattle.std.specs.List.{AllZip};
ghost use Rattle.script_command.specs.Views.{CanStage, parts_of};
ghost use Rattle.world_hosting.specs.Views.{AreStaged};

use crate::programs::Planned;
use std::alloc::{AllocError, Global};
use wasm_validate::Valid;
use world_hosting::{Staged, stage_program};

/// The programs that are planned over these modules, of which none has told anything.
pub fn stage_all<'m>(
    alloc: Global,
    modules: &'m [Valid],
    planned: Vec<Planned>,
) -> Result<Vec<Staged<'m>>, AllocError>
    requires { AllZip CanStage modules.now planned.items }
    ensures { IfOk result (λ staged. AreStaged (parts_of modules.now planned.items) staged.items) }
{
    let mut staged = Vec::new(alloc);
    for plan in planned {
        let valid = &modules[staged.len()];
        let program = stage_program(alloc, valid, plan.listed, plan.text, plan.given)?;
        staged.push(program)?;
    }
    Ok(staged)
}
