//! Programs with strands over the modules of a script.

ghost use Rattle.std.specs.Prelude.{◌≡◌, IfOk, map};
ghost use Rattle.std.specs.List.{AllZip};
ghost use Rattle.script_command.specs.StrandStages.{AreStrandsStaged, IsStrandsStaged};
ghost use Rattle.script_command.specs.StrandTold.{named_strands};
ghost use Rattle.script_command.specs.Views.{CanOpen, part_of, parts_of};

use crate::programs::Planned;
use crate::strand_planning::{all_names, plan_strands};
use crate::strand_starts::{StagedStrands, stage_strand_plan};
use std::alloc::{AllocError, Global};
use wasm_validate::Valid;

/// The programs that are planned over these modules, with all their strands, of which none has told anything.
pub(crate) fn stage_all_strands<'m>(
    alloc: Global,
    modules: &'m [Valid],
    planned: Vec<Planned>,
) -> Result<Vec<StagedStrands<'m>>, AllocError>
    requires { AllZip CanOpen modules.now planned.items }
    ensures { IfOk result (λ staged. AreStrandsStaged (map named_strands (parts_of modules.now planned.items)) staged.items) }
{
    let mut staged = Vec::new(alloc);
    for plan in planned {
        let valid = &modules[staged.len()];
        let program = stage_strands(alloc, valid, plan)?;
        staged.push(program)?;
    }
    Ok(staged)
}

// One of them, over its module.
fn stage_strands<'m>(
    alloc: Global,
    valid: &'m Valid,
    plan: Planned,
) -> Result<StagedStrands<'m>, AllocError>
    requires { CanOpen valid.now plan }
    ensures { IfOk result (IsStrandsStaged (named_strands (part_of valid.now plan))) }
{
    let Planned {
        listed,
        text,
        given,
    } = plan;
    let names = all_names(alloc, valid.module(), &text)?;
    let planned = plan_strands(alloc, valid, listed, text, given)?;
    stage_strand_plan(alloc, planned.plan, names, planned.shows)
}
