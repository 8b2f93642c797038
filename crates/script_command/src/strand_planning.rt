//! The plan of a script's program with all its strands.

ghost use Rattle.std.specs.Prelude.{◌≡◌, ◌++◌, IfOk, OnOk, map};
ghost use Rattle.std.specs.List.{AllZip};
ghost use Rattle.wa_types.specs.View.{module_of};
ghost use Rattle.script_reader.specs.Views.{program_of, show_of, strand_of};
ghost use Rattle.script_setup.specs.SetUpRules.{strand_names};
ghost use Rattle.script_setup.specs.Views.{set_up_of};
ghost use Rattle.transcript.specs.Printing.{names_of};
ghost use Rattle.script_command.specs.StrandStages.{range_look};
ghost use Rattle.world_hosting.specs.Views.{listing};
ghost use Rattle.world_hosting.specs.Worlds.{FitsPlan, IsListing, look_at, part};
ghost use Rattle.script_command.specs.StrandViews.{IsPlannedStrands, IsStrandPart};
ghost use Rattle.script_command.specs.StrandWorlds.{strand_names_of};
ghost use Rattle.script_command.specs.Views.{SuitsStrands};

use crate::strand_starts::MemoryRange;
use pause_host::Plan;
use script_reader::{ProgramText, ShowText, StrandText};
use script_setup::{SetUp, bindings, copied_entries, program_names, strand_names};
use std::alloc::{AllocError, Global};
use strand_host::{StrandPart, StrandPlan};
use transcript::Names;
use wa_types::Module;
use wasm_validate::Valid;

/// The plan of a program with all its strands, and what is shown of its memory behind its end.
#[derive(Drop)]
pub(crate) struct PlannedStrands<'m> {
    pub plan: StrandPlan<'m>,
    pub shows: Vec<MemoryRange>,
}

/// The plan of a script's program over its module, with what it is given by the set-up rules, which it keeps.
pub(crate) fn plan_strands<'m>(
    alloc: Global,
    valid: &'m Valid,
    listed: Option<Vec<bool>>,
    text: ProgramText,
    given: SetUp,
) -> Result<PlannedStrands<'m>, AllocError>
    requires listed { IsListing (module_of valid.now) (listing listed) }
    requires fits { FitsPlan (program_of text) }
    requires suits { SuitsStrands (module_of valid.now) (program_of text) given }
    ensures { IfOk result (IsPlannedStrands (part (module_of valid.now) (listing listed) (program_of text) (set_up_of given))) }
{
    let binds = bindings(alloc, valid.module(), &text.binds)?;
    let entries = copied_entries(alloc, &text.entries)?;
    let shows = shown_ranges(alloc, &text.shows)?;
    let strands = strand_parts(alloc, text.strands)?;
    let SetUp {
        entries: _,
        funcs: _,
        globals,
    } = given;
    let plan = Plan {
        module: valid,
        listed,
        binds,
        area: text.area,
        steps: text.steps,
        globals,
        entries,
        answers: text.answers,
    };
    Ok(PlannedStrands {
        plan: StrandPlan { plan, strands },
        shows,
    })
}

// What is planned of further strands, in order.
fn strand_parts(alloc: Global, texts: Vec<StrandText>) -> Result<Vec<StrandPart>, AllocError>
    ensures { IfOk result (λ parts. AllZip IsStrandPart (map strand_of texts.items) parts.items) }
{
    let mut parts = Vec::new(alloc);
    for text in texts {
        let part = strand_part(alloc, text)?;
        parts.push(part)?;
    }
    Ok(parts)
}

fn strand_part(alloc: Global, text: StrandText) -> Result<StrandPart, AllocError>
    ensures { IfOk result (IsStrandPart (strand_of text)) }
{
    let entries = copied_entries(alloc, &text.entries)?;
    Ok(StrandPart {
        area: text.area,
        entries,
        answers: text.answers,
    })
}

// The ranges of memory that these lines show.
fn shown_ranges(alloc: Global, shows: &[ShowText]) -> Result<Vec<MemoryRange>, AllocError>
    ensures { IfOk result (λ ranges. map range_look ranges.items ≡ map look_at (map show_of shows.now)) }
{
    let mut ranges = Vec::new(alloc);
    for show in shows {
        ranges.push(MemoryRange {
            at: show.at,
            len: show.len,
        })?;
    }
    Ok(ranges)
}

/// The names of the lines of all strands of a program, in order.
pub(crate) fn all_names(
    alloc: Global,
    module: &Module,
    text: &ProgramText,
) -> Result<Vec<Names>, AllocError>
    ensures { IfOk result (λ names. map names_of names.items ≡ strand_names_of (module_of «module».now) (program_of text.now)) }
{
    let first = program_names(alloc, module, text)?;
    let mut names = Vec::new(alloc);
    names.push(first)?;
    put_names(alloc, &mut names, module, &text.strands)?;
    Ok(names)
}

// Puts the names of the lines of further strands behind others.
fn put_names(
    alloc: Global,
    names: &mut Vec<Names>,
    module: &Module,
    strands: &[StrandText],
) -> Result<(), AllocError>
    ensures { OnOk result (map names_of names.new.items ≡ map names_of names.old.items ++ map (strand_names (module_of «module».now)) (map strand_of strands.now)) }
{
    for strand in strands {
        let next = strand_names(alloc, module, strand)?;
        names.push(next)?;
    }
    Ok(())
}
