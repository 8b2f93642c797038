//! The answer line that a new call of an import takes.

ghost use Rattle.std.specs.Prelude.{◌≡◌, IfOk, map};
ghost use Rattle.wa_model.specs.View.{answer_line_of};
ghost use Rattle.world_model.specs.World.{MeetsLine};
ghost use Rattle.host_laws.specs.Answering.{line_fault, outcome_of};

use std::alloc::{AllocError, Global};
use std::collections::VecDeque;
use wa_model::{Answer, AnswerLine, End};
use wa_types::Name;

/// What a call meets: an answer, or the end of its program.
#[derive(Drop)]
pub enum Met {
    Given(Answer),
    Refused(End),
}

/// What a new call of the import of this number and joined name meets among the lines that are left. It takes the next line where
/// that has the name, and else none.
pub fn next_answer(
    alloc: Global,
    import: u32,
    name: &str,
    lines: &mut VecDeque<AnswerLine>,
) -> Result<Met, AllocError>
    ensures { IfOk result (λ met. MeetsLine import name.now (map answer_line_of lines.old.items) (outcome_of met) (map answer_line_of lines.new.items)) }
{
    if let Some(end) = line_fault(alloc, import, name, lines)? {
        return Ok(Met::Refused(end));
    }
    match lines.pop_front() {
        Some(line) => Ok(Met::Given(line.answer)),
        None => Ok(Met::Refused(End::NoAnswer(import))),
    }
}

// Why no line answers the call: none is left, or the next one has another name.
fn line_fault(
    alloc: Global,
    import: u32,
    name: &str,
    lines: &VecDeque<AnswerLine>,
) -> Result<Option<End>, AllocError>
    ensures { IfOk result (λ fault. fault ≡ line_fault import name.now (map answer_line_of lines.now.items)) }
{
    let Some(line) = lines.front() else {
        return Ok(Some(End::NoAnswer(import)));
    };
    if line.import.as_str() == name {
        return Ok(None);
    }
    let named = Name::new(alloc, line.import.as_str())?;
    Ok(Some(End::OtherImport {
        called: import,
        named,
    }))
}
