//! Programs, while their lines are read.

ghost use Rattle.std.specs.Prelude.{◌≡◌, ◌∷◌, ◌++◌, [], OnOk, Result, Some, ℕ, None, List, if◌then◌else◌};
ghost use Rattle.wa_types.specs.Pausing.{list_of};
ghost use Rattle.script_model.specs.Script.{ProgramText as PlainProgram, breaks};
ghost use Rattle.script_model.specs.ScriptLines.{answers, begins_strand, binds, enters, has_area, has_steps, ignores_imports, lists_imports, saves, sets_global, shows};
ghost use Rattle.script_model.specs.ScriptText.{is_error};
ghost use Rattle.wa_model.specs.View.{answer_line_of};
ghost use Rattle.script_reader.specs.Statements.{statement_of};
ghost use Rattle.script_reader.specs.Drafts.{begun, on_program, one_more, or_fault};
ghost use Rattle.script_reader.specs.Views.{Reads, draft_of, finished_as};

use crate::faults::ScriptFault;
use crate::script::{BindText, EntryText, GlobalText, ProgramText, ShowText, StrandText};
use crate::statements::Statement;
use call_graph::{ImportList, ListFault};
use std::alloc::{AllocError, Global};
use wa_model::{AnswerLine, Area};
use wa_types::{Name, Value};

// The steps of a program that tells none.
const DEFAULT_STEPS: u64 = 100_000_000;

// A program has at most so many strands, its first among them.
const MOST_STRANDS: usize = 16;

/// An area and the line that tells it.
#[derive(Clone, Copy)]
pub(crate) struct AreaLine {
    pub line: u32,
    pub area: Area,
}

/// A program, as far as it is told.
#[derive(Drop)]
pub(crate) struct Draft {
    pub line: u32,
    pub path: Name,
    pub list: Option<Name>,
    pub ignore_imports: bool,
    pub policy_live: Option<bool>,
    pub area: Option<AreaLine>,
    pub steps: Option<u64>,
    pub globals: Vec<GlobalText>,
    pub binds: Vec<BindText>,
    pub entries: Vec<EntryText>,
    pub answers: Vec<AnswerLine>,
    pub shows: Vec<ShowText>,
    pub strands: Vec<StrandText>,
}

/// A program that begins at this line.
pub(crate) fn begin_draft(alloc: Global, line: u32, path: Name) -> Draft
    ensures { draft_of result ≡ begun line path }
{
    Draft {
        line,
        path,
        list: None,
        ignore_imports: false,
        policy_live: None,
        area: None,
        steps: None,
        globals: Vec::new(alloc),
        binds: Vec::new(alloc),
        entries: Vec::new(alloc),
        answers: Vec::new(alloc),
        shows: Vec::new(alloc),
        strands: Vec::new(alloc),
    }
}

/// Puts a statement that isn't a program's first line nor about devices taken out into a program.
pub(crate) fn put_statement(
    alloc: Global,
    draft: &mut Draft,
    line: u32,
    statement: Statement,
) -> Result<(), ScriptFault>
    ensures { Reads (λ _. draft_of draft.new) result (on_program line (statement_of statement) (Some (draft_of draft.old))) }
{
    match statement {
        Statement::Program(_) => Ok(()),
        Statement::Imports(list) => put_list(alloc, draft, line, list),
        Statement::IgnoreImports => put_ignore(draft, line),
        Statement::Save { live } => put_policy(draft, line, live),
        Statement::Area(area) => put_area(draft, line, area),
        Statement::Steps(steps) => put_steps(draft, line, steps),
        Statement::Global { name, value } => put_global(draft, line, name, value),
        Statement::Device { import, device } => put_bind(draft, line, import, device),
        Statement::Enter { name, args } => put_entry(draft, line, name, args),
        Statement::Answer(answer) => put_answer(draft, line, answer),
        Statement::Show { at, len } => put_show(draft, line, at, len),
        Statement::Detach(_) => Ok(()),
        Statement::Mailbox(_) => Ok(()),
        Statement::Strand(area) => put_strand(alloc, draft, line, area),
    }
}

fn put_list(alloc: Global, draft: &mut Draft, line: u32, list: Name) -> Result<(), ScriptFault>
    ensures { Reads (λ _. draft_of draft.new) result (on_program line (lists_imports list) (Some (draft_of draft.old))) }
{
    if draft.list.is_some() || draft.ignore_imports {
        return Err(ScriptFault::Rule { line, rule: 6 });
    }
    check_list(alloc, line, list.as_str())?;
    draft.list = Some(list);
    Ok(())
}

// Whether a text is a list of imports.
fn check_list(alloc: Global, line: u32, text: &str) -> Result<(), ScriptFault>
    ensures { Reads (λ _. text.now) result (or_fault (if is_error (list_of text.now) then Some (breaks line 8) else None) text.now) }
{
    match ImportList::parse(alloc, text) {
        Ok(_) => Ok(()),
        Err(ListFault::Memory) => Err(ScriptFault::Memory),
        Err(ListFault::EmptyEntry) => Err(ScriptFault::Rule { line, rule: 8 }),
        Err(ListFault::NoDot) => Err(ScriptFault::Rule { line, rule: 8 }),
        Err(ListFault::StarInside) => Err(ScriptFault::Rule { line, rule: 8 }),
    }
}

fn put_ignore(draft: &mut Draft, line: u32) -> Result<(), ScriptFault>
    ensures { Reads (λ _. draft_of draft.new) result (on_program line ignores_imports (Some (draft_of draft.old))) }
{
    if draft.list.is_some() || draft.ignore_imports {
        return Err(ScriptFault::Rule { line, rule: 6 });
    }
    draft.ignore_imports = true;
    Ok(())
}

fn put_policy(draft: &mut Draft, line: u32, live: bool) -> Result<(), ScriptFault>
    ensures { Reads (λ _. draft_of draft.new) result (on_program line (saves live) (Some (draft_of draft.old))) }
{
    match draft.policy_live {
        Some(_) => Err(ScriptFault::Rule { line, rule: 6 }),
        None => {
            draft.policy_live = Some(live);
            Ok(())
        }
    }
}

fn put_area(draft: &mut Draft, line: u32, area: Area) -> Result<(), ScriptFault>
    ensures { Reads (λ _. draft_of draft.new) result (on_program line (has_area area.at area.len) (Some (draft_of draft.old))) }
{
    match draft.area {
        Some(_) => Err(ScriptFault::Rule { line, rule: 6 }),
        None => {
            draft.area = Some(AreaLine { line, area });
            Ok(())
        }
    }
}

fn put_steps(draft: &mut Draft, line: u32, steps: u64) -> Result<(), ScriptFault>
    ensures { Reads (λ _. draft_of draft.new) result (on_program line (has_steps steps) (Some (draft_of draft.old))) }
{
    match draft.steps {
        Some(_) => Err(ScriptFault::Rule { line, rule: 6 }),
        None => {
            draft.steps = Some(steps);
            Ok(())
        }
    }
}

fn put_global(draft: &mut Draft, line: u32, name: Name, value: Value) -> Result<(), ScriptFault>
    ensures { Reads (λ _. draft_of draft.new) result (on_program line (sets_global name value) (Some (draft_of draft.old))) }
{
    put(&mut draft.globals, GlobalText { line, name, value })?;
    Ok(())
}

fn put_bind(draft: &mut Draft, line: u32, import: Name, device: Name) -> Result<(), ScriptFault>
    ensures { Reads (λ _. draft_of draft.new) result (on_program line (binds import device) (Some (draft_of draft.old))) }
{
    put(
        &mut draft.binds,
        BindText {
            line,
            import,
            device,
        },
    )?;
    Ok(())
}

// An entry belongs to the strand that is being told.
fn put_entry(draft: &mut Draft, line: u32, name: Name, args: Vec<Value>) -> Result<(), ScriptFault>
    ensures { Reads (λ _. draft_of draft.new) result (on_program line (enters name args.items) (Some (draft_of draft.old))) }
{
    let entry = EntryText { line, name, args };
    if let Some(strand) = draft.strands.last_mut() {
        put(&mut strand.entries, entry)?;
        return Ok(());
    }
    put(&mut draft.entries, entry)?;
    Ok(())
}

// And so does an answer.
fn put_answer(draft: &mut Draft, line: u32, answer: AnswerLine) -> Result<(), ScriptFault>
    ensures { Reads (λ _. draft_of draft.new) result (on_program line (answers (answer_line_of answer)) (Some (draft_of draft.old))) }
{
    if let Some(strand) = draft.strands.last_mut() {
        put(&mut strand.answers, answer)?;
        return Ok(());
    }
    put(&mut draft.answers, answer)?;
    Ok(())
}

fn put_show(draft: &mut Draft, line: u32, at: u32, len: u32) -> Result<(), ScriptFault>
    ensures { Reads (λ _. draft_of draft.new) result (on_program line (shows at len) (Some (draft_of draft.old))) }
{
    put(&mut draft.shows, ShowText { line, at, len })?;
    Ok(())
}

fn put_strand(alloc: Global, draft: &mut Draft, line: u32, area: Area) -> Result<(), ScriptFault>
    ensures { Reads (λ _. draft_of draft.new) result (on_program line (begins_strand area.at area.len) (Some (draft_of draft.old))) }
{
    if draft.strands.len() + 1 == MOST_STRANDS {
        return Err(ScriptFault::Rule { line, rule: 3 });
    }
    let strand = StrandText {
        line,
        area,
        entries: Vec::new(alloc),
        answers: Vec::new(alloc),
    };
    put(&mut draft.strands, strand)?;
    Ok(())
}

/// Puts an item behind others.
pub(crate) fn put<T: Drop>(items: &mut Vec<T>, item: T) -> Result<(), AllocError>
    ensures { OnOk result (items.new.items ≡ items.old.items ++ item ∷ []) }
{
    items.push(item)?;
    Ok(())
}

/// The program that is told, or its line where it has no area.
pub(crate) fn finished(draft: Draft) -> Result<ProgramText, u32>
    ensures { (programs : List PlainProgram) → one_more programs (draft_of draft) (draft_of draft).area ≡ finished_as programs result }
{
    let Some(area) = draft.area else {
        return Err(draft.line);
    };
    let policy_live = draft.policy_live.unwrap_or(false);
    let steps = draft.steps.unwrap_or(DEFAULT_STEPS);
    Ok(ProgramText {
        line: draft.line,
        path: draft.path,
        list: draft.list,
        ignore_imports: draft.ignore_imports,
        policy_live,
        area: area.area,
        area_line: area.line,
        steps,
        globals: draft.globals,
        binds: draft.binds,
        entries: draft.entries,
        answers: draft.answers,
        shows: draft.shows,
        strands: draft.strands,
    })
}
