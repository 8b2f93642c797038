//! What items show of that which a file is judged by besides its spelling.

ghost use Rattle.std.specs.Prelude.{◌≡◌, ◌∷◌, List, drop};
ghost use Rattle.wa_types.specs.Begun.{some_value_types, Goal as Wanted};
ghost use Rattle.wa_types.specs.ModuleBounds.{ModuleBounds};
ghost use Rattle.wasm_grammar.specs.Goals.{goal_of, kind_of, list_of};
ghost use Rattle.file_laws.specs.Showing.{Noted, await_results, count_shown, counts_types, entry_shown, head_shown, import_shown, of_types, op_shown, opens_level, shown};

use crate::goals::{EntryKind, Goal};
use crate::stack::Goals;
use file_laws::Marks;
use wa_types::Bounds;

/// Notes what an item of the first goal shows, of this value at this place.
#[inline(always)]
pub(crate) fn note(
    marks: &mut Marks,
    goals: &Goals,
    goal: Goal,
    value: u32,
    at: u64,
    bounds: &Bounds,
)
    requires { goals.now ≡ goal_of goal ∷ drop 1 goals.now }
    ensures { Noted bounds.now (shown bounds.now (goal_of goal) (drop 1 goals.now) value at) marks.old marks.new }
{
    match goal {
        Goal::Code { .. } => note_code(marks, goals.outer_levels(), value, at, bounds),
        Goal::Entries(kind, _) => note_entry(marks, kind, value, at, bounds),
        Goal::Count(kind) => note_count(marks, kind, goals.second(), value, bounds),
        Goal::ValueType => marks.note_type(value, at),
        Goal::BlockType => marks.note_type(value, at),
        Goal::ImportKind => note_import(marks, value),
        Goal::Head { id, .. } => note_head(marks, id, value),
        _ => {}
    }
}

// An opcode, inside so many levels.
fn note_code(marks: &mut Marks, level: u64, op: u32, at: u64, bounds: &Bounds)
    ensures { Noted bounds.now (op_shown bounds.now level op at) marks.old marks.new }
{
    marks.note_op(op, at);
    if opens_level(op) {
        marks.note_level(level, at, bounds);
    }
}

// Whether this is the opcode of a construct (standard, section 5.4.1).
fn opens_level(op: u32) -> bool
    ensures { result ≡ opens_level op }
{
    (0x02 <= op && op <= 0x03) || op == 0x04
}

// The first item of an entry.
fn note_entry(marks: &mut Marks, kind: EntryKind, value: u32, at: u64, bounds: &Bounds)
    ensures { Noted bounds.now (entry_shown (kind_of kind) value at) marks.old marks.new }
{
    match kind {
        EntryKind::Globals => marks.note_type(value, at),
        EntryKind::ValueTypes => marks.note_type(value, at),
        EntryKind::Bodies => marks.note_size(value, bounds),
        _ => {}
    }
}

// A number of entries, before this goal.
fn note_count(marks: &mut Marks, kind: EntryKind, second: Option<Goal>, value: u32, bounds: &Bounds)
    ensures { (gs : List Wanted) → await_results (list_of second) ≡ await_results gs → Noted bounds.now (count_shown (kind_of kind) gs value) marks.old marks.new }
{
    match kind {
        EntryKind::ValueTypes => note_types(marks, awaits_results(second), value, bounds),
        _ => {}
    }
}

// A number of value types, that of a type's parameters or not.
fn note_types(marks: &mut Marks, are_params: bool, value: u32, bounds: &Bounds)
    ensures { (gs : List Wanted) → are_params ≡ await_results gs → Noted bounds.now (count_shown some_value_types gs value) marks.old marks.new }
{
    if are_params {
        marks.note_parameters(value, bounds);
    }
}

// Whether the number of a type's results is wanted here.
fn awaits_results(goal: Option<Goal>) -> bool
    ensures { result ≡ await_results (list_of goal) }
{
    match goal {
        Some(goal) => counts_types(goal),
        None => false,
    }
}

// Whether a number of value types is wanted.
fn counts_types(goal: Goal) -> bool
    ensures { result ≡ counts_types (goal_of goal) }
{
    match goal {
        Goal::Count(kind) => is_types(kind),
        _ => false,
    }
}

// Whether value types are counted.
fn is_types(kind: EntryKind) -> bool
    ensures { result ≡ of_types (kind_of kind) }
{
    match kind {
        EntryKind::ValueTypes => true,
        _ => false,
    }
}

// The byte that says what is imported.
fn note_import(marks: &mut Marks, value: u32)
    ensures { (b : ModuleBounds) → Noted b (import_shown value) marks.old marks.new }
{
    if value == 0x00 {
        marks.note_functions(1);
    }
}

// The first number of a section.
fn note_head(marks: &mut Marks, id: u8, value: u32)
    ensures { (b : ModuleBounds) → Noted b (head_shown id value) marks.old marks.new }
{
    if id == 3 {
        marks.note_functions(value);
    }
}
