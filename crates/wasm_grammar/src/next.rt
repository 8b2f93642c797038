//! What comes in the place of a goal behind its item (standard, sections 5.3 to 5.5).

ghost use Rattle.std.specs.Option.{option_map};
ghost use Rattle.std.specs.Prelude.{◌≡◌, ℕ, ◌<◌, ◌^◌, Some, [], ◌∷◌, map};
ghost use Rattle.wa_types.specs.Begun.{next, exact, may_follow, name_of, some_of, others, and_then, entry, where_true, content, behind_flag, behind_kind, behind_opcode, immediates_of, size as size_of};
ghost use Rattle.wa_types.specs.Opcodes.{within, follows, is_value_type, zeros_of};
ghost use Rattle.wasm_grammar.specs.Forms.{follows_of};
ghost use Rattle.wasm_grammar.specs.Goals.{goal_of, kind_of, list_of, few_of, new_of};

use crate::goals::{EntryKind, Goal, TextLen};
use crate::opcodes::{ImmediateForm, immediate_form};

/// Up to four goals, the first first.
pub(crate) type Few = (Option<Goal>, Option<Goal>, Option<Goal>, Option<Goal>);

/// The goals in the place of one whose item has this value and ends at this place; none where the value is
/// wrong.
#[tactic(auto, unfolding(wa_types::specs::Begun::next))]
#[inline(always)]
pub(crate) fn next(goal: Goal, value: u32, at: u64) -> Option<Few>
    requires { at < 2 ^ 63 }
    ensures { new_of result ≡ next (goal_of goal) value at }
{
    match goal {
        Goal::Exact(byte) => when(value == byte as u32),
        Goal::Sections { last, owed } => behind_id(last, owed, value),
        Goal::Size { id, last, owed } => Some(one(Goal::Head {
            id,
            last,
            owed,
            end: at + value as u64,
        })),
        Goal::Head {
            id,
            last,
            owed,
            end,
        } => content(id, last, owed, end, value),
        Goal::Until(_) => None,
        Goal::Rest(end) => Some(one(Goal::Rest(end))),
        Goal::Entries(kind, n) => entry(kind, n, value, at),
        Goal::Count(kind) => Some((some_of(kind, value), None, None, None)),
        Goal::Name => Some((name_of(value), None, None, None)),
        Goal::ValueType => when(is_value_type(value)),
        Goal::BlockType => when(value == 0x40 || is_value_type(value)),
        Goal::Mutable => when(value <= 0x01),
        Goal::ImportKind => behind_kind(value),
        Goal::Space => when(value <= 0x03),
        Goal::Limits => behind_flag(value, None),
        Goal::Code { first_arm } => behind_opcode(first_arm, value),
        Goal::BulkNumber => zeros(value),
        Goal::Number
        | Goal::Signed32
        | Goal::Signed64
        | Goal::NameBytes(_)
        | Goal::Float32
        | Goal::Float64 => Some((None, None, None, None)),
    }
}

// One goal.
#[inline(always)]
fn one(goal: Goal) -> Few
    ensures { few_of result ≡ goal_of goal ∷ [] }
{
    (Some(goal), None, None, None)
}

// Nothing more, where something holds.
#[inline(always)]
fn when(holds: bool) -> Option<Few>
    ensures { new_of result ≡ where_true holds [] }
{
    if holds {
        Some((None, None, None, None))
    } else {
        None
    }
}

// So many bytes of a name.
#[inline(always)]
fn name_of(count: u32) -> Option<Goal>
    ensures { list_of result ≡ name_of count }
{
    if count == 0 {
        None
    } else {
        Some(Goal::NameBytes(TextLen { count }))
    }
}

// So many entries.
#[inline(always)]
fn some_of(kind: EntryKind, n: u32) -> Option<Goal>
    ensures { list_of result ≡ some_of (kind_of kind) n }
{
    if n == 0 {
        None
    } else {
        Some(Goal::Entries(kind, n))
    }
}

// The entries that are left behind one of so many.
#[inline(always)]
fn others(kind: EntryKind, n: u32) -> Option<Goal>
    ensures { list_of result ≡ others (kind_of kind) n }
{
    if n <= 1 {
        None
    } else {
        Some(Goal::Entries(kind, n - 1))
    }
}

// Whether a section may stand behind others (standard, section 5.5.15); the data section owes no body.
fn may_follow(id: u8, last: u8, owed: u32) -> bool
    ensures { result ≡ may_follow id last owed }
{
    id == 0 || (last < id && id <= 11 && !(id == 11 && 0 < owed))
}

// Behind the id of a section.
fn behind_id(last: u8, owed: u32, value: u32) -> Option<Few>
    ensures { new_of result ≡ where_true (may_follow value last owed) (size_of value last owed ∷ []) }
{
    if value > 11 {
        return None;
    }
    let id = value as u8;
    if !may_follow(id, last, owed) {
        return None;
    }
    Some((Some(Goal::Size { id, last, owed }), None, None, None))
}

// Behind the first number of a section's content (standard, sections 5.5.3 to 5.5.14).
fn content(id: u8, last: u8, owed: u32, end: u64, value: u32) -> Option<Few>
    ensures { new_of result ≡ content id end last owed value }
{
    let until = Some(Goal::Until(end));
    let more = Some(Goal::Sections { last: id, owed });
    match id {
        0 => {
            let more = Some(Goal::Sections { last, owed });
            Some((name_of(value), Some(Goal::Rest(end)), more, None))
        }
        1 => Some((some_of(EntryKind::Types, value), until, more, None)),
        2 => Some((some_of(EntryKind::Imports, value), until, more, None)),
        3 => functions(end, value),
        4 => Some((some_of(EntryKind::Tables, value), until, more, None)),
        5 => Some((some_of(EntryKind::Memories, value), until, more, None)),
        6 => Some((some_of(EntryKind::Globals, value), until, more, None)),
        7 => Some((some_of(EntryKind::Exports, value), until, more, None)),
        8 => Some((until, more, None, None)),
        9 => Some((some_of(EntryKind::Elements, value), until, more, None)),
        10 => bodies(owed, end, value),
        11 => Some((some_of(EntryKind::Segments, value), until, more, None)),
        _ => None,
    }
}

// Behind the number of functions, each of which owes a body.
fn functions(end: u64, value: u32) -> Option<Few>
    ensures { (last owed : ℕ) → new_of result ≡ content 3 end last owed value }
{
    let more = Some(Goal::Sections {
        last: 3,
        owed: value,
    });
    Some((
        some_of(EntryKind::Functions, value),
        Some(Goal::Until(end)),
        more,
        None,
    ))
}

// Behind the number of bodies, which is that of the functions (standard, section 5.5.15).
fn bodies(owed: u32, end: u64, value: u32) -> Option<Few>
    ensures { (last : ℕ) → new_of result ≡ content 10 end last owed value }
{
    if value != owed {
        return None;
    }
    Some((
        some_of(EntryKind::Bodies, value),
        Some(Goal::Until(end)),
        Some(Goal::Sections { last: 10, owed: 0 }),
        None,
    ))
}

// Behind the first item of an entry (standard, sections 5.3 and 5.5.4 to 5.5.14).
#[inline(always)]
fn entry(kind: EntryKind, n: u32, value: u32, at: u64) -> Option<Few>
    requires { at < 2 ^ 63 }
    ensures { new_of result ≡ and_then (entry (kind_of kind) value at) (others (kind_of kind) n) }
{
    let more = others(kind, n);
    let code = Some(Goal::Code { first_arm: false });
    match kind {
        EntryKind::Types => {
            let types = Some(Goal::Count(EntryKind::ValueTypes));
            if_so(value == 0x60, (types, types, None, more))
        }
        EntryKind::Imports => {
            let imported = Some(Goal::ImportKind);
            Some((name_of(value), Some(Goal::Name), imported, more))
        }
        EntryKind::Tables => if_so(value == 0x70, (Some(Goal::Limits), None, None, more)),
        EntryKind::Memories => behind_flag(value, more),
        EntryKind::Globals => {
            let is_type = is_value_type(value);
            if_so(is_type, (Some(Goal::Mutable), code, None, more))
        }
        EntryKind::Exports => Some((name_of(value), Some(Goal::Space), Some(Goal::Number), more)),
        EntryKind::Elements => Some((code, Some(Goal::Count(EntryKind::Indices)), None, more)),
        EntryKind::Bodies => {
            let until = Some(Goal::Until(at + value as u64));
            Some((Some(Goal::Count(EntryKind::Runs)), code, until, more))
        }
        EntryKind::Segments => Some((code, Some(Goal::Count(EntryKind::Bytes)), None, more)),
        EntryKind::ValueTypes => if_so(is_value_type(value), (None, None, None, more)),
        EntryKind::Runs => Some((Some(Goal::ValueType), None, None, more)),
        EntryKind::Functions | EntryKind::Indices | EntryKind::Bytes => Some((
            None, None, None, more,
        )),
    }
}

// These goals, where something holds.
#[inline(always)]
fn if_so(holds: bool, goals: Few) -> Option<Few>
    ensures { new_of result ≡ where_true holds (few_of goals) }
{
    if holds { Some(goals) } else { None }
}

// Behind the byte that says whether limits have a maximum (standard, section 5.3.4), and then more.
fn behind_flag(value: u32, more: Option<Goal>) -> Option<Few>
    ensures { new_of result ≡ and_then (behind_flag value) (list_of more) }
{
    match value {
        0x00 => Some((Some(Goal::Number), None, None, more)),
        0x01 => Some((Some(Goal::Number), Some(Goal::Number), None, more)),
        _ => None,
    }
}

// Behind the byte that says what is imported (standard, section 5.5.5).
fn behind_kind(value: u32) -> Option<Few>
    ensures { new_of result ≡ behind_kind value }
{
    match value {
        0x00 => Some((Some(Goal::Number), None, None, None)),
        0x01 => Some((Some(Goal::Exact(0x70)), Some(Goal::Limits), None, None)),
        0x02 => Some((Some(Goal::Limits), None, None, None)),
        0x03 => Some((Some(Goal::ValueType), Some(Goal::Mutable), None, None)),
        _ => None,
    }
}

// Whether this byte is a value type (standard, section 5.3.1).
fn is_value_type(value: u32) -> bool
    ensures { result ≡ is_value_type value }
{
    within(0x7C, 0x7F, value)
}

// Whether a number is in this range.
fn within(low: u32, high: u32, n: u32) -> bool
    ensures { result ≡ within low high n }
{
    low <= n && n <= high
}

// Behind an opcode (standard, sections 5.4.1 and 5.4.6).
fn behind_opcode(first_arm: bool, op: u32) -> Option<Few>
    ensures { new_of result ≡ behind_opcode first_arm op }
{
    let code = Some(Goal::Code { first_arm });
    let inner = Some(Goal::Code { first_arm: false });
    match op {
        0x0B => Some((None, None, None, None)),
        0x05 => if_so(first_arm, (inner, None, None, None)),
        0x02 | 0x03 => Some((Some(Goal::BlockType), inner, code, None)),
        0x04 => Some((
            Some(Goal::BlockType),
            Some(Goal::Code { first_arm: true }),
            code,
            None,
        )),
        _ => match follows(op) {
            None => None,
            Some(shape) => Some(immediates_before(shape, code)),
        },
    }
}

// What follows an opcode (standard, sections 5.4.1 to 5.4.5).
fn follows(op: u32) -> Option<ImmediateForm>
    ensures { follows_of result ≡ follows op }
{
    if op > 0xFF {
        return None;
    }
    immediate_form(op as u8)
}

// The operands of an opcode, and the rest of the code.
fn immediates_before(shape: ImmediateForm, code: Option<Goal>) -> Few
    ensures { Some (few_of result) ≡ immediates_of (follows_of (Some shape)) (list_of code) }
{
    let number = Some(Goal::Number);
    match shape {
        ImmediateForm::Nothing => (None, None, None, code),
        ImmediateForm::ZeroByte => (Some(Goal::Exact(0x00)), None, None, code),
        ImmediateForm::Index => (number, None, None, code),
        ImmediateForm::IndexAndZero => (number, Some(Goal::Exact(0x00)), None, code),
        ImmediateForm::Access => (number, number, None, code),
        ImmediateForm::Labels => (Some(Goal::Count(EntryKind::Indices)), number, None, code),
        ImmediateForm::Constant32 => (Some(Goal::Signed32), None, None, code),
        ImmediateForm::Constant64 => (Some(Goal::Signed64), None, None, code),
        ImmediateForm::Float4 => (Some(Goal::Float32), None, None, code),
        ImmediateForm::Float8 => (Some(Goal::Float64), None, None, code),
        ImmediateForm::Bulk => (Some(Goal::BulkNumber), None, None, code),
    }
}

// The zero bytes behind the number of a copy or a fill of memory.
fn zeros(value: u32) -> Option<Few>
    ensures { new_of result ≡ option_map (map exact) (zeros_of value) }
{
    let zero = Some(Goal::Exact(0x00));
    match value {
        10 => Some((zero, zero, None, None)),
        11 => Some((zero, None, None, None)),
        _ => None,
    }
}
