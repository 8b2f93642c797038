//! The tests of an answer: its value, its pokes, and whether it may pause there.

ghost use Rattle.std.specs.Prelude.{◌≡◌, ◌<◌, ◌^◌, ◌+◌, ◌&&◌, List, ◌∷◌, All, Bool, nat_le, not, length, map};
ghost use Rattle.std.specs.Option.{option_copied, option_to_list};
ghost use Rattle.std.specs.List.{find, list_all};
ghost use Rattle.wa_model.specs.Plan.{Plan};
ghost use Rattle.wa_model.specs.Blocking.{answers, bad_pause, bad_poke, bad_value, fault_of, is_off, is_unlisted, overlap, poke_fits};
ghost use Rattle.wa_model.specs.View.{answer_of, poke_of};
ghost use Rattle.host_laws.specs.Answering.{IsShort, listed_of};

use wa_model::{Answer, Area, End, Poke, Said};
use wa_types::{ValType, Value};

/// A call that is answered: its import, the import's result type, and whether the call is inside the start function, or is it.
#[derive(Clone, Copy)]
pub struct AnsweredCall {
    pub import: u32,
    pub result_type: Option<ValType>,
    pub in_start: bool,
}

/// The first test that an answer of a call fails: it is a trap, or a value of the import's result type; every poke lies inside the
/// memory, off the area and off the others; where it pauses, the call isn't inside the start function, and the import isn't told as unlisted.
pub fn answer_fault(
    call: AnsweredCall,
    size: u64,
    area: Area,
    others: &[Area],
    listed: Option<&[bool]>,
    answer: &Answer,
) -> Option<End>
    ensures { (plan : Plan) → plan.area ≡ area → plan.others ≡ others.now → plan.listed ≡ listed_of listed.entry → All IsShort (map poke_of answer.now.pokes.items)
        → result ≡ fault_of (option_to_list call.result_type) size plan call.in_start call.import (answer_of answer.now) }
{
    let import = call.import;
    match bad_value(call.result_type, import, answer.said) {
        Some(end) => Some(end),
        None => match bad_poke(size, area, others, &answer.pokes) {
            Some(end) => Some(end),
            None => bad_pause(
                call.in_start,
                is_unlisted(listed, import),
                import,
                answer.ticks,
            ),
        },
    }
}

// The end by a value of another type than the import's result; a trap is no value.
fn bad_value(result_type: Option<ValType>, import: u32, said: Said) -> Option<End>
    ensures { result ≡ bad_value (option_to_list result_type) import said }
{
    match said {
        Said::Value(value) => {
            if is_result(result_type, value) {
                None
            } else {
                Some(End::BadAnswer { import, value })
            }
        }
        Said::Trap => None,
    }
}

// Whether a value is of a result type.
fn is_result(result_type: Option<ValType>, value: Option<Value>) -> bool
    ensures { result ≡ answers (option_to_list result_type) value }
{
    match result_type {
        None => value.is_none(),
        Some(ty) => match value {
            None => false,
            Some(Value::I32(_)) => ty == ValType::I32,
            Some(Value::I64(_)) => ty == ValType::I64,
        },
    }
}

// The end by the first poke that reaches past the memory, into the area or into one of the others.
fn bad_poke(size: u64, area: Area, others: &[Area], pokes: &[Poke]) -> Option<End>
    ensures { All IsShort (map poke_of pokes.now) → result ≡ bad_poke size (area ∷ others.now) (map poke_of pokes.now) }
{
    match first_bad(size, area, others, pokes) {
        None => None,
        Some(poke) => Some(End::BadPoke {
            at: poke.at,
            len: u32::try_from(poke.bytes.len()).unwrap_or(u32::MAX),
        }),
    }
}

fn first_bad<'p>(size: u64, area: Area, others: &[Area], pokes: &'p [Poke]) -> Option<&'p Poke>
    ensures { option_copied result ≡ find (λ poke. not (poke_fits size (area ∷ others.now) (poke_of poke))) pokes.now }
{
    pokes
        .iter()
        .find(|poke| !poke_fits(size, area, others, poke))
}

// Whether a poke lies inside a memory of this size, off the area and off the others.
fn poke_fits(size: u64, area: Area, others: &[Area], poke: &Poke) -> bool
    ensures { result ≡ poke_fits size (area ∷ others.now) (poke_of poke.now) }
{
    is_inside(size, poke) && is_off(poke, area) && is_off_each(poke, others)
}

// Whether a poke lies inside a memory of this size.
fn is_inside(size: u64, poke: &Poke) -> bool
    ensures { result ≡ nat_le ((poke_of poke.now).at + length (poke_of poke.now).bytes) size }
{
    u64::from(poke.at) + poke.bytes.len() as u64 <= size
}

// Whether a poke lies off each of these ranges.
fn is_off_each(poke: &Poke, areas: &[Area]) -> bool
    ensures { result ≡ list_all (is_off (poke_of poke.now)) areas.now }
{
    areas.iter().all(|area| is_off(poke, *area))
}

// Whether a poke lies off a range.
fn is_off(poke: &Poke, area: Area) -> bool
    ensures { result ≡ is_off (poke_of poke.now) area }
{
    !overlap(u64::from(poke.at), poke.bytes.len() as u64, area)
}

// Whether some bytes of a range are bytes of the area.
fn overlap(at: u64, len: u64, area: Area) -> bool
    requires { at + len < 2 ^ 64 }
    ensures { result ≡ overlap at len area.at area.len }
{
    let area_at = u64::from(area.at);
    let area_end = area_at + u64::from(area.len);
    0 < len && 0 < area.len && at < area_end && area_at < at + len
}

// Whether it is told which imports are listed, and this one isn't.
fn is_unlisted(listed: Option<&[bool]>, import: u32) -> bool
    ensures { result ≡ is_unlisted (listed_of listed.entry) import }
{
    match listed {
        None => false,
        Some(listed) => match listed.get(import as usize) {
            Some(told) => !*told,
            None => true,
        },
    }
}

// Why a call may not pause.
fn bad_pause(in_start: bool, unlisted: bool, import: u32, ticks: u32) -> Option<End>
    ensures { result ≡ bad_pause in_start unlisted import ticks }
{
    if ticks == 0 {
        None
    } else if in_start {
        Some(End::PauseInStart(import))
    } else if unlisted {
        Some(End::UnlistedPause(import))
    } else {
        None
    }
}
