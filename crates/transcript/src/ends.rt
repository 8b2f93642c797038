//! The texts of ends.

ghost use Rattle.std.specs.Prelude.{◌≡◌, ◌++◌, [], OnOk, codes};
ghost use Rattle.script_model.specs.Transcript.{area_text, end_text, name_at, trap_text};
ghost use Rattle.wa_model.specs.declared.events.End.TheVariants.{HostLimit, OtherImport};
ghost use Rattle.transcript.specs.Printing.{of_imports};

use crate::parts::{name_of, put, put_name, put_value_or_none, put_with_number};
use std::alloc::{AllocError, Global};
use wa_model::End;
use wa_types::{Name, Trap};

/// Puts how a program ended.
pub fn put_end(
    alloc: Global,
    text: &mut Vec<u8>,
    how: &End,
    imports: &[Name],
) -> Result<(), AllocError>
    ensures { OnOk result (text.new.items ≡ text.old.items ++ end_text (of_imports imports.now) how.now) }
{
    match how {
        End::Done => put(text, "done"),
        End::Trapped(trap) => put_trap(text, *trap, ""),
        End::UnwindTrap { trap, used, len } => {
            put_trap(text, *trap, " while unwinding ")?;
            put_area(alloc, text, *used, *len)
        }
        End::RewindTrap(trap) => put_trap(text, *trap, " while rewinding"),
        End::ElementsOut(n) => put_with_number(
            alloc,
            text,
            "elements out of bounds ",
            u64::from(*n),
        ),
        End::BytesOut(n) => put_with_number(alloc, text, "data out of bounds ", u64::from(*n)),
        End::HostLimit { entries, found } => put_host_limit(alloc, text, *entries, *found),
        End::NoAnswer(import) => put_import(text, "no answer for ", *import, imports),
        End::OtherImport { called, named } => put_other(text, *called, named, imports),
        End::BadAnswer { import, value } => {
            put(text, "bad answer ")?;
            put_value_or_none(alloc, text, *value)?;
            put_import(text, " for ", *import, imports)
        }
        End::BadPoke { at, len } => {
            put_with_number(alloc, text, "bad poke ", u64::from(*at))?;
            put_with_number(alloc, text, " ", u64::from(*len))
        }
        End::UnlistedPause(import) => put_import(text, "unlisted pause ", *import, imports),
        End::PauseInStart(import) => put_import(text, "pause in start ", *import, imports),
        End::DeviceFault(import) => put_import(text, "device fault ", *import, imports),
        End::NoDevice(import) => put_import(text, "no device ", *import, imports),
        End::Stalled(import) => put_import(text, "stalled ", *import, imports),
        End::StepsSpent(n) => put_with_number(alloc, text, "steps spent ", *n),
        End::Broken(rule) => put_with_number(alloc, text, "protocol broken ", u64::from(*rule)),
    }
}

// Words and the joined name of an import.
fn put_import(
    text: &mut Vec<u8>,
    words: &str,
    import: u32,
    imports: &[Name],
) -> Result<(), AllocError>
    ensures { OnOk result (text.new.items ≡ text.old.items ++ (words.now ++ name_at imports.now import)) }
{
    put(text, words)?;
    put_name(text, name_of(imports, import))
}

// An answer for another import than the one that is called.
fn put_other(
    text: &mut Vec<u8>,
    called: u32,
    named: &Name,
    imports: &[Name],
) -> Result<(), AllocError>
    ensures { OnOk result (text.new.items ≡ text.old.items ++ end_text (of_imports imports.now) (OtherImport called named.now)) }
{
    put(text, "answer for ")?;
    put_name(text, named.as_str())?;
    put_import(text, " where ", called, imports)?;
    put(text, " is called")
}

// What the host has less of than a module wants.
fn put_host_limit(
    alloc: Global,
    text: &mut Vec<u8>,
    entries: bool,
    found: u32,
) -> Result<(), AllocError>
    ensures { OnOk result (text.new.items ≡ text.old.items ++ end_text (of_imports []) (HostLimit entries found)) }
{
    let words = if entries {
        "host limit entries "
    } else {
        "host limit pages "
    };
    put_with_number(alloc, text, words, u64::from(found))
}

// A trap, and words behind it.
fn put_trap(text: &mut Vec<u8>, trap: Trap, words: &str) -> Result<(), AllocError>
    ensures { OnOk result (text.new.items ≡ text.old.items ++ (codes "trap " ++ trap_text trap ++ words.now)) }
{
    put(text, "trap ")?;
    put(text, trap_text(trap))?;
    put(text, words)
}

fn trap_text(trap: Trap) -> &'static str
    ensures { result.now ≡ trap_text trap }
{
    match trap {
        Trap::DivideByZero => "integer divide by zero",
        Trap::IntegerOverflow => "integer overflow",
        Trap::OutOfBounds => "out of bounds memory access",
        Trap::Unreachable => "unreachable",
        Trap::UndefinedElement => "undefined element",
        Trap::UninitializedElement => "uninitialized element",
        Trap::TypeMismatch => "indirect call type mismatch",
        Trap::StackExhausted => "call stack exhausted",
        Trap::Import => "import trap",
    }
}

/// Puts how much of an area is used.
pub fn put_area(alloc: Global, text: &mut Vec<u8>, used: u32, len: u32) -> Result<(), AllocError>
    ensures { OnOk result (text.new.items ≡ text.old.items ++ area_text used len) }
{
    put_with_number(alloc, text, "area ", u64::from(used))?;
    put_with_number(alloc, text, " of ", u64::from(len))
}
