//! The lines of refusals.

ghost use Rattle.std.specs.Prelude.{◌≡◌, ◌++◌, IfOk, OnOk};
ghost use Rattle.script_model.specs.Transcript.{invalid, limit_word, program_text, refusal_line, refusal_text, script};
ghost use Rattle.transcript.specs.Printing.{refusal_of};

use crate::parts::{put, put_number, put_with_name, put_with_number};
use std::alloc::{AllocError, Global};
use wa_types::{LimitKind, Name};

/// Why a command is refused, and the program of a script whose module it is about, where it is about one.
#[derive(Drop)]
pub struct Refusal {
    pub program: Option<u32>,
    pub kind: RefusalKind,
}

/// Why a command is refused. Places and lengths are in bytes.
#[derive(Debug, Drop)]
pub enum RefusalKind {
    /// The words spell no command.
    Usage,
    /// The bytes spell no module; the place of the fault.
    Malformed {
        at: u64,
    },
    /// A float type or opcode; the place of the first.
    Float {
        at: u64,
    },
    /// The module isn't valid: the function, where the fault is in a body, the rule, and the number of the item.
    Invalid {
        func: Option<u32>,
        rule: u8,
        at: u64,
    },
    /// A limit is passed, with the number found.
    Limit {
        what: LimitKind,
        found: u64,
    },
    /// Constructs nest too deep; the place of the first opcode past the bound.
    Nesting {
        at: u64,
    },
    /// An import from the module `asyncify`, or an export under one of the five names.
    Reserved {
        name: Name,
    },
    /// The script breaks a rule at a line, counted from 1.
    Script {
        line: u32,
        rule: u8,
    },
    /// Memory is wanting.
    OutOfMemory,
    /// A file couldn't be read.
    ReadFault {
        name: Name,
    },
    /// A file couldn't be written.
    WriteFault {
        name: Name,
    },
    /// A snapshot is longer than it may be; the length found.
    LimitSnapshot {
        found: u64,
    },
    /// The bytes spell no snapshot that fits the script.
    SnapshotRefused,
}

/// The line of a refusal.
pub fn fault_line(alloc: Global, refusal: &Refusal) -> Result<Vec<u8>, AllocError>
    ensures { IfOk result (λ line. line.items ≡ refusal_line refusal.now.program (refusal_of refusal.now.kind)) }
{
    let mut line = Vec::new(alloc);
    put_program(alloc, &mut line, refusal.program)?;
    put_refusal(alloc, &mut line, &refusal.kind)?;
    put(&mut line, "\n")?;
    Ok(line)
}

// The program of a script, where a refusal is of its module.
fn put_program(alloc: Global, line: &mut Vec<u8>, program: Option<u32>) -> Result<(), AllocError>
    ensures { OnOk result (line.new.items ≡ line.old.items ++ program_text program) }
{
    match program {
        None => Ok(()),
        Some(program) => {
            put(line, "program ")?;
            put_number(alloc, line, u64::from(program))?;
            put(line, ": ")
        }
    }
}

fn put_refusal(alloc: Global, line: &mut Vec<u8>, kind: &RefusalKind) -> Result<(), AllocError>
    ensures { OnOk result (line.new.items ≡ line.old.items ++ refusal_text (refusal_of kind.now)) }
{
    match kind {
        RefusalKind::Usage => put(line, "usage"),
        RefusalKind::Malformed { at } => put_with_number(alloc, line, "malformed at ", *at),
        RefusalKind::Float { at } => put_with_number(alloc, line, "float at ", *at),
        RefusalKind::Invalid { func, rule, at } => put_invalid(alloc, line, *func, *rule, *at),
        RefusalKind::Limit { what, found } => {
            put(line, "limit ")?;
            put(line, limit_word(*what))?;
            put_with_number(alloc, line, " ", *found)
        }
        RefusalKind::Nesting { at } => put_with_number(alloc, line, "limit nesting at ", *at),
        RefusalKind::Reserved { name } => put_with_name(line, "reserved ", name.as_str()),
        RefusalKind::Script { line: number, rule } => put_script(
            alloc,
            line,
            u64::from(*number),
            u64::from(*rule),
        ),
        RefusalKind::OutOfMemory => put(line, "out of memory"),
        RefusalKind::ReadFault { name } => put_with_name(line, "read fault ", name.as_str()),
        RefusalKind::WriteFault { name } => put_with_name(line, "write fault ", name.as_str()),
        RefusalKind::LimitSnapshot { found } => put_with_number(
            alloc,
            line,
            "limit snapshot ",
            *found,
        ),
        RefusalKind::SnapshotRefused => put(line, "snapshot refused"),
    }
}

// A line of a script, and the rule that it breaks.
fn put_script(alloc: Global, line: &mut Vec<u8>, number: u64, rule: u64) -> Result<(), AllocError>
    ensures { OnOk result (line.new.items ≡ line.old.items ++ refusal_text (script number rule)) }
{
    put_with_number(alloc, line, "script line ", number)?;
    put_with_number(alloc, line, " rule ", rule)
}

// A fault of validity, in a body or outside them.
fn put_invalid(
    alloc: Global,
    line: &mut Vec<u8>,
    func: Option<u32>,
    rule: u8,
    at: u64,
) -> Result<(), AllocError>
    ensures { OnOk result (line.new.items ≡ line.old.items ++ refusal_text (invalid func rule at)) }
{
    put_with_number(alloc, line, "invalid rule ", u64::from(rule))?;
    match func {
        None => put(line, " module"),
        Some(func) => {
            put_with_number(alloc, line, " function ", u64::from(func))?;
            put_with_number(alloc, line, " at ", at)
        }
    }
}

fn limit_word(what: LimitKind) -> &'static str
    ensures { result.now ≡ limit_word what }
{
    match what {
        LimitKind::File => "file",
        LimitKind::Functions => "functions",
        LimitKind::Parameters => "parameters",
        LimitKind::Body => "body",
        LimitKind::Locals => "locals",
        LimitKind::Output => "output",
        LimitKind::Script => "script",
        LimitKind::Programs => "programs",
    }
}
