//! A script as it was read: its programs with their lines, the devices that it takes out, and its mailboxes.

ghost use Rattle.std.specs.Prelude.{◌≡◌};
ghost use Rattle.script_model.specs.Script.{device_line, lesser_line, mailbox_line, strand_line, unsaved_line};
ghost use Rattle.script_reader.specs.Views.{script_of};

use wa_model::{AnswerLine, Area, Detach};
use wa_types::{Name, Value};

/// The value of the imported globals of a joined name, told at this line.
#[derive(Drop)]
pub struct GlobalText {
    pub line: u32,
    pub name: Name,
    pub value: Value,
}

/// The device or mailbox to which the function imports of a joined name are bound, told at this line.
#[derive(Drop)]
pub struct BindText {
    pub line: u32,
    pub import: Name,
    pub device: Name,
}

/// One more entry call, told at this line.
#[derive(Drop)]
pub struct EntryText {
    pub line: u32,
    pub name: Name,
    pub args: Vec<Value>,
}

/// The memory that is shown after the end: its first byte and its length.
#[derive(Drop)]
pub struct ShowText {
    pub line: u32,
    pub at: u32,
    pub len: u32,
}

/// A further strand of a program, told at this line: its area, and its entries and answer lines in order.
#[derive(Drop)]
pub struct StrandText {
    pub line: u32,
    pub area: Area,
    pub entries: Vec<EntryText>,
    pub answers: Vec<AnswerLine>,
}

/// A program: the line at which it begins, the path of its module, its list of imports where it has one, whether none is
/// listed, whether live locals alone are saved, its area and the line of it, its number of steps, and its lines of each
/// kind in order; those of entries and answers are its first strand's, behind which come the others.
#[derive(Drop)]
pub struct ProgramText {
    pub line: u32,
    pub path: Name,
    pub list: Option<Name>,
    pub ignore_imports: bool,
    pub policy_live: bool,
    pub area: Area,
    pub area_line: u32,
    pub steps: u64,
    pub globals: Vec<GlobalText>,
    pub binds: Vec<BindText>,
    pub entries: Vec<EntryText>,
    pub answers: Vec<AnswerLine>,
    pub shows: Vec<ShowText>,
    pub strands: Vec<StrandText>,
}

/// A mailbox, by which programs wait for one another, declared at this line.
#[derive(Drop)]
pub struct MailboxText {
    pub line: u32,
    pub name: Name,
}

/// The programs of a script, the devices that are taken out, and the mailboxes, no two of one name.
#[derive(Drop)]
pub struct Script {
    pub programs: Vec<ProgramText>,
    pub detaches: Vec<Detach>,
    pub mailboxes: Vec<MailboxText>,
}

/// The line of the first `device`, `mailbox` or `strand` line of a script, where it has one: of what no snapshot holds.
pub fn unsaved_line(script: &Script) -> Option<u32>
    ensures { result ≡ unsaved_line (script_of script.now) }
{
    let beside = lesser_line(mailbox_line(script), strand_line(script));
    lesser_line(device_line(script), beside)
}

/// The line of the first `strand` line of a script, where it has one.
pub fn strand_line(script: &Script) -> Option<u32>
    ensures { result ≡ strand_line (script_of script.now) }
{
    for program in &script.programs {
        if let Some(strand) = program.strands.first() {
            return Some(strand.line);
        }
    }
    None
}

fn mailbox_line(script: &Script) -> Option<u32>
    ensures { result ≡ mailbox_line (script_of script.now) }
{
    let mailbox = script.mailboxes.first()?;
    Some(mailbox.line)
}

fn lesser_line(one: Option<u32>, other: Option<u32>) -> Option<u32>
    ensures { result ≡ lesser_line one other }
{
    match (one, other) {
        (Some(one), Some(other)) => Some(one.min(other)),
        (Some(one), None) => Some(one),
        (None, other) => other,
    }
}

fn device_line(script: &Script) -> Option<u32>
    ensures { result ≡ device_line (script_of script.now) }
{
    for program in &script.programs {
        if let Some(bind) = program.binds.first() {
            return Some(bind.line);
        }
    }
    None
}
