//! A program, set up over its module: what it is given, or the line and the rule of its first fault.

ghost use Rattle.std.specs.Prelude.{◌≡◌, ◌<◌, ◌^◌, [], ◌∷◌, IfOk, Ok, length, map};
ghost use Rattle.std.specs.Option.{option_map, option_or};
ghost use Rattle.wa_types.specs.View.{module_of};
ghost use Rattle.host_setup.specs.SetUp.{set_up};
ghost use Rattle.host_setup.specs.Views.{entry_of as named_entry_of};
ghost use Rattle.script_reader.specs.Views.{mailbox_of, program_of};
ghost use Rattle.script_setup.specs.SetUpRules.{asked_area, bad_show, box_names, entries_in, global_line, global_values, lines_fault, misbound_line, named_entry, overlap_line, set_up_rules, show_line};
ghost use Rattle.script_setup.specs.SetUpRules.{told_at, told_funcs, told_line, unless_told};
ghost use Rattle.script_setup.specs.Views.{Reads, area_text_of, broken_of, rule_fault, set_up_of};

use crate::areas::{AreaText, asked_area, bad_show, overlap_line};
use crate::entries::{all_entries, entry_line};
use crate::fault::RuleFault;
use crate::globals::{bad_global, global_values};
use crate::mail::misbound_line;
use host_setup::{Entry, SetupFault, set_up};
use script_reader::{MailboxText, ProgramText};
use std::alloc::{AllocError, Global};
use wa_types::{Import, Module, Value};
use wasm_validate::Valid;

/// What a program is given: the entries of all its strands in order, the functions that they call, and one value for each imported global.
#[derive(Drop)]
pub struct SetUp {
    pub entries: Vec<Entry>,
    pub funcs: Vec<u32>,
    pub globals: Vec<Value>,
}

/// What a program of a script with these mailboxes is given over its module; or the line and the rule of its first fault, rules from
/// 9 to 19 one after another. `runs` asks rule 15, too, which `run` alone has. Takes time near linear in the module's imports and
/// exports, the mailboxes and the lines.
pub fn set_up_program(
    alloc: Global,
    valid: &Valid,
    mailboxes: &[MailboxText],
    text: &ProgramText,
    runs: bool,
) -> Result<SetUp, RuleFault>
    requires { length (entries_in (program_of text.now)) < 2 ^ 32 }
    ensures made { Reads set_up_of result (set_up_rules runs (box_names (map mailbox_of mailboxes.now)) (module_of valid.now) (program_of text.now)) }
    ensures entries { IfOk result (λ made. map named_entry_of made.entries.items ≡ map named_entry (entries_in (program_of text.now))) }
{
    let entries = all_entries(alloc, text)?;
    match entry_funcs(alloc, valid, text, &entries) {
        Ok(funcs) => {
            let broken = lines_fault(alloc, valid.module(), mailboxes, text, runs)?;
            unless_broken(alloc, &valid.module().imports, text, broken, entries, funcs)
        }
        Err(fault) => Err(fault),
    }
}

// The functions of the entries of all strands, or the line and the rule of the first fault of its module's set-up.
fn entry_funcs(
    alloc: Global,
    valid: &Valid,
    text: &ProgramText,
    entries: &[Entry],
) -> Result<Vec<u32>, RuleFault>
    requires few { length entries.now < 2 ^ 32 }
    requires same { map named_entry_of entries.now ≡ map named_entry (entries_in (program_of text.now)) }
    ensures { let p = module_of valid.now in let t = program_of text.now in Reads (λ funcs. funcs.items) result
        (told_funcs (asked_area p t) t (set_up p (asked_area p t).area (map named_entry (entries_in t)))) }
{
    let asked = asked_area(alloc, valid.module(), text)?;
    match set_up(alloc, valid, asked.area, entries) {
        Ok(funcs) => Ok(funcs),
        Err(fault) => Err(rule_fault(text, asked, fault)),
    }
}

// The line and the rule of a fault of the module's set-up, of which this area was asked.
fn rule_fault(text: &ProgramText, asked: AreaText, fault: SetupFault) -> RuleFault
    ensures { result ≡ rule_fault (area_text_of asked) (program_of text.now) fault }
{
    match fault {
        SetupFault::Memory => RuleFault::Memory,
        SetupFault::AreaBad => RuleFault::Rule {
            line: asked.line,
            rule: 9,
        },
        SetupFault::NoExports { .. } => RuleFault::Rule {
            line: text.line,
            rule: 10,
        },
        SetupFault::EntryMissing { entry } => RuleFault::Rule {
            line: entry_line(text, entry),
            rule: 11,
        },
        SetupFault::EntryIsImport { entry } => RuleFault::Rule {
            line: entry_line(text, entry),
            rule: 12,
        },
        SetupFault::ArgTypes { entry } => RuleFault::Rule {
            line: entry_line(text, entry),
            rule: 13,
        },
    }
}

// A program whose entries call these functions, unless one of its lines breaks a rule.
fn unless_broken(
    alloc: Global,
    imports: &[Import],
    text: &ProgramText,
    broken: Option<Broken>,
    entries: Vec<Entry>,
    funcs: Vec<u32>,
) -> Result<SetUp, RuleFault>
    ensures made { Reads set_up_of result (unless_told (option_map broken_of broken) (record { funcs = funcs.items; globals = global_values imports.now (program_of text.now).globals })) }
    ensures entries { IfOk result (λ made. made.entries ≡ entries) }
{
    match broken {
        Some(broken) => Err(RuleFault::Rule {
            line: broken.line,
            rule: broken.rule,
        }),
        None => with_values(alloc, imports, text, entries, funcs),
    }
}

fn with_values(
    alloc: Global,
    imports: &[Import],
    text: &ProgramText,
    entries: Vec<Entry>,
    funcs: Vec<u32>,
) -> Result<SetUp, RuleFault>
    ensures made { Reads set_up_of result (Ok (record { funcs = funcs.items; globals = global_values imports.now (program_of text.now).globals })) }
    ensures entries { IfOk result (λ made. made.entries ≡ entries) }
{
    let globals = global_values(alloc, imports, &text.globals)?;
    Ok(SetUp {
        entries,
        funcs,
        globals,
    })
}

/// A line and the rule that it breaks.
#[derive(Clone, Copy)]
pub(crate) struct Broken {
    pub line: u32,
    pub rule: u8,
}

// The first line that breaks a rule of globals, of shown memory, of mailboxes or of strands.
fn lines_fault(
    alloc: Global,
    module: &Module,
    mailboxes: &[MailboxText],
    text: &ProgramText,
    runs: bool,
) -> Result<Option<Broken>, AllocError>
    ensures { IfOk result (λ broken. lines_fault runs (box_names (map mailbox_of mailboxes.now)) (module_of «module».now) (program_of text.now) ≡ option_map broken_of broken) }
{
    match bad_global(alloc, &module.imports, &text.globals)? {
        Some(place) => Ok(Some(Broken {
            line: global_line(text, place),
            rule: 14,
        })),
        None => later_fault(alloc, module, mailboxes, text, runs),
    }
}

// The first line that breaks a rule of shown memory, of mailboxes or of strands.
fn later_fault(
    alloc: Global,
    module: &Module,
    mailboxes: &[MailboxText],
    text: &ProgramText,
    runs: bool,
) -> Result<Option<Broken>, AllocError>
    ensures { let t = program_of text.now in IfOk result (λ broken. option_or (told_at 15 (show_line t) (bad_show runs t.area t.strands t.shows))
        (option_or (told_line 16 (misbound_line (box_names (map mailbox_of mailboxes.now)) (module_of «module».now) t.binds)) (told_line 19 (overlap_line (t.area ∷ []) t.strands)))
        ≡ option_map broken_of broken) }
{
    match bad_show(runs, text.area, &text.strands, &text.shows) {
        Some(place) => Ok(Some(Broken {
            line: show_line(text, place),
            rule: 15,
        })),
        None => mailbox_fault(alloc, module, mailboxes, text),
    }
}

// The first line that breaks a rule of mailboxes or of strands.
fn mailbox_fault(
    alloc: Global,
    module: &Module,
    mailboxes: &[MailboxText],
    text: &ProgramText,
) -> Result<Option<Broken>, AllocError>
    ensures { let t = program_of text.now in IfOk result (λ broken.
        option_or (told_line 16 (misbound_line (box_names (map mailbox_of mailboxes.now)) (module_of «module».now) t.binds)) (told_line 19 (overlap_line (t.area ∷ []) t.strands))
        ≡ option_map broken_of broken) }
{
    match misbound_line(alloc, module, mailboxes, &text.binds)? {
        Some(line) => Ok(Some(Broken { line, rule: 16 })),
        None => Ok(strand_fault(text)),
    }
}

// The first line of a strand whose area overlaps an earlier one.
fn strand_fault(text: &ProgramText) -> Option<Broken>
    ensures { told_line 19 (overlap_line ((program_of text.now).area ∷ []) (program_of text.now).strands) ≡ option_map broken_of result }
{
    match overlap_line(text.area, &text.strands) {
        Some(line) => Some(Broken { line, rule: 19 }),
        None => None,
    }
}

fn global_line(text: &ProgramText, place: usize) -> u32
    ensures { result ≡ global_line (program_of text.now) place }
{
    match text.globals.get(place) {
        Some(global) => global.line,
        None => 0,
    }
}

fn show_line(text: &ProgramText, place: usize) -> u32
    ensures { result ≡ show_line (program_of text.now) place }
{
    match text.shows.get(place) {
        Some(show) => show.line,
        None => 0,
    }
}
