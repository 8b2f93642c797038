//! Scripts, read line by line.

ghost use Rattle.std.specs.Prelude.{◌≡◌, ◌≤◌, length, OnOk};
ghost use Rattle.std.specs.Option.{option_map};
ghost use Rattle.script_model.specs.ScriptLines.{line_says};
ghost use Rattle.script_model.specs.Script.{strand_line};
ghost use Rattle.script_model.specs.ScriptText.{mixed_line, script_text, unless_mixed};
ghost use Rattle.script_reader.specs.Statements.{line_of, statement_of};
ghost use Rattle.script_reader.specs.Drafts.{closed, closed_last, ended, nothing_read, on_mailboxes, with_line, with_program, with_statement};
ghost use Rattle.script_reader.specs.Views.{Reads, draft_of, programs_of, reading_of, script_of};

use crate::drafts::{Draft, begin_draft, finished, put, put_statement as put_into};
use crate::faults::ScriptFault;
use crate::lines::first_line;
use crate::mailboxes::Mailboxes;
use crate::script::{MailboxText, ProgramText, Script, strand_line};
use crate::statements::{Statement, read_line as read_statement};
use crate::word_fault::LineFault;
use std::alloc::{AllocError, Global};
use wa_model::Detach;
use wa_types::Name;

// A script has at most so many programs.
const MOST_PROGRAMS: u32 = 16;

/// What is known of a script: the programs before the one that is being told, the line of the first of them that lacks its
/// area, how many were begun, the one that is being told, the devices that are taken out, and the mailboxes.
#[derive(Drop)]
struct Reading {
    programs: Vec<ProgramText>,
    missing: Option<u32>,
    count: u32,
    current: Option<Draft>,
    detaches: Vec<Detach>,
    mailboxes: Mailboxes,
}

/// The script that a text of at most 1,048,576 bytes is, or its first fault. Takes time near linear in the text.
pub fn read_script(alloc: Global, bytes: &[u8]) -> Result<Script, ScriptFault>
    requires { length bytes.now ≤ 1_048_576 }
    ensures { Reads script_of result (script_text bytes.now) }
{
    let mut reading = nothing_read(alloc);
    let mut rest = bytes;
    let mut line = 0u32;
    while !rest.is_empty() {
        let (text, behind) = first_line(rest);
        line += 1;
        read_line(alloc, &mut reading, line, text)?;
        rest = behind;
    }
    ended(reading)
}

fn nothing_read(alloc: Global) -> Reading
    ensures { reading_of result ≡ nothing_read }
{
    Reading {
        programs: Vec::new(alloc),
        missing: None,
        count: 0,
        current: None,
        detaches: Vec::new(alloc),
        mailboxes: Mailboxes::none(alloc),
    }
}

fn read_line(
    alloc: Global,
    reading: &mut Reading,
    line: u32,
    text: &[u8],
) -> Result<(), ScriptFault>
    ensures { Reads (λ _. reading_of reading.new) result (with_line line (line_says text.now) (reading_of reading.old)) }
{
    match read_statement(alloc, text) {
        Ok(None) => Ok(()),
        Ok(Some(statement)) => put_statement(alloc, reading, line, statement),
        Err(LineFault::Memory) => Err(ScriptFault::Memory),
        Err(LineFault::Rule(rule)) => Err(ScriptFault::Rule { line, rule }),
    }
}

fn put_statement(
    alloc: Global,
    reading: &mut Reading,
    line: u32,
    statement: Statement,
) -> Result<(), ScriptFault>
    ensures { Reads (λ _. reading_of reading.new) result (with_statement line (statement_of statement) (reading_of reading.old)) }
{
    match statement {
        Statement::Program(path) => begin_program(alloc, reading, line, path),
        Statement::Detach(detach) => {
            put(&mut reading.detaches, detach)?;
            Ok(())
        }
        Statement::Mailbox(name) => declare(alloc, &mut reading.mailboxes, line, name),
        told => match &mut reading.current {
            None => Err(ScriptFault::Rule { line, rule: 5 }),
            Some(draft) => put_into(alloc, draft, line, told),
        },
    }
}

fn begin_program(
    alloc: Global,
    reading: &mut Reading,
    line: u32,
    path: Name,
) -> Result<(), ScriptFault>
    ensures { Reads (λ _. reading_of reading.new) result (with_program line path (reading_of reading.old)) }
{
    if MOST_PROGRAMS <= reading.count {
        return Err(ScriptFault::TooMany {
            found: MOST_PROGRAMS + 1,
        });
    }
    let last = reading.current.take();
    close_last(&mut reading.programs, &mut reading.missing, last)?;
    reading.count += 1;
    reading.current = Some(begin_draft(alloc, line, path));
    Ok(())
}

// One more mailbox, unless its name is declared before.
fn declare(
    alloc: Global,
    mailboxes: &mut Mailboxes,
    line: u32,
    name: Name,
) -> Result<(), ScriptFault>
    ensures { Reads (λ _. mailboxes.new) result (on_mailboxes line name mailboxes.old) }
{
    if mailboxes.declares(name.as_str()) {
        return Err(ScriptFault::Rule { line, rule: 17 });
    }
    mailboxes.put(alloc, MailboxText { line, name })?;
    Ok(())
}

// Puts a program behind those before it, unless one of them lacks its area.
fn close_last(
    programs: &mut Vec<ProgramText>,
    missing: &mut Option<u32>,
    last: Option<Draft>,
) -> Result<(), AllocError>
    ensures { OnOk result (programs_of missing.new programs.new.items ≡ closed_last (programs_of missing.old programs.old.items) (option_map draft_of last)) }
{
    match last {
        None => Ok(()),
        Some(draft) => close(programs, missing, draft),
    }
}

fn close(
    programs: &mut Vec<ProgramText>,
    missing: &mut Option<u32>,
    draft: Draft,
) -> Result<(), AllocError>
    ensures { OnOk result (programs_of missing.new programs.new.items ≡ closed (programs_of missing.old programs.old.items) (draft_of draft)) }
{
    if missing.is_some() {
        return Ok(());
    }
    match finished(draft) {
        Ok(program) => put(programs, program),
        Err(line) => {
            *missing = Some(line);
            Ok(())
        }
    }
}

// The script, once all lines are read.
fn ended(reading: Reading) -> Result<Script, ScriptFault>
    ensures { Reads script_of result (ended (reading_of reading)) }
{
    let Reading {
        mut programs,
        mut missing,
        count: _,
        current,
        detaches,
        mailboxes,
    } = reading;
    close_last(&mut programs, &mut missing, current)?;
    match missing {
        Some(line) => Err(ScriptFault::Rule { line, rule: 7 }),
        None => unless_mixed(Script {
            programs,
            detaches,
            mailboxes: mailboxes.into_texts(),
        }),
    }
}

// A script, unless it has a mailbox and a further strand both.
fn unless_mixed(script: Script) -> Result<Script, ScriptFault>
    ensures { Reads script_of result (unless_mixed (mixed_line (script_of script).mailboxes (strand_line (script_of script))) (script_of script)) }
{
    match mixed_line(&script) {
        Some(line) => Err(ScriptFault::Rule { line, rule: 20 }),
        None => Ok(script),
    }
}

// The first line that begins a further strand, where there is a mailbox besides.
fn mixed_line(script: &Script) -> Option<u32>
    ensures { result ≡ mixed_line (script_of script.now).mailboxes (strand_line (script_of script.now)) }
{
    if script.mailboxes.is_empty() {
        return None;
    }
    strand_line(script)
}
