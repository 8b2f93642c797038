//! Statements: what a line says, by its first word and those behind it.

ghost use Rattle.script_model.specs.ScriptLines.{all_values, area_word, detach_word, device_word, enter_word, global_word, ignore_imports_word, imports_word, line_says, mailbox_word, program_word, save_word, says, says_policy, says_with, show_word, steps_word, strand_word, words_say};
ghost use Rattle.std.specs.Prelude.{◌≡◌, ◌∷◌, ◌++◌, [], IfOk, OnOk, Some};
ghost use Rattle.std.specs.Option.{option_map};
ghost use Rattle.script_reader.specs.Reading.{Reads, or_breaks};
ghost use Rattle.script_reader.specs.Statements.{keyword_of, line_of, statement_of};

use crate::answers::answer_line;
use crate::keywords::{Keyword, keyword_in};
use crate::numbers::{number_within, u32_in, value_in};
use crate::word_fault::LineFault;
use crate::words::read_words;
use std::alloc::{AllocError, Global};
use wa_model::{AnswerLine, Area, Detach};
use wa_types::{Name, Value};

/// What a line of a script says.
#[derive(Drop)]
pub enum Statement {
    /// A program begins, whose module is in the file of this path.
    Program(Name),
    /// The imports of this list are listed.
    Imports(Name),
    /// No import is listed.
    IgnoreImports,
    /// Live locals are saved where told, else all.
    Save { live: bool },
    Area(Area),
    /// So many steps, from 1 to 1,000,000,000.
    Steps(u64),
    /// The value of the imported globals of this joined name.
    Global { name: Name, value: Value },
    /// The function imports of this joined name are bound to a device.
    Device { import: Name, device: Name },
    /// One more entry call.
    Enter { name: Name, args: Vec<Value> },
    /// One more answer.
    Answer(AnswerLine),
    /// Memory is shown after the end, from 1 to 4,096 bytes.
    Show { at: u32, len: u32 },
    Detach(Detach),
    /// A mailbox of this name is declared.
    Mailbox(Name),
    /// A further strand of the program begins, whose area is this.
    Strand(Area),
}

/// What a line says, its end aside: nothing where it has no words or begins with `#`.
pub fn read_line(alloc: Global, line: &[u8]) -> Result<Option<Statement>, LineFault>
    ensures { Reads line_of result (line_says line.now) }
{
    let words = read_words(alloc, line)?;
    words_say(alloc, &words)
}

fn words_say(alloc: Global, words: &[Name]) -> Result<Option<Statement>, LineFault>
    ensures { Reads line_of result (words_say (Some words.now)) }
{
    match words {
        [] => Ok(None),
        [first, rest @ ..] => {
            let statement = says_with(alloc, keyword_in(first.as_str()), rest)?;
            Ok(Some(statement))
        }
    }
}

fn says_with(
    alloc: Global,
    keyword: Option<Keyword>,
    words: &[Name],
) -> Result<Statement, LineFault>
    ensures { Reads statement_of result (says_with (option_map keyword_of keyword) words.now) }
{
    match keyword {
        None => Err(LineFault::Rule(2)),
        Some(keyword) => says(alloc, keyword, words),
    }
}

// What a line says whose first word is this, from the words behind it.
fn says(alloc: Global, keyword: Keyword, words: &[Name]) -> Result<Statement, LineFault>
    ensures { Reads statement_of result (says (keyword_of keyword) words.now) }
{
    match keyword {
        Keyword::Program => program_line(alloc, words),
        Keyword::Imports => imports_line(alloc, words),
        Keyword::IgnoreImports => ignore_imports_line(words),
        Keyword::Save => save_line(words),
        Keyword::Area => area_line(words),
        Keyword::Steps => steps_line(words),
        Keyword::Global => global_line(alloc, words),
        Keyword::Device => device_line(alloc, words),
        Keyword::Enter => enter_line(alloc, words),
        Keyword::Answer => answer_line(alloc, words),
        Keyword::Show => show_line(words),
        Keyword::Detach => detach_line(alloc, words),
        Keyword::Mailbox => mailbox_line(alloc, words),
        Keyword::Strand => strand_line(words),
    }
}

fn program_line(alloc: Global, words: &[Name]) -> Result<Statement, LineFault>
    ensures { Reads statement_of result (says program_word words.now) }
{
    match words {
        [path] => Ok(Statement::Program(copied(alloc, path)?)),
        _ => Err(LineFault::Rule(3)),
    }
}

fn imports_line(alloc: Global, words: &[Name]) -> Result<Statement, LineFault>
    ensures { Reads statement_of result (says imports_word words.now) }
{
    match words {
        [list] => Ok(Statement::Imports(copied(alloc, list)?)),
        _ => Err(LineFault::Rule(3)),
    }
}

fn ignore_imports_line(words: &[Name]) -> Result<Statement, LineFault>
    ensures { Reads statement_of result (says ignore_imports_word words.now) }
{
    match words {
        [] => Ok(Statement::IgnoreImports),
        _ => Err(LineFault::Rule(3)),
    }
}

fn save_line(words: &[Name]) -> Result<Statement, LineFault>
    ensures { Reads statement_of result (says save_word words.now) }
{
    match words {
        [policy] => says_policy(policy.as_str()),
        _ => Err(LineFault::Rule(3)),
    }
}

fn says_policy(policy: &str) -> Result<Statement, LineFault>
    ensures { Reads statement_of result (says_policy policy.now) }
{
    if policy == "all" {
        return Ok(Statement::Save { live: false });
    }
    if policy == "live" {
        return Ok(Statement::Save { live: true });
    }
    Err(LineFault::Rule(3))
}

fn area_line(words: &[Name]) -> Result<Statement, LineFault>
    ensures { Reads statement_of result (says area_word words.now) }
{
    match words {
        [at, len] => {
            let at = told(u32_in(at.as_str()))?;
            let len = told(u32_in(len.as_str()))?;
            Ok(Statement::Area(Area { at, len }))
        }
        _ => Err(LineFault::Rule(3)),
    }
}

fn steps_line(words: &[Name]) -> Result<Statement, LineFault>
    ensures { Reads statement_of result (says steps_word words.now) }
{
    match words {
        [steps] => {
            let steps = told(number_within(steps.as_str(), 1, 1_000_000_000))?;
            Ok(Statement::Steps(steps))
        }
        _ => Err(LineFault::Rule(3)),
    }
}

fn global_line(alloc: Global, words: &[Name]) -> Result<Statement, LineFault>
    ensures { Reads statement_of result (says global_word words.now) }
{
    match words {
        [name, value] => {
            let value = told(value_in(value.as_str()))?;
            let name = copied(alloc, name)?;
            Ok(Statement::Global { name, value })
        }
        _ => Err(LineFault::Rule(3)),
    }
}

fn device_line(alloc: Global, words: &[Name]) -> Result<Statement, LineFault>
    ensures { Reads statement_of result (says device_word words.now) }
{
    match words {
        [import, device] => {
            let import = copied(alloc, import)?;
            let device = copied(alloc, device)?;
            Ok(Statement::Device { import, device })
        }
        _ => Err(LineFault::Rule(3)),
    }
}

fn enter_line(alloc: Global, words: &[Name]) -> Result<Statement, LineFault>
    ensures { Reads statement_of result (says enter_word words.now) }
{
    match words {
        [] => Err(LineFault::Rule(3)),
        [name, rest @ ..] => {
            let args = all_values(alloc, rest)?;
            let name = copied(alloc, name)?;
            Ok(Statement::Enter { name, args })
        }
    }
}

fn all_values(alloc: Global, words: &[Name]) -> Result<Vec<Value>, LineFault>
    ensures { Reads (λ values. values.items) result (or_breaks 4 (all_values words.now)) }
{
    let mut values = Vec::new(alloc);
    for word in words {
        let value = told(value_in(word.as_str()))?;
        put_value(&mut values, value)?;
    }
    Ok(values)
}

fn put_value(values: &mut Vec<Value>, value: Value) -> Result<(), AllocError>
    ensures { OnOk result (values.new.items ≡ values.old.items ++ value ∷ []) }
{
    values.push(value)?;
    Ok(())
}

fn show_line(words: &[Name]) -> Result<Statement, LineFault>
    ensures { Reads statement_of result (says show_word words.now) }
{
    match words {
        [at, len] => {
            let at = told(u32_in(at.as_str()))?;
            let len = told(number_within(len.as_str(), 1, 4096))?;
            let len = len as u32;
            Ok(Statement::Show { at, len })
        }
        _ => Err(LineFault::Rule(3)),
    }
}

fn detach_line(alloc: Global, words: &[Name]) -> Result<Statement, LineFault>
    ensures { Reads statement_of result (says detach_word words.now) }
{
    match words {
        [device, before] => {
            let before = told(number_within(before.as_str(), 1, u64::MAX))?;
            let device = copied(alloc, device)?;
            Ok(Statement::Detach(Detach { device, before }))
        }
        _ => Err(LineFault::Rule(3)),
    }
}

fn mailbox_line(alloc: Global, words: &[Name]) -> Result<Statement, LineFault>
    ensures { Reads statement_of result (says mailbox_word words.now) }
{
    match words {
        [name] => Ok(Statement::Mailbox(copied(alloc, name)?)),
        _ => Err(LineFault::Rule(3)),
    }
}

fn strand_line(words: &[Name]) -> Result<Statement, LineFault>
    ensures { Reads statement_of result (says strand_word words.now) }
{
    match words {
        [at, len] => {
            let at = told(u32_in(at.as_str()))?;
            let len = told(u32_in(len.as_str()))?;
            Ok(Statement::Strand(Area { at, len }))
        }
        _ => Err(LineFault::Rule(3)),
    }
}

/// What is told of a number, a value or bytes, where it is.
pub(crate) fn told<T: Drop>(told: Option<T>) -> Result<T, LineFault>
    ensures { Reads (λ x. x) result (or_breaks 4 told) }
{
    match told {
        Some(x) => Ok(x),
        None => Err(LineFault::Rule(4)),
    }
}

pub(crate) fn copied(alloc: Global, name: &Name) -> Result<Name, AllocError>
    ensures { IfOk result (λ copy. copy ≡ name.now) }
{
    Name::new(alloc, name.as_str())
}
