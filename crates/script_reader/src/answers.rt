//! Lines that answer a call of an import: its result, its ticks and its pokes.

ghost use Rattle.std.specs.Prelude.{◌≡◌, ◌∷◌, ◌++◌, [], OnOk, None, Some, false, map, true};
ghost use Rattle.script_model.specs.ScriptLines.{all_pokes, answer_of, answer_with, answer_word, pokes_in, result_in, says, says_answer, u32_in};
ghost use Rattle.wa_model.specs.View.{poke_of};
ghost use Rattle.script_reader.specs.Reading.{Reads, or_breaks};
ghost use Rattle.script_reader.specs.ReadingParts.{triples};
ghost use Rattle.script_reader.specs.Statements.{statement_of};

use crate::bytes::hex_in;
use crate::numbers::{u32_in, value_in};
use crate::statements::{Statement, copied, told};
use crate::word_fault::LineFault;
use std::alloc::{AllocError, Global};
use wa_model::{Answer, AnswerLine, Poke, Said};
use wa_types::Name;

pub(crate) fn answer_line(alloc: Global, words: &[Name]) -> Result<Statement, LineFault>
    ensures { Reads statement_of result (says answer_word words.now) }
{
    match words {
        [name, value, more @ ..] => says_answer(alloc, name, value, more),
        _ => Err(LineFault::Rule(3)),
    }
}

// `[ticks N] [poke AT HEX]*` behind a result.
fn says_answer(
    alloc: Global,
    name: &Name,
    value: &Name,
    more: &[Name],
) -> Result<Statement, LineFault>
    ensures { Reads statement_of result (says_answer name.now value.now more.now) }
{
    if let [word, ticks, pokes @ ..] = more {
        if word.as_str() == "ticks" {
            return answer_with(alloc, name, value, ticks.as_str(), pokes);
        }
    }
    answer_with(alloc, name, value, "0", more)
}

fn answer_with(
    alloc: Global,
    name: &Name,
    value: &Name,
    ticks: &str,
    pokes: &[Name],
) -> Result<Statement, LineFault>
    ensures { Reads statement_of result (answer_with name.now value.now ticks.now (pokes_in pokes.now)) }
{
    if !are_pokes(pokes) {
        return Err(LineFault::Rule(3));
    }
    told_answer(alloc, name, value, ticks, pokes)
}

// An answer of the right form.
fn told_answer(
    alloc: Global,
    name: &Name,
    value: &Name,
    ticks: &str,
    pokes: &[Name],
) -> Result<Statement, LineFault>
    ensures { Reads statement_of result (answer_of name.now (result_in value.now) (u32_in ticks.now) (all_pokes (triples pokes.now))) }
{
    let said = told(result_in(value.as_str()))?;
    let ticks = told(u32_in(ticks))?;
    let pokes = all_pokes(alloc, pokes)?;
    let import = copied(alloc, name)?;
    let answer = Answer { said, pokes, ticks };
    Ok(Statement::Answer(AnswerLine { import, answer }))
}

// A value, `none` or `trap`.
fn result_in(word: &str) -> Option<Said>
    ensures { result ≡ result_in word.now }
{
    if word == "none" {
        return Some(Said::Value(None));
    }
    if word == "trap" {
        return Some(Said::Trap);
    }
    let value = value_in(word)?;
    Some(Said::Value(Some(value)))
}

// Whether the words are of the form `poke AT HEX`, any number of times.
fn are_pokes(words: &[Name]) -> bool
    ensures yes { result ≡ true → pokes_in words.now ≡ Some (triples words.now) }
    ensures no { result ≡ false → pokes_in words.now ≡ None }
{
    let mut rest = words;
    while let [word, _, _, behind @ ..] = rest {
        if word.as_str() != "poke" {
            return false;
        }
        rest = behind;
    }
    rest.is_empty()
}

// The pokes of words of that form.
fn all_pokes(alloc: Global, words: &[Name]) -> Result<Vec<Poke>, LineFault>
    ensures { Reads (λ pokes. map poke_of pokes.items) result (or_breaks 4 (all_pokes (triples words.now))) }
{
    let mut pokes = Vec::new(alloc);
    let mut rest = words;
    while let [_, at, bytes, behind @ ..] = rest {
        let at = told(u32_in(at.as_str()))?;
        let bytes = hex_in(alloc, bytes.as_str())?;
        put_poke(&mut pokes, Poke { at, bytes })?;
        rest = behind;
    }
    Ok(pokes)
}

fn put_poke(pokes: &mut Vec<Poke>, poke: Poke) -> Result<(), AllocError>
    ensures { OnOk result (pokes.new.items ≡ pokes.old.items ++ poke ∷ []) }
{
    pokes.push(poke)?;
    Ok(())
}
