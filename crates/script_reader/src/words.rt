//! A line, cut into words in which `%hh` stands for a byte.

ghost use Rattle.std.specs.Prelude.{◌≡◌, ◌==◌, ◌∷◌, ◌++◌, [], OnOk, Some, if◌then◌else◌};
ghost use Rattle.std.specs.List.{slice_split};
ghost use Rattle.script_model.specs.ScriptLines.{hex_value, if_utf8, is_blank, is_comment, joined_digits, line_words, unescaped_parts, word_text};
ghost use Rattle.script_reader.specs.Reading.{Reads, behind_words, or_breaks, told_words};

use crate::word_fault::LineFault;
use std::alloc::{AllocError, Global};
use wa_types::Name;

/// What the words of a line say. A line that begins with `#` has none.
pub fn read_words(alloc: Global, line: &[u8]) -> Result<Vec<Name>, LineFault>
    ensures { Reads (λ words. words.items) result (or_breaks 1 (line_words line.now)) }
{
    match str::from_utf8(line) {
        Ok(_) => text_words(alloc, line),
        Err(_) => Err(LineFault::Rule(1)),
    }
}

// The words of a line in UTF-8.
fn text_words(alloc: Global, line: &[u8]) -> Result<Vec<Name>, LineFault>
    ensures { Reads (λ words. words.items) result (or_breaks 1 (if is_comment line.now then Some [] else told_words (slice_split is_blank line.now))) }
{
    if is_comment(line) {
        return Ok(Vec::new(alloc));
    }
    split_words(alloc, line)
}

fn is_comment(line: &[u8]) -> bool
    ensures { result ≡ is_comment line.now }
{
    match line {
        [] => false,
        [first, ..] => *first == b'#',
    }
}

// What a word says: `%hh` stands for a byte, and what comes out is UTF-8.
fn read_word(alloc: Global, word: &[u8]) -> Result<Name, LineFault>
    ensures { Reads (λ name. name) result (or_breaks 1 (word_text word.now)) }
{
    let text = unescape(alloc, word)?;
    read_text(alloc, &text)
}

fn read_text(alloc: Global, bytes: &[u8]) -> Result<Name, LineFault>
    ensures { Reads (λ name. name) result (or_breaks 1 (if_utf8 (Some bytes.now))) }
{
    match str::from_utf8(bytes) {
        Ok(text) => Ok(Name::new(alloc, text)?),
        Err(_) => Err(LineFault::Rule(1)),
    }
}

// The bytes that a word stands for.
fn unescape(alloc: Global, word: &[u8]) -> Result<Vec<u8>, LineFault>
    ensures { Reads (λ text. text.items) result (or_breaks 1 (unescaped_parts (slice_split (λ b. b == 37) word.now))) }
{
    let mut text = Vec::new(alloc);
    let mut rest = word;
    while let [first, behind @ ..] = rest {
        if *first != b'%' {
            put_byte(&mut text, *first)?;
            rest = behind;
            continue;
        }
        let [high, low, more @ ..] = behind else {
            return Err(LineFault::Rule(1));
        };
        let Some(byte) = joined_digits(*high, *low) else {
            return Err(LineFault::Rule(1));
        };
        put_byte(&mut text, byte)?;
        rest = more;
    }
    Ok(text)
}

pub(crate) fn put_byte(bytes: &mut Vec<u8>, byte: u8) -> Result<(), AllocError>
    ensures { OnOk result (bytes.new.items ≡ bytes.old.items ++ byte ∷ []) }
{
    bytes.push(byte)?;
    Ok(())
}

/// The byte that two hexadecimal digits stand for.
pub(crate) fn joined_digits(high: u8, low: u8) -> Option<u8>
    ensures { result ≡ joined_digits (hex_value high) (hex_value low) }
{
    let high = hex_value(high)?;
    let low = hex_value(low)?;
    Some(high * 16 + low)
}

fn hex_value(digit: u8) -> Option<u8>
    ensures { result ≡ hex_value digit }
{
    match digit {
        b'0'..=b'9' => Some(digit - b'0'),
        b'a'..=b'f' => Some(digit - b'a' + 10),
        b'A'..=b'F' => Some(digit - b'A' + 10),
        _ => None,
    }
}

fn split_words(alloc: Global, line: &[u8]) -> Result<Vec<Name>, LineFault>
    ensures { Reads (λ words. words.items) result (or_breaks 1 (told_words (slice_split is_blank line.now))) }
{
    let mut words = Vec::new(alloc);
    for piece in line.split(|b| is_blank(*b)) {
        put_word(alloc, &mut words, piece)?;
    }
    Ok(words)
}

fn is_blank(byte: u8) -> bool
    ensures { result ≡ is_blank byte }
{
    byte == b' ' || byte == b'\t'
}

// What a piece between blanks says, where it is a word.
fn put_word(alloc: Global, words: &mut Vec<Name>, piece: &[u8]) -> Result<(), LineFault>
    ensures { Reads (λ _. words.new.items) result (or_breaks 1 (behind_words words.old.items (told_words (piece.now ∷ [])))) }
{
    if piece.is_empty() {
        return Ok(());
    }
    let word = read_word(alloc, piece)?;
    push_word(words, word)?;
    Ok(())
}

fn push_word(words: &mut Vec<Name>, word: Name) -> Result<(), AllocError>
    ensures { OnOk result (words.new.items ≡ words.old.items ++ word ∷ []) }
{
    words.push(word)?;
    Ok(())
}
