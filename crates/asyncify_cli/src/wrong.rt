//! Which word keeps the words from being a command. `command_words` decides that they are none; this only says why.

use call_graph::{ImportList, ListFault};
use std::alloc::Global;
use std::fmt;

/// What is wrong with words that are no command.
#[derive(Drop)]
pub(crate) enum Wrong<'w> {
    NoCommand,
    Unknown(&'w str),
    NoOption(&'w str),
    Twice(&'w str),
    NoValue(&'w str),
    BadValue(&'w str, &'w str, &'static str),
    BadList(&'w str, ListFault),
    BothImports,
    BadNumber(&'w str),
    BadEvents(&'w str),
    TooMany(&'w str),
    Missing(&'static str),
}

impl fmt::Display for Wrong<'_> {
    fn fmt<W: fmt::Write>(&self, f: &mut fmt::Formatter<W>) -> fmt::Result {
        match self {
            Wrong::NoCommand => write!(f, "no command is given"),
            Wrong::Unknown(word) => write!(f, "'{word}' is no command"),
            Wrong::NoOption(word) => write!(f, "'{word}' is no option of this command"),
            Wrong::Twice(word) => write!(f, "{word} stands there twice"),
            Wrong::NoValue(word) => write!(f, "{word} has no value behind it"),
            Wrong::BadValue(word, value, wanted) => {
                write!(f, "{word}: '{value}' is given, and {wanted} is wanted")
            }
            Wrong::BadList(list, fault) => write!(f, "--imports: '{list}' is no LIST: {fault}"),
            Wrong::BothImports => write!(f, "--imports and --ignore-imports exclude each other"),
            Wrong::BadNumber(word) => write!(f, "N is a number from 1 to 4000, not '{word}'"),
            Wrong::BadEvents(word) => {
                write!(f, "E is a number from 1 to 1000000000, not '{word}'")
            }
            Wrong::TooMany(word) => write!(f, "'{word}' is one word too many"),
            Wrong::Missing(name) => write!(f, "{name} is missing"),
        }
    }
}

/// What is wrong with the words, as far as can be told.
pub(crate) fn wrong_in<'w>(alloc: Global, words: &'w [String]) -> Option<Wrong<'w>> {
    let Some((command, words)) = words.split_first() else {
        return Some(Wrong::NoCommand);
    };
    let command = command.as_str();
    let mut line = match command {
        "transform" => Line::new(true, &["IN", "OUT"]),
        "run" => Line::new(false, &["SCRIPT"]),
        "host" => Line::new(false, &["SCRIPT"]),
        "gen" => Line::new(false, &["N", "OUT"]),
        "save" => Line::new(false, &["SCRIPT", "E", "SNAP"]),
        "continue" => Line::new(false, &["SCRIPT", "SNAP"]),
        _ => return Some(Wrong::Unknown(command)),
    };
    for word in words {
        if let Some(wrong) = line.take(alloc, word.as_str()) {
            return Some(wrong);
        }
    }
    line.end()
}

/// A command's words as they are gone through.
#[derive(Drop)]
struct Line<'w> {
    has_options: bool,
    /// The words that are no options, by what they are to be, and how many there were.
    wanted: &'static [&'static str],
    found: usize,
    /// Whether `--` stood there.
    ended: bool,
    /// The option whose value is the next word.
    waiting: Option<&'w str>,
    /// The options that stood there.
    imports: bool,
    save: bool,
    ignore_imports: bool,
    ignore_indirect: bool,
    asserts: bool,
}

impl<'w> Line<'w> {
    fn new(has_options: bool, wanted: &'static [&'static str]) -> Line<'w> {
        Line {
            has_options,
            wanted,
            found: 0,
            ended: false,
            waiting: None,
            imports: false,
            save: false,
            ignore_imports: false,
            ignore_indirect: false,
            asserts: false,
        }
    }

    /// Takes one word more, and answers what is wrong with it.
    fn take(&mut self, alloc: Global, word: &'w str) -> Option<Wrong<'w>> {
        if let Some(option) = self.waiting.take() {
            if word.starts_with('-') {
                return Some(Wrong::NoValue(option));
            }
            return wrong_value(alloc, option, word);
        }
        if self.ended || word == "-" || !word.starts_with('-') {
            return self.take_name(word);
        }
        if word == "--" {
            self.ended = true;
            return None;
        }
        let (option, value) = match word.split_once('=') {
            Some((option, value)) => (option, Some(value)),
            None => (word, None),
        };
        self.take_option(alloc, word, option, value)
    }

    fn take_name(&mut self, word: &'w str) -> Option<Wrong<'w>> {
        let Some(name) = self.wanted.get(self.found) else {
            return Some(Wrong::TooMany(word));
        };
        self.found = self.found.saturating_add(1);
        match *name {
            "N" if !is_number(word, 4_000) => Some(Wrong::BadNumber(word)),
            "E" if !is_number(word, 1_000_000_000) => Some(Wrong::BadEvents(word)),
            _ => None,
        }
    }

    fn take_option(
        &mut self,
        alloc: Global,
        word: &'w str,
        option: &'w str,
        value: Option<&'w str>,
    ) -> Option<Wrong<'w>> {
        let stood = match option {
            _ if !self.has_options => return Some(Wrong::NoOption(word)),
            "--imports" => &mut self.imports,
            "--save" => &mut self.save,
            "--ignore-imports" => &mut self.ignore_imports,
            "--ignore-indirect" => &mut self.ignore_indirect,
            "--asserts" => &mut self.asserts,
            _ => return Some(Wrong::NoOption(word)),
        };
        if *stood {
            return Some(Wrong::Twice(option));
        }
        *stood = true;
        let takes_value = option == "--imports" || option == "--save";
        match value {
            Some(value) if takes_value => wrong_value(alloc, option, value),
            Some(_) => Some(Wrong::NoOption(word)),
            None if takes_value => {
                self.waiting = Some(option);
                None
            }
            None => None,
        }
    }

    /// What is wrong with the words where no more come.
    fn end(self) -> Option<Wrong<'w>> {
        if let Some(option) = self.waiting {
            return Some(Wrong::NoValue(option));
        }
        if self.imports && self.ignore_imports {
            return Some(Wrong::BothImports);
        }
        let name = self.wanted.get(self.found)?;
        Some(Wrong::Missing(*name))
    }
}

fn wrong_value<'w>(alloc: Global, option: &'w str, value: &'w str) -> Option<Wrong<'w>> {
    if option == "--save" {
        return match value {
            "all" => None,
            "live" => None,
            _ => Some(Wrong::BadValue(option, value, "all or live")),
        };
    }
    match ImportList::parse(alloc, value) {
        Ok(_) => None,
        Err(fault) => Some(Wrong::BadList(value, fault)),
    }
}

/// Whether a word is a number from 1 up to this, in digits without a leading zero.
fn is_number(word: &str, most: u32) -> bool {
    !word.starts_with('0')
        && word.bytes().all(|it| it.is_ascii_digit())
        && matches!(word.parse::<u32>(), Ok(number) if number <= most)
}
