//! Lists of function imports: a text of entries, read into an `ImportList` and asked for a name.

ghost use Rattle.std.specs.Prelude.{◌≡◌, ◌<◌, ℕ, List, [], ◌∷◌, ◌++◌, OnOk, length, map};
ghost use Rattle.call_graph.specs.Lists.{IsBehind, Parses, Reads};
ghost use Rattle.call_graph.specs.Entries.{any_names, entry_of};
ghost use Rattle.wa_types.specs.Pausing.{beginning, entry_of as spelled_entry, exactly, is_listed, list_of, names, of_list};

use std::alloc::{AllocError, Global};
use std::marker::Model;
use thiserror::Error;
use wa_types::Name;

/// Why a text is no list of imports.
#[derive(Clone, Copy, Debug, PartialEq, Eq, Error)]
pub enum ListFault {
    #[error("out of memory")]
    Memory,
    #[error("empty entry")]
    EmptyEntry,
    /// An entry without a star has no dot.
    #[error("entry without a dot")]
    NoDot,
    /// A star isn't the last character of its entry.
    #[error("star inside an entry")]
    StarInside,
}

impl From<AllocError> for ListFault {
    ghost use Rattle.std.specs.Prelude.{◌≡◌};
    ghost use Rattle.call_graph.specs.declared.lists.ListFault.TheVariants.{Memory};

    ghost from_gives = { λ _ fault. fault ≡ Memory };

    fn from(_error: AllocError) -> ListFault {
        ListFault::Memory
    }
}

/// An entry: all joined names that begin so, or exactly one.
#[derive(Drop)]
pub(crate) enum Entry {
    Beginning(Name),
    Exactly(Name),
}

/// A list of function imports by their joined names. Contracts see its entries.
#[derive(Drop)]
pub struct ImportList {
    entries: Vec<Entry>,
}

impl Model for ImportList {
    ghost use Rattle.std.specs.Prelude.{List, map};
    ghost use Rattle.wa_types.specs.Pausing.{Entry as PlainEntry};

    ghost Value = { List PlainEntry };

    ghost use Rattle.call_graph.specs.Entries.{entry_of};

    ghost view = { λ l. map entry_of l.entries.items };
}

impl ImportList {
    /// The list that a text spells: entries separated by commas. An entry that ends in `*` stands for all names that
    /// begin with what is before the star, any other for one name. The first entry that is none decides the fault;
    /// of one entry, that it is empty comes first, then a star that isn't last, then that it has neither star nor dot.
    pub fn parse(alloc: Global, text: &str) -> Result<ImportList, ListFault>
        ensures { Parses result (list_of text.now) }
    {
        let mut entries = Vec::new(alloc);
        for piece in text.split(',') {
            let entry = read_entry(alloc, piece)?;
            put_entry(&mut entries, entry)?;
        }
        Ok(ImportList { entries })
    }

    /// Whether function imports of these two names are listed. Takes no memory, and time linear in the list.
    pub fn listed(&self, module: &str, base: &str) -> bool
        ensures { result ≡ is_listed (of_list self.now) («module».now ++ 46 ∷ base.now) }
    {
        any_named(&self.entries, module, base)
    }

    pub(crate) fn entries(&self) -> &[Entry]
        ensures { map entry_of result.now ≡ self.now }
    {
        &self.entries
    }
}

fn put_entry(entries: &mut Vec<Entry>, entry: Entry) -> Result<(), AllocError>
    ensures { OnOk result (entries.new.items ≡ entries.old.items ++ entry ∷ []) }
{
    entries.push(entry)?;
    Ok(())
}

fn read_entry(alloc: Global, text: &str) -> Result<Entry, ListFault>
    ensures { Reads result (spelled_entry text.now) }
{
    if text.is_empty() {
        return Err(ListFault::EmptyEntry);
    }
    match text.strip_suffix('*') {
        Some(front) => read_beginning(alloc, front),
        None => read_name(alloc, text),
    }
}

/// The entry of a text that a star follows.
fn read_beginning(alloc: Global, front: &str) -> Result<Entry, ListFault>
    ensures { Reads result (spelled_entry (front.now ++ 42 ∷ [])) }
{
    if front.contains('*') {
        return Err(ListFault::StarInside);
    }
    Ok(Entry::Beginning(Name::new(alloc, front)?))
}

/// The entry of a text that no star ends.
fn read_name(alloc: Global, text: &str) -> Result<Entry, ListFault>
    requires some { 0 < length text.now }
    requires starless { (front : List ℕ) → text.now ≡ front ++ 42 ∷ [] → ⊥ }
    ensures { Reads result (spelled_entry text.now) }
{
    if text.contains('*') {
        return Err(ListFault::StarInside);
    }
    if !text.contains('.') {
        return Err(ListFault::NoDot);
    }
    Ok(Entry::Exactly(Name::new(alloc, text)?))
}

fn any_named(entries: &[Entry], module: &str, base: &str) -> bool
    ensures { result ≡ any_names entries.now («module».now ++ 46 ∷ base.now) }
{
    entries.iter().any(|entry| is_named(entry, module, base))
}

/// Whether an entry names imports of these two names.
fn is_named(entry: &Entry, module: &str, base: &str) -> bool
    ensures { result ≡ names (entry_of entry.now) («module».now ++ 46 ∷ base.now) }
{
    match entry {
        Entry::Beginning(text) => begins(text.as_str(), module, base),
        Entry::Exactly(text) => is_joined(text.as_str(), module, base),
    }
}

/// Whether the joined name begins with the text.
fn begins(text: &str, module: &str, base: &str) -> bool
    ensures { result ≡ names (beginning text.now) («module».now ++ 46 ∷ base.now) }
{
    if module.starts_with(text) {
        return true;
    }
    match behind_module(text, module) {
        Some(rest) => base.starts_with(rest),
        None => false,
    }
}

/// Whether the joined name is the text.
fn is_joined(text: &str, module: &str, base: &str) -> bool
    ensures { result ≡ names (exactly text.now) («module».now ++ 46 ∷ base.now) }
{
    match behind_module(text, module) {
        Some(rest) => rest == base,
        None => false,
    }
}

/// What stands behind the module name and a dot.
fn behind_module<'a>(text: &'a str, module: &str) -> Option<&'a str>
    ensures { IsBehind text.now «module».now result }
{
    let rest = text.strip_prefix(module)?;
    rest.strip_prefix('.')
}
