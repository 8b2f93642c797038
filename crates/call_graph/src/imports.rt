//! Which function imports of a module are listed, by their joined names.

ghost use Rattle.std.specs.Prelude.{◌≡◌, ◌||◌, ℕ, List, IfOk, OnOk, false, is_some, nat_eq, true};
ghost use Rattle.std.specs.List.{filter_map, starts_with};
ghost use Rattle.std.specs.String.{string_bytes};
ghost use Rattle.call_graph.specs.Entries.{entry_of};
ghost use Rattle.call_graph.specs.Index.{Apart, any_begins, indexed};
ghost use Rattle.call_graph.specs.Settings.{choice_of, settings_of};
ghost use Rattle.wa_types.specs.Modules.{imported_func};
ghost use Rattle.wa_types.specs.Pausing.{Choice as Selection, Listed, is_listed, joined_name, listed_import, names, of_list};
ghost use Rattle.wa_types.specs.View.{module_of};

use crate::lists::{Entry, ImportList};
use crate::settings::{Choice, Settings};
use std::alloc::{AllocError, Global};
use std::collections::BTreeSet;
use wa_types::{Import, ImportKind};
use wasm_validate::Valid;

/// Listed names, to be looked up. Whole ones and beginnings are in order, so that whoever chooses them can't make a look-up slow.
#[derive(Drop)]
pub(crate) struct Index<'a> {
    names: BTreeSet<&'a str>,
    /// Of those that begin with one another the shortest, once all are put.
    beginnings: Vec<&'a str>,
}

impl<'a> Index<'a> {
    fn of(alloc: Global, choice: &'a Choice) -> Result<Index<'a>, AllocError>
        ensures apart { IfOk result (λ index. Apart index.beginnings.items) }
        ensures names { IfOk result (λ index. (name : List ℕ) → indexed index name ≡ is_listed (choice_of choice.now) name) }
    {
        match choice {
            Choice::Every => Index::every(alloc),
            Choice::Nobody => Ok(Index::empty(alloc)),
            Choice::Listed(list) => Index::of_list(alloc, list),
        }
    }

    fn empty(alloc: Global) -> Index<'a>
        ensures apart { Apart result.beginnings.items }
        ensures names { (name : List ℕ) → indexed result name ≡ false }
    {
        Index {
            names: BTreeSet::new(alloc),
            beginnings: Vec::new(alloc),
        }
    }

    /// All names: each begins with the empty text.
    fn every(alloc: Global) -> Result<Index<'a>, AllocError>
        ensures apart { IfOk result (λ index. Apart index.beginnings.items) }
        ensures names { IfOk result (λ index. (name : List ℕ) → indexed index name ≡ true) }
    {
        let names = BTreeSet::new(alloc);
        let mut beginnings = Vec::new(alloc);
        beginnings.push("")?;
        Ok(Index { names, beginnings })
    }

    fn of_list(alloc: Global, list: &'a ImportList) -> Result<Index<'a>, AllocError>
        ensures apart { IfOk result (λ index. Apart index.beginnings.items) }
        ensures names { IfOk result (λ index. (name : List ℕ) → indexed index name ≡ is_listed (of_list list.now) name) }
    {
        let mut index = Index::empty(alloc);
        for entry in list.entries() {
            index.put(entry)?;
        }
        keep_shortest(&mut index.beginnings)?;
        Ok(index)
    }

    fn put(&mut self, entry: &'a Entry) -> Result<(), AllocError>
        ensures { OnOk result ((name : List ℕ) → indexed self.new name ≡ (indexed self.old name || names (entry_of entry.now) name)) }
    {
        match entry {
            Entry::Beginning(text) => {
                self.beginnings.push(text.as_str())?;
                Ok(())
            }
            Entry::Exactly(text) => {
                self.names.insert(text.as_str())?;
                Ok(())
            }
        }
    }

    fn names(&self, name: &str) -> bool
        requires { Apart self.now.beginnings.items }
        ensures { result ≡ indexed self.now name.now }
    {
        if self.names.contains(name) {
            return true;
        }
        any_begins(&self.beginnings, name)
    }

    fn names_import(&self, alloc: Global, import: &Import) -> Result<bool, AllocError>
        requires { Apart self.now.beginnings.items }
        ensures { IfOk result (λ b. b ≡ indexed self.now (joined_name import.now)) }
    {
        let joined = join_names(alloc, import)?;
        Ok(self.names(joined.as_str()))
    }
}

/// Whether each function import is listed. Takes time near linear in the imports and the list.
pub fn listed_imports(
    alloc: Global,
    valid: &Valid,
    settings: &Settings,
) -> Result<Vec<bool>, AllocError>
    ensures { IfOk result (λ v. v.items ≡ Listed (module_of valid.now) (settings_of settings.now)) }
{
    let index = Index::of(alloc, &settings.choice)?;
    marks_of(alloc, &index, &valid.module().imports)
}

/// Whether each function import is one of those in the index.
fn marks_of(alloc: Global, index: &Index, imports: &[Import]) -> Result<Vec<bool>, AllocError>
    requires { Apart index.now.beginnings.items }
    ensures { IfOk result (λ v. (k : Selection) → ((name : List ℕ) → indexed index.now name ≡ is_listed k name) → v.items ≡ filter_map (λ i. listed_import k i (imported_func i.kind)) imports.now) }
{
    let mut marks = Vec::new(alloc);
    for import in imports {
        if !is_func(import.kind) {
            continue;
        }
        marks.push(index.names_import(alloc, import)?)?;
    }
    Ok(marks)
}

fn is_func(kind: ImportKind) -> bool
    ensures { result ≡ is_some (imported_func kind) }
{
    matches!(kind, ImportKind::Func(_))
}

/// Puts beginnings in order, and leaves out those that begin with another.
fn keep_shortest(texts: &mut Vec<&str>) -> Result<(), AllocError>
    ensures apart { OnOk result (Apart texts.new.items) }
    ensures any { OnOk result ((name : List ℕ) → any_begins texts.new.items name ≡ any_begins texts.old.items name) }
{
    texts.sort()?;
    texts.dedup_by(|text, front| begins_with(text, front));
    Ok(())
}

/// Whether the name begins with one of the texts: that can be the last that isn't behind it, as all from a beginning of the name
/// up to the name begin with it.
fn any_begins(texts: &[&str], name: &str) -> bool
    requires { Apart texts.now }
    ensures { result ≡ any_begins texts.now name.now }
{
    let count = texts.partition_point(|text| *text <= name);
    if count == 0 {
        return false;
    }
    begins_with(name, texts[count - 1])
}

fn begins_with(name: &str, text: &str) -> bool
    ensures { result ≡ starts_with nat_eq name.now text.now }
{
    name.starts_with(text)
}

/// The import's module name, a dot and its base name.
fn join_names(alloc: Global, import: &Import) -> Result<String, AllocError>
    ensures { IfOk result (λ s. string_bytes s ≡ joined_name import.now) }
{
    let mut joined = String::from_str(alloc, import.module.as_str())?;
    joined.push_str(".")?;
    joined.push_str(import.base.as_str())?;
    Ok(joined)
}
