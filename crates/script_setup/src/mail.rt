//! Imports that are bound to mailboxes, which send or receive.

ghost use Rattle.std.specs.Prelude.{◌≡◌, ◌∷◌, [], ◌||◌, ◌&&◌, not, ℕ, List, IfOk, OnOk, Some, map, if◌then◌else◌};
ghost use Rattle.std.specs.BTreeSet.{contains_text};
ghost use Rattle.std.specs.List.{list_any};
ghost use Rattle.std.specs.Str.{bytes_eq};
ghost use Rattle.wa_types.specs.declared.values.ValType.TheVariants.{I32};
ghost use Rattle.wa_types.specs.Modules.{type_at};
ghost use Rattle.wa_types.specs.View.{func_type_of, module_of};
ghost use Rattle.wa_model.specs.Step.{same_types};
ghost use Rattle.script_reader.specs.Views.{bind_of, mailbox_of};
ghost use Rattle.script_setup.specs.MailNames.{has_name, is_found_bad};
ghost use Rattle.script_setup.specs.SetUpRules.{box_names, is_mail_type, is_unfit_import, misbound_line, winning_line};

use crate::globals::is_narrow;
use crate::names::joined_text;
use script_reader::{BindText, MailboxText};
use std::alloc::{AllocError, Global};
use std::collections::BTreeSet;
use wa_types::{FuncType, Import, ImportKind, Module, ValType};

/// The line of the first `device` line that binds to a mailbox an import which neither sends nor receives, of those behind which no
/// line binds the same import. Takes time near linear in the imports, the mailboxes and the lines.
pub(crate) fn misbound_line(
    alloc: Global,
    module: &Module,
    mailboxes: &[MailboxText],
    binds: &[BindText],
) -> Result<Option<u32>, AllocError>
    ensures { IfOk result (λ line. line ≡ misbound_line (box_names (map mailbox_of mailboxes.now)) (module_of «module».now) (map bind_of binds.now)) }
{
    let boxes = box_names(alloc, mailboxes)?;
    let unfit = unfit_imports(alloc, module)?;
    let line = first_bad(alloc, &boxes, &unfit, binds)?;
    Ok(line)
}

// The names of mailboxes. Names are kept in order, so that whoever chooses them can't make a look-up slow.
fn box_names<'t>(
    alloc: Global,
    mailboxes: &'t [MailboxText],
) -> Result<BTreeSet<&'t str>, AllocError>
    ensures { IfOk result (λ names. (name : List ℕ) → has_name names name ≡ list_any (bytes_eq name) (box_names (map mailbox_of mailboxes.now))) }
{
    let mut names = BTreeSet::new(alloc);
    for mailbox in mailboxes {
        put_name(&mut names, mailbox.name.as_str())?;
    }
    Ok(names)
}

// One name more; whether it wasn't there.
fn put_name<'t>(names: &mut BTreeSet<&'t str>, name: &'t str) -> Result<bool, AllocError>
    ensures names { OnOk result ((other : List ℕ) → has_name names.new other ≡ (has_name names.old other || bytes_eq other name.now)) }
    ensures is_new { IfOk result (λ is_new. is_new ≡ not (has_name names.old name.now)) }
{
    let is_new = names.insert(name)?;
    Ok(is_new)
}

// The joined names of the imported functions that neither send nor receive.
fn unfit_imports(alloc: Global, module: &Module) -> Result<BTreeSet<String>, AllocError>
    ensures { IfOk result (λ names. (name : List ℕ)
        → contains_text names name ≡ list_any (is_unfit_import (module_of «module».now) name) «module».now.imports.items) }
{
    let mut names = BTreeSet::new(alloc);
    for import in &module.imports {
        put_unfit(alloc, &mut names, module, import)?;
    }
    Ok(names)
}

fn put_unfit(
    alloc: Global,
    names: &mut BTreeSet<String>,
    module: &Module,
    import: &Import,
) -> Result<(), AllocError>
    ensures { OnOk result ((name : List ℕ) → contains_text names.new name ≡ (contains_text names.old name || is_unfit_import (module_of «module».now) name import.now)) }
{
    match import.kind {
        ImportKind::Func(sort) => {
            if is_mail_sort(module, sort) {
                return Ok(());
            }
            let joined = joined_text(alloc, import)?;
            names.insert(joined)?;
            Ok(())
        }
        _ => Ok(()),
    }
}

// Whether functions of the type of this index send or receive.
#[tactic(auto, using(host_setup::proofs::IndexTypes::looking))]
fn is_mail_sort(module: &Module, sort: u32) -> bool
    ensures { result ≡ is_mail_type (type_at (module_of «module».now) sort) }
{
    match module.types.get(sort as usize) {
        Some(ty) => is_mail_type(ty),
        None => false,
    }
}

fn is_mail_type(ty: &FuncType) -> bool
    ensures { result ≡ is_mail_type (func_type_of ty.now) }
{
    is_one_narrow(&ty.params) && is_none(&ty.results)
        || is_none(&ty.params) && is_one_narrow(&ty.results)
}

fn is_one_narrow(types: &[ValType]) -> bool
    ensures { result ≡ same_types types.now (I32 ∷ []) }
{
    match types {
        [] => false,
        [ty, rest @ ..] => is_narrow(*ty) && is_none(rest),
    }
}

fn is_none(types: &[ValType]) -> bool
    ensures { result ≡ same_types types.now [] }
{
    match types {
        [] => true,
        [_, ..] => false,
    }
}

// The line of the first bad one of those that win. Goes through the lines from the last one, so that a line wins whose import isn't
// bound yet.
fn first_bad(
    alloc: Global,
    boxes: &BTreeSet<&str>,
    unfit: &BTreeSet<String>,
    binds: &[BindText],
) -> Result<Option<u32>, AllocError>
    ensures { IfOk result (λ line. line ≡ winning_line (is_found_bad boxes.now unfit.now) (map bind_of binds.now)) }
{
    let mut bound = BTreeSet::new(alloc);
    let mut line = None;
    let mut left = binds.len();
    while 0 < left {
        left -= 1;
        let bind = &binds[left];
        let wins = put_name(&mut bound, bind.import.as_str())?;
        line = bad_line(wins, boxes, unfit, bind, line);
    }
    Ok(line)
}

// The line, where it wins and is bad, else that of later ones.
fn bad_line(
    wins: bool,
    boxes: &BTreeSet<&str>,
    unfit: &BTreeSet<String>,
    bind: &BindText,
    later: Option<u32>,
) -> Option<u32>
    ensures { result ≡ (if wins && is_found_bad boxes.now unfit.now (bind_of bind.now) then Some bind.now.line else later) }
{
    if wins && boxes.contains(bind.device.as_str()) && unfit.contains(bind.import.as_str()) {
        return Some(bind.line);
    }
    later
}
