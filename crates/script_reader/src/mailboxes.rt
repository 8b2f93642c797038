//! The mailboxes of a script, while its lines are read.

ghost use Rattle.std.specs.Prelude.{◌≡◌, ◌∷◌, ◌++◌, [], map, OnOk};
ghost use Rattle.script_reader.specs.Drafts.{is_declared};
ghost use Rattle.script_reader.specs.MailboxNames.{mailbox_of};

use crate::script::MailboxText;
use std::alloc::{AllocError, Global};
use std::collections::BTreeSet;
use std::marker::Model;

/// The mailboxes declared so far, and their names to be looked up. Names are kept in order, so that whoever chooses them can't
/// make a look-up slow.
#[derive(Drop)]
pub(crate) struct Mailboxes {
    texts: Vec<MailboxText>,
    names: BTreeSet<String>,
}

impl Model for Mailboxes {
    ghost use Rattle.std.specs.Prelude.{List, map};
    ghost use Rattle.script_model.specs.Script.{MailboxText as PlainMailbox};
    ghost use Rattle.script_reader.specs.MailboxNames.{TellsNames, mailbox_of};

    ghost Value = { List PlainMailbox };

    ghost view = { λ m. map mailbox_of m.texts.items };

    ghost invariant = { λ m. TellsNames m.names (map mailbox_of m.texts.items) };
}

impl Mailboxes {
    pub(crate) fn none(alloc: Global) -> Mailboxes
        ensures { result ≡ [] }
    {
        Mailboxes {
            texts: Vec::new(alloc),
            names: BTreeSet::new(alloc),
        }
    }

    /// Whether a mailbox of this name is declared.
    pub(crate) fn declares(&self, name: &str) -> bool
        ensures { result ≡ is_declared name.now self.now }
    {
        self.names.contains(name)
    }

    /// One more mailbox, behind the others.
    pub(crate) fn put(&mut self, alloc: Global, mailbox: MailboxText) -> Result<(), AllocError>
        ensures { OnOk result (self.new ≡ self.old ++ mailbox_of mailbox ∷ []) }
    {
        let name = String::from_str(alloc, mailbox.name.as_str())?;
        self.texts.reserve(1)?;
        self.names.insert(name)?;
        self.texts.push_reserved(mailbox);
        Ok(())
    }

    pub(crate) fn into_texts(self) -> Vec<MailboxText>
        ensures { map mailbox_of result.items ≡ self }
    {
        self.texts
    }
}
