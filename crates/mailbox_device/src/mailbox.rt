//! One mailbox.

ghost use Rattle.std.specs.Prelude.{◌≡◌, ◌++◌, [], OnOk, OnErr, MatchOption};
ghost use Rattle.mailbox_device.specs.Mail.{empty_box, sent, receiver, awaited, TakesFirst};

use device_port::Reply;
use std::alloc::{AllocError, Global};
use std::collections::VecDeque;
use std::marker::Model;
use wa_types::{Name, Value};

/// A program that waited, and the value that it was sent.
#[derive(Clone, Copy)]
pub(crate) struct Settled {
    pub(crate) program: u32,
    pub(crate) value: u32,
}

/// A mailbox. Contracts see it as a `Box` of `specs/Mail.antt`.
#[derive(Drop)]
pub(crate) struct Mailbox {
    name: Name,
    values: VecDeque<u32>,
    waits: VecDeque<u32>,
}

impl Model for Mailbox {
    ghost use Rattle.mailbox_device.specs.Mail.{Box};

    ghost Value = { Box };

    ghost view = { λ b. record { name = b.name; values = b.values.items; waits = b.waits.items } };
}

impl Mailbox {
    /// An empty mailbox of this name.
    pub(crate) fn new(alloc: Global, name: Name) -> Mailbox
        ensures { result ≡ empty_box name }
    {
        Mailbox {
            name,
            values: VecDeque::new(alloc),
            waits: VecDeque::new(alloc),
        }
    }

    /// Sends a value: the first program that waits joins the settled with it; where none waits it is queued.
    pub(crate) fn send(
        &mut self,
        value: u32,
        settled: &mut VecDeque<Settled>,
    ) -> Result<(), AllocError>
        ensures sent { OnOk result (self.new ≡ sent value self.old) }
        ensures settled { OnOk result
            (settled.new.items ≡ settled.old.items ++ receiver value self.old.waits) }
        ensures kept { OnErr result (self.new ≡ self.old) }
        ensures unsettled { OnErr result (settled.new.items ≡ settled.old.items) }
    {
        let first = self.waits.front().copied();
        let Some(program) = first else {
            self.values.push_back(value)?;
            return Ok(());
        };
        settled.push_back(Settled { program, value })?;
        self.waits.pop_front();
        Ok(())
    }

    /// Takes the first value; None exactly where none is queued.
    pub(crate) fn receive(&mut self) -> Option<Reply>
        ensures { MatchOption result
            ((self.old.values ≡ []) × (self.new ≡ self.old))
            (λ reply. TakesFirst reply self.old self.new) }
    {
        match self.values.pop_front() {
            Some(value) => Some(Reply {
                value: Some(Value::I32(value)),
                ticks: 0,
            }),
            None => None,
        }
    }

    /// A program waits, behind those that do.
    pub(crate) fn wait(&mut self, program: u32) -> Result<(), AllocError>
        ensures awaited { OnOk result (self.new ≡ awaited program self.old) }
        ensures kept { OnErr result (self.new ≡ self.old) }
    {
        self.waits.push_back(program)?;
        Ok(())
    }
}
