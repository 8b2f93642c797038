//! All mailboxes, and who is settled.

ghost use Rattle.std.specs.Prelude.{◌≡◌, ◌<◌, [], ◌∷◌, length, map, position, IfOk, OnOk, OnErr, MatchOption};
ghost use Rattle.mailbox_device.specs.Mail.{is_box, empty_mail, names_of, Sends, Receives, Awaits, IsEmptyAt, WaitsNowhere, IsOrderly};

use crate::mailbox::{Mailbox, Settled};
use crate::places::note_place;
use device_port::Reply;
use std::alloc::{AllocError, Global};
use std::collections::{BTreeMap, VecDeque};
use std::marker::Model;
use wa_types::Name;

/// Mailboxes, the place of each name, and the programs that have been sent a value since they waited. Contracts see the first and the
/// last (`Mail`).
#[derive(Drop)]
pub struct Mailboxes {
    boxes: Vec<Mailbox>,
    places: BTreeMap<String, usize>,
    settled: VecDeque<Settled>,
}

impl Model for Mailboxes {
    ghost use Rattle.mailbox_device.specs.Mail.{Mail};
    ghost use Rattle.mailbox_device.specs.Places.{AreSound};

    ghost Value = { Mail };

    ghost view = { λ m. record { boxes = m.boxes.items; settled = m.settled.items } };

    ghost invariant = { λ m. AreSound m.places m.boxes.items };
}

impl Mailboxes {
    /// Empty mailboxes of these names.
    pub fn new(alloc: Global, names: Vec<Name>) -> Result<Mailboxes, AllocError>
        ensures empty { IfOk result (λ mail. mail ≡ empty_mail names.items) }
        ensures orderly { IfOk result (λ mail. IsOrderly mail.boxes) }
    {
        let mut boxes = Vec::with_capacity(alloc, names.len())?;
        let mut places = BTreeMap::new(alloc);
        for name in names {
            note_place(alloc, &mut places, name.as_str(), boxes.len())?;
            boxes.push(Mailbox::new(alloc, name))?;
        }
        Ok(Mailboxes {
            boxes,
            places,
            settled: VecDeque::new(alloc),
        })
    }

    /// The place of the first mailbox of this name; None exactly where no mailbox has it.
    pub fn find(&self, name: &str) -> Option<usize>
        ensures { result ≡ position (is_box name.now) self.now.boxes }
    {
        self.places.get(name).copied()
    }

    /// Sends a value: the first program that waits there is settled with it; where none waits it is queued. For want of
    /// memory all is as before.
    pub fn send(&mut self, place: usize, value: u32) -> Result<(), AllocError>
        requires { place < length self.old.boxes }
        ensures sent { OnOk result (Sends place value self.old self.new) }
        ensures kept { OnErr result (self.new ≡ self.old) }
        ensures names { names_of self.new.boxes ≡ names_of self.old.boxes }
        ensures orderly { IsOrderly self.new.boxes }
    {
        let mailbox = &mut self.boxes[place];
        mailbox.send(value, &mut self.settled)
    }

    /// Takes the first value that is queued there; None exactly where none is. It takes no memory.
    pub fn receive(&mut self, place: usize) -> Option<Reply>
        requires { place < length self.old.boxes }
        ensures received { MatchOption result
            (IsEmptyAt place self.old.boxes × (self.new ≡ self.old))
            (λ reply. Receives place reply self.old self.new) }
        ensures names { names_of self.new.boxes ≡ names_of self.old.boxes }
        ensures orderly { IsOrderly self.new.boxes }
    {
        let mailbox = &mut self.boxes[place];
        mailbox.receive()
    }

    /// A program waits there, behind those that do. For want of memory all is as before.
    pub fn wait(&mut self, place: usize, program: u32) -> Result<(), AllocError>
        requires empty { IsEmptyAt place self.old.boxes }
        requires nowhere { WaitsNowhere program self.old.boxes }
        ensures waits { OnOk result (Awaits place program self.old self.new) }
        ensures kept { OnErr result (self.new ≡ self.old) }
        ensures names { names_of self.new.boxes ≡ names_of self.old.boxes }
        ensures orderly { IsOrderly self.new.boxes }
    {
        let mailbox = &mut self.boxes[place];
        mailbox.wait(program)
    }

    /// Takes the program that was settled first, and its value; None exactly where none is left. It takes no memory.
    pub fn take_settled(&mut self) -> Option<(u32, u32)>
        ensures first { MatchOption result
            ((self.old.settled ≡ []) × (self.new.settled ≡ []))
            (λ first. self.old.settled ≡ record { program = first.0; value = first.1 } ∷ self.new.settled) }
        ensures boxes { self.new.boxes ≡ self.old.boxes }
    {
        match self.settled.pop_front() {
            Some(first) => Some((first.program, first.value)),
            None => None,
        }
    }
}
