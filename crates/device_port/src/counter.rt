//! `Counter`: a device in memory whose answers count up from 0.

ghost use Rattle.std.specs.Prelude.{◌≡◌, ◌≢◌, [], map, IfOk, OnErr};
ghost use Rattle.device_port.specs.Journals.{entry, with_entry};
ghost use Rattle.device_port.specs.Answers.{counted};
ghost use Rattle.device_port.specs.Kept.{asked_of};

use crate::device::{Device, DeviceFail, Reply};
use crate::journal::{Asked, Journal};
use std::alloc::Global;
use wa_types::{Name, Value};

/// The number of i32 values.
const NUMBERS: u64 = 4_294_967_296;

/// A device that answers i32 0, 1, 2 and so on, each time with the same ticks. It never fails but for want of memory.
#[derive(Drop)]
pub struct Counter {
    name: Name,
    ticks: u32,
    journal: Journal,
}

impl Counter {
    ghost use Rattle.device_port.specs.InMemory.{counter, ticks_of};

    /// A counter that has answered nothing.
    pub fn new(alloc: Global, name: Name, ticks: u32) -> Counter
        ensures name { (counter result).name ≡ name }
        ensures journal { (counter result).journal ≡ [] }
        ensures ticks { ticks_of result ≡ ticks }
    {
        Counter {
            name,
            ticks,
            journal: Journal::new(alloc),
        }
    }

    /// The calls that it has answered, in order.
    pub fn journal(&self) -> &[Asked]
        ensures { map asked_of result.now ≡ (counter self.now).journal }
    {
        self.journal.entries()
    }
}

impl Device for Counter {
    ghost use Rattle.device_port.specs.InMemory.{counter, ticks_of};

    ghost seen = { counter };

    ghost faults = { λ _. 0 };

    fn name(&self) -> &str {
        self.name.as_str()
    }

    fn call(&mut self, base: &str, args: &[Value]) -> Result<Reply, DeviceFail>
        ensures reply { IfOk result (λ reply.
            reply ≡ counted (ticks_of self.old) (counter self.old).journal) }
        ensures answered { IfOk result (λ reply.
            counter self.new ≡ with_entry (entry base.now args.now reply) (counter self.old)) }
        ensures kept { OnErr result (counter self.new ≡ counter self.old) }
        ensures ticks { ticks_of self.new ≡ ticks_of self.old }
        ensures sure { result ≢ Err DeviceFail.Fault }
    {
        let number = self.journal.len() as u64 % NUMBERS;
        let reply = Reply {
            value: Some(Value::I32(number as u32)),
            ticks: self.ticks,
        };
        self.journal.add(base, args, reply)?;
        Ok(reply)
    }
}
