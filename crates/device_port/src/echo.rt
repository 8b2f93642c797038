//! `Echo`: a device in memory that answers its first argument.

ghost use Rattle.std.specs.Prelude.{◌≡◌, ◌≢◌, [], map, option_map, IfOk, OnErr};
ghost use Rattle.device_port.specs.Journals.{entry, with_entry};
ghost use Rattle.device_port.specs.Answers.{ticks_named, echoed};
ghost use Rattle.device_port.specs.Kept.{asked_of};

use crate::device::{Device, DeviceFail, Reply};
use crate::journal::{Asked, Journal};
use std::alloc::Global;
use wa_types::{Name, Value};

/// A device that answers its first argument, with ticks equal to its second. It never fails but for want of memory.
#[derive(Drop)]
pub struct Echo {
    name: Name,
    journal: Journal,
}

impl Echo {
    ghost use Rattle.device_port.specs.InMemory.{echo};

    /// An echo that has answered nothing.
    pub fn new(alloc: Global, name: Name) -> Echo
        ensures name { (echo result).name ≡ name }
        ensures journal { (echo result).journal ≡ [] }
    {
        Echo {
            name,
            journal: Journal::new(alloc),
        }
    }

    /// The calls that it has answered, in order.
    pub fn journal(&self) -> &[Asked]
        ensures { map asked_of result.now ≡ (echo self.now).journal }
    {
        self.journal.entries()
    }
}

impl Device for Echo {
    ghost use Rattle.device_port.specs.InMemory.{echo};

    ghost seen = { echo };

    ghost faults = { λ _. 0 };

    fn name(&self) -> &str {
        self.name.as_str()
    }

    fn call(&mut self, base: &str, args: &[Value]) -> Result<Reply, DeviceFail>
        ensures reply { IfOk result (λ reply. reply ≡ echoed args.now) }
        ensures answered { IfOk result (λ reply.
            echo self.new ≡ with_entry (entry base.now args.now reply) (echo self.old)) }
        ensures kept { OnErr result (echo self.new ≡ echo self.old) }
        ensures sure { result ≢ Err DeviceFail.Fault }
    {
        let reply = Reply {
            value: args.get(0).copied(),
            ticks: ticks_named(args.get(1)),
        };
        self.journal.add(base, args, reply)?;
        Ok(reply)
    }
}

/// The ticks that an argument names: 0 unless it is an i32.
fn ticks_named(arg: Option<&Value>) -> u32
    ensures { result ≡ ticks_named (option_map (λ value. value.now) arg.entry) }
{
    match arg {
        Some(Value::I32(ticks)) => *ticks,
        _ => 0,
    }
}
