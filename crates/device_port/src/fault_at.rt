//! `FaultAt`: a counting device in memory that fails at chosen calls.

ghost use Rattle.std.specs.Prelude.{◌≡◌, ◌≢◌, ◌≤◌, ◌↔◌, [], map, Contains, IfOk, OnErr, IsErrOf};
ghost use Rattle.vault_port.specs.Counts.{one_more};
ghost use Rattle.device_port.specs.Journals.{entry, with_entry};
ghost use Rattle.device_port.specs.Answers.{counted};
ghost use Rattle.device_port.specs.Kept.{asked_of};

use crate::counter::Counter;
use crate::device::{Device, DeviceFail, Reply};
use crate::journal::Asked;
use std::alloc::Global;
use wa_types::{Name, Value};

/// A device that answers as a counter does, and fails at the calls whose numbers, from 1 over all its calls, it was made
/// with. A number stands still at `u64::MAX`.
#[derive(Drop)]
pub struct FaultAt {
    counter: Counter,
    fail: Vec<u64>,
    calls: u64,
    faults: u64,
}

impl FaultAt {
    ghost use Rattle.device_port.specs.InMemory.{fault_at, fault_ticks, failing, next_call, failed};

    /// A device that was not called yet.
    pub fn new(alloc: Global, name: Name, ticks: u32, fail: Vec<u64>) -> FaultAt
        ensures name { (fault_at result).name ≡ name }
        ensures journal { (fault_at result).journal ≡ [] }
        ensures ticks { fault_ticks result ≡ ticks }
        ensures fail { failing result ≡ fail.items }
        ensures calls { next_call result ≡ 1 }
        ensures faults { failed result ≡ 0 }
    {
        FaultAt {
            counter: Counter::new(alloc, name, ticks),
            fail,
            calls: 0,
            faults: 0,
        }
    }

    /// The calls that it has answered, in order.
    pub fn journal(&self) -> &[Asked]
        ensures { map asked_of result.now ≡ (fault_at self.now).journal }
    {
        self.counter.journal()
    }
}

impl Device for FaultAt {
    ghost use Rattle.device_port.specs.InMemory.{fault_at, fault_ticks, failing, next_call, failed};

    ghost seen = { fault_at };

    ghost faults = { failed };

    fn name(&self) -> &str {
        self.counter.name()
    }

    fn call(&mut self, base: &str, args: &[Value]) -> Result<Reply, DeviceFail>
        ensures reply { IfOk result (λ reply.
            reply ≡ counted (fault_ticks self.old) (fault_at self.old).journal) }
        ensures answered { IfOk result (λ reply.
            fault_at self.new ≡ with_entry (entry base.now args.now reply) (fault_at self.old)) }
        ensures kept { OnErr result (fault_at self.new ≡ fault_at self.old) }
        ensures ticks { fault_ticks self.new ≡ fault_ticks self.old }

        // It fails exactly where the call's number is in the list.
        ensures fails { IsErrOf result DeviceFail.Fault
            ↔ Contains (failing self.old) (next_call self.old) }
        ensures same { failing self.new ≡ failing self.old }
        ensures called { next_call self.new ≡ one_more (next_call self.old) }
        ensures rises { IsErrOf result DeviceFail.Fault → failed self.new ≡ one_more (failed self.old) }
        ensures stays { result ≢ Err DeviceFail.Fault → failed self.new ≡ failed self.old }
        ensures rising { failed self.old ≤ failed self.new }
    {
        self.calls = self.calls.saturating_add(1);
        if self.fail.contains(&self.calls) {
            self.faults = self.faults.saturating_add(1);
            return Err(DeviceFail::Fault);
        }
        self.counter.call(base, args)
    }
}
