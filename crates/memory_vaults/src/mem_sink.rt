//! Sinks in memory: `SureSink`, and `MemSink`, which fails at chosen calls.

ghost use Rattle.std.specs.Prelude.{◌≡◌, ◌≢◌, ◌≤◌, ◌↔◌, ◌++◌, [], ℕ, List, length, take, Some, Contains, IfOk, OnErr, IsErrOf};
ghost use Rattle.vault_port.specs.declared.sink.SinkFail.TheVariants.{Memory};

use crate::schedule::Schedule;
use std::alloc::Global;
use vault_port::{Sink, SinkFail};

/// Output kept in memory. No call fails but for want of memory.
#[derive(Drop)]
pub struct SureSink {
    bytes: Vec<u8>,
}

impl SureSink {
    ghost use Rattle.memory_vaults.specs.InMemory.{sure_bytes};

    /// A sink that has taken nothing.
    pub fn new(alloc: Global) -> SureSink
        ensures { sure_bytes result ≡ [] }
    {
        SureSink {
            bytes: Vec::new(alloc),
        }
    }

    /// The bytes taken so far.
    pub fn bytes(&self) -> &[u8]
        ensures { result.now ≡ sure_bytes self.now }
    {
        &self.bytes
    }
}

impl Sink for SureSink {
    ghost use Rattle.memory_vaults.specs.InMemory.{sure_bytes};

    ghost taken = { λ sink. Some (sure_bytes sink) };

    ghost faults = { λ _. 0 };

    fn put(&mut self, piece: &[u8]) -> Result<usize, SinkFail>
        ensures all { IfOk result (λ n. n ≡ length piece.now) }
        ensures taken { IfOk result (λ n. sure_bytes self.new ≡ sure_bytes self.old ++ take n piece.now) }
        ensures kept { OnErr result (sure_bytes self.new ≡ sure_bytes self.old) }
        ensures sure { result ≢ Err SinkFail.Failed }
    {
        self.bytes.extend_from_slice(piece)?;
        Ok(piece.len())
    }
}

/// Output kept in memory. The calls whose numbers, from 1 over all calls, are in a list that it was made with fail.
#[derive(Drop)]
pub struct MemSink {
    kept: SureSink,
    schedule: Schedule,
    faults: u64,
}

impl MemSink {
    ghost use Rattle.memory_vaults.specs.InMemory.{mem_bytes, sink_schedule, failed_puts};
    ghost use Rattle.memory_vaults.specs.Schedule.{failing, next_call};

    /// A sink that has taken nothing.
    pub fn new(alloc: Global, fail: Vec<u64>) -> MemSink
        ensures bytes { mem_bytes result ≡ [] }
        ensures fail { failing (sink_schedule result) ≡ fail.items }
        ensures calls { next_call (sink_schedule result) ≡ 1 }
        ensures faults { failed_puts result ≡ 0 }
    {
        MemSink {
            kept: SureSink::new(alloc),
            schedule: Schedule::new(fail),
            faults: 0,
        }
    }

    /// The bytes taken so far.
    pub fn bytes(&self) -> &[u8]
        ensures { result.now ≡ mem_bytes self.now }
    {
        self.kept.bytes()
    }
}

impl Sink for MemSink {
    ghost use Rattle.memory_vaults.specs.InMemory.{mem_bytes, sink_schedule, failed_puts};
    ghost use Rattle.memory_vaults.specs.Schedule.{failing, next_call, GoesOn};
    ghost use Rattle.vault_port.specs.Counts.{one_more};

    ghost taken = { λ sink. Some (mem_bytes sink) };

    ghost faults = { failed_puts };

    fn put(&mut self, piece: &[u8]) -> Result<usize, SinkFail>
        ensures all { IfOk result (λ n. n ≡ length piece.now) }
        ensures taken { IfOk result (λ n. mem_bytes self.new ≡ mem_bytes self.old ++ take n piece.now) }
        ensures kept { OnErr result (mem_bytes self.new ≡ mem_bytes self.old) }

        // It fails exactly where the call's number is in the list.
        ensures failed { IsErrOf result SinkFail.Failed
            ↔ Contains (failing (sink_schedule self.old)) (next_call (sink_schedule self.old)) }
        ensures called { GoesOn (sink_schedule self.old) (sink_schedule self.new) }
        ensures rises { IsErrOf result SinkFail.Failed
            → failed_puts self.new ≡ one_more (failed_puts self.old) }
        ensures stays { result ≢ Err SinkFail.Failed
            → failed_puts self.new ≡ failed_puts self.old }
        ensures rising { failed_puts self.old ≤ failed_puts self.new }
    {
        if self.schedule.next_fails() {
            self.faults = self.faults.saturating_add(1);
            return Err(SinkFail::Failed);
        }
        self.kept.put(piece)
    }
}
