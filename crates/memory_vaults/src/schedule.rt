//! Which calls of an object fail, by their numbers.

ghost use Rattle.std.specs.Prelude.{◌≡◌, ◌↔◌, [], IsTrue, Contains};
ghost use Rattle.memory_vaults.specs.Schedule.{failing, next_call};

/// Which calls of an object fail, by their numbers from 1, and how many there were. The number stands still at
/// `u64::MAX`, so that each call from that one on has it.
#[derive(Drop)]
pub struct Schedule {
    fail: Vec<u64>,
    calls: u64,
}

impl Schedule {
    /// The calls of these numbers fail. There was no call so far.
    pub(crate) fn new(fail: Vec<u64>) -> Schedule
        ensures fail { failing result ≡ fail.items }
        ensures calls { result.calls ≡ 0 }
    {
        Schedule { fail, calls: 0 }
    }

    /// Counts a call, and answers whether it fails.
    pub(crate) fn next_fails(&mut self) -> bool
        ensures fails { IsTrue result ↔ Contains (failing self.old) (next_call self.old) }
        ensures counted { self.new.calls ≡ next_call self.old }
        ensures same { failing self.new ≡ failing self.old }
    {
        self.calls = self.calls.saturating_add(1);
        self.fail.contains(&self.calls)
    }
}
