//! `SystemOut`: standard output.

ghost use Rattle.std.specs.Prelude.{◌≡◌, ◌≢◌, ◌≤◌, ◌⊎◌, None, IfOk, IsErr, length};
ghost use Rattle.vault_port.specs.Counts.{one_more};

use crate::faults::counted_write;
use crate::out::Out;
use crate::retrying::is_interrupted;
use std::io::{self, Error, ErrorKind};

/// Standard output. It doesn't tell what was written: that it does what `Out` says is trusted. It counts its writes that fail,
/// or take nothing of a piece.
#[derive(Drop)]
pub struct SystemOut<R: Print + Drop> {
    rt: R,
    failed: u64,
}

impl<R: Print + Drop> SystemOut<R> {
    /// The output of this runtime.
    pub fn new(rt: R) -> SystemOut<R>
        ensures { ⟦<SystemOut<R> as Out>⟧.faults result ≡ 0 }
    {
        SystemOut { rt, failed: 0 }
    }
}

impl<R: Print + Drop> Out for SystemOut<R> {
    ghost written = { λ _. None };

    ghost faults = { λ out. out.failed };

    fn write(&mut self, piece: &[u8]) -> io::Result<usize>
        ensures count { IfOk result (λ n. n ≤ length piece.now) }
        ensures failed { IsErr result → self.new.failed ≡ one_more self.old.failed }
        ensures none { IfOk result (λ n. n ≡ 0
            → (length piece.now ≡ 0) ⊎ (self.new.failed ≡ one_more self.old.failed)) }
        ensures stays { IfOk result (λ n. (n ≢ 0) ⊎ (length piece.now ≡ 0)
            → self.new.failed ≡ self.old.failed) }
        ensures rising { self.old.failed ≤ self.new.failed }
    {
        counted_write(write_once(&self.rt, piece), piece, &mut self.failed)
    }
}

/// Writes first bytes of a piece, and answers how many.
fn write_once<R: Print>(rt: &R, piece: &[u8]) -> io::Result<usize>
    ensures { IfOk result (λ n. n ≤ length piece.now) }
{
    'writing: for _ in 0..u64::MAX {
        match rt.write_some(piece) {
            Ok(count) => return Ok(count),
            Err(error) if is_interrupted(&error) => {}
            Err(error) => return Err(error),
        }
    }
    Err(Error::from(ErrorKind::Interrupted))
}
