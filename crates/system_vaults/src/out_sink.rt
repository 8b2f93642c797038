//! `OutSink`: printed bytes, over an output.

ghost use Rattle.std.specs.Prelude.{◌≡◌, ◌≢◌, ◌≤◌, IfOk, OnOk, OnErr, IsErrOf, length, take};
ghost use Rattle.vault_port.specs.Counts.{FailsOnce, one_more};
ghost use Rattle.vault_port.specs.Told.{Becomes};
ghost use Rattle.vault_port.specs.Taken.{Appends};

use crate::faults::took_nothing;
use crate::out::Out;
use crate::system_out::SystemOut;
use std::io::{self, Error, ErrorKind};
use vault_port::{Sink, SinkFail};

/// An output. It tells what the output tells, its count of faults is the output's, and it takes no memory.
#[derive(Drop)]
pub struct OutSink<O: Out + Drop> {
    out: O,
    cause: Option<Error>,
}

impl<R: Print + Drop> OutSink<SystemOut<R>> {
    ghost use Rattle.system_vaults.specs.Kept.{out_of};

    /// The standard output of this runtime.
    pub fn new(rt: R) -> OutSink<SystemOut<R>>
        ensures { ⟦<SystemOut<R> as Out>⟧.faults (out_of result) ≡ 0 }
    {
        OutSink::over(SystemOut::new(rt))
    }
}

impl<O: Out + Drop> OutSink<O> {
    ghost use Rattle.system_vaults.specs.Kept.{out_of};

    /// This output.
    pub fn over(out: O) -> OutSink<O>
        ensures out { out_of result ≡ out }
        ensures faults { O.faults (out_of result) ≡ O.faults out }
    {
        OutSink { out, cause: None }
    }

    /// Why the last call that failed did, as the output says it.
    pub fn cause(&self) -> Option<Error> {
        self.cause
    }
}

impl<O: Out + Drop> Sink for OutSink<O> {
    ghost use Rattle.system_vaults.specs.Kept.{out_of};

    ghost taken = { λ sink. O.written (out_of sink) };

    ghost faults = { λ sink. O.faults (out_of sink) };

    fn put(&mut self, piece: &[u8]) -> Result<usize, SinkFail>
        ensures count { IfOk result (λ n. n ≤ length piece.now) }
        ensures some { IfOk result (λ n. n ≡ 0 → length piece.now ≡ 0) }
        ensures taken { IfOk result (λ n. Becomes (O.written (out_of self.old)) (O.written (out_of self.new))
            (Appends (take n piece.now))) }
        ensures kept { OnErr result (O.written (out_of self.new) ≡ O.written (out_of self.old)) }
        ensures no_memory { result ≢ Err SinkFail.Memory }

        ensures failed { IsErrOf result SinkFail.Failed
            → FailsOnce (O.faults (out_of self.old)) (O.faults (out_of self.new)) }
        ensures rises { OnErr result (FailsOnce (O.faults (out_of self.old)) (O.faults (out_of self.new))) }
        ensures stays { result ≢ Err SinkFail.Failed → O.faults (out_of self.new) ≡ O.faults (out_of self.old) }
        ensures rising { O.faults (out_of self.old) ≤ O.faults (out_of self.new) }
    {
        match write_some(&mut self.out, piece) {
            Ok(count) => Ok(count),
            Err(error) => {
                self.cause = Some(error);
                Err(SinkFail::Failed)
            }
        }
    }
}

/// Writes first bytes of a piece. To write none, where there are some, is an error.
fn write_some<O: Out>(out: &mut O, piece: &[u8]) -> io::Result<usize>
    ensures count { IfOk result (λ n. n ≤ length piece.now) }
    ensures some { IfOk result (λ n. n ≡ 0 → length piece.now ≡ 0) }
    ensures written { IfOk result (λ n. Becomes (O.written out.old) (O.written out.new)
        (Appends (take n piece.now))) }
    ensures kept { OnErr result (O.written out.new ≡ O.written out.old) }
    ensures rises { OnErr result (O.faults out.new ≡ one_more (O.faults out.old)) }
    ensures stays { OnOk result (O.faults out.new ≡ O.faults out.old) }
    ensures faults { O.faults out.old ≤ O.faults out.new }
{
    let written = out.write(piece)?;
    if took_nothing(written, piece) {
        return Err(Error::from(ErrorKind::WriteZero));
    }
    Ok(written)
}
