//! Why a call stops before it is done, and what is then printed.

ghost use Rattle.std.specs.Prelude.{◌≡◌, ◌≤◌};
ghost use Rattle.vault_port.specs.Counts.{FailsAtMostOnce};
ghost use Rattle.script_command.specs.SnapshotCalls.{output};
ghost use Rattle.script_command.specs.SnapshotViews.{IsToldStop, Tells, refused_for, refused_module, stop_by, thaw_stop};
ghost use Rattle.script_command.specs.Views.{IsUnread};

use pause_host::ThawFault;
use std::alloc::{AllocError, Global};
use transcript::{Refusal, RefusalKind, out_of_memory, refuse_program};
use vault_port::{PutFault, Sink};
use wa_types::Name;

/// The status of a sink that failed while lines of events were printed.
pub(crate) const SINK_FAULT: u8 = 12;

/// Why a call stops before it is done.
#[derive(Drop)]
pub(crate) enum Stop {
    /// Memory is wanting.
    Memory,
    /// The sink failed while lines of events were printed.
    Sink,
    /// It is refused for this, of which nothing is printed yet.
    Refused(Refusal),
}

impl From<AllocError> for Stop {
    ghost use Rattle.std.specs.Prelude.{◌≡◌};
    ghost use Rattle.script_command.specs.declared.stop.Stop.TheVariants.{Memory};

    ghost from_gives = { λ _ stop. stop ≡ Memory };

    fn from(_error: AllocError) -> Stop {
        Stop::Memory
    }
}

/// A refusal that names no program.
pub(crate) fn refused(kind: RefusalKind) -> Stop
    ensures { result ≡ refused_for kind }
{
    Stop::Refused(Refusal {
        program: None,
        kind,
    })
}

/// A refusal of the module of the program of this number.
pub(crate) fn refused_module(number: u32, kind: RefusalKind) -> Stop
    ensures { result ≡ refused_module number kind }
{
    Stop::Refused(Refusal {
        program: Some(number),
        kind,
    })
}

/// The stop of a file that couldn't be read.
pub(crate) fn unread(alloc: Global, name: &str) -> Stop
    ensures { IsUnread name.now result }
{
    match Name::new(alloc, name) {
        Ok(name) => refused(RefusalKind::ReadFault { name }),
        Err(_) => Stop::Memory,
    }
}

/// The stop of lines that weren't printed.
pub(crate) fn stop_by(fault: PutFault) -> Stop
    ensures { result ≡ stop_by fault }
{
    match fault {
        PutFault::Fault => Stop::Sink,
        PutFault::Memory => Stop::Memory,
    }
}

/// The stop of programs that weren't put back.
pub(crate) fn thaw_stop(fault: ThawFault) -> Stop
    ensures { result ≡ thaw_stop fault }
{
    match fault {
        ThawFault::Memory => Stop::Memory,
        ThawFault::Unfit => refused(RefusalKind::SnapshotRefused),
    }
}

/// Prints why a call stops, where the sink hasn't failed. Answers its status.
pub(crate) fn tell_stop<S: Sink>(alloc: Global, out: &mut S, stop: Stop) -> u8
    requires { IsToldStop stop }
    ensures told { Tells stop result (output (S.taken out.old) (S.taken out.new) (S.faults out.old) (S.faults out.new)) }
    ensures once { FailsAtMostOnce (S.faults out.old) (S.faults out.new) }
    ensures faults { S.faults out.old ≤ S.faults out.new }
{
    match stop {
        Stop::Memory => out_of_memory(out),
        Stop::Sink => SINK_FAULT,
        Stop::Refused(refusal) => refuse_program(alloc, out, refusal.program, refusal.kind),
    }
}
