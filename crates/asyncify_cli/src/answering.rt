//! What the program answers to its words, over any disk and any output.

ghost use Rattle.std.specs.Prelude.{◌≡◌, map, IfSome, IsNone};
ghost use Rattle.std.specs.String.{string_bytes};
ghost use Rattle.host_laws.specs.Supplies.{IsLent};
ghost use Rattle.asyncify_app.specs.Devices.{counted_boxes};
ghost use Rattle.system_vaults.specs.Kept.{disk_of, out_of};
ghost use Rattle.asyncify_cli.specs.Answered.{Answers, own_devices};

use asyncify_app::asyncify;
use device_port::{Counter, Device, Echo};
use std::alloc::Global;
use system_vaults::{Disk, FileVault, Out, OutSink};
use wa_types::Name;

/// The ticks after which a program goes on that has asked the counter.
const COUNTER_TICKS: u32 = 2;

/// Runs the command that these words spell over the files of a disk and an output, with a counter and an echo as its
/// devices, and answers its status: 10, 11 and 12 only where a call of the disk or the output failed, or took nothing of a
/// piece (10 also where the disk tells that a file isn't there). Where there is no memory for the devices nothing is done.
pub(crate) fn answer_words<D: Disk + Drop, O: Out + Drop>(
    alloc: Global,
    words: &[String],
    vault: &mut FileVault<D>,
    out: &mut OutSink<O>,
) -> Option<u8>
    ensures answered { IfSome result (λ status. Answers (map string_bytes words.now)
        (D.files (disk_of vault.old)) (D.files (disk_of vault.new))
        (D.read_faults (disk_of vault.old)) (D.read_faults (disk_of vault.new))
        (D.write_faults (disk_of vault.old)) (D.write_faults (disk_of vault.new))
        (O.faults (out_of out.old)) (O.faults (out_of out.new))
        (O.written (out_of out.old)) (O.written (out_of out.new))
        own_devices status) }
    ensures files_kept { IsNone result → D.files (disk_of vault.new) ≡ D.files (disk_of vault.old) }
    ensures out_kept { IsNone result → O.written (out_of out.new) ≡ O.written (out_of out.old) }
{
    let counter = Counter::new(alloc, Name::new(alloc, "counter").ok()?, COUNTER_TICKS);
    let echo = Echo::new(alloc, Name::new(alloc, "echo").ok()?);
    let mut devices: Vec<Box<dyn Device>> = Vec::new(alloc);
    devices.push(Box::new(alloc, counter).ok()?).ok()?;
    devices.push(Box::new(alloc, echo).ok()?).ok()?;
    Some(answer_with(alloc, words, vault, out, &mut devices))
}

/// Runs it with these devices.
fn answer_with<D: Disk + Drop, O: Out + Drop>(
    alloc: Global,
    words: &[String],
    vault: &mut FileVault<D>,
    out: &mut OutSink<O>,
    devices: &mut Vec<Box<dyn Device>>,
) -> u8
    requires lent { IsLent }
    ensures { Answers (map string_bytes words.now)
        (D.files (disk_of vault.old)) (D.files (disk_of vault.new))
        (D.read_faults (disk_of vault.old)) (D.read_faults (disk_of vault.new))
        (D.write_faults (disk_of vault.old)) (D.write_faults (disk_of vault.new))
        (O.faults (out_of out.old)) (O.faults (out_of out.new))
        (O.written (out_of out.old)) (O.written (out_of out.new))
        (counted_boxes seen (λ b. (⟦<dyn Device as Device>⟧ b.vtable).faults b.value) devices.old.items) result }
{
    asyncify(alloc, words, vault, out, devices)
}
