//! A lent list of boxed devices: found by name, asked, taken out.

ghost use Rattle.std.specs.Prelude.{◌≡◌, ◌≤◌, ◌<◌, ◌^◌, ℕ, List, length, map, false, IfOk, OnErr, IsErrOf, MatchOption};
ghost use Rattle.std.specs.List.{list_any, remove};
ghost use Rattle.wa_model.specs.declared.events.End.TheVariants.{DeviceFault};
ghost use Rattle.wa_model.specs.Plan.{refused, ValueFits};
ghost use Rattle.world_model.specs.World.{is_named, journaled, taken_out, MeetsDevice};
ghost use Rattle.vault_port.specs.Counts.{HasRisen};
ghost use Rattle.device_port.specs.Journals.{entry, with_entry, replied};
ghost use Rattle.device_port.specs.Listed.{of_each, IsFirstOf, ChangesAt};

use crate::device::{Device, DeviceFail, Reply};
use wa_types::Value;

/// A caller's list of boxed devices, lent.
#[derive(Drop)]
pub struct Devices<'d> {
    list: &'d mut Vec<Box<dyn Device>>,
}

impl<'d> Devices<'d> {
    /// The devices of this list.
    pub fn new(list: &'d mut Vec<Box<dyn Device>>) -> Devices<'d>
        ensures same_list { result.list.ghost_name ≡ list.entry.ghost_name }
        ensures devices { of_each seen result ≡ map seen list.old.items }
        ensures counts { of_each faults result ≡ map faults list.old.items }
    {
        Devices { list }
    }

    /// The place of the first device of this name; None where there is none.
    pub fn find(&self, name: &str) -> Option<usize>
        ensures { MatchOption result (list_any (is_named name.now) (of_each seen self.now) ≡ false)
            (λ place. IsFirstOf (of_each seen self.now) name.now place) }
    {
        place_of(self.list.as_slice(), name)
    }

    /// Asks the device at a place. Its answer is one more entry of its journal, in a world that of the first device of
    /// a name which it is; after an error the journals are as before. `Fault`: only where its count of faults rose.
    pub fn ask(&mut self, place: usize, base: &str, args: &[Value]) -> Result<Reply, DeviceFail>
        requires { place < length (of_each seen self.old) }
        ensures same_list { self.new.list.ghost_name ≡ self.old.list.ghost_name }
        ensures answered { IfOk result (λ reply.
            ChangesAt (λ old new. new ≡ with_entry (entry base.now args.now reply) old)
            place (of_each seen self.old) (of_each seen self.new)) }
        ensures journaled { IfOk result (λ reply.
            (name : List ℕ) → IsFirstOf (of_each seen self.old) name place
            → of_each seen self.new
            ≡ journaled name (entry base.now args.now reply) (of_each seen self.old)) }
        ensures meets { IfOk result (λ reply.
            (import : ℕ) (name : List ℕ) → IsFirstOf (of_each seen self.old) name place
            → MeetsDevice import base.now name args.now
            (of_each seen self.old) (replied reply) (of_each seen self.new)) }
        ensures kept { OnErr result (of_each seen self.new ≡ of_each seen self.old) }

        ensures fault { IsErrOf result DeviceFail.Fault
            → ChangesAt HasRisen place (of_each faults self.old) (of_each faults self.new) }
        ensures meets_fault { IsErrOf result DeviceFail.Fault
            → (import : ℕ) (name : List ℕ) → IsFirstOf (of_each seen self.old) name place
            → MeetsDevice import base.now name args.now
            (of_each seen self.old) (refused (DeviceFault import)) (of_each seen self.new) }
        ensures steady { IfOk result (λ reply. of_each faults self.new ≡ of_each faults self.old) }
        ensures rising { ChangesAt (λ old new. old ≤ new)
            place (of_each faults self.old) (of_each faults self.new) }
    {
        let device = &mut self.list[place];
        ask_box(device, base, args)
    }

    /// Takes out the device at a place and drops it. The rest keep their order, journals and counts.
    pub fn detach(&mut self, place: usize)
        requires { place < length (of_each seen self.old) }
        ensures same_list { self.new.list.ghost_name ≡ self.old.list.ghost_name }
        ensures boxes { self.new.list.now.items ≡ remove self.old.list.now.items place }
        ensures devices { of_each seen self.new ≡ remove (of_each seen self.old) place }
        ensures counts { of_each faults self.new ≡ remove (of_each faults self.old) place }
        ensures taken_out { (name : List ℕ) → IsFirstOf (of_each seen self.old) name place
            → of_each seen self.new ≡ taken_out name (of_each seen self.old) }
    {
        drop(self.list.remove(place));
    }
}

/// The place of the first device of this name; None where there is none.
fn place_of(list: &[Box<dyn Device>], name: &str) -> Option<usize>
    ensures { MatchOption result (list_any (is_named name.now) (map seen list.now) ≡ false)
        (λ place. IsFirstOf (map seen list.now) name.now place) }
{
    for (place, device) in list.iter().enumerate() {
        if is_of_name(device, name) {
            return Some(place);
        }
    }
    None
}

/// Whether a device has this name.
fn is_of_name(device: &Box<dyn Device>, name: &str) -> bool
    ensures { result ≡ is_named name.now (seen device.now) }
{
    name_of(device) == name
}

/// A device's name.
fn name_of(device: &Box<dyn Device>) -> &str
    ensures { result.now ≡ (seen device.now).name }
{
    device.name()
}

/// Asks one device.
fn ask_box(device: &mut Box<dyn Device>, base: &str, args: &[Value]) -> Result<Reply, DeviceFail>
    ensures answered { IfOk result (λ reply.
        (seen device.new ≡ with_entry (entry base.now args.now reply) (seen device.old))
        × ValueFits reply.value × (reply.ticks < 2 ^ 32)) }
    ensures kept { OnErr result (seen device.new ≡ seen device.old) }
    ensures fault { IsErrOf result DeviceFail.Fault
        → HasRisen (faults device.old) (faults device.new) }
    ensures steady { IfOk result (λ reply. faults device.new ≡ faults device.old) }
    ensures rising { faults device.old ≤ faults device.new }
{
    match device.call(base, args) {
        Ok(reply) => Ok(in_range(reply)),
        Err(fail) => Err(fail),
    }
}

/// A reply as it is. Its numbers have the ranges of their types.
fn in_range(reply: Reply) -> Reply
    ensures same { result ≡ reply }
    ensures value { ValueFits reply.value }
    ensures ticks { reply.ticks < 2 ^ 32 }
{
    match reply.value {
        Some(Value::I32(_)) => reply,
        Some(Value::I64(_)) => reply,
        None => reply,
    }
}
