//! Journals of devices: the calls that were answered, in order.

ghost use Rattle.std.specs.Prelude.{◌≡◌, [], ◌∷◌, ◌++◌, map, length, IfOk, OnOk, OnErr};
ghost use Rattle.device_port.specs.Journals.{entry};
ghost use Rattle.device_port.specs.Kept.{asked_of};

use crate::device::Reply;
use std::alloc::{AllocError, Global};
use std::marker::Model;
use wa_types::{Name, Value};

/// An answered call: the import's base name, the arguments and the reply.
#[derive(Drop)]
pub struct Asked {
    pub base: Name,
    pub args: Vec<Value>,
    pub reply: Reply,
}

/// The calls that a device has answered, in order.
#[derive(Drop)]
pub struct Journal {
    alloc: Global,
    entries: Vec<Asked>,
}

impl Model for Journal {
    ghost use Rattle.std.specs.Prelude.{List, map};
    ghost use Rattle.world_model.specs.World.{Asked};
    ghost use Rattle.device_port.specs.Kept.{asked_of};

    ghost Value = { List Asked };

    ghost view = { λ journal. map asked_of journal.entries.items };
}

impl Journal {
    /// No calls.
    pub(crate) fn new(alloc: Global) -> Journal
        ensures { result ≡ [] }
    {
        Journal {
            alloc,
            entries: Vec::new(alloc),
        }
    }

    /// The calls.
    pub(crate) fn entries(&self) -> &[Asked]
        ensures { map asked_of result.now ≡ self.now }
    {
        &self.entries
    }

    /// How many they are.
    pub(crate) fn len(&self) -> usize
        ensures { result ≡ length self.now }
    {
        self.entries.len()
    }

    /// One more call. After an error they are as before.
    pub(crate) fn add(&mut self, base: &str, args: &[Value], reply: Reply) -> Result<(), AllocError>
        ensures added { OnOk result (self.new ≡ self.old ++ entry base.now args.now reply ∷ []) }
        ensures kept { OnErr result (self.new ≡ self.old) }
    {
        let call = answered(self.alloc, base, args, reply)?;
        self.entries.push(call)?;
        Ok(())
    }
}

/// An answered call.
fn answered(alloc: Global, base: &str, args: &[Value], reply: Reply) -> Result<Asked, AllocError>
    ensures { IfOk result (λ call. asked_of call ≡ entry base.now args.now reply) }
{
    Ok(Asked {
        base: Name::new(alloc, base)?,
        args: Vec::from_slice(alloc, args)?,
        reply,
    })
}
