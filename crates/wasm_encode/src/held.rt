//! Entries of the code section that are put one by one, and kept as long as a module may have as many bytes (standard, section 5.5.13).

ghost use Rattle.std.specs.Prelude.{◌<◌, ◌^◌, ◌++◌, ℕ, List, [], length, OnOk};
ghost use Rattle.wa_types.specs.View.{func_of};
ghost use Rattle.wasm_encode.specs.Around.{code_entry, HoldsEntries};
ghost use Rattle.wasm_encode.specs.Locals.{local_count};

use crate::LONGEST;
use crate::entries::{body_len, put_sized};
use crate::numbers::sized_len;
use bytes::BytesMut;
use std::alloc::{AllocError, Global};
use wa_types::Func;

/// Entries of the code section, one behind the other: how many bytes they take, and these, as long as a module may have as many.
#[derive(Drop)]
pub struct CodeEntries {
    pub(crate) bytes: BytesMut,
    pub(crate) len: u64,
}

impl CodeEntries {
    /// No entry.
    pub fn new(alloc: Global) -> CodeEntries
        ensures { HoldsEntries result [] }
    {
        CodeEntries {
            bytes: BytesMut::new(alloc),
            len: 0,
        }
    }

    /// Puts a function as the next entry. Once the entries have more bytes than a module may have, these are counted and not kept.
    pub fn put(&mut self, alloc: Global, func: &Func) -> Result<(), AllocError>
        requires locals { local_count func.now.locals.items < 2 ^ 32 }
        requires fits { length (code_entry (func_of func.now)) < 2 ^ 64 }
        ensures { OnOk result ((entries : List ℕ) → HoldsEntries self.old entries → HoldsEntries self.new (entries ++ code_entry (func_of func.now))) }
    {
        let size = body_len(func);
        self.len = self.len.saturating_add(sized_len(size));
        if self.len > LONGEST {
            self.bytes = BytesMut::new(alloc);
            return Ok(());
        }
        put_sized(&mut self.bytes, func, size)?;
        Ok(())
    }
}
