//! The entry calls of a plan.

ghost use Rattle.std.specs.Prelude.{◌≡◌, IfOk, length, map};
ghost use Rattle.host_setup.specs.Views.{entry_of as named_of};
ghost use Rattle.pause_host.specs.Views.{entry_of};
ghost use Rattle.pause_host.specs.Settings.{calls_of};

use crate::stages::EntryCall;
use host_setup::Entry;
use std::alloc::{AllocError, Global};
use std::collections::VecDeque;

/// The entry calls of a plan, of these functions, one each.
pub fn entry_calls(
    alloc: Global,
    entries: Vec<Entry>,
    funcs: &[u32],
) -> Result<VecDeque<EntryCall>, AllocError>
    requires { length funcs.now ≡ length entries.items }
    ensures { IfOk result (λ calls. map entry_of calls.items ≡ calls_of (map named_of entries.items) funcs.now) }
{
    let mut rest = VecDeque::from_vec(entries);
    let mut calls = VecDeque::new(alloc);
    for func in funcs {
        let Some(entry) = rest.pop_front() else {
            unreachable!();
        };
        let func = *func;
        let args = entry.args;
        calls.push_back(EntryCall { func, args })?;
    }
    Ok(calls)
}
