//! Scripts without `device`, `mailbox` and `strand` lines, opened.

ghost use Rattle.std.specs.Prelude.{◌≡◌, ◌≤◌, IfOk, OnOk};
ghost use Rattle.std.specs.Result.{IfErr};
ghost use Rattle.script_command.specs.Views.{CanPlay};
ghost use Rattle.script_command.specs.SnapshotViews.{Blames, Opens};

use crate::opening::{Opened, open_whole, read_whole};
use crate::stop::{Stop, refused};
use crate::way::Way;
use script_reader::unsaved_line;
use std::alloc::Global;
use transcript::RefusalKind;
use vault_port::Vault;

/// The rule that a script which is saved or continued has no `device`, `mailbox` or `strand` line.
const UNSAVED_RULE: u8 = 18;

/// Reads a script that has no `device`, `mailbox` or `strand` line, then each of its programs in order, as `run` does: its module, which
/// is rewritten, and then its set-up rules. Answers them, or the first reason against it. No file changes.
pub(crate) fn open_plain<V: Vault>(
    alloc: Global,
    vault: &mut V,
    script: &str,
) -> Result<Opened, Stop>
    ensures opened { IfOk result (λ o. Opens (V.files vault.old) script.now o) }
    ensures plays { IfOk result CanPlay }
    ensures refused { IfErr result (λ stop. Blames (V.files vault.old) (V.fetch_faults vault.old) (V.fetch_faults vault.new) script.now stop) }
    ensures kept { V.files vault.new ≡ V.files vault.old }
    ensures stays { OnOk result (V.fetch_faults vault.new ≡ V.fetch_faults vault.old) }
    ensures faults { V.fetch_faults vault.old ≤ V.fetch_faults vault.new }
    ensures saves { V.save_faults vault.new ≡ V.save_faults vault.old }
{
    let whole = match read_whole(alloc, vault, script) {
        Ok(whole) => whole,
        Err(stop) => return Err(stop),
    };
    match unsaved_line(&whole) {
        Some(line) => Err(refused(RefusalKind::Script {
            line,
            rule: UNSAVED_RULE,
        })),
        None => open_whole(alloc, vault, Way::Run, whole),
    }
}
