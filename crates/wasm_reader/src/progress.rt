//! How far a file that comes in pieces has been read and built. Of the file only what isn't built is held.

ghost use Rattle.std.specs.Prelude.{◌≡◌, ◌≤◌, ◌<◌, ◌+◌, ◌^◌, ◌++◌, ℕ, List, length, take, drop, IfOk, OnOk, Some};
ghost use Rattle.std.specs.Result.{IfErr};
ghost use Rattle.wa_types.specs.Begun.{Begun};
ghost use Rattle.wasm_reader.specs.Pieces.{IsFeedFault, IsStop};
ghost use Rattle.wasm_reader.specs.Progress.{BuildsOn, Goes, HasMore, IsGoing, bytes_of};

use crate::read_fault::ReadFault;
use std::alloc::Global;
use wa_types::{Bounds, LimitKind};
use wasm_build::{BuildFault, Builder};
use wasm_grammar::{CheckFault, Machine, Passed, Piece, Window};

/// What is held between two pieces.
#[derive(Drop)]
pub(crate) struct Progress {
    // The bytes that are built, which proofs know, and how many they are.
    pub(crate) before: Passed,
    pub(crate) base: usize,
    // Those behind them.
    pub(crate) window: Vec<u8>,
    // How far items have been read; none before the first piece.
    pub(crate) machine: Option<Machine>,
    // The module so far; none where no file that begins so is accepted.
    pub(crate) builder: Option<Builder>,
}

/// Takes one more piece behind bytes without a fault: reads the items that are whole by then, and builds what is whole of the module.
pub(crate) fn take(
    alloc: Global,
    progress: &mut Progress,
    bounds: &Bounds,
    piece: &[u8],
) -> Result<(), ReadFault>
    requires going { Goes bounds.now progress.old progress.old.window.items }
    requires few { length (bytes_of progress.old) ≤ bounds.now.file }
    ensures bytes { OnOk result (bytes_of progress.new ≡ bytes_of progress.old ++ piece.now) }
    ensures few { OnOk result (length (bytes_of progress.old ++ piece.now) ≤ bounds.now.file) }
    ensures going { OnOk result (Goes bounds.now progress.new progress.new.window.items) }
    ensures begun { OnOk result (Begun (bytes_of progress.old ++ piece.now)) }
    ensures fault { IfErr result (IsFeedFault bounds.now.file (bytes_of progress.old ++ piece.now)) }
{
    let limit = bounds.file();
    let come = progress.base + progress.window.len();
    if piece.len() > limit as usize - come {
        return Err(ReadFault::Limit {
            what: LimitKind::File,
            found: limit as u64 + 1,
        });
    }
    progress.window.extend_from_slice(piece)?;
    go_on(alloc, progress, bounds)
}

// Reads and builds what is whole by now, where that of the bytes in front of the last piece has been read and built.
fn go_on(alloc: Global, progress: &mut Progress, bounds: &Bounds) -> Result<(), ReadFault>
    requires more { HasMore bounds.now progress.old }
    requires short { length (bytes_of progress.old) < 2 ^ 32 }
    ensures bytes { OnOk result (bytes_of progress.new ≡ bytes_of progress.old) }
    ensures going { OnOk result (Goes bounds.now progress.new progress.new.window.items) }
    ensures begun { OnOk result (Begun (bytes_of progress.old)) }
    ensures fault { IfErr result (IsStop (bytes_of progress.old)) }
{
    let machine = progress.machine.take();
    let builder = progress.builder.take();
    let file = Window::new(&progress.before, progress.base, &progress.window);
    let machine = read_on(alloc, machine, &file, bounds)?;
    let passed = machine.reached() - progress.base;
    let deep = machine.is_deep();
    let (builder, used) = build_on(
        alloc,
        builder,
        deep,
        &progress.window[..passed],
        progress.base,
    )?;
    progress.machine = Some(machine);
    progress.builder = builder;
    drop_front(progress, used);
    Ok(())
}

// Reads the items that are whole by now, where those of the bytes in front of the last piece have been read.
fn read_on(
    alloc: Global,
    machine: Option<Machine>,
    file: &Window<'_>,
    bounds: &Bounds,
) -> Result<Machine, ReadFault>
    requires { (old : List ℕ) × (piece : List ℕ) × IsGoing bounds.now old file.now.base machine × (file.now.all ≡ old ++ piece) }
    ensures going { IfOk result (λ m. IsGoing bounds.now file.now.all file.now.base (Some m)) }
    ensures begun { IfOk result (λ m. Begun file.now.all) }
    ensures fault { IfErr result (IsStop file.now.all) }
{
    let mut machine = match machine {
        Some(machine) => machine,
        None => Machine::new(alloc)?,
    };
    match machine.feed(alloc, file, bounds) {
        Ok(()) => Ok(machine),
        Err(CheckFault::Memory) => Err(ReadFault::Memory),
        Err(CheckFault::Malformed { at }) => Err(ReadFault::Malformed { at: at as u64 }),
    }
}

// Builds what is whole of these bytes, which come next and whose items have been read, and tells how many bytes that is; nothing where the
// builder wants more of them first. Where nesting is too deep, or the bytes spell no module, nothing more is built.
fn build_on(
    alloc: Global,
    builder: Option<Builder>,
    deep: bool,
    bytes: &[u8],
    base: usize,
) -> Result<(Option<Builder>, usize), ReadFault>
    requires { base + length bytes.now < 2 ^ 64 }
    ensures within { IfOk result (λ r. r.1 ≤ length bytes.now) }
    ensures built { IfOk result (λ r. BuildsOn builder deep base bytes.now r.0 r.1) }
    ensures fault { IfErr result (λ fault. fault ≡ ReadFault.Memory) }
{
    let Some(mut builder) = builder else {
        return Ok((None, 0));
    };
    if deep {
        return Ok((None, 0));
    }
    if bytes.len() < builder.wanted() {
        return Ok((Some(builder), 0));
    }
    match builder.take(alloc, bytes, base) {
        Ok(used) => Ok((Some(builder), used)),
        Err(BuildFault::Memory) => Err(ReadFault::Memory),
        Err(BuildFault::NotSpelled) => Ok((None, 0)),
    }
}

// Lets go of so many of the first bytes that are held.
fn drop_front(progress: &mut Progress, used: usize)
    requires within { used ≤ length progress.old.window.items }
    requires fits { progress.old.base + used < 2 ^ 64 }
    ensures before { progress.new.before.bytes ≡ progress.old.before.bytes ++ take used progress.old.window.items }
    ensures window { progress.new.window.items ≡ drop used progress.old.window.items }
    ensures base { progress.new.base ≡ progress.old.base + used }
    ensures machine { progress.new.machine ≡ progress.old.machine }
    ensures builder { progress.new.builder ≡ progress.old.builder }
{
    if used == 0 {
        return;
    }
    let left = progress.window.len() - used;
    let gone = Piece {
        bytes: &progress.window[..used],
    };
    progress.before = progress.before.then(&gone);
    progress.base += used;
    progress.window.copy_within(used.., 0);
    progress.window.truncate(left);
}
