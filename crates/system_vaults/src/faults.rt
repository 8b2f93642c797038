//! Counts of faults: of calls that failed, and of writes that took nothing of a piece.

ghost use Rattle.std.specs.Prelude.{◌≡◌, ◌≢◌, ◌≤◌, ◌⊎◌, IfOk, OnOk, IsErr, true, false, length};
ghost use Rattle.vault_port.specs.Counts.{one_more};

use std::io;

/// Counts one fault more.
fn raise(faults: &mut u64)
    ensures one { faults.new ≡ one_more faults.old }
    ensures rising { faults.old ≤ faults.new }
{
    *faults = faults.saturating_add(1);
}

/// What a call answered, which is counted where it failed.
pub(crate) fn counted<T>(answer: io::Result<T>, faults: &mut u64) -> io::Result<T>
    ensures same { result ≡ answer }
    ensures failed { IsErr answer → faults.new ≡ one_more faults.old }
    ensures stays { OnOk answer (faults.new ≡ faults.old) }
    ensures rising { faults.old ≤ faults.new }
{
    if answer.is_err() {
        raise(faults);
    }
    answer
}

/// What a write of a piece answered, which is counted where it failed or took nothing of the piece.
pub(crate) fn counted_write(
    answer: io::Result<usize>,
    piece: &[u8],
    faults: &mut u64,
) -> io::Result<usize>
    ensures same { result ≡ answer }
    ensures failed { IsErr answer → faults.new ≡ one_more faults.old }
    ensures none { IfOk answer (λ n. n ≡ 0 → (length piece.now ≡ 0) ⊎ (faults.new ≡ one_more faults.old)) }
    ensures stays { IfOk answer (λ n. (n ≢ 0) ⊎ (length piece.now ≡ 0) → faults.new ≡ faults.old) }
    ensures rising { faults.old ≤ faults.new }
{
    match &answer {
        Ok(count) if !took_nothing(*count, piece) => {}
        _ => raise(faults),
    }
    answer
}

/// Whether a write that took so many bytes of a piece left all there were.
pub(crate) fn took_nothing(count: usize, piece: &[u8]) -> bool
    ensures nothing { result ≡ true → count ≡ 0 }
    ensures piece { result ≡ true → length piece.now ≢ 0 }
    ensures some { result ≡ false → count ≡ 0 → length piece.now ≡ 0 }
{
    count == 0 && !piece.is_empty()
}
