//! Numbers of four and eight bytes, the lowest first.

ghost use Rattle.std.specs.Prelude.{◌≡◌, ◌+◌, ◌<◌, ◌≤◌, ◌^◌, ◌++◌, length, drop, IfSome, IfNone};
ghost use Rattle.wa_types.specs.Memory.{bytes_of};
ghost use Rattle.snapshot_store.specs.Parts.{HeadFits, head_bytes};
ghost use Rattle.snapshot_store.specs.Views.{head_of};

/// The numbers of a paused program, up to how many globals it has.
#[derive(Clone, Copy)]
pub(crate) struct Head {
    pub due: u64,
    pub steps_used: u64,
    pub entry: u32,
    pub answers: u32,
    pub import: u32,
    pub globals: u32,
}

/// These numbers at `at`, which moves behind them. None exactly where fewer bytes stand there.
pub(crate) fn head_at(bytes: &[u8], at: &mut usize) -> Option<Head>
    requires { at.old ≤ length bytes.now }
    ensures is { IfSome result (λ h. drop at.old bytes.now ≡ head_bytes (head_of h) ++ drop at.new bytes.now) }
    ensures fits { IfSome result (λ h. HeadFits (head_of h)) }
    ensures place { at.new ≤ length bytes.now }
    ensures short { IfNone result (length bytes.now < at.old + 32) }
{
    let due = u64_at(bytes, at)?;
    let steps_used = u64_at(bytes, at)?;
    let entry = u32_at(bytes, at)?;
    let answers = u32_at(bytes, at)?;
    let import = u32_at(bytes, at)?;
    let globals = u32_at(bytes, at)?;
    Some(Head {
        due,
        steps_used,
        entry,
        answers,
        import,
        globals,
    })
}

/// The number of four bytes at `at`, which moves behind it. None exactly where fewer stand there.
pub(crate) fn u32_at(bytes: &[u8], at: &mut usize) -> Option<u32>
    requires { at.old ≤ length bytes.now }
    ensures is { IfSome result (λ n. drop at.old bytes.now ≡ bytes_of 4 n ++ drop at.new bytes.now) }
    ensures fits { IfSome result (λ n. n < 2 ^ 32) }
    ensures behind { IfSome result (λ n. at.new ≡ at.old + 4) }
    ensures place { at.new ≤ length bytes.now }
    ensures short { IfNone result (length bytes.now < at.old + 4) }
{
    let word = bytes[*at..].first_chunk::<4>()?;
    *at += 4;
    Some(u32::from_le_bytes(*word))
}

/// The number of eight bytes, likewise.
pub(crate) fn u64_at(bytes: &[u8], at: &mut usize) -> Option<u64>
    requires { at.old ≤ length bytes.now }
    ensures is { IfSome result (λ n. drop at.old bytes.now ≡ bytes_of 8 n ++ drop at.new bytes.now) }
    ensures fits { IfSome result (λ n. n < 2 ^ 64) }
    ensures behind { IfSome result (λ n. at.new ≡ at.old + 8) }
    ensures place { at.new ≤ length bytes.now }
    ensures short { IfNone result (length bytes.now < at.old + 8) }
{
    let word = bytes[*at..].first_chunk::<8>()?;
    *at += 8;
    Some(u64::from_le_bytes(*word))
}
