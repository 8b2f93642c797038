//! The worlds of loops, by level.

ghost use Rattle.std.specs.Prelude.{◌≡◌, ◌<◌, ◌^◌, ◌||◌, ◌&&◌, ℕ, suc, length, replicate, get_or, nat_eq, if◌then◌else◌, IfOk};
ghost use Rattle.live_locals.specs.Sets.{has};
ghost use Rattle.live_locals.specs.Words.{bit, world, meets};
ghost use Rattle.live_locals.specs.Heads.{deeper};
ghost use Rattle.std.specs.Int.Bits.{bit_or};

use std::alloc::{AllocError, Global};

/// The level of what stands in a loop at this one.
pub(crate) fn inside(level: u32) -> u32
    ensures { result ≡ deeper level }
{
    if level < 64 { level + 1 } else { level }
}

/// The bit of the world of a loop at this level.
fn own_bit(level: u32) -> u64
    requires { level < 63 }
    ensures { result ≡ 2 ^ suc level }
{
    1 << (level + 1)
}

/// The same where the loop has a world, and else no bit.
fn own_word(level: u32) -> u64
    ensures { (i : ℕ) → i < 64 → bit i result ≡ nat_eq i (suc level) }
{
    if level < 63 { own_bit(level) } else { 0 }
}

/// What the label of a loop at this level tells of so many locals to what stands in the loop.
pub(crate) fn label_told(alloc: Global, count: usize, level: u32) -> Result<Vec<u64>, AllocError>
    ensures { IfOk result (λ v. (w : ℕ) × (v.items ≡ replicate count w) × ((i : ℕ) → i < 64 → bit i w ≡ nat_eq i (suc level))) }
{
    vec![in alloc; own_word(level); count]
}

/// A word in which the bit of a world tells what that of world 0 tells.
fn left(word: u64, own: u64) -> u64
    ensures { (i : ℕ) → i < 64 → bit i result ≡ (if bit i own then bit 0 word else bit i word) }
{
    if word & 1 == 0 {
        word & !own
    } else {
        word | own
    }
}

/// In front of a loop its own world tells what world 0 tells.
pub(crate) fn leave(set: &mut [u64], level: u32)
    ensures { (i x : ℕ) → i < 64 → has (world i set.new) x ≡ (if nat_eq i (suc level) then has (world 0 set.old) x else has (world i set.old) x) }
{
    let own = own_word(level);
    for word in set.iter_mut() {
        *word = left(*word, own);
    }
}

/// A set that is the same in all worlds.
pub fn broadcast(alloc: Global, set: &[bool]) -> Result<Vec<u64>, AllocError>
    ensures { IfOk result (λ v. (i : ℕ) → i < 64 → world i v.items ≡ set.now) }
{
    let mut words = Vec::with_capacity(alloc, set.len())?;
    for told in set {
        words.push(everywhere(*told))?;
    }
    Ok(words)
}

/// A local is told in all worlds, or in none.
fn everywhere(told: bool) -> u64
    ensures { (i : ℕ) → i < 64 → bit i result ≡ told }
{
    if told { u64::MAX } else { 0 }
}

/// What is told in some world that holds of a local: `reach` has the bits of these worlds.
pub fn met(set: &mut [bool], words: &[u64], reach: &[u64])
    requires words { length words.now ≡ length set.old }
    requires reach { length reach.now ≡ length set.old }
    ensures { (x : ℕ) → x < length set.old → has set.new x ≡ meets (get_or words.now x 0) (get_or reach.now x 0) }
{
    for local in 0..set.len() {
        set[local] = words[local] & reach[local] != 0;
    }
}

/// The worlds that hold of each local inside a loop at this level: that of the loop too where `head` has the local.
pub fn entered(
    alloc: Global,
    reach: &[u64],
    head: &[bool],
    level: u32,
) -> Result<Vec<u64>, AllocError>
    requires level { level < 63 }
    requires head { length head.now ≡ length reach.now }
    ensures { IfOk result (λ v. (length v.items ≡ length reach.now)
        × ((x u : ℕ) → x < length reach.now → u < 2 ^ 64 → meets u (get_or v.items x 0) ≡ (meets u (get_or reach.now x 0) || (has head.now x && bit (suc level) u)))) }
{
    let own = own_bit(level);
    let mut worlds = Vec::from_slice(alloc, reach)?;
    enter(&mut worlds, head, own);
    Ok(worlds)
}

/// A bit is put in where `head` has the local.
fn enter(worlds: &mut [u64], head: &[bool], own: u64)
    requires { length head.now ≡ length worlds.old }
    ensures { (x : ℕ) → x < length worlds.old → get_or worlds.new x 0 ≡ (if has head.now x then bit_or (get_or worlds.old x 0) own else get_or worlds.old x 0) }
{
    for local in 0..worlds.len() {
        if head[local] {
            worlds[local] |= own;
        }
    }
}
