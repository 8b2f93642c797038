//! What a host writes into a program's memory: the words of the area, and the pokes of an answer.

ghost use Rattle.std.specs.Prelude.{◌≡◌, ◌≤◌, ◌+◌, ◌-◌, ◌%◌, ◌^◌, length, map};
ghost use Rattle.wa_types.specs.Memory.{bytes_at, number_of_bytes, overwritten};
ghost use Rattle.wa_model.specs.Store.{with_memory};
ghost use Rattle.wa_model.specs.Blocking.{poked};
ghost use Rattle.wa_model.specs.Protocol.{put_word, used_of, with_words};
ghost use Rattle.wa_model.specs.View.{poke_of};
ghost use Rattle.interp.specs.Host.{code_in, store_in, waits_in};
ghost use Rattle.pause_host.specs.Holding.{HoldsArea, PokesInside};
ghost use Rattle.pause_host.specs.Hosting.{HasMemory};

use interp::Instance;
use wa_model::{Area, Poke};

/// Writes the words of an empty stack: the location behind both, and the end of the area.
pub fn write_words(instance: &mut Instance<'_>, area: Area)
    requires memory { HasMemory (code_in instance.old) }
    requires area { HoldsArea area (store_in instance.old) }
    ensures store { store_in instance.new ≡ with_words (store_in instance.old) area }
    ensures waits { waits_in instance.new ≡ waits_in instance.old }
    ensures code { code_in instance.new ≡ code_in instance.old }
{
    write_word(instance, u64::from(area.at), u64::from(area.at) + 8);
    write_word(
        instance,
        u64::from(area.at) + 4,
        u64::from(area.at) + u64::from(area.len),
    );
}

fn write_word(instance: &mut Instance<'_>, at: u64, word: u64)
    requires memory { HasMemory (code_in instance.old) }
    requires inside { at + 4 ≤ length (store_in instance.old).memory }
    ensures store { store_in instance.new ≡ with_memory (store_in instance.old) (put_word (store_in instance.old).memory at word) }
    ensures waits { waits_in instance.new ≡ waits_in instance.old }
    ensures code { code_in instance.new ≡ code_in instance.old }
{
    let word = (word % (1 << 32)) as u32;
    write(instance, at, &word.to_le_bytes());
}

/// Writes what an answer puts into the memory, in order.
pub fn write_pokes(instance: &mut Instance<'_>, pokes: &[Poke])
    requires memory { HasMemory (code_in instance.old) }
    requires inside { PokesInside (length (store_in instance.old).memory) (map poke_of pokes.now) }
    ensures store { store_in instance.new ≡ poked (store_in instance.old) (map poke_of pokes.now) }
    ensures waits { waits_in instance.new ≡ waits_in instance.old }
    ensures code { code_in instance.new ≡ code_in instance.old }
{
    for poke in pokes {
        write(instance, u64::from(poke.at), &poke.bytes);
    }
}

// Writes bytes that lie inside the memory.
fn write(instance: &mut Instance<'_>, at: u64, bytes: &[u8])
    requires memory { HasMemory (code_in instance.old) }
    requires inside { at + length bytes.now ≤ length (store_in instance.old).memory }
    ensures store { store_in instance.new ≡ with_memory (store_in instance.old) (overwritten (store_in instance.old).memory at bytes.now) }
    ensures waits { waits_in instance.new ≡ waits_in instance.old }
    ensures code { code_in instance.new ≡ code_in instance.old }
{
    if !instance.poke(at, bytes) {
        unreachable!();
    }
}

/// How many bytes of the area the location word says are used.
pub fn used_of(instance: &Instance<'_>, area: Area) -> u32
    requires memory { HasMemory (code_in instance.now) }
    requires area { HoldsArea area (store_in instance.now) }
    ensures { result ≡ used_of (store_in instance.now) area }
{
    let Some(memory) = instance.memory() else {
        unreachable!();
    };
    used_at(memory, area.at)
}

// The same of an area that begins at this place.
fn used_at(memory: &[u8], at: u32) -> u32
    requires { at + 4 ≤ length memory.now }
    ensures { result ≡ (number_of_bytes (bytes_at memory.now at 4) + 2 ^ 32 - at) % 2 ^ 32 }
{
    word_at(memory, at as usize).wrapping_sub(at)
}

// The number that the four bytes at a place spell.
fn word_at(memory: &[u8], at: usize) -> u32
    requires { at + 4 ≤ length memory.now }
    ensures { result ≡ number_of_bytes (bytes_at memory.now at 4) }
{
    u32::from_le_bytes([memory[at], memory[at + 1], memory[at + 2], memory[at + 3]])
}
