//! A linear memory as its bytes, read and written at addresses, and grown by pages (standard, sections 4.2.8 and 4.4.4).

ghost use Rattle.std.specs.Prelude.{◌≡◌, ◌+◌, ◌*◌, ◌^◌, ◌<◌, ◌≤◌, ◌⊎◌, ◌↔◌, IsSome, IfOk, IfSome, IfNone, OnSome, OnErr, length, replicate, Some, None};
ghost use Rattle.std.specs.Bool.{OnTrue, OnFalse};
ghost use Rattle.std.specs.Option.{SomeIff};
ghost use Rattle.wa_types.specs.Memory.{IsWholePages, page_size, pages_of, number_at, bytes_at, with_piece, with_number, copied, filled_with, page_bound, grown};

use std::alloc::{AllocError, Global};
use std::marker::Model;

/// The bytes of a page (standard, section 4.2.8).
const PAGE_SIZE: usize = 65_536;

/// The greatest number of pages that any memory may grow to.
const MOST_PAGES: u32 = 1_024;

/// A linear memory (standard, section 4.2.8). Contracts see its bytes, and the greatest number of pages that
/// its type declares.
#[derive(Drop)]
pub struct Pages {
    bytes: Vec<u8>,
    max: Option<u32>,
}

impl Model for Pages {
    ghost use Rattle.wa_types.specs.Memory.{Memory, IsWholePages};

    ghost Value = { Memory };

    ghost view = { λ p. record { bytes = p.bytes.items; max = p.max } };

    ghost invariant = { λ p. IsWholePages p.bytes.items };
}

impl Pages {
    /// A memory of `min` pages of zeros, whose type declares the maximum `max`, in pages.
    pub fn new(alloc: Global, min: u32, max: Option<u32>) -> Result<Pages, AllocError>
        requires { min ≤ 1024 }
        ensures bytes { IfOk result (λ m. m.bytes ≡ replicate (min * page_size) 0) }
        ensures max { IfOk result (λ m. m.max ≡ max) }
    {
        let mut bytes = Vec::new(alloc);
        bytes.resize(min as usize * PAGE_SIZE, 0)?;
        Ok(Pages { bytes, max })
    }

    /// A memory of these bytes, which are whole pages, and whose type declares the maximum `max`, in pages.
    pub fn from_slice(alloc: Global, bytes: &[u8], max: Option<u32>) -> Result<Pages, AllocError>
        requires { IsWholePages bytes.now }
        ensures bytes { IfOk result (λ m. m.bytes ≡ bytes.now) }
        ensures max { IfOk result (λ m. m.max ≡ max) }
    {
        let bytes = Vec::from_slice(alloc, bytes)?;
        Ok(Pages { bytes, max })
    }

    /// The number of pages (standard, section 4.4.4.3).
    pub fn size(&self) -> u32
        ensures pages { result ≡ pages_of self.now.bytes }
        ensures whole { length self.now.bytes ≡ result * page_size }
        ensures bounded { result ≤ 1024 }
    {
        (self.bytes.len() / PAGE_SIZE) as u32
    }

    /// All bytes.
    pub fn bytes(&self) -> &[u8]
        ensures { result.now ≡ self.now.bytes }
    {
        self.bytes.as_slice()
    }

    /// The number that `width` bytes at an address spell, the lowest first, or None exactly where they reach
    /// past the end (standard, section 4.4.4.1). No sign is extended.
    #[inline]
    pub fn load(&self, addr: u64, width: u32) -> Option<u64>
        requires { (width ≡ 1) ⊎ (width ≡ 2) ⊎ (width ≡ 4) ⊎ (width ≡ 8) }
        ensures value { result ≡ number_at self.now.bytes addr width }
        ensures fits { IfSome result (λ n. n < 256 ^ width) }
    {
        match width {
            1 => Some(u64::from(self.array_at::<1>(addr)?[0])),
            2 => Some(u64::from(u16::from_le_bytes(*self.array_at(addr)?))),
            4 => Some(u64::from(u32::from_le_bytes(*self.array_at(addr)?))),
            _ => Some(u64::from_le_bytes(*self.array_at(addr)?)),
        }
    }

    /// Writes the low `width` bytes of `value` at an address, the lowest first. False exactly where they reach
    /// past the end, and then nothing changes (standard, section 4.4.4.2).
    #[inline]
    pub fn store(&mut self, addr: u64, width: u32, value: u64) -> bool
        requires { (width ≡ 1) ⊎ (width ≡ 2) ⊎ (width ≡ 4) ⊎ (width ≡ 8) }
        ensures ok { OnTrue result (with_number self.old.bytes addr width value ≡ Some self.new.bytes) }
        ensures past_end { OnFalse result (with_number self.old.bytes addr width value ≡ None) }
        ensures unchanged { OnFalse result (self.new ≡ self.old) }
        ensures max { self.new.max ≡ self.old.max }
    {
        match width {
            1 => self.write(addr, &[(value % (1 << 8)) as u8]),
            2 => self.write(addr, &((value % (1 << 16)) as u16).to_le_bytes()),
            4 => self.write(addr, &((value % (1 << 32)) as u32).to_le_bytes()),
            _ => self.write(addr, &value.to_le_bytes()),
        }
    }

    /// Writes a piece at an address. False exactly where it reaches past the end, and then nothing changes.
    #[inline]
    pub fn write(&mut self, addr: u64, piece: &[u8]) -> bool
        ensures ok { OnTrue result (with_piece self.old.bytes addr piece.now ≡ Some self.new.bytes) }
        ensures past_end { OnFalse result (with_piece self.old.bytes addr piece.now ≡ None) }
        ensures unchanged { OnFalse result (self.new ≡ self.old) }
        ensures max { self.new.max ≡ self.old.max }
    {
        let Some(at) = self.place(addr, piece.len()) else {
            return false;
        };
        self.bytes[at..at + piece.len()].copy_from_slice(piece);
        true
    }

    /// Copies `len` bytes to one address from another, as they stood before. False exactly where either range
    /// reaches past the end, and then nothing changes (standard, version 2.0, section 4.4.7).
    pub fn copy(&mut self, to: u64, from: u64, len: u64) -> bool
        ensures ok { OnTrue result (copied self.old.bytes to from len ≡ Some self.new.bytes) }
        ensures past_end { OnFalse result (copied self.old.bytes to from len ≡ None) }
        ensures unchanged { OnFalse result (self.new ≡ self.old) }
        ensures max { self.new.max ≡ self.old.max }
    {
        let len = len as usize;
        let Some(source) = self.place(from, len) else {
            return false;
        };
        let Some(target) = self.place(to, len) else {
            return false;
        };
        self.bytes.copy_within(source..source + len, target);
        true
    }

    /// Writes one byte all over `len` bytes at an address. False exactly where they reach past the end, and
    /// then nothing changes (standard, version 2.0, section 4.4.7).
    pub fn fill(&mut self, to: u64, byte: u8, len: u64) -> bool
        ensures ok { OnTrue result (filled_with self.old.bytes to byte len ≡ Some self.new.bytes) }
        ensures past_end { OnFalse result (filled_with self.old.bytes to byte len ≡ None) }
        ensures unchanged { OnFalse result (self.new ≡ self.old) }
        ensures max { self.new.max ≡ self.old.max }
    {
        let len = len as usize;
        let Some(at) = self.place(to, len) else {
            return false;
        };
        self.bytes[at..at + len].fill(byte);
        true
    }

    /// Appends `by` pages of zeros, and gives the size before, in pages. None exactly where the new size would
    /// pass the declared maximum or 1,024 pages. After None, and without memory, nothing has changed (standard,
    /// section 4.4.4.4).
    pub fn grow(&mut self, by: u32) -> Result<Option<u32>, AllocError>
        ensures grows { IfOk result (λ before. OnSome before (grown self.old by ≡ Some self.new)) }
        ensures size { IfOk result (λ before. IfSome before (λ pages. pages ≡ pages_of self.old.bytes)) }
        ensures past_bound { IfOk result (λ before. IfNone before (grown self.old by ≡ None)) }
        ensures unchanged { IfOk result (λ before. IfNone before (self.new ≡ self.old)) }
        ensures err { OnErr result (self.new ≡ self.old) }
    {
        let size = self.size();
        match size.checked_add(by) {
            Some(pages) if pages <= self.bound() => {
                self.bytes.resize(pages as usize * PAGE_SIZE, 0)?;
                Ok(Some(size))
            }
            _ => Ok(None),
        }
    }

    /// The greatest number of pages that this memory may grow to.
    fn bound(&self) -> u32
        ensures { result ≡ page_bound self.now.max }
    {
        page_bound(self.max)
    }

    /// The index of the first of `len` bytes at an address, where all of them lie inside.
    #[inline]
    fn place(&self, addr: u64, len: usize) -> Option<usize>
        ensures { SomeIff result (addr + len ≤ length self.now.bytes) addr }
    {
        let last = self.bytes.len().checked_sub(len)?;
        if addr <= last as u64 {
            Some(addr as usize)
        } else {
            None
        }
    }

    /// The `N` bytes at an address, where all of them lie inside.
    #[inline]
    fn array_at<const N: usize>(&self, addr: u64) -> Option<&[u8; N]>
        ensures inside { IsSome result ↔ (addr + N ≤ length self.now.bytes) }
        ensures value { IfSome result (λ bytes. bytes.now ≡ bytes_at self.now.bytes addr N) }
    {
        let at = self.place(addr, N)?;
        self.bytes[at..].first_chunk()
    }
}

/// The greatest number of pages that a memory may grow to whose type declares this maximum.
pub fn page_bound(max: Option<u32>) -> u32
    ensures { result ≡ page_bound max }
{
    match max {
        Some(most) => most.min(MOST_PAGES),
        None => MOST_PAGES,
    }
}
