//! A row of flags, eight to a byte.
ghost use Rattle.std.specs.Prelude.{◌≡◌, ◌<◌, ◌≤◌, ◌+◌, ◌*◌, ◌^◌, ℕ, true, false, not, length, replicate, slice_index_or, IfOk};
ghost use Rattle.flag_rows.specs.Bits.{bit_of, bits_of, sectors_for, mark};

use crate::bytes::{bit, fill, first};
use hx_bytes::{Extent, OutOfMemory, Sector};
use std::alloc::Global;
use std::marker::Model;

/// So many flags, in whole sectors.
#[derive(Drop)]
pub struct Bits {
    bytes: Vec<u8>,
    count: usize,
}

impl Model for Bits {
    ghost use Rattle.std.specs.Prelude.{List, Bool, ◌≡◌, ◌<◌, ◌^◌, ◌*◌, length};
    ghost use Rattle.flag_rows.specs.Bits.{bits_of, sectors_for};
    ghost use Rattle.flag_rows.specs.Rows.{IsRow};

    ghost Value = { List Bool };

    ghost view = { λ b. bits_of b.count b.bytes.items };

    ghost invariant = { λ b. IsRow b.count b.bytes.items };
}

impl Bits {
    /// The first so many bits of these bytes.
    pub fn of_bytes(mut bytes: Vec<u8>, count: usize) -> Bits
        requires small { count < 2 ^ 32 }
        requires size { length bytes.items ≡ sectors_for count * 512 }
        ensures { result ≡ bits_of count bytes.items }
    {
        let end = bytes.len() * 8;
        fill(&mut bytes, count, end, false);
        Bits { bytes, count }
    }

    /// So many flags, of which none is set.
    pub fn clear(alloc: Global, count: usize) -> Result<Bits, OutOfMemory>
        requires { count < 2 ^ 32 }
        ensures { IfOk result (λ bits. bits ≡ replicate count false) }
    {
        let bytes = zeros(alloc, (count + 4095) / 4096 * 512)?;
        Ok(Bits { bytes, count })
    }

    /// The same flags once more.
    pub fn copy(&self, alloc: Global) -> Result<Bits, OutOfMemory>
        ensures { IfOk result (λ bits. bits ≡ self.now) }
    {
        let bytes = Vec::from_slice(alloc, self.bytes.as_slice())?;
        Ok(Bits {
            bytes,
            count: self.count,
        })
    }

    pub fn len(&self) -> usize
        ensures size { result ≡ length self.now }
        ensures bound { result < 2 ^ 32 }
    {
        self.count
    }

    pub fn get(&self, at: usize) -> bool
        requires { at < length self.now }
        ensures { result ≡ slice_index_or self.now at result }
    {
        bit(&self.bytes, at)
    }

    /// The first flag from a place on that has a value, or the end.
    pub fn first(&self, start: usize, value: bool) -> usize
        requires { start ≤ length self.now }
        ensures from { start ≤ result }
        ensures to { result ≤ length self.now }
        ensures before { (k : ℕ) → start ≤ k → k < result → slice_index_or self.now k value ≡ not value }
        ensures found { result < length self.now → slice_index_or self.now result (not value) ≡ value }
    {
        first(&self.bytes, start, self.count, value)
    }

    /// The first flag from a place on, up to another, that has a value, or the other place.
    pub fn first_before(&self, start: usize, end: usize, value: bool) -> usize
        requires order { start ≤ end }
        requires inside { end ≤ length self.now }
        ensures from { start ≤ result }
        ensures to { result ≤ end }
        ensures before { (k : ℕ) → start ≤ k → k < result → slice_index_or self.now k value ≡ not value }
        ensures found { result < end → slice_index_or self.now result (not value) ≡ value }
    {
        first(&self.bytes, start, end, value)
    }

    /// Gives the flags of an extent a value.
    pub fn fill(&mut self, extent: Extent, value: bool)
        requires { extent.start + extent.count ≤ length self.old }
        ensures { self.new ≡ mark self.old extent value }
    {
        let start = extent.start as usize;
        fill(&mut self.bytes, start, start + extent.count as usize, value);
    }

    /// The sector with this number: bits past the last flag are clear.
    pub fn read_sector(&self, at: usize, into: &mut Sector)
        requires { at < sectors_for (length self.now) }
        ensures { (k : ℕ) → k < 4096 → bit_of into.new k ≡ slice_index_or self.now (at * 4096 + k) false }
    {
        into.copy_from_slice(&self.bytes[at * 512..at * 512 + 512]);
    }
}

fn zeros(alloc: Global, count: usize) -> Result<Vec<u8>, OutOfMemory>
    ensures { IfOk result (λ bytes. bytes.items ≡ replicate count 0) }
{
    let mut bytes = Vec::new(alloc);
    for _ in 0..count {
        bytes.push(0)?;
    }
    Ok(bytes)
}

impl Bits {
    /// Clears all flags.
    pub fn clear_all(&mut self)
        ensures { self.new ≡ replicate (length self.old) false }
    {
        let end = self.bytes.len() * 8;
        fill(&mut self.bytes, 0, end, false);
    }
}
