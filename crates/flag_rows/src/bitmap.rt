//! Bitmaps in which the numbers below a bound are marked, and those of one extent.
ghost use Rattle.std.specs.Prelude.{◌≡◌, ◌≤◌, ◌<◌, ◌+◌, ◌*◌, ◌^◌, ◌++◌, ℕ, Bool, false, OnOk};
ghost use Rattle.flag_rows.specs.Bits.{bit_of, has};
ghost use Rattle.flag_rows.specs.Bitmap.{is_marked, bit, bits_byte, bits_bytes};

use hx_bytes::{Extent, OutOfMemory, Sector};

/// Which numbers are marked: those below a bound, and those of an extent.
#[derive(Clone, Copy, Debug, PartialEq, Eq)]
pub struct Marks {
    pub below: u32,
    pub also: Extent,
}

fn is_in(extent: Extent, number: u64) -> bool
    ensures { result ≡ has extent number }
{
    u64::from(extent.start) <= number && number < u64::from(extent.start) + u64::from(extent.count)
}

fn is_marked(marks: Marks, number: u64) -> bool
    ensures { result ≡ is_marked marks.below marks.also number }
{
    if number < u64::from(marks.below) {
        return true;
    }
    is_in(marks.also, number)
}

fn bit(marks: Marks, number: u64) -> u8
    ensures value { result ≡ bit (is_marked marks.below marks.also number) }
    ensures small { result ≤ 1 }
{
    if is_marked(marks, number) { 1 } else { 0 }
}

fn bits_byte(marks: Marks, first: u64) -> u8
    requires { first + 8 < 2 ^ 64 }
    ensures { result ≡ bits_byte (is_marked marks.below marks.also) first }
{
    let high = 128 * bit(marks, first) + 64 * bit(marks, first + 1);
    let upper = high + 32 * bit(marks, first + 2) + 16 * bit(marks, first + 3);
    let lower = upper + 8 * bit(marks, first + 4) + 4 * bit(marks, first + 5);
    lower + 2 * bit(marks, first + 6) + bit(marks, first + 7)
}

/// Adds so many bytes of a bitmap, from the bit of a number on.
pub fn put_bits(out: &mut Vec<u8>, marks: Marks, first: u64, count: u32) -> Result<(), OutOfMemory>
    requires { first + 8 * count + 8 < 2 ^ 64 }
    ensures { OnOk result (out.new.items ≡ out.old.items ++ bits_bytes (is_marked marks.below marks.also) first count) }
{
    for at in 0..count {
        out.push(bits_byte(marks, first + 8 * u64::from(at)))?;
    }
    Ok(())
}

/// A sector of a bitmap, from the bit of a number on.
pub fn bits_sector(marks: Marks, first: u64) -> Sector
    requires { first + 4104 < 2 ^ 64 }
    ensures { result ≡ bits_bytes (is_marked marks.below marks.also) first 512 }
{
    let mut sector = [0; 512];
    for at in 0..512 {
        sector[at] = bits_byte(marks, first + 8 * at as u64);
    }
    sector
}

/// The bits of such bytes are read back: those of the numbers from the first one on, and behind the bytes none.
pub fn bits_are_read_back()
    ensures within { (is_set : ℕ → Bool) (first count k : ℕ) → k < 8 * count → bit_of (bits_bytes is_set first count) k ≡ is_set (first + k) }
    ensures behind { (is_set : ℕ → Bool) (first count k : ℕ) → 8 * count ≤ k → bit_of (bits_bytes is_set first count) k ≡ false }
{}
