//! Bits in bytes, the highest bit of a byte first.
ghost use Rattle.std.specs.Prelude.{◌≡◌, ◌<◌, ◌≤◌, ◌+◌, ◌*◌, ◌/◌, ℕ, ◌&&◌, ◌==◌, not, nat_le, nat_lt, if◌then◌else◌, length};
ghost use Rattle.flag_rows.specs.Bits.{bit_of};

/// The bit with this number.
pub fn bit(bytes: &[u8], at: usize) -> bool
    requires { at < 8 * length bytes.now }
    ensures { result ≡ bit_of bytes.now at }
{
    bytes[at / 8] >> (7 - at % 8) & 1 == 1
}

/// Changes one bit.
pub fn put_bit(bytes: &mut [u8], at: usize, value: bool)
    requires { at < 8 * length bytes.old }
    ensures { (k : ℕ) → bit_of bytes.new k ≡ (if k == at then value else bit_of bytes.old k) }
{
    let place = at / 8;
    let shift = 7 - at % 8;
    if value {
        bytes[place] |= 1 << shift;
    } else {
        bytes[place] &= !(1 << shift);
    }
}

/// Changes eight bits.
pub fn put_byte(bytes: &mut [u8], place: usize, value: bool)
    requires { place < length bytes.old }
    ensures { (k : ℕ) → bit_of bytes.new k ≡ (if k / 8 == place then value else bit_of bytes.old k) }
{
    bytes[place] = if value { 0xFF } else { 0 };
}

/// Gives the bits from `start` up to `end` a value, by whole bytes where it can.
pub fn fill(bytes: &mut [u8], start: usize, end: usize, value: bool)
    requires order { start ≤ end }
    requires inside { end ≤ 8 * length bytes.old }
    ensures { (k : ℕ) → bit_of bytes.new k ≡ (if nat_le start k && nat_lt k end then value else bit_of bytes.old k) }
{
    let mut at = start;
    while at < end {
        if at % 8 == 0 && end - at >= 8 {
            put_byte(bytes, at / 8, value);
            at += 8;
        } else {
            put_bit(bytes, at, value);
            at += 1;
        }
    }
}

/// The first bit from `start` on that has a value, or `end` where there is none, by whole bytes where it can.
pub fn first(bytes: &[u8], start: usize, end: usize, value: bool) -> usize
    requires order { start ≤ end }
    requires inside { end ≤ 8 * length bytes.now }
    ensures from { start ≤ result }
    ensures to { result ≤ end }
    ensures before { (k : ℕ) → start ≤ k → k < result → bit_of bytes.now k ≡ not value }
    ensures found { result < end → bit_of bytes.now result ≡ value }
{
    let other = if value { 0 } else { 0xFF };
    let mut at = start;
    while at < end {
        if at % 8 == 0 && end - at >= 8 && bytes[at / 8] == other {
            at += 8;
        } else if bit(bytes, at) == value {
            return at;
        } else {
            at += 1;
        }
    }
    end
}
