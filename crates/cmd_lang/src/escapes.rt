//! What escapes stand for, as tables: a byte is read and judged without a branch that depends on it.
ghost use Rattle.std.specs.Prelude.{◌≡◌, ◌≤◌, ◌∷◌, [], take, IsTrue, if◌then◌else◌};
ghost use Rattle.hfs_language.specs.Text as spec;
ghost use Rattle.cmd_lang.specs.Escapes.{AreDigits, AreEscapes, AreKinds};

use crate::print::{hex_digit, is_plain};

/// What isn't a digit stands for: more than any byte.
const NO_DIGIT: u16 = 256;

/// How a byte is spelled: as itself, or by an escape. What is greater than a byte isn't spelled.
const PLAIN: u8 = 0;

const ESCAPED: u8 = 1;

const NOT_SPELLED: u8 = 2;

/// What each byte stands for as the first and as the second digit of an escape, and how each number that they make together is spelled.
#[derive(Drop)]
pub(crate) struct Escapes {
    pub(crate) high: [u16; 256],
    pub(crate) low: [u16; 256],
    pub(crate) kinds: [u8; 513],
}

/// A byte that was read, how many bytes are its text where that is so, and whether it is so.
#[derive(Clone, Copy)]
pub(crate) struct Unit {
    pub(crate) byte: u8,
    pub(crate) long: usize,
    pub(crate) right: bool,
}

/// The tables.
pub(crate) fn make_escapes() -> Escapes
    ensures { AreEscapes result.high result.low result.kinds }
{
    Escapes {
        high: digits(16),
        low: digits(1),
        kinds: kinds(),
    }
}

/// What each byte stands for as a digit that counts so many.
fn digits(unit: u16) -> [u16; 256]
    requires { 1 ≤ unit × unit ≤ 16 }
    ensures { AreDigits unit result }
{
    let mut table = [NO_DIGIT; 256];
    for digit in 0..16u8 {
        table[usize::from(hex_digit(digit))] = unit * u16::from(digit);
    }
    table
}

/// How each number is spelled.
fn kinds() -> [u8; 513]
    ensures { AreKinds result }
{
    let mut table = [NOT_SPELLED; 513];
    for byte in 0..256 {
        table[byte] = kind(byte as u8);
    }
    table
}

fn kind(byte: u8) -> u8
    ensures { result ≡ (if spec.is_plain byte then 0 else 1) }
{
    if is_plain(byte) { PLAIN } else { ESCAPED }
}

/// The byte whose text these three bytes begin with.
#[inline(always)]
pub(crate) fn unit_of(escapes: &Escapes, first: u8, high: u8, low: u8) -> Unit
    requires { AreEscapes escapes.now.high escapes.now.low escapes.now.kinds }
    ensures few { result.long ≤ 3 }
    ensures text { IsTrue result.right → take result.long (first ∷ high ∷ low ∷ []) ≡ spec.byte_text result.byte }
{
    let escaped = first == b'%';
    let value = escapes.high[usize::from(high)] + escapes.low[usize::from(low)];
    let read = choose(escaped, value, u16::from(first));
    Unit {
        byte: (read % 256) as u8,
        long: 1 + 2 * usize::from(escaped),
        right: escapes.kinds[usize::from(read)] == u8::from(escaped),
    }
}

fn choose(first: bool, one: u16, other: u16) -> u16
    ensures { result ≡ (if first then one else other) }
{
    if first { one } else { other }
}
