//! The bytes that a text spells, each in its one spelling.
ghost use Rattle.std.specs.Prelude.{◌≡◌, ◌++◌, ◌∷◌, [], true, IfOk, IfSome, IsTrue};
ghost use Rattle.std.specs.List.{list_all};
ghost use Rattle.hx_bytes.specs.Field.{AreBytes};
ghost use Rattle.hfs_language.specs.Text as spec;
ghost use Rattle.cmd_lang.specs.Written.{Spells, SpellsValue};

use crate::print::{are_plain, hex_digit, is_plain};
use crate::reading::read_pieces;
use std::alloc::{AllocError, Global};

/// The value that a word is the text of, or none where it isn't in its one spelling.
pub(crate) fn value_bytes(alloc: Global, word: &[u8]) -> Result<Option<Vec<u8>>, AllocError>
    ensures { IfOk result (λ found. IfSome found (λ value. SpellsValue word.now value.items)) }
{
    match word {
        [b'=', text @ ..] => spelled_bytes(alloc, text),
        _ => Ok(None),
    }
}

/// The bytes that a text spells, or none where it isn't in its one spelling.
fn spelled_bytes(alloc: Global, text: &[u8]) -> Result<Option<Vec<u8>>, AllocError>
    ensures { IfOk result (λ found. IfSome found (λ bytes. Spells text.now bytes.items)) }
{
    if are_plain(text) {
        return plain_bytes(alloc, text);
    }
    let mut value = Vec::with_capacity(alloc, text.len())?;
    let mut rest = read_pieces(&mut value, text)?;
    for _ in 0..rest.len() {
        match first_byte(rest) {
            Some((byte, behind)) => {
                value.push(byte)?;
                rest = behind;
            }
            None => break,
        }
    }
    if rest.is_empty() {
        look_at_bytes(value.as_slice());
        return Ok(Some(value));
    }
    Ok(None)
}

/// Bytes of which each stands for itself.
fn plain_bytes(alloc: Global, text: &[u8]) -> Result<Option<Vec<u8>>, AllocError>
    requires { list_all spec.is_plain text.now ≡ true }
    ensures { IfOk result (λ found. IfSome found (λ bytes. Spells text.now bytes.items)) }
{
    look_at_bytes(text);
    Ok(Some(Vec::from_slice(alloc, text)?))
}

/// Bytes are numbers of eight bits.
pub(crate) fn look_at_bytes(bytes: &[u8])
    ensures { AreBytes bytes.now }
{}

/// The byte that stands first, and what stands behind its spelling.
fn first_byte(text: &[u8]) -> Option<(u8, &[u8])>
    ensures { IfSome result (λ step. text.now ≡ spec.byte_text step.0 ++ step.1.now) }
{
    match text {
        [b'%', high, low, rest @ ..] => {
            let byte = nibble(*high).wrapping_mul(16).wrapping_add(nibble(*low));
            if is_escape(byte, *high, *low) {
                Some((byte, rest))
            } else {
                None
            }
        }
        [byte, rest @ ..] => if is_plain(*byte) {
            Some((*byte, rest))
        } else {
            None
        },
        [] => None,
    }
}

/// What an upper-case hexadecimal digit stands for.
fn nibble(digit: u8) -> u8 {
    (digit & 15).wrapping_add(digit / 64 * 9)
}

/// Whether these are the two digits of a byte that doesn't stand for itself.
fn is_escape(byte: u8, high: u8, low: u8) -> bool
    ensures { IsTrue result → spec.byte_text byte ≡ 37 ∷ high ∷ low ∷ [] }
{
    !is_plain(byte) && hex_digit(byte / 16 % 16) == high && hex_digit(byte % 16) == low
}
