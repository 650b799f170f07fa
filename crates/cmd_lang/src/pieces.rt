//! The text of a value is made piece by piece.
ghost use Rattle.std.specs.Prelude.{◌≡◌, ◌≤◌, ◌+◌, ◌*◌, ◌++◌, length, OnOk};
ghost use Rattle.std.specs.List.{flat_map};
ghost use Rattle.hfs_language.specs.Text as spec;
ghost use Rattle.cmd_lang.specs.Spellings.{AreSpellings};

use crate::print::{hex_digit, is_plain};
use crate::spellings::{Spellings, spell, spellings};
use std::alloc::AllocError;

/// The bytes of a piece.
const PIECE: usize = 256;

/// Appends each byte as a value spells it.
pub(crate) fn push_pieces(text: &mut Vec<u8>, value: &[u8]) -> Result<(), AllocError>
    ensures { OnOk result (text.new.items ≡ text.old.items ++ flat_map spec.byte_text value.now) }
{
    if value.len() < PIECE {
        return push_each(text, value);
    }
    // No byte has more than three in its text.
    text.reserve(value.len().saturating_mul(3))?;
    let table = spellings();
    let mut room = [0; 3 * PIECE + 1];
    let mut rest = value;
    for _ in 0..value.len() / PIECE {
        if rest.len() < PIECE {
            break;
        }
        let (piece, behind) = rest.split_at(PIECE);
        push_piece(text, &mut room, &table, piece)?;
        rest = behind;
    }
    push_each(text, rest)
}

/// The same byte by byte.
fn push_each(text: &mut Vec<u8>, value: &[u8]) -> Result<(), AllocError>
    ensures { OnOk result (text.new.items ≡ text.old.items ++ flat_map spec.byte_text value.now) }
{
    for byte in value {
        push_byte(text, *byte)?;
    }
    Ok(())
}

fn push_byte(text: &mut Vec<u8>, byte: u8) -> Result<(), AllocError>
    ensures { OnOk result (text.new.items ≡ text.old.items ++ spec.byte_text byte) }
{
    if is_plain(byte) {
        Ok(text.push(byte)?)
    } else {
        text.extend_from_slice(&[b'%', hex_digit(byte / 16 % 16), hex_digit(byte % 16)])
    }
}

/// The same for a piece, by a room that has place for its text.
fn push_piece(
    text: &mut Vec<u8>,
    room: &mut [u8],
    table: &Spellings,
    piece: &[u8],
) -> Result<(), AllocError>
    requires table { AreSpellings table.now }
    requires room { 3 * length piece.now + 1 ≤ length room.old }
    ensures size { length room.new ≡ length room.old }
    ensures text { OnOk result (text.new.items ≡ text.old.items ++ flat_map spec.byte_text piece.now) }
{
    let count = spell(room, table, piece);
    text.extend_from_slice(&room[..count])
}
