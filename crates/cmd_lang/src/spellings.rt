//! How each byte is spelled in a value, as a table.
ghost use Rattle.std.specs.Prelude.{◌≡◌, ◌≤◌, ◌+◌, ◌*◌, ◌++◌, length, slice_index, take};
ghost use Rattle.std.specs.List.{flat_map};
ghost use Rattle.hfs_language.specs.Text as spec;
ghost use Rattle.cmd_lang.specs.Spellings.{AreSpellings, entry};

use crate::print::{hex_digit, is_plain};

/// The one byte or the three that spell a byte, filled up with zeros to three, and how many they are.
pub(crate) type Spelling = [u8; 4];

/// The spelling of each byte.
pub(crate) type Spellings = [Spelling; 256];

/// The table.
pub(crate) fn spellings() -> Spellings
    ensures { AreSpellings result }
{
    let mut table = [[0; 4]; 256];
    for byte in 0..256 {
        table[byte] = spelling(byte as u8);
    }
    table
}

fn spelling(byte: u8) -> Spelling
    ensures { result ≡ entry byte }
{
    if is_plain(byte) {
        [byte, 0, 0, 1]
    } else {
        [b'%', hex_digit(byte / 16 % 16), hex_digit(byte % 16), 3]
    }
}

/// Spells bytes into a room of three times as many and one, and answers how many bytes that took.
pub(crate) fn spell(room: &mut [u8], table: &Spellings, piece: &[u8]) -> usize
    requires table { AreSpellings table.now }
    requires room { 3 * length piece.now + 1 ≤ length room.old }
    ensures size { length room.new ≡ length room.old }
    ensures within { result ≤ 3 * length piece.now }
    ensures text { take result room.new ≡ flat_map spec.byte_text piece.now }
{
    let mut at = 0;
    for byte in piece {
        at += spell_byte(room, table, at, *byte);
    }
    at
}

/// Spells a byte into a room from a place on, and answers how many bytes that took. All four of the table are written, so that no branch depends on
/// the byte.
fn spell_byte(room: &mut [u8], table: &Spellings, at: usize, byte: u8) -> usize
    requires table { AreSpellings table.now }
    requires room { at + 4 ≤ length room.old }
    ensures size { length room.new ≡ length room.old }
    ensures few { result ≤ 3 }
    ensures text { take (at + result) room.new ≡ take at room.old ++ spec.byte_text byte }
{
    let spelling = &table[usize::from(byte)];
    store(room, at, spelling);
    usize::from(spelling[3])
}

fn store(room: &mut [u8], at: usize, spelling: &[u8])
    requires room { at + 4 ≤ length room.old }
    requires four { length spelling.now ≡ 4 }
    ensures size { length room.new ≡ length room.old }
    ensures text { take (at + 4) room.new ≡ take at room.old ++ spelling.now }
{
    room[at..at + 4].copy_from_slice(spelling);
}
