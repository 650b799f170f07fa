//! A text of many bytes is read piece by piece: four stretches of a piece are read side by side, so that the place of a byte in one of them needn't
//! wait for that of a byte in another.
ghost use Rattle.std.specs.Prelude.{◌≡◌, ◌≤◌, ◌<◌, ◌+◌, ◌++◌, ℕ, List, [], length, take, true, false, IfOk, IfSome, IsTrue};
ghost use Rattle.std.specs.List.{flat_map};
ghost use Rattle.hfs_language.specs.Text as spec;
ghost use Rattle.cmd_lang.specs.Escapes.{AreEscapes};
ghost use Rattle.cmd_lang.specs.Written.{IsReadTo, IsReadUpTo};

use crate::escapes::{Escapes, make_escapes, unit_of};
use std::alloc::AllocError;

/// The bytes that a stretch has room for.
const STRETCH: usize = 1024;

/// A text of fewer bytes isn't worth the tables.
const FEW: usize = 128;

/// What four stretches spell.
#[derive(Drop)]
struct Rooms {
    first: [u8; STRETCH],
    second: [u8; STRETCH],
    third: [u8; STRETCH],
    fourth: [u8; STRETCH],
}

/// Reads pieces as long as they are in their one spelling, and answers what is still to come.
pub(crate) fn read_pieces<'t>(value: &mut Vec<u8>, text: &'t [u8]) -> Result<&'t [u8], AllocError>
    requires { value.old.items ≡ [] }
    ensures { IfOk result (λ rest. IsReadTo text.now value.new.items rest.now) }
{
    if text.len() < FEW {
        return Ok(text);
    }
    let escapes = make_escapes();
    let mut rooms = Rooms {
        first: [0; STRETCH],
        second: [0; STRETCH],
        third: [0; STRETCH],
        fourth: [0; STRETCH],
    };
    let mut at = 0;
    for _ in 0..text.len() {
        let end = piece_end(text, at);
        if end <= at {
            break;
        }
        if !read_piece(value, &mut rooms, &escapes, text, at, end)? {
            break;
        }
        at = end;
    }
    Ok(&text[at..])
}

/// Where a piece from a place on ends. Two bytes stand behind it; where too few are left, it ends where it begins.
fn piece_end(text: &[u8], at: usize) -> usize
    requires { at ≤ length text.now }
    ensures within { result ≤ length text.now }
    ensures behind { at < result → result + 2 ≤ length text.now }
{
    let left = text.len() - at;
    if left < FEW {
        return at;
    }
    cut(text, at + (left - 2).min(3 * STRETCH))
}

/// A place no later than this one at which no escape is open, if the text is well-formed.
fn cut(text: &[u8], at: usize) -> usize
    requires { at ≤ length text.now }
    ensures { result ≤ at }
{
    if at < 2 {
        return at;
    }
    if text[at - 1] == b'%' {
        at - 1
    } else if text[at - 2] == b'%' {
        at - 2
    } else {
        at
    }
}

/// Reads a piece behind what is read, and says whether it is in its one spelling; where it isn't, nothing more is read.
fn read_piece(
    value: &mut Vec<u8>,
    rooms: &mut Rooms,
    escapes: &Escapes,
    text: &[u8],
    from: usize,
    end: usize,
) -> Result<bool, AllocError>
    requires tables { AreEscapes escapes.now.high escapes.now.low escapes.now.kinds }
    requires order { from ≤ end }
    requires behind { end + 2 ≤ length text.now }
    ensures read { IfOk result (λ whole. whole ≡ true → IsReadUpTo text.now from value.old.items → IsReadUpTo text.now end value.new.items) }
    ensures same { IfOk result (λ whole. whole ≡ false → value.new.items ≡ value.old.items) }
{
    let quarter = (end - from) / 4;
    let second = cut(text, from + quarter);
    let third = cut(text, from + 2 * quarter);
    let fourth = cut(text, from + 3 * quarter);
    match read_stretches(rooms, escapes, text, (from, second, third, fourth, end)) {
        Some((one, two, three, four)) => {
            value.extend_from_slice(&rooms.first[..one])?;
            value.extend_from_slice(&rooms.second[..two])?;
            value.extend_from_slice(&rooms.third[..three])?;
            value.extend_from_slice(&rooms.fourth[..four])?;
            Ok(true)
        }
        None => Ok(false),
    }
}

/// Where stretches begin and the last one ends.
type Cuts = (usize, usize, usize, usize, usize);

/// How many bytes each stretch spells.
type Counts = (usize, usize, usize, usize);

/// Reads four stretches, each up to the next one, where they are in their one spelling.
fn read_stretches(rooms: &mut Rooms, escapes: &Escapes, text: &[u8], cuts: Cuts) -> Option<Counts>
    requires tables { AreEscapes escapes.now.high escapes.now.low escapes.now.kinds }
    requires within { (cuts.1 + 2 ≤ length text.now) × (cuts.2 + 2 ≤ length text.now) × (cuts.3 + 2 ≤ length text.now) × (cuts.4 + 2 ≤ length text.now) }
    ensures few { IfSome result (λ counts. (counts.0 ≤ 1024) × (counts.1 ≤ 1024) × (counts.2 ≤ 1024) × (counts.3 ≤ 1024)) }
    ensures first { IfSome result (λ counts. take cuts.1 text.now ≡ take cuts.0 text.now ++ flat_map spec.byte_text (take counts.0 rooms.new.first)) }
    ensures second { IfSome result (λ counts. take cuts.2 text.now ≡ take cuts.1 text.now ++ flat_map spec.byte_text (take counts.1 rooms.new.second)) }
    ensures third { IfSome result (λ counts. take cuts.3 text.now ≡ take cuts.2 text.now ++ flat_map spec.byte_text (take counts.2 rooms.new.third)) }
    ensures fourth { IfSome result (λ counts. take cuts.4 text.now ≡ take cuts.3 text.now ++ flat_map spec.byte_text (take counts.3 rooms.new.fourth)) }
{
    let (first, second, third, fourth, end) = cuts;
    let (mut one, mut two, mut three, mut four) = (first, second, third, fourth);
    let mut count = 0;
    let mut right = true;
    for turn in 0..STRETCH {
        if one < second && two < third && three < fourth && four < end {
            right &= read_unit(&mut rooms.first, escapes, text, turn, &mut one);
            right &= read_unit(&mut rooms.second, escapes, text, turn, &mut two);
            right &= read_unit(&mut rooms.third, escapes, text, turn, &mut three);
            right &= read_unit(&mut rooms.fourth, escapes, text, turn, &mut four);
            count = turn + 1;
        } else {
            break;
        }
    }
    if !right {
        return None;
    }
    let one = finish(&mut rooms.first, escapes, text, count, one, second)?;
    let two = finish(&mut rooms.second, escapes, text, count, two, third)?;
    let three = finish(&mut rooms.third, escapes, text, count, three, fourth)?;
    let four = finish(&mut rooms.fourth, escapes, text, count, four, end)?;
    Some((one, two, three, four))
}

/// Reads a stretch to its end, of which so many bytes are read up to a place: how many they are then.
fn finish(
    room: &mut [u8; STRETCH],
    escapes: &Escapes,
    text: &[u8],
    count: usize,
    at: usize,
    end: usize,
) -> Option<usize>
    requires tables { AreEscapes escapes.now.high escapes.now.low escapes.now.kinds }
    requires few { count ≤ 1024 }
    requires within { end + 2 ≤ length text.now }
    ensures few { IfSome result (λ all. all ≤ 1024) }
    ensures read { IfSome result (λ all. (front : List ℕ) → take at text.now ≡ front ++ flat_map spec.byte_text (take count room.old) → take end text.now ≡ front ++ flat_map spec.byte_text (take all room.new)) }
{
    let mut place = at;
    let mut all = count;
    let mut right = true;
    for turn in count..STRETCH {
        if place >= end {
            break;
        }
        right &= read_unit(room, escapes, text, turn, &mut place);
        all = turn + 1;
    }
    if right && place == end {
        Some(all)
    } else {
        None
    }
}

/// Reads the byte whose spelling begins at a place, as the next one of a room, goes on behind it, and says whether this is its one spelling.
// Inlined, so that the places of four stretches stay in registers.
#[inline(always)]
fn read_unit(
    room: &mut [u8; STRETCH],
    escapes: &Escapes,
    text: &[u8],
    count: usize,
    at: &mut usize,
) -> bool
    requires tables { AreEscapes escapes.now.high escapes.now.low escapes.now.kinds }
    requires room { count < 1024 }
    requires inside { at.old + 2 < length text.now }
    ensures few { at.new ≤ at.old + 3 }
    ensures read { IsTrue result → (front : List ℕ) → take at.old text.now ≡ front ++ flat_map spec.byte_text (take count room.old) → take at.new text.now ≡ front ++ flat_map spec.byte_text (take (count + 1) room.new) }
{
    let next = unit_of(escapes, text[*at], text[*at + 1], text[*at + 2]);
    room[count] = next.byte;
    *at += next.long;
    next.right
}
