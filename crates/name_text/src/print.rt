//! A name is printed as the text of a component.
#![tactic(auto)]

ghost use Rattle.std.specs.Prelude.{◌≡◌, ◌++◌, ◌<◌, true, false, map, slice_set, chars, string_bytes, encode_utf8_all, length, IfOk, IfSome, IfNone, OnOk};
ghost use Rattle.std.specs.Char.Utf16.{has_unpaired_surrogate, utf16_lossy_chars};
ghost use Rattle.std.specs.Fmt.{digit_glyph};
ghost use Rattle.std.specs.List.{list_all};
ghost use Rattle.unicode_normalization.specs.Forms.{Nfd, is_in_form};
ghost use Rattle.name_text.specs.declared.piece.Piece.TheVariants.{Character, Escaped};
ghost use Rattle.name_text.specs.Spelling.{spelling, text_of};
ghost use Rattle.name_text.specs.Printing as spec;

use crate::{Piece, Units};
use hx_bytes::OutOfMemory;
use std::alloc::{AllocError, Global};
use unicode_normalization::is_nfd;

/// The text of a component that spells the name.
///
/// A name that is valid UTF-16 in NFD, has no control unit, space or `/` and isn't `.` or `..` is
/// printed as its text, with `%` doubled. Any other name has each unit that isn't printable ASCII,
/// and `/`, printed as `%uXXXX`; of `.` and `..` it is the first unit.
#[tactic(auto, unfolding(crate::specs::Printing::component_text))]
pub fn print_component(alloc: Global, name: &Units) -> Result<String, OutOfMemory>
    ensures { IfOk result (λ text. string_bytes text ≡ encode_utf8_all (spec.component_text name.now)) }
{
    let pieces = printed(alloc, name.as_slice())?;
    let text = print_pieces(alloc, &pieces)?;
    Ok(text)
}

/// The pieces that a name is printed by.
#[tactic(auto, unfolding(crate::specs::Printing::printed))]
fn printed(alloc: Global, units: &[u16]) -> Result<Vec<Piece>, AllocError>
    ensures { IfOk result (λ pieces. pieces.items ≡ spec.printed units.now) }
{
    if let Some(text) = plain_text(alloc, units)? {
        characters(alloc, text.as_str())
    } else if is_dots(units) {
        dots(alloc, units)
    } else {
        each_unit(alloc, units)
    }
}

/// The text of a name that is printed as its text.
#[tactic(auto, unfolding(crate::specs::Printing::is_plain))]
fn plain_text(alloc: Global, units: &[u16]) -> Result<Option<String>, AllocError>
    ensures plain { IfOk result (λ found. IfSome found (λ text. (spec.is_plain units.now ≡ true) × (chars (string_bytes text) ≡ utf16_lossy_chars units.now))) }
    ensures other { IfOk result (λ found. IfNone found (spec.is_plain units.now ≡ false)) }
{
    if !are_clear(units) || is_dots(units) {
        return Ok(None);
    }
    let Some(text) = utf16_text(alloc, units)? else {
        return Ok(None);
    };
    if is_normal(text.as_str()) {
        Ok(Some(text))
    } else {
        Ok(None)
    }
}

/// The text of units that are valid UTF-16.
fn utf16_text(alloc: Global, units: &[u16]) -> Result<Option<String>, AllocError>
    ensures text { IfOk result (λ found. IfSome found (λ text. (has_unpaired_surrogate units.now ≡ false) × (chars (string_bytes text) ≡ utf16_lossy_chars units.now))) }
    ensures unpaired { IfOk result (λ found. IfNone found (has_unpaired_surrogate units.now ≡ true)) }
{
    match String::from_utf16(alloc, units)? {
        Ok(text) => Ok(Some(text)),
        Err(_) => Ok(None),
    }
}

#[tactic(auto, using(unicode_normalization::proofs::FormsLemmas::is_in_form_from))]
fn is_normal(text: &str) -> bool
    ensures { result ≡ is_in_form Nfd (chars text.now) }
{
    is_nfd(text)
}

/// No unit is a control, a space or `/`.
fn are_clear(units: &[u16]) -> bool
    ensures { result ≡ list_all spec.is_clear units.now }
{
    units.iter().all(|unit| is_clear(*unit))
}

fn is_clear(unit: u16) -> bool
    ensures { result ≡ spec.is_clear unit }
{
    unit > 0x20 && unit != 0x7F && unit != 0x2F
}

fn is_dots(units: &[u16]) -> bool
    ensures { result ≡ spec.is_dots units.now }
{
    matches!(units, [0x2E] | [0x2E, 0x2E])
}

/// The characters of a text, as pieces.
#[tactic(auto, using(std::proofs::lemmas::Str::chars_from_encodes))]
fn characters(alloc: Global, text: &str) -> Result<Vec<Piece>, AllocError>
    ensures { IfOk result (λ pieces. pieces.items ≡ map Character (chars text.now)) }
{
    text.chars().map(Piece::Character).collect(alloc)
}

/// The pieces of `.` or `..`, of which the first is escaped.
fn dots(alloc: Global, units: &[u16]) -> Result<Vec<Piece>, AllocError>
    requires { 0 < length units.now }
    ensures { IfOk result (λ pieces. pieces.items ≡ slice_set (map spec.unit_piece units.now) 0 (Escaped 46)) }
{
    let mut pieces = each_unit(alloc, units)?;
    pieces[0] = Piece::Escaped(0x2E);
    Ok(pieces)
}

/// Each unit as it is where it is printable ASCII and no `/`, else escaped.
fn each_unit(alloc: Global, units: &[u16]) -> Result<Vec<Piece>, AllocError>
    ensures { IfOk result (λ pieces. pieces.items ≡ map spec.unit_piece units.now) }
{
    units.iter().map(|unit| unit_piece(*unit)).collect(alloc)
}

fn unit_piece(unit: u16) -> Piece
    ensures { result ≡ spec.unit_piece unit }
{
    match u8::try_from(unit) {
        Ok(byte) if (0x21..=0x7E).contains(&byte) && byte != b'/' => Piece::Character(char::from(
            byte,
        )),
        _ => Piece::Escaped(unit),
    }
}

/// The text that the pieces spell.
fn print_pieces(alloc: Global, pieces: &[Piece]) -> Result<String, AllocError>
    ensures { IfOk result (λ text. string_bytes text ≡ encode_utf8_all (text_of pieces.now)) }
{
    let mut text = String::new(alloc);
    for piece in pieces {
        push_piece(&mut text, *piece)?;
    }
    Ok(text)
}

fn push_piece(text: &mut String, piece: Piece) -> Result<(), AllocError>
    ensures { OnOk result (string_bytes text.new ≡ string_bytes text.old ++ encode_utf8_all (spelling piece)) }
{
    match piece {
        Piece::Character('%') => text.push_str("%%"),
        Piece::Character(c) => text.push(c),
        Piece::Escaped(unit) => {
            text.push_str("%u")?;
            text.push(hex_digit(unit / 4096 % 16))?;
            text.push(hex_digit(unit / 256 % 16))?;
            text.push(hex_digit(unit / 16 % 16))?;
            text.push(hex_digit(unit % 16))
        }
    }
}

/// An upper-case hexadecimal digit.
fn hex_digit(value: u16) -> char
    requires { value < 16 }
    ensures { result ≡ digit_glyph true value }
{
    if value < 10 {
        char::from(b'0' + value as u8)
    } else {
        char::from(b'A' + (value - 10) as u8)
    }
}
