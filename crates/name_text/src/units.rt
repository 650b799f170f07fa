//! The units of a name, from its pieces.
#![tactic(auto)]

ghost use Rattle.std.specs.Prelude.{◌≡◌, ◌++◌, false, flat_map, map, IfOk, OnOk};
ghost use Rattle.std.specs.List.{list_any};
ghost use Rattle.std.specs.Char.Escape.{encode_utf16};
ghost use Rattle.name_text.specs.Reading.{is_escaped, code, piece_units, units_of};

use crate::Piece;
use std::alloc::{AllocError, Global};
use unicode_normalization::slice::extend_nfd;

/// The units of a name: with an escape those of each piece, and without one those of the text in NFD.
#[tactic(auto, unfolding(crate::specs::Reading::units_of))]
pub(crate) fn units_of_pieces(alloc: Global, pieces: &[Piece]) -> Result<Vec<u16>, AllocError>
    ensures { IfOk result (λ units. units.items ≡ units_of pieces.now) }
{
    if has_escape(pieces) {
        return each_unit(alloc, pieces);
    }
    let text = characters(alloc, pieces)?;
    let mut normal = Vec::new(alloc);
    extend_nfd(&mut normal, &text)?;
    encoded(alloc, &normal)
}

fn has_escape(pieces: &[Piece]) -> bool
    ensures { result ≡ list_any is_escaped pieces.now }
{
    pieces.iter().any(|piece| is_escape(*piece))
}

fn is_escape(piece: Piece) -> bool
    ensures { result ≡ is_escaped piece }
{
    match piece {
        Piece::Character(_) => false,
        Piece::Escaped(_) => true,
    }
}

/// The units of each piece, one after another.
fn each_unit(alloc: Global, pieces: &[Piece]) -> Result<Vec<u16>, AllocError>
    ensures { IfOk result (λ units. units.items ≡ flat_map piece_units pieces.now) }
{
    let mut units = Vec::new(alloc);
    for piece in pieces {
        push_piece(&mut units, *piece)?;
    }
    Ok(units)
}

fn push_piece(units: &mut Vec<u16>, piece: Piece) -> Result<(), AllocError>
    ensures { OnOk result (units.new.items ≡ units.old.items ++ piece_units piece) }
{
    match piece {
        Piece::Character(c) => push_character(units, c),
        Piece::Escaped(unit) => units.extend_from_slice(&[unit]),
    }
}

fn push_character(units: &mut Vec<u16>, c: char) -> Result<(), AllocError>
    ensures { OnOk result (units.new.items ≡ units.old.items ++ encode_utf16 c) }
{
    let mut pair = [0; 2];
    units.extend_from_slice(c.encode_utf16(&mut pair))
}

/// The characters of pieces of which none is escaped.
fn characters(alloc: Global, pieces: &[Piece]) -> Result<Vec<char>, AllocError>
    requires { list_any is_escaped pieces.now ≡ false }
    ensures { IfOk result (λ text. text.items ≡ map code pieces.now) }
{
    let mut text = Vec::new(alloc);
    for piece in pieces {
        if let Piece::Character(c) = *piece {
            text.push(c)?;
        }
    }
    Ok(text)
}

/// The text in UTF-16.
fn encoded(alloc: Global, text: &[char]) -> Result<Vec<u16>, AllocError>
    ensures { IfOk result (λ units. units.items ≡ flat_map encode_utf16 text.now) }
{
    let mut units = Vec::new(alloc);
    for c in text {
        push_character(&mut units, *c)?;
    }
    Ok(units)
}
