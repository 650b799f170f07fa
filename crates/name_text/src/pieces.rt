//! A text is read to its pieces, character by character.
#![tactic(auto, unfolding(crate::specs::Reading::step))]

ghost use Rattle.std.specs.Prelude.{◌≡◌, ◌⊎◌, None, Some, IfOk, IfErr};
ghost use Rattle.name_text.specs.declared.piece.NameFault.TheVariants.{BadName, Memory};
ghost use Rattle.name_text.specs.Reading as spec;

use crate::{NameFault, Piece};
use std::alloc::Global;

/// Where in a spelling the next character stands.
#[derive(Clone, Copy)]
enum Place {
    Between,
    /// After a percent sign.
    Percent,
    /// Inside an escape, with so many digits to come after the next one, and the value so far.
    Digits { more: u8, value: u16 },
}

/// The pieces that the characters spell.
pub(crate) fn read_pieces(alloc: Global, chars: &[char]) -> Result<Vec<Piece>, NameFault>
    ensures spelled { IfOk result (λ pieces. spec.pieces chars.now ≡ Some pieces.items) }
    ensures refused { IfErr result (λ fault. (fault ≡ Memory) ⊎ ((fault ≡ BadName) × (spec.pieces chars.now ≡ None))) }
{
    let mut pieces = Vec::new(alloc);
    let mut place = Place::Between;
    for c in chars {
        let Some((next, piece)) = step(place, *c) else {
            return Err(NameFault::BadName);
        };
        if let Some(piece) = piece {
            pieces.push(piece)?;
        }
        place = next;
    }
    match place {
        Place::Between => Ok(pieces),
        _ => Err(NameFault::BadName),
    }
}

/// The place after a character, with the piece that ends there; none where it breaks the spelling.
fn step(place: Place, c: char) -> Option<(Place, Option<Piece>)>
    ensures { result ≡ spec.step place c }
{
    match place {
        Place::Between => match c {
            '%' => Some((Place::Percent, None)),
            _ => Some((Place::Between, Some(Piece::Character(c)))),
        },
        Place::Percent => match c {
            '%' => Some((Place::Between, Some(Piece::Character('%')))),
            'u' => Some((Place::Digits { more: 3, value: 0 }, None)),
            _ => None,
        },
        Place::Digits { more, value } => {
            let digit = hex_digit(c)?;
            let unit = ((u32::from(value) * 16 + digit) % 0x1_0000) as u16;
            if more == 0 {
                Some((Place::Between, Some(Piece::Escaped(unit))))
            } else {
                Some((
                    Place::Digits {
                        more: more - 1,
                        value: unit,
                    },
                    None,
                ))
            }
        }
    }
}

/// The value of an upper-case hexadecimal digit.
fn hex_digit(c: char) -> Option<u32>
    ensures { result ≡ spec.hex_digit c }
{
    match c {
        '0'..='9' => Some(c as u32 - 48),
        'A'..='F' => Some(c as u32 - 55),
        _ => None,
    }
}
