//! The text of a component is read to a name.
#![tactic(auto)]

ghost use Rattle.std.specs.Prelude.{◌≡◌, ◌≢◌, ◌<◌, ◌≤◌, Ok, Err, chars, length, IfOk, IfErr};
ghost use Rattle.name_text.specs.declared.piece.NameFault.TheVariants.{Memory};
ghost use Rattle.name_text.specs.Reading as spec;

use crate::ascii::{is_plain, read_plain};
use crate::pieces::read_pieces;
use crate::units::units_of_pieces;
use crate::{NameFault, Units};
use std::alloc::{AllocError, Global};

/// The most units of a name (TN1150, "HFS Plus Names").
pub(crate) const MOST_UNITS: usize = 255;

/// The name that the text of a component spells.
///
/// A character stands for itself, `%%` for a percent sign, and `%uXXXX` with four upper-case
/// hexadecimal digits for one UTF-16 code unit. A text without an escape is brought to NFD first.
/// `BadName` is an empty text, `.`, `..`, a text with `/`, or one in which a `%` begins neither
/// spelling. `NameTooLong` is a name of more than 255 units.
#[tactic(auto, using(crate::proofs::Lengths::name_lengths))]
pub fn read_component(alloc: Global, text: &str) -> Result<Units, NameFault>
    ensures name { IfOk result (λ units. spec.component (chars text.now) ≡ Ok units) }
    ensures refused { IfErr result (λ fault. fault ≢ Memory → spec.component (chars text.now) ≡ Err fault) }
    ensures some { IfOk result (λ units. 0 < length units) }
    ensures short { IfOk result (λ units. length units ≤ 255) }
{
    let bytes = text.as_bytes();
    if is_plain(bytes) {
        return read_plain(alloc, bytes);
    }
    let characters = characters(alloc, text)?;
    let units = read_characters(alloc, &characters)?;
    Ok(units)
}

#[tactic(auto, using(std::proofs::lemmas::Str::chars_from_encodes))]
fn characters(alloc: Global, text: &str) -> Result<Vec<char>, AllocError>
    ensures { IfOk result (λ all. all.items ≡ chars text.now) }
{
    text.chars().collect(alloc)
}

#[tactic(auto, unfolding(crate::specs::Reading::component))]
fn read_characters(alloc: Global, text: &[char]) -> Result<Units, NameFault>
    ensures name { IfOk result (λ units. spec.component text.now ≡ Ok units) }
    ensures refused { IfErr result (λ fault. fault ≢ Memory → spec.component text.now ≡ Err fault) }
{
    if is_reserved(text) {
        return Err(NameFault::BadName);
    }
    let pieces = read_pieces(alloc, text)?;
    let units = units_of_pieces(alloc, &pieces)?;
    if units.len() > MOST_UNITS {
        return Err(NameFault::NameTooLong);
    }
    Ok(Units::from_vec(units))
}

/// No name is spelled so.
#[tactic(auto, unfolding(crate::specs::Reading::is_reserved))]
fn is_reserved(text: &[char]) -> bool
    ensures { result ≡ spec.is_reserved text.now }
{
    matches!(text, [] | ['.'] | ['.', '.']) || text.contains(&'/')
}
