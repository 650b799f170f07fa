//! Names that are spelled in plain ASCII: each byte stands for itself.
#![tactic(auto)]

ghost use Rattle.std.specs.Prelude.{◌≡◌, ◌≢◌, true, Ok, IfOk, IfErr, chars};
ghost use Rattle.std.specs.List.{list_all};
ghost use Rattle.name_text.specs.declared.piece.NameFault.TheVariants.{Memory};
ghost use Rattle.name_text.specs.Reading as spec;
ghost use Rattle.name_text.specs.PlainAscii.{stands_for_itself};

use crate::read::MOST_UNITS;
use crate::{NameFault, Units};
use std::alloc::{AllocError, Global};

/// Whether each byte of a text is ASCII and no percent sign.
pub(crate) fn is_plain(text: &[u8]) -> bool
    ensures { result ≡ list_all stands_for_itself text.now }
{
    text.iter().all(|byte| stands_for_itself(*byte))
}

fn stands_for_itself(byte: u8) -> bool
    ensures { result ≡ stands_for_itself byte }
{
    byte < 0x80 && byte != b'%'
}

/// The name that such a text spells: its bytes are the units. Their NFD is themselves.
#[tactic(auto, using(crate::proofs::PlainAscii::plain_name))]
pub(crate) fn read_plain(alloc: Global, text: &[u8]) -> Result<Units, NameFault>
    requires { list_all stands_for_itself text.now ≡ true }
    ensures name { IfOk result (λ units. spec.component (chars text.now) ≡ Ok units) }
    ensures refused { IfErr result (λ fault. fault ≢ Memory → spec.component (chars text.now) ≡ Err fault) }
{
    if is_reserved(text) {
        return Err(NameFault::BadName);
    }
    if text.len() > MOST_UNITS {
        return Err(NameFault::NameTooLong);
    }
    Ok(Units::from_vec(widened(alloc, text)?))
}

/// No name is spelled so.
#[tactic(auto, unfolding(crate::specs::Reading::is_reserved))]
fn is_reserved(text: &[u8]) -> bool
    ensures { result ≡ spec.is_reserved text.now }
{
    matches!(text, [] | [b'.'] | [b'.', b'.']) || text.contains(&b'/')
}

/// The bytes as units.
fn widened(alloc: Global, text: &[u8]) -> Result<Vec<u16>, AllocError>
    ensures { IfOk result (λ units. units.items ≡ text.now) }
{
    text.iter().map(|byte| u16::from(*byte)).collect(alloc)
}
