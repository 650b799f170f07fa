//! Laws of the language of names, each as a function without a body.
#![tactic(auto)]

ghost use Rattle.std.specs.Prelude.{◌≡◌, ◌<◌, ◌≤◌, true, Ok, length, chars, encode_utf8_all};
ghost use Rattle.std.specs.List.{list_all};
ghost use Rattle.name_text.specs.Reading.{component};
ghost use Rattle.name_text.specs.Printing.{component_text, is_clear};
ghost use Rattle.name_text.specs.Laws.{IsReadAsSpelled};

use crate::Piece;

/// The printed text of a name is read as that name, character by character and from its bytes in UTF-8.
pub fn printed_is_read_back(units: &[u16])
    requires some { 0 < length units.now }
    requires short { length units.now ≤ 255 }
    ensures characters { component (component_text units.now) ≡ Ok units.now }
    ensures bytes { component (chars (encode_utf8_all (component_text units.now))) ≡ Ok units.now }
{}

/// A text is read to just the pieces that spell it, so it spells one list of pieces at most.
pub fn text_is_read_as_spelled(text: &[char], pieces: &[Piece])
    ensures { IsReadAsSpelled text.now pieces.now }
{}

/// The printed text of a name is one word: it isn't empty, and none of its bytes is a control, a
/// space or `/`.
pub fn printed_is_one_word(units: &[u16])
    requires { 0 < length units.now }
    ensures some { 0 < length (encode_utf8_all (component_text units.now)) }
    ensures clear { list_all is_clear (encode_utf8_all (component_text units.now)) ≡ true }
{}
