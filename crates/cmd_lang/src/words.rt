//! The words of a line are read: numbers, modes, values, names and paths.
ghost use Rattle.std.specs.Prelude.{◌≡◌, ◌≤◌, ◌∷◌, Ok, true, drop, length, decimal, bytes_eq, IfOk, IfSome};
ghost use Rattle.std.specs.List.{list_all};
ghost use Rattle.std.specs.Str.Parse.{digits_value};
ghost use Rattle.percent_encoding.specs.Percent.{percent_decode as unescaped};
ghost use Rattle.hfs_language.specs.Language as spec;
ghost use Rattle.hfs_language.specs.Text as spec_text;
ghost use Rattle.cmd_lang.specs.Numbers.{small_number_of};
ghost use Rattle.cmd_lang.specs.Reads.{Reads};

use crate::LineFault;
use crate::print::value_text;
use crate::spelled::value_bytes;
use hfs_language::Refusal;
use hx_bytes::{Bytes, Units};
use itoa::Buffer;
use name_text::{NameFault, read_component};
use percent_encoding::percent_decode;
use std::alloc::{AllocError, Global};

/// The line or word is none of the language.
pub const BAD_COMMAND: LineFault = LineFault::No(Refusal::BadCommand);

/// The number below 2 to the 64th that a word spells by its decimal digits.
pub fn read_number(word: &str) -> Result<u64, LineFault>
    ensures { Reads (spec.number_of word.now) result }
{
    match word.parse::<u64>() {
        Ok(number) => if is_decimal(number, word) {
            Ok(number)
        } else {
            Err(BAD_COMMAND)
        },
        Err(_) => Err(BAD_COMMAND),
    }
}

/// Whether the word is the number's decimal digits.
fn is_decimal(number: u64, word: &str) -> bool
    ensures { result ≡ bytes_eq word.now (decimal number) }
{
    let mut buffer = Buffer::new();
    buffer.format(number) == word
}

/// The number below 2 to the 32nd that a word spells by its decimal digits.
pub fn read_small_number(word: &str) -> Result<u32, LineFault>
    ensures { Reads (small_number_of word.now) result }
{
    match read_number(word) {
        Ok(number) => if number < 0x1_0000_0000 {
            Ok(number as u32)
        } else {
            Err(BAD_COMMAND)
        },
        Err(fault) => Err(fault),
    }
}

/// A mode in one to four octal digits.
#[tactic(auto, unfolding(hfs_language::specs::Language::mode_of))]
pub(crate) fn read_mode(word: &str) -> Result<u16, LineFault>
    ensures { Reads (spec.mode_of word.now) result }
{
    let digits = word.as_bytes();
    if digits.is_empty() || digits.len() > 4 || !are_octal(digits) {
        return Err(BAD_COMMAND);
    }
    Ok(octal_value(digits))
}

fn are_octal(digits: &[u8]) -> bool
    ensures { result ≡ list_all spec.is_octal digits.now }
{
    digits.iter().all(|digit| is_octal(*digit))
}

fn is_octal(digit: u8) -> bool
    ensures { result ≡ spec.is_octal digit }
{
    digit >= b'0' && digit <= b'7'
}

/// The value of at most four octal digits.
fn octal_value(digits: &[u8]) -> u16
    requires few { length digits.now ≤ 4 }
    requires octal { list_all spec.is_octal digits.now ≡ true }
    ensures { result ≡ digits_value 8 digits.now }
{
    let mut value = 0;
    for digit in digits {
        value = value * 8 + u16::from(*digit - b'0');
    }
    value
}

/// A value, spelled as it is printed.
pub(crate) fn read_value(alloc: Global, word: &str) -> Result<Bytes, LineFault>
    ensures { Reads (spec.value_of word.now) result }
{
    read_value_text(alloc, word.as_bytes())
}

/// The value that a text spells as it is printed.
// It is read in one pass where it is in its one spelling, and otherwise by its own rule.
pub fn read_value_text(alloc: Global, text: &[u8]) -> Result<Bytes, LineFault>
    ensures { Reads (spec.value_of text.now) result }
{
    match value_bytes(alloc, text)? {
        Some(value) => Ok(Bytes::from_vec(value)),
        None => read_escaped(alloc, text),
    }
}

/// A value, each byte of which may be escaped.
#[tactic(auto, unfolding(hfs_language::specs::Language::value_of))]
fn read_escaped(alloc: Global, text: &[u8]) -> Result<Bytes, LineFault>
    ensures { Reads (spec.value_of text.now) result }
{
    let value = decoded(alloc, behind_first(text))?;
    if is_spelled(alloc, &value, text)? {
        Ok(Bytes::from_vec(value))
    } else {
        Err(BAD_COMMAND)
    }
}

fn behind_first(text: &[u8]) -> &[u8]
    ensures { result.now ≡ drop 1 text.now }
{
    match text {
        [_, rest @ ..] => rest,
        [] => text,
    }
}

fn decoded(alloc: Global, text: &[u8]) -> Result<Vec<u8>, AllocError>
    ensures { IfOk result (λ value. value.items ≡ unescaped text.now) }
{
    let mut value = Vec::new(alloc);
    percent_decode(text).append_to(&mut value)?;
    Ok(value)
}

/// Whether the text is that of the value.
fn is_spelled(alloc: Global, value: &[u8], text: &[u8]) -> Result<bool, AllocError>
    ensures { IfOk result (λ answer. answer ≡ bytes_eq text.now (spec_text.value_text value.now)) }
{
    let spelled = value_text(alloc, value)?;
    Ok(text == spelled.as_slice())
}

/// A name, as a component of a path spells it.
#[tactic(auto, unfolding(hfs_language::specs::Language::name_of))]
pub(crate) fn read_name(alloc: Global, word: &str) -> Result<Units, LineFault>
    ensures { Reads (spec.name_of word.now) result }
{
    match read_component(alloc, word) {
        Ok(name) => Ok(name),
        Err(NameFault::BadName) => Err(LineFault::No(Refusal::BadName)),
        Err(NameFault::NameTooLong) => Err(LineFault::No(Refusal::NameTooLong)),
        Err(NameFault::Memory) => Err(LineFault::Memory),
    }
}

/// The name of an attribute, which has at most 127 units.
#[tactic(auto, unfolding(hfs_language::specs::Language::attribute_of))]
pub(crate) fn read_attribute(alloc: Global, word: &str) -> Result<Units, LineFault>
    ensures { Reads (spec.attribute_of word.now) result }
{
    if word.is_empty() {
        return Err(BAD_COMMAND);
    }
    match read_name(alloc, word) {
        Ok(name) => if name.len() > 127 {
            Err(LineFault::No(Refusal::NameTooLong))
        } else {
            Ok(name)
        },
        Err(fault) => Err(fault),
    }
}
