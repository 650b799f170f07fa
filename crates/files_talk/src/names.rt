//! Names of the system's files as words of a line, and back, by the proved readers and printers.
ghost use Rattle.std.specs.Prelude.{◌≡◌, Ok, Err, ℕ, List, chars, string_bytes, encode_utf8_all, IfOk, IfErr};
ghost use Rattle.name_text.specs.Printing.{component_text};
ghost use Rattle.name_text.specs.Reading.{component};
ghost use Rattle.files_talk.specs.Names.{SpellsNone};

use name_text::{NameFault, print_component, read_component};
use std::alloc::{AllocError, Global};
use std::fmt;
use unicode_normalization::slice::extend_nfc;

/// The most bytes of a name of the system's files.
const MOST_BYTES: usize = 255;

/// Why a name has no word, or a word no name.
#[derive(Clone, Copy, Debug, PartialEq, Eq)]
pub enum NameLack {
    /// It has more than 255 UTF-16 units.
    TooLong,
    /// No word spells it.
    Unspelled,
    /// The units are no text.
    NoText,
    /// It leads elsewhere, or holds what no name of a file can.
    NoFile,
    /// It has more than 255 bytes.
    TooManyBytes,
}

impl fmt::Display for NameLack {
    fn fmt<W: fmt::Write>(&self, f: &mut fmt::Formatter<W>) -> fmt::Result {
        f.write_str(match self {
            NameLack::TooLong => "its name has more than 255 UTF-16 units",
            NameLack::Unspelled => "its name can't be spelled",
            NameLack::NoText => "its name is no text",
            NameLack::NoFile => "no file can have its name",
            NameLack::TooManyBytes => "its name has more than 255 bytes",
        })
    }
}

/// The word that spells a file's name. The volume keeps it in NFD.
pub fn word_of(alloc: Global, name: &str) -> Result<Result<String, NameLack>, AllocError> {
    let mut text = String::new(alloc);
    for c in name.chars() {
        if c == '%' {
            text.push('%')?;
        }
        text.push(c)?;
    }
    component_word(alloc, text.as_str())
}

/// The word that a line has for a name which is spelled as in a line, though perhaps otherwise than the server spells it: with spaces, say, or
/// composed. A text that spells no name has none.
pub fn component_word(alloc: Global, name: &str) -> Result<Result<String, NameLack>, AllocError>
    ensures named { IfOk result (λ found. IfOk found (λ word. IfErr (component (chars name.now)) (λ fault. ⊥))) }
    ensures word { IfOk result (λ found. IfOk found (λ word. IfOk (component (chars name.now)) (λ units. string_bytes word ≡ encode_utf8_all (component_text units)))) }
    ensures none { IfOk result (λ found. IfErr found (λ lack. SpellsNone (chars name.now) lack)) }
{
    match read_component(alloc, name) {
        Ok(units) => match print_component(alloc, &units) {
            Ok(word) => Ok(Ok(word)),
            Err(_) => Err(AllocError),
        },
        Err(NameFault::NameTooLong) => Ok(Err(NameLack::TooLong)),
        Err(NameFault::Memory) => Err(AllocError),
        Err(NameFault::BadName) => Ok(Err(NameLack::Unspelled)),
    }
}

/// The name of the file that a name of the volume stands for, in NFC. It never leads out of the folder in which it stands.
pub fn name_of(alloc: Global, units: &[u16]) -> Result<Result<String, NameLack>, AllocError> {
    let text = match String::from_utf16(alloc, units)? {
        Ok(text) => text,
        Err(_) => return Ok(Err(NameLack::NoText)),
    };
    let name = composed(alloc, text.as_str())?;
    if leads_elsewhere(name.as_str()) {
        return Ok(Err(NameLack::NoFile));
    }
    if name.as_str().len() > MOST_BYTES {
        return Ok(Err(NameLack::TooManyBytes));
    }
    Ok(Ok(name))
}

// Whether a name is that of no file in the folder itself.
fn leads_elsewhere(name: &str) -> bool {
    name.is_empty() || name == "." || name == ".." || name.contains('/') || name.contains('\0')
}

// The same text in NFC.
fn composed(alloc: Global, text: &str) -> Result<String, AllocError> {
    if text.is_ascii() {
        return String::from_str(alloc, text);
    }
    let characters: Vec<char> = text.chars().collect(alloc)?;
    let mut composed = Vec::new(alloc);
    extend_nfc(&mut composed, characters.as_slice())?;
    let mut name = String::new(alloc);
    for c in composed.as_slice() {
        name.push(*c)?;
    }
    Ok(name)
}

/// The path of an entry of a folder: of words, where the root's is empty, or of names.
pub fn child_of(alloc: Global, folder: &str, name: &str) -> Result<String, AllocError> {
    let mut path = String::from_str(alloc, folder)?;
    if !folder.ends_with('/') {
        path.push('/')?;
    }
    path.push_str(name)?;
    Ok(path)
}
