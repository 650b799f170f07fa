//! Names of a volume as names of files here.

use std::alloc::{AllocError, Global};
use unicode_normalization::slice::extend_nfc;

/// The most bytes of a file's name here.
const MOST_BYTES: usize = 255;

/// The name of a file for the units of a name, composed (NFC), or none where there can't be a file of that name. A slash becomes a colon, as
/// the systems that write such volumes show it, and what no name may hold becomes a sign that stands for it.
pub fn file_name(alloc: Global, units: &[u16]) -> Result<Option<String>, AllocError> {
    let text = String::from_utf16_lossy(alloc, units)?;
    let mut plain = Vec::new(alloc);
    for c in text.as_str().chars() {
        plain.push(shown(c))?;
    }
    let mut composed = Vec::new(alloc);
    extend_nfc(&mut composed, plain.as_slice())?;
    let mut name = String::new(alloc);
    for c in composed.as_slice() {
        name.push(*c)?;
    }
    if is_file_name(name.as_str()) {
        Ok(Some(name))
    } else {
        Ok(None)
    }
}

fn shown(c: char) -> char {
    match c {
        '/' => ':',
        '\0' => '\u{2400}',
        _ => c,
    }
}

// Whether a file may have this name in the folder that it is made in.
fn is_file_name(name: &str) -> bool {
    !name.is_empty()
        && name != "."
        && name != ".."
        && name.len() <= MOST_BYTES
        && !name.contains('/')
}
