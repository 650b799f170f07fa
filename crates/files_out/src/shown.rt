//! Paths between the user's spelling and the volume's names: a name is shown in composed form wherever that is read back as the same name.

use files_talk::{NameLack, child_of, component_word, name_of, word_of};
use hfs_language::Path;
use hx_bytes::{OutOfMemory, Units};
use name_text::{NameFault, print_component, read_component};
use std::alloc::{AllocError, Global};

/// The path of a line for one that a user gives: `/`, or a slash before each name, which is spelled as in a line and may have spaces. A
/// slash at its end is passed over. The root's is empty.
pub fn path_word(alloc: Global, text: &str) -> Result<Result<String, NameLack>, AllocError> {
    let mut path = String::new(alloc);
    let Some(names) = text.strip_prefix('/') else {
        return Ok(Err(NameLack::Unspelled));
    };
    let names = names.trim_end_matches('/');
    if names.is_empty() {
        return Ok(Ok(path));
    }
    for name in names.split('/') {
        match component_word(alloc, name)? {
            Ok(word) => {
                path.push('/')?;
                path.push_str(word.as_str())?;
            }
            Err(lack) => return Ok(Err(lack)),
        }
    }
    Ok(Ok(path))
}

/// The names of a path that a user gives, spelled so.
pub fn path_of(alloc: Global, text: &str) -> Result<Result<Path, NameLack>, AllocError> {
    let mut path = Vec::new(alloc);
    let Some(names) = text.strip_prefix('/') else {
        return Ok(Err(NameLack::Unspelled));
    };
    let names = names.trim_end_matches('/');
    if names.is_empty() {
        return Ok(Ok(Path::from_vec(path)));
    }
    for name in names.split('/') {
        match read_component(alloc, name) {
            Ok(units) => path.push(units)?,
            Err(NameFault::NameTooLong) => return Ok(Err(NameLack::TooLong)),
            Err(NameFault::Memory) => return Err(AllocError),
            Err(NameFault::BadName) => return Ok(Err(NameLack::Unspelled)),
        }
    }
    Ok(Ok(Path::from_vec(path)))
}

/// The path of an entry of a folder.
pub(crate) fn path_below(alloc: Global, folder: &Path, name: Units) -> Result<Path, AllocError> {
    let mut path = Vec::new(alloc);
    for one in folder.as_slice() {
        path.push(Units::from_vec(Vec::from_slice(alloc, one.as_slice())?))?;
    }
    path.push(name)?;
    Ok(Path::from_vec(path))
}

/// The word that spells a name.
pub(crate) fn word_of_name(alloc: Global, name: &Units) -> Result<String, AllocError> {
    match print_component(alloc, name) {
        Ok(word) => Ok(word),
        Err(OutOfMemory) => Err(AllocError),
    }
}

/// A path as a user may give it back: composed, with spaces, wherever that names the same.
pub(crate) fn shown_path(alloc: Global, path: &Path) -> Result<String, AllocError> {
    if path.is_empty() {
        return String::from_str(alloc, "/");
    }
    let mut shown = String::new(alloc);
    for name in path.as_slice() {
        shown = child_of(alloc, shown.as_str(), shown_name(alloc, name)?.as_str())?;
    }
    Ok(shown)
}

// A name as a user may give it back.
fn shown_name(alloc: Global, name: &Units) -> Result<String, AllocError> {
    let word = word_of_name(alloc, name)?;
    if is_plain(word.as_str()) {
        return Ok(word);
    }
    if let Ok(name) = name_of(alloc, name.as_slice())? {
        if let Ok(again) = word_of(alloc, name.as_str())? {
            if again.as_str() == word.as_str() && !name.as_str().chars().any(is_control) {
                return with_percents(alloc, name.as_str());
            }
        }
    }
    Ok(word)
}

// A name with each percent sign doubled, as a line spells it.
fn with_percents(alloc: Global, name: &str) -> Result<String, AllocError> {
    let mut text = String::new(alloc);
    for c in name.chars() {
        if c == '%' {
            text.push('%')?;
        }
        text.push(c)?;
    }
    Ok(text)
}

// Whether a word is the same for a user and for a line: its letters are of ASCII, and no percent sign is among them.
fn is_plain(word: &str) -> bool {
    word.is_ascii() && !word.contains('%')
}

// Whether a character moves the cursor, or isn't seen at all.
fn is_control(c: char) -> bool {
    c.is_control()
}
