//! The date of a folder, and the attributes of an entry.
use crate::asking::{Asked, Asking};
use crate::staging::MARK;
use files_talk::{LineList, child_of, word_of};
use std::alloc::{AllocError, Global};

/// Dates a folder by a file that is made in it and removed.
pub(crate) fn date_folder(
    asking: &mut Asking<'_>,
    lines: &mut LineList,
    alloc: Global,
    folder: &str,
    date: u32,
) -> Result<(), AllocError> {
    let mark = child_of(alloc, folder, MARK)?;
    asking.at(lines, date)?;
    asking.path(lines, "create", mark.as_str(), Asked::Other)?;
    asking.path(lines, "rm", mark.as_str(), Asked::Other)
}

/// Sets an attribute of an entry, whose name is that of one of the system's: `user.` and a name. False means that a volume can't have it.
pub(crate) fn push_attribute(
    asking: &mut Asking<'_>,
    lines: &mut LineList,
    word: &str,
    name: &[u8],
    value: &[u8],
    asked: Asked,
) -> Result<bool, AllocError> {
    let Ok(name) = str::from_utf8(name) else {
        return Ok(false);
    };
    let Some(name) = name.strip_prefix("user.") else {
        return Ok(false);
    };
    match word_of(asking.rt().alloc(), name)? {
        Ok(name) => {
            asking.attribute(lines, word, name.as_str(), value, asked)?;
            Ok(true)
        }
        Err(_) => Ok(false),
    }
}
