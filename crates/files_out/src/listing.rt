//! Lines that tell of an entry.

use crate::moment::moment;
use files_talk::Facts;
use salvage_tree::Extra;
use std::alloc::{AllocError, Global};

/// The letters of the nine rights, from the highest on.
const RIGHTS: [char; 9] = ['r', 'w', 'x', 'r', 'w', 'x', 'r', 'w', 'x'];

/// A bit of a mode beside the rights: the right at whose place it is told, and its letters with that right and without.
#[derive(Clone, Copy)]
struct Special {
    bit: u32,
    right: u32,
    with: char,
    without: char,
}

const SPECIALS: [Special; 3] = [
    Special {
        bit: 0o4000,
        right: 0o100,
        with: 's',
        without: 'S',
    },
    Special {
        bit: 0o2000,
        right: 0o010,
        with: 's',
        without: 'S',
    },
    Special {
        bit: 0o1000,
        right: 0o001,
        with: 't',
        without: 'T',
    },
];

/// A line of a list: a path, with a slash behind that of a folder; before it, where it is a long one, the mode, the number of names, the
/// size and the date. Of a folder the size is the number of its entries, and the number of names a dash.
pub(crate) fn list_line(
    alloc: Global,
    path: &str,
    facts: &Facts,
    extra: &Extra,
    long: bool,
) -> Result<String, AllocError> {
    let slash = if facts.folder && path != "/" { "/" } else { "" };
    if !long {
        return format!(in alloc; "{path}{slash}\n");
    }
    let mode = mode_text(alloc, facts, extra)?;
    let links = links_text(alloc, facts)?;
    let date = moment(alloc, facts.changed)?;
    let size = facts.size;
    format!(in alloc;
        "{} {:>4} {size:>12} {} {path}{slash}\n",
        mode.as_str(),
        links.as_str(),
        date.as_str()
    )
}

/// The lines of an entry: a word and what it stands for each.
pub(crate) fn facts_lines(
    alloc: Global,
    path: &str,
    facts: &Facts,
    extra: &Extra,
    attributes: &[String],
) -> Result<String, AllocError> {
    let kind = kind_of(facts, extra);
    let counted = if facts.folder { "entries" } else { "size" };
    let created = moment(alloc, facts.created)?;
    let changed = moment(alloc, facts.changed)?;
    let Facts { id, size, mode, .. } = *facts;
    let mut text = format!(in alloc;
        "path: {path}\nkind: {kind}\nid: {id}\n{counted}: {size}\nmode: {mode:04o}\ncreated: {}\nchanged: {}\n",
        created.as_str(),
        changed.as_str()
    )?;
    if !facts.folder {
        let links = format!(in alloc; "links: {}\n", facts.links)?;
        text.push_str(links.as_str())?;
    }
    if extra.resources > 0 {
        let resources = format!(in alloc; "resource fork: {}\n", extra.resources)?;
        text.push_str(resources.as_str())?;
    }
    for name in attributes {
        text.push_str("attribute: ")?;
        text.push_str(name.as_str())?;
        text.push('\n')?;
    }
    Ok(text)
}

// What an entry is.
fn kind_of(facts: &Facts, extra: &Extra) -> &'static str {
    if facts.folder {
        "folder"
    } else if extra.is_symlink {
        "symbolic link"
    } else if extra.is_compressed {
        "compressed file"
    } else {
        "file"
    }
}

// The letter of an entry's kind.
fn kind_letter(facts: &Facts, extra: &Extra) -> char {
    if facts.folder {
        'd'
    } else if extra.is_symlink {
        'l'
    } else {
        '-'
    }
}

// The mode as `ls` tells it, behind the letter of the entry's kind.
fn mode_text(alloc: Global, facts: &Facts, extra: &Extra) -> Result<String, AllocError> {
    let mut text = String::new(alloc);
    text.push(kind_letter(facts, extra))?;
    let mut bit: u32 = 0o400;
    for right in RIGHTS.iter() {
        text.push(right_letter(facts.mode, bit, *right))?;
        bit /= 2;
    }
    Ok(text)
}

// The letter of a right: its own, a dash, or that of the bit which is told at its place.
fn right_letter(mode: u32, bit: u32, right: char) -> char {
    let has = mode & bit != 0;
    for special in SPECIALS.iter() {
        if special.right == bit && mode & special.bit != 0 {
            return if has { special.with } else { special.without };
        }
    }
    if has { right } else { '-' }
}

// The number of a file's names.
fn links_text(alloc: Global, facts: &Facts) -> Result<String, AllocError> {
    if facts.folder {
        return String::from_str(alloc, "-");
    }
    format!(in alloc; "{}", facts.links)
}
