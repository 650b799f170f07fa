//! The sentence for a finding, rule by rule.

use crate::names::Names;
use crate::refusal::header_field;
use crate::runs::Run;
use std::alloc::{AllocError, Global};

/// What is said of a run of findings.
#[derive(Drop)]
pub(crate) struct Said {
    pub(crate) text: String,
    /// The path of the file or folder that it is about.
    pub(crate) path: Option<String>,
    /// Whether it can be mended from what is there.
    pub(crate) mends: bool,
}

// The trees' and the special files' names, by their ids.
fn special_file(id: u64) -> &'static str {
    match id {
        3 => "the extents overflow file",
        4 => "the catalog",
        5 => "the list of bad blocks",
        6 => "the bitmap",
        7 => "the startup file",
        8 => "the attributes file",
        _ => "a special file",
    }
}

// What a finding of one of the rules 11 to 20 or 8 to 10 is about: its path, or its id.
fn subject(alloc: Global, path: &Option<String>, id: u64) -> Result<String, AllocError> {
    match path {
        Some(path) => String::from_str(alloc, path.as_str()),
        None => {
            if id > 2 && id < 9 {
                String::from_str(alloc, special_file(id))
            } else {
                format!(in alloc; "the file or folder of id {id}")
            }
        }
    }
}

// A number's word, and whether there are several.
fn blocks_text(alloc: Global, first: u64, last: u64) -> Result<String, AllocError> {
    if first == last {
        format!(in alloc; "block {first} is")
    } else {
        format!(in alloc; "blocks {first} to {last} are")
    }
}

/// Whether a rule's findings can be mended where no other stands beside them: the alternate header, counts, and bits of blocks.
pub(crate) fn can_be_mended(rule: u8, found: u64, wanted: u64) -> bool {
    match rule {
        2 | 11 | 12 | 13 | 14 => true,
        19 => !(found == 0 && wanted == 1),
        _ => false,
    }
}

/// What is said of a run of findings.
pub(crate) fn say(alloc: Global, names: &Names, run: &Run) -> Result<Said, AllocError> {
    let rule = run.first.rule;
    let path = path_of(names, run)?;
    let text = if rule < 8 {
        volume_text(alloc, run)?
    } else if rule == 12 || rule == 13 || rule == 14 || rule == 18 {
        blocks_said(alloc, run, &path)?
    } else {
        let subject = subject(alloc, &path, run.first.place)?;
        entry_text(alloc, run, subject.as_str())?
    };
    Ok(Said {
        text,
        path,
        mends: run.mends,
    })
}

// The path of what a run of findings is about.
fn path_of(names: &Names, run: &Run) -> Result<Option<String>, AllocError> {
    match run.first.rule {
        13 | 18 => names.user(run.first.place, run.last),
        8 | 9 | 10 | 11 | 15 | 16 | 17 | 19 | 20 => names.path(run.first.place),
        _ => Ok(None),
    }
}

// Findings on the headers, the special files and the trees.
fn volume_text(alloc: Global, run: &Run) -> Result<String, AllocError> {
    let place = run.first.place;
    let found = run.first.found;
    let wanted = run.first.wanted;
    let tree = special_file(place >> 32);
    let node = place & 0xFFFF_FFFF;
    match run.first.rule {
        1 => format!(in alloc;
            "the volume header: {} is {found}, and {wanted} fits",
            header_field(place)
        ),
        2 => format!(in alloc;
            "the alternate header disagrees with the first: {} is {found}, and there {wanted}",
            header_field(place)
        ),
        3 => file_text(alloc, run),
        4 => format!(in alloc;
            "the header of {tree}: one of its numbers is {found}, and {wanted} fits"
        ),
        5 => format!(in alloc;
            "node {node} of {tree} can't be one: its kind or its height is another, or a record has a bad key or length"
        ),
        6 => format!(in alloc;
            "node {node} of {tree} isn't in order: its keys, the keys that lead to it or its neighbours are others"
        ),
        _ => {
            let nodes = run.count();
            if found == 0 {
                format!(in alloc;
                    "the map of {tree} has {nodes} nodes from {node} on free, which are in use"
                )
            } else {
                format!(in alloc;
                    "the map of {tree} has {nodes} nodes from {node} on in use, which aren't"
                )
            }
        }
    }
}

// Findings on the size of a special file, or on the bits behind the last block.
fn file_text(alloc: Global, run: &Run) -> Result<String, AllocError> {
    let found = run.first.found;
    let wanted = run.first.wanted;
    if run.first.place == 6 && wanted == 0 {
        return format!(in alloc; "the bitmap has {found} bits set behind the last block");
    }
    let file = special_file(run.first.place);
    format!(in alloc; "{file} has {found} bytes, and {wanted} fit")
}

// Findings on blocks and counts of the header.
fn blocks_said(alloc: Global, run: &Run, path: &Option<String>) -> Result<String, AllocError> {
    let first = run.first;
    let found = first.found;
    let wanted = first.wanted;
    let blocks = blocks_text(alloc, first.place, run.last)?;
    let blocks = blocks.as_str();
    match first.rule {
        12 => {
            let what = if first.place == 32 {
                "files"
            } else {
                "folders"
            };
            format!(in alloc; "the volume header counts {found} {what}, and there are {wanted}")
        }
        14 => format!(in alloc;
            "the volume header counts {found} free blocks, and there are {wanted}"
        ),
        18 => match path {
            Some(path) => {
                let path = path.as_str();
                format!(in alloc; "{blocks} used {found} times, once by {path}")
            }
            None => format!(in alloc; "{blocks} used {found} times"),
        },
        _ => {
            if found == 1 {
                return format!(in alloc; "{blocks} marked as in use, without being used");
            }
            match path {
                Some(path) => {
                    let path = path.as_str();
                    format!(in alloc; "{blocks} marked as free, and in use by {path}")
                }
                None => format!(in alloc; "{blocks} marked as free, and in use"),
            }
        }
    }
}

// Findings on an entry.
fn entry_text(alloc: Global, run: &Run, subject: &str) -> Result<String, AllocError> {
    let first = run.first;
    let found = first.found;
    let wanted = first.wanted;
    match first.rule {
        8 => format!(in alloc;
            "{subject}: a record in it can't be read, or its kind doesn't fit its name"
        ),
        9 => format!(in alloc;
            "{subject}: its record and its thread don't match, or one of them is missing"
        ),
        10 => {
            if first.place == 2 {
                format!(in alloc; "there is no root folder")
            } else {
                format!(in alloc; "{subject}: the folders above it don't lead to the root")
            }
        }
        11 => format!(in alloc; "{subject}: it counts {found} entries, and has {wanted}"),
        15 => {
            if wanted == 1 && found != first.place {
                format!(in alloc; "{subject}: {found} entries have its id")
            } else {
                format!(in alloc; "{subject}: its id isn't one that was given out")
            }
        }
        16 => format!(in alloc;
            "{subject}: its blocks, its size or the end of an extent is {found}, and {wanted} fits"
        ),
        17 => format!(in alloc;
            "{subject}: extents in the overflow file don't go on where its own end"
        ),
        19 => {
            if found == 0 && wanted == 1 {
                format!(in alloc; "{subject}: it is a link to no file, or counts none of its names")
            } else {
                format!(in alloc; "{subject}: it counts {found} names, and has {wanted}")
            }
        }
        _ => format!(in alloc;
            "{subject}: an attribute has no owner, no name or no value, or a file of the journal isn't where the journal is"
        ),
    }
}
