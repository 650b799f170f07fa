//! Why an image isn't judged, in words.

use std::alloc::{AllocError, Global};

/// The sentence for a refusal: its word, and its numbers.
pub(crate) fn refusal_text(
    alloc: Global,
    word: &str,
    first: u64,
    second: u64,
) -> Result<String, AllocError> {
    match word {
        "LimitSectors" => {
            format!(in alloc; "the image has {first} sectors; a volume has from 2048 to 2147483648")
        }
        "NotHfsx" => format!(in alloc;
            "the volume header has the signature {first:#06x} and the version {second}, and not those of HFSX, 0x4858 and 5"
        ),
        "BadGeometry" => format!(in alloc;
            "the volume header doesn't fit the image: {}",
            header_field(first)
        ),
        "NotJournaled" => format!(in alloc; "the volume header says that there is no journal"),
        "IdsReused" => format!(in alloc; "the volume header says that catalog ids were used again"),
        "SoftwareLocked" => format!(in alloc; "the volume is locked by software"),
        "BadInfo" => format!(in alloc;
            "the journal's info block can't be used: its field at byte {first} is bad"
        ),
        "OtherDevice" => format!(in alloc; "the journal is on another device"),
        "BadHeader" => format!(in alloc;
            "the journal's header can't be used: its field at byte {first} is bad"
        ),
        "BadList" => format!(in alloc;
            "the journal has a block list that breaks the format, at its byte {first}"
        ),
        "ForeignJournal" => format!(in alloc;
            "the journal was left by a system that doesn't keep it"
        ),
        _ => format!(in alloc; "the image isn't judged: {word} {first} {second}"),
    }
}

/// The field of a volume header at a byte.
pub(crate) fn header_field(offset: u64) -> &'static str {
    match offset {
        0 => "its signature",
        2 => "its version",
        4 => "its attributes",
        12 => "the place of its journal",
        32 => "its count of files",
        36 => "its count of folders",
        40 => "its block size",
        44 => "its number of blocks",
        48 => "its count of free blocks",
        64 => "its next catalog id",
        _ => "one of its fields",
    }
}

/// What can be done about a journal that later systems wrote.
pub(crate) const ADOPT_HELP: &str =
    "later systems write such a journal: `hfsx-files adopt` makes the volume one that `hfsx` serves";

/// What can be done about a refusal.
pub(crate) fn refusal_help(word: &str) -> &'static str {
    match word {
        "BadInfo" | "BadHeader" | "BadList" | "ForeignJournal" | "OtherDevice" => {
            "`hfsx-files salvage` needs no journal"
        }
        "SoftwareLocked" => "its attributes' bit 15 says so",
        _ => "`hfsx-files salvage` may read it",
    }
}
