//! What an adoption did, and why one is refused, in words.

use image_adopt::{AdoptRefusal, Adopted};
use jnl_format::JnlRefusal;
use std::alloc::{AllocError, Global};
use volume_header::HeaderRefusal;

/// The sentence for what an adoption did.
pub(crate) fn done_text(alloc: Global, done: Adopted) -> Result<String, AllocError> {
    let Adopted::Anew(made) = done else {
        return String::from_str(
            alloc,
            "adopted already: the journal is one that hfsx keeps, and nothing was written\n",
        );
    };
    let replayed = if made.live {
        "the journal was replayed and emptied"
    } else {
        "the journal was empty"
    };
    let was = made.was;
    let now = made.now;
    if was == now {
        return format!(in alloc; "adopted: {replayed}\n");
    }
    format!(in alloc;
        "adopted: {replayed}; the header of a list, which filled {was} bytes, fills {now} now\n"
    )
}

/// The name of a refusal, and its numbers, as `hfsx run` tells them.
pub(crate) fn refusal_text(alloc: Global, why: AdoptRefusal) -> Result<String, AllocError> {
    match why {
        AdoptRefusal::Header(why) => header_text(alloc, why),
        AdoptRefusal::SoftwareLocked => String::from_str(alloc, "SoftwareLocked"),
        AdoptRefusal::Journal(why) => journal_text(alloc, why),
    }
}

fn header_text(alloc: Global, why: HeaderRefusal) -> Result<String, AllocError> {
    match why {
        HeaderRefusal::LimitSectors(sectors) => format!(in alloc; "LimitSectors {sectors}"),
        HeaderRefusal::NotHfsx { signature, version } => {
            format!(in alloc; "NotHfsx {signature} {version}")
        }
        HeaderRefusal::BadGeometry(offset) => format!(in alloc; "BadGeometry {offset}"),
        HeaderRefusal::NotJournaled => String::from_str(alloc, "NotJournaled"),
        HeaderRefusal::IdsReused => String::from_str(alloc, "IdsReused"),
    }
}

fn journal_text(alloc: Global, why: JnlRefusal) -> Result<String, AllocError> {
    match why {
        JnlRefusal::BadInfo(offset) => format!(in alloc; "BadInfo {offset}"),
        JnlRefusal::OtherDevice => String::from_str(alloc, "OtherDevice"),
        JnlRefusal::BadHeader(offset) => format!(in alloc; "BadHeader {offset}"),
        JnlRefusal::BadList(offset) => format!(in alloc; "BadList {offset}"),
        JnlRefusal::ForeignJournal(version) => format!(in alloc; "ForeignJournal {version}"),
    }
}
