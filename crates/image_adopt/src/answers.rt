//! What an adoption answers.
use jnl_format::JnlRefusal;
use volume_header::HeaderRefusal;

/// What an adoption did.
#[derive(Clone, Copy, Debug, PartialEq, Eq)]
pub enum Adopted {
    /// Nothing: the plain dialect reads the image as it is.
    Already,
    /// The journal was replayed, and its header written anew.
    Anew(Made),
}

/// What was made of a journal.
#[derive(Clone, Copy, Debug, PartialEq, Eq)]
pub struct Made {
    /// How many bytes the header of a list filled.
    pub was: u32,
    /// How many it fills from then on.
    pub now: u32,
    /// Whether lists were live, and so were replayed.
    pub live: bool,
}

/// Why an image isn't adopted. Of the refusals, the first in this order that stands is told.
#[derive(Clone, Copy, Debug, PartialEq, Eq)]
pub enum AdoptRefusal {
    /// Its volume header isn't accepted: it is no HFSX, as an `H+`, or has no journal.
    Header(HeaderRefusal),
    /// It is locked by software.
    SoftwareLocked,
    /// Its journal lies on another device, or can't be replayed in the wide dialect.
    Journal(JnlRefusal),
}
