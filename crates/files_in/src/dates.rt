//! The dates that entries get.
use files_talk::{Date, date_of};

/// How the dates of entries are made.
#[derive(Clone, Copy, Debug, PartialEq, Eq)]
pub enum Dates {
    /// Each has its own, but at most this one, in seconds since 1970.
    Keep { most: i64 },
    /// All have this one, in seconds since 1970.
    One(i64),
}

impl Dates {
    /// The date of an entry that was changed at this moment, in seconds since 1970.
    pub(crate) fn date(self, changed: i64) -> Date {
        match self {
            Dates::Keep { most } => date_of(changed.min(most)),
            Dates::One(moment) => date_of(moment),
        }
    }
}
