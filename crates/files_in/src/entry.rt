//! Entries of a folder of the system, and folders whose entries are still to be put.
use crate::ground::Found;
use crate::listing::Attributes;

/// An entry that is to be put.
#[derive(Drop)]
pub(crate) struct Entry {
    /// Its path in the system.
    pub(crate) shown: String,
    /// Its path in the volume, as lines spell it.
    pub(crate) word: String,
    pub(crate) attributes: Attributes,
}

/// An entry of which it was asked whether it is there, and what was found where that is known.
#[derive(Drop)]
pub(crate) struct Waiting {
    pub(crate) entry: Entry,
    pub(crate) found: Option<Found>,
}

/// A folder whose entries are still to be put.
#[derive(Drop)]
pub(crate) struct Open {
    pub(crate) shown: String,
    pub(crate) word: String,
    /// The date that it is to have.
    pub(crate) date: u32,
    pub(crate) mode: u16,
    /// The date that it has, where that is known.
    pub(crate) has: Option<u32>,
    /// Whether it was made by this run, so that nothing was in it.
    pub(crate) fresh: bool,
}

/// The folder whose entries are put.
#[derive(Drop)]
pub(crate) struct Here {
    pub(crate) open: Open,
    /// The names that are still to be put, the next one last.
    pub(crate) names: Vec<String>,
    /// Its folders, in the order in which they were put.
    pub(crate) folders: Vec<Open>,
    /// Whether something was made in it under its date.
    pub(crate) touched: bool,
}
