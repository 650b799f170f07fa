//! A file that is gathered before it comes to its place.
use crate::asking::Told;

/// Which file of the system a name is one of: its device, and its number there.
#[derive(Clone, Copy, Debug, PartialEq, Eq)]
pub struct Identity {
    pub device: u64,
    pub number: u64,
}

impl Identity {
    /// It as a key.
    pub(crate) fn key(self) -> (u64, u64) {
        (self.device, self.number)
    }
}

/// A file that is to be made.
#[derive(Drop)]
pub(crate) struct Wanted {
    /// Its path, as lines spell it.
    pub(crate) word: String,
    /// How it is told, the folder that it goes to, and that folder's date.
    pub(crate) told: Told,
    pub(crate) mode: u16,
    pub(crate) date: u32,
    /// Whether another file is there, which makes way.
    pub(crate) replaces: bool,
    /// Which file it is, where it has further names.
    pub(crate) identity: Option<Identity>,
}

/// A file that is gathered.
#[derive(Drop)]
pub(crate) struct Gathered {
    pub(crate) number: u64,
    pub(crate) part: String,
    pub(crate) wanted: Wanted,
    pub(crate) bytes: u64,
    pub(crate) lack: Option<String>,
    pub(crate) is_whole: bool,
}

impl Gathered {
    /// What it was gathered for.
    pub(crate) fn into_wanted(self) -> Wanted {
        let Gathered { wanted, .. } = self;
        wanted
    }
}
