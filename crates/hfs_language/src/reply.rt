//! What a command is answered with, and what watchers are told.

use crate::Refusal;
use hx_bytes::{Bytes, Listed, Units};

/// The answer to a line.
#[derive(Drop)]
pub enum Reply {
    Ok,
    Listing(Listing),
    Facts(Facts),
    Content(Bytes),
    Gauge(Gauge),
    No(Refusal),
}

/// An entry of a folder, or the name of an attribute.
#[derive(Drop)]
pub struct ListedName {
    pub name: Units,
    pub folder: bool,
}

/// The entries of a folder, or the names of attributes, of which none is a folder.
pub type Listing = Listed<ListedName>;

/// What `stat` tells. A folder's `size` is the number of its entries, and its `links` is 0.
#[derive(Clone, Copy, Debug, PartialEq, Eq)]
pub struct Facts {
    pub folder: bool,
    pub id: u32,
    pub size: u64,
    pub links: u32,
    pub mode: u16,
    pub created: u32,
    pub changed: u32,
    pub attribute: u32,
}

/// What `df` tells. Blocks are counted in blocks of `block` bytes, the capacity in sectors.
#[derive(Clone, Copy, Debug, PartialEq, Eq)]
pub struct Gauge {
    pub block: u32,
    pub total: u32,
    pub free: u32,
    /// The longest run of free blocks.
    pub longest: u32,
    /// The sectors that one transaction of the journal holds.
    pub capacity: u64,
    /// Of the extents, the catalog and the attributes.
    pub trees: [TreeGauge; 3],
}

/// The size of a B-tree in nodes.
#[derive(Clone, Copy, Debug, PartialEq, Eq)]
pub struct TreeGauge {
    pub depth: u16,
    pub nodes: u32,
    pub unused: u32,
}

/// What a watcher is told of a command that changed something.
#[derive(Drop)]
pub struct Change {
    /// The number of the line, from 0.
    pub line: u64,
    pub kind: ChangeKind,
    pub id: u32,
    pub parent: u32,
    pub name: Units,
}

#[derive(Clone, Copy, Debug, PartialEq, Eq)]
pub enum ChangeKind {
    Made,
    Removed,
    Moved,
    Linked,
    Content,
    Mode,
    Attribute,
}

/// A list of changes.
pub type Changes = Listed<Change>;
