//! The structures of a journal as values, and why a journal is refused.
use hx_bytes::Order;

/// The journal info block (TN1150, "Journal Info Block"): where the journal lies.
#[derive(Clone, Copy, Debug, PartialEq, Eq)]
pub struct Info {
    pub flags: u32,
    /// The journal's first byte, counted from the volume's start.
    pub offset: u64,
    /// The journal's length in bytes, its header included.
    pub size: u64,
}

/// The journal header (TN1150, "Journal Header"). Offsets are in bytes from the journal's first byte.
#[derive(Clone, Copy, Debug, PartialEq, Eq)]
pub struct Header {
    pub order: Order,
    pub start: u64,
    pub end: u64,
    pub size: u64,
    /// The bytes that the header of each block list fills.
    pub blhdr: u32,
}

/// The head of a block list (TN1150, "Block List Header").
#[derive(Clone, Copy, Debug, PartialEq, Eq)]
pub struct ListHead {
    /// The number of entries, entry 0 included.
    pub entries: u16,
    /// The bytes of the list: its header and the blocks that follow it.
    pub used: u32,
    /// Whether it is the last list of its transaction.
    pub last: bool,
}

/// An entry of a block list (TN1150, "Block Info").
#[derive(Clone, Copy, Debug, PartialEq, Eq)]
pub struct Entry {
    /// The block's first sector of 512 bytes on the volume, or all ones for bytes that are skipped.
    pub bnum: u64,
    pub bsize: u32,
    pub next: u32,
}

/// Why a journal is refused.
#[derive(Clone, Copy, Debug, PartialEq, Eq)]
pub enum JnlRefusal {
    /// The first bad field of the info block, by its byte offset there.
    BadInfo(u32),
    /// The journal lies on another device.
    OtherDevice,
    /// The first bad field of the journal header, by its byte offset there.
    BadHeader(u32),
    /// A block list that breaks the format, by its byte offset in the journal.
    BadList(u64),
    /// The version of the system that last mounted the volume, and that doesn't keep this journal.
    ForeignJournal(u32),
}
