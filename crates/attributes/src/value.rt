//! A value of an attribute, and what the calls that take values away answer.

use fork_map::ExtentList;
use hx_bytes::Bytes;

/// A value, as the records of its attribute tell it.
#[derive(Drop)]
pub enum ValueAt {
    /// It stands in its record.
    Inline(Bytes),
    /// Its bytes are the first `size` of these blocks.
    Blocks { size: u64, fork: ExtentList },
}

/// How the removal of an attribute ended.
#[derive(Drop)]
pub enum Deleted {
    /// The attribute is gone. Its value had these blocks.
    Done(ExtentList),
    /// The folder or file has no attribute of the name.
    NoAttribute,
}

/// The attributes of a folder or file that were removed.
#[derive(Drop)]
pub struct Dropped {
    pub count: u32,
    /// The blocks that their values had.
    pub blocks: ExtentList,
}
