//! Blocks at the end of a file's fork, given back.

use fork_map::ExtentList;
use hx_bytes::Extent;

/// A fork of which one extent at the end goes, or the end of one.
#[derive(Drop)]
pub struct Cut {
    pub stays: ExtentList,
    pub goes: Extent,
}
