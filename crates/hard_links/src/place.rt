//! Where an entry stands.
use hx_bytes::Units;

/// A name in a folder.
#[derive(Drop)]
pub struct EntryAt {
    pub parent: u32,
    pub name: Units,
}
