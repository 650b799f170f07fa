//! What data costs that a command puts into a file.

/// What is put into a file: its CNID, the size that it has, and the bytes that are new, from a place up to an end.
#[derive(Clone, Copy)]
pub struct Put {
    pub id: u32,
    pub old_size: u64,
    pub from: u64,
    pub end: u64,
}
