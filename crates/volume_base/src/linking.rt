//! `ln`: another name of a file.

/// What the record under a name is: a link, with the number of its file; a file's own record; or neither.
#[derive(Clone, Copy)]
pub enum NameRecord {
    Link(u32),
    Own,
    Other,
}
