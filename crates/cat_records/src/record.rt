//! The records of the catalog (TN1150, "Catalog File Data").

use hx_bytes::{ForkRecord, Units};

/// What a folder's record and a file's have alike. Dates are seconds since 1 January 1904.
#[derive(Clone, Copy, Debug, PartialEq, Eq)]
pub struct EntryFields {
    pub flags: u16,
    /// The valence of a folder, or the reserved word there of a file.
    pub count: u32,
    pub id: u32,
    pub created: u32,
    pub changed: u32,
    pub attribute: u32,
    pub accessed: u32,
    pub backup: u32,
    pub owner: u32,
    pub group: u32,
    pub admin_flags: u8,
    pub owner_flags: u8,
    pub mode: u16,
    pub special: u32,
    pub finder: [u8; 32],
    pub encoding: u32,
    /// The reserved word at the end.
    pub rest: u32,
}

/// A folder.
#[derive(Clone, Copy, Debug, PartialEq, Eq)]
pub struct FolderRecord {
    pub fields: EntryFields,
}

/// A file, with its forks.
#[derive(Clone, Copy, Debug, PartialEq, Eq)]
pub struct FileRecord {
    pub fields: EntryFields,
    pub data_fork: ForkRecord,
    pub resource_fork: ForkRecord,
}

/// Where the folder or file of an id is: its parent and its name there.
#[derive(Drop)]
pub struct ThreadRecord {
    pub of_file: bool,
    /// The reserved word behind the type.
    pub spare: i16,
    pub parent: u32,
    pub name: Units,
}

/// A record of the catalog.
#[derive(Drop)]
pub enum CatRecord {
    Folder(FolderRecord),
    File(FileRecord),
    Thread(ThreadRecord),
}
