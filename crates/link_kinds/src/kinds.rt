//! What a line on a symbolic link or a resource fork asks for, and what a walk meets.

use hfs_language::Path;
use hfs_model::KindEdit;
use hx_bytes::Units;

#[derive(Drop)]
pub enum KindCommand {
    Edit(KindEdit),
    /// The target of a link is read.
    Readlink(Path),
    /// A path is followed through symbolic links.
    Follow(Path),
}

/// A line of a session on a link or a resource fork.
#[derive(Drop)]
pub struct KindLine {
    /// From 1 to 64.
    pub session: u8,
    pub command: KindCommand,
}

/// Why a path isn't followed to its end, or a link isn't read.
#[derive(Clone, Copy, Debug, PartialEq, Eq)]
pub enum KindRefusal {
    NotFound,
    NotFolder,
    /// So many links were followed.
    TooManySteps(u32),
    BadTarget,
    NotLink,
}

/// A folder on the way from the root.
#[derive(Drop)]
pub struct Folder {
    pub name: Units,
    pub id: u32,
}

/// What a walk asks for next, or what it has come to.
pub enum Ask<'a> {
    /// What stands under this name in this folder?
    Look { parent: u32, name: &'a Units },
    /// The path leads to the folder or file with these names from the root, none of which is a link.
    Done(&'a Path),
    /// The path leads nowhere.
    No(KindRefusal),
}
