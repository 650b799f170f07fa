//! Commands on symbolic links and resource forks, and what stands under a name.

use hfs_language::Path;
use hx_bytes::Bytes;

/// What makes a symbolic link, or changes or reads a resource fork.
#[derive(Drop)]
pub enum KindEdit {
    /// A symbolic link is made, whose target is this value.
    Symlink { path: Path, value: Bytes },
    /// Bytes are written into the resource fork from an offset on.
    ResourceWrite { path: Path, from: u64, value: Bytes },
    /// At most so many bytes of the resource fork are read from an offset on.
    ResourceRead { path: Path, from: u64, length: u64 },
}

/// What stands under a name in a folder.
#[derive(Drop)]
pub enum Sight {
    Absent,
    /// A folder with this id.
    Folder(u32),
    /// A file that isn't a symbolic link.
    File,
    /// A symbolic link with this target.
    Link(Bytes),
}
