//! A volume in service.

use alloc_bitmap::Bitmap;
use btree_edit::Desk;
use btree_file::TreeFile;
use fork_map::ExtentList;
use volume_header::VolumeHeader;

/// The root folder's CNID (TN1150, "Catalog Node IDs").
pub const ROOT: u32 = 2;

/// One of the three trees, and what its calls work on.
#[derive(Drop)]
pub struct Tree {
    pub file: TreeFile,
    pub desk: Desk,
}

/// What an undo brings back, beside the blocks and the trees.
#[derive(Clone, Copy)]
pub struct Kept {
    pub header: VolumeHeader,
    pub private: Option<u32>,
    pub shrunk: Option<u32>,
}

/// A growth of a file by more zero blocks than one step fills: the sizes before and after it, the blocks that it takes, and which of them hold
/// zeros by now: `done` of them, from `place` on.
#[derive(Drop)]
pub struct Filling {
    pub id: u32,
    pub old_size: u64,
    pub new_size: u64,
    pub blocks: ExtentList,
    pub place: u32,
    pub done: u32,
}

/// A volume in service: its header, which of its blocks are used, and its three trees.
#[derive(Drop)]
pub struct Volume {
    pub header: VolumeHeader,
    pub map: Bitmap,
    pub extents: Tree,
    pub catalog: Tree,
    pub attributes: Tree,
    /// The CNID of the private folder, where there is one.
    pub private: Option<u32>,
    /// The file that was shrunk last.
    pub shrunk: Option<u32>,
    /// How many sectors one transaction of the journal holds.
    pub capacity: u64,
    pub kept: Kept,
    /// The growth in hand, where zero blocks were filled for one.
    pub filling: Option<Filling>,
}
