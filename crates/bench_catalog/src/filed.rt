//! A catalog in a tree file over sectors in memory, whose calls are made only where what they need holds.
ghost use Rattle.std.specs.Prelude.{◌≡◌, ◌≤◌, ◌+◌, ◌*◌, ℕ, IsTrue, length};
ghost use Rattle.btree_edit.specs.Desk.{IsDeskOf};
ghost use Rattle.btree_file.specs.Standing.{numbers_of, LiesInside};
ghost use Rattle.alloc_bitmap.specs.Untold.{told_none};

use crate::calls::{add_entry, list_entries, remove_entry};
use crate::made::{PER_NODE, bare_file};
use btree_edit::{Desk, Inserted, Removed};
use btree_file::TreeFile;
use btree_node::TreeShape;
use catalog::Children;
use entry_kit::{Stop, entry};
use fork_map::ExtentList;
use hx_bytes::{Extent, Units};
use sector_kit::Sectors;
use std::alloc::Global;
use tree_kit::lies_below;

/// A catalog's file in sectors, and a desk for it.
#[derive(Drop)]
pub struct Filed {
    space: Sectors,
    tree: TreeFile,
    desk: Desk,
    ghost inside: { LiesInside tree (told_none (length space.list.items)) },
    ghost fits: { IsDeskOf (numbers_of tree).node_size desk },
}

/// One run of blocks from the first one on.
fn fork_of(alloc: Global, blocks: u32) -> Result<ExtentList, Stop> {
    let mut fork = ExtentList::new(alloc);
    fork.push(Extent {
        start: 0,
        count: blocks,
    })?;
    Ok(fork)
}

impl Filed {
    /// A catalog without an entry, in so many nodes of 4,096 bytes.
    pub fn new(alloc: Global, nodes: u16) -> Result<Filed, Stop> {
        let nodes = u32::from(nodes).clamp(1, 30_720);
        let mut space = bare_file(alloc, nodes)?;
        let fork = fork_of(alloc, nodes)?;
        if !lies_below(&fork, PER_NODE, space.list.len() as u64) {
            return Err(Stop::Room);
        }
        let tree = TreeFile::attach(alloc, &mut space, &fork, 4096)?;
        let desk = Desk::new(alloc, tree.shape().node_size)?;
        Ok(Filed { space, tree, desk })
    }

    /// The numbers of the tree's header.
    pub fn shape(&self) -> TreeShape
        ensures { result ≡ numbers_of self.now.tree }
    {
        self.tree.shape()
    }

    /// How many nodes were read, each of eight sectors.
    pub fn count_loads(&self) -> u64 {
        self.space.reads / u64::from(PER_NODE)
    }

    /// Whether nodes have a size that the format allows the catalog.
    fn is_wide(&self) -> bool
        ensures { IsTrue result → 4096 ≤ (numbers_of self.now.tree).node_size }
    {
        self.shape().node_size >= 4096
    }

    /// Adds the entry with a CNID.
    pub fn add(
        &mut self,
        alloc: Global,
        parent: u32,
        name: &Units,
        id: u32,
    ) -> Result<Inserted, Stop> {
        if !is_name(name) || !self.is_wide() {
            return Err(Stop::Room);
        }
        let rec = entry(id, 0);
        let answer = add_entry(
            alloc,
            &mut self.tree,
            &mut self.space,
            &mut self.desk,
            parent,
            name,
            &rec,
        )?;
        Ok(answer)
    }

    /// Removes an entry.
    pub fn remove(&mut self, alloc: Global, parent: u32, name: &Units) -> Result<Removed, Stop> {
        if !is_name(name) || !self.is_wide() {
            return Err(Stop::Room);
        }
        let answer = remove_entry(
            alloc,
            &mut self.tree,
            &mut self.space,
            &mut self.desk,
            parent,
            name,
        )?;
        Ok(answer)
    }

    /// The entries of a folder.
    pub fn children(&mut self, alloc: Global, parent: u32) -> Result<Children, Stop> {
        let list = list_entries(
            alloc,
            &mut self.tree,
            &mut self.space,
            &mut self.desk,
            parent,
        )?;
        Ok(list)
    }
}

/// Whether a name has a length that the catalog takes.
fn is_name(name: &Units) -> bool
    ensures some { IsTrue result → 1 ≤ length name.now }
    ensures most { IsTrue result → length name.now ≤ 255 }
{
    !name.is_empty() && name.len() <= 255
}
