//! Attributes over nodes in memory, whose calls are made only where what they need holds.
ghost use Rattle.std.specs.Prelude.{◌≡◌, ◌≤◌, ℕ, IsTrue, length};
ghost use Rattle.fork_map.specs.Blocks.{blocks_of};
ghost use Rattle.btree_node.specs.Mem.{mem_state};
ghost use Rattle.btree_edit.specs.Desk.{IsDeskOf};

use crate::stop::Stop;
use attributes::{Deleted, Dropped, ValueAt, delete, drop_all, list, set, set_fork, value_of};
use btree_edit::Desk;
use btree_node::{NodeStore, TreeShape};
use fork_map::ExtentList;
use hx_bytes::{Names, Units};
use node_kit::Untold;
use std::alloc::Global;

/// Attributes, and a desk for their tree.
#[derive(Drop)]
pub struct Drawer {
    store: Untold,
    desk: Desk,
    ghost fits: { IsDeskOf (mem_state store.nodes).shape.node_size desk },
}

impl Drawer {
    /// A tree without an attribute, of so many nodes of 4,096 bytes.
    pub fn of_4096(alloc: Global, nodes: u16) -> Result<Drawer, Stop> {
        let store = Untold::new(alloc, 4096, u32::from(nodes) + 1)?;
        let desk = Desk::new(alloc, 4096)?;
        Ok(Drawer { store, desk })
    }

    /// A tree without an attribute, of so many nodes of 8,192 bytes.
    pub fn of_8192(alloc: Global, nodes: u16) -> Result<Drawer, Stop> {
        let store = Untold::new(alloc, 8192, u32::from(nodes) + 1)?;
        let desk = Desk::new(alloc, 8192)?;
        Ok(Drawer { store, desk })
    }

    /// The numbers of the tree's header.
    pub fn shape(&self) -> TreeShape {
        self.store.shape()
    }

    /// How many nodes were read.
    pub fn count_loads(&self) -> u64 {
        self.store.count_loads()
    }

    /// Whether nodes have a size that the format allows the tree.
    fn is_wide(&self) -> bool
        ensures { IsTrue result → 4096 ≤ (mem_state self.now.store.nodes).shape.node_size }
    {
        self.store.shape().node_size >= 4096
    }

    /// Gives an attribute a value that stands in its record, and answers the blocks that its old one had.
    pub fn set(
        &mut self,
        alloc: Global,
        id: u32,
        name: &Units,
        value: &[u8],
    ) -> Result<ExtentList, Stop> {
        if !is_name(name) || !self.is_wide() || value.len() > 1700 {
            return Err(Stop::Room);
        }
        let blocks = set(
            alloc,
            &mut self.store,
            &mut self.desk,
            id,
            name,
            value,
            MOST_RECORDS,
        )?;
        Ok(blocks)
    }

    /// Gives an attribute a value of so many bytes in a fork, and answers the blocks that its old one had.
    pub fn set_fork(
        &mut self,
        alloc: Global,
        id: u32,
        name: &Units,
        size: u64,
        fork: &ExtentList,
    ) -> Result<ExtentList, Stop> {
        if !is_name(name) || !self.is_wide() || size <= 1700 || size > 131_072 || !has_few(fork) {
            return Err(Stop::Room);
        }
        let blocks = set_fork(
            alloc,
            &mut self.store,
            &mut self.desk,
            id,
            name,
            size,
            fork,
            MOST_RECORDS,
        )?;
        Ok(blocks)
    }

    /// Removes an attribute.
    pub fn delete(&mut self, alloc: Global, id: u32, name: &Units) -> Result<Deleted, Stop> {
        if !is_name(name) || !self.is_wide() {
            return Err(Stop::Room);
        }
        let answer = delete(
            alloc,
            &mut self.store,
            &mut self.desk,
            id,
            name,
            MOST_RECORDS,
        )?;
        Ok(answer)
    }

    /// The value of an attribute.
    pub fn value(&mut self, alloc: Global, id: u32, name: &Units) -> Result<Option<ValueAt>, Stop> {
        if !is_name(name) {
            return Err(Stop::Room);
        }
        let found = value_of(alloc, &mut self.store, &mut self.desk, id, name)?;
        Ok(found)
    }

    /// The names of the attributes of a folder or file.
    pub fn names(&mut self, alloc: Global, id: u32) -> Result<Names, Stop> {
        let names = list(alloc, &mut self.store, &mut self.desk, id)?;
        Ok(names)
    }

    /// Removes the attributes of a folder or file, so many records at most, and answers how many there were, and their blocks.
    pub fn drop_all(&mut self, alloc: Global, id: u32, most: u32) -> Result<Dropped, Stop> {
        if !self.is_wide() {
            return Err(Stop::Room);
        }
        let dropped = drop_all(alloc, &mut self.store, &mut self.desk, id, most)?;
        Ok(dropped)
    }
}

/// The most records of an attribute of 131,072 bytes: each of its blocks is an extent.
const MOST_RECORDS: u32 = 32;

/// Whether a fork has as few blocks as a value may have.
fn has_few(fork: &ExtentList) -> bool
    ensures { IsTrue result → length (blocks_of fork.now) ≤ 256 }
{
    fork.block_at(256).is_none()
}

/// Whether a name has a length that attributes take.
fn is_name(name: &Units) -> bool
    ensures some { IsTrue result → 1 ≤ length name.now }
    ensures most { IsTrue result → length name.now ≤ 127 }
{
    !name.is_empty() && name.len() <= 127
}
