//! A catalog over nodes in memory, whose calls are made only where what they need holds.
ghost use Rattle.std.specs.Prelude.{◌≡◌, ◌≤◌, ℕ, IsTrue, length};
ghost use Rattle.btree_node.specs.Mem.{mem_state};
ghost use Rattle.btree_edit.specs.Desk.{IsDeskOf};

use crate::records::entry;
use crate::stop::Stop;
use btree_edit::{Desk, Inserted, Removed};
use btree_node::{NodeStore, TreeShape};
use cat_records::{CatRecord, ThreadRecord};
use catalog::{Children, Moved, add, by_id, children, lookup, move_entry, remove, update};
use hx_bytes::Units;
use node_kit::Untold;
use std::alloc::Global;

/// A catalog, and a desk for it.
#[derive(Drop)]
pub struct Shelf {
    store: Untold,
    desk: Desk,
    ghost fits: { IsDeskOf (mem_state store.nodes).shape.node_size desk },
}

impl Shelf {
    /// A catalog without an entry, of so many nodes of 4,096 bytes.
    pub fn new(alloc: Global, nodes: u16) -> Result<Shelf, Stop> {
        let store = Untold::new(alloc, 4096, u32::from(nodes) + 1)?;
        let desk = Desk::new(alloc, 4096)?;
        Ok(Shelf { store, desk })
    }

    /// The numbers of the tree's header.
    pub fn shape(&self) -> TreeShape {
        self.store.shape()
    }

    /// How many nodes were read.
    pub fn count_loads(&self) -> u64 {
        self.store.count_loads()
    }

    /// Whether nodes have a size that the format allows the tree.
    fn is_wide(&self) -> bool
        ensures { IsTrue result → 4096 ≤ (mem_state self.now.store.nodes).shape.node_size }
    {
        self.store.shape().node_size >= 4096
    }

    /// Adds the entry with a CNID and the number 0.
    pub fn add(
        &mut self,
        alloc: Global,
        parent: u32,
        name: &Units,
        id: u32,
    ) -> Result<Inserted, Stop> {
        if !is_name(name) || !self.is_wide() {
            return Err(Stop::Room);
        }
        let rec = entry(id, 0);
        let answer = add(alloc, &mut self.store, &mut self.desk, parent, name, &rec)?;
        Ok(answer)
    }

    /// Gives the entry with a CNID another number.
    pub fn update(
        &mut self,
        alloc: Global,
        parent: u32,
        name: &Units,
        id: u32,
        count: u32,
    ) -> Result<Removed, Stop> {
        if !is_name(name) || !self.is_wide() {
            return Err(Stop::Room);
        }
        let rec = entry(id, count);
        let answer = update(alloc, &mut self.store, &mut self.desk, parent, name, &rec)?;
        Ok(answer)
    }

    /// Removes an entry.
    pub fn remove(&mut self, alloc: Global, parent: u32, name: &Units) -> Result<Removed, Stop> {
        if !is_name(name) || !self.is_wide() {
            return Err(Stop::Room);
        }
        let answer = remove(alloc, &mut self.store, &mut self.desk, parent, name)?;
        Ok(answer)
    }

    /// Moves an entry.
    pub fn move_on(
        &mut self,
        alloc: Global,
        from: u32,
        old: &Units,
        to: u32,
        new: &Units,
    ) -> Result<Moved, Stop> {
        if !is_name(old) || !is_name(new) || !self.is_wide() {
            return Err(Stop::Room);
        }
        let answer = move_entry(alloc, &mut self.store, &mut self.desk, from, old, to, new)?;
        Ok(answer)
    }

    /// The record of a name; none where there is no such name.
    pub fn record(
        &mut self,
        alloc: Global,
        parent: u32,
        name: &Units,
    ) -> Result<Option<CatRecord>, Stop> {
        if !is_name(name) {
            return Err(Stop::Room);
        }
        let found = lookup(alloc, &mut self.store, &mut self.desk, parent, name)?;
        Ok(found)
    }

    /// The thread of a CNID.
    pub fn thread(&mut self, alloc: Global, id: u32) -> Result<Option<ThreadRecord>, Stop> {
        let found = by_id(alloc, &mut self.store, &mut self.desk, id)?;
        Ok(found)
    }

    /// The entries of a folder.
    pub fn children(&mut self, alloc: Global, parent: u32) -> Result<Children, Stop> {
        let list = children(alloc, &mut self.store, &mut self.desk, parent)?;
        Ok(list)
    }
}

/// Whether a name has a length that the catalog takes.
fn is_name(name: &Units) -> bool
    ensures some { IsTrue result → 1 ≤ length name.now }
    ensures most { IsTrue result → length name.now ≤ 255 }
{
    !name.is_empty() && name.len() <= 255
}
