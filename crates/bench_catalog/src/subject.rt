//! The catalog that is measured.
use crate::filed::Filed;
use btree_node::TreeShape;
use catalog::{Children, Inserted, Removed};
use entry_kit::{Shelf, Stop};
use hx_bytes::Units;
use std::alloc::Global;

/// A catalog over nodes in memory, or in a tree file over sectors in memory.
#[derive(Drop)]
pub enum Subject {
    Nodes(Shelf),
    File(Filed),
}

impl Subject {
    /// A catalog without an entry, of so many nodes of 4,096 bytes.
    pub fn new(alloc: Global, is_filed: bool, nodes: u16) -> Result<Subject, Stop> {
        if is_filed {
            return Ok(Subject::File(Filed::new(alloc, nodes)?));
        }
        Ok(Subject::Nodes(Shelf::new(alloc, nodes)?))
    }

    /// The numbers of the tree's header.
    pub fn shape(&self) -> TreeShape {
        match self {
            Subject::Nodes(shelf) => shelf.shape(),
            Subject::File(filed) => filed.shape(),
        }
    }

    /// How many nodes were read.
    pub fn count_loads(&self) -> u64 {
        match self {
            Subject::Nodes(shelf) => shelf.count_loads(),
            Subject::File(filed) => filed.count_loads(),
        }
    }

    /// Adds the entry with a CNID.
    pub fn add(
        &mut self,
        alloc: Global,
        parent: u32,
        name: &Units,
        id: u32,
    ) -> Result<Inserted, Stop> {
        match self {
            Subject::Nodes(shelf) => shelf.add(alloc, parent, name, id),
            Subject::File(filed) => filed.add(alloc, parent, name, id),
        }
    }

    /// Removes an entry.
    pub fn remove(&mut self, alloc: Global, parent: u32, name: &Units) -> Result<Removed, Stop> {
        match self {
            Subject::Nodes(shelf) => shelf.remove(alloc, parent, name),
            Subject::File(filed) => filed.remove(alloc, parent, name),
        }
    }

    /// The entries of a folder.
    pub fn children(&mut self, alloc: Global, parent: u32) -> Result<Children, Stop> {
        match self {
            Subject::Nodes(shelf) => shelf.children(alloc, parent),
            Subject::File(filed) => filed.children(alloc, parent),
        }
    }
}
