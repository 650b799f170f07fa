// A tree over nodes in memory that tell nothing, so that an edit without room fails.
ghost use Rattle.std.specs.Prelude.{◌≡◌, ◌≤◌, ◌<◌, ◌+◌, ◌*◌, ◌/◌, ◌-◌, IsTrue, length};
ghost use Rattle.btree_node.specs.Node.{IsNodeSize};
ghost use Rattle.btree_node.specs.Mem.{mem_state};
ghost use Rattle.btree_edit.specs.Desk.{IsDeskOf};

use btree_edit::{Desk, Found, Inserted, Removed, find, insert, next, remove, replace};
use btree_node::{KeyOrder, Node, NodeStore, TreeShape};
use hx_bytes::OutOfMemory;
use node_kit::Untold;
use std::alloc::Global;

/// A tree, and a desk for it.
#[derive(Drop)]
pub struct Grove {
    pub store: Untold,
    desk: Desk,
    page: Node,
    ghost fits: { IsDeskOf (mem_state store.nodes).shape.node_size desk },
}

impl Grove {
    /// A tree without a pair.
    pub fn new(alloc: Global, node_size: u32, total: u32) -> Result<Grove, OutOfMemory>
        requires size { IsNodeSize node_size }
        requires some { 0 < total }
    {
        let store = Untold::new(alloc, node_size, total)?;
        let desk = Desk::new(alloc, node_size)?;
        let page = Node::new(alloc, node_size)?;
        Ok(Grove { store, desk, page })
    }

    /// The numbers of the tree's header.
    pub fn shape(&self) -> TreeShape
        ensures { result ≡ (mem_state self.now.store.nodes).shape }
    {
        self.store.shape()
    }

    /// Begins an edit: what is written is counted from here on. Gives the shape as it is.
    pub fn start(&mut self) -> TreeShape {
        self.store.nodes.commit(u32::MAX);
        self.store.shape()
    }

    /// Begins an edit with room for so many writes.
    pub fn limit(&mut self, writes: u32) {
        self.store.nodes.commit(writes);
    }

    /// Whether a pair may stand in a leaf.
    fn is_short(&self, key: &[u8], value: &[u8]) -> bool
        ensures { IsTrue result → length key.now + length value.now ≤ (mem_state self.now.store.nodes).shape.node_size / 2 - 10 }
    {
        let most = (self.store.shape().node_size / 2).saturating_sub(10) as usize;
        key.len() <= most && value.len() <= most - key.len()
    }

    /// Adds a pair; none where it mustn't be asked for, or where that failed.
    pub fn add<K: KeyOrder>(&mut self, key: &[u8], value: &[u8]) -> Option<Inserted> {
        if !K::valid(key) || !self.is_short(key, value) {
            return None;
        }
        insert::<Untold, K>(&mut self.store, &mut self.desk, key, value).ok()
    }

    /// Removes a pair.
    pub fn take_out<K: KeyOrder>(&mut self, key: &[u8]) -> Option<Removed> {
        if !K::valid(key) {
            return None;
        }
        remove::<Untold, K>(&mut self.store, &mut self.desk, key).ok()
    }

    /// Gives a pair another value.
    pub fn change<K: KeyOrder>(&mut self, key: &[u8], value: &[u8]) -> Option<Removed> {
        if !K::valid(key) || !self.is_short(key, value) {
            return None;
        }
        replace::<Untold, K>(&mut self.store, &mut self.desk, key, value).ok()
    }

    /// Whether the tree has a key with this value.
    pub fn has<K: KeyOrder>(&mut self, key: &[u8], value: &[u8]) -> bool {
        if !K::valid(key) {
            return false;
        }
        let found = find::<Untold, K>(&mut self.store, &mut self.desk, key);
        matches!(found, Ok(Found::At { .. })) && self.desk.value() == value
    }

    /// Whether a key is the next one above another.
    pub fn follows<K: KeyOrder>(&mut self, key: &[u8], above: &[u8]) -> bool {
        if !K::valid(key) {
            return false;
        }
        let found = next::<Untold, K>(&mut self.store, &mut self.desk, key);
        found == Ok(true) && self.desk.key() == above
    }

    /// Whether no key is above this one.
    pub fn is_last<K: KeyOrder>(&mut self, key: &[u8]) -> bool {
        if !K::valid(key) {
            return false;
        }
        next::<Untold, K>(&mut self.store, &mut self.desk, key) == Ok(false)
    }

    /// Reads a node into the page.
    pub fn read(&mut self, node: u32) -> bool {
        let shape = self.store.shape();
        node < shape.total
            && self.page.bytes().len() == shape.node_size as usize
            && self.store.load(node, &mut self.page).is_ok()
    }

    /// The node that was read last.
    pub fn page(&self) -> &Node {
        &self.page
    }

    /// Whether a node is in use.
    pub fn is_used(&self, node: u32) -> bool {
        node < self.shape().total && self.store.nodes.is_used(node)
    }
}
