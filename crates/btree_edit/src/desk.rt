//! The scratch nodes of the calls, and the pair that the last search left.
ghost use Rattle.std.specs.Prelude.{◌≡◌, ◌≤◌, ◌+◌, ◌++◌, [], length, take, IfOk};
ghost use Rattle.btree_node.specs.Node.{IsNodeSize};
ghost use Rattle.btree_node.specs.Levels.{key_of, value_of};
ghost use Rattle.btree_edit.specs.Held.{HeldPair};
ghost use Rattle.btree_edit.specs.Desk.{IsDeskOf, HoldsNone};

use crate::search::key_part;
use btree_node::Node;
use hx_bytes::OutOfMemory;
use std::alloc::Global;
use std::marker::Model;

/// A pair in a buffer.
#[derive(Drop)]
pub struct Held {
    bytes: Vec<u8>,
    key_len: usize,
    len: usize,
}

impl Model for Held {
    ghost use Rattle.std.specs.Prelude.{length, take, drop, ◌≤◌};
    ghost use Rattle.btree_edit.specs.Held.{HeldPair};

    ghost Value = { HeldPair };

    ghost view = { λ held. record { room = length held.bytes.items; key = take held.key_len (take held.len held.bytes.items); value = drop held.key_len (take held.len held.bytes.items) } };

    ghost invariant = { λ held. (held.key_len ≤ held.len) × (held.len ≤ length held.bytes.items) };
}

impl Held {
    fn new(alloc: Global, size: u32) -> Result<Held, OutOfMemory>
        ensures room { IfOk result (λ held. held.room ≡ size) }
        ensures key { IfOk result (λ held. held.key ≡ []) }
        ensures value { IfOk result (λ held. held.value ≡ []) }
    {
        let bytes = vec![in alloc; 0u8; size as usize]?;
        Ok(Held {
            bytes,
            key_len: 0,
            len: 0,
        })
    }

    pub(crate) fn forget(&mut self)
        ensures room { self.new.room ≡ self.old.room }
        ensures key { self.new.key ≡ [] }
        ensures value { self.new.value ≡ [] }
    {
        self.key_len = 0;
        self.len = 0;
    }

    /// Keeps the key and the value of a record.
    pub(crate) fn keep(&mut self, item: &[u8])
        requires { length item.now ≤ self.old.room }
        ensures room { self.new.room ≡ self.old.room }
        ensures key { self.new.key ≡ key_of item.now }
        ensures value { self.new.value ≡ value_of item.now }
    {
        let len = item.len();
        put_front(&mut self.bytes, item);
        self.key_len = key_part(item).len();
        self.len = len;
    }

    /// Keeps a key and a value.
    pub(crate) fn put(&mut self, key: &[u8], value: &[u8])
        requires { length key.now + length value.now ≤ self.old.room }
        ensures room { self.new.room ≡ self.old.room }
        ensures key { self.new.key ≡ key.now }
        ensures value { self.new.value ≡ value.now }
    {
        let key_len = key.len();
        let len = key_len + value.len();
        put_pair(&mut self.bytes, key, value);
        self.key_len = key_len;
        self.len = len;
    }

    /// How many bytes the buffer has.
    pub(crate) fn room(&self) -> usize
        ensures { result ≡ self.now.room }
    {
        self.bytes.len()
    }

    /// How many bytes the pair takes in a node, with its offset.
    pub(crate) fn size(&self) -> usize
        ensures size { result ≡ length self.now.key + length self.now.value + 2 }
        ensures within { result ≤ self.now.room + 2 }
    {
        self.len + 2
    }

    /// The key with the value behind it.
    pub(crate) fn record(&self) -> &[u8]
        ensures { result.now ≡ self.now.key ++ self.now.value }
    {
        &self.bytes[..self.len]
    }

    pub(crate) fn key(&self) -> &[u8]
        ensures { result.now ≡ self.now.key }
    {
        &self.bytes[..self.key_len]
    }

    pub(crate) fn value(&self) -> &[u8]
        ensures { result.now ≡ self.now.value }
    {
        &self.bytes[self.key_len..self.len]
    }
}

fn put_front(bytes: &mut [u8], item: &[u8])
    requires { length item.now ≤ length bytes.old }
    ensures front { take (length item.now) bytes.new ≡ item.now }
    ensures size { length bytes.new ≡ length bytes.old }
{
    bytes[..item.len()].copy_from_slice(item);
}

fn put_pair(bytes: &mut [u8], key: &[u8], value: &[u8])
    requires { length key.now + length value.now ≤ length bytes.old }
    ensures front { take (length key.now + length value.now) bytes.new ≡ key.now ++ value.now }
    ensures size { length bytes.new ≡ length bytes.old }
{
    let between = key.len();
    bytes[..between].copy_from_slice(key);
    bytes[between..between + value.len()].copy_from_slice(value);
}

/// A step of the way from the root to a leaf: a node, and the place in it.
#[derive(Clone, Copy, Debug)]
pub struct PathStep {
    pub(crate) node: u32,
    pub(crate) at: u16,
}

/// What the calls of a tree work on, so that none of them takes memory.
#[derive(Drop)]
pub struct Desk {
    pub(crate) node: Node,
    pub(crate) other: Node,
    pub(crate) held: Held,
    /// The records that a level hands on to the one above.
    pub(crate) first: Held,
    pub(crate) second: Held,
    /// The way from the root, first.
    pub(crate) path: [PathStep; 12],
}

impl Desk {
    /// A desk for trees of this node size: a power of two from 512 to 32,768.
    pub fn new(alloc: Global, node_size: u32) -> Result<Desk, OutOfMemory>
        requires { IsNodeSize node_size }
        ensures size { IfOk result (λ desk. IsDeskOf node_size desk) }
        ensures empty { IfOk result (λ desk. HoldsNone desk) }
    {
        let node = Node::new(alloc, node_size)?;
        let other = Node::new(alloc, node_size)?;
        let held = Held::new(alloc, node_size)?;
        let first = Held::new(alloc, node_size)?;
        let second = Held::new(alloc, node_size)?;
        Ok(Desk {
            node,
            other,
            held,
            first,
            second,
            path: [PathStep { node: 0, at: 0 }; 12],
        })
    }

    /// The key of the pair that the last `find` or `next` left, with its length; empty where it left none.
    pub fn key(&self) -> &[u8]
        ensures { result.now ≡ self.now.held.key }
    {
        self.held.key()
    }

    /// The value of that pair.
    pub fn value(&self) -> &[u8]
        ensures { result.now ≡ self.now.held.value }
    {
        self.held.value()
    }
}
