//! A buffer of one node, seen as its bytes; what they mean is said by the words of `specs/Node.antt`.
ghost use Rattle.std.specs.Prelude.{◌≡◌, ◌<◌, ◌≤◌, ◌+◌, ◌*◌, ◌/◌, ◌++◌, [], ◌^◌, ℕ, true, false, length, replicate, insert, remove, slice_set, slice_index_or, IfOk, IsTrue, ◌↔◌};
ghost use Rattle.hx_bytes.specs.Field.{put_at};
ghost use Rattle.flag_rows.specs.Bits.{bit_of};
ghost use Rattle.btree_node.specs.Node.{IsNodeSize, IsNode, IsNodeOf, SameHead, SetsLinks, ClearsNode, items, next_of, back_of, room_beside};
ghost use Rattle.btree_node.specs.TreeFile.{tree_head, shape_of, SetsShape, SetsBit};

use crate::edits::{insert_record, overwrite_record, pack, remove_record};
use crate::head::{clear, set_links};
use crate::header::{read_shape, write_shape};
use crate::map::{first_clear, set_bit};
use crate::reads::{count, is_node_of, record_at, room_left};
use crate::store::TreeShape;
use hx_bytes::{OutOfMemory, Sector, read_be32};
use std::alloc::Global;
use std::marker::Model;

/// A buffer of one node (TN1150, "Node Structure").
#[derive(Drop)]
pub struct Node {
    bytes: Vec<u8>,
}

impl Model for Node {
    ghost use Rattle.std.specs.Prelude.{List, ℕ, length};
    ghost use Rattle.btree_node.specs.Node.{IsNodeSize};

    ghost Value = { List ℕ };

    ghost view = { λ node. node.bytes.items };

    ghost invariant = { λ node. IsNodeSize (length node.bytes.items) };
}

impl Node {
    /// A node of zeros. The size is a power of two from 512 to 32,768.
    pub fn new(alloc: Global, size: u32) -> Result<Node, OutOfMemory>
        requires { IsNodeSize size }
        ensures { IfOk result (λ node. node ≡ replicate size 0) }
    {
        let bytes = vec![in alloc; 0u8; size as usize]?;
        Ok(Node { bytes })
    }

    /// The node's bytes.
    pub fn bytes(&self) -> &[u8]
        ensures value { result.now ≡ self.now }
        ensures size { IsNodeSize (length self.now) }
    {
        &self.bytes
    }

    #[tactic(auto, unfolding(crate::specs::Node::next_of, crate::specs::Node::back_of))]
    /// fLink and bLink: the next node of the same height and the one before it, or 0.
    pub fn links(&self) -> (u32, u32)
        ensures next { result.0 ≡ next_of self.now }
        ensures back { result.1 ≡ back_of self.now }
    {
        (read_be32(&self.bytes, 0), read_be32(&self.bytes, 4))
    }

    /// Sets one of the node's sectors.
    pub fn fill(&mut self, at: u32, from: &Sector)
        requires { at < length self.old / 512 }
        ensures { self.new ≡ put_at self.old (at * 512) from.now }
    {
        let start = at as usize * 512;
        self.bytes[start..start + 512].copy_from_slice(from);
    }

    /// Whether this is a node of the kind and the height: its records lie in order between the descriptor and their offsets.
    pub fn check(&self, kind: i8, height: u8) -> bool
        ensures { IsTrue result ↔ IsNodeOf kind height self.now }
    {
        is_node_of(&self.bytes, kind, height)
    }

    /// How many records it has.
    pub fn count(&self) -> u16
        ensures { result ≡ length (items self.now) }
    {
        count(&self.bytes)
    }

    /// The bytes of a record: a key with its length, and behind it a value or the number of a child.
    pub fn item(&self, i: u16) -> &[u8]
        requires well_formed { IsNode self.now }
        requires inside { i < length (items self.now) }
        ensures value { result.now ≡ slice_index_or (items self.now) i [] }
        ensures size { length result.now ≤ length self.now }
    {
        record_at(&self.bytes, i as usize)
    }

    /// How many bytes are left; a record takes two more than its own, for its offset.
    pub fn room(&self) -> u32
        requires { IsNode self.now }
        ensures { result ≡ room_beside (length self.now) (items self.now) }
    {
        room_left(&self.bytes) as u32
    }

    /// Puts a record behind the first `i`.
    pub fn insert(&mut self, i: u16, key: &[u8], value: &[u8])
        requires well_formed { IsNode self.old }
        requires inside { i ≤ length (items self.old) }
        requires room { length key.now + length value.now + 2 ≤ room_beside (length self.old) (items self.old) }
        ensures items { items self.new ≡ insert (items self.old) i (key.now ++ value.now) }
        ensures well_formed { IsNode self.new }
        ensures head { SameHead self.old self.new }
    {
        pack(&mut self.bytes);
        insert_record(&mut self.bytes, i as usize, key, value);
    }

    /// Takes a record away.
    pub fn remove(&mut self, i: u16)
        requires well_formed { IsNode self.old }
        requires inside { i < length (items self.old) }
        ensures items { items self.new ≡ remove (items self.old) i }
        ensures well_formed { IsNode self.new }
        ensures head { SameHead self.old self.new }
    {
        remove_record(&mut self.bytes, i as usize);
    }

    /// Puts a record in the place of another.
    pub fn replace(&mut self, i: u16, key: &[u8], value: &[u8])
        requires well_formed { IsNode self.old }
        requires inside { i < length (items self.old) }
        requires room { length key.now + length value.now ≤ room_beside (length self.old) (items self.old) + length (slice_index_or (items self.old) i []) }
        ensures items { items self.new ≡ slice_set (items self.old) i (key.now ++ value.now) }
        ensures well_formed { IsNode self.new }
        ensures head { SameHead self.old self.new }
    {
        if self.item(i).len() == key.len() + value.len() {
            overwrite_record(&mut self.bytes, i as usize, key, value);
            return;
        }
        self.remove(i);
        self.insert(i, key, value);
    }

    /// Takes over the bytes of another node of its size.
    pub fn copy_from(&mut self, other: &Node)
        requires { length other.now ≡ length self.old }
        ensures { self.new ≡ other.now }
    {
        self.bytes.copy_from_slice(other.bytes());
    }

    /// Takes over bytes, as many as it has.
    pub fn take_over(&mut self, bytes: &[u8])
        requires { length bytes.now ≡ length self.old }
        ensures { self.new ≡ bytes.now }
    {
        self.bytes.copy_from_slice(bytes);
    }

    /// Sets fLink and bLink.
    pub fn set_links(&mut self, next: u32, back: u32)
        ensures links { SetsLinks next back self.old self.new }
    {
        set_links(&mut self.bytes, next, back);
    }

    /// Makes an empty node, with no links.
    pub fn clear(&mut self, kind: i8, height: u8)
        ensures { ClearsNode kind height self.old self.new }
    {
        clear(&mut self.bytes, kind, height);
    }

    /// The numbers of the tree that a header node says.
    pub fn shape(&self) -> TreeShape
        ensures { result ≡ shape_of (tree_head self.now) }
    {
        read_shape(&self.bytes)
    }

    /// Sets the numbers of the tree that a header node says.
    pub fn set_shape(&mut self, shape: &TreeShape)
        requires { shape.now.node_size < 2 ^ 16 }
        ensures { SetsShape shape.now self.old self.new }
    {
        write_shape(&mut self.bytes, shape);
    }

    /// Sets or clears a bit, the highest bit of the first byte being bit 0.
    pub fn set_bit(&mut self, at: u32, value: bool)
        requires { at < 8 * length self.old }
        ensures { SetsBit at value self.old self.new }
    {
        set_bit(&mut self.bytes, at as usize, value);
    }

    /// The first bit from a place on, up to another, that is clear, or the other place.
    pub fn first_clear(&self, start: u32, end: u32) -> u32
        requires order { start ≤ end }
        requires inside { end ≤ 8 * length self.now }
        ensures from { start ≤ result }
        ensures to { result ≤ end }
        ensures before { (k : ℕ) → start ≤ k → k < result → bit_of self.now k ≡ true }
        ensures clear { result < end → bit_of self.now result ≡ false }
    {
        first_clear(&self.bytes, start as usize, end as usize) as u32
    }
}
