//! The bytes of whole nodes, made from a descriptor and records, and the records of a header node.
ghost use Rattle.std.specs.Prelude.{◌≡◌, ◌≤◌, ◌<◌, ◌+◌, ◌*◌, ◌++◌, ◌^◌, ℕ, Bool, List, length, replicate, OnOk, IfOk};
ghost use Rattle.std.specs.List.{concat};
ghost use Rattle.hx_bytes.specs.Field.{big};
ghost use Rattle.flag_rows.specs.Bitmap.{is_marked, nowhere};
ghost use Rattle.btree_node.specs.Codec.{IsPacked, IsHeaderOf, HasRoomFor, ReadsBack, HeaderReadsBack, FitsNodeHead, FitsTreeHeader, descriptor_bytes, offsets_bytes, node_over, tree_root_bytes, tree_size_bytes, tree_kind_bytes, tree_header_bytes, header_items, header_head, leaf_head};

use flag_rows::{Marks, put_bits};
use hx_bytes::{Bytes, Extent, OutOfMemory};
use std::alloc::Global;

/// A node descriptor without its number of records (TN1150, "Node Structure").
#[derive(Clone, Copy, Debug, PartialEq, Eq)]
pub struct NodeHead {
    /// The next node of this level, or 0.
    pub next: u32,
    /// The one before it, or 0.
    pub previous: u32,
    /// 255 is a leaf (-1), 1 a header node.
    pub kind: u8,
    /// 1 in a leaf, 0 in a header node.
    pub height: u8,
}

/// The header record of a B-tree (TN1150, "Header Record"), without its reserved fields. Sizes are bytes.
#[derive(Clone, Copy, Debug, PartialEq, Eq)]
pub struct TreeHeader {
    pub depth: u16,
    pub root: u32,
    pub leaf_records: u32,
    pub first_leaf: u32,
    pub last_leaf: u32,
    pub node_size: u16,
    pub max_key_length: u16,
    pub total_nodes: u32,
    pub free_nodes: u32,
    pub clump_size: u32,
    pub tree_type: u8,
    pub key_compare_type: u8,
    pub attributes: u32,
}

/// The bytes of a header node that aren't its map: the descriptor, the header record, the user data and the offsets.
const BESIDE_MAP: u16 = 256;

/// Adds a number of two bytes, its highest byte first.
#[tactic(auto, unfolding(hx_bytes::specs::Field::number_bytes))]
fn put_u16(out: &mut Vec<u8>, number: u16) -> Result<(), OutOfMemory>
    ensures { OnOk result (out.new.items ≡ out.old.items ++ big 2 number) }
{
    out.extend_from_slice(&number.to_be_bytes())?;
    Ok(())
}

/// Adds a number of four bytes, its highest byte first.
#[tactic(auto, unfolding(hx_bytes::specs::Field::number_bytes))]
fn put_u32(out: &mut Vec<u8>, number: u32) -> Result<(), OutOfMemory>
    ensures { OnOk result (out.new.items ≡ out.old.items ++ big 4 number) }
{
    out.extend_from_slice(&number.to_be_bytes())?;
    Ok(())
}

/// Adds so many zeros.
fn put_zeros(out: &mut Vec<u8>, count: usize) -> Result<(), OutOfMemory>
    ensures { OnOk result (out.new.items ≡ out.old.items ++ replicate count 0) }
{
    for _at in 0..count {
        out.push(0)?;
    }
    Ok(())
}

#[tactic(auto, unfolding(crate::specs::Codec::descriptor_bytes))]
fn put_descriptor(out: &mut Vec<u8>, head: &NodeHead, count: u16) -> Result<(), OutOfMemory>
    ensures { OnOk result (out.new.items ≡ out.old.items ++ descriptor_bytes head.now count) }
{
    put_u32(out, head.next)?;
    put_u32(out, head.previous)?;
    out.push(head.kind)?;
    out.push(head.height)?;
    put_u16(out, count)?;
    put_u16(out, 0)
}

fn put_items(out: &mut Vec<u8>, items: &[Bytes]) -> Result<(), OutOfMemory>
    ensures { OnOk result (out.new.items ≡ out.old.items ++ concat items.now) }
{
    for item in items {
        out.extend_from_slice(item.as_slice())?;
    }
    Ok(())
}

/// Adds the table of offsets of records that end at `end`.
fn put_offsets(out: &mut Vec<u8>, items: &[Bytes], end: usize) -> Result<(), OutOfMemory>
    requires place { end ≡ 14 + length (concat items.now) }
    requires short { end < 2 ^ 16 }
    ensures { OnOk result (out.new.items ≡ out.old.items ++ offsets_bytes 14 items.now) }
{
    let mut at = end;
    let mut left = items.len();
    put_u16(out, at as u16)?;
    while 0 < left {
        left -= 1;
        at -= items[left].len();
        put_u16(out, at as u16)?;
    }
    Ok(())
}

/// The descriptor and the records of a node.
fn node_front(alloc: Global, head: &NodeHead, items: &[Bytes]) -> Result<Vec<u8>, OutOfMemory>
    requires { length items.now < 2 ^ 16 }
    ensures value { IfOk result (λ bytes. bytes.items ≡ descriptor_bytes head.now (length items.now) ++ concat items.now) }
    ensures size { IfOk result (λ bytes. length bytes.items ≡ 14 + length (concat items.now)) }
{
    let mut out = Vec::new(alloc);
    put_descriptor(&mut out, head, items.len() as u16)?;
    put_items(&mut out, items)?;
    Ok(out)
}

#[tactic(auto, unfolding(crate::specs::Codec::node_over))]
fn node_text(
    alloc: Global,
    size: u16,
    head: &NodeHead,
    records: &[Bytes],
    old: &[u8],
) -> Result<Vec<u8>, OutOfMemory>
    requires small { size ≤ 32768 }
    requires long { length old.now ≡ size }
    requires room { HasRoomFor size records.now }
    ensures { IfOk result (λ bytes. bytes.items ≡ node_over size head.now records.now old.now) }
{
    let mut out = node_front(alloc, head, records)?;
    let used = out.len();
    let table = usize::from(size) - 2 * (records.len() + 1);
    out.extend_from_slice(&old[used..table])?;
    put_offsets(&mut out, records, used)?;
    Ok(out)
}

/// The bytes of a node, with what the old bytes have in its free space. The size is in bytes.
pub fn node_over(
    alloc: Global,
    size: u16,
    head: &NodeHead,
    records: &[Bytes],
    old: &[u8],
) -> Result<Vec<u8>, OutOfMemory>
    requires small { size ≤ 32768 }
    requires long { length old.now ≡ size }
    requires room { HasRoomFor size records.now }
    ensures value { IfOk result (λ bytes. bytes.items ≡ node_over size head.now records.now old.now) }
    ensures node { IfOk result (λ bytes. IsPacked size bytes.items head.now records.now) }
    // Bytes that are such a node already stay as they are.
    ensures same { IsPacked size old.now head.now records.now → IfOk result (λ bytes. bytes.items ≡ old.now) }
{
    node_text(alloc, size, head, records, old)
}

/// The one leaf of a tree.
pub fn leaf_node(
    alloc: Global,
    size: u16,
    records: &[Bytes],
    old: &[u8],
) -> Result<Vec<u8>, OutOfMemory>
    requires small { size ≤ 32768 }
    requires long { length old.now ≡ size }
    requires room { HasRoomFor size records.now }
    ensures value { IfOk result (λ bytes. bytes.items ≡ node_over size leaf_head records.now old.now) }
    ensures node { IfOk result (λ bytes. IsPacked size bytes.items leaf_head records.now) }
    ensures same { IsPacked size old.now leaf_head records.now → IfOk result (λ bytes. bytes.items ≡ old.now) }
{
    let head = NodeHead {
        next: 0,
        previous: 0,
        kind: 255,
        height: 1,
    };
    node_over(alloc, size, &head, records, old)
}

fn put_tree_root(out: &mut Vec<u8>, tree: &TreeHeader) -> Result<(), OutOfMemory>
    ensures { OnOk result (out.new.items ≡ out.old.items ++ tree_root_bytes tree.now) }
{
    put_u16(out, tree.depth)?;
    put_u32(out, tree.root)?;
    put_u32(out, tree.leaf_records)?;
    put_u32(out, tree.first_leaf)?;
    put_u32(out, tree.last_leaf)
}

fn put_tree_sizes(out: &mut Vec<u8>, tree: &TreeHeader) -> Result<(), OutOfMemory>
    ensures { OnOk result (out.new.items ≡ out.old.items ++ tree_size_bytes tree.now) }
{
    put_u16(out, tree.node_size)?;
    put_u16(out, tree.max_key_length)?;
    put_u32(out, tree.total_nodes)?;
    put_u32(out, tree.free_nodes)?;
    put_u16(out, 0)
}

fn put_tree_kind(out: &mut Vec<u8>, tree: &TreeHeader) -> Result<(), OutOfMemory>
    ensures { OnOk result (out.new.items ≡ out.old.items ++ tree_kind_bytes tree.now) }
{
    put_u32(out, tree.clump_size)?;
    out.push(tree.tree_type)?;
    out.push(tree.key_compare_type)?;
    put_u32(out, tree.attributes)?;
    put_zeros(out, 64)
}

#[tactic(auto, unfolding(crate::specs::Codec::tree_header_bytes))]
fn tree_header(alloc: Global, tree: &TreeHeader) -> Result<Bytes, OutOfMemory>
    ensures { IfOk result (λ bytes. bytes ≡ tree_header_bytes tree.now) }
{
    let mut out = Vec::new(alloc);
    put_tree_root(&mut out, tree)?;
    put_tree_sizes(&mut out, tree)?;
    put_tree_kind(&mut out, tree)?;
    Ok(Bytes::from_vec(out))
}

/// The records of a header node whose map marks the first nodes as used.
#[tactic(auto, unfolding(crate::specs::Codec::header_items))]
fn header_items(alloc: Global, tree: &TreeHeader, used: u32) -> Result<Vec<Bytes>, OutOfMemory>
    requires { 256 ≤ tree.now.node_size }
    ensures { IfOk result (λ items. items.items ≡ header_items tree.now (is_marked used nowhere)) }
{
    let mut user_data = Vec::new(alloc);
    put_zeros(&mut user_data, 128)?;
    let mut map = Vec::new(alloc);
    let marks = Marks {
        below: used,
        also: Extent { start: 0, count: 0 },
    };
    put_bits(&mut map, marks, 0, u32::from(tree.node_size - BESIDE_MAP))?;
    let mut items = Vec::new(alloc);
    items.push(tree_header(alloc, tree)?)?;
    items.push(Bytes::from_vec(user_data))?;
    items.push(Bytes::from_vec(map))?;
    Ok(items)
}

/// The header node of a tree of which the first so many nodes are used; no map node is behind it.
pub fn header_node(
    alloc: Global,
    tree: &TreeHeader,
    used: u32,
    old: &[u8],
) -> Result<Vec<u8>, OutOfMemory>
    requires least { 256 ≤ tree.now.node_size }
    requires small { tree.now.node_size ≤ 32768 }
    requires long { length old.now ≡ tree.now.node_size }
    ensures value { IfOk result (λ bytes. bytes.items ≡ node_over tree.now.node_size header_head (header_items tree.now (is_marked used nowhere)) old.now) }
    ensures node { IfOk result (λ bytes. IsHeaderOf tree.now (is_marked used nowhere) bytes.items) }
    ensures same { IsHeaderOf tree.now (is_marked used nowhere) old.now → IfOk result (λ bytes. bytes.items ≡ old.now) }
{
    let head = NodeHead {
        next: 0,
        previous: 0,
        kind: 1,
        height: 0,
    };
    let items = header_items(alloc, tree, used)?;
    node_over(alloc, tree.node_size, &head, items.as_slice(), old)
}

/// What is made from a descriptor and records is read as these.
pub fn nodes_are_read_back()
    ensures node { (size : ℕ) (bytes : List ℕ) (head : NodeHead) (records : List (List ℕ)) → size ≤ 32768 → FitsNodeHead head → IsPacked size bytes head records → ReadsBack bytes head records }
    ensures header { (tree : TreeHeader) (is_used : ℕ → Bool) (bytes : List ℕ) → 256 ≤ tree.node_size → tree.node_size ≤ 32768 → FitsTreeHeader tree → IsHeaderOf tree is_used bytes → HeaderReadsBack bytes tree is_used }
{}
