//! What is read of a node's bytes.
ghost use Rattle.std.specs.Prelude.{◌≡◌, ◌<◌, ◌≤◌, ℕ, ◌+◌, ◌*◌, ◌↔◌, IsTrue, [], length, slice_range, slice_index_or};
ghost use Rattle.hx_bytes.specs.Field.{big_at};
ghost use Rattle.btree_node.specs.Node.{IsNode, IsNodeOf, offset, record_count, items, room_beside};

use crate::bytes::{count_records, get_offset};
use hx_bytes::read_be16;

/// Whether the offsets rise between the descriptor and themselves.
pub(crate) fn is_well_formed(node: &[u8]) -> bool
    requires { 512 ≤ length node.now }
    ensures { IsTrue result ↔ IsNode node.now }
{
    let n = count_records(node);
    let size = node.len();
    if 2 * (n + 1) > size {
        return false;
    }
    if get_offset(node, 0) < 14 {
        return false;
    }
    if get_offset(node, n) + 2 * (n + 1) > size {
        return false;
    }
    descends(&node[size - 2 * (n + 1)..])
}

/// Whether no number of two bytes is higher than the one before it.
fn descends(table: &[u8]) -> bool
    requires { 2 ≤ length table.now }
    ensures { IsTrue result ↔ ((k : ℕ) → 2 * (k + 2) ≤ length table.now → big_at 2 table.now (2 * (k + 1)) ≤ big_at 2 table.now (2 * k)) }
{
    // Without a branch for each number the compiler looks at many of them at once.
    let (numbers, _rest) = table.as_chunks::<2>();
    let mut before = read_be16(table, 0);
    let mut descends = true;
    for bytes in numbers {
        let number = read_be16(bytes, 0);
        descends &= number <= before;
        before = number;
    }
    descends
}

/// Whether these are the bytes of a node of the kind and the height.
#[tactic(auto, unfolding(crate::specs::Node::kind_of, crate::specs::Node::height_of))]
pub fn is_node_of(node: &[u8], kind: i8, height: u8) -> bool
    requires { 512 ≤ length node.now }
    ensures { IsTrue result ↔ IsNodeOf kind height node.now }
{
    if node[8].cast_signed() != kind || node[9] != height {
        return false;
    }
    is_well_formed(node)
}

/// How many records a node has.
pub fn count(node: &[u8]) -> u16
    requires { 512 ≤ length node.now }
    ensures { result ≡ length (items node.now) }
{
    read_be16(node, 10)
}

/// The bytes of a record.
pub fn record_at(node: &[u8], i: usize) -> &[u8]
    requires size { 512 ≤ length node.now }
    requires well_formed { IsNode node.now }
    requires inside { i < length (items node.now) }
    ensures value { result.now ≡ slice_index_or (items node.now) i [] }
    ensures size { length result.now ≤ length node.now }
{
    let at = get_offset(node, i);
    let end = get_offset(node, i + 1);
    part(node, at, end)
}

fn part(node: &[u8], at: usize, end: usize) -> &[u8]
    requires ordered { at ≤ end }
    requires within { end ≤ length node.now }
    ensures value { result.now ≡ slice_range node.now at end }
    ensures size { length result.now ≤ length node.now }
{
    &node[at..end]
}

/// How many bytes are left beside the records.
pub(crate) fn room_left(node: &[u8]) -> usize
    requires size { 512 ≤ length node.now }
    requires well_formed { IsNode node.now }
    ensures { result ≡ room_beside (length node.now) (items node.now) }
{
    let n = count_records(node);
    let first = get_offset(node, 0);
    let end = get_offset(node, n);
    (node.len() - 2 * (n + 1) - end) + (first - 14)
}
