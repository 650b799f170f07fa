//! The offsets of a node, and the number of its records.
ghost use Rattle.std.specs.Prelude.{◌≡◌, ◌<◌, ◌≤◌, ℕ, ◌+◌, ◌*◌, ◌^◌, length};
ghost use Rattle.btree_node.specs.Node.{offset, record_count};
ghost use Rattle.btree_node.specs.Bytes.{SetsOffset, ChangesOffsets};

use hx_bytes::{read_be16, write_be16};

/// The number of records in a node's descriptor.
#[tactic(auto, unfolding(crate::specs::Node::record_count))]
pub fn count_records(node: &[u8]) -> usize
    requires { 512 ≤ length node.now }
    ensures count { result ≡ record_count node.now }
    ensures small { result < 65536 }
{
    read_be16(node, 10) as usize
}

/// Where a record begins; behind the last record's stands where free space begins.
#[tactic(auto, unfolding(crate::specs::Node::offset))]
pub fn get_offset(node: &[u8], i: usize) -> usize
    requires { 2 * (i + 1) ≤ length node.now }
    ensures value { result ≡ offset node.now i }
    ensures small { result < 65536 }
{
    read_be16(node, node.len() - 2 * (i + 1)) as usize
}

pub(crate) fn set_offset(node: &mut [u8], i: usize, x: u16)
    requires { 2 * (i + 1) ≤ length node.old }
    ensures { SetsOffset i x node.old node.new }
{
    let at = node.len() - 2 * (i + 1);
    write_be16(node, at, x);
}

/// Adds to the offsets from `from` up to `to`.
pub(crate) fn raise_offsets(node: &mut [u8], from: usize, to: usize, by: usize)
    requires ordered { from ≤ to }
    requires within { 2 * to ≤ length node.old }
    requires fits { (j : ℕ) → from ≤ j → j < to → offset node.old j + by < 65536 }
    ensures { ChangesOffsets from to (λ old new. new ≡ old + by) node.old node.new }
{
    for i in from..to {
        let x = get_offset(node, i) + by;
        set_offset(node, i, x as u16);
    }
}

/// Takes from the offsets from `from` up to `to`.
pub(crate) fn lower_offsets(node: &mut [u8], from: usize, to: usize, by: usize)
    requires ordered { from ≤ to }
    requires within { 2 * to ≤ length node.old }
    requires fits { (j : ℕ) → from ≤ j → j < to → by ≤ offset node.old j }
    ensures { ChangesOffsets from to (λ old new. new + by ≡ old) node.old node.new }
{
    for i in from..to {
        let x = get_offset(node, i) - by;
        set_offset(node, i, x as u16);
    }
}
