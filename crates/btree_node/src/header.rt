//! The numbers of a tree in the header record of its header node (TN1150, "Header Record").
ghost use Rattle.std.specs.Prelude.{◌≡◌, ◌<◌, ◌≤◌, ◌^◌, length};
ghost use Rattle.btree_node.specs.TreeFile.{tree_head, shape_of, SetsShape};

use crate::store::TreeShape;
use hx_bytes::{read_be16, read_be32, write_be16, write_be32};

pub(crate) fn read_shape(node: &[u8]) -> TreeShape
    requires { 512 ≤ length node.now }
    ensures { result ≡ shape_of (tree_head node.now) }
{
    TreeShape {
        node_size: u32::from(read_be16(node, 32)),
        depth: read_be16(node, 14),
        root: read_be32(node, 16),
        first: read_be32(node, 24),
        last: read_be32(node, 28),
        leaf_records: read_be32(node, 20),
        total: read_be32(node, 36),
        free: read_be32(node, 40),
    }
}

pub(crate) fn write_shape(node: &mut [u8], shape: &TreeShape)
    requires size { 512 ≤ length node.old }
    requires small { shape.now.node_size < 2 ^ 16 }
    ensures { SetsShape shape.now node.old node.new }
{
    write_be16(node, 14, shape.depth);
    write_be32(node, 16, shape.root);
    write_be32(node, 20, shape.leaf_records);
    write_be32(node, 24, shape.first);
    write_be32(node, 28, shape.last);
    write_be16(node, 32, shape.node_size as u16);
    write_be32(node, 36, shape.total);
    write_be32(node, 40, shape.free);
}
