//! The descriptor of a node.
ghost use Rattle.std.specs.Prelude.{◌≡◌, ◌<◌, ◌≤◌, length};
ghost use Rattle.btree_node.specs.Node.{SetsLinks, ClearsNode, empty_node};

use hx_bytes::{write_be16, write_be32};

pub(crate) fn set_links(node: &mut [u8], next: u32, back: u32)
    requires { 512 ≤ length node.old }
    ensures { SetsLinks next back node.old node.new }
{
    write_be32(node, 0, next);
    write_be32(node, 4, back);
}

#[tactic(auto, unfolding(crate::specs::Node::empty_node))]
fn write_empty(node: &mut [u8], kind: i8, height: u8)
    requires { 512 ≤ length node.old }
    ensures { node.new ≡ empty_node (length node.old) kind height }
{
    node.fill(0);
    node[8] = kind.cast_unsigned();
    node[9] = height;
    let last = node.len() - 2;
    write_be16(node, last, 14);
}

pub(crate) fn clear(node: &mut [u8], kind: i8, height: u8)
    requires { 512 ≤ length node.old }
    ensures { ClearsNode kind height node.old node.new }
{
    write_empty(node, kind, height);
}
