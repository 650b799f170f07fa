//! The bytes of one node (TN1150, "Node Structure").

use crate::field::{number16, number32};

/// What a node says of itself.
#[derive(Clone, Copy, Debug, PartialEq, Eq)]
pub(crate) struct NodeFront {
    pub(crate) next: u32,
    pub(crate) previous: u32,
    pub(crate) records: usize,
    pub(crate) is_leaf: bool,
    pub(crate) is_header: bool,
}

/// The bytes of a node before its first record.
pub(crate) const FRONT: usize = 14;

const LEAF: u8 = 0xFF;

const HEADER: u8 = 1;

/// What a node says of itself, where it has a front. A node is taken for a leaf by its kind or by its height, so that one that is damaged in
/// one of them is read too.
pub(crate) fn front_of(node: &[u8]) -> Option<NodeFront> {
    let next = number32(node, 0)?;
    let previous = number32(node, 4)?;
    let kind = *node.get(8)?;
    let height = *node.get(9)?;
    let records = usize::from(number16(node, 10)?);
    Some(NodeFront {
        next,
        previous,
        records,
        is_leaf: records > 0 && (kind == LEAF || height == 1),
        is_header: kind == HEADER && height == 0,
    })
}

/// Where a record of a node begins, by the numbers at its end.
pub(crate) fn offset_of(node: &[u8], record: usize) -> Option<usize> {
    let back = record.saturating_add(1).saturating_mul(2);
    if back > node.len() {
        return None;
    }
    let offset = usize::from(number16(node, node.len().saturating_sub(back))?);
    if offset < FRONT {
        return None;
    }
    Some(offset)
}
