//! The numbers of a tree's header record, and the first of them that isn't the one wanted.
ghost use Rattle.std.specs.Prelude.{◌≡◌, ◌≤◌, ◌<◌, ◌^◌, ◌*◌, ◌-◌, All, length, map, slice_index, IfNone, IfSome, ◌==◌, if◌then◌else◌};
ghost use Rattle.btree_node.specs.TreeFile.{TreeFile, tree_head};
ghost use Rattle.std.specs.List.{count_by, range_with_len};
ghost use Rattle.btree_node.specs.Levels.{leaves as leaf_pairs};
ghost use Rattle.hfs_volume.specs.Broken.{is_node_size as is_size, is_in_use, node_place, node_size_wanted, form_wants, levels_in, leaves_in, IsUnmet};
ghost use Rattle.fsck_scan.specs.Scan.{failure};
ghost use Rattle.fsck_scan.specs.Form.{as_found, form_named, form_in, head_in, want_of, FitsForm, FitsRoot, FitsLeaves};

use btree_node::{Node, TreeShape};
use fsck_list::Finding;
use hx_bytes::{read_be16, read_be32};

/// One of the trees of a volume.
#[derive(Clone, Copy, Debug, PartialEq, Eq)]
pub enum TreeName {
    Extents,
    Catalog,
    Attributes,
}

/// The number of a tree's file, and what its header record says in every volume (TN1150, "Header Record").
#[derive(Clone, Copy)]
pub struct Form {
    pub id: u32,
    pub attributes: u32,
    pub max_key: u16,
    pub least_node: u32,
}

impl TreeName {
    /// What the header record of this tree says.
    pub fn form(self) -> Form
        ensures { result ≡ form_named self }
    {
        match self {
            TreeName::Extents => Form {
                id: 3,
                attributes: 2,
                max_key: 10,
                least_node: 512,
            },
            TreeName::Catalog => Form {
                id: 4,
                attributes: 6,
                max_key: 516,
                least_node: 4096,
            },
            TreeName::Attributes => Form {
                id: 8,
                attributes: 6,
                max_key: 266,
                least_node: 4096,
            },
        }
    }
}

/// A number that was found, and the one that is wanted.
#[derive(Clone, Copy)]
pub(crate) struct Number {
    pub(crate) found: u64,
    pub(crate) wanted: u64,
}

/// The place of a node: its tree's file, and its number.
fn place_of(id: u32, node: u32) -> u64
    requires { id < 2 ^ 16 }
    ensures { result ≡ node_place id node }
{
    id as u64 * 4294967296 + node as u64
}

/// A node where a rule without a number fails.
pub(crate) fn failed(rule: u8, id: u32, node: u32) -> Finding
    requires { id < 2 ^ 16 }
    ensures { as_found result ≡ failure rule (node_place id node) }
{
    Finding {
        rule,
        place: place_of(id, node),
        found: 0,
        wanted: 1,
    }
}

/// The first of these numbers of a header record that isn't the one wanted.
fn first_wrong(id: u32, numbers: &[Number]) -> Option<Finding>
    requires { id < 2 ^ 16 }
    ensures met { IfNone result (All (λ number. number.found ≡ number.wanted) numbers.now) }
    ensures unmet { IfSome result (λ finding. IsUnmet 4 (as_found finding) (map (want_of id) numbers.now)) }
{
    for number in numbers {
        if number.found != number.wanted {
            return Some(Finding {
                rule: 4,
                place: place_of(id, 0),
                found: number.found,
                wanted: number.wanted,
            });
        }
    }
    None
}

/// The header record of a tree (TN1150, "Header Record").
#[derive(Clone, Copy)]
pub struct Head {
    pub shape: TreeShape,
    /// The greatest length of a key, in bytes.
    pub max_key: u16,
    /// How keys are compared: 0xBC says unit by unit.
    pub compare: u8,
    pub attributes: u32,
}

/// The header record in a header node.
pub(crate) fn read_head(node: &Node) -> Head
    ensures { head_in result ≡ tree_head node.now }
{
    let bytes = node.bytes();
    Head {
        shape: node.shape(),
        max_key: read_be16(bytes, 34),
        compare: bytes[51],
        attributes: read_be32(bytes, 52),
    }
}

/// Whether a size is a power of two from 512 to 32,768.
fn is_node_size(size: u32) -> bool
    ensures { result ≡ is_size size }
{
    512 == size
        || 1024 == size
        || 2048 == size
        || 4096 == size
        || 8192 == size
        || 16384 == size
        || 32768 == size
}

/// The node size that is wanted where one was found: itself where it is one, else the nearer end of the range, or 4,096 inside it.
fn size_wanted(form: &Form, size: u32) -> u32
    ensures { result ≡ node_size_wanted (form_in form.now) size }
{
    if size < form.least_node {
        form.least_node
    } else if 32768 < size {
        32768
    } else if is_node_size(size) {
        size
    } else {
        4096
    }
}

/// Judges the numbers that can be judged before a node is read.
pub(crate) fn judge_head(form: &Form, head: &Head) -> Option<Finding>
    requires { form.now.id < 2 ^ 16 }
    ensures fits { IfNone result (FitsForm form.now head.now) }
    ensures wrong { IfSome result (λ finding. (tree : TreeFile) → tree.head ≡ head_in head.now → IsUnmet 4 (as_found finding) (form_wants (form_in form.now) form.now.id tree)) }
{
    let size = head.shape.node_size;
    let total = head.shape.total;
    let depth = head.shape.depth;
    let wanted = size_wanted(form, size);
    first_wrong(
        form.id,
        &[
            Number {
                found: size as u64,
                wanted: wanted as u64,
            },
            Number {
                found: head.attributes as u64,
                wanted: form.attributes as u64,
            },
            Number {
                found: head.max_key as u64,
                wanted: form.max_key as u64,
            },
            Number {
                found: total as u64,
                wanted: total.max(1) as u64,
            },
            Number {
                found: depth as u64,
                wanted: depth.min(12) as u64,
            },
        ],
    )
}

/// The root that is wanted where one was found.
fn root_wanted(root: u32, height: u8) -> u32
    ensures { result ≡ (if height == 0 then 0 else root) }
{
    if height == 0 { 0 } else { root }
}

/// Judges the numbers that the map and the root say: so many bytes of the map were read, and the root has this height.
pub(crate) fn judge_root(form: &Form, head: &Head, height: u8, bytes: usize) -> Option<Finding>
    requires id { form.now.id < 2 ^ 16 }
    requires few { bytes < 2 ^ 60 }
    ensures fits { IfNone result (FitsRoot head.now height bytes) }
    ensures wrong { IfSome result (λ finding. (tree : TreeFile) → tree.head ≡ head_in head.now → levels_in tree ≡ height → length tree.map ≡ bytes
        → IsUnmet 4 (as_found finding) (form_wants (form_in form.now) form.now.id tree)) }
{
    let total = head.shape.total as u64;
    let bits = bytes as u64 * 8;
    first_wrong(
        form.id,
        &[
            Number {
                found: total,
                wanted: total.min(bits),
            },
            Number {
                found: head.shape.depth as u64,
                wanted: height as u64,
            },
            Number {
                found: head.shape.root as u64,
                wanted: root_wanted(head.shape.root, height) as u64,
            },
        ],
    )
}

/// The node at a place, or 0 past the end.
fn node_at(nodes: &[u32], k: usize) -> u32
    ensures { result ≡ slice_index nodes.now k }
{
    if k < nodes.len() { nodes[k] } else { 0 }
}

/// The last of some nodes, or 0 where there is none.
fn last_of(nodes: &[u32]) -> u32
    ensures { result ≡ slice_index nodes.now (length nodes.now - 1) }
{
    if nodes.is_empty() {
        return 0;
    }
    node_at(nodes, nodes.len() - 1)
}

/// Judges the numbers that all nodes say: the leaves, how many records these have, and how many nodes are in use.
pub(crate) fn judge_leaves(
    form: &Form,
    head: &Head,
    leaves: &[u32],
    records: usize,
    used: u32,
) -> Option<Finding>
    requires { form.now.id < 2 ^ 16 }
    ensures fits { IfNone result (FitsLeaves head.now leaves.now records (head.now.shape.total - used)) }
    ensures wrong { IfSome result (λ finding. (tree : TreeFile) → tree.head ≡ head_in head.now → leaves_in tree ≡ leaves.now
        → length (leaf_pairs tree.nodes tree.head.root (levels_in tree)) ≡ records
        → count_by (is_in_use tree) (range_with_len 0 tree.head.total) ≡ used
        → IsUnmet 4 (as_found finding) (form_wants (form_in form.now) form.now.id tree)) }
{
    let free = head.shape.total.saturating_sub(used);
    first_wrong(
        form.id,
        &[
            Number {
                found: head.shape.first as u64,
                wanted: node_at(leaves, 0) as u64,
            },
            Number {
                found: head.shape.last as u64,
                wanted: last_of(leaves) as u64,
            },
            Number {
                found: head.shape.leaf_records as u64,
                wanted: records as u64,
            },
            Number {
                found: head.shape.free as u64,
                wanted: free as u64,
            },
        ],
    )
}
