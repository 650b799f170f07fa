//! Sorted lists as maps: what is put in and taken out by its key.
ghost use Rattle.std.specs.Prelude.{◌≡◌, ◌≤◌, Bool, not, length, insert, IfOk};
ghost use Rattle.hfs_model.specs.Sorted.{kept, put_before, with_item};
ghost use Rattle.hfs_model.specs.Plain.{entry_before, node_before, attribute_before, is_at, is_node, is_named};

use crate::plain::{PlainAttribute, PlainEntry, PlainNode};
use hx_bytes::{Listed, OutOfMemory, Units};

/// Items that stand in the order of their keys.
pub(crate) trait Ordered: Drop {
    ghost before: { Self → Self → Bool };

    /// Whether this one comes before the other.
    fn comes_before(&self, other: &Self) -> bool
        ensures { result ≡ before self.now other.now };
}

impl Ordered for PlainEntry {
    ghost before = { entry_before };

    fn comes_before(&self, other: &PlainEntry) -> bool {
        self.parent
            .cmp(&other.parent)
            .then(self.name.as_slice().cmp(other.name.as_slice()))
            .is_lt()
    }
}

impl Ordered for PlainNode {
    ghost before = { node_before };

    fn comes_before(&self, other: &PlainNode) -> bool {
        self.id < other.id
    }
}

impl Ordered for PlainAttribute {
    ghost before = { attribute_before };

    fn comes_before(&self, other: &PlainAttribute) -> bool {
        self.name.as_slice().cmp(other.name.as_slice()).is_lt()
    }
}

/// The place of the first item that this one comes before, or the list's length where there is none.
fn place_of<T: Ordered>(items: &[T], item: &T) -> usize
    ensures within { result ≤ length items.now }
    ensures value { insert items.now result item.now ≡ put_before T.before item.now items.now }
{
    for (at, next) in items.iter().enumerate() {
        if item.comes_before(next) {
            return at;
        }
    }
    items.len()
}

/// The list with an item more, at its place.
pub(crate) fn put<T: Ordered>(items: Listed<T>, item: T) -> Result<Listed<T>, OutOfMemory>
    ensures { IfOk result (λ more. more ≡ put_before T.before item items) }
{
    let mut items = items.into_vec();
    let at = place_of(items.as_slice(), &item);
    items.insert(at, item)?;
    Ok(Listed::from_vec(items))
}

/// The entries without that of a name in a folder.
pub(crate) fn entries_without(
    entries: Listed<PlainEntry>,
    parent: u32,
    name: &Units,
) -> Listed<PlainEntry>
    ensures { result ≡ kept (λ entry. not (is_at parent name.now entry)) entries }
{
    let mut entries = entries.into_vec();
    entries.retain(|entry| !entry.is_at(parent, name));
    Listed::from_vec(entries)
}

/// The folders and files without one of them.
pub(crate) fn nodes_without(nodes: Listed<PlainNode>, id: u32) -> Listed<PlainNode>
    ensures { result ≡ kept (λ node. not (is_node id node)) nodes }
{
    let mut nodes = nodes.into_vec();
    nodes.retain(|node| node.id != id);
    Listed::from_vec(nodes)
}

/// The attributes without that of a name.
pub(crate) fn attributes_without(
    attributes: Listed<PlainAttribute>,
    name: &Units,
) -> Listed<PlainAttribute>
    ensures { result ≡ kept (λ attribute. not (is_named name.now attribute)) attributes }
{
    let mut attributes = attributes.into_vec();
    attributes.retain(|attribute| !attribute.is_named(name));
    Listed::from_vec(attributes)
}
