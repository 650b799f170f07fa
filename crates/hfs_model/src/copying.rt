//! Copies of a plain tree and of its parts.
ghost use Rattle.std.specs.Prelude.{◌≡◌, IfOk};

use crate::plain::{PlainAttribute, PlainEntry, PlainNode, PlainTree};
use hx_bytes::{Listed, OutOfMemory};
use std::alloc::Global;

pub(crate) fn copy_list<T: Copy>(alloc: Global, items: &Listed<T>) -> Result<Listed<T>, OutOfMemory>
    ensures { IfOk result (λ copy. copy ≡ items.now) }
{
    Ok(Listed::from_vec(Vec::from_slice(alloc, items.as_slice())?))
}

fn copy_attribute(alloc: Global, attribute: &PlainAttribute) -> Result<PlainAttribute, OutOfMemory>
    ensures { IfOk result (λ copy. copy ≡ attribute.now) }
{
    Ok(PlainAttribute {
        name: copy_list(alloc, &attribute.name)?,
        value: copy_list(alloc, &attribute.value)?,
    })
}

fn copy_attributes(
    alloc: Global,
    attributes: &Listed<PlainAttribute>,
) -> Result<Listed<PlainAttribute>, OutOfMemory>
    ensures { IfOk result (λ copy. copy ≡ attributes.now) }
{
    let mut copy = Listed::new(alloc);
    for attribute in attributes.as_slice() {
        copy.push(copy_attribute(alloc, attribute)?)?;
    }
    Ok(copy)
}

fn copy_node(alloc: Global, node: &PlainNode) -> Result<PlainNode, OutOfMemory>
    ensures { IfOk result (λ copy. copy ≡ node.now) }
{
    Ok(PlainNode {
        id: node.id,
        folder: node.folder,
        type_bits: node.type_bits,
        mode: node.mode,
        created: node.created,
        changed: node.changed,
        attribute: node.attribute,
        attributes: copy_attributes(alloc, &node.attributes)?,
        bytes: copy_list(alloc, &node.bytes)?,
        resource: copy_list(alloc, &node.resource)?,
        linked: node.linked,
    })
}

fn copy_nodes(alloc: Global, nodes: &Listed<PlainNode>) -> Result<Listed<PlainNode>, OutOfMemory>
    ensures { IfOk result (λ copy. copy ≡ nodes.now) }
{
    let mut copy = Listed::new(alloc);
    for node in nodes.as_slice() {
        copy.push(copy_node(alloc, node)?)?;
    }
    Ok(copy)
}

fn copy_entry(alloc: Global, entry: &PlainEntry) -> Result<PlainEntry, OutOfMemory>
    ensures { IfOk result (λ copy. copy ≡ entry.now) }
{
    Ok(PlainEntry {
        parent: entry.parent,
        name: copy_list(alloc, &entry.name)?,
        folder: entry.folder,
        id: entry.id,
    })
}

fn copy_entries(
    alloc: Global,
    entries: &Listed<PlainEntry>,
) -> Result<Listed<PlainEntry>, OutOfMemory>
    ensures { IfOk result (λ copy. copy ≡ entries.now) }
{
    let mut copy = Listed::new(alloc);
    for entry in entries.as_slice() {
        copy.push(copy_entry(alloc, entry)?)?;
    }
    Ok(copy)
}

pub(crate) fn copy_tree(alloc: Global, tree: &PlainTree) -> Result<PlainTree, OutOfMemory>
    ensures { IfOk result (λ copy. copy ≡ tree.now) }
{
    Ok(PlainTree {
        entries: copy_entries(alloc, &tree.entries)?,
        nodes: copy_nodes(alloc, &tree.nodes)?,
        next_id: tree.next_id,
        has_private: tree.has_private,
        moment: tree.moment,
    })
}
