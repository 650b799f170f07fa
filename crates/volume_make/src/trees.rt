//! The nodes that a volume is made with.
ghost use Rattle.std.specs.Prelude.{◌≡◌, IfOk, IsTrue};
ghost use Rattle.volume_make.specs.Refusal.{is_name};
ghost use Rattle.volume_make.specs.Texts.{header_node, extents_text, attributes_text, leaf_text, catalog_text};

use crate::layout::Layout;
use crate::leaf::leaf_items;
use btree_node::TreeHeader;
use hfs_model::{catalog_tree, empty_tree};
use hx_bytes::{OutOfMemory, Units};
use std::alloc::Global;

const NODE_SIZE: usize = 4096;
/// The largest keys of the trees, and their attributes: big keys, and all but the extents file's of varying length.
const EXTENTS_KEY: u16 = 10;

const EXTENTS_ATTRIBUTES: u32 = 2;

const ATTRIBUTES_KEY: u16 = 266;

const ATTRIBUTES_ATTRIBUTES: u32 = 6;

/// The first nodes of the trees, one behind the other; all other nodes are zero.
#[derive(Drop)]
pub(crate) struct Trees {
    /// The header node of the extents overflow file.
    pub extents: Vec<u8>,
    /// The header node of the attributes file.
    pub attributes: Vec<u8>,
    /// The header node and the leaf of the catalog.
    pub catalog: Vec<u8>,
}

/// The header node of a tree of which the first nodes are used.
#[tactic(auto, unfolding(crate::specs::Texts::header_node))]
fn header_node(alloc: Global, tree: &TreeHeader, used: u32) -> Result<Vec<u8>, OutOfMemory>
    requires { tree.now.node_size ≡ 4096 }
    ensures { IfOk result (λ bytes. bytes.items ≡ header_node tree.now used) }
{
    let zeros = vec![in alloc; 0u8; NODE_SIZE]?;
    btree_node::header_node(alloc, tree, used, zeros.as_slice())
}

/// The catalog's leaf.
fn leaf_node(alloc: Global, layout: Layout, name: &Units) -> Result<Vec<u8>, OutOfMemory>
    requires { IsTrue (is_name name.now) }
    ensures { IfOk result (λ bytes. bytes.items ≡ leaf_text layout name.now) }
{
    let zeros = vec![in alloc; 0u8; NODE_SIZE]?;
    let items = leaf_items(alloc, layout, name)?;
    btree_node::leaf_node(alloc, 4096, items.as_slice(), zeros.as_slice())
}

/// The catalog's header node and its leaf behind it.
#[tactic(auto, unfolding(crate::specs::Texts::catalog_text))]
fn catalog_nodes(alloc: Global, layout: Layout, name: &Units) -> Result<Vec<u8>, OutOfMemory>
    requires { IsTrue (is_name name.now) }
    ensures { IfOk result (λ bytes. bytes.items ≡ catalog_text layout name.now) }
{
    let tree = catalog_tree(layout.block, 0);
    let mut nodes = header_node(alloc, &tree, 2)?;
    let leaf = leaf_node(alloc, layout, name)?;
    nodes.extend_from_slice(leaf.as_slice())?;
    Ok(nodes)
}

/// The first nodes of the trees.
pub(crate) fn fresh_trees(alloc: Global, layout: Layout, name: &Units) -> Result<Trees, OutOfMemory>
    requires { IsTrue (is_name name.now) }
    ensures extents { IfOk result (λ trees. trees.extents.items ≡ extents_text layout) }
    ensures attributes { IfOk result (λ trees. trees.attributes.items ≡ attributes_text layout) }
    ensures catalog { IfOk result (λ trees. trees.catalog.items ≡ catalog_text layout name.now) }
{
    let extents_tree = empty_tree(layout.block, EXTENTS_KEY, EXTENTS_ATTRIBUTES);
    let attributes_tree = empty_tree(layout.block, ATTRIBUTES_KEY, ATTRIBUTES_ATTRIBUTES);
    let extents = header_node(alloc, &extents_tree, 1)?;
    let attributes = header_node(alloc, &attributes_tree, 1)?;
    let catalog = catalog_nodes(alloc, layout, name)?;
    Ok(Trees {
        extents,
        attributes,
        catalog,
    })
}
