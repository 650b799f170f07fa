//! The header records of the trees of a fresh volume.
ghost use Rattle.std.specs.Prelude.{◌≡◌, ◌≤◌};
ghost use Rattle.hfs_model.specs.Fresh.{empty_tree, catalog_tree};

use btree_node::TreeHeader;

/// The header record of a tree of sixteen nodes without a record, in a file that grows by blocks of this size.
pub fn empty_tree(block: u32, max_key_length: u16, attributes: u32) -> TreeHeader
    ensures value { result ≡ empty_tree block max_key_length attributes }
    ensures size { result.node_size ≡ 4096 }
{
    TreeHeader {
        depth: 0,
        root: 0,
        leaf_records: 0,
        first_leaf: 0,
        last_leaf: 0,
        node_size: 4096,
        max_key_length,
        total_nodes: 16,
        free_nodes: 15,
        clump_size: block,
        tree_type: 0,
        key_compare_type: 0,
        attributes,
    }
}

/// The header record of the catalog of a volume with so many folders below the root, in a file that grows by blocks of this size.
pub fn catalog_tree(block: u32, folders: u32) -> TreeHeader
    requires { folders ≤ 12 }
    ensures value { result ≡ catalog_tree block folders }
    ensures size { result.node_size ≡ 4096 }
{
    TreeHeader {
        depth: 1,
        root: 1,
        leaf_records: 6 + 2 * folders,
        first_leaf: 1,
        last_leaf: 1,
        node_size: 4096,
        max_key_length: 516,
        total_nodes: 64,
        free_nodes: 62,
        clump_size: block,
        tree_type: 0,
        key_compare_type: 0xBC,
        attributes: 6,
    }
}
