//! A node of a B-tree as the list of its records.
#![tactic(auto)]

mod bytes;
mod codec;
mod edits;
mod head;
mod header;
mod keys;
mod map;
mod mem;
mod moves;
mod node;
mod order;
pub mod reads;
mod store;

pub use bytes::{count_records, get_offset};
pub use codec::{NodeHead, TreeHeader, header_node, leaf_node, node_over, nodes_are_read_back};
pub use keys::{AttrOrder, CatalogOrder, ExtentOrder};
pub use mem::MemNodes;
pub use node::Node;
pub use order::KeyOrder;
pub use store::{NodeStore, TreeShape};
