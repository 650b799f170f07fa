//! The nodes of a tree in a fork, read level by level, each once: the records of a level and the nodes below it, or the node that is wrong.
#![tactic(auto)]

mod children;
mod fork;
mod form;
mod level;
mod look;
mod map;
mod pairs;
mod records;
mod scan;
mod tree;
mod trees;
mod whole;

pub use children::{WrongChild, mark_children};
pub use fork::{Fork, read_node, read_sector};
pub use form::{Form, Head, TreeName};
pub use level::{WrongNode, read_level};
pub use look::Fault;
pub use pairs::Pairs;
pub use trees::{read_tree_head, scan_tree};
