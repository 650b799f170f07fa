//! The nodes of a tree file: a fork over sectors, with a header record and map nodes.
#![tactic(auto)]

mod added_run;
mod apart;
mod attaching;
mod counted;
mod growing;
mod heading;
mod map_node;
mod marking;
mod numbers;
mod on;
mod putting;
mod reading;
mod refreshing;
mod tree;
mod written;

pub use on::TreeOn;
pub use tree::{Stretch, TreeFile};
