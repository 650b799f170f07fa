//! What a command costs a volume: the sectors that it puts at most, and the nodes by which its trees grow, or the first resource
//! that is missing.
#![tactic(auto)]

mod costing;
mod cutting;
mod data;
mod growth;
mod load;
mod room;

pub use costing::cost;
pub use cutting::cut_cost;
pub use data::{count_blocks, count_extents_edits, count_overflow};
pub use hfs_volume::{Cost, Needs, Room, TreeCost};

/// The places of the three trees.
const EXTENTS: usize = 0;

const CATALOG: usize = 1;

const ATTRIBUTES: usize = 2;

/// The longest keys of the three trees.
const EXTENTS_KEY: u32 = 10;

const CATALOG_KEY: u32 = 516;

const ATTRIBUTES_KEY: u32 = 266;
