//! The repair of a volume: the sectors in which it differs, a view through them, and putting them into a space.
#![tactic(auto)]

mod all;
mod bitmap;
mod calls;
mod counts;
mod header;
mod leaf;
mod leaves;
mod mend;
mod noting;
mod numbers;
mod once;
mod overlay;
mod putting;
mod renewing;
mod right;
mod sizes;
mod skipped;
mod trees;
mod words;
mod written;

pub use calls::{repair, repair_size};
pub use mend::{Change, Mend};
pub use overlay::Repaired;
pub use putting::put_changes;
