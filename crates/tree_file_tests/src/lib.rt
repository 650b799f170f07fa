//! Trees in files over the sectors of a space: callers of an edit, of a growth and of a file that is read again, with their contracts.
#![tactic(auto)]

mod caller;
mod grower;
mod reader;

pub use caller::insert_pair;
pub use grower::grow_tree;
pub use reader::read_again;
