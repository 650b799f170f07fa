//! Whole forks: the extents behind the eight of a fork's own record stand in the extents overflow file (TN1150, "Extents Overflow File").
#![tactic(auto)]

mod changes;
mod laws;
mod loading;
mod making;
mod record;
mod splitting;
mod storing;

pub use laws::stored_forks_are_loaded;
pub use loading::load_fork;
pub use record::{OverflowRecord, count_blocks, eight_extents, push_used};
pub use splitting::split;
pub use storing::{leave_out_unused, store_fork};
