//! Bytes of files, growth of the trees' files, and housekeeping, on a volume in service.
#![tactic(auto)]

mod ahead;
mod ahead_spread;
mod awaiting;
mod cutting;
mod cutting_ahead;
mod growable;
mod growable_spread;
mod growing;
mod growing_attributes;
mod growing_extents;
mod growing_spread;
mod growing_spread_attributes;
mod orphans;
mod putting;
mod resizing;
mod spilling;
mod storing;
mod stripping;
mod temp_names;
mod tidying;
mod trimming;
mod unfiling;
mod valuing;
mod writing;
mod zeroing;

pub use ahead::{Growth, WhichTree, grow_tree};
pub use awaiting::{TreeWanted, next_growth};
pub use cutting_ahead::{CutAhead, cut_fork_ahead};
pub use growable::{can_grow_attributes, can_grow_catalog, can_grow_extents};
pub use growing::{first_eight, grow_catalog};
pub use growing_attributes::grow_attributes;
pub use growing_extents::grow_extents;
pub use putting::put_data;
pub use resizing::shorten;
pub use tidying::{Tidying, tidy};
pub use valuing::spill_value;
pub use writing::{lengthen, write};
pub use zeroing::{Growing, Zeros, blocks_for, fill_ahead};
