//! Makes a volume: where its parts lie, what they hold, and the writes that put it on a disk.
#![tactic(auto)]

mod fault;
mod formatting;
mod laws;
mod layout;
mod leaf;
mod refusing;
mod texts;
mod trees;
mod writing;

pub use fault::FormatFault;
pub use formatting::format;
pub use hfs_volume::Summary;
pub use laws::{
    fresh_header_is_accepted, fresh_journal_is_found, fresh_nodes_are_read_back, places_are_worked,
};
pub use layout::{Layout, layout_of};
pub use refusing::format_refusal;
