//! What a volume that was just made is to those who read it: laws that join how `volume_make` makes it to how whole volumes are read.
#![tactic(auto)]

mod formatting;
mod laws;

pub use formatting::format;
pub use laws::{
    formatted_is_sound, fresh_attributes_are_sound, fresh_bits_are_found, fresh_blocks_are_sound,
    fresh_entries_are_sound, fresh_journal_is_empty, fresh_pairs_are_found,
    fresh_records_are_found, fresh_tree_is_found, fresh_trees_are_found, fresh_trees_stand,
};
