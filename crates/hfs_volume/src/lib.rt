//! Whole volumes: when one is sound, which tree it tells, what commands take of it and change in it, and the laws of these.
#![tactic(auto)]

mod asked;
mod cost;
mod laws;
mod laws_aside;
mod laws_attributes;
mod laws_blocks;
mod laws_changes;
mod laws_findings;
mod laws_kinds;
mod laws_names;
mod laws_reclaiming;
mod laws_steps;
mod laws_values;
mod laws_writing;
mod summary;

pub use asked::Asked;
pub use cost::{Cost, Needs, Room, TreeCost, ValueChange};
pub use laws::{
    chmod_does_its_step, create_does_its_step, entry_may_join, header_may_change,
    hidden_is_computed, mkdir_does_its_step, rmdir_does_its_step, soundness_has_two_halves,
    value_may_change,
};
pub use laws_aside::{aside_is_free, free_is_filled};
pub use laws_attributes::{
    at_does_its_step, delattr_does_its_step, mount_keeps_the_tree, setattr_does_its_step,
    setattr_of_a_long_value_does_its_step,
};
pub use laws_blocks::{blocks_may_be_put, records_have_extents, tree_may_grow};
pub use laws_changes::{
    attribute_may_be_added, entry_may_be_added, entry_may_be_moved, entry_may_be_removed,
};
pub use laws_findings::{no_finding_is_sound, sound_has_no_finding};
pub use laws_kinds::{rwrite_does_its_step, symlink_does_its_step};
pub use laws_names::{ln_does_its_step, mv_does_its_step, rm_does_its_step};
pub use laws_reclaiming::{
    reclaim_drops_an_attribute, reclaim_drops_an_entry, reclaim_drops_attributes_of_orphans,
    reclaim_drops_entries_of_bare_orphans,
};
pub use laws_steps::{sound_content_has_tree, sound_has_plain_tree, step_keeps_trees};
pub use laws_values::{inline_values_stay, value_may_be_freed, values_may_be_put};
pub use laws_writing::{
    cut_of_a_shrunk_file_keeps_the_tree, cut_of_an_orphan_keeps_the_tree, growth_keeps_the_tree,
    other_files_keep_their_bytes, rewrite_puts_its_blocks_alone, rewrite_without_data_keeps_blocks,
    trunc_does_its_step, write_does_its_step, write_of_nothing_does_its_step,
};
pub use summary::Summary;
