//! The catalog as a map of entries: each folder and file has a record under its place, and a thread under its CNID that tells the place.
#![tactic(auto)]

mod adding;
mod edits;
mod finding;
mod folder;
mod laws;
mod listing;
mod moving;
mod pair;
mod removing;
mod updating;

pub use adding::add;
pub use btree_edit::{Inserted, Removed};
pub use finding::{by_id, lookup};
pub use folder::{Child, Children};
pub use laws::{
    entries_are_deleted, entries_are_inserted, keys_tell_places, trees_are_sorted,
    updates_change_values,
};
pub use listing::children;
pub use moving::{Moved, move_entry};
pub use removing::remove;
pub use updating::update;
