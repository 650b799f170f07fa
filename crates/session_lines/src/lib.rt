//! Lines of sessions, served: files that are open are read by their handles, whatever becomes of their names.
//!
//! Each line is one of `open_files`. What it does on the volume are commands: looks at what stands under a path, the commands that save an open file
//! whose last name goes, the line's own command, and the one that releases a file whose last handle is closed.
#![tactic(auto)]

mod acting;
mod answering;
mod asking;
mod beginning;
mod editing;
mod ending;
mod errands;
mod following;
mod going;
mod handles;
mod laws;
mod linking;
mod own;
mod quiet;
mod reading;
mod releasing;
mod serving;
mod sessions;
mod silent;
mod stages;
mod taken;
mod writing;

pub use beginning::sound_trees_may_begin;
pub use errands::{Errand, Look, errand_of};
pub use going::go_on;
pub use laws::{
    commands_keep_what_is_kept, commands_leave_trees, entries_are_turns, files_keep_entries,
    ids_stay_few, lines_follow_lines, looks_save_what_is_taken, runs_keep_sessions,
};
pub use quiet::quietly;
pub use sessions::Sessions;
pub use stages::Stage;
pub use taken::Keepers;
