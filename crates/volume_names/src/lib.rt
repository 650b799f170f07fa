//! Commands that change names, links and dates of a volume in service.
#![tactic(auto)]

mod baring;
mod changing;
mod editing;
mod fields;
mod first_links;
mod fitting;
mod heading;
mod linking;
mod losing;
mod making;
mod mounting;
mod moving;
mod new_entries;
mod node_names;
mod orphaning;
mod private_folder;
mod relocating;
mod remove_room;
mod removing;
mod replacing;
mod setting;
mod sharing;
mod stamping;
mod touching;
mod unlinking;

pub use fitting::{fits_bare, fits_lose, fits_make, fits_move};
pub use heading::at;
pub use linking::ln;
pub use losing::rm;
pub use making::{add_record, create, mkdir};
pub use mounting::mark;
pub use moving::mv;
pub use new_entries::new_link;
pub use remove_room::values_to_remove;
pub use removing::rmdir;
pub use setting::chmod;
