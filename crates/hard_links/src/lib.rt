//! Files with several names: each name is a link to the file, which stands in the private folder under a number.
#![tactic(auto)]

mod counting;
mod dropping;
mod first_links;
mod laws;
mod linking;
mod more_links;
mod naming;
mod numbers;
mod orphans;
mod place;
mod records;
mod resolving;
mod shared;

pub use dropping::drop_link;
pub use laws::plain_files_have_no_links;
pub use linking::{Linked, make_link};
pub use orphans::orphan;
pub use place::EntryAt;
pub use resolving::resolve;
