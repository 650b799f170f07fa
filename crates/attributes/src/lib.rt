//! The attributes of folders and files as a map of values: each has a name, and a value that stands in its record or in a fork.
#![tactic(auto)]

mod clearing;
mod dropping;
mod edits;
mod finding;
mod forks;
mod holding;
mod laws;
mod listing;
mod pair;
mod setting;
mod value;

pub use clearing::drop_all;
pub use finding::value_of;
pub use laws::{forks_are_inserted, values_are_deleted, values_are_inserted};
pub use listing::list;
pub use setting::{delete, set, set_fork};
pub use value::{Deleted, Dropped, ValueAt};
