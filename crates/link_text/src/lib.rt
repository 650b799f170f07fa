//! The text of a symbolic link: whether bytes are one, and the components to which it leads.
#![tactic(auto)]

mod target;

pub use target::{is_from_root, read_target};
