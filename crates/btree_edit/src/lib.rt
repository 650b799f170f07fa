//! Searches and edits of a B-tree, generic over the store of its nodes and the order of its keys.
#![tactic(auto)]

mod climbing;
mod desk;
mod edits;
mod finding;
mod following;
mod levels;
mod replacing;
mod room;
mod roots;
mod search;
mod splitting;
mod swapping;
mod tracing;
mod walking;

pub use desk::Desk;
pub use edits::{Inserted, Removed, insert, remove};
pub use finding::{Found, find, look};
pub use following::next;
pub use replacing::replace;
pub use swapping::swap;
pub use walking::{seek, step};
