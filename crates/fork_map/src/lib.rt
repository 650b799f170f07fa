//! Lists of extents: the blocks of a fork, in order.
#![tactic(auto)]

mod cursor;
mod edits;
mod list;
mod place;
mod summed;

pub use cursor::Cursor;
pub use list::ExtentList;
pub use summed::SummedFork;

#[cfg(test)]
mod tests;
