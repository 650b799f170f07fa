//! The bytes of files: reads and writes over a fork's blocks, block by block, in which no block that a file holds is overwritten.
#![tactic(auto)]

mod parts;
mod reading;
mod shrinking;
mod spilling;
mod walk;
mod writing;
mod zeroing;

pub use reading::read;
pub use shrinking::{blocks_in, give_all, shrink_step};
pub use writing::{grow_step, write};
pub use zeroing::zero_step;
