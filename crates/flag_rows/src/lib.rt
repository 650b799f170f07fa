//! Rows of flags with a tree of sums: runs of clear flags in logarithmic time.
#![tactic(auto)]

mod bitmap;
mod bits;
pub mod bytes;
mod row;
mod sums;
mod tally;
mod tree;

pub use bitmap::{Marks, bits_are_read_back, bits_sector, put_bits};
pub use bits::Bits;
pub use row::Row;
pub use sums::Sum;

#[cfg(test)]
mod tests;
