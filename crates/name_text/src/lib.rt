//! Names of files, folders and attributes as a component of a path spells them, and their order.
#![tactic(auto)]

mod ascii;
mod laws;
mod order;
mod piece;
mod pieces;
mod print;
mod read;
mod units;

pub use hx_bytes::Units;
pub use laws::{printed_is_one_word, printed_is_read_back, text_is_read_as_spelled};
pub use order::compare;
pub use piece::{NameFault, Piece};
pub use print::print_component;
pub use read::read_component;

#[cfg(test)]
mod tests;
