//! The words of the program's command line: our own tests of them, and `clap`.
#![tactic(auto)]

mod grammar;
mod named;
mod reading;

pub use named::{Work, named_work};
pub use reading::read_words;
