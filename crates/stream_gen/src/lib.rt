//! A stream of commands, made from a seed: the same lines for the same seed, and each of them possible when it comes.
//!
//! Each eight lines make a folder, a file in it, write, link, mark, move, write again and remove the file's first name.
#![tactic(auto)]

mod stream;
mod text;

pub use stream::line;

#[cfg(test)]
mod tests;
