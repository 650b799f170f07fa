//! The bitmap of a volume: which blocks are used, which are held, and what a command changed.
#![tactic(auto)]

mod bitmap;
mod holds;
mod load;
mod log;
mod store;

pub use bitmap::Bitmap;
