//! The file behind the program: an image that is opened and locked, a store that gathers writes and reads ahead, a disk, a sink
//! and a source over them, and the standard streams.
#![tactic(auto)]

mod again;
mod ahead;
mod device;
mod failure;
mod gathered;
mod identity;
mod image;
mod limit;
mod opening;
mod place;
mod rig;
mod source;
mod sparse;
mod store;
mod streams;
mod waiting;

pub use failure::{Act, Failure, tell, tell_stream};
pub use image::Image;
pub use limit::{FileLimit, Limited};
pub use place::Place;
pub use rig::FileRig;
pub use source::StdinSource;
pub use sparse::Sparse;
pub use store::Store;
pub use streams::{Stream, take_closed};
pub use waiting::Waiting;

#[cfg(test)]
mod tests;
