//! Files saved out of an image that may be damaged, into a folder. The image is only read.
#![tactic(auto)]

mod content;
mod folder;
mod image;
mod job;
mod lines;
mod plan;
mod verdict;

pub use image::{ImageSectors, tell_unopened};
pub use job::salvage;
