//! The findings of a check in words: what is wrong, at which path, and whether it can be mended from what is there. The image is only read.
#![tactic(auto)]

mod finding;
mod hearing;
mod image;
mod names;
mod notes;
mod refusal;
mod repair;
mod report;
mod runs;
mod words;

pub use image::explain;
