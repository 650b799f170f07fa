//! The lines of a source: they are cut out of its bytes one by one, or handed over as lines, and as many as are there without waiting make a batch.
#![tactic(auto)]

mod batch;
mod input;
mod line;
mod source;
mod taken;

pub use batch::drop_first;
pub use input::{Input, InputFault};
pub use line::Line;
pub use source::LineSource;
