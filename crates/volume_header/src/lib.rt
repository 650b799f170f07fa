//! The volume header: its fields, its sector, and which headers are accepted.
#![tactic(auto)]

mod header;
mod laws;
mod reading;
mod refusal;
#[cfg(test)]
mod tests;
mod writing;

pub use header::VolumeHeader;
pub use laws::header_round_trip;
pub use reading::{header_at, read_header};
pub use refusal::HeaderRefusal;
pub use writing::write_header;
