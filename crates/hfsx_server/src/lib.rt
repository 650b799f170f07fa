//! The program over an image: the words of a command line, what is told of them, and the top call.
#![tactic(auto)]

mod checking;
mod faults;
mod formatting;
mod generating;
mod header;
mod looking;
mod playing;
mod refusal;
mod repairing;
mod reports;
mod running;
mod sessions;
mod status;
mod top;

pub use checking::check;
pub use formatting::format;
pub use generating::{Played, generate};
pub use looking::look;
pub use refusal::{SizeRefusal, tell_mount, tell_open, tell_refusal, tell_usage};
pub use repairing::{Mendable, RepairRefusal, find_repair, repair};
pub use running::run;
pub use sessions::serve_sessions;
pub use status::Status;
pub use top::hfsx;
