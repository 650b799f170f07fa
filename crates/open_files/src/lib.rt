//! Sessions with open files: what their lines ask for, what they are told, and which files are open.
//!
//! Many sessions speak in one stream, each line behind its session's number. A file that a session has open keeps an entry in a folder of
//! its own once its last name is taken away, and is gone with its last handle. The definitions say what every line does and is told; the calls read
//! and print lines, keep the table of handles, and name the keeping folder's entries.
#![tactic(auto)]

mod act;
mod copies;
mod keeping;
mod line;
mod print;
mod session;
mod table;

pub use act::{Act, OpenFile, SessionLine, SessionReply};
pub use copies::{copy_name, copy_path};
pub use keeping::{
    is_keeping_name, is_keeping_path, is_own_keeper, keeping_path, kept_path, names_keeping,
    release, saves,
};
pub use line::read_session;
pub use print::print_session_reply;
pub use session::session_of;
pub use table::{Closed, MOST_OPEN, Opened, Table};

#[cfg(test)]
mod tests;
