//! Between the files of the system and the lines of a volume: a job that asks lines and hears replies, names and bytes in the words of a
//! line and back, dates, and what a user is told.
#![tactic(auto)]

mod dates;
mod list;
mod names;
mod notes;
mod reasons;
mod talk;
mod words;

pub use dates::{Date, FIRST_SECOND, LAST_SECOND, date_of, seconds_of};
pub use list::LineList;
pub use names::{NameLack, child_of, component_word, name_of, word_of};
pub use notes::{Counts, Notes};
pub use reasons::reason_of;
pub use talk::{Job, Lines, Replies, Talk};
pub use words::{
    Facts, PIECE, content_of, facts_of, is_ok, push_attribute, push_mode, push_number, push_path,
    push_written,
};
