//! The language of lines: a line is read to a command, and a reply is printed as a line.
#![tactic(auto)]

mod command;
mod escapes;
mod fault;
mod line;
mod pairs;
mod path;
mod pieces;
mod print;
mod reading;
mod refusal;
mod reply;
mod spelled;
mod spellings;
mod split;
mod value;
mod valued;
mod words;
mod written;

pub use fault::LineFault;
pub use line::{MOST_BYTES, read_line, text_of};
pub use path::read_path;
pub use print::push_field;
pub use reply::print_reply;
pub use split::{components_of, words_of};
pub use value::{push_value, read_value};
pub use valued::read_valued;
pub use words::{BAD_COMMAND, read_number, read_small_number, read_value_text};
