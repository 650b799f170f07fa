//! The language of lines: commands, what each is answered, how a line spells a command and how a reply is printed, with the laws of both.
#![tactic(auto)]

mod command;
mod laws;
mod refusal;
mod reply;

pub use command::{Command, Path};
pub use laws::{
    attribute_is_read_as_spelled, command_is_read_back, content_is_shown, facts_are_shown,
    gauge_is_shown, line_is_read_as_spelled, line_spells_one_command, lines_end, listing_is_shown,
    mode_is_read_as_spelled, newlines_count_the_answered, path_is_read_as_spelled,
    refusal_is_shown, refusals_come_in_order, replies_are_shown, reply_is_one_line, reply_is_shown,
    value_is_read_as_spelled, value_is_read_back,
};
pub use refusal::Refusal;
pub use reply::{Change, ChangeKind, Changes, Facts, Gauge, ListedName, Listing, Reply, TreeGauge};
