//! The structures of a volume's journal, and what a journal stands for.
#![tactic(auto)]

mod blocks;
mod dialect;
mod header;
mod info;
mod laws;
mod list;
mod structures;
mod sums;

pub use blocks::{Home, Volume};
pub use dialect::Dialect;
pub use header::{read_header, read_header_as, write_header};
pub use info::{first_info_fault, info_fields, read_info, write_info};
pub use laws::{
    entry_round_trip, header_written_back, info_written_back, list_round_trip, wide_takes_plain,
};
pub use list::{read_entry, read_list, write_entry, write_list};
pub use structures::{Entry, Header, Info, JnlRefusal, ListHead};
pub use sums::checksum;
