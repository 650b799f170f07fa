//! What can be read of an HFS Plus volume that may be damaged: its headers, each leaf of its trees by itself, the files that their
//! records tell, the paths of these, and which of them share blocks.
#![tactic(auto)]

mod bitmap;
mod catalog;
mod extras;
mod field;
mod fork;
mod leaves;
mod links;
mod names;
mod node;
mod overflow;
mod paths;
mod reading;
mod shared;
mod source;
mod strays;
mod text;
mod tree;
mod unerased;
mod volume;

pub use bitmap::Bits;
pub use catalog::{Catalog, FoundFile, FoundFolder, Placed};
pub use extras::{Extra, Extras, read_extras};
pub use fork::{Fork, ForkKind};
pub use links::{Links, is_link};
pub use names::file_name;
pub use overflow::Overflow;
pub use paths::{Base, Path, file_path, folder_path};
pub use reading::{Survey, read_survey};
pub use shared::{Claim, Claims};
pub use source::{Sectors, read_fork, read_sectors};
pub use text::{push_json, push_shown};
pub use volume::{Copy, Volume};

#[cfg(test)]
mod tests;
