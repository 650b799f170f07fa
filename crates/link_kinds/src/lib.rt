//! Symbolic links and resource forks: what lines on them ask for, and where a path leads that follows links.
//!
//! A walk asks what stands under a name in a folder, is told, and goes on, until it has come to a folder or file that is no link, or knows why the path
//! leads nowhere. It follows at most 16 links.
#![tactic(auto)]

mod kinds;
mod line;
mod lists;
mod looker;
mod steps;
mod walk;
mod way;

pub use hfs_model::{KindEdit, Sight};
pub use kinds::{Ask, Folder, KindCommand, KindLine, KindRefusal};
pub use line::{is_kind_line, read_kind};
pub use looker::{Looker, follow};
pub use walk::Walk;

#[cfg(test)]
mod tests;
