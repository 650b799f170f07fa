//! The lives of trees in forks of sectors in memory.
#![tactic(auto)]

mod calls;
mod life;
mod made;
mod pairs;
mod plot;
#[cfg(test)]
mod tests;

pub use life::{Edit, Flaw, Growth, live, live_on};
pub use made::{Made, write_tree};
pub use pairs::{Kind, key_of, value_of};
pub use plot::{Plot, lies_below};
pub use sector_kit::Sectors;
