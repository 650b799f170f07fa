//! An image repaired in one transaction: what it stands for is written home, and then the sectors in which its repair differs.
#![tactic(auto)]

mod mending;

pub use mending::mend_image;
