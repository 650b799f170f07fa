//! An image whose journal later systems wrote, made one that `run` serves.
#![tactic(auto)]

mod adopting;
mod answers;
mod laws;

pub use adopting::adopt_image;
pub use answers::{AdoptRefusal, Adopted, Made};
pub use laws::adoption_goes_on;
