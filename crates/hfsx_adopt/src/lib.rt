//! Volumes whose journal later systems wrote: made ones that `hfsx` serves, or looked at as they would be then.
#![tactic(auto)]

mod adopting;
mod extras;
mod in_memory;
mod telling;

pub use adopting::{adopt, adopt_on};
pub use extras::extras_of;
pub use in_memory::InMemory;
