//! What the tests and benchmarks of the catalog and of attributes build on: their calls over nodes in memory, made only where what
//! they need holds.
#![tactic(auto)]

mod drawer;
mod names;
mod records;
mod shelf;
mod stop;

pub use drawer::Drawer;
pub use names::{Length, NameForm};
pub use records::{entry, is_entry, is_file};
pub use shelf::Shelf;
pub use stop::Stop;
