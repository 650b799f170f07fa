//! What the tests and benchmarks of several crates build on: a store of nodes in memory that tells contracts nothing of their bytes.
#![tactic(auto)]

mod untold;

pub use untold::Untold;
