//! What a check of a volume gathers: findings in order, records in a row, and places that are marked.
#![tactic(auto)]

mod finding;
mod findings;
mod marks;
mod pieces;
mod records;

pub use finding::Finding;
pub use findings::{Findings, MOST};
pub use marks::Marks;
pub use records::Records;

#[cfg(test)]
mod tests;
