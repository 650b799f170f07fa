//! The calls of attributes over nodes in memory, held against a plain table: trees that split, shrink and empty.
#![tactic(auto)]

#[cfg(test)]
mod checks;
#[cfg(test)]
mod flaw;
#[cfg(test)]
mod steps;
#[cfg(test)]
mod table;
#[cfg(test)]
mod tests;
