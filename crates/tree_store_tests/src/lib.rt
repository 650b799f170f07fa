//! The trees of volumes that were made on disks in memory, edited in a store over its journal.
#![tactic(auto)]

#[cfg(test)]
mod asking;
#[cfg(test)]
mod flaw;
#[cfg(test)]
mod grove;
#[cfg(test)]
mod quiet;
#[cfg(test)]
mod tests;
