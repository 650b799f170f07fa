//! Nodes and keys byte for byte, and trees edited thousands of times, held against a sorted list and looked through by a plain checker after each edit.
#![tactic(auto)]

#[cfg(test)]
mod edits;
#[cfg(test)]
mod grove;
#[cfg(test)]
mod keys;
#[cfg(test)]
mod looking;
#[cfg(test)]
mod nodes;
#[cfg(test)]
mod planting;
#[cfg(test)]
mod tests;
