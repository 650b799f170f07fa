//! Whole forks stored and loaded over nodes in memory, held against plain lists, with their records as the format has them.
#![tactic(auto)]

#[cfg(test)]
mod checks;
#[cfg(test)]
mod flaw;
#[cfg(test)]
mod fork;
#[cfg(test)]
mod forks;
#[cfg(test)]
mod gates;
#[cfg(test)]
mod tests;
