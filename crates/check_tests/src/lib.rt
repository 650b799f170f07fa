//! Checks of whole volumes in memory: sound ones, and ones with a damage for each rule.
#![tactic(auto)]

#[cfg(test)]
mod blank;
#[cfg(test)]
mod chance;
#[cfg(test)]
mod forked;
#[cfg(test)]
mod fuller;
#[cfg(test)]
mod leaves;
#[cfg(test)]
mod volumes;
