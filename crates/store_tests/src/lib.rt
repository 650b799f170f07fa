//! Transactions over a disk in memory: which calls they make, what they answer and write, and what a crash leaves.
#![tactic(auto)]

#[cfg(test)]
mod capacities;
#[cfg(test)]
mod commits;
#[cfg(test)]
mod crashes;
#[cfg(test)]
mod kept;
#[cfg(test)]
mod losses;
#[cfg(test)]
mod mounted;
#[cfg(test)]
mod quiet;
#[cfg(test)]
mod rounds;
#[cfg(test)]
mod steps;
#[cfg(test)]
mod tests;
#[cfg(test)]
mod texts;
#[cfg(test)]
mod volumes;
