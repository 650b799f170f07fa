//! Power failures at every moment of whole runs over a disk in memory: what a mount finds afterwards.
#![tactic(auto)]

#[cfg(test)]
mod crashes;
#[cfg(test)]
mod faults;
#[cfg(test)]
mod few;
#[cfg(test)]
mod journals;
#[cfg(test)]
mod names;
#[cfg(test)]
mod plain;
#[cfg(test)]
mod reclaims;
#[cfg(test)]
mod repairs;
#[cfg(test)]
mod replaces;
#[cfg(test)]
mod replays;
#[cfg(test)]
mod runs;
#[cfg(test)]
mod sessions;
#[cfg(test)]
mod stops;
#[cfg(test)]
mod tests;
#[cfg(test)]
mod twice;
#[cfg(test)]
mod values;
