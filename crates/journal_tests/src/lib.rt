//! The journal's layers over a disk in memory: what each call does with ample memory, and where the
//! disk fails.
#![tactic(auto)]

#[cfg(test)]
mod adoption;
#[cfg(test)]
mod replays;
#[cfg(test)]
mod ring;
#[cfg(test)]
mod trying;
#[cfg(test)]
mod wide;
