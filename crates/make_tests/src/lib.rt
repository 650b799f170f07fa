//! Volumes of many sizes, made on disks in memory: numbers, refusals and bytes from outside.
#![tactic(auto)]

#[cfg(test)]
mod bytes;
#[cfg(test)]
mod sizes;
#[cfg(test)]
mod volumes;
