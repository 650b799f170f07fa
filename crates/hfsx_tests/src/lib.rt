//! Whole runs of the program over disks and sources in memory.
#![tactic(auto)]

#[cfg(test)]
mod barriers;
#[cfg(test)]
mod checks;
#[cfg(test)]
mod counting;
#[cfg(test)]
mod faults;
#[cfg(test)]
mod formats;
#[cfg(test)]
mod growths;
#[cfg(test)]
mod lines;
#[cfg(test)]
mod looks;
#[cfg(test)]
mod repairs;
#[cfg(test)]
mod sessions;
#[cfg(test)]
mod values;
#[cfg(test)]
mod watching;
