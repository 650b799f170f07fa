//! Files with several names, over nodes in memory: a first link and later ones, names dropped down to the last, numbers that others have.
#![tactic(auto)]

#[cfg(test)]
mod folders;
#[cfg(test)]
mod places;
#[cfg(test)]
mod records;
#[cfg(test)]
mod steps;
#[cfg(test)]
mod stop;
#[cfg(test)]
mod tests;
