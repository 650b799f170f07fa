//! Bitmaps over sectors in memory, and files there against a plain array of bytes.
#![tactic(auto)]

#[cfg(test)]
mod bitmaps;
#[cfg(test)]
mod borders;
#[cfg(test)]
mod calls;
#[cfg(test)]
mod file;
#[cfg(test)]
mod fills;
#[cfg(test)]
mod gates;
#[cfg(test)]
mod making;
#[cfg(test)]
mod moves;
#[cfg(test)]
mod plain;
#[cfg(test)]
mod power;
#[cfg(test)]
mod rows;
#[cfg(test)]
mod sectors;
