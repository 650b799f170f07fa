//! Tests of the scan of a tree, whole and damaged.
#![tactic(auto)]

#[cfg(test)]
mod scans;
