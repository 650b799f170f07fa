//! Tests of what commands cost, against numbers counted by hand.
#![tactic(auto)]

#[cfg(test)]
mod costs;
