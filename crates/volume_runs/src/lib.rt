//! Definitions of runs: lines with their replies and the contents before and after them, housekeeping between them, and what watchers are told.
//! They stand in `specs/`; there is nothing to call.
#![tactic(auto)]
