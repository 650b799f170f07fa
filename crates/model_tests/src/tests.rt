//! Random lines have the same answers on the plain tree and in the table.
use crate::random::{Outcome, compare};
use hx_bytes::OutOfMemory;
use std::alloc::Global;
use std::test::Fail;

/// For each seed so many lines.
const LINES: u32 = 2_000;

fn are_same(alloc: Global, seed: u64) -> Result<bool, OutOfMemory> {
    match compare(alloc, seed, LINES)? {
        Outcome::Same => Ok(true),
        Outcome::Differs(_) => Ok(false),
    }
}

#[test]
fn random_lines_have_the_same_answers(rt: HostRuntime) -> Result<(), Fail> {
    for seed in 1..=3_u64 {
        assert!(rt; are_same(rt.alloc(), seed)?);
    }
    Ok(())
}
