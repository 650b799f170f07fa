//! Which files use blocks that another uses too, and which blocks nothing uses.

use crate::bitmap::Bits;
use hx_bytes::Extent;
use std::alloc::{AllocError, Global};

/// Blocks from `start` to before `end`, and whose they are.
#[derive(Clone, Copy, Debug, PartialEq, Eq, PartialOrd, Ord)]
pub struct Claim {
    pub start: u64,
    pub end: u64,
    pub owner: usize,
}

/// All blocks that are in use.
#[derive(Drop)]
pub struct Claims {
    claims: Vec<Claim>,
}

impl Claims {
    pub fn new(alloc: Global) -> Claims {
        Claims {
            claims: Vec::new(alloc),
        }
    }

    /// Adds the blocks of extents.
    pub fn add(&mut self, owner: usize, extents: &[Extent]) -> Result<(), AllocError> {
        for extent in extents {
            let start = u64::from(extent.start);
            let end = start.saturating_add(u64::from(extent.count));
            self.add_range(owner, start, end)?;
        }
        Ok(())
    }

    /// Adds the blocks from `start` to before `end`.
    pub fn add_range(&mut self, owner: usize, start: u64, end: u64) -> Result<(), AllocError> {
        if start < end {
            self.claims.push(Claim { start, end, owner })?;
        }
        Ok(())
    }

    /// Brings the claims into the order of their blocks.
    pub fn sort(&mut self) {
        self.claims.sort_unstable();
    }

    /// For each owner below `owners` whether one of its blocks is claimed twice.
    pub fn shared(&mut self, alloc: Global, owners: usize) -> Result<Vec<bool>, AllocError> {
        self.sort();
        let mut shared = vec![in alloc; false; owners]?;
        // The claim that reaches farthest of those before.
        let mut widest = Claim {
            start: 0,
            end: 0,
            owner: owners,
        };
        for claim in self.claims.as_slice() {
            if claim.start < widest.end {
                mark(shared.as_mut_slice(), claim.owner);
                mark(shared.as_mut_slice(), widest.owner);
            }
            if claim.end > widest.end {
                widest = *claim;
            }
        }
        Ok(shared)
    }

    /// The blocks of a bitmap that are set and that nothing claims, as runs. The claims have to be sorted.
    pub fn unclaimed(
        &self,
        alloc: Global,
        bits: &Bits,
        blocks: u64,
    ) -> Result<Vec<Claim>, AllocError> {
        let mut runs = Vec::new(alloc);
        let mut front: u64 = 0;
        for claim in self.claims.as_slice() {
            add_set(&mut runs, bits, front, claim.start.min(blocks))?;
            front = front.max(claim.end);
        }
        add_set(&mut runs, bits, front, blocks)?;
        Ok(runs)
    }
}

fn mark(shared: &mut [bool], owner: usize) {
    if let Some(mark) = shared.get_mut(owner) {
        *mark = true;
    }
}

// Adds the runs of bits that are set from `from` to before `to`.
fn add_set(runs: &mut Vec<Claim>, bits: &Bits, from: u64, to: u64) -> Result<(), AllocError> {
    let mut start = from;
    for at in from..to {
        if !bits.is_set(at) {
            add_run(runs, start, at)?;
            start = at.saturating_add(1);
        }
    }
    add_run(runs, start, to)
}

fn add_run(runs: &mut Vec<Claim>, start: u64, end: u64) -> Result<(), AllocError> {
    if start < end {
        runs.push(Claim {
            start,
            end,
            owner: 0,
        })?;
    }
    Ok(())
}
