//! Findings side by side: bits of blocks that follow one another are one.

use crate::finding::Finding;
use crate::repair::Repair;
use crate::words::can_be_mended;
use std::alloc::{AllocError, Global};

/// Findings of one kind at places that follow one another.
#[derive(Clone, Copy)]
pub(crate) struct Run {
    pub(crate) first: Finding,
    /// The last place.
    pub(crate) last: u64,
    /// Whether they can be mended from what is there.
    pub(crate) mends: bool,
}

/// The rule of the bits of blocks, and that of the bits of nodes.
const BLOCK_BITS: u8 = 13;

const NODE_BITS: u8 = 7;

impl Run {
    // Whether a finding goes on where this run ends.
    fn goes_on(&self, finding: &Finding, mends: bool) -> bool {
        let first = &self.first;
        self.mends == mends
            && (first.rule == BLOCK_BITS || first.rule == NODE_BITS)
            && first.rule == finding.rule
            && first.found == finding.found
            && first.wanted == finding.wanted
            && self.last.checked_add(1) == Some(finding.place)
    }

    /// How many findings it has.
    pub(crate) fn count(&self) -> u64 {
        self.last.saturating_sub(self.first.place).saturating_add(1)
    }
}

/// The runs of findings, which stand in order.
pub(crate) fn runs_of(
    alloc: Global,
    findings: &[Finding],
    repair: &Repair,
) -> Result<Vec<Run>, AllocError> {
    let mut runs: Vec<Run> = Vec::new(alloc);
    for finding in findings {
        let mends = match repair.mends(finding) {
            Some(mends) => mends,
            None => can_be_mended(finding.rule, finding.found, finding.wanted),
        };
        let mut joined = false;
        if let Some(run) = runs.as_mut_slice().last_mut() {
            if run.goes_on(finding, mends) {
                run.last = finding.place;
                joined = true;
            }
        }
        if !joined {
            runs.push(Run {
                first: *finding,
                last: finding.place,
                mends,
            })?;
        }
    }
    Ok(runs)
}
