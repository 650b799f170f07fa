//! A checker of volumes, which keeps what it finds.

use fsck_list::Findings;
use std::alloc::Global;

/// Judges volumes by all rules.
#[derive(Drop)]
pub struct VolumeChecker {
    /// What it found wrong of the volume that it judged last, in order, the first hundred.
    pub found: Findings,
}

impl VolumeChecker {
    /// A checker that has found nothing.
    pub fn new(alloc: Global) -> VolumeChecker {
        VolumeChecker {
            found: Findings::new(alloc),
        }
    }
}
