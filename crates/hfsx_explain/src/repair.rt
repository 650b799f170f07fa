//! What `hfsx repair` would make of a volume: it is asked as `repair` asks itself, and nothing is written.

use crate::finding::Finding;
use fsck_list::Findings;
use hfsx_server::{RepairRefusal, find_repair};
use sector_disk::SectorDisk;
use std::alloc::{AllocError, Global};

/// What `hfsx repair` would do with a volume that isn't sound.
#[derive(Drop)]
pub(crate) enum Repair {
    /// It writes so many sectors, and the volume is sound then.
    Mends(u64),
    /// These findings stay, so it writes nothing.
    Leaves(Vec<Finding>),
    /// More sectors differ than one transaction of the journal holds.
    TooBig { sectors: u64, capacity: u64 },
    /// It refuses the image.
    Refused,
    /// It can't be told: there was no memory, or the image couldn't be read.
    Unknown,
}

impl Repair {
    /// What it would do with the volume of an image.
    pub(crate) fn of<D: SectorDisk>(alloc: Global, disk: &mut D) -> Result<Repair, AllocError> {
        match find_repair(alloc, disk) {
            Ok(Ok(found)) => Ok(Repair::Mends(found.sectors())),
            Ok(Err(RepairRefusal::Unsound(stay))) => Ok(Repair::Leaves(kept(alloc, &stay)?)),
            Ok(Err(RepairRefusal::TooBig { sectors, capacity })) => {
                Ok(Repair::TooBig { sectors, capacity })
            }
            Ok(Err(_)) => Ok(Repair::Refused),
            Err(_) => Ok(Repair::Unknown),
        }
    }

    /// Whether a finding can be mended from what is there, if that can be told.
    pub(crate) fn mends(&self, finding: &Finding) -> Option<bool> {
        match self {
            Repair::Mends(_) | Repair::TooBig { .. } => Some(true),
            Repair::Leaves(stay) => Some(!contains(stay.as_slice(), finding)),
            Repair::Refused | Repair::Unknown => None,
        }
    }

    /// The findings that stay.
    pub(crate) fn left(&self) -> &[Finding] {
        match self {
            Repair::Leaves(stay) => stay.as_slice(),
            _ => &[],
        }
    }
}

// The findings of a list.
fn kept(alloc: Global, findings: &Findings) -> Result<Vec<Finding>, AllocError> {
    let mut kept = Vec::new(alloc);
    for finding in findings.as_slice() {
        kept.push(Finding {
            rule: finding.rule,
            place: finding.place,
            found: finding.found,
            wanted: finding.wanted,
        })?;
    }
    Ok(kept)
}

/// Whether a rule is among findings at a place.
pub(crate) fn contains(findings: &[Finding], one: &Finding) -> bool {
    for it in findings {
        if it.rule == one.rule && it.place == one.place {
            return true;
        }
    }
    false
}
