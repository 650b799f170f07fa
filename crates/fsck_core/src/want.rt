//! Numbers that a rule wants.
ghost use Rattle.std.specs.Prelude.{◌≡◌, ◌≢◌, ◌↔◌, ◌⊎◌, ◌<◌, ◌&&◌, false, length, Contains, IsTrue, IfOk};
ghost use Rattle.fsck_list.specs.declared.finding.Finding.{Finding as Listed};
ghost use Rattle.fsck_list.specs.Kept.{IsListed};
ghost use Rattle.hfs_volume.specs.Broken.{AllMet, IsUnmet};
ghost use Rattle.fsck_core.specs.Wants.{as_found, wants_in, finding_of};

use fsck_list::{Finding, Findings};
use hx_bytes::OutOfMemory;

/// A number at a place, and the one that a rule wants there.
#[derive(Clone, Copy, Debug, PartialEq, Eq)]
pub struct Want {
    pub place: u64,
    pub found: u64,
    pub wanted: u64,
}

/// Adds a finding of a rule where a number isn't the one wanted, and says whether it is.
fn judge_want(rule: u8, want: Want, out: &mut Findings) -> Result<bool, OutOfMemory>
    ensures met { IfOk result (λ met. IsTrue met ↔ want.found ≡ want.wanted) }
    ensures listed { IfOk result (λ _. want.found ≢ want.wanted → IsListed out.new (finding_of rule want)) }
    ensures still { IfOk result (λ _. (finding : Listed) → IsListed out.old finding → IsListed out.new finding) }
    ensures each { (finding : Listed) → Contains out.new finding → Contains out.old finding ⊎ ((finding ≡ finding_of rule want) × (want.found ≢ want.wanted)) }
{
    if want.found == want.wanted {
        return Ok(true);
    }
    out.push(Finding {
        rule,
        place: want.place,
        found: want.found,
        wanted: want.wanted,
    })?;
    Ok(false)
}

pub(crate) fn both(one: bool, other: bool) -> bool
    ensures { result ≡ (one && other) }
{
    one && other
}

/// Adds a finding of a rule for each number that isn't the one wanted, and says whether each is.
pub fn judge_wants(rule: u8, wants: &[Want], out: &mut Findings) -> Result<bool, OutOfMemory>
    ensures met { IfOk result (λ met. IsTrue met ↔ AllMet (wants_in wants.now)) }
    ensures listed { IfOk result (λ _. (finding : Listed) → IsUnmet rule (as_found finding) (wants_in wants.now) → IsListed out.new finding) }
    ensures still { IfOk result (λ _. (finding : Listed) → IsListed out.old finding → IsListed out.new finding) }
    ensures each { (finding : Listed) → Contains out.new finding → Contains out.old finding ⊎ IsUnmet rule (as_found finding) (wants_in wants.now) }
{
    let mut met = true;
    for want in wants {
        let one = judge_want(rule, *want, out)?;
        met = both(one, met);
    }
    Ok(met)
}
