//! A finding where something that a rule asks for doesn't hold.
ghost use Rattle.std.specs.Prelude.{◌≡◌, ◌⊎◌, false, Contains, IfOk};
ghost use Rattle.fsck_list.specs.declared.finding.Finding.{Finding as Listed};
ghost use Rattle.fsck_list.specs.Kept.{IsListed};
ghost use Rattle.fsck_core.specs.Decided.{StaysListed};

use fsck_list::{Finding, Findings};
use hx_bytes::OutOfMemory;

/// Adds a finding of a rule that has no number at a place where it doesn't hold, and says whether it does.
pub(crate) fn add_unless(
    rule: u8,
    holds: bool,
    place: u32,
    out: &mut Findings,
) -> Result<bool, OutOfMemory>
    ensures met { IfOk result (λ met. met ≡ holds) }
    ensures found { IfOk result (λ met. met ≡ false → IsListed out.new (record { rule = rule; place = place; found = 0; wanted = 1 })) }
    ensures still { StaysListed out.old out.new }
    ensures each { (finding : Listed) → Contains out.new finding → Contains out.old finding ⊎ ((holds ≡ false) × (finding ≡ record { rule = rule; place = place; found = 0; wanted = 1 })) }
{
    if holds {
        return Ok(true);
    }
    out.push(Finding {
        rule,
        place: place as u64,
        found: 0,
        wanted: 1,
    })?;
    Ok(false)
}
