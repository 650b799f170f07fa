//! A volume, checked by all rules.
ghost use Rattle.std.specs.Prelude.{◌≡◌, ◌↔◌, ◌⊎◌, ◌<◌, ◌≤◌, [], true, length, Contains, IsTrue, IfOk, IsErrOf, if◌then◌else◌};
ghost use Rattle.hx_bytes.specs.declared.faults.Trouble.TheVariants.{Disk};
ghost use Rattle.sector_disk.specs.Cause.{Rose};
ghost use Rattle.volume_header.specs.Refusal.{is_volume_size};
ghost use Rattle.btree_file.specs.Frame.{ReadsSpace};
ghost use Rattle.fsck_list.specs.declared.finding.Finding.{Finding as Listed};
ghost use Rattle.fsck_list.specs.Kept.{IsListed};
ghost use Rattle.hfs_volume.specs.Broken.{IsBroken};
ghost use Rattle.hfs_volume.specs.Content.{volume_of};
ghost use Rattle.hfs_volume.specs.Findings.{HasBytes};
ghost use Rattle.hfs_volume.specs.Sound.{IsSound};
ghost use Rattle.fsck_core.specs.Verdicts.{is_clean, findings_in, IsCounted, KeepsEarly, IsChecked, summary_in, verdict_of};
ghost use Rattle.fsck_core.specs.Wants.{as_found};
ghost use Rattle.fsck_core.specs.Rules.{EachRule};

use crate::judging::judge_lists;
use crate::opening::read_head;
use crate::volume::read_lists;
use fsck_list::Findings;
use hfs_volume::Summary;
use hx_bytes::Trouble;
use sector_disk::SectorView;
use std::alloc::Global;
use volume_header::VolumeHeader;

/// What a check of a volume says.
#[derive(Drop)]
pub enum Verdict {
    /// The volume is sound, and has so many files, folders and blocks.
    Clean(Summary),
    /// Rules are broken: the findings in order, of more than a hundred the first hundred.
    Findings(Findings),
}

/// The numbers of a sound volume, which its header counts.
fn summary_of(head: &VolumeHeader) -> Summary
    ensures { result ≡ summary_in head.now }
{
    Summary {
        files: head.file_count,
        folders: head.folder_count,
        blocks: head.total_blocks,
        free: head.free_blocks,
    }
}

/// Judges all rules of a volume, up to the first of those before the eleventh that is broken; where none of these is, its header is given.
fn judge_all<V: SectorView>(
    alloc: Global,
    view: &mut V,
    out: &mut Findings,
) -> Result<Option<VolumeHeader>, Trouble>
    requires size { is_volume_size (V.space view.old).sectors ≡ true }
    requires none { out.old ≡ [] }
    ensures checked { IsTrue (V.space view.old).tells → HasBytes (V.space view.old).content → IfOk result (λ head. IsChecked (V.space view.old).content head out.new) }
    ensures reads { ReadsSpace (V.space view.old) (V.space view.new) }
    ensures below { V.follows view.old view.new }
    ensures disk { IsErrOf result Disk → Rose (V.space view.old).faults (V.space view.new).faults }
{
    let Some(head) = read_head(view, out)? else {
        return Ok(None);
    };
    let Some(lists) = read_lists(alloc, view, &head, out)? else {
        return Ok(None);
    };
    judge_lists(alloc, &lists, out)?;
    Ok(Some(head))
}

/// The verdict on a volume of which all rules were judged, or those up to one that is broken.
fn verdict_of(head: Option<VolumeHeader>, out: Findings) -> Verdict
    ensures { result ≡ verdict_of head out }
{
    let Some(head) = head else {
        return Verdict::Findings(out);
    };
    if out.len() > 0 {
        return Verdict::Findings(out);
    }
    Verdict::Clean(summary_of(&head))
}

/// Checks a volume by all rules: it is clean exactly where it is sound. Where it isn't, each finding names a rule that is broken there, a finding
/// is listed of each broken rule that can be judged, and of rules 11 to 14 each place is listed where none of the first ten is broken. Nothing is
/// written.
pub fn check<V: SectorView>(alloc: Global, view: &mut V) -> Result<Verdict, Trouble>
    requires { is_volume_size (V.space view.old).sectors ≡ true }
    ensures sound { IsTrue (V.space view.old).tells → HasBytes (V.space view.old).content → IfOk result (λ verdict. IsTrue (is_clean verdict) ↔ IsSound (V.space view.old).content) }
    ensures counted { IsTrue (V.space view.old).tells → HasBytes (V.space view.old).content → IfOk result (λ verdict. IsCounted (volume_of (V.space view.old).content) verdict) }
    ensures some { IsTrue (V.space view.old).tells → HasBytes (V.space view.old).content → IfOk result (λ verdict. IsTrue (is_clean verdict) ⊎ (0 < length (findings_in verdict))) }
    ensures broken { IsTrue (V.space view.old).tells → HasBytes (V.space view.old).content → IfOk result (λ verdict. (f : Listed) → Contains (findings_in verdict) f → IsBroken (V.space view.old).content (as_found f)) }
    ensures each_rule { IsTrue (V.space view.old).tells → HasBytes (V.space view.old).content → IfOk result (λ verdict. EachRule (V.space view.old).content (findings_in verdict)) }
    ensures listed { IsTrue (V.space view.old).tells → HasBytes (V.space view.old).content → KeepsEarly (V.space view.old).content
        → IfOk result (λ verdict. (f : Listed) → 11 ≤ f.rule → f.rule ≤ 14 → IsBroken (V.space view.old).content (as_found f) → IsListed (findings_in verdict) f) }
    ensures reads { ReadsSpace (V.space view.old) (V.space view.new) }
    ensures below { V.follows view.old view.new }
    ensures disk { IsErrOf result Disk → Rose (V.space view.old).faults (V.space view.new).faults }
{
    let mut out = Findings::new(alloc);
    let head = judge_all(alloc, view, &mut out)?;
    Ok(verdict_of(head, out))
}
