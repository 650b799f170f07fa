//! The volume header and its alternate, read and judged (rules 1 and 2).
ghost use Rattle.std.specs.Prelude.{◌≡◌, ◌<◌, [], length, true, IfOk, IfSome, MatchOption, IsErrOf};
ghost use Rattle.hx_bytes.specs.declared.faults.Trouble.TheVariants.{Disk};
ghost use Rattle.sector_disk.specs.Cause.{Rose};
ghost use Rattle.jnl_format.specs.Recovery.{Content, header_of_volume};
ghost use Rattle.volume_header.specs.Refusal.{is_volume_size};
ghost use Rattle.btree_file.specs.Frame.{ReadsSpace};
ghost use Rattle.hfs_volume.specs.Blocks.{IsGoodHeader, AgreesWith};
ghost use Rattle.hfs_volume.specs.Content.{volume_of};
ghost use Rattle.fsck_core.specs.Passed.{Passed};
ghost use Rattle.fsck_core.specs.Shown.{Shows, IsBrokenHeader, FindsEarly, TellsHeader};
ghost use Rattle.fsck_core.specs.Rules.{TellsHeaders};

use crate::header::{judge_alternate, judge_header};
use crate::reading::{Headers, read_headers};
use fsck_list::Findings;
use hx_bytes::{OutOfMemory, Trouble};
use sector_disk::SectorView;
use volume_header::VolumeHeader;

/// Judges the volume header of a volume of so many sectors, and its alternate.
fn judge_headers(sectors: u64, headers: &Headers, out: &mut Findings) -> Result<(), OutOfMemory>
    requires { is_volume_size sectors ≡ true }
    ensures passed { IfOk result (λ _. Passed (IsBrokenHeader sectors headers.now.head headers.now.alternate) (IsGoodHeader sectors headers.now.head × AgreesWith headers.now.head headers.now.alternate) out.old out.new) }
    ensures rules { IfOk result (λ _. TellsHeader sectors headers.now.head headers.now.alternate out.new) }
{
    judge_header(sectors, &headers.head, out)?;
    judge_alternate(&headers.head, &headers.alternate, out)?;
    Ok(())
}

/// Reads the volume header and judges it with its alternate, where nothing was found yet. One that keeps rules 1 and 2 is given.
pub(crate) fn read_head<V: SectorView>(
    view: &mut V,
    out: &mut Findings,
) -> Result<Option<VolumeHeader>, Trouble>
    requires size { is_volume_size (V.space view.old).sectors ≡ true }
    requires none { out.old ≡ [] }
    ensures good { IfOk result (λ o. IfSome o (λ head. IsGoodHeader (V.space view.old).sectors head × (out.new ≡ []))) }
    ensures told { (content : Content) → Shows (V.space view.old) content → IfOk result (λ o. MatchOption o (0 < length out.new) (λ head. (head ≡ header_of_volume content) × AgreesWith head (volume_of content).alternate)) }
    ensures each { (content : Content) → Shows (V.space view.old) content → IfOk result (λ _. FindsEarly content out.new) }
    ensures rules { (content : Content) → Shows (V.space view.old) content → IfOk result (λ _. TellsHeaders content out.new) }
    ensures reads { ReadsSpace (V.space view.old) (V.space view.new) }
    ensures below { V.follows view.old view.new }
    ensures disk { IsErrOf result Disk → Rose (V.space view.old).faults (V.space view.new).faults }
{
    let headers = read_headers(view)?;
    judge_headers(view.sectors(), &headers, out)?;
    if out.len() > 0 {
        return Ok(None);
    }
    Ok(Some(headers.head))
}
