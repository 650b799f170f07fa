//! The trees of a volume that can be repaired.
ghost use Rattle.std.specs.Prelude.{◌≡◌, MatchOption, IfOk, IsErrOf};
ghost use Rattle.hx_bytes.specs.declared.faults.Trouble.TheVariants.{Disk};
ghost use Rattle.sector_disk.specs.Cause.{Rose};
ghost use Rattle.jnl_format.specs.Recovery.{Content, header_of_volume};
ghost use Rattle.btree_file.specs.Frame.{ReadsSpace};
ghost use Rattle.hfs_volume.specs.Blocks.{IsGoodHeader};
ghost use Rattle.hfs_volume.specs.Content.{overflow_of_content};
ghost use Rattle.fsck_core.specs.Overflows.{overflows_in};
ghost use Rattle.fsck_core.specs.Shown.{HoldsAttributes, HoldsCatalog, HoldsExtents, Shows};
ghost use Rattle.volume_repair.specs.Repair.{IsMendable};
ghost use Rattle.fsck_repair.specs.Counted.{AreTrees};

use fsck_core::{OverflowRow, read_overflow, scan_attributes, scan_catalog, scan_extents};
use fsck_list::Findings;
use fsck_scan::Pairs;
use hx_bytes::Trouble;
use sector_disk::SectorView;
use std::alloc::Global;
use volume_header::VolumeHeader;

/// What the trees of a volume hold that a repair looks at.
#[derive(Drop)]
pub(crate) struct Trees {
    pub overflow: Vec<OverflowRow>,
    pub catalog: Pairs,
    pub attributes: Pairs,
}

/// Reads the overflow records, if their tree keeps its rules.
fn read_rows<V: SectorView>(
    alloc: Global,
    view: &mut V,
    head: &VolumeHeader,
) -> Result<Option<Vec<OverflowRow>>, Trouble>
    requires good { IsGoodHeader (V.space view.old).sectors head.now }
    ensures found { (content : Content) → Shows (V.space view.old) content → head.now ≡ header_of_volume content → IfOk result (λ o. MatchOption o (¬ IsMendable content) (λ rows. HoldsExtents content rows.items)) }
    ensures reads { ReadsSpace (V.space view.old) (V.space view.new) }
    ensures below { V.follows view.old view.new }
    ensures disk { IsErrOf result Disk → Rose (V.space view.old).faults (V.space view.new).faults }
{
    let mut out = Findings::new(alloc);
    let Some(pairs) = scan_extents(alloc, view, head, &mut out)? else {
        return Ok(None);
    };
    let rows = read_overflow(alloc, &pairs)?;
    Ok(Some(rows))
}

/// Reads the catalog, if it keeps its rules.
fn read_catalog<V: SectorView>(
    alloc: Global,
    view: &mut V,
    head: &VolumeHeader,
    rows: &[OverflowRow],
) -> Result<Option<Pairs>, Trouble>
    requires good { IsGoodHeader (V.space view.old).sectors head.now }
    ensures found { (content : Content) → Shows (V.space view.old) content → head.now ≡ header_of_volume content → overflows_in rows.now ≡ overflow_of_content content → IfOk result (λ o. MatchOption o (¬ IsMendable content) (λ pairs. HoldsCatalog content pairs)) }
    ensures reads { ReadsSpace (V.space view.old) (V.space view.new) }
    ensures below { V.follows view.old view.new }
    ensures disk { IsErrOf result Disk → Rose (V.space view.old).faults (V.space view.new).faults }
{
    let mut out = Findings::new(alloc);
    scan_catalog(alloc, view, head, rows, &mut out)
}

/// Reads the attributes file, if it keeps its rules; a volume without one has no attributes.
fn read_attributes<V: SectorView>(
    alloc: Global,
    view: &mut V,
    head: &VolumeHeader,
    rows: &[OverflowRow],
) -> Result<Option<Pairs>, Trouble>
    requires good { IsGoodHeader (V.space view.old).sectors head.now }
    ensures found { (content : Content) → Shows (V.space view.old) content → head.now ≡ header_of_volume content → overflows_in rows.now ≡ overflow_of_content content → IfOk result (λ o. MatchOption o (¬ IsMendable content) (λ pairs. HoldsAttributes content pairs)) }
    ensures reads { ReadsSpace (V.space view.old) (V.space view.new) }
    ensures below { V.follows view.old view.new }
    ensures disk { IsErrOf result Disk → Rose (V.space view.old).faults (V.space view.new).faults }
{
    if head.attributes_fork.logical_size == 0 {
        return Ok(Some(Pairs::new(alloc)));
    }
    let mut out = Findings::new(alloc);
    scan_attributes(alloc, view, head, rows, &mut out)
}

/// Reads what the trees hold, if all of them keep their rules.
pub(crate) fn read_trees<V: SectorView>(
    alloc: Global,
    view: &mut V,
    head: &VolumeHeader,
) -> Result<Option<Trees>, Trouble>
    requires good { IsGoodHeader (V.space view.old).sectors head.now }
    ensures found { (content : Content) → Shows (V.space view.old) content → head.now ≡ header_of_volume content → IfOk result (λ o. MatchOption o (¬ IsMendable content) (AreTrees content)) }
    ensures reads { ReadsSpace (V.space view.old) (V.space view.new) }
    ensures below { V.follows view.old view.new }
    ensures disk { IsErrOf result Disk → Rose (V.space view.old).faults (V.space view.new).faults }
{
    let Some(overflow) = read_rows(alloc, view, head)? else {
        return Ok(None);
    };
    let Some(attributes) = read_attributes(alloc, view, head, &overflow)? else {
        return Ok(None);
    };
    let Some(catalog) = read_catalog(alloc, view, head, &overflow)? else {
        return Ok(None);
    };
    Ok(Some(Trees {
        overflow,
        catalog,
        attributes,
    }))
}
