//! What the rules look at in a volume, read from its trees and files, and judged where they are read (rules 3 to 7).
ghost use Rattle.std.specs.Prelude.{◌≡◌, ◌<◌, ◌-◌, ◌^◌, [], length, min, IfOk, IfSome, MatchOption, IsErrOf};
ghost use Rattle.hx_bytes.specs.declared.faults.Trouble.TheVariants.{Disk};
ghost use Rattle.sector_disk.specs.Cause.{Rose, HasCause};
ghost use Rattle.jnl_format.specs.Recovery.{Content, header_of_volume};
ghost use Rattle.btree_file.specs.Frame.{ReadsSpace};
ghost use Rattle.hfs_volume.specs.Blocks.{IsGoodHeader, HasFiles};
ghost use Rattle.hfs_volume.specs.Broken.{bits_behind};
ghost use Rattle.hfs_volume.specs.Content.{volume_of, overflow_of_content, catalog_file, extents_file, attributes_file};
ghost use Rattle.fsck_scan.specs.Form.{head_in};
ghost use Rattle.fsck_core.specs.Files.{HasSpecialHeads};
ghost use Rattle.fsck_core.specs.Lists.{AreLists};
ghost use Rattle.fsck_core.specs.Overflows.{overflows_in};
ghost use Rattle.fsck_core.specs.Passed.{Passed};
ghost use Rattle.fsck_core.specs.Shown.{Shows, FindsEarly, IsEarly, HoldsExtents, HoldsAttributes, HoldsTrees};
ghost use Rattle.hfs_volume.specs.Nodes.{HasTrees};

use crate::behind::count_behind;
use crate::bits::read_bits;
use crate::heads::{read_attributes_head, read_catalog_head, read_extents_head};
use crate::lists::Lists;
use crate::overflow::{OverflowRow, read_overflow};
use crate::sizes::{judge_compare, judge_files};
use crate::trees::{scan_attributes, scan_catalog, scan_extents};
use fsck_list::Findings;
use fsck_scan::{Head, Pairs};
use hx_bytes::{Failed, OutOfMemory, Trouble};
use jnl_format::{Info, info_fields};
use sector_disk::SectorView;
use std::alloc::Global;
use volume_header::VolumeHeader;

/// What the three trees of a volume hold.
#[derive(Drop)]
struct Trees {
    overflow: Vec<OverflowRow>,
    catalog: Pairs,
    attributes: Pairs,
}

/// Reads the overflow records of a volume, where nothing was found yet, if their tree keeps its rules.
fn read_extents<V: SectorView>(
    alloc: Global,
    view: &mut V,
    head: &VolumeHeader,
    out: &mut Findings,
) -> Result<Option<Vec<OverflowRow>>, Trouble>
    requires good { IsGoodHeader (V.space view.old).sectors head.now }
    requires none { out.old ≡ [] }
    ensures empty { IfOk result (λ o. IfSome o (λ _. out.new ≡ [])) }
    ensures found { (content : Content) → Shows (V.space view.old) content → head.now ≡ header_of_volume content → IfOk result (λ o. MatchOption o (0 < length out.new) (λ rows. HoldsExtents content rows.items)) }
    ensures each { (content : Content) → Shows (V.space view.old) content → head.now ≡ header_of_volume content → IfOk result (λ _. FindsEarly content out.new) }
    ensures reads { ReadsSpace (V.space view.old) (V.space view.new) }
    ensures below { V.follows view.old view.new }
    ensures disk { IsErrOf result Disk → Rose (V.space view.old).faults (V.space view.new).faults }
{
    let Some(pairs) = scan_extents(alloc, view, head, out)? else {
        return Ok(None);
    };
    let rows = read_overflow(alloc, &pairs)?;
    Ok(Some(rows))
}

/// Reads the attributes of a volume, where nothing was found yet, if their tree keeps its rules; a volume without an attributes file has none.
fn read_attributes<V: SectorView>(
    alloc: Global,
    view: &mut V,
    head: &VolumeHeader,
    rows: &[OverflowRow],
    out: &mut Findings,
) -> Result<Option<Pairs>, Trouble>
    requires good { IsGoodHeader (V.space view.old).sectors head.now }
    requires none { out.old ≡ [] }
    ensures empty { IfOk result (λ o. IfSome o (λ _. out.new ≡ [])) }
    ensures found { (content : Content) → Shows (V.space view.old) content → head.now ≡ header_of_volume content → overflows_in rows.now ≡ overflow_of_content content
        → IfOk result (λ o. MatchOption o (0 < length out.new) (λ pairs. HoldsAttributes content pairs)) }
    ensures each { (content : Content) → Shows (V.space view.old) content → head.now ≡ header_of_volume content → overflows_in rows.now ≡ overflow_of_content content → IfOk result (λ _. FindsEarly content out.new) }
    ensures reads { ReadsSpace (V.space view.old) (V.space view.new) }
    ensures below { V.follows view.old view.new }
    ensures disk { IsErrOf result Disk → Rose (V.space view.old).faults (V.space view.new).faults }
{
    if head.attributes_fork.logical_size == 0 {
        return Ok(Some(Pairs::new(alloc)));
    }
    scan_attributes(alloc, view, head, rows, out)
}

/// Reads the three trees of a volume, where nothing was found yet, up to the first that breaks its rules (4 to 7).
fn read_trees<V: SectorView>(
    alloc: Global,
    view: &mut V,
    head: &VolumeHeader,
    out: &mut Findings,
) -> Result<Option<Trees>, Trouble>
    requires good { IsGoodHeader (V.space view.old).sectors head.now }
    requires none { out.old ≡ [] }
    ensures empty { IfOk result (λ o. IfSome o (λ _. out.new ≡ [])) }
    ensures found { (content : Content) → Shows (V.space view.old) content → head.now ≡ header_of_volume content
        → IfOk result (λ o. MatchOption o (0 < length out.new) (λ trees. HoldsTrees content trees.overflow.items trees.catalog trees.attributes)) }
    ensures each { (content : Content) → Shows (V.space view.old) content → head.now ≡ header_of_volume content → IfOk result (λ _. FindsEarly content out.new) }
    ensures reads { ReadsSpace (V.space view.old) (V.space view.new) }
    ensures below { V.follows view.old view.new }
    ensures disk { IsErrOf result Disk → Rose (V.space view.old).faults (V.space view.new).faults }
{
    let Some(overflow) = read_extents(alloc, view, head, out)? else {
        return Ok(None);
    };
    let Some(catalog) = scan_catalog(alloc, view, head, &overflow, out)? else {
        return Ok(None);
    };
    let Some(attributes) = read_attributes(alloc, view, head, &overflow, out)? else {
        return Ok(None);
    };
    Ok(Some(Trees {
        overflow,
        catalog,
        attributes,
    }))
}

/// What the special files of a volume say: the header records of its trees, and how many bits are set behind those of blocks.
#[derive(Clone, Copy)]
struct Specials {
    extents: Head,
    catalog: Head,
    attributes: Head,
    behind: u64,
}

/// Reads what the special files say.
fn read_specials<V: SectorView>(
    alloc: Global,
    view: &mut V,
    head: &VolumeHeader,
    rows: &[OverflowRow],
) -> Result<Specials, Trouble>
    requires good { IsGoodHeader (V.space view.old).sectors head.now }
    ensures heads { (content : Content) → Shows (V.space view.old) content → head.now ≡ header_of_volume content → overflows_in rows.now ≡ overflow_of_content content
        → IfOk result (λ files. HasSpecialHeads content head.now files.extents files.catalog files.attributes) }
    ensures behind { (content : Content) → Shows (V.space view.old) content → head.now ≡ header_of_volume content → overflows_in rows.now ≡ overflow_of_content content
        → IfOk result (λ files. files.behind ≡ min (bits_behind (volume_of content)) (2 ^ 64 - 1)) }
    ensures reads { ReadsSpace (V.space view.old) (V.space view.new) }
    ensures below { V.follows view.old view.new }
    ensures disk { IsErrOf result Disk → Rose (V.space view.old).faults (V.space view.new).faults }
{
    let extents = read_extents_head(alloc, view, head)?;
    let catalog = read_catalog_head(alloc, view, head, rows)?;
    let attributes = read_attributes_head(alloc, view, head, rows)?;
    let behind = count_behind(alloc, view, head, rows)?;
    Ok(Specials {
        extents,
        catalog,
        attributes,
        behind,
    })
}

/// Judges the sizes of the special files (rule 3), and how the catalog compares keys (rule 4).
fn judge_specials(
    head: &VolumeHeader,
    files: &Specials,
    out: &mut Findings,
) -> Result<(), OutOfMemory>
    ensures { (content : Content) → HasSpecialHeads content head.now files.now.extents files.now.catalog files.now.attributes → files.now.behind ≡ min (bits_behind (volume_of content)) (2 ^ 64 - 1)
        → IfOk result (λ _. Passed (IsEarly content) (HasFiles (volume_of content) × ((catalog_file content).head.compare ≡ 0xBC)) out.old out.new) }
{
    judge_files(
        head,
        &files.extents,
        &files.catalog,
        &files.attributes,
        files.behind,
        out,
    )?;
    judge_compare(&files.catalog, out)?;
    Ok(())
}

/// Reads the journal's info block.
fn read_info_block<V: SectorView>(view: &mut V, head: &VolumeHeader) -> Result<Info, Failed>
    requires good { IsGoodHeader (V.space view.old).sectors head.now }
    ensures value { (content : Content) → Shows (V.space view.old) content → head.now ≡ header_of_volume content → IfOk result (λ info. (volume_of content).journal ≡ record { offset = info.offset; size = info.size }) }
    ensures reads { ReadsSpace (V.space view.old) (V.space view.new) }
    ensures below { V.follows view.old view.new }
    ensures cause { HasCause (V.space view.old).faults (V.space view.new).faults result }
{
    let mut sector = [0; 512];
    let per_block = head.block_size / 512;
    let at = head.journal_info_block as u64 * per_block as u64;
    view.get(at, &mut sector)?;
    Ok(info_fields(&sector))
}

/// Reads the lists of a volume whose trees keep their rules, and judges its special files, where nothing was found yet.
fn read_files<V: SectorView>(
    alloc: Global,
    view: &mut V,
    head: &VolumeHeader,
    trees: Trees,
    out: &mut Findings,
) -> Result<Option<Lists>, Trouble>
    requires good { IsGoodHeader (V.space view.old).sectors head.now }
    requires none { out.old ≡ [] }
    ensures good { IfOk result (λ o. IfSome o (λ lists. IsGoodHeader lists.sectors lists.head × (out.new ≡ []))) }
    ensures found { (content : Content) → Shows (V.space view.old) content → head.now ≡ header_of_volume content → HoldsTrees content trees.overflow.items trees.catalog trees.attributes
        → IfOk result (λ o. MatchOption o (0 < length out.new) (λ lists. AreLists (volume_of content) lists × (HasFiles (volume_of content) × ((catalog_file content).head.compare ≡ 0xBC)))) }
    ensures each { (content : Content) → Shows (V.space view.old) content → head.now ≡ header_of_volume content → HoldsTrees content trees.overflow.items trees.catalog trees.attributes
        → IfOk result (λ _. FindsEarly content out.new) }
    ensures reads { ReadsSpace (V.space view.old) (V.space view.new) }
    ensures below { V.follows view.old view.new }
    ensures disk { IsErrOf result Disk → Rose (V.space view.old).faults (V.space view.new).faults }
{
    let files = read_specials(alloc, view, head, &trees.overflow)?;
    judge_specials(head, &files, out)?;
    if out.len() > 0 {
        return Ok(None);
    }
    let info = read_info_block(view, head)?;
    let flags = read_bits(alloc, view, head, &trees.overflow)?;
    let Trees {
        overflow,
        catalog,
        attributes,
    } = trees;
    Ok(Some(Lists {
        sectors: view.sectors(),
        head: *head,
        info,
        overflow,
        catalog,
        attributes,
        flags,
    }))
}

/// Reads the lists of a volume whose header keeps rule 1, and judges its trees and special files (rules 3 to 7), where nothing was found yet.
pub(crate) fn read_lists<V: SectorView>(
    alloc: Global,
    view: &mut V,
    head: &VolumeHeader,
    out: &mut Findings,
) -> Result<Option<Lists>, Trouble>
    requires good { IsGoodHeader (V.space view.old).sectors head.now }
    requires none { out.old ≡ [] }
    ensures good { IfOk result (λ o. IfSome o (λ lists. IsGoodHeader lists.sectors lists.head × (out.new ≡ []))) }
    ensures found { (content : Content) → Shows (V.space view.old) content → head.now ≡ header_of_volume content
        → IfOk result (λ o. MatchOption o (0 < length out.new) (λ lists. AreLists (volume_of content) lists × (HasFiles (volume_of content) × HasTrees content))) }
    ensures each { (content : Content) → Shows (V.space view.old) content → head.now ≡ header_of_volume content → IfOk result (λ _. FindsEarly content out.new) }
    ensures reads { ReadsSpace (V.space view.old) (V.space view.new) }
    ensures below { V.follows view.old view.new }
    ensures disk { IsErrOf result Disk → Rose (V.space view.old).faults (V.space view.new).faults }
{
    let Some(trees) = read_trees(alloc, view, head, out)? else {
        return Ok(None);
    };
    read_files(alloc, view, head, trees, out)
}
