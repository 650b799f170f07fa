//! What a repair counts in a volume.
ghost use Rattle.std.specs.Prelude.{◌≡◌, ◌↔◌, ◌≤◌, ◌^◌, MatchOption, IfOk, IfSome, OnOk, IsErrOf, IsTrue, All, length, replicate, true, false};
ghost use Rattle.hx_bytes.specs.declared.faults.Trouble.TheVariants.{Disk};
ghost use Rattle.fork_map.specs.Blocks.{blocks_of};
ghost use Rattle.sector_disk.specs.Cause.{Rose};
ghost use Rattle.jnl_format.specs.Recovery.{Content};
ghost use Rattle.volume_header.specs.Refusal.{is_volume_size};
ghost use Rattle.btree_file.specs.Frame.{ReadsSpace};
ghost use Rattle.btree_node.specs.Keys.{IsCatalogKey};
ghost use Rattle.alloc_bitmap.specs.Apart.{AreApart};
ghost use Rattle.hfs_volume.specs.Blocks.{IsGoodHeader, used_in};
ghost use Rattle.hfs_volume.specs.Changes.{AreSorted};
ghost use Rattle.hfs_volume.specs.Entries.{AreSpelled};
ghost use Rattle.hfs_volume.specs.Records.{placed_in, is_thread, is_empty};
ghost use Rattle.hfs_volume.specs.Content.{VolumeState, overflow_in_volume};
ghost use Rattle.fsck_core.specs.Flags.{AreUsed};
ghost use Rattle.fsck_core.specs.Overflows.{overflows_in};
ghost use Rattle.fsck_core.specs.Shown.{Shows};
ghost use Rattle.volume_repair.specs.Repair.{IsMendable};
ghost use Rattle.fsck_repair.specs.Counted.{AreEntriesOf, AreTrees, AreSized, HasHeaders, IsCounted, UsesOnce};

use crate::once::are_used_once;
use crate::sizes::read_sizes;
use crate::trees::{Trees, read_trees};
use crate::written::{allocation_extents, catalog_extents, lie_inside, written_extents};
use fork_map::{ExtentList, SummedFork};
use fsck_core::{
    Headers, OverflowRow, Row, find_private, judge_header, judge_kinds, judge_uses, link_numbers,
    read_forks, read_headers, read_rows, read_used,
};
use fsck_list::{Findings, Marks};
use fsck_scan::{Head, Pairs};
use hx_bytes::{OutOfMemory, Trouble};
use sector_disk::SectorView;
use std::alloc::Global;
use volume_header::VolumeHeader;

/// What the values of a catalog count: the entries in the order of their parents, the numbers that links tell, in order, and the CNID of the
/// private folder.
#[derive(Drop)]
pub(crate) struct Entries {
    pub rows: Vec<Row>,
    pub links: Vec<u32>,
    pub private: Option<u32>,
}

/// What a volume counts, counted anew, and where it stands.
#[derive(Drop)]
pub(crate) struct Counts {
    pub headers: Headers,
    pub allocation: SummedFork,
    pub catalog: SummedFork,
    /// The header record of the catalog file.
    pub tree: Head,
    pub entries: Entries,
    /// Which blocks something uses.
    pub used: Marks,
}

/// Reads the headers, if the volume header is one that volumes of this size have.
fn read_good_header<V: SectorView>(alloc: Global, view: &mut V) -> Result<Option<Headers>, Trouble>
    requires size { is_volume_size (V.space view.old).sectors ≡ true }
    ensures good { IfOk result (λ o. IfSome o (λ headers. IsGoodHeader (V.space view.old).sectors headers.head)) }
    ensures found { (content : Content) → Shows (V.space view.old) content → IfOk result (λ o. MatchOption o (¬ IsMendable content) (HasHeaders content)) }
    ensures reads { ReadsSpace (V.space view.old) (V.space view.new) }
    ensures below { V.follows view.old view.new }
    ensures disk { IsErrOf result Disk → Rose (V.space view.old).faults (V.space view.new).faults }
{
    let headers = read_headers(view)?;
    let mut out = Findings::new(alloc);
    let met = judge_header(view.sectors(), &headers.head, &mut out)?;
    if !met {
        return Ok(None);
    }
    Ok(Some(headers))
}

/// Whether each record of the catalog is one, and of the kind that its key wants.
fn are_kinds(alloc: Global, catalog: &Pairs) -> Result<bool, OutOfMemory>
    ensures { IfOk result (λ met. IsTrue met ↔ AreSpelled catalog.now × All (λ placed. is_thread placed.value ≡ is_empty placed.name) (placed_in catalog.now)) }
{
    let mut out = Findings::new(alloc);
    judge_kinds(catalog, &mut out)
}

/// Marks which blocks of a volume are used, of whose extents these are all, and tells whether each of them is used once. None is marked yet.
fn mark_used(alloc: Global, extents: &ExtentList, used: &mut Marks) -> Result<bool, OutOfMemory>
    requires { length used.old ≤ 2 ^ 32 }
    ensures marks { (volume : VolumeState) → blocks_of extents.now ≡ used_in volume → used.old ≡ replicate volume.head.total_blocks false → OnOk result (AreUsed volume used.new) }
    ensures apart { (volume : VolumeState) → blocks_of extents.now ≡ used_in volume → used.old ≡ replicate volume.head.total_blocks false → IfOk result (λ apart. IsTrue apart ↔ AreApart (used_in volume)) }
{
    let mut out = Findings::new(alloc);
    judge_uses(alloc, extents.as_slice(), used, &mut out)
}

/// Which blocks are used, if those that a repair may write are used once. They are looked for only where some block is used twice.
fn mark_once(
    alloc: Global,
    sectors: u64,
    head: &VolumeHeader,
    rows: &[OverflowRow],
    catalog: &Pairs,
    attributes: &Pairs,
) -> Result<Option<Marks>, OutOfMemory>
    requires good { IsGoodHeader sectors head.now }
    requires spelled { AreSpelled catalog.now }
    ensures { (volume : VolumeState) → sectors ≡ volume.sectors → head.now ≡ volume.head → overflows_in rows.now ≡ overflow_in_volume volume → catalog.now ≡ volume.catalog_pairs → attributes.now ≡ volume.attribute_pairs
        → IfOk result (λ o. MatchOption o (¬ UsesOnce volume) (λ used. UsesOnce volume × AreUsed volume used)) }
{
    let forks = read_forks(alloc, head, catalog)?;
    let extents = read_used(alloc, sectors, head, rows, &forks, attributes)?;
    let mut used = Marks::new(alloc, head.total_blocks)?;
    let apart = mark_used(alloc, &extents, &mut used)?;
    if apart {
        return Ok(Some(used));
    }
    let written = written_extents(alloc, sectors, head, rows)?;
    let once = are_used_once(alloc, &extents, &written)?;
    if !once {
        return Ok(None);
    }
    Ok(Some(used))
}

/// What the values of a catalog count.
fn read_entries(alloc: Global, catalog: &Pairs) -> Result<Entries, OutOfMemory>
    requires spelled { AreSpelled catalog.now }
    ensures { All (λ pair. IsCatalogKey pair.0) catalog.now → AreSorted catalog.now → IfOk result (AreEntriesOf (placed_in catalog.now)) }
{
    let rows = read_rows(alloc, catalog)?;
    let links = link_numbers(alloc, &rows)?;
    let private = find_private(alloc, catalog)?;
    Ok(Entries {
        rows,
        links,
        private,
    })
}

/// Counts what the trees hold, if their records and their blocks can be counted.
fn count_trees(
    alloc: Global,
    sectors: u64,
    headers: Headers,
    tree: Head,
    trees: &Trees,
) -> Result<Option<Counts>, OutOfMemory>
    requires good { IsGoodHeader sectors headers.head }
    ensures counted { (content : Content) → sectors ≡ length content → HasHeaders content headers → AreSized content tree → AreTrees content trees.now
        → IfOk result (λ o. MatchOption o (¬ IsMendable content) (IsCounted content)) }
    ensures same { IfOk result (λ o. IfSome o (λ counts. counts.headers ≡ headers)) }
{
    let kinds = are_kinds(alloc, &trees.catalog)?;
    if !kinds {
        return Ok(None);
    }
    let head = headers.head;
    let allocation = allocation_extents(alloc, &head, &trees.overflow)?;
    if !lie_inside(head.total_blocks, allocation.as_slice()) {
        return Ok(None);
    }
    let found = mark_once(
        alloc,
        sectors,
        &head,
        &trees.overflow,
        &trees.catalog,
        &trees.attributes,
    )?;
    let Some(used) = found else {
        return Ok(None);
    };
    let catalog = catalog_extents(alloc, &head, &trees.overflow)?;
    let allocation = SummedFork::from_list(alloc, allocation)?;
    let catalog = SummedFork::from_list(alloc, catalog)?;
    let entries = read_entries(alloc, &trees.catalog)?;
    Ok(Some(Counts {
        headers,
        allocation,
        catalog,
        tree,
        entries,
        used,
    }))
}

/// Counts what a volume counts, if it can be repaired.
pub(crate) fn count_volume<V: SectorView>(
    alloc: Global,
    view: &mut V,
) -> Result<Option<Counts>, Trouble>
    requires size { is_volume_size (V.space view.old).sectors ≡ true }
    ensures good { IfOk result (λ o. IfSome o (λ counts. IsGoodHeader (V.space view.old).sectors counts.headers.head)) }
    ensures found { (content : Content) → Shows (V.space view.old) content → IfOk result (λ o. MatchOption o (¬ IsMendable content) (IsCounted content)) }
    ensures reads { ReadsSpace (V.space view.old) (V.space view.new) }
    ensures below { V.follows view.old view.new }
    ensures disk { IsErrOf result Disk → Rose (V.space view.old).faults (V.space view.new).faults }
{
    let Some(headers) = read_good_header(alloc, view)? else {
        return Ok(None);
    };
    let head = headers.head;
    let Some(trees) = read_trees(alloc, view, &head)? else {
        return Ok(None);
    };
    let Some(tree) = read_sizes(alloc, view, &head, &trees.overflow)? else {
        return Ok(None);
    };
    let counts = count_trees(alloc, view.sectors(), headers, tree, &trees)?;
    Ok(counts)
}
