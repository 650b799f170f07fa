//! The lists of a volume, judged (rules 8 to 20).
ghost use Rattle.std.specs.Prelude.{◌≡◌, ◌<◌, [], length, All, Contains, IfOk, IfSome, MatchOption};
ghost use Rattle.btree_node.specs.Keys.{IsCatalogKey};
ghost use Rattle.fsck_list.specs.declared.finding.Finding.{Finding as Listed};
ghost use Rattle.hfs_volume.specs.Blocks.{IsGoodHeader, GoesOn, forks_of};
ghost use Rattle.hfs_volume.specs.Changes.{AreSorted};
ghost use Rattle.hfs_volume.specs.Content.{VolumeState, overflow_in_volume};
ghost use Rattle.hfs_volume.specs.Entries.{AreSpelled};
ghost use Rattle.fsck_core.specs.Lists.{AreLists, HasEntries, IsBrokenCatalog, IsJudged};
ghost use Rattle.fsck_core.specs.Owners.{owned_all};
ghost use Rattle.fsck_core.specs.Passed.{Passed, IsBrokenList, ListsLate, HaveForks, HaveNames, KeepLists, HaveSizes};
ghost use Rattle.fsck_core.specs.Wants.{as_found};
ghost use Rattle.fsck_core.specs.Telling.{TellsCatalog, TellsSizes, TellsNames, TellsForks};

use crate::attributes::judge_attributes;
use crate::entries::judge_ids;
use crate::follow::OwnedFork;
use crate::forks::judge_forks;
use crate::kinds::judge_kinds;
use crate::late::judge_late;
use crate::links::judge_links;
use crate::listing::read_rows;
use crate::lists::{Lists, judge_blocks_used};
use crate::owned::read_forks;
use crate::owners::judge_overflow;
use crate::parents::judge_parents;
use crate::rows::Row;
use crate::threads::judge_threads;
use fsck_list::Findings;
use fsck_scan::Pairs;
use hx_bytes::OutOfMemory;
use std::alloc::Global;

/// Judges the records of a catalog, its threads, and the folders above each entry (rules 8 to 10), where nothing was found yet. Where they hold
/// it gives the entries.
fn judge_catalog(
    alloc: Global,
    catalog: &Pairs,
    out: &mut Findings,
) -> Result<Option<Vec<Row>>, OutOfMemory>
    requires none { out.old ≡ [] }
    ensures spelled { IfOk result (λ o. IfSome o (λ _. AreSpelled catalog.now)) }
    ensures empty { IfOk result (λ o. IfSome o (λ _. out.new ≡ [])) }
    ensures found { All (λ pair. IsCatalogKey pair.0) catalog.now → AreSorted catalog.now → IfOk result (λ o. MatchOption o (0 < length out.new) (λ rows. HasEntries catalog.now rows.items)) }
    ensures rules { All (λ pair. IsCatalogKey pair.0) catalog.now → AreSorted catalog.now → IfOk result (λ _. TellsCatalog catalog.now out.new) }
    ensures each { All (λ pair. IsCatalogKey pair.0) catalog.now → AreSorted catalog.now → IfOk result (λ _. (f : Listed) → Contains out.new f → IsBrokenCatalog catalog.now (as_found f)) }
{
    let kinds = judge_kinds(catalog, out)?;
    if !kinds {
        return Ok(None);
    }
    let rows = read_rows(alloc, catalog)?;
    judge_threads(alloc, catalog, out)?;
    judge_parents(alloc, &rows, out)?;
    if out.len() > 0 {
        return Ok(None);
    }
    Ok(Some(rows))
}

/// Judges the sizes of forks, links and attributes (rules 16, 19 and 20), where overflow records go on behind their forks.
fn judge_sizes_and_names(
    alloc: Global,
    lists: &Lists,
    rows: &[Row],
    forks: &[OwnedFork],
    out: &mut Findings,
) -> Result<(), OutOfMemory>
    requires good { IsGoodHeader lists.now.sectors lists.now.head }
    requires spelled { AreSpelled lists.now.catalog }
    ensures passed { (volume : VolumeState) → AreLists volume lists.now → HasEntries lists.now.catalog rows.now → owned_all forks.now ≡ forks_of volume → All (GoesOn (overflow_in_volume volume)) (forks_of volume)
        → IfOk result (λ _. Passed (IsBrokenList volume) (HaveSizes volume × HaveNames volume) out.old out.new) }
    ensures rules { (volume : VolumeState) → AreLists volume lists.now → HasEntries lists.now.catalog rows.now → owned_all forks.now ≡ forks_of volume → All (GoesOn (overflow_in_volume volume)) (forks_of volume)
        → IfOk result (λ _. TellsSizes volume out.old out.new) }
{
    judge_forks(&lists.head, &lists.overflow, forks, out)?;
    judge_links(alloc, &lists.catalog, rows, out)?;
    judge_attributes(
        alloc,
        &lists.head,
        &lists.info,
        &lists.catalog,
        rows,
        &lists.overflow,
        &lists.attributes,
        out,
    )?;
    Ok(())
}

/// Judges the overflow records (rule 17), and where they go on behind their forks what rests on these.
fn judge_forks_and_names(
    alloc: Global,
    lists: &Lists,
    rows: &[Row],
    forks: &[OwnedFork],
    out: &mut Findings,
) -> Result<(), OutOfMemory>
    requires good { IsGoodHeader lists.now.sectors lists.now.head }
    requires spelled { AreSpelled lists.now.catalog }
    ensures passed { (volume : VolumeState) → AreLists volume lists.now → HasEntries lists.now.catalog rows.now → owned_all forks.now ≡ forks_of volume
        → IfOk result (λ _. Passed (IsBrokenList volume) (HaveForks volume × HaveNames volume) out.old out.new) }
    ensures rules { (volume : VolumeState) → AreLists volume lists.now → HasEntries lists.now.catalog rows.now → owned_all forks.now ≡ forks_of volume
        → IfOk result (λ _. TellsNames volume out.old out.new) }
{
    let goes_on = judge_overflow(alloc, &lists.overflow, forks, out)?;
    if !goes_on {
        return Ok(());
    }
    judge_sizes_and_names(alloc, lists, rows, forks, out)
}

/// Judges rules 11 to 20 of a volume that keeps the ten before them, where nothing was found yet.
fn judge_entries_and_forks(
    alloc: Global,
    lists: &Lists,
    rows: &[Row],
    out: &mut Findings,
) -> Result<(), OutOfMemory>
    requires good { IsGoodHeader lists.now.sectors lists.now.head }
    requires spelled { AreSpelled lists.now.catalog }
    requires none { out.old ≡ [] }
    ensures passed { (volume : VolumeState) → AreLists volume lists.now → HasEntries lists.now.catalog rows.now → IfOk result (λ _. Passed (IsBrokenList volume) (KeepLists volume) out.old out.new) }
    ensures listed { (volume : VolumeState) → AreLists volume lists.now → HasEntries lists.now.catalog rows.now → IfOk result (λ _. ListsLate volume out.new) }
    ensures rules { (volume : VolumeState) → AreLists volume lists.now → HasEntries lists.now.catalog rows.now → IfOk result (λ _. TellsForks volume out.new) }
{
    let forks = read_forks(alloc, &lists.head, &lists.catalog)?;
    let used = judge_blocks_used(alloc, lists, &forks, out)?;
    judge_forks_and_names(alloc, lists, rows, &forks, out)?;
    judge_ids(lists.head.next_catalog_id, rows, out)?;
    judge_late(&lists.head, rows, &lists.flags, &used, out)
}

/// Judges the lists of a volume that keeps rules 1 to 7, where nothing was found yet. Where a rule from 8 to 10 is broken, those behind it
/// aren't judged.
pub(crate) fn judge_lists(
    alloc: Global,
    lists: &Lists,
    out: &mut Findings,
) -> Result<(), OutOfMemory>
    requires good { IsGoodHeader lists.now.sectors lists.now.head }
    requires none { out.old ≡ [] }
    ensures { (volume : VolumeState) → AreLists volume lists.now → IfOk result (λ _. IsJudged volume out.new) }
{
    let Some(rows) = judge_catalog(alloc, &lists.catalog, out)? else {
        return Ok(());
    };
    judge_entries_and_forks(alloc, lists, &rows, out)
}
