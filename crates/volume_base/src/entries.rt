//! Folders and files found by their CNID.
ghost use Rattle.std.specs.Prelude.{◌≡◌, ◌≤◌, IsTrue, IfOk, IfSome, false, length};
ghost use Rattle.std.specs.Option.{option_map};
ghost use Rattle.btree_edit.specs.Causes.{HasTroubleCause};
ghost use Rattle.btree_file.specs.Standing.{pairs_in};
ghost use Rattle.btree_file.specs.State.{sectors_of_tree};
ghost use Rattle.cat_records.specs.Fits.{FitsRecord};
ghost use Rattle.catalog.specs.Pairs.{thread_at};
ghost use Rattle.hfs_volume.specs.Entries.{AreSpelled};
ghost use Rattle.hfs_volume.specs.Records.{is_thread};
ghost use Rattle.volume_base.specs.Entering.{entry_by_id, entry_under, entry_with};
ghost use Rattle.volume_base.specs.Frame.{Looked};
ghost use Rattle.volume_base.specs.Lists.{lists_of};
ghost use Rattle.volume_base.specs.Looking.{IsCatalogOver, ReadsTree};
ghost use Rattle.volume_base.specs.Standing.{StandsOver};

use crate::looking::lookup_record;
use crate::volume::Volume;
use btree_edit::Desk;
use btree_file::{TreeFile, TreeOn};
use cat_records::{CatRecord, ThreadRecord};
use catalog::by_id;
use hx_bytes::{Trouble, Units};
use sector_disk::SectorSpace;
use std::alloc::Global;

/// A folder or file where it stands: the CNID of its folder, its name there, and its record.
#[derive(Drop)]
pub struct Entry {
    pub parent: u32,
    pub name: Units,
    pub rec: CatRecord,
}

/// The thread under a CNID, which tells where its folder or file stands.
fn find_thread<P: SectorSpace>(
    alloc: Global,
    tree: &mut TreeFile,
    desk: &mut Desk,
    space: &mut P,
    id: u32,
) -> Result<Option<ThreadRecord>, Trouble>
    requires over { IsCatalogOver tree.old desk.old (P.SectorView.space space.old) }
    ensures found { IsTrue (P.SectorView.space space.old).tells → IfOk result (λ found. found ≡ thread_at (pairs_in (sectors_of_tree tree.old) (P.SectorView.space space.old).content) id) }
    ensures over { IsCatalogOver tree.new desk.new (P.SectorView.space space.new) }
    ensures reads { ReadsTree tree.old tree.new (P.SectorView.space space.old) (P.SectorView.space space.new) }
    ensures below { P.SectorView.follows space.old space.new }
    ensures cause { HasTroubleCause (P.SectorView.space space.old).faults (P.SectorView.space space.new).faults result }
{
    let mut on = TreeOn { tree, space };
    by_id(alloc, &mut on, desk, id)
}

/// What was found at the place that a thread tells.
fn entry_with(thread: ThreadRecord, found: Option<CatRecord>) -> Option<Entry>
    ensures { result ≡ option_map (entry_with thread) found }
{
    match found {
        Some(rec) => Some(Entry {
            parent: thread.parent,
            name: thread.name,
            rec,
        }),
        None => None,
    }
}

/// The folder or file that a thread tells of.
fn entry_under<P: SectorSpace>(
    alloc: Global,
    tree: &mut TreeFile,
    desk: &mut Desk,
    space: &mut P,
    thread: ThreadRecord,
) -> Result<Option<Entry>, Trouble>
    requires over { IsCatalogOver tree.old desk.old (P.SectorView.space space.old) }
    ensures found { IsTrue (P.SectorView.space space.old).tells → IfOk result (λ found. found ≡ entry_under (pairs_in (sectors_of_tree tree.old) (P.SectorView.space space.old).content) thread) }
    ensures fits { IfOk result (λ found. IfSome found (λ entry. is_thread entry.rec ≡ false → FitsRecord entry.rec)) }
    ensures name { IfOk result (λ found. IfSome found (λ entry. length entry.name ≤ 255)) }
    ensures over { IsCatalogOver tree.new desk.new (P.SectorView.space space.new) }
    ensures reads { ReadsTree tree.old tree.new (P.SectorView.space space.old) (P.SectorView.space space.new) }
    ensures below { P.SectorView.follows space.old space.new }
    ensures cause { HasTroubleCause (P.SectorView.space space.old).faults (P.SectorView.space space.new).faults result }
{
    if thread.name.len() > 255 {
        return Ok(None);
    }
    let found = lookup_record(alloc, tree, desk, space, thread.parent, &thread.name)?;
    Ok(entry_with(thread, found))
}

/// The folder or file with a CNID, where it stands.
fn find_entry<P: SectorSpace>(
    alloc: Global,
    tree: &mut TreeFile,
    desk: &mut Desk,
    space: &mut P,
    id: u32,
) -> Result<Option<Entry>, Trouble>
    requires over { IsCatalogOver tree.old desk.old (P.SectorView.space space.old) }
    ensures found { IsTrue (P.SectorView.space space.old).tells → IfOk result (λ found. found ≡ entry_by_id (pairs_in (sectors_of_tree tree.old) (P.SectorView.space space.old).content) id) }
    ensures fits { IfOk result (λ found. IfSome found (λ entry. is_thread entry.rec ≡ false → FitsRecord entry.rec)) }
    ensures name { IfOk result (λ found. IfSome found (λ entry. length entry.name ≤ 255)) }
    ensures over { IsCatalogOver tree.new desk.new (P.SectorView.space space.new) }
    ensures reads { ReadsTree tree.old tree.new (P.SectorView.space space.old) (P.SectorView.space space.new) }
    ensures below { P.SectorView.follows space.old space.new }
    ensures cause { HasTroubleCause (P.SectorView.space space.old).faults (P.SectorView.space space.new).faults result }
{
    match find_thread(alloc, tree, desk, space, id)? {
        Some(thread) => entry_under(alloc, tree, desk, space, thread),
        None => Ok(None),
    }
}

impl Volume {
    /// The folder or file with a CNID, where it stands.
    pub fn entry<P: SectorSpace>(
        &mut self,
        alloc: Global,
        space: &mut P,
        id: u32,
    ) -> Result<Option<Entry>, Trouble>
        requires stands { StandsOver self.old (P.SectorView.space space.old) }
        requires spelled { IsTrue (P.SectorView.space space.old).tells → AreSpelled (lists_of self.old (P.SectorView.space space.old).content).catalog_pairs }
        ensures found { IsTrue (P.SectorView.space space.old).tells → IfOk result (λ found. found ≡ entry_by_id (lists_of self.old (P.SectorView.space space.old).content).catalog_pairs id) }
        ensures fits { IfOk result (λ found. IfSome found (λ entry. is_thread entry.rec ≡ false → FitsRecord entry.rec)) }
        ensures name { IfOk result (λ found. IfSome found (λ entry. length entry.name ≤ 255)) }
        ensures looked { Looked P.SectorView.space P.SectorView.follows self.old self.new space.old space.new result }
        // Nothing else of it is changed.
        ensures rest { self.new ≡ record self.old { catalog = self.new.catalog } }
    {
        find_entry(
            alloc,
            &mut self.catalog.file,
            &mut self.catalog.desk,
            space,
            id,
        )
    }
}
