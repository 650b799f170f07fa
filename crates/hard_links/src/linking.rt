//! Links made.
ghost use Rattle.std.specs.Prelude.{◌≡◌, ◌≤◌, ◌<◌, ◌^◌, ◌-◌, true, false, None, Some, List, IsTrue, length, OnOk, IfOk};
ghost use Rattle.btree_node.specs.Keys.{IsCatalogKey, catalog_cmp};
ghost use Rattle.btree_node.specs.Store.{SameStore};
ghost use Rattle.btree_node.specs.Tree.{IsTree, pairs_of};
ghost use Rattle.btree_edit.specs.Causes.{HasTroubleCause};
ghost use Rattle.btree_edit.specs.Desk.{IsDeskOf};
ghost use Rattle.cat_records.specs.Fits.{FitsFile};
ghost use Rattle.cat_records.specs.declared.record.CatRecord.TheVariants.{File};
ghost use Rattle.catalog.specs.Pairs.{value_at};
ghost use Rattle.catalog.specs.Rooms.{UpdateRoom, TakesUpdates, UpdatesAtMost};
ghost use Rattle.hfs_volume.specs.Links.{AreLinks};
ghost use Rattle.hfs_volume.specs.Records.{Overflow, placed_in, is_link_type};
ghost use Rattle.hard_links.specs.Linking.{MayLink, NamesLink, MakesLink};
ghost use Rattle.hard_links.specs.Rules.{MayShow};

use crate::first_links::make_first;
use crate::more_links::make_more;
use crate::orphans::file_in;
use crate::place::EntryAt;
use crate::resolving::is_link_type;
use btree_edit::Desk;
use btree_node::NodeStore;
use cat_records::FileRecord;
use catalog::lookup;
use hx_bytes::Trouble;
use std::alloc::Global;

/// How making a link ended.
#[derive(Clone, Copy, Debug, PartialEq, Eq)]
pub enum Linked {
    Done,
    /// The file has 32,767 names or more.
    TooManyLinks,
}

/// Gives a file another name. Before its first link the file moves into the private folder under a number, from its CNID on, and a link
/// with the first CNID stands at its old name; the new name is a link with the second. A later link has the first CNID.
pub fn make_link<N: NodeStore>(
    alloc: Global,
    store: &mut N,
    desk: &mut Desk,
    private: u32,
    from: &EntryAt,
    to: &EntryAt,
    ids: (u32, u32),
) -> Result<Linked, Trouble>
    requires desk { IsDeskOf (N.state store.old).shape.node_size desk.old }
    // The least node size that the format allows the catalog.
    requires size { 4096 ≤ (N.state store.old).shape.node_size }
    requires tree { IsTrue (N.state store.old).tells → IsTree IsCatalogKey catalog_cmp (N.state store.old) }
    requires some_old { 1 ≤ length from.now.name }
    requires old_name { length from.now.name ≤ 255 }
    requires some_new { 1 ≤ length to.now.name }
    requires new_name { length to.now.name ≤ 255 }
    requires may { IsTrue (N.state store.old).tells → MayLink private from.now to.now ids.0 ids.1 (pairs_of (N.state store.old)) }
    // Room for seven edits and an update, and where the old name is a link for two and an update.
    requires room { IsTrue (N.state store.old).tells → (NamesLink from.now (pairs_of (N.state store.old)) → ⊥) → UpdateRoom 7 1 516 (N.state store.old) }
    requires room_more { IsTrue (N.state store.old).tells → NamesLink from.now (pairs_of (N.state store.old)) → UpdateRoom 2 1 516 (N.state store.old) }
    // TooManyLinks exactly where the file has 32,767 names or more, and then nothing is changed. Done: it has one more, and nothing else is changed.
    ensures linked { IsTrue (N.state store.old).tells → IfOk result (λ answer. MakesLink private from.now to.now ids.0 ids.1 (pairs_of (N.state store.old)) (pairs_of (N.state store.new)) answer) }
    // The links keep their rules, and each file with links has their number.
    ensures rules { IsTrue (N.state store.old).tells → (overflow : List Overflow) → AreLinks (placed_in (pairs_of (N.state store.old))) overflow → MayShow from.now to.now ids.0 ids.1 (placed_in (pairs_of (N.state store.old))) overflow
        → OnOk result (AreLinks (placed_in (pairs_of (N.state store.new))) overflow) }
    ensures tree { IsTrue (N.state store.old).tells → OnOk result (IsTree IsCatalogKey catalog_cmp (N.state store.new)) }
    ensures desk { IsDeskOf (N.state store.old).shape.node_size desk.new }
    ensures header { IsTrue (N.state store.old).tells → (N.state store.old).header ≡ (N.state store.old).shape → OnOk result ((N.state store.new).header ≡ (N.state store.new).shape) }
    ensures edits { OnOk result (TakesUpdates 7 1 516 (N.state store.old) (N.state store.new)) }
    ensures edits_more { IsTrue (N.state store.old).tells → NamesLink from.now (pairs_of (N.state store.old)) → OnOk result (TakesUpdates 2 1 516 (N.state store.old) (N.state store.new)) }
    ensures takes { UpdatesAtMost 7 1 516 (N.state store.old) (N.state store.new) }
    ensures takes_more { IsTrue (N.state store.old).tells → NamesLink from.now (pairs_of (N.state store.old)) → UpdatesAtMost 2 1 516 (N.state store.old) (N.state store.new) }
    ensures same { SameStore (N.state store.old) (N.state store.new) }
    ensures cause { HasTroubleCause (N.state store.old).faults (N.state store.new).faults result }
    ensures below { N.follows store.old store.new }
{
    match file_in(lookup(alloc, store, desk, from.parent, &from.name)?) {
        Some(file) => link_file(alloc, store, desk, private, from, to, ids, &file),
        // A file stands there.
        None => Ok(Linked::Done),
    }
}

/// Gives the file with this record at a place another name.
fn link_file<N: NodeStore>(
    alloc: Global,
    store: &mut N,
    desk: &mut Desk,
    private: u32,
    from: &EntryAt,
    to: &EntryAt,
    ids: (u32, u32),
    file: &FileRecord,
) -> Result<Linked, Trouble>
    requires desk { IsDeskOf (N.state store.old).shape.node_size desk.old }
    requires size { 4096 ≤ (N.state store.old).shape.node_size }
    requires tree { IsTrue (N.state store.old).tells → IsTree IsCatalogKey catalog_cmp (N.state store.old) }
    requires some_old { 1 ≤ length from.now.name }
    requires old_name { length from.now.name ≤ 255 }
    requires some_new { 1 ≤ length to.now.name }
    requires new_name { length to.now.name ≤ 255 }
    requires may { IsTrue (N.state store.old).tells → MayLink private from.now to.now ids.0 ids.1 (pairs_of (N.state store.old)) }
    requires value { IsTrue (N.state store.old).tells → value_at (pairs_of (N.state store.old)) from.now.parent from.now.name ≡ Some (File file.now) }
    requires fits { FitsFile file.now }
    requires room { IsTrue (N.state store.old).tells → is_link_type file.now.fields ≡ false → UpdateRoom 7 1 516 (N.state store.old) }
    requires room_more { IsTrue (N.state store.old).tells → is_link_type file.now.fields ≡ true → UpdateRoom 2 1 516 (N.state store.old) }
    ensures linked { IsTrue (N.state store.old).tells → IfOk result (λ answer. MakesLink private from.now to.now ids.0 ids.1 (pairs_of (N.state store.old)) (pairs_of (N.state store.new)) answer) }
    ensures tree { IsTrue (N.state store.old).tells → OnOk result (IsTree IsCatalogKey catalog_cmp (N.state store.new)) }
    ensures desk { IsDeskOf (N.state store.old).shape.node_size desk.new }
    ensures header { IsTrue (N.state store.old).tells → (N.state store.old).header ≡ (N.state store.old).shape → OnOk result ((N.state store.new).header ≡ (N.state store.new).shape) }
    ensures edits { OnOk result (TakesUpdates 7 1 516 (N.state store.old) (N.state store.new)) }
    ensures edits_more { is_link_type file.now.fields ≡ true → OnOk result (TakesUpdates 2 1 516 (N.state store.old) (N.state store.new)) }
    ensures takes { UpdatesAtMost 7 1 516 (N.state store.old) (N.state store.new) }
    ensures takes_more { is_link_type file.now.fields ≡ true → UpdatesAtMost 2 1 516 (N.state store.old) (N.state store.new) }
    ensures same { SameStore (N.state store.old) (N.state store.new) }
    ensures cause { HasTroubleCause (N.state store.old).faults (N.state store.new).faults result }
    ensures below { N.follows store.old store.new }
{
    if is_link_type(&file.fields) {
        return make_more(alloc, store, desk, private, from, to, ids);
    }
    make_first(alloc, store, desk, private, from, to, ids, file)?;
    Ok(Linked::Done)
}
