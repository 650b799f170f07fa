//! Laws of the catalog, as functions without a body: the calls do nothing, and are there for their contracts.
ghost use Rattle.std.specs.Prelude.{◌≡◌, ◌≤◌, ◌<◌, ◌^◌, ℕ, List, Some, false, length};
ghost use Rattle.std.specs.List.{AllByRecursion};
ghost use Rattle.btree_node.specs.Keys.{IsCatalogKey, catalog_cmp};
ghost use Rattle.btree_node.specs.Levels.{Pair};
ghost use Rattle.btree_node.specs.Store.{Store};
ghost use Rattle.btree_node.specs.Tree.{IsTree, pairs_of};
ghost use Rattle.cat_records.specs.Keys.{catalog_key_bytes};
ghost use Rattle.cat_records.specs.declared.record.CatRecord.{CatRecord};
ghost use Rattle.hfs_volume.specs.Changes.{AddsEntry, AreSorted, ChangesValue, DropsEntry, SameKind};
ghost use Rattle.hfs_volume.specs.Forks.{forks_in};
ghost use Rattle.hfs_volume.specs.Records.{Placed, placed_in, record_at, is_empty};
ghost use Rattle.catalog.specs.Entries.{UpdatesEntry};
ghost use Rattle.catalog.specs.Maps.{DeletesEntry, InsertsEntry};
ghost use Rattle.catalog.specs.Pairs.{IsKeyOf};

/// The key made of a folder's id and a name is a key of the catalog's order, and tells both.
pub fn keys_tell_places()
    ensures { (parent : ℕ) (name : List ℕ) → parent < 2 ^ 32 → length name ≤ 255 → AllByRecursion (λ unit. unit < 2 ^ 16) name → IsKeyOf parent name (catalog_key_bytes parent name) }
{}

/// The pairs of a catalog's tree stand in the order of their keys.
pub fn trees_are_sorted()
    ensures { (store : Store) → IsTree IsCatalogKey catalog_cmp store → AreSorted (pairs_of store) }
{}

/// Adding an entry with its thread is an insertion into the maps of names and of CNIDs.
pub fn entries_are_inserted()
    ensures { (entry : Placed) (old new : List Pair) → is_empty entry.name ≡ false → AreSorted new → AddsEntry entry old new → InsertsEntry entry old new }
{}

/// Dropping an entry with its thread is a deletion from the maps of names and of CNIDs.
pub fn entries_are_deleted()
    ensures { (entry : Placed) (old new : List Pair) → is_empty entry.name ≡ false → AreSorted old → DropsEntry entry old new → DeletesEntry entry old new }
{}

/// An update by a record of the same kind, CNID and forks, that is a link as the old one was, changes the value of the entry alone.
pub fn updates_change_values()
    ensures { (parent : ℕ) (name : List ℕ) (value : CatRecord) (entry : Placed) (old new : List Pair) → record_at (placed_in old) parent name ≡ Some entry → SameKind entry (record entry { value = value }) → forks_in value ≡ forks_in entry.value
        → UpdatesEntry parent name value old new → ChangesValue entry value old new }
{}
