//! `ln` of a file with one name: it goes to the private folder, and links stand at both names.
ghost use Rattle.std.specs.Prelude.{◌≡◌, ◌<◌, ◌≤◌, ◌+◌, ◌*◌, ◌∷◌, ◌^◌, ℕ, List, [], None, Some, IsTrue, length, OnOk};
ghost use Rattle.btree_edit.specs.Edits.{EditRoom};
ghost use Rattle.btree_file.specs.Frame.{PutsWithin};
ghost use Rattle.btree_file.specs.Standing.{numbers_of};
ghost use Rattle.btree_file.specs.State.{state_of};
ghost use Rattle.hfs_volume.specs.Changes.{with_numbers};
ghost use Rattle.hfs_volume.specs.Entries.{AreThreaded};
ghost use Rattle.hfs_volume.specs.Links.{node_name};
ghost use Rattle.hfs_model.specs.declared.plain.PlainEntry.{PlainEntry};
ghost use Rattle.hfs_volume.specs.Records.{placed_in, record_at};
ghost use Rattle.hfs_volume.specs.TreeOf.{tree_of};
ghost use Rattle.volume_header.specs.Header.{FitsHeader};
ghost use Rattle.volume_base.specs.Changing.{HasRoomToUpdate, HasRoomToUpdates, PutsHeader, catalog_node};
ghost use Rattle.volume_base.specs.Frame.{Edits, Serves};
ghost use Rattle.volume_base.specs.Linking.{IsLinking};
ghost use Rattle.volume_base.specs.Lists.{lists_of};
ghost use Rattle.volume_base.specs.Losing.{IsOnlyName};
ghost use Rattle.volume_names.specs.EditsLeft.{HasEditsLeft, IsReadyToShare, to_put_header};
ghost use Rattle.volume_names.specs.Sharing.{LinksBoth, PutsLink, SharesFile, with_two_made};
ghost use Rattle.volume_base.specs.Standing.{StandsOver};
ghost use Rattle.volume_names.specs.Unlinking.{HasShared, SaysLinks};

use crate::changing::add;
use crate::linking::link_record;
use crate::relocating::relocate;
use crate::unlinking::put_links;
use hx_bytes::{Trouble, Units};
use sector_disk::SectorSpace;
use std::alloc::Global;
use volume_base::{Route, Volume};
use volume_header::VolumeHeader;

/// The header after two links got the next CNIDs.
fn with_two_made(head: &VolumeHeader) -> VolumeHeader
    ensures same { head.now.next_catalog_id + 2 < 2 ^ 32 → head.now.file_count + 2 < 2 ^ 32 → result ≡ with_two_made head.now }
    ensures numbers { result ≡ with_numbers head.now result }
    ensures fits { FitsHeader head.now → FitsHeader result }
{
    let mut made = *head;
    made.next_catalog_id = head.next_catalog_id.saturating_add(2);
    made.file_count = head.file_count.saturating_add(2);
    made
}

/// The CNID behind this one, or the same where it is the last.
fn id_behind(id: u32) -> u32
    ensures { id + 1 < 2 ^ 32 → result ≡ id + 1 }
{
    id.saturating_add(1)
}

/// Counts two links in the header, which gives them the next CNIDs, and puts the header.
fn draw_two<P: SectorSpace>(volume: &mut Volume, space: &mut P)
    requires stands { StandsOver volume.old (P.SectorView.space space.old) }
    requires some { 1 ≤ (P.SectorView.space space.old).spare }
    ensures stands { StandsOver volume.new (P.SectorView.space space.new) }
    ensures rest { volume.new ≡ record volume.old { header = with_numbers volume.old.header volume.new.header } }
    ensures header { volume.old.header.next_catalog_id + 2 < 2 ^ 32 → volume.old.header.file_count + 2 < 2 ^ 32 → volume.new.header ≡ with_two_made volume.old.header }
    ensures put { IsTrue (P.SectorView.space space.old).tells → PutsHeader volume.new (P.SectorView.space space.old).content (P.SectorView.space space.new).content }
    ensures within { PutsWithin (2 ∷ []) (P.SectorView.space space.old) (P.SectorView.space space.new) }
    ensures spent { (P.SectorView.space space.old).spare ≤ (P.SectorView.space space.new).spare + to_put_header (P.SectorView.space space.old) }
    ensures faults { (P.SectorView.space space.new).faults ≡ (P.SectorView.space space.old).faults }
    ensures below { P.SectorView.follows space.old space.new }
{
    volume.header = with_two_made(&volume.header);
    volume.put_header(space);
}

/// Moves a file into the private folder under the name of a number, where nothing stands, and counts two links in the header.
fn share_file<P: SectorSpace>(
    volume: &mut Volume,
    alloc: Global,
    space: &mut P,
    parent: u32,
    old: &Units,
    private: u32,
    node: &Units,
    number: u32,
) -> Result<(), Trouble>
    requires serves { Serves volume.old (P.SectorView.space space.old) }
    requires size { 4096 ≤ (numbers_of volume.old.catalog.file).node_size }
    requires some { 1 ≤ length old.now }
    requires old_name { length old.now ≤ 255 }
    requires some_node { 1 ≤ length node.now }
    requires node_short { length node.now ≤ 255 }
    requires node { node.now ≡ node_name number }
    requires there { IsTrue (P.SectorView.space space.old).tells → record_at (placed_in (lists_of volume.old (P.SectorView.space space.old).content).catalog_pairs) parent old.now ≡ None → ⊥ }
    requires free { IsTrue (P.SectorView.space space.old).tells → record_at (placed_in (lists_of volume.old (P.SectorView.space space.old).content).catalog_pairs) private (node_name number) ≡ None }
    requires room { IsReadyToShare volume.old (P.SectorView.space space.old) }
    ensures shares { IsTrue (P.SectorView.space space.old).tells → OnOk result (SharesFile parent old.now private number volume.old volume.new (P.SectorView.space space.old).content (P.SectorView.space space.new).content) }
    // What is left of the room for seven edits suffices for four, and for three updates.
    ensures left { OnOk result (HasEditsLeft 4 (3 * catalog_node volume.old) volume.new (P.SectorView.space space.new)) }
    ensures size { OnOk result ((numbers_of volume.new.catalog.file).node_size ≡ (numbers_of volume.old.catalog.file).node_size) }
    ensures edits { Edits P.SectorView.space P.SectorView.follows (P.SectorView.space space.old).spare volume.old volume.new space.old space.new result }
    // The same beside any other sectors.
    ensures leaves { (beside : ℕ) → HasEditsLeft 7 (to_put_header (P.SectorView.space space.old) + beside) volume.old (P.SectorView.space space.old) → OnOk result (HasEditsLeft 4 beside volume.new (P.SectorView.space space.new)) }
    // On a fault too, the sectors beside the edits are left.
    ensures beside { (beside : ℕ) → HasEditsLeft 7 (to_put_header (P.SectorView.space space.old) + beside) volume.old (P.SectorView.space space.old) → IsTrue (P.SectorView.space space.old).tells → beside ≤ (P.SectorView.space space.new).spare }
{
    draw_two(volume, space);
    relocate(volume, alloc, space, parent, old, private, node)?;
    Ok(())
}

/// Adds a link with a CNID, to the file with a number, to a folder, where nothing stands under its name.
fn put_link<P: SectorSpace>(
    volume: &mut Volume,
    alloc: Global,
    space: &mut P,
    folder: u32,
    name: &Units,
    id: u32,
    number: u32,
    created: u32,
) -> Result<(), Trouble>
    requires stands { StandsOver volume.old (P.SectorView.space space.old) }
    requires size { 4096 ≤ (numbers_of volume.old.catalog.file).node_size }
    requires some { 1 ≤ length name.now }
    requires name { length name.now ≤ 255 }
    requires vacant { IsTrue (P.SectorView.space space.old).tells → record_at (placed_in (lists_of volume.old (P.SectorView.space space.old).content).catalog_pairs) folder name.now ≡ None }
    requires unused { IsTrue (P.SectorView.space space.old).tells → record_at (placed_in (lists_of volume.old (P.SectorView.space space.old).content).catalog_pairs) id [] ≡ None }
    requires room { (names : List ℕ) → IsTrue (P.SectorView.space space.old).tells → EditRoom 2 516 (state_of names volume.old.catalog.file (P.SectorView.space space.old)) }
    ensures puts { IsTrue (P.SectorView.space space.old).tells → OnOk result (PutsLink folder name.now id number created volume.old volume.new (P.SectorView.space space.old).content (P.SectorView.space space.new).content) }
    // Of room for two edits more, that for the others is left.
    ensures left { (edits beside : ℕ) → HasEditsLeft (2 + edits) beside volume.old (P.SectorView.space space.old) → OnOk result (HasEditsLeft edits beside volume.new (P.SectorView.space space.new)) }
    // On a fault too, the sectors beside them are left.
    ensures beside { (edits beside : ℕ) → HasEditsLeft (2 + edits) beside volume.old (P.SectorView.space space.old) → IsTrue (P.SectorView.space space.old).tells → beside ≤ (P.SectorView.space space.new).spare }
    ensures size { OnOk result ((numbers_of volume.new.catalog.file).node_size ≡ (numbers_of volume.old.catalog.file).node_size) }
    ensures edits { Edits P.SectorView.space P.SectorView.follows (P.SectorView.space space.old).spare volume.old volume.new space.old space.new result }
{
    let rec = link_record(id, number, created);
    add(volume, alloc, space, folder, name, &rec)?;
    Ok(())
}

/// Lets the file with a CNID say that it has two links, at the volume's moment.
pub(crate) fn say_two<P: SectorSpace>(
    volume: &mut Volume,
    alloc: Global,
    space: &mut P,
    id: u32,
) -> Result<(), Trouble>
    requires stands { StandsOver volume.old (P.SectorView.space space.old) }
    requires threads { IsTrue (P.SectorView.space space.old).tells → AreThreaded (lists_of volume.old (P.SectorView.space space.old).content).catalog_pairs }
    requires there { IsTrue (P.SectorView.space space.old).tells → HasShared id (lists_of volume.old (P.SectorView.space space.old).content).catalog_pairs }
    requires room { HasRoomToUpdate volume.old (P.SectorView.space space.old) }
    // What is left of the room for so many updates suffices for the others.
    ensures room { (many : ℕ) → HasRoomToUpdates (many + 1) volume.old (P.SectorView.space space.old) → OnOk result (HasRoomToUpdates many volume.new (P.SectorView.space space.new)) }
    ensures says { IsTrue (P.SectorView.space space.old).tells → OnOk result ((had : ℕ) × SaysLinks id 2 had volume.old volume.new (P.SectorView.space space.old).content (P.SectorView.space space.new).content) }
    ensures edits { Edits P.SectorView.space P.SectorView.follows (catalog_node volume.old) volume.old volume.new space.old space.new result }
{
    match volume.entry(alloc, space, id)? {
        Some(entry) => put_links(volume, alloc, space, &entry, 2),
        None => Ok(()),
    }
}

/// Moves a file into the private folder under the name of a number, and puts links at its name and at another one.
pub(crate) fn share<P: SectorSpace>(
    volume: &mut Volume,
    alloc: Global,
    space: &mut P,
    way: &Route,
    old: &Units,
    name: &Units,
    private: u32,
    node: &Units,
    number: u32,
    created: u32,
) -> Result<(), Trouble>
    requires serves { Serves volume.old (P.SectorView.space space.old) }
    requires size { 4096 ≤ (numbers_of volume.old.catalog.file).node_size }
    requires some { 1 ≤ length name.now }
    requires name { length name.now ≤ 255 }
    requires some_old { 1 ≤ length old.now }
    requires old_name { length old.now ≤ 255 }
    requires some_node { 1 ≤ length node.now }
    requires node_short { length node.now ≤ 255 }
    requires node { node.now ≡ node_name number }
    requires private { volume.old.private ≡ Some private }
    requires free { IsTrue (P.SectorView.space space.old).tells → record_at (placed_in (lists_of volume.old (P.SectorView.space space.old).content).catalog_pairs) private (node_name number) ≡ None }
    requires only { IsTrue (P.SectorView.space space.old).tells → IsOnlyName (record { parent = way.now.parent; name = old.now }) (lists_of volume.old (P.SectorView.space space.old).content).catalog_pairs }
    requires links { IsTrue (P.SectorView.space space.old).tells → (from to : List (List ℕ)) × (at : PlainEntry) × IsLinking (tree_of (P.SectorView.space space.old).content) from to at way.now.parent old.now way.now.id way.now.folder name.now }
    requires room { IsReadyToShare volume.old (P.SectorView.space space.old) }
    // Three records may be updated behind it.
    ensures room { OnOk result (HasRoomToUpdates 3 volume.new (P.SectorView.space space.new)) }
    ensures both { IsTrue (P.SectorView.space space.old).tells → OnOk result (LinksBoth way.now.parent old.now private number way.now.folder name.now created volume.old volume.new (P.SectorView.space space.old).content (P.SectorView.space space.new).content) }
    ensures edits { Edits P.SectorView.space P.SectorView.follows (P.SectorView.space space.old).spare volume.old volume.new space.old space.new result }
    // What other puts need beside its edits is left.
    ensures leaves { (beside : ℕ) → HasEditsLeft 7 (to_put_header (P.SectorView.space space.old) + beside) volume.old (P.SectorView.space space.old) → OnOk result (HasEditsLeft 0 beside volume.new (P.SectorView.space space.new)) }
    // On a fault too, the sectors beside the edits are left.
    ensures beside { (beside : ℕ) → HasEditsLeft 7 (to_put_header (P.SectorView.space space.old) + beside) volume.old (P.SectorView.space space.old) → IsTrue (P.SectorView.space space.old).tells → beside ≤ (P.SectorView.space space.new).spare }
    ensures size { OnOk result ((numbers_of volume.new.catalog.file).node_size ≡ (numbers_of volume.old.catalog.file).node_size) }
{
    let one = volume.header.next_catalog_id;
    let two = id_behind(one);
    share_file(volume, alloc, space, way.parent, old, private, node, number)?;
    put_link(volume, alloc, space, way.parent, old, one, number, created)?;
    put_link(volume, alloc, space, way.folder, name, two, number, created)
}
