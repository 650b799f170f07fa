//! The extents of a file's fork, read and stored: those behind the eight of its record stand in overflow records (TN1150, "Extents Overflow File").
ghost use Rattle.std.specs.Prelude.{◌≡◌, ◌≢◌, ◌⊎◌, ◌<◌, ◌≤◌, ◌+◌, ◌-◌, ◌*◌, ◌/◌, ◌^◌, ℕ, List, false, true, map, max, min, IsTrue, IfNone, IfOk, IfSome, OnOk, length};
ghost use Rattle.std.specs.List.{Contains};
ghost use Rattle.sector_disk.specs.Lists.{Content};
ghost use Rattle.btree_node.specs.Keys.{IsExtentKey, extent_cmp, is_eight_extents};
ghost use Rattle.btree_node.specs.Store.{HasRoom};
ghost use Rattle.btree_node.specs.TreeFile.{extents_form};
ghost use Rattle.btree_edit.specs.Causes.{HasTroubleCause};
ghost use Rattle.btree_edit.specs.Desk.{IsDeskOf};
ghost use Rattle.btree_edit.specs.Editing.{edit_writes};
ghost use Rattle.btree_edit.specs.Edits.{EditRoom};
ghost use Rattle.btree_file.specs.Frame.{FollowsOn};
ghost use Rattle.btree_file.specs.Standing.{HoldsTree, LiesInside, LiesOpen, numbers_of, pairs_in};
ghost use Rattle.btree_file.specs.State.{sectors_of_tree, state_of};
ghost use Rattle.fork_map.specs.Blocks.{blocks_of};
ghost use Rattle.hfs_volume.specs.Content.{records_of, volume_of};
ghost use Rattle.hfs_volume.specs.Forks.{extents_id, in_use, is_full, parts_for};
ghost use Rattle.hfs_volume.specs.Cost.{overflow_records};
ghost use Rattle.hfs_volume.specs.Records.{overflow_of};
ghost use Rattle.overflow.specs.Reading.{HasExtents, fork_records};
ghost use Rattle.overflow.specs.Room.{HasStoreRoom, edits_for};
ghost use Rattle.volume_cost.specs.Sizes.{AreSmall};
ghost use Rattle.volume_space.specs.Cutting.{IsForkOf, spread_load};
ghost use Rattle.volume_base.specs.Cutting.{kind_of};
ghost use Rattle.volume_base.specs.Frame.{Looked, Serves};
ghost use Rattle.volume_base.specs.Lists.{lists_of};
ghost use Rattle.volume_base.specs.Reading.{HasFile};
ghost use Rattle.volume_base.specs.Service.{IsInService};
ghost use Rattle.volume_space.specs.Recording.{records_in};
ghost use Rattle.volume_space.specs.Spreading.{SpreadsExtents, StoresExtents, edits_load, is_met_extents, needs_extents, ChangesFew, light_load};
ghost use Rattle.volume_base.specs.Spreading.{StoresFork};
ghost use Rattle.volume_base.specs.Standing.{StandsOver, own_sectors};
ghost use Rattle.volume_base.specs.Touching.{Touches};

use crate::cutting::count_blocks;
use btree_edit::Desk;
use btree_file::{TreeFile, TreeOn};
use btree_node::TreeShape;
use cat_records::FileRecord;
use fork_map::ExtentList;
use hfs_volume::{Cost, Needs};
use hx_bytes::{Extent, ForkRecord, Trouble};
use overflow::store_fork;
use sector_disk::SectorSpace;
use std::alloc::Global;
use tree_weights::{
    a_load_is_of_parts, a_load_says_enough, commands_have_room, edits_take_their_load,
};
use volume_base::{ForkKind, FreeBlocks, Volume, fork_of, is_measured, load_extents, number_of};
use volume_cost::cost;

/// Whether a CNID is one that files of users have.
pub(crate) fn is_user_id(id: u32) -> bool
    ensures { IsTrue result → 16 ≤ id }
{
    16 <= id
}

/// How many nodes a change of a record puts at most in a tree with these numbers, which adds none.
fn count_nodes(shape: TreeShape) -> u64
    ensures { result ≡ min (edit_writes shape.depth) shape.total }
{
    (4 * (u64::from(shape.depth) + 1) + 4).min(u64::from(shape.total))
}

/// Whether so many nodes of so many sectors can be put.
fn fit_nodes(node: u64, nodes: u64, spare: u64) -> bool
    ensures { IsTrue result → nodes ≤ spare / node }
{
    if node == 0 {
        return false;
    }
    nodes <= spare / node
}

/// What so many edits of the extents overflow file need.
pub(crate) fn needs_of_extents(edits: u32) -> Needs
    ensures same { result ≡ needs_extents edits }
    ensures small { AreSmall result }
{
    Needs {
        ids: 0,
        edits: [edits as u64, 0, 0],
        updates: 0,
        new_blocks: 0,
        old_blocks: 0,
        runs: 0,
    }
}

/// Whether this is a load that so many sectors suffice for, without growth of the extents overflow file.
pub(crate) fn is_met(cost: Cost, spare: u64) -> bool
    ensures { result ≡ is_met_extents cost spare }
{
    match cost {
        Cost::Refused(_) => false,
        Cost::Load { sectors, grow } => grow[0] == 0 && sectors <= spare,
    }
}

/// An eighth of a number, rounded up.
fn eighths(number: u64) -> u64
    ensures { result ≡ parts_for number 8 }
{
    if number == 0 {
        return 0;
    }
    (number - 1) / 8 + 1
}

/// How many overflow records a fork of so many extents has: each has an extent in use.
pub(crate) fn count_records(extents: usize) -> u64
    ensures { result ≡ overflow_records extents }
{
    eighths((extents as u64).saturating_sub(8))
}

/// How many edits at most make so many overflow records of a fork those of so many extents, and one at least; none where there are too many.
pub(crate) fn count_edits(records: u64, new: usize) -> Option<u32>
    ensures exact { IfSome result (λ edits. edits ≡ max (records + parts_for (new - 8) 8) 1) }
    ensures few { IfNone result (4294967295 < records + parts_for (new - 8) 8) }
{
    let all = u128::from(records) + u128::from(eighths((new as u64).saturating_sub(8)));
    if all > 0xFFFF_FFFF {
        return None;
    }
    Some((all as u32).max(1))
}

/// Whether each extent has blocks.
fn have_blocks(extents: &[Extent]) -> bool
    ensures { result ≡ is_full extents.now }
{
    extents.iter().all(|extent| extent.count != 0)
}

/// Whether a fork may have so many blocks as these.
pub(crate) fn are_few(list: &ExtentList) -> bool
    ensures { IsTrue result → length (blocks_of list.now) < 2 ^ 32 }
{
    count_blocks(list.as_slice()) <= 0xFFFF_FFFF
}

/// Whether all extents of a list have blocks.
fn all_have_blocks(list: &ExtentList) -> bool
    ensures { result ≡ is_full list.now }
{
    have_blocks(list.as_slice())
}

/// Whether a list has no more extents than so many.
fn is_no_longer(list: &ExtentList, most: u64) -> bool
    ensures { IsTrue result → length list.now ≤ most }
{
    if list.len() as u64 > most {
        return false;
    }
    true
}

/// Whether a file's record holds all extents of a list.
fn is_in_record(list: &ExtentList) -> bool
    ensures { IsTrue result → length list.now ≤ 8 }
{
    list.len() <= 8
}

/// Makes the overflow records of a fork those of other extents. The kind of a fork is 0 for data and 255 for resources.
pub(crate) fn store_records<P: SectorSpace>(
    alloc: Global,
    tree: &mut TreeFile,
    desk: &mut Desk,
    space: &mut P,
    id: u32,
    kind: u8,
    old: &ExtentList,
    new: &ExtentList,
) -> Result<ForkRecord, Trouble>
    requires desk { IsDeskOf (numbers_of tree.old).node_size desk.old }
    requires inside { LiesInside tree.old (P.SectorView.space space.old) }
    requires open { LiesOpen tree.old (P.SectorView.space space.old) }
    requires kind { (kind ≡ 0) ⊎ (kind ≡ 255) }
    requires file { id ≢ extents_id }
    requires holds { IsTrue (P.SectorView.space space.old).tells → HoldsTree extents_form IsExtentKey is_eight_extents extent_cmp tree.old (P.SectorView.space space.old).content }
    requires has { IsTrue (P.SectorView.space space.old).tells → HasExtents (map overflow_of (pairs_in (sectors_of_tree tree.old) (P.SectorView.space space.old).content)) id kind old.now }
    requires few { length (blocks_of new.now) < 2 ^ 32 }
    requires room { (names : List ℕ) → IsTrue (P.SectorView.space space.old).tells → HasStoreRoom (state_of names tree.old (P.SectorView.space space.old)) id kind new.now }
    ensures stores { IsTrue (P.SectorView.space space.old).tells → OnOk result (StoresFork id kind (in_use new.now) (pairs_in (sectors_of_tree tree.old) (P.SectorView.space space.old).content) (pairs_in (sectors_of_tree tree.old) (P.SectorView.space space.new).content)) }
    ensures holds { IsTrue (P.SectorView.space space.old).tells → OnOk result (HoldsTree extents_form IsExtentKey is_eight_extents extent_cmp tree.new (P.SectorView.space space.new).content) }
    ensures frame { FollowsOn tree.old tree.new (P.SectorView.space space.old) (P.SectorView.space space.new) }
    ensures desk { IsDeskOf (numbers_of tree.new).node_size desk.new }
    // On a fault too, it puts no more sectors than the load counts for so many edits.
    ensures spent { IsTrue (P.SectorView.space space.old).tells → (edits : ℕ) → ((names : List ℕ) → edits_for (state_of names tree.old (P.SectorView.space space.old)) id kind new.now ≤ edits) → (P.SectorView.space space.old).spare ≤ (P.SectorView.space space.new).spare + edits_load tree.old.shape edits }
    // Where they add no record, no more than so many changes write.
    ensures light { IsTrue (P.SectorView.space space.old).tells → (changes : ℕ) → ((names : List ℕ) → ChangesFew changes (state_of names tree.old (P.SectorView.space space.old)) id kind new.now) → (P.SectorView.space space.old).spare ≤ (P.SectorView.space space.new).spare + light_load tree.old.shape changes }
    ensures below { P.SectorView.follows space.old space.new }
    ensures cause { HasTroubleCause (P.SectorView.space space.old).faults (P.SectorView.space space.new).faults result }
{
    edits_take_their_load();
    let mut on = TreeOn { tree, space };
    store_fork(alloc, &mut on, desk, id, kind, old, new)
}

/// How many sectors of the extents overflow file the change that a cut makes puts at most.
pub(crate) fn count_spread_sectors(volume: &Volume) -> u64
    ensures same { result ≡ spread_load volume.now }
    ensures few { result < 2 ^ 60 }
{
    let shape = volume.extents.file.shape();
    u64::from(shape.node_size / 512) * count_nodes(shape)
}

/// Whether there is room for the change of an overflow record that a cut makes, which adds none.
pub(crate) fn fits_spread<P: SectorSpace>(volume: &Volume, space: &P) -> bool
    ensures { IsTrue result → (names : List ℕ) → HasRoom (edit_writes volume.now.extents.file.shape.depth) (state_of names volume.now.extents.file (P.SectorView.space space.now)) }
{
    let shape = volume.extents.file.shape();
    fit_nodes(
        u64::from(shape.node_size / 512),
        count_nodes(shape),
        space.spare(),
    )
}

/// The extents of a file's fork.
pub(crate) fn fork_extents<P: SectorSpace>(
    volume: &mut Volume,
    alloc: Global,
    space: &mut P,
    file: &FileRecord,
    kind: ForkKind,
) -> Result<ExtentList, Trouble>
    requires serves { Serves volume.old (P.SectorView.space space.old) }
    requires there { IsTrue (P.SectorView.space space.old).tells → HasFile (records_of (volume_of (P.SectorView.space space.old).content)) file.now }
    ensures found { IsTrue (P.SectorView.space space.old).tells → IfOk result (λ list. IsForkOf list (kind_of kind) file.now (P.SectorView.space space.old).content) }
    ensures looked { Looked P.SectorView.space P.SectorView.follows volume.old volume.new space.old space.new result }
    ensures serves { Serves volume.new (P.SectorView.space space.new) }
{
    let fork = fork_of(kind, file);
    load_extents(
        alloc,
        &mut volume.extents.file,
        &mut volume.extents.desk,
        space,
        file.fields.id,
        number_of(kind),
        &fork,
    )
}

/// Makes the overflow records of a file's fork those of other extents, of which the first eight stand in the file's record. The volume stands as
/// before, with this one change of its extents overflow file. The kind of a fork is 0 for data and 255 for resources.
pub(crate) fn store_extents<P: SectorSpace>(
    volume: &mut Volume,
    alloc: Global,
    space: &mut P,
    id: u32,
    kind: u8,
    old: &ExtentList,
    new: &ExtentList,
) -> Result<ForkRecord, Trouble>
    requires stands { StandsOver volume.old (P.SectorView.space space.old) }
    requires number { 16 ≤ id }
    requires kind { (kind ≡ 0) ⊎ (kind ≡ 255) }
    requires has { IsTrue (P.SectorView.space space.old).tells → HasExtents (map overflow_of (lists_of volume.old (P.SectorView.space space.old).content).overflow_pairs) id kind old.now }
    requires few { length (blocks_of new.now) < 2 ^ 32 }
    requires room { (names : List ℕ) → IsTrue (P.SectorView.space space.old).tells → HasStoreRoom (state_of names volume.old.extents.file (P.SectorView.space space.old)) id kind new.now }
    // Behind an answer it stands, and behind a fault it is in service.
    ensures stands { OnOk result (StandsOver volume.new (P.SectorView.space space.new)) }
    ensures service { IsInService volume.new (P.SectorView.space space.new) }
    // Nothing else of it is changed.
    ensures rest { volume.new ≡ record volume.old { extents = volume.new.extents } }
    ensures stores { IsTrue (P.SectorView.space space.old).tells → OnOk result (StoresExtents id kind (in_use new.now) volume.old volume.new (P.SectorView.space space.old).content (P.SectorView.space space.new).content) }
    ensures own { own_sectors volume.new ≡ own_sectors volume.old }
    // On a fault too, it puts sectors of its own alone, whatever was committed last, and no more than the load counts for so many edits.
    ensures touches { (committed : Content) → Touches committed (λ s. Contains (own_sectors volume.old) s) (P.SectorView.space space.old) (P.SectorView.space space.new) }
    ensures spent { IsTrue (P.SectorView.space space.old).tells → (edits : ℕ) → ((names : List ℕ) → edits_for (state_of names volume.old.extents.file (P.SectorView.space space.old)) id kind new.now ≤ edits) → (P.SectorView.space space.old).spare ≤ (P.SectorView.space space.new).spare + edits_load volume.old.extents.file.shape edits }
    // Where they add no record, no more than so many changes write.
    ensures light { IsTrue (P.SectorView.space space.old).tells → (changes : ℕ) → ((names : List ℕ) → ChangesFew changes (state_of names volume.old.extents.file (P.SectorView.space space.old)) id kind new.now) → (P.SectorView.space space.old).spare ≤ (P.SectorView.space space.new).spare + light_load volume.old.extents.file.shape changes }
    ensures below { P.SectorView.follows space.old space.new }
    ensures cause { HasTroubleCause (P.SectorView.space space.old).faults (P.SectorView.space space.new).faults result }
{
    store_records(
        alloc,
        &mut volume.extents.file,
        &mut volume.extents.desk,
        space,
        id,
        kind,
        old,
        new,
    )
}

/// Whether there is room for so many edits of the extents overflow file, by what they cost.
pub(crate) fn fits_extent_edits<P: SectorSpace>(volume: &Volume, space: &P, edits: u32) -> bool
    requires { 0 < edits }
    ensures { IsTrue result → (names : List ℕ) → IsTrue (P.SectorView.space space.now).tells → EditRoom edits 10 (state_of names volume.now.extents.file (P.SectorView.space space.now)) }
{
    commands_have_room();
    a_load_says_enough();
    a_load_is_of_parts();
    let room = volume.room(FreeBlocks::Takable);
    if !is_measured(&room) {
        return false;
    }
    is_met(cost(&needs_of_extents(edits), &room), space.spare())
}

/// Whether the overflow records of a file's fork, of which there are so many, can be made those of other extents, of which there may be so many.
fn can_spread<P: SectorSpace>(
    volume: &Volume,
    space: &P,
    id: u32,
    kind: u8,
    records: u64,
    later: &ExtentList,
    most: u64,
) -> bool
    ensures user { IsTrue result → 16 ≤ id }
    ensures full { IsTrue result → is_full later.now ≡ true }
    ensures few { IsTrue result → length (blocks_of later.now) < 2 ^ 32 }
    ensures most { IsTrue result → length later.now ≤ most }
    ensures room { IsTrue result → (names : List ℕ) → IsTrue (P.SectorView.space space.now).tells → records ≡ length (fork_records id kind (state_of names volume.now.extents.file (P.SectorView.space space.now)))
        → HasStoreRoom (state_of names volume.now.extents.file (P.SectorView.space space.now)) id kind later.now }
{
    if !is_user_id(id) {
        return false;
    }
    if !all_have_blocks(later) {
        return false;
    }
    if !are_few(later) {
        return false;
    }
    if !is_no_longer(later, most) {
        return false;
    }
    let Some(edits) = count_edits(records, later.len()) else {
        return false;
    };
    fits_extent_edits(volume, space, edits)
}

/// Nothing is stored of a fork of fewer than eight extents that has eight at most.
fn keep_extents<P: SectorSpace>(
    volume: &mut Volume,
    space: &mut P,
    _id: u32,
    _kind: u8,
    _list: &ExtentList,
    later: &ExtentList,
) -> Result<(), Trouble>
    requires stands { StandsOver volume.old (P.SectorView.space space.old) }
    requires short { length _list.now < 8 }
    requires has { IsTrue (P.SectorView.space space.old).tells → HasExtents (map overflow_of (lists_of volume.old (P.SectorView.space space.old).content).overflow_pairs) _id _kind _list.now }
    ensures stands { OnOk result (StandsOver volume.new (P.SectorView.space space.new)) }
    ensures service { IsInService volume.new (P.SectorView.space space.new) }
    ensures rest { volume.new ≡ record volume.old { extents = volume.new.extents } }
    ensures spreads { IsTrue (P.SectorView.space space.old).tells → OnOk result (SpreadsExtents _id _kind later.now volume.old volume.new (P.SectorView.space space.old).content (P.SectorView.space space.new).content) }
    ensures own { own_sectors volume.new ≡ own_sectors volume.old }
    ensures touches { (committed : Content) → Touches committed (λ s. Contains (own_sectors volume.old) s) (P.SectorView.space space.old) (P.SectorView.space space.new) }
    ensures spent { (P.SectorView.space space.old).spare ≤ (P.SectorView.space space.new).spare }
    ensures below { P.SectorView.follows space.old space.new }
    ensures cause { HasTroubleCause (P.SectorView.space space.old).faults (P.SectorView.space space.new).faults result }
{
    if !is_in_record(later) {
        return Err(Trouble::Memory);
    }
    Ok(())
}

/// Stores a fork that has overflow records then, or had them before. Memory is said to be wanting too where they can't be stored.
fn spread_extents<P: SectorSpace>(
    volume: &mut Volume,
    alloc: Global,
    space: &mut P,
    id: u32,
    kind: u8,
    list: &ExtentList,
    later: &ExtentList,
    records: u64,
    most: u64,
) -> Result<(), Trouble>
    requires stands { StandsOver volume.old (P.SectorView.space space.old) }
    requires kind { (kind ≡ 0) ⊎ (kind ≡ 255) }
    requires has { IsTrue (P.SectorView.space space.old).tells → HasExtents (map overflow_of (lists_of volume.old (P.SectorView.space space.old).content).overflow_pairs) id kind list.now }
    requires counted { IsTrue (P.SectorView.space space.old).tells → records ≡ records_in kind (lists_of volume.old (P.SectorView.space space.old).content) id }
    ensures stands { OnOk result (StandsOver volume.new (P.SectorView.space space.new)) }
    ensures service { IsInService volume.new (P.SectorView.space space.new) }
    ensures rest { volume.new ≡ record volume.old { extents = volume.new.extents } }
    ensures spreads { IsTrue (P.SectorView.space space.old).tells → OnOk result (SpreadsExtents id kind later.now volume.old volume.new (P.SectorView.space space.old).content (P.SectorView.space space.new).content) }
    ensures own { own_sectors volume.new ≡ own_sectors volume.old }
    ensures touches { (committed : Content) → Touches committed (λ s. Contains (own_sectors volume.old) s) (P.SectorView.space space.old) (P.SectorView.space space.new) }
    ensures spent { IsTrue (P.SectorView.space space.old).tells → (P.SectorView.space space.old).spare ≤ (P.SectorView.space space.new).spare + edits_load volume.old.extents.file.shape (records + overflow_records most) }
    ensures below { P.SectorView.follows space.old space.new }
    ensures cause { HasTroubleCause (P.SectorView.space space.old).faults (P.SectorView.space space.new).faults result }
{
    if !can_spread(volume, space, id, kind, records, later, most) {
        return Err(Trouble::Memory);
    }
    store_extents(volume, alloc, space, id, kind, list, later)?;
    Ok(())
}

/// Makes the overflow records of a file's fork go with a record of the first eight of these extents, of which there may be so many. Where it isn't
/// spread it has none, and had none before.
pub(crate) fn store_later<P: SectorSpace>(
    volume: &mut Volume,
    alloc: Global,
    space: &mut P,
    id: u32,
    kind: u8,
    list: &ExtentList,
    later: &ExtentList,
    spread: bool,
    records: u64,
    most: u64,
) -> Result<(), Trouble>
    requires stands { StandsOver volume.old (P.SectorView.space space.old) }
    requires short { spread ≡ false → length list.now < 8 }
    requires kind { (kind ≡ 0) ⊎ (kind ≡ 255) }
    requires has { IsTrue (P.SectorView.space space.old).tells → HasExtents (map overflow_of (lists_of volume.old (P.SectorView.space space.old).content).overflow_pairs) id kind list.now }
    requires counted { IsTrue (P.SectorView.space space.old).tells → records ≡ records_in kind (lists_of volume.old (P.SectorView.space space.old).content) id }
    ensures stands { OnOk result (StandsOver volume.new (P.SectorView.space space.new)) }
    ensures service { IsInService volume.new (P.SectorView.space space.new) }
    ensures rest { volume.new ≡ record volume.old { extents = volume.new.extents } }
    ensures spreads { IsTrue (P.SectorView.space space.old).tells → OnOk result (SpreadsExtents id kind later.now volume.old volume.new (P.SectorView.space space.old).content (P.SectorView.space space.new).content) }
    ensures own { own_sectors volume.new ≡ own_sectors volume.old }
    ensures touches { (committed : Content) → Touches committed (λ s. Contains (own_sectors volume.old) s) (P.SectorView.space space.old) (P.SectorView.space space.new) }
    ensures spent { IsTrue (P.SectorView.space space.old).tells → (P.SectorView.space space.old).spare ≤ (P.SectorView.space space.new).spare + edits_load volume.old.extents.file.shape (records + overflow_records most) }
    ensures below { P.SectorView.follows space.old space.new }
    ensures cause { HasTroubleCause (P.SectorView.space space.old).faults (P.SectorView.space space.new).faults result }
{
    if spread {
        return spread_extents(volume, alloc, space, id, kind, list, later, records, most);
    }
    keep_extents(volume, space, id, kind, list, later)
}
