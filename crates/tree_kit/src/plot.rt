//! A tree in a fork of sectors in memory, whose calls are made only where their conditions hold.
ghost use Rattle.std.specs.Prelude.{◌≡◌, ◌≤◌, ◌<◌, ◌+◌, ◌-◌, ◌*◌, ◌/◌, ◌^◌, ◌∷◌, [], ℕ, IsTrue, IfOk, IfSome, length, slice_index};
ghost use Rattle.btree_edit.specs.Desk.{IsDeskOf};
ghost use Rattle.btree_file.specs.Growth.{HasWholeNodes, RunInside, nodes_in, nodes_with};
ghost use Rattle.btree_file.specs.Place.{IsInside};
ghost use Rattle.fork_map.specs.Blocks.{fork_sectors};
ghost use Rattle.btree_file.specs.Standing.{numbers_of, LiesInside};
ghost use Rattle.alloc_bitmap.specs.Untold.{told_none};

use crate::calls::{add, change, find_next, find_pair, lengthen, read_again, take_out};
use btree_edit::{Desk, Found, Inserted, Removed};
use btree_file::TreeFile;
use btree_node::{KeyOrder, TreeShape};
use fork_map::ExtentList;
use hx_bytes::{Extent, OutOfMemory, Sector, Trouble};
use sector_kit::Sectors;
use std::alloc::Global;

/// The tree in a fork.
#[derive(Drop)]
pub struct Plot {
    pub space: Sectors,
    tree: TreeFile,
    desk: Desk,
    ghost inside: { LiesInside tree (told_none (length space.list.items)) },
    ghost fits: { IsDeskOf (numbers_of tree).node_size desk },
}

/// Whether each sector of a fork lies below a number.
pub fn lies_below(fork: &ExtentList, per_block: u32, sectors: u64) -> bool
    requires { per_block ≤ 128 }
    ensures { IsTrue result → IsInside fork.now per_block (told_none sectors) }
{
    for n in 0..u64::MAX {
        match fork.sector_at(per_block, n) {
            Some(at) => {
                if at >= sectors {
                    return false;
                }
            }
            None => return true,
        }
    }
    false
}

/// A list of one extent.
fn one_run(alloc: Global, run: Extent) -> Result<ExtentList, OutOfMemory>
    ensures { IfOk result (λ list. list ≡ run ∷ []) }
{
    let mut list = ExtentList::new(alloc);
    list.push(run)?;
    Ok(list)
}

/// How many nodes a run has, where it is whole nodes.
fn whole_nodes(run: Extent, per_block: u32, node_size: u32) -> Option<u64>
    ensures whole { IfSome result (λ count. nodes_in run per_block node_size * (node_size / 512) ≡ run.count * per_block) }
    ensures count { IfSome result (λ count. count ≡ nodes_in run per_block node_size) }
{
    let sectors = u64::from(run.count) * u64::from(per_block);
    let per = u64::from(node_size / 512);
    if per == 0 {
        return None;
    }
    let count = sectors / per;
    if count * per == sectors {
        Some(count)
    } else {
        None
    }
}

impl Plot {
    /// The tree in a fork, in blocks of so many bytes; none where the fork doesn't lie in the sectors.
    pub fn attach(
        alloc: Global,
        space: Sectors,
        fork: &ExtentList,
        block: u32,
    ) -> Result<Option<Plot>, Trouble> {
        let mut space = space;
        if block < 512 || block > 65536 {
            return Ok(None);
        }
        if !lies_below(fork, block / 512, space.list.len() as u64) {
            return Ok(None);
        }
        let tree = TreeFile::attach(alloc, &mut space, fork, block)?;
        let desk = Desk::new(alloc, tree.shape().node_size)?;
        Ok(Some(Plot { space, tree, desk }))
    }

    /// The numbers of the header record.
    pub fn shape(&self) -> TreeShape
        ensures { result ≡ numbers_of self.now.tree }
    {
        self.tree.shape()
    }

    /// How many bits the map has.
    pub fn map_bits(&self) -> u32 {
        self.tree.map_bits()
    }

    /// Whether a pair may stand in a leaf.
    fn is_short(&self, key: &[u8], value: &[u8]) -> bool
        ensures { IsTrue result → length key.now + length value.now ≤ (numbers_of self.now.tree).node_size / 2 - 10 }
    {
        let shape = self.shape();
        let most = (shape.node_size / 2).saturating_sub(10) as usize;
        if key.len() > most {
            return false;
        }
        value.len() <= most - key.len()
    }

    /// Adds a pair; none where it mustn't be asked for, or where that failed.
    pub fn add<K: KeyOrder>(&mut self, key: &[u8], value: &[u8]) -> Option<Inserted> {
        if !K::valid(key) {
            return None;
        }
        if !self.is_short(key, value) {
            return None;
        }
        add::<K>(&mut self.tree, &mut self.space, &mut self.desk, key, value).ok()
    }

    /// Removes a pair.
    pub fn take_out<K: KeyOrder>(&mut self, key: &[u8]) -> Option<Removed> {
        if !K::valid(key) {
            return None;
        }
        take_out::<K>(&mut self.tree, &mut self.space, &mut self.desk, key).ok()
    }

    /// Gives a pair another value.
    pub fn change<K: KeyOrder>(&mut self, key: &[u8], value: &[u8]) -> Option<Removed> {
        if !K::valid(key) {
            return None;
        }
        if !self.is_short(key, value) {
            return None;
        }
        change::<K>(&mut self.tree, &mut self.space, &mut self.desk, key, value).ok()
    }

    /// Whether a key has this value.
    pub fn has<K: KeyOrder>(&mut self, key: &[u8], value: &[u8]) -> bool {
        if !K::valid(key) {
            return false;
        }
        let found = find_pair::<K>(&mut self.tree, &mut self.space, &mut self.desk, key);
        matches!(found, Ok(Found::At { .. })) && self.desk.value() == value
    }

    /// Whether a key is the next one above another.
    pub fn follows<K: KeyOrder>(&mut self, key: &[u8], above: &[u8]) -> bool {
        if !K::valid(key) {
            return false;
        }
        let found = find_next::<K>(&mut self.tree, &mut self.space, &mut self.desk, key);
        found == Ok(true) && self.desk.key() == above
    }

    /// Whether a run may be added behind the fork.
    fn may_grow(&self, alloc: Global, run: Extent) -> Result<bool, OutOfMemory>
        ensures inside { IfOk result (λ may. IsTrue may → RunInside self.now.tree run (told_none (length self.now.space.list.items))) }
        ensures whole { IfOk result (λ may. IsTrue may → HasWholeNodes self.now.tree run) }
        ensures few { IfOk result (λ may. IsTrue may → nodes_with self.now.tree run < 2 ^ 32) }
    {
        let per_block = self.tree.per_block();
        if per_block > 128 {
            return Ok(false);
        }
        let shape = self.tree.shape();
        let Some(count) = whole_nodes(run, per_block, shape.node_size) else {
            return Ok(false);
        };
        if count > 0xFFFF_FFFF - u64::from(shape.total) {
            return Ok(false);
        }
        let list = one_run(alloc, run)?;
        Ok(lies_below(&list, per_block, self.space.list.len() as u64))
    }

    /// Adds a run of blocks behind the fork; false where it mustn't be added.
    pub fn grow(&mut self, alloc: Global, run: Extent) -> Result<bool, Trouble> {
        if !self.may_grow(alloc, run)? {
            return Ok(false);
        }
        lengthen(alloc, &mut self.tree, &mut self.space, run)?;
        Ok(true)
    }

    /// Puts sectors back that were kept, and reads the header record again; false where they aren't as many.
    pub fn undo(&mut self, kept: &[Sector]) -> bool {
        if kept.len() != self.space.list.len() {
            return false;
        }
        self.space.list.copy_from_slice(kept);
        read_again(&mut self.tree, &mut self.space).is_ok()
    }

    /// The sectors, without the tree.
    pub fn into_sectors(self) -> Sectors {
        let Plot { space, tree, desk } = self;
        space
    }
}
