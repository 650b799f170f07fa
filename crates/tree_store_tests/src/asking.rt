//! What is asked of a tree in a space that tells nothing: each time the tree is attached anew.
ghost use Rattle.std.specs.Prelude.{◌≡◌, ◌≤◌, ◌<◌, ◌+◌, ◌-◌, ◌*◌, ◌/◌, ◌^◌, ℕ, IsTrue, length, IfOk};
ghost use Rattle.sector_disk.specs.Space.{SameSpace};
ghost use Rattle.btree_edit.specs.Desk.{IsDeskOf};
ghost use Rattle.btree_file.specs.Standing.{numbers_of, LiesInside};

use crate::flaw::Flaw;
use btree_edit::{Desk, Found, Inserted, Removed, find, insert, remove};
use btree_file::{TreeFile, TreeOn};
use btree_node::{KeyOrder, TreeShape};
use fork_map::ExtentList;
use hx_bytes::Failed;
use sector_disk::SectorSpace;
use std::alloc::Global;
use tree_kit::lies_below;

/// What is asked.
#[derive(Clone, Copy, Debug, PartialEq, Eq)]
pub enum Question {
    Add,
    TakeOut,
    Find,
}

fn insert_in<P: SectorSpace, K: KeyOrder>(
    tree: &mut TreeFile,
    space: &mut P,
    desk: &mut Desk,
    key: &[u8],
    value: &[u8],
) -> Result<Inserted, Failed>
    requires silent { IsTrue (P.SectorView.space space.old).tells → ⊥ }
    requires desk { IsDeskOf (numbers_of tree.old).node_size desk.old }
    requires inside { LiesInside tree.old (P.SectorView.space space.old) }
    requires key { K.is_key key.now }
    requires short { length key.now + length value.now ≤ (numbers_of tree.old).node_size / 2 - 10 }
    ensures same { SameSpace (P.SectorView.space space.old) (P.SectorView.space space.new) }
    ensures below { P.SectorView.follows space.old space.new }
{
    let mut on = TreeOn { tree, space };
    insert::<TreeOn<P>, K>(&mut on, desk, key, value)
}

fn remove_in<P: SectorSpace, K: KeyOrder>(
    tree: &mut TreeFile,
    space: &mut P,
    desk: &mut Desk,
    key: &[u8],
) -> Result<Removed, Failed>
    requires silent { IsTrue (P.SectorView.space space.old).tells → ⊥ }
    requires desk { IsDeskOf (numbers_of tree.old).node_size desk.old }
    requires inside { LiesInside tree.old (P.SectorView.space space.old) }
    requires key { K.is_key key.now }
    ensures same { SameSpace (P.SectorView.space space.old) (P.SectorView.space space.new) }
    ensures below { P.SectorView.follows space.old space.new }
{
    let mut on = TreeOn { tree, space };
    remove::<TreeOn<P>, K>(&mut on, desk, key)
}

fn find_in<P: SectorSpace, K: KeyOrder>(
    tree: &mut TreeFile,
    space: &mut P,
    desk: &mut Desk,
    key: &[u8],
) -> Result<Found, Failed>
    requires silent { IsTrue (P.SectorView.space space.old).tells → ⊥ }
    requires desk { IsDeskOf (numbers_of tree.old).node_size desk.old }
    requires inside { LiesInside tree.old (P.SectorView.space space.old) }
    requires key { K.is_key key.now }
    ensures same { SameSpace (P.SectorView.space space.old) (P.SectorView.space space.new) }
    ensures below { P.SectorView.follows space.old space.new }
{
    let mut on = TreeOn { tree, space };
    find::<TreeOn<P>, K>(&mut on, desk, key)
}

/// Attaches the tree in a fork that lies in the space.
fn attach_in<P: SectorSpace>(
    alloc: Global,
    space: &mut P,
    fork: &ExtentList,
    block: u32,
) -> Result<TreeFile, Flaw>
    ensures inside { IfOk result (λ tree. LiesInside tree (P.SectorView.space space.new)) }
    ensures same { SameSpace (P.SectorView.space space.old) (P.SectorView.space space.new) }
    ensures below { P.SectorView.follows space.old space.new }
{
    if block < 512 || block > 65536 {
        return Err(Flaw::NoTree);
    }
    let sectors = space.sectors();
    if !lies_below(fork, block / 512, sectors) {
        return Err(Flaw::NoTree);
    }
    match TreeFile::attach(alloc, space, fork, block) {
        Ok(tree) => Ok(tree),
        Err(_) => Err(Flaw::NoTree),
    }
}

/// Whether a pair may stand in a leaf of a tree.
fn is_short(tree: &TreeFile, key: &[u8], value: &[u8]) -> bool
    ensures { IsTrue result → length key.now + length value.now ≤ (numbers_of tree.now).node_size / 2 - 10 }
{
    let shape = tree.shape();
    let most = (shape.node_size / 2).saturating_sub(10) as usize;
    if key.len() > most {
        return false;
    }
    value.len() <= most - key.len()
}

fn add_pair<P: SectorSpace, K: KeyOrder>(
    alloc: Global,
    space: &mut P,
    fork: &ExtentList,
    block: u32,
    key: &[u8],
    value: &[u8],
) -> Result<bool, Flaw>
    requires silent { IsTrue (P.SectorView.space space.old).tells → ⊥ }
    ensures same { SameSpace (P.SectorView.space space.old) (P.SectorView.space space.new) }
    ensures below { P.SectorView.follows space.old space.new }
{
    let mut tree = attach_in::<P>(alloc, space, fork, block)?;
    let mut desk = Desk::new(alloc, tree.shape().node_size)?;
    if !K::valid(key) {
        return Ok(false);
    }
    if !is_short(&tree, key, value) {
        return Ok(false);
    }
    let answer = insert_in::<P, K>(&mut tree, space, &mut desk, key, value);
    Ok(answer == Ok(Inserted::Done))
}

fn take_pair<P: SectorSpace, K: KeyOrder>(
    alloc: Global,
    space: &mut P,
    fork: &ExtentList,
    block: u32,
    key: &[u8],
) -> Result<bool, Flaw>
    requires silent { IsTrue (P.SectorView.space space.old).tells → ⊥ }
    ensures same { SameSpace (P.SectorView.space space.old) (P.SectorView.space space.new) }
    ensures below { P.SectorView.follows space.old space.new }
{
    let mut tree = attach_in::<P>(alloc, space, fork, block)?;
    let mut desk = Desk::new(alloc, tree.shape().node_size)?;
    if !K::valid(key) {
        return Ok(false);
    }
    let answer = remove_in::<P, K>(&mut tree, space, &mut desk, key);
    Ok(answer == Ok(Removed::Done))
}

fn has_pair<P: SectorSpace, K: KeyOrder>(
    alloc: Global,
    space: &mut P,
    fork: &ExtentList,
    block: u32,
    key: &[u8],
    value: &[u8],
) -> Result<bool, Flaw>
    requires silent { IsTrue (P.SectorView.space space.old).tells → ⊥ }
    ensures same { SameSpace (P.SectorView.space space.old) (P.SectorView.space space.new) }
    ensures below { P.SectorView.follows space.old space.new }
{
    let mut tree = attach_in::<P>(alloc, space, fork, block)?;
    let mut desk = Desk::new(alloc, tree.shape().node_size)?;
    if !K::valid(key) {
        return Ok(false);
    }
    let answer = find_in::<P, K>(&mut tree, space, &mut desk, key);
    Ok(matches!(answer, Ok(Found::At { .. })) && desk.value() == value)
}

/// Whether a pair was added or removed, or is there.
pub fn ask<P: SectorSpace, K: KeyOrder>(
    alloc: Global,
    space: &mut P,
    fork: &ExtentList,
    block: u32,
    question: Question,
    key: &[u8],
    value: &[u8],
) -> Result<bool, Flaw>
    requires silent { IsTrue (P.SectorView.space space.old).tells → ⊥ }
    ensures same { SameSpace (P.SectorView.space space.old) (P.SectorView.space space.new) }
    ensures below { P.SectorView.follows space.old space.new }
{
    match question {
        Question::Add => add_pair::<P, K>(alloc, space, fork, block, key, value),
        Question::TakeOut => take_pair::<P, K>(alloc, space, fork, block, key),
        Question::Find => has_pair::<P, K>(alloc, space, fork, block, key, value),
    }
}

/// The numbers of a tree.
pub fn numbers<P: SectorSpace>(
    alloc: Global,
    space: &mut P,
    fork: &ExtentList,
    block: u32,
) -> Result<TreeShape, Flaw>
    ensures same { SameSpace (P.SectorView.space space.old) (P.SectorView.space space.new) }
    ensures below { P.SectorView.follows space.old space.new }
{
    let tree = attach_in::<P>(alloc, space, fork, block)?;
    Ok(tree.shape())
}
