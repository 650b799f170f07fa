//! Free numbers for the names of the private folder.
ghost use Rattle.std.specs.Prelude.{◌≡◌, ◌≤◌, ◌<◌, ◌+◌, ◌-◌, ◌^◌, IsTrue, IfOk, length};
ghost use Rattle.btree_node.specs.Keys.{IsCatalogKey, catalog_cmp};
ghost use Rattle.btree_node.specs.Tree.{IsTree, pairs_of};
ghost use Rattle.btree_edit.specs.Causes.{HasTroubleCause};
ghost use Rattle.btree_edit.specs.Desk.{IsDeskOf};
ghost use Rattle.btree_edit.specs.Reading.{ReadsNodes};
ghost use Rattle.hfs_volume.specs.Entries.{AreSpelled};
ghost use Rattle.hard_links.specs.Numbers.{TellsFree, FindsFree, IsFreeFrom, IsFirstFree, OnlyReads};

use crate::naming::numbered;
use btree_edit::Desk;
use btree_node::NodeStore;
use catalog::lookup;
use hx_bytes::Trouble;
use std::alloc::Global;

/// The first number from a file's own on that no name of this word in the private folder has; behind the greatest comes 1.
pub(crate) fn free_number<N: NodeStore>(
    alloc: Global,
    store: &mut N,
    desk: &mut Desk,
    private: u32,
    word: &[u16],
    own: u32,
) -> Result<u32, Trouble>
    requires desk { IsDeskOf (N.state store.old).shape.node_size desk.old }
    requires tree { IsTrue (N.state store.old).tells → IsTree IsCatalogKey catalog_cmp (N.state store.old) }
    requires spelled { IsTrue (N.state store.old).tells → AreSpelled (pairs_of (N.state store.old)) }
    requires word { length word.now ≤ 5 }
    // The catalog has fewer records than there are numbers.
    requires few { IsTrue (N.state store.old).tells → (N.state store.old).shape.leaf_records < 2 ^ 32 - 1 }
    ensures first { IsTrue (N.state store.old).tells → IfOk result (λ number. IsFirstFree (pairs_of (N.state store.old)) private word.now own number) }
    ensures reads { OnlyReads (N.state store.old) (N.state store.new) }
    ensures desk { IsDeskOf (N.state store.old).shape.node_size desk.new }
    ensures cause { HasTroubleCause (N.state store.old).faults (N.state store.new).faults result }
    ensures below { N.follows store.old store.new }
{
    match free_from(alloc, store, desk, private, word, own)? {
        Some(number) => Ok(number),
        None => free_of_all(alloc, store, desk, private, word),
    }
}

/// The first free number of all.
fn free_of_all<N: NodeStore>(
    alloc: Global,
    store: &mut N,
    desk: &mut Desk,
    private: u32,
    word: &[u16],
) -> Result<u32, Trouble>
    requires desk { IsDeskOf (N.state store.old).shape.node_size desk.old }
    requires tree { IsTrue (N.state store.old).tells → IsTree IsCatalogKey catalog_cmp (N.state store.old) }
    requires spelled { IsTrue (N.state store.old).tells → AreSpelled (pairs_of (N.state store.old)) }
    requires word { length word.now ≤ 5 }
    requires few { IsTrue (N.state store.old).tells → (N.state store.old).shape.leaf_records < 2 ^ 32 - 1 }
    ensures first { IsTrue (N.state store.old).tells → IfOk result (λ number. IsFreeFrom (pairs_of (N.state store.old)) private word.now 1 number) }
    ensures reads { OnlyReads (N.state store.old) (N.state store.new) }
    ensures desk { IsDeskOf (N.state store.old).shape.node_size desk.new }
    ensures cause { HasTroubleCause (N.state store.old).faults (N.state store.new).faults result }
    ensures below { N.follows store.old store.new }
{
    match free_from(alloc, store, desk, private, word, 1)? {
        Some(number) => Ok(number),
        // There is one, since there are fewer records than numbers.
        None => Ok(1),
    }
}

/// The first free number from one on; none where no number from there on is free.
fn free_from<N: NodeStore>(
    alloc: Global,
    store: &mut N,
    desk: &mut Desk,
    private: u32,
    word: &[u16],
    low: u32,
) -> Result<Option<u32>, Trouble>
    requires desk { IsDeskOf (N.state store.old).shape.node_size desk.old }
    requires tree { IsTrue (N.state store.old).tells → IsTree IsCatalogKey catalog_cmp (N.state store.old) }
    requires spelled { IsTrue (N.state store.old).tells → AreSpelled (pairs_of (N.state store.old)) }
    requires word { length word.now ≤ 5 }
    ensures found { IsTrue (N.state store.old).tells → IfOk result (λ found. FindsFree (pairs_of (N.state store.old)) private word.now low found) }
    ensures reads { OnlyReads (N.state store.old) (N.state store.new) }
    ensures desk { IsDeskOf (N.state store.old).shape.node_size desk.new }
    ensures cause { HasTroubleCause (N.state store.old).faults (N.state store.new).faults result }
    ensures below { N.follows store.old store.new }
{
    for number in low..=u32::MAX {
        if is_free(alloc, store, desk, private, word, number)? {
            return Ok(Some(number));
        }
    }
    Ok(None)
}

/// Whether the private folder has no name of this word with this number.
fn is_free<N: NodeStore>(
    alloc: Global,
    store: &mut N,
    desk: &mut Desk,
    private: u32,
    word: &[u16],
    number: u32,
) -> Result<bool, Trouble>
    requires desk { IsDeskOf (N.state store.old).shape.node_size desk.old }
    requires tree { IsTrue (N.state store.old).tells → IsTree IsCatalogKey catalog_cmp (N.state store.old) }
    requires spelled { IsTrue (N.state store.old).tells → AreSpelled (pairs_of (N.state store.old)) }
    requires word { length word.now ≤ 5 }
    ensures free { IsTrue (N.state store.old).tells → IfOk result (λ free. TellsFree (pairs_of (N.state store.old)) private word.now number free) }
    ensures reads { ReadsNodes (N.state store.old).shape.depth (N.state store.old) (N.state store.new) }
    ensures desk { IsDeskOf (N.state store.old).shape.node_size desk.new }
    ensures cause { HasTroubleCause (N.state store.old).faults (N.state store.new).faults result }
    ensures below { N.follows store.old store.new }
{
    let name = numbered(alloc, word, number)?;
    match lookup(alloc, store, desk, private, &name)? {
        Some(_) => Ok(false),
        None => Ok(true),
    }
}
