//! Whether the numbers of a tree leave room for one edit.
ghost use Rattle.std.specs.Prelude.{◌≡◌, ◌⊎◌, ◌<◌, ◌≤◌, ◌+◌, ◌-◌, ◌*◌, ◌^◌, ◌↔◌, true, false, IsTrue};
ghost use Rattle.btree_node.specs.Store.{HasRoom};
ghost use Rattle.btree_edit.specs.Editing.{edit_writes};

use btree_node::{NodeStore, TreeShape};

/// Whether so many nodes may be written as an edit of a tree of this shape may write.
fn has_writes<N: NodeStore>(store: &N, shape: &TreeShape) -> bool
    ensures { IsTrue result ↔ HasRoom (edit_writes shape.now.depth) (N.state store.now) }
{
    store.has_room(4 * (shape.depth as u64 + 1) + 4)
}

/// Whether one edit may be made.
pub(crate) fn fits_edit<N: NodeStore>(store: &N) -> bool
    ensures depth { IsTrue result → (N.state store.now).shape.depth ≤ 11 }
    ensures free { IsTrue result → (N.state store.now).shape.depth + 1 ≤ (N.state store.now).shape.free }
    ensures room { IsTrue result → HasRoom (edit_writes (N.state store.now).shape.depth) (N.state store.now) }
    ensures surely { (N.state store.now).shape.depth ≤ 11 → (N.state store.now).shape.depth + 1 ≤ (N.state store.now).shape.free
        → HasRoom (edit_writes (N.state store.now).shape.depth) (N.state store.now) → IsTrue result }
{
    let shape = store.shape();
    if shape.depth > 11 {
        return false;
    }
    if shape.depth as u32 + 1 > shape.free {
        return false;
    }
    has_writes(store, &shape)
}

/// Whether one pair may be added.
pub(crate) fn fits_insert<N: NodeStore>(store: &N) -> bool
    ensures records { IsTrue result → (N.state store.now).shape.leaf_records < 2 ^ 32 - 1 }
    ensures depth { IsTrue result → (N.state store.now).shape.depth ≤ 11 }
    ensures free { IsTrue result → (N.state store.now).shape.depth + 1 ≤ (N.state store.now).shape.free }
    ensures room { IsTrue result → HasRoom (edit_writes (N.state store.now).shape.depth) (N.state store.now) }
    ensures surely { (N.state store.now).shape.leaf_records < 2 ^ 32 - 1 → (N.state store.now).shape.depth ≤ 11
        → (N.state store.now).shape.depth + 1 ≤ (N.state store.now).shape.free → HasRoom (edit_writes (N.state store.now).shape.depth) (N.state store.now) → IsTrue result }
{
    let shape = store.shape();
    if shape.leaf_records == u32::MAX {
        return false;
    }
    fits_edit(store)
}

/// Whether one pair may be removed; where all keys have one length it takes no node.
pub(crate) fn fits_removal<N: NodeStore>(store: &N, fixed: bool) -> bool
    ensures depth { IsTrue result → fixed ≡ false → (N.state store.now).shape.depth ≤ 11 }
    ensures free { IsTrue result → fixed ≡ false → (N.state store.now).shape.depth + 1 ≤ (N.state store.now).shape.free }
    ensures room { IsTrue result → HasRoom (edit_writes (N.state store.now).shape.depth) (N.state store.now) }
    ensures surely { (fixed ≡ false → (N.state store.now).shape.depth ≤ 11) → (fixed ≡ false → (N.state store.now).shape.depth + 1 ≤ (N.state store.now).shape.free)
        → HasRoom (edit_writes (N.state store.now).shape.depth) (N.state store.now) → IsTrue result }
{
    if fixed {
        let shape = store.shape();
        return has_writes(store, &shape);
    }
    fits_edit(store)
}

/// Whether the pair in this leaf may have another value: by one write where that is of the length of the old one, else by an edit.
pub(crate) fn fits_value<N: NodeStore>(store: &N, same: bool, node: u32) -> bool
    ensures once { IsTrue result → same ≡ true → HasRoom 1 (N.state store.now) ⊎ IsTrue ((N.state store.now).written node) }
    ensures depth { IsTrue result → same ≡ false → (N.state store.now).shape.depth ≤ 11 }
    ensures free { IsTrue result → same ≡ false → (N.state store.now).shape.depth + 1 ≤ (N.state store.now).shape.free }
    ensures room { IsTrue result → same ≡ false → HasRoom (edit_writes (N.state store.now).shape.depth) (N.state store.now) }
    ensures surely_one { node < (N.state store.now).shape.total → same ≡ true → HasRoom 1 (N.state store.now) ⊎ IsTrue ((N.state store.now).written node) → IsTrue result }
    ensures surely { same ≡ false → (N.state store.now).shape.depth ≤ 11 → (N.state store.now).shape.depth + 1 ≤ (N.state store.now).shape.free
        → HasRoom (edit_writes (N.state store.now).shape.depth) (N.state store.now) → IsTrue result }
{
    if !same {
        return fits_edit(store);
    }
    if store.has_room(1) {
        return true;
    }
    let shape = store.shape();
    if node >= shape.total {
        return false;
    }
    store.is_written(node)
}
