// The first pair in a store that tells its nodes: what an edit asks of a tree can be met.
ghost use Rattle.std.specs.Prelude.{◌≡◌, ◌≤◌, ◌<◌, ◌+◌, ◌*◌, ◌/◌, ◌-◌, ◌∷◌, [], length, IfOk};
ghost use Rattle.btree_node.specs.Mem.{mem_state};
ghost use Rattle.btree_node.specs.Node.{IsNodeSize};
ghost use Rattle.btree_node.specs.Tree.{IsTree, HasValues, pairs_of};
ghost use Rattle.btree_edit.specs.LevelEdit.{node_room};

use btree_edit::{Desk, Inserted, insert};
use btree_node::{KeyOrder, MemNodes};
use hx_bytes::OutOfMemory;
use std::alloc::Global;

/// A store in memory whose tree has this pair alone.
pub fn plant<K: KeyOrder>(
    alloc: Global,
    node_size: u32,
    total: u32,
    key: &[u8],
    value: &[u8],
) -> Result<MemNodes, OutOfMemory>
    requires size { IsNodeSize node_size }
    requires some { 1 < total }
    requires wide { 3 * (K.MAX + 8) ≤ node_room node_size }
    requires key { K.is_key key.now }
    requires value { K.is_value value.now }
    requires short { length key.now + length value.now ≤ node_size / 2 - 10 }
    ensures tree { IfOk result (λ store. IsTree K.is_key K.cmp (mem_state store)) }
    ensures pairs { IfOk result (λ store. pairs_of (mem_state store) ≡ (key.now, value.now) ∷ []) }
    ensures values { IfOk result (λ store. HasValues K.is_value (mem_state store)) }
{
    let mut store = MemNodes::new(alloc, node_size, total)?;
    let mut desk = Desk::new(alloc, node_size)?;
    match insert::<MemNodes, K>(&mut store, &mut desk, key, value) {
        Ok(Inserted::Done) => Ok(store),
        _ => unreachable!(),
    }
}
