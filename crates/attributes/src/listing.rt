//! The names of the attributes of a folder or file, by one walk over the leaves that have them.
ghost use Rattle.std.specs.Prelude.{◌≡◌, ◌≤◌, ◌+◌, ◌==◌, ◌++◌, ◌∷◌, [], IsTrue, IfOk, OnOk, length, if◌then◌else◌};
ghost use Rattle.btree_node.specs.Keys.{IsAttrKey, attr_cmp, attr_file, attr_start, attr_units};
ghost use Rattle.btree_node.specs.Tree.{IsTree, pairs_of};
ghost use Rattle.btree_edit.specs.Causes.{HasTroubleCause};
ghost use Rattle.btree_edit.specs.Desk.{IsDeskOf};
ghost use Rattle.btree_edit.specs.Reading.{ReadsNodes};
ghost use Rattle.btree_edit.specs.Walking.{leaves_where};
ghost use Rattle.attributes.specs.Owned.{is_of, names_of};
ghost use Rattle.attributes.specs.Values.{AreValued};

use crate::pair::{is_key_of, is_later_key, name_key};
use btree_edit::{Desk, seek, step};
use btree_node::{AttrOrder, NodeStore};
use hx_bytes::{Names, OutOfMemory, Trouble, Units, read_be16};
use std::alloc::Global;

/// The names of the attributes of a folder or file, in their order.
pub fn list<N: NodeStore>(
    alloc: Global,
    store: &mut N,
    desk: &mut Desk,
    id: u32,
) -> Result<Names, Trouble>
    requires desk { IsDeskOf (N.state store.old).shape.node_size desk.old }
    requires tree { IsTrue (N.state store.old).tells → IsTree IsAttrKey attr_cmp (N.state store.old) }
    requires form { IsTrue (N.state store.old).tells → AreValued (pairs_of (N.state store.old)) }
    ensures listed { IsTrue (N.state store.old).tells → IfOk result (λ names. names ≡ names_of id (pairs_of (N.state store.old))) }
    // It changes nothing.
    ensures reads { ReadsNodes ((N.state store.old).shape.depth + (N.state store.old).shape.leaf_records) (N.state store.old) (N.state store.new) }
    // It walks the leaves once: it loads the nodes of the way down, and at most those leaves that have an attribute of the folder or file, and one behind them.
    ensures leaves { IsTrue (N.state store.old).tells → OnOk result ((N.state store.new).loads ≤ (N.state store.old).loads + (N.state store.old).shape.depth + leaves_where (is_of id) (N.state store.old) + 1) }
    ensures desk { IsDeskOf (N.state store.old).shape.node_size desk.new }
    ensures cause { HasTroubleCause (N.state store.old).faults (N.state store.new).faults result }
    ensures below { N.follows store.old store.new }
{
    let start = name_key(alloc, id, &Units::new(alloc))?;
    collect(alloc, store, desk, id, start.as_slice())
}

/// The names of the attributes of a folder or file behind a key.
fn collect<N: NodeStore>(
    alloc: Global,
    store: &mut N,
    desk: &mut Desk,
    id: u32,
    start: &[u8],
) -> Result<Names, Trouble>
    requires desk { IsDeskOf (N.state store.old).shape.node_size desk.old }
    requires tree { IsTrue (N.state store.old).tells → IsTree IsAttrKey attr_cmp (N.state store.old) }
    requires form { IsTrue (N.state store.old).tells → AreValued (pairs_of (N.state store.old)) }
    requires start { IsAttrKey start.now }
    requires before { (attr_file start.now ≡ id) × (attr_units start.now ≡ []) }
    ensures listed { IsTrue (N.state store.old).tells → IfOk result (λ names. names ≡ names_of id (pairs_of (N.state store.old))) }
    ensures reads { ReadsNodes ((N.state store.old).shape.depth + (N.state store.old).shape.leaf_records) (N.state store.old) (N.state store.new) }
    ensures leaves { IsTrue (N.state store.old).tells → OnOk result ((N.state store.new).loads ≤ (N.state store.old).loads + (N.state store.old).shape.depth + leaves_where (is_of id) (N.state store.old) + 1) }
    ensures desk { IsDeskOf (N.state store.old).shape.node_size desk.new }
    ensures cause { HasTroubleCause (N.state store.old).faults (N.state store.new).faults result }
    ensures below { N.follows store.old store.new }
{
    let many = store.shape().leaf_records;
    let mut names = Names::new(alloc);
    let Some(first) = seek::<N, AttrOrder>(store, desk, start)? else {
        return Ok(names);
    };
    let mut at = first;
    for _passed in 0..many {
        let Some(on) = step::<N, AttrOrder>(store, desk, at)? else {
            return Ok(names);
        };
        if !is_key_of(desk.key(), id) {
            return Ok(names);
        }
        push_name(alloc, desk.key(), &mut names)?;
        at = on;
    }
    Ok(names)
}

/// Adds the name in a key, if it is that of the first record of its attribute.
fn push_name(alloc: Global, key: &[u8], names: &mut Names) -> Result<(), OutOfMemory>
    requires { IsAttrKey key.now }
    ensures { OnOk result (names.new ≡ names.old ++ (if attr_start key.now == 0 then attr_units key.now ∷ [] else [])) }
{
    if is_later_key(key) {
        return Ok(());
    }
    let name = key_units(alloc, key)?;
    names.push(name)?;
    Ok(())
}

/// The units of the name in a key.
fn key_units(alloc: Global, key: &[u8]) -> Result<Units, OutOfMemory>
    ensures { IfOk result (λ units. units ≡ attr_units key.now) }
{
    let mut units = Units::new(alloc);
    let mut at = 14;
    while at + 2 <= key.len() {
        units.push(read_be16(key, at))?;
        at += 2;
    }
    Ok(units)
}
