//! The levels of a tree, from the root down, each node marked before it is read.
ghost use Rattle.std.specs.Prelude.{◌≡◌, ◌<◌, ◌≤◌, ◌+◌, ◌-◌, ◌/◌, ◌^◌, ◌∷◌, ℕ, [], All, IsTrue, length, slice_index, IfOk, IfNone, IfSome, IsErrOf, OnOk, if◌then◌else◌};
ghost use Rattle.hx_bytes.specs.declared.faults.Trouble.TheVariants.{Disk};
ghost use Rattle.sector_disk.specs.Cause.{Rose};
ghost use Rattle.btree_node.specs.Levels.{value_of};
ghost use Rattle.btree_node.specs.TreeFile.{TreeFile};
ghost use Rattle.btree_file.specs.Frame.{ReadsSpace};
ghost use Rattle.fork_map.specs.Blocks.{fork_sectors};
ghost use Rattle.hfs_volume.specs.Content.{node_of_fork};
ghost use Rattle.hfs_volume.specs.Broken.{node_place, IsBrokenTree};
ghost use Rattle.fsck_scan.specs.Form.{as_found, form_in};
ghost use Rattle.fsck_scan.specs.Good.{IsGoodRecord};
ghost use Rattle.fsck_scan.specs.Scan.{failure, StandsAt, HasNodes, Descends, ComesToRoot, IsWrongNode};

use crate::children::{WrongChild, mark_children, push_node};
use crate::fork::Fork;
use crate::form::{Form, failed};
use crate::level::{WrongNode, push_end, read_level};
use crate::look::{Fault, Place, look_at};
use btree_node::{KeyOrder, Node};
use fsck_list::{Finding, Marks, Records};
use hx_bytes::{OutOfMemory, Trouble};
use sector_disk::SectorView;
use std::alloc::Global;

/// A level: its nodes, their records, and where those of each node end.
#[derive(Drop)]
pub(crate) struct Level {
    pub(crate) nodes: Vec<u32>,
    pub(crate) records: Records,
    pub(crate) ends: Vec<usize>,
}

impl Level {
    /// A level that isn't read yet.
    pub(crate) fn new(alloc: Global) -> Level
        ensures nodes { result.nodes.items ≡ [] }
        ensures records { result.records ≡ [] }
        ensures ends { result.ends.items ≡ [] }
    {
        Level {
            nodes: Vec::new(alloc),
            records: Records::new(alloc),
            ends: Vec::new(alloc),
        }
    }

    /// Its records, with all else given up.
    pub(crate) fn into_records(self) -> Records
        ensures { result ≡ self.records }
    {
        let Level {
            nodes: _,
            records,
            ends: _,
        } = self;
        records
    }
}

/// The place of the node that holds a record of its level, where the records of each node end before these places.
fn owner_of(ends: &[usize], at: usize) -> usize
    ensures within { result ≤ length ends.now }
    ensures before { (i : ℕ) → i < result → slice_index ends.now i ≤ at }
    ensures here { result < length ends.now → at < slice_index ends.now result }
{
    for i in 0..ends.len() {
        if at < ends[i] {
            return i;
        }
    }
    ends.len()
}

/// The node at a place, or 0 past the end.
fn node_at(nodes: &[u32], k: usize) -> u32
    ensures { result ≡ slice_index nodes.now k }
{
    if k < nodes.len() { nodes[k] } else { 0 }
}

/// The finding of a wrong node of a level, which stands below another.
fn wrong_node(form: &Form, above: &Level, nodes: &[u32], wrong: WrongNode) -> Finding
    requires { form.now.id < 2 ^ 16 }
    ensures { IsWrongNode form.now.id above.now.nodes.items above.now.ends.items nodes.now wrong.at wrong.fault (as_found result) }
{
    match wrong.fault {
        Fault::Node => failed(5, form.id, node_at(nodes, wrong.at)),
        Fault::Order => failed(6, form.id, node_at(nodes, wrong.at)),
        Fault::Name => failed(
            6,
            form.id,
            node_at(&above.nodes, owner_of(&above.ends, wrong.at)),
        ),
    }
}

/// The finding of a child that no level can have.
fn wrong_child(form: &Form, wrong: WrongChild) -> Finding
    requires { form.now.id < 2 ^ 16 }
    ensures { as_found result ≡ failure (if wrong.again then 6 else 5) (node_place form.now.id wrong.node) }
{
    if wrong.again {
        failed(6, form.id, wrong.node)
    } else {
        failed(5, form.id, wrong.node)
    }
}

/// Looks at the root of a tree, whose bytes these are: marks it, and takes its records, or gives the finding.
fn take_root<K: KeyOrder>(
    alloc: Global,
    form: &Form,
    total: u32,
    height: u8,
    root: u32,
    node: &Node,
    marks: &mut Marks,
    level: &mut Level,
) -> Result<Option<Finding>, OutOfMemory>
    requires id { form.now.id < 2 ^ 16 }
    requires no_node { level.old.nodes.items ≡ [] }
    requires no_record { level.old.records ≡ [] }
    requires no_end { level.old.ends.items ≡ [] }
    ensures right { (tree : TreeFile) → ComesToRoot K.is_key K.is_value K.cmp tree (length node.now) total height root marks.old node.now
        → IfOk result (λ wrong. IfNone wrong (StandsAt K.is_key K.is_value K.cmp tree 0 marks.new level.new.nodes.items level.new.records level.new.ends.items)) }
    ensures wrong { (tree : TreeFile) → ComesToRoot K.is_key K.is_value K.cmp tree (length node.now) total height root marks.old node.now
        → IfOk result (λ wrong. IfSome wrong (λ finding. IsBrokenTree (form_in form.now) K.is_key K.is_value K.cmp form.now.id tree (as_found finding))) }
    ensures good { IfOk result (λ wrong. IfNone wrong (All (IsGoodRecord K.is_key K.is_value (length node.now / 2 - 10) height) level.new.records)) }
    ensures places { IfOk result (λ wrong. IfNone wrong (length marks.new ≡ length marks.old)) }
{
    if root >= total {
        return Ok(Some(failed(5, form.id, root)));
    }
    let taken = marks.mark(root)?;
    if !taken {
        return Ok(Some(failed(5, form.id, root)));
    }
    push_node(&mut level.nodes, root)?;
    let place = Place {
        most: node.bytes().len() / 2 - 10,
        height,
        next: 0,
        back: 0,
    };
    let names = Records::new(alloc);
    if let Some(fault) = look_at::<K>(node, &place, &names, 0, &mut level.records)? {
        return Ok(Some(wrong_node(form, level, &level.nodes, WrongNode { at: 0, fault })));
    }
    push_end(&mut level.ends, level.records.len())?;
    Ok(None)
}

/// Marks the nodes below a level and reads them, or gives the finding.
fn descend<V: SectorView, K: KeyOrder>(
    view: &mut V,
    fork: &Fork,
    form: &Form,
    total: u32,
    height: u8,
    above: &Level,
    node: &mut Node,
    marks: &mut Marks,
    level: &mut Level,
) -> Result<Option<Finding>, Trouble>
    requires blocks { fork.now.per_block ≤ 2 ^ 23 }
    requires id { form.now.id < 2 ^ 16 }
    requires values { All (λ item. length (value_of item) ≡ 4) above.now.records }
    requires no_node { level.old.nodes.items ≡ [] }
    requires no_record { level.old.records ≡ [] }
    requires no_end { level.old.ends.items ≡ [] }
    ensures right { IsTrue (V.space view.old).tells → (tree : TreeFile) (j : ℕ) → Descends K.is_key K.is_value K.cmp tree
        (λ n. node_of_fork (V.space view.old).content fork.now.limit (fork_sectors fork.now.extents.now fork.now.per_block) (length node.old) n)
        (length node.old) total height j marks.old above.now.nodes.items above.now.records above.now.ends.items
        → IfOk result (λ wrong. IfNone wrong (StandsAt K.is_key K.is_value K.cmp tree (j + 1) marks.new level.new.nodes.items level.new.records level.new.ends.items)) }
    ensures wrong { IsTrue (V.space view.old).tells → (tree : TreeFile) (j : ℕ) → Descends K.is_key K.is_value K.cmp tree
        (λ n. node_of_fork (V.space view.old).content fork.now.limit (fork_sectors fork.now.extents.now fork.now.per_block) (length node.old) n)
        (length node.old) total height j marks.old above.now.nodes.items above.now.records above.now.ends.items
        → IfOk result (λ wrong. IfSome wrong (λ finding. IsBrokenTree (form_in form.now) K.is_key K.is_value K.cmp form.now.id tree (as_found finding))) }
    ensures good { IfOk result (λ wrong. IfNone wrong (All (IsGoodRecord K.is_key K.is_value (length node.old / 2 - 10) height) level.new.records)) }
    ensures places { IfOk result (λ wrong. IfNone wrong (length marks.new ≡ length marks.old)) }
    ensures length { length node.new ≡ length node.old }
    ensures reads { ReadsSpace (V.space view.old) (V.space view.new) }
    ensures below { V.follows view.old view.new }
    ensures disk { IsErrOf result Disk → Rose (V.space view.old).faults (V.space view.new).faults }
{
    if let Some(child) = mark_children(total, &above.records, marks, &mut level.nodes)? {
        return Ok(Some(wrong_child(form, child)));
    }
    let most = node.bytes().len() / 2 - 10;
    let nodes = &level.nodes;
    if let Some(wrong) = read_level::<V, K>(
        view,
        fork,
        nodes,
        &above.records,
        height,
        most,
        node,
        &mut level.records,
        &mut level.ends,
    )? {
        return Ok(Some(wrong_node(form, above, nodes, wrong)));
    }
    Ok(None)
}

/// Reads the levels of a tree from its root, whose bytes these are, down to its leaves, or gives the finding.
pub(crate) fn read_levels<V: SectorView, K: KeyOrder>(
    alloc: Global,
    view: &mut V,
    fork: &Fork,
    form: &Form,
    total: u32,
    height: u8,
    root: u32,
    node: &mut Node,
    marks: &mut Marks,
    level: &mut Level,
) -> Result<Option<Finding>, Trouble>
    requires blocks { fork.now.per_block ≤ 2 ^ 23 }
    requires id { form.now.id < 2 ^ 16 }
    requires some { 0 < height }
    requires no_node { level.old.nodes.items ≡ [] }
    requires no_record { level.old.records ≡ [] }
    requires no_end { level.old.ends.items ≡ [] }
    ensures right { IsTrue (V.space view.old).tells → (tree : TreeFile) → HasNodes tree
        (λ n. node_of_fork (V.space view.old).content fork.now.limit (fork_sectors fork.now.extents.now fork.now.per_block) (length node.old) n)
        (length node.old) total → ComesToRoot K.is_key K.is_value K.cmp tree (length node.old) total height root marks.old node.old
        → IfOk result (λ wrong. IfNone wrong (StandsAt K.is_key K.is_value K.cmp tree (height - 1) marks.new level.new.nodes.items level.new.records level.new.ends.items)) }
    ensures wrong { IsTrue (V.space view.old).tells → (tree : TreeFile) → HasNodes tree
        (λ n. node_of_fork (V.space view.old).content fork.now.limit (fork_sectors fork.now.extents.now fork.now.per_block) (length node.old) n)
        (length node.old) total → ComesToRoot K.is_key K.is_value K.cmp tree (length node.old) total height root marks.old node.old
        → IfOk result (λ wrong. IfSome wrong (λ finding. IsBrokenTree (form_in form.now) K.is_key K.is_value K.cmp form.now.id tree (as_found finding))) }
    ensures length { length node.new ≡ length node.old }
    ensures reads { ReadsSpace (V.space view.old) (V.space view.new) }
    ensures below { V.follows view.old view.new }
    ensures disk { IsErrOf result Disk → Rose (V.space view.old).faults (V.space view.new).faults }
{
    if let Some(finding) = take_root::<K>(alloc, form, total, height, root, node, marks, level)? {
        return Ok(Some(finding));
    }
    for above in 0..height - 1 {
        let mut next = Level::new(alloc);
        if let Some(finding) = descend::<V, K>(
            view,
            fork,
            form,
            total,
            height - 1 - above,
            level,
            node,
            marks,
            &mut next,
        )? {
            return Ok(Some(finding));
        }
        *level = next;
    }
    Ok(None)
}
