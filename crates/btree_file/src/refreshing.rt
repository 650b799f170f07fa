//! A tree file that is read again behind an undo, after which its fork and its map may be shorter.
ghost use Rattle.std.specs.Prelude.{◌≡◌, ◌<◌, ◌≤◌, ◌+◌, ◌*◌, ◌/◌, ◌^◌, ℕ, ◌%◌, ◌↔◌, IsTrue, length, min, slice_index_or, OnOk, OnErr};
ghost use Rattle.sector_disk.specs.Cause.{HasCause};
ghost use Rattle.btree_file.specs.Frame.{ReadsSpace};
ghost use Rattle.btree_file.specs.Growth.{GrewFrom, IsBack, SaysSame};
ghost use Rattle.btree_file.specs.Standing.{Stands, LiesInside};
ghost use Rattle.btree_file.specs.State.{sectors_of_tree};
ghost use Rattle.btree_file.specs.declared.tree.Stretch.{Stretch};
ghost use Rattle.btree_file.specs.declared.tree.TreeFile.{TreeFile};

use crate::attaching::has_sectors;
use crate::putting::get_node;
use crate::tree::{Stretch, TreeFile};
use btree_node::TreeShape;
use hx_bytes::Failed;
use sector_disk::SectorView;

/// How many stretches from the first one on lie in the first so many nodes.
fn count_inside(map: &[Stretch], total: u32) -> usize
    ensures few { result ≤ length map.now }
    ensures inside { (k : ℕ) (d : Stretch) → k < result → (slice_index_or map.now k d).node < total }
    ensures stop { (d : Stretch) → result < length map.now → total ≤ (slice_index_or map.now result d).node }
{
    for k in 0..map.len() {
        if map[k].node >= total {
            return k;
        }
    }
    map.len()
}

/// How many blocks so many sectors take.
fn blocks_for(sectors: u64, per_block: u32) -> u64
    requires { 0 < per_block }
    ensures { result ≡ sectors / per_block + min 1 (sectors % per_block) }
{
    sectors.div_ceil(u64::from(per_block))
}

impl TreeFile {
    /// Whether the fork has the nodes that these numbers count, in nodes of its size.
    fn has_room_for(&self, shape: &TreeShape) -> bool
        ensures { IsTrue result ↔ ((0 < self.now.per_block) × (shape.now.node_size ≡ self.now.shape.node_size) × (shape.now.free ≤ shape.now.total) × (shape.now.total * (self.now.shape.node_size / 512) ≤ length (sectors_of_tree self.now))) }
    {
        let count = u64::from(shape.total) * u64::from(self.shape.node_size / 512);
        self.per_block > 0
            && shape.node_size == self.shape.node_size
            && shape.free <= shape.total
            && has_sectors(&self.fork, self.per_block, count)
    }

    /// Reads the header record again. Behind an undo, where the content is one over which an earlier state of the file stood, the file is
    /// that state again: its fork has those blocks that the nodes of the header record take, and its map the stretches in these nodes.
    pub fn refresh<V: SectorView>(&mut self, view: &mut V) -> Result<(), Failed>
        requires inside { LiesInside self.old (V.space view.old) }
        ensures back { IsTrue (V.space view.old).tells → (before : TreeFile) → GrewFrom before self.old → Stands before (V.space view.old).content → OnOk result (IsBack before self.new (V.space view.old).content) }
        ensures failed { OnErr result (SaysSame self.old self.new) }
        ensures inside { LiesInside self.new (V.space view.new) }
        ensures node_size { self.new.shape.node_size ≡ self.old.shape.node_size }
        ensures reads { ReadsSpace (V.space view.old) (V.space view.new) }
        ensures below { V.follows view.old view.new }
        ensures cause { HasCause (V.space view.old).faults (V.space view.new).faults result }
    {
        if self.shape.total == 0 {
            return Ok(());
        }
        get_node(view, &self.fork, self.per_block, 0, &mut self.page)?;
        let shape = self.page.shape();
        if !self.has_room_for(&shape) {
            return Ok(());
        }
        let sectors = u64::from(shape.total) * u64::from(shape.node_size / 512);
        self.fork.shorten(blocks_for(sectors, self.per_block));
        let len = count_inside(&self.map, shape.total);
        self.map.truncate(len);
        self.shape = shape;
        self.header.copy_from(&self.page);
        Ok(())
    }
}
