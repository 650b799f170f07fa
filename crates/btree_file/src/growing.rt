//! A tree file whose fork gets longer: the new blocks hold free nodes, and a map node where the map's bits don't suffice.
ghost use Rattle.std.specs.Prelude.{◌≡◌, ◌≢◌, ◌⊎◌, ◌<◌, ◌≤◌, ◌+◌, ◌*◌, ◌/◌, ◌^◌, ℕ, IsTrue, length, min, slice_index, vec_len, vec_capacity};
ghost use Rattle.btree_file.specs.Frame.{PutsWithin};
ghost use Rattle.btree_file.specs.Growth.{ExtendsMap, HasRoomFor, IsGrowing, KeepsTree, CountsMore, SpendsRoom, bits_each, map_nodes_for};
ghost use Rattle.btree_file.specs.Map.{bits_of};
ghost use Rattle.btree_file.specs.State.{sectors_of_tree};

use crate::map_node::{add_stretch, link, make_map_node, turn_to_last, write_header};
use crate::putting::put_node;
use crate::tree::TreeFile;
use btree_node::Node;
use sector_disk::SectorSpace;

/// How many map nodes more are wanted so that each of so many nodes has a bit, where a map has so many bits.
pub(crate) fn count_map_nodes(nodes: u32, bits: u32, node_size: u32) -> u32
    requires least { 512 ≤ node_size }
    requires most { node_size ≤ 32768 }
    ensures { result ≡ map_nodes_for node_size bits nodes }
{
    let each = 8 * (node_size - 20);
    nodes.saturating_sub(bits).div_ceil(each)
}

impl TreeFile {
    /// Counts more nodes, up to so many, as far as the map has bits; they are free.
    pub(crate) fn lengthen<P: SectorSpace>(&mut self, space: &mut P, goal: u32)
        requires growing { IsGrowing goal self.old (P.SectorView.space space.old) }
        requires room { HasRoomFor 0 goal self.old (P.SectorView.space space.old) }
        ensures growing { IsGrowing goal self.new (P.SectorView.space space.new) }
        ensures tree { IsTrue (P.SectorView.space space.old).tells → KeepsTree self.old self.new (P.SectorView.space space.old).content (P.SectorView.space space.new).content }
        ensures counts { CountsMore self.old self.new }
        ensures map { self.new.map ≡ self.old.map }
        ensures total { IsTrue (P.SectorView.space space.old).tells → self.new.shape.total ≡ min goal (bits_of self.new.map.items) }
        ensures frame { PutsWithin (sectors_of_tree self.old) (P.SectorView.space space.old) (P.SectorView.space space.new) }
        ensures room { SpendsRoom goal self.old self.new (P.SectorView.space space.old) (P.SectorView.space space.new) }
        ensures below { P.SectorView.follows space.old space.new }
        ensures faults { (P.SectorView.space space.new).faults ≡ (P.SectorView.space space.old).faults }
    {
        let to = goal.min(self.map_bits());
        if to <= self.shape.total {
            return;
        }
        self.shape.free += to - self.shape.total;
        self.shape.total = to;
        write_header(
            space,
            &self.fork,
            self.per_block,
            &mut self.header,
            &self.shape,
        );
    }

    /// Makes the next node a map node, where all bits of the map are counted: the last map node names it, and the first of its bits is its own.
    fn add_map_node<P: SectorSpace>(&mut self, space: &mut P, zeros: &Node, goal: u32)
        requires growing { IsGrowing goal self.old (P.SectorView.space space.old) }
        requires full { IsTrue (P.SectorView.space space.old).tells → self.old.shape.total ≡ bits_of self.old.map.items }
        requires below { self.old.shape.total < goal }
        requires room { HasRoomFor 1 goal self.old (P.SectorView.space space.old) }
        requires memory { vec_len self.old.map < vec_capacity self.old.map }
        requires long { length zeros.now ≡ self.old.shape.node_size }
        requires zeros { (k : ℕ) → slice_index zeros.now k ≡ 0 }
        ensures growing { IsGrowing goal self.new (P.SectorView.space space.new) }
        ensures tree { IsTrue (P.SectorView.space space.old).tells → KeepsTree self.old self.new (P.SectorView.space space.old).content (P.SectorView.space space.new).content }
        ensures counts { CountsMore self.old self.new }
        ensures map { length self.new.map.items ≡ length self.old.map.items + 1 }
        ensures extends { ExtendsMap self.old.shape.total self.old.map.items self.new.map.items }
        ensures bits { bits_of self.new.map.items ≡ bits_of self.old.map.items + bits_each self.old.shape.node_size }
        ensures memory { vec_capacity self.old.map ≤ vec_capacity self.new.map }
        ensures frame { PutsWithin (sectors_of_tree self.old) (P.SectorView.space space.old) (P.SectorView.space space.new) }
        ensures room { SpendsRoom goal self.old self.new (P.SectorView.space space.old) (P.SectorView.space space.new) }
        ensures below { P.SectorView.follows space.old space.new }
        ensures faults { (P.SectorView.space space.new).faults ≡ (P.SectorView.space space.old).faults }
    {
        let node = self.shape.total;
        let last = self.map[self.map.len() - 1].node;
        turn_to_last(&mut self.page, &self.header, last);
        link(
            space,
            &self.fork,
            self.per_block,
            &mut self.page,
            &mut self.header,
            last,
            node,
        );
        let stretch = make_map_node(&mut self.page, zeros, node);
        put_node(space, &self.fork, self.per_block, node, &self.page);
        add_stretch(&mut self.map, stretch);
        self.shape.total = node + 1;
        write_header(
            space,
            &self.fork,
            self.per_block,
            &mut self.header,
            &self.shape,
        );
    }

    /// Adds a map node, where fewer nodes than these are counted, and counts the nodes that its bits are for.
    fn add_stage<P: SectorSpace>(&mut self, space: &mut P, zeros: &Node, goal: u32)
        requires growing { IsGrowing goal self.old (P.SectorView.space space.old) }
        requires full { IsTrue (P.SectorView.space space.old).tells → self.old.shape.total ≡ min goal (bits_of self.old.map.items) }
        requires room { HasRoomFor 1 goal self.old (P.SectorView.space space.old) }
        requires memory { vec_len self.old.map < vec_capacity self.old.map }
        requires long { length zeros.now ≡ self.old.shape.node_size }
        requires zeros { (k : ℕ) → slice_index zeros.now k ≡ 0 }
        ensures growing { IsGrowing goal self.new (P.SectorView.space space.new) }
        ensures tree { IsTrue (P.SectorView.space space.old).tells → KeepsTree self.old self.new (P.SectorView.space space.old).content (P.SectorView.space space.new).content }
        ensures counts { CountsMore self.old self.new }
        ensures full { IsTrue (P.SectorView.space space.old).tells → self.new.shape.total ≡ min goal (bits_of self.new.map.items) }
        ensures grown { self.old.shape.total < goal → (length self.new.map.items ≡ length self.old.map.items + 1) × (bits_of self.new.map.items ≡ bits_of self.old.map.items + bits_each self.old.shape.node_size) }
        ensures extends { ExtendsMap self.old.shape.total self.old.map.items self.new.map.items }
        ensures most { vec_len self.new.map ≤ vec_len self.old.map + 1 }
        ensures memory { vec_capacity self.old.map ≤ vec_capacity self.new.map }
        ensures frame { PutsWithin (sectors_of_tree self.old) (P.SectorView.space space.old) (P.SectorView.space space.new) }
        ensures room { SpendsRoom goal self.old self.new (P.SectorView.space space.old) (P.SectorView.space space.new) }
        ensures left { (more : ℕ) → HasRoomFor (more + 1) goal self.old (P.SectorView.space space.old) → HasRoomFor more goal self.new (P.SectorView.space space.new) }
        ensures below { P.SectorView.follows space.old space.new }
        ensures faults { (P.SectorView.space space.new).faults ≡ (P.SectorView.space space.old).faults }
    {
        if self.shape.total >= goal {
            return;
        }
        self.add_map_node(space, zeros, goal);
        self.lengthen(space, goal);
    }

    /// Counts so many nodes, with so many map nodes more, which their bits take.
    pub(crate) fn add_nodes<P: SectorSpace>(
        &mut self,
        space: &mut P,
        zeros: &Node,
        goal: u32,
        count: u32,
    )
        requires growing { IsGrowing goal self.old (P.SectorView.space space.old) }
        requires full { IsTrue (P.SectorView.space space.old).tells → self.old.shape.total ≡ min goal (bits_of self.old.map.items) }
        requires count { count ≡ map_nodes_for self.old.shape.node_size (bits_of self.old.map.items) goal }
        requires room { HasRoomFor count goal self.old (P.SectorView.space space.old) }
        requires memory { vec_len self.old.map + count ≤ vec_capacity self.old.map }
        requires long { length zeros.now ≡ self.old.shape.node_size }
        requires zeros { (k : ℕ) → slice_index zeros.now k ≡ 0 }
        ensures growing { IsGrowing goal self.new (P.SectorView.space space.new) }
        ensures tree { IsTrue (P.SectorView.space space.old).tells → KeepsTree self.old self.new (P.SectorView.space space.old).content (P.SectorView.space space.new).content }
        ensures counts { CountsMore self.old self.new }
        ensures total { IsTrue (P.SectorView.space space.old).tells → self.new.shape.total ≡ goal }
        ensures map { IsTrue (P.SectorView.space space.old).tells → length self.new.map.items ≡ length self.old.map.items + count }
        ensures extends { ExtendsMap self.old.shape.total self.old.map.items self.new.map.items }
        ensures most { length self.new.map.items ≤ length self.old.map.items + count }
        ensures frame { PutsWithin (sectors_of_tree self.old) (P.SectorView.space space.old) (P.SectorView.space space.new) }
        ensures room { SpendsRoom goal self.old self.new (P.SectorView.space space.old) (P.SectorView.space space.new) }
        ensures below { P.SectorView.follows space.old space.new }
        ensures faults { (P.SectorView.space space.new).faults ≡ (P.SectorView.space space.old).faults }
    {
        for _stage in 0..count {
            self.add_stage(space, zeros, goal);
        }
    }
}
