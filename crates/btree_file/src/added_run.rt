//! A run of blocks that is added to the fork of a tree file, with its nodes.
ghost use Rattle.std.specs.Prelude.{◌≡◌, ◌≢◌, ◌⊎◌, ◌<◌, ◌≤◌, ◌+◌, ◌*◌, ◌/◌, ◌++◌, ◌∷◌, ◌^◌, [], IsTrue, length, replicate, vec_len, vec_capacity, IfOk, IfSome, IsSome, OnOk, OnErr, IsErrOf};
ghost use Rattle.hx_bytes.specs.declared.faults.Trouble.TheVariants.{Disk};
ghost use Rattle.fork_map.specs.Blocks.{blocks_of, fork_sectors};
ghost use Rattle.fork_map.specs.Cut.{join};
ghost use Rattle.fork_map.specs.Nodes.{node_of};
ghost use Rattle.sector_disk.specs.Cause.{HasCause, Rose};
ghost use Rattle.btree_node.specs.Node.{IsNodeSize};
ghost use Rattle.btree_file.specs.Frame.{PutsWithin, ReadsSpace};
ghost use Rattle.btree_file.specs.Growth.{HasGrown, HasRoomToGrow, HasWholeNodes, RunApart, RunInside, RunOpen, TakesRoomToGrow, SaysSame, last_node, map_nodes_with, nodes_in, nodes_with, sectors_with};
ghost use Rattle.btree_file.specs.Place.{IsInside, AreApart};
ghost use Rattle.btree_file.specs.Standing.{Stands, LiesInside, LiesOpen};

use crate::apart::sectors_differ;
use crate::growing::count_map_nodes;
use crate::putting::get_node;
use crate::tree::{Stretch, TreeFile};
use btree_node::Node;
use fork_map::{ExtentList, SummedFork};
use hx_bytes::{Extent, Failed, OutOfMemory, Trouble};
use sector_disk::{SectorSpace, SectorView};
use std::alloc::Global;

/// What a growth is made with: the longer fork, a node of zeros, how many nodes there shall be, and how many map nodes that takes.
#[derive(Drop)]
struct Growth {
    fork: SummedFork,
    zeros: Node,
    goal: u32,
    count: u32,
}

/// The number of nodes in a run of blocks.
fn count_nodes(run: Extent, per_block: u32, node_size: u32) -> u64
    requires { 512 ≤ node_size }
    ensures { result ≡ nodes_in run per_block node_size }
{
    let sectors = u64::from(run.count) * u64::from(per_block);
    sectors / u64::from(node_size / 512)
}

/// A fork with a run behind it.
fn longer_fork(alloc: Global, fork: &SummedFork, run: Extent) -> Result<SummedFork, OutOfMemory>
    ensures blocks { IfOk result (λ list. blocks_of list ≡ blocks_of fork.now ++ blocks_of (run ∷ [])) }
    ensures extents { IfOk result (λ list. list ≡ join fork.now (run ∷ [])) }
{
    let mut tail = ExtentList::new(alloc);
    tail.push(run)?;
    let list = fork.list().append(alloc, &tail)?;
    SummedFork::from_list(alloc, list)
}

/// Finds memory for so many stretches more.
fn reserve_stretches(map: &mut Vec<Stretch>, count: u32) -> Result<(), OutOfMemory>
    ensures items { map.new.items ≡ map.old.items }
    ensures room { OnOk result (vec_len map.new + count ≤ vec_capacity map.new) }
{
    map.reserve(count as usize)?;
    Ok(())
}

/// Reads the last node of a map onto a page, where it isn't the header node.
fn read_last<V: SectorView>(
    view: &mut V,
    fork: &SummedFork,
    per_block: u32,
    map: &[Stretch],
    page: &mut Node,
) -> Result<(), Failed>
    requires blocks { per_block ≤ 128 }
    requires inside { IsInside fork.now per_block (V.space view.old) }
    requires some { 0 < length map.now }
    requires whole { (last_node map.now + 1) * (length page.old / 512) ≤ length (fork_sectors fork.now per_block) }
    ensures value { IsTrue (V.space view.old).tells → OnOk result (last_node map.now ≢ 0 → page.new ≡ node_of (V.space view.old).content (fork_sectors fork.now per_block) (length page.old / 512) (last_node map.now)) }
    ensures length { length page.new ≡ length page.old }
    ensures reads { ReadsSpace (V.space view.old) (V.space view.new) }
    ensures below { V.follows view.old view.new }
    ensures cause { HasCause (V.space view.old).faults (V.space view.new).faults result }
{
    let last = map[map.len() - 1].node;
    if last == 0 {
        return Ok(());
    }
    get_node(view, fork, per_block, last, page)
}

impl TreeFile {
    /// What a growth by a run is made with; none for a file without a node, and where the fork has a block of the run.
    fn plan_growth(&self, alloc: Global, run: Extent) -> Result<Option<Growth>, OutOfMemory>
        requires few { nodes_with self.now run < 2 ^ 32 }
        ensures some { IfOk result (λ found. IfSome found (λ growth. 0 < length self.now.map.items)) }
        ensures blocks { IfOk result (λ found. IfSome found (λ growth. blocks_of growth.fork ≡ blocks_of self.now.fork ++ blocks_of (run ∷ []))) }
        ensures extents { IfOk result (λ found. IfSome found (λ growth. growth.fork ≡ join self.now.fork (run ∷ []))) }
        ensures apart { IfOk result (λ found. IfSome found (λ growth. AreApart (fork_sectors growth.fork self.now.per_block))) }
        ensures zeros { IfOk result (λ found. IfSome found (λ growth. growth.zeros ≡ replicate self.now.shape.node_size 0)) }
        ensures goal { IfOk result (λ found. IfSome found (λ growth. growth.goal ≡ nodes_with self.now run)) }
        ensures count { IfOk result (λ found. IfSome found (λ growth. growth.count ≡ map_nodes_with self.now run)) }
        ensures found { 0 < length self.now.map.items → 0 < self.now.per_block → AreApart (sectors_with self.now run) → IfOk result (λ found. IsSome found) }
    {
        if self.map.is_empty() {
            return Ok(None);
        }
        if self.per_block == 0 {
            return Ok(None);
        }
        let more = count_nodes(run, self.per_block, self.shape.node_size);
        let goal = self.shape.total + more as u32;
        let fork = longer_fork(alloc, &self.fork, run)?;
        if !sectors_differ(fork.as_slice(), self.per_block) {
            return Ok(None);
        }
        let count = count_map_nodes(goal, self.map_bits(), self.shape.node_size);
        let zeros = Node::new(alloc, self.shape.node_size)?;
        Ok(Some(Growth {
            fork,
            zeros,
            goal,
            count,
        }))
    }

    /// Adds a run of whole nodes behind the fork: they are free, but for the map nodes that they take. A tree stays what it is. Where the call
    /// fails, the file is as it was, and nothing is put.
    pub fn grow<P: SectorSpace>(
        &mut self,
        alloc: Global,
        space: &mut P,
        run: Extent,
    ) -> Result<(), Trouble>
        requires inside { LiesInside self.old (P.SectorView.space space.old) }
        requires run_inside { RunInside self.old run (P.SectorView.space space.old) }
        requires open { LiesOpen self.old (P.SectorView.space space.old) }
        requires run_open { RunOpen self.old run (P.SectorView.space space.old) }
        requires stands { IsTrue (P.SectorView.space space.old).tells → Stands self.old (P.SectorView.space space.old).content }
        requires apart { IsTrue (P.SectorView.space space.old).tells → RunApart self.old run }
        requires whole { HasWholeNodes self.old run }
        requires few { nodes_with self.old run < 2 ^ 32 }
        requires room { HasRoomToGrow self.old run (P.SectorView.space space.old) }
        ensures grown { IsTrue (P.SectorView.space space.old).tells → OnOk result (HasGrown run self.old self.new (P.SectorView.space space.old).content (P.SectorView.space space.new).content) }
        // Only sectors of the longer fork are put.
        ensures frame { PutsWithin (sectors_with self.old run) (P.SectorView.space space.old) (P.SectorView.space space.new) }
        ensures room { TakesRoomToGrow self.old run (P.SectorView.space space.old) (P.SectorView.space space.new) }
        ensures failed { OnErr result (SaysSame self.old self.new) }
        ensures inside { LiesInside self.new (P.SectorView.space space.new) }
        ensures node_size { self.new.shape.node_size ≡ self.old.shape.node_size }
        ensures reads { OnErr result (ReadsSpace (P.SectorView.space space.old) (P.SectorView.space space.new)) }
        ensures below { P.SectorView.follows space.old space.new }
        ensures disk { IsErrOf result Disk → Rose (P.SectorView.space space.old).faults (P.SectorView.space space.new).faults }
    {
        let Some(growth) = self.plan_growth(alloc, run)? else {
            return Ok(());
        };
        reserve_stretches(&mut self.map, growth.count)?;
        read_last(space, &self.fork, self.per_block, &self.map, &mut self.page)?;
        self.fork = growth.fork;
        self.lengthen(space, growth.goal);
        self.add_nodes(space, &growth.zeros, growth.goal, growth.count);
        Ok(())
    }
}
