//! A store of nodes in memory: node 0 stands for the header node, and the map is a list of flags.
#![tactic(auto, unfolding(crate::specs::Store::unwritten_sectors))]

ghost use Rattle.std.specs.Prelude.{◌≡◌, ◌≤◌, ◌<◌, ◌+◌, ℕ, IsTrue, length, IfOk, true, false, ◌↔◌, ◌⊎◌, All, replicate, slice_index_or, OnOk, slice_set};
ghost use Rattle.btree_node.specs.Kept.{AreNodes};
ghost use Rattle.btree_node.specs.Store.{HasRoom, Writes, SameRoom, SameNodes};
ghost use Rattle.btree_node.specs.Node.{IsNodeSize};

use crate::node::Node;
use crate::store::{NodeStore, TreeShape};
use hx_bytes::{Failed, OutOfMemory};
use std::alloc::Global;

/// Nodes in memory, without a tree at first. A new store tells contracts what its nodes hold.
#[derive(Drop)]
pub struct MemNodes {
    shape: TreeShape,
    nodes: Vec<Node>,
    used: Vec<bool>,
    written: Vec<bool>,
    unwritten: u32,
    writes_left: u32,
    loads: u64,
    tells: bool,
    ghost kept: { AreNodes shape nodes.items used.items written.items unwritten },
}

/// Nodes of zeros.
fn blank_nodes(alloc: Global, node_size: u32, total: u32) -> Result<Vec<Node>, OutOfMemory>
    requires { IsNodeSize node_size }
    ensures count { IfOk result (λ nodes. length nodes.items ≡ total) }
    ensures size { IfOk result (λ nodes. All (λ node. length node ≡ node_size) nodes.items) }
{
    let mut nodes = Vec::new(alloc);
    for _at in 0..total {
        nodes.push(Node::new(alloc, node_size)?)?;
    }
    Ok(nodes)
}

impl MemNodes {
    ghost use Rattle.btree_node.specs.Mem.{mem_state, IsBare};

    /// Nodes of zeros; the first is in use, and all may be written.
    pub fn new(alloc: Global, node_size: u32, total: u32) -> Result<MemNodes, OutOfMemory>
        requires size { IsNodeSize node_size }
        requires some { 0 < total }
        ensures bare { IfOk result (λ store. IsBare node_size total (mem_state store)) }
        ensures left { IfOk result (λ store. (mem_state store).writes_left ≡ u32.MAX) }
        ensures told { IfOk result (λ store. IsTrue (mem_state store).tells) }
    {
        let nodes = blank_nodes(alloc, node_size, total)?;
        let mut used = vec![in alloc; false; total as usize]?;
        used[0] = true;
        let written = vec![in alloc; false; total as usize]?;
        let shape = TreeShape {
            node_size,
            depth: 0,
            root: 0,
            first: 0,
            last: 0,
            leaf_records: 0,
            total,
            free: total - 1,
        };
        Ok(MemNodes {
            shape,
            nodes,
            used,
            written,
            unwritten: total,
            writes_left: u32::MAX,
            loads: 0,
            tells: true,
        })
    }

    /// All nodes count as not yet written again, as after a commit.
    pub fn commit(&mut self, writes_left: u32)
        ensures shape { (mem_state self.new).shape ≡ (mem_state self.old).shape }
        ensures tree { SameNodes (mem_state self.old) (mem_state self.new) }
        ensures written { (n : ℕ) → n < (mem_state self.old).shape.total → (mem_state self.new).written n ≡ false }
        ensures left { (mem_state self.new).writes_left ≡ writes_left }
        ensures loads { (mem_state self.new).loads ≡ (mem_state self.old).loads }
        ensures tells { (mem_state self.new).tells ≡ (mem_state self.old).tells }
    {
        self.written.fill(false);
        self.unwritten = self.shape.total;
        self.writes_left = writes_left;
    }

    /// Whether a node is in use.
    pub fn is_used(&self, node: u32) -> bool
        requires { node < self.now.shape.total }
        ensures { result ≡ (mem_state self.now).used node }
    {
        self.used[node as usize]
    }

    /// How many nodes were written since the last commit.
    pub fn count_written(&self) -> u32
        ensures { result + (mem_state self.now).unwritten ≡ (mem_state self.now).shape.total }
    {
        self.shape.total - self.unwritten
    }

    /// The first node that isn't in use.
    fn first_free(&self) -> u32
        requires { 0 < self.now.shape.free }
        ensures inside { result < self.now.shape.total }
        ensures free { (mem_state self.now).used result ≡ false }
        ensures before { (n : ℕ) → n < result → (mem_state self.now).used n ≡ true }
    {
        for node in 0..self.shape.total {
            if !self.used[node as usize] {
                return node;
            }
        }
        unreachable!()
    }

    fn note(&mut self, node: u32)
        requires { node < self.old.shape.total }
        ensures shape { self.new.shape ≡ self.old.shape }
        ensures tree { SameNodes (mem_state self.old) (mem_state self.new) }
        ensures loads { self.new.loads ≡ self.old.loads }
        ensures tells { self.new.tells ≡ self.old.tells }
        ensures writes { Writes 1 (mem_state self.old) (mem_state self.new) }
        ensures again { IsTrue ((mem_state self.old).written node) → SameRoom (mem_state self.old) (mem_state self.new) }
        ensures written { IsTrue ((mem_state self.new).written node) }
    {
        let at = node as usize;
        if self.written[at] {
            return;
        }
        self.written[at] = true;
        self.unwritten -= 1;
        self.writes_left = self.writes_left.saturating_sub(1);
    }
}

impl NodeStore for MemNodes {
    ghost use Rattle.btree_node.specs.Mem.{mem_state};
    ghost use Rattle.btree_node.specs.MemLaws.{mem_well_formed};

    ghost state = { mem_state };

    ghost follows = { λ _ _. Unit {0} };

    ghost well_formed = { mem_well_formed };

    ghost follows_refl = { λ _. tt };

    ghost follows_trans = { λ _ _ _ _ _. tt };

    fn shape(&self) -> TreeShape {
        self.shape
    }

    fn reshape(&mut self, shape: &TreeShape) {
        self.shape = *shape;
        self.note(0);
    }

    fn load(&mut self, node: u32, into: &mut Node) -> Result<(), Failed> {
        self.loads = self.loads.saturating_add(1);
        into.copy_from(&self.nodes[node as usize]);
        Ok(())
    }

    fn held(&self, node: u32) -> Option<&[u8]> {
        Some(self.nodes[node as usize].bytes())
    }

    fn save(&mut self, node: u32, from: &Node) {
        self.nodes[node as usize].copy_from(from);
        self.note(node);
    }

    fn take_node(&mut self) -> Result<u32, Failed> {
        let node = self.first_free();
        self.used[node as usize] = true;
        self.shape.free -= 1;
        self.note(0);
        Ok(node)
    }

    fn give_node(&mut self, node: u32) -> Result<(), Failed> {
        // The free nodes are fewer than all, whose number has its range.
        let _total = self.shape.total;
        if node > 0 && self.used[node as usize] {
            self.used[node as usize] = false;
            self.shape.free += 1;
            self.note(0);
        }
        Ok(())
    }

    fn has_room(&self, many: u64) -> bool {
        many <= self.writes_left as u64 || self.unwritten <= self.writes_left
    }

    fn is_written(&self, node: u32) -> bool {
        self.written[node as usize]
    }

    fn fail(&mut self) -> Failed {
        Failed
    }
}
