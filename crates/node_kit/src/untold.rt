//! A store whose nodes no contract sees: what a test has made is handed to every call.
#![tactic(auto, unfolding(btree_node::specs::Store::unwritten_sectors))]

ghost use Rattle.std.specs.Prelude.{◌≡◌, ◌<◌, ℕ, IsTrue, IfOk};
ghost use Rattle.btree_node.specs.Mem.{mem_state, IsBare};
ghost use Rattle.btree_node.specs.Node.{IsNodeSize};

use btree_node::{MemNodes, Node, NodeStore, TreeShape};
use hx_bytes::{Failed, OutOfMemory};
use std::alloc::Global;

/// Nodes in memory that tell a contract nothing of their bytes.
#[derive(Drop)]
pub struct Untold {
    pub nodes: MemNodes,
    loads: u64,
}

impl Untold {
    /// Nodes of zeros, of which the first is in use: a tree without a pair.
    pub fn new(alloc: Global, node_size: u32, total: u32) -> Result<Untold, OutOfMemory>
        requires size { IsNodeSize node_size }
        requires some { 0 < total }
        ensures bare { IfOk result (λ store. IsBare node_size total (mem_state store.nodes)) }
    {
        let nodes = MemNodes::new(alloc, node_size, total)?;
        Ok(Untold { nodes, loads: 0 })
    }

    /// How many nodes were read.
    pub fn count_loads(&self) -> u64 {
        self.loads
    }
}

impl NodeStore for Untold {
    ghost use Rattle.btree_node.specs.Mem.{mem_state};
    ghost use Rattle.node_kit.specs.Untold.{untold, untold_well_formed};

    ghost state = { λ store. untold (mem_state store.nodes) };

    ghost follows = { λ _ _. Unit {0} };

    ghost well_formed = { λ store. untold_well_formed store.nodes };

    ghost follows_refl = { λ _. tt };

    ghost follows_trans = { λ _ _ _ _ _. tt };

    fn shape(&self) -> TreeShape {
        self.nodes.shape()
    }

    fn reshape(&mut self, shape: &TreeShape) {
        self.nodes.reshape(shape);
    }

    fn load(&mut self, node: u32, into: &mut Node) -> Result<(), Failed> {
        self.loads = self.loads.saturating_add(1);
        self.nodes.load(node, into)
    }

    fn save(&mut self, node: u32, from: &Node) {
        self.nodes.save(node, from);
    }

    fn take_node(&mut self) -> Result<u32, Failed> {
        self.nodes.take_node()
    }

    fn give_node(&mut self, node: u32) -> Result<(), Failed> {
        self.nodes.give_node(node)
    }

    fn has_room(&self, many: u64) -> bool {
        self.nodes.has_room(many)
    }

    fn is_written(&self, node: u32) -> bool {
        self.nodes.is_written(node)
    }

    fn fail(&mut self) -> Failed {
        Failed
    }
}
