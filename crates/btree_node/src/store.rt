//! A store of the nodes of one tree.
ghost use Rattle.std.specs.Prelude.{◌≡◌, ◌<◌, ◌≤◌, ◌+◌, ◌-◌, ◌⊎◌, ◌↔◌, ℕ, true, false, List, IsTrue, length, min, OnOk, OnErr, IfOk, IfSome, ◌^◌};
ghost use Rattle.btree_node.specs.Store.{Store, IsWellFormed, HasRoom, HasCause, SameStore, SameNodes, SameRoom, ChangesOnly, MapsOnly, ShapesOnly, Writes, next_count, with_free};

use crate::node::Node;
use hx_bytes::Failed;

/// The numbers of a tree's header record (TN1150, "Header Record").
#[derive(Clone, Copy, Debug, PartialEq, Eq)]
pub struct TreeShape {
    pub node_size: u32,
    pub depth: u16,
    pub root: u32,
    pub first: u32,
    pub last: u32,
    pub leaf_records: u32,
    pub total: u32,
    pub free: u32,
}

/// The nodes of one tree, by their numbers.
pub trait NodeStore {
    /// All that a contract sees of it.
    ghost state: { Self → Store };

    /// What lies below the store is the same, and what a call may do to it was done.
    ghost follows: { Self → Self → Type 0 };

    fn shape(&self) -> TreeShape
        ensures { result ≡ (state self.now).shape };

    /// Sets the shape, and writes it to the header node.
    fn reshape(&mut self, shape: &TreeShape)
        requires size { shape.now.node_size ≡ (state self.old).shape.node_size }
        requires total { shape.now.total ≡ (state self.old).shape.total }
        requires free { shape.now.free ≡ (state self.old).shape.free }
        requires room { HasRoom 1 (state self.old) }
        ensures shape { (state self.new).shape ≡ shape.now }
        ensures tree { IsTrue (state self.old).tells → ShapesOnly (state self.old) (state self.new) }
        ensures writes { Writes 1 (state self.old) (state self.new) }
        ensures loads { (state self.new).loads ≡ (state self.old).loads }
        ensures faults { (state self.new).faults ≡ (state self.old).faults }
        ensures same { SameStore (state self.old) (state self.new) }
        ensures below { follows self.old self.new };

    /// Reads a node.
    fn load(&mut self, node: u32, into: &mut Node) -> Result<(), Failed>
        requires inside { node < (state self.old).shape.total }
        requires size { length into.old ≡ (state self.old).shape.node_size }
        ensures value { IsTrue (state self.old).tells → OnOk result (into.new ≡ (state self.old).nodes node) }
        ensures length { length into.new ≡ length into.old }
        ensures loads { (state self.new).loads ≡ next_count (state self.old).loads }
        ensures shape { (state self.new).shape ≡ (state self.old).shape }
        ensures tree { IsTrue (state self.old).tells → SameNodes (state self.old) (state self.new) }
        ensures room { SameRoom (state self.old) (state self.new) }
        ensures cause { HasCause (state self.old).faults (state self.new).faults result }
        ensures same { SameStore (state self.old) (state self.new) }
        ensures below { follows self.old self.new };

    /// The bytes of a node, where the store has them side by side in memory. Nothing is read, and no load is counted.
    fn held(&self, node: u32) -> Option<&[u8]>
        requires inside { node < (state self.now).shape.total }
        ensures value { IsTrue (state self.now).tells → IfSome result (λ bytes. bytes.now ≡ (state self.now).nodes node) }
        ensures size { IfSome result (λ bytes. length bytes.now ≡ (state self.now).shape.node_size) }
    {
        None
    }

    /// Writes a node of the tree. Of the header node and the map nodes nothing is said but that it returns.
    fn save(&mut self, node: u32, from: &Node)
        requires inside { node < (state self.old).shape.total }
        requires size { length from.now ≡ (state self.old).shape.node_size }
        requires room { HasRoom 1 (state self.old) ⊎ IsTrue ((state self.old).written node) }
        ensures shape { (state self.new).shape ≡ (state self.old).shape }
        ensures tree { IsTrue (state self.old).tells → (state self.old).reserved node ≡ false → ChangesOnly node from.now (state self.old) (state self.new) }
        ensures writes { Writes 1 (state self.old) (state self.new) }
        ensures again { IsTrue ((state self.old).written node) → SameRoom (state self.old) (state self.new) }
        ensures written { (state self.old).reserved node ≡ false → IsTrue ((state self.new).written node) }
        ensures loads { (state self.new).loads ≡ (state self.old).loads }
        ensures faults { (state self.new).faults ≡ (state self.old).faults }
        ensures same { SameStore (state self.old) (state self.new) }
        ensures below { follows self.old self.new };

    /// Takes a node that is free.
    fn take_node(&mut self) -> Result<u32, Failed>
        requires free { 0 < (state self.old).shape.free }
        requires room { HasRoom 1 (state self.old) }
        ensures inside { IfOk result (λ node. node < (state self.old).shape.total) }
        ensures was_free { IsTrue (state self.old).tells → IfOk result (λ node. (state self.old).used node ≡ false) }
        ensures of_tree { IsTrue (state self.old).tells → IfOk result (λ node. (state self.old).reserved node ≡ false) }
        ensures tree { IsTrue (state self.old).tells → IfOk result (λ node. MapsOnly node true (state self.old) (state self.new)) }
        ensures shape { OnOk result ((state self.new).shape ≡ with_free (state self.old).shape ((state self.old).shape.free - 1)) }
        ensures kept { OnErr result ((state self.new).shape ≡ (state self.old).shape) }
        ensures unchanged { IsTrue (state self.old).tells → OnErr result (SameNodes (state self.old) (state self.new)) }
        ensures writes { Writes 1 (state self.old) (state self.new) }
        ensures loads { (state self.new).loads ≡ (state self.old).loads }
        ensures cause { HasCause (state self.old).faults (state self.new).faults result }
        ensures same { SameStore (state self.old) (state self.new) }
        ensures below { follows self.old self.new };

    /// Makes a node free that is in use and is neither the header node nor a map node. Of any other nothing is said but that it returns.
    fn give_node(&mut self, node: u32) -> Result<(), Failed>
        requires inside { node < (state self.old).shape.total }
        requires room { HasRoom 1 (state self.old) }
        ensures tree { IsTrue (state self.old).tells → (state self.old).used node ≡ true → (state self.old).reserved node ≡ false → OnOk result (MapsOnly node false (state self.old) (state self.new)) }
        ensures shape { (state self.new).shape ≡ with_free (state self.old).shape (state self.new).shape.free }
        ensures more { (state self.old).shape.free ≤ (state self.new).shape.free }
        ensures one_more { IsTrue (state self.old).tells → (state self.old).used node ≡ true → (state self.old).reserved node ≡ false → OnOk result ((state self.new).shape.free ≡ (state self.old).shape.free + 1) }
        ensures kept { OnErr result ((state self.new).shape ≡ (state self.old).shape) }
        ensures unchanged { IsTrue (state self.old).tells → OnErr result (SameNodes (state self.old) (state self.new)) }
        ensures writes { Writes 1 (state self.old) (state self.new) }
        ensures loads { (state self.new).loads ≡ (state self.old).loads }
        ensures cause { HasCause (state self.old).faults (state self.new).faults result }
        ensures same { SameStore (state self.old) (state self.new) }
        ensures below { follows self.old self.new };

    /// Whether there is room to write so many nodes, or all that aren't written yet.
    fn has_room(&self, many: u64) -> bool
        ensures { IsTrue result ↔ HasRoom many (state self.now) };

    /// Whether a node was written since the last commit.
    fn is_written(&self, node: u32) -> bool
        requires { node < (state self.now).shape.total }
        ensures { result ≡ (state self.now).written node };

    /// Counts a fault, where the store doesn't tell what it has: its numbers leave no room for what is asked. Nothing else is done.
    fn fail(&mut self) -> Failed
        requires hidden { (state self.old).tells ≡ false }
        ensures shape { (state self.new).shape ≡ (state self.old).shape }
        ensures loads { (state self.new).loads ≡ (state self.old).loads }
        ensures room { SameRoom (state self.old) (state self.new) }
        ensures same { SameStore (state self.old) (state self.new) }
        ensures below { follows self.old self.new }
        ensures later { (state self.old).faults ≤ (state self.new).faults }
        ensures faults { next_count (state self.old).faults ≤ (state self.new).faults };

    ghost well_formed: { (store : Self) → IsWellFormed (state store) };

    ghost follows_refl: { (store : Self) → follows store store };

    ghost follows_trans: { (a b c : Self) → follows a b → follows b c → follows a c };
}
