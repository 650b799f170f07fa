//! The map of a tree file, read along its map nodes.
ghost use Rattle.std.specs.Prelude.{◌≡◌, ◌≢◌, ◌<◌, ◌≤◌, ◌+◌, ◌-◌, ◌*◌, ◌/◌, ◌++◌, ◌∷◌, ℕ, [], pos, IsTrue, IsSome, length, IfOk, IfSome, OnOk, IsErrOf};
ghost use Rattle.fork_map.specs.Nodes.{node_of};
ghost use Rattle.hx_bytes.specs.declared.faults.Trouble.TheVariants.{Disk};
ghost use Rattle.sector_disk.specs.Cause.{HasCause, Rose};
ghost use Rattle.btree_node.specs.Node.{IsNode, IsNodeOf, next_of, offset, record_count};
ghost use Rattle.btree_node.specs.TreeFile.{map_chain};
ghost use Rattle.btree_file.specs.Frame.{ReadsSpace};
ghost use Rattle.btree_file.specs.Map.{IsMapRecord, AreStretches};
ghost use Rattle.btree_file.specs.Place.{IsInside};
ghost use Rattle.fork_map.specs.Blocks.{fork_sectors};
ghost use Rattle.btree_file.specs.Walks.{FitsFile, HasChain, names_of};

use crate::marking::is_reserved;
use crate::putting::get_node;
use crate::tree::Stretch;
use btree_node::Node;
use fork_map::SummedFork;
use hx_bytes::{Failed, OutOfMemory, Trouble, read_be16};
use sector_disk::SectorView;
use std::alloc::Global;

/// A map node: its stretch of the map, and the map node behind it, or 0.
#[derive(Clone, Copy)]
pub(crate) struct MapNode {
    pub(crate) stretch: Stretch,
    pub(crate) next: u32,
}

/// Where the first record of a node begins and ends.
#[tactic(auto, unfolding(btree_node::specs::Node::offset))]
pub(crate) fn first_record(node: &[u8]) -> (u32, u32)
    requires { 512 ≤ length node.now }
    ensures from { result.0 ≡ offset node.now 0 }
    ensures to { result.1 ≡ offset node.now 1 }
{
    let from = read_be16(node, node.len() - 2);
    let to = read_be16(node, node.len() - 4);
    (u32::from(from), u32::from(to))
}

/// The stretch of a map node.
fn stretch_of(page: &Node, node: u32) -> Option<MapNode>
    ensures read { IfSome result (λ step. IsMapRecord page.now step.stretch) }
    ensures node { IfSome result (λ step. step.stretch.node ≡ node) }
    ensures low { IfSome result (λ step. step.stretch.at + step.stretch.len ≤ length page.now) }
    ensures next { IfSome result (λ step. step.next ≡ next_of page.now) }
    ensures found { IsNodeOf (pos 2) 0 page.now → 0 < record_count page.now → IsSome result }
{
    if !page.check(2, 0) {
        return None;
    }
    if page.count() == 0 {
        return None;
    }
    let (from, to) = first_record(page.bytes());
    let (next, _) = page.links();
    let stretch = Stretch {
        node,
        at: from,
        len: to - from,
    };
    Some(MapNode { stretch, next })
}

/// Reads a map node.
pub(crate) fn read_map_node<V: SectorView>(
    view: &mut V,
    fork: &SummedFork,
    per_block: u32,
    node: u32,
    page: &mut Node,
) -> Result<Option<MapNode>, Failed>
    requires blocks { per_block ≤ 128 }
    requires inside { IsInside fork.now per_block (V.space view.old) }
    requires whole { (node + 1) * (length page.old / 512) ≤ length (fork_sectors fork.now per_block) }
    ensures read { IsTrue (V.space view.old).tells → IfOk result (λ found. IfSome found (λ step. IsMapRecord (node_of (V.space view.old).content (fork_sectors fork.now per_block) (length page.old / 512) node) step.stretch)) }
    ensures node { IfOk result (λ found. IfSome found (λ step. step.stretch.node ≡ node)) }
    ensures low { IfOk result (λ found. IfSome found (λ step. step.stretch.at + step.stretch.len ≤ length page.old)) }
    ensures next { IsTrue (V.space view.old).tells → IfOk result (λ found. IfSome found (λ step. step.next ≡ next_of (node_of (V.space view.old).content (fork_sectors fork.now per_block) (length page.old / 512) node))) }
    ensures found { IsTrue (V.space view.old).tells → IsNodeOf (pos 2) 0 (node_of (V.space view.old).content (fork_sectors fork.now per_block) (length page.old / 512) node)
        → 0 < record_count (node_of (V.space view.old).content (fork_sectors fork.now per_block) (length page.old / 512) node) → IfOk result (λ found. IsSome found) }
    ensures length { length page.new ≡ length page.old }
    ensures reads { ReadsSpace (V.space view.old) (V.space view.new) }
    ensures below { V.follows view.old view.new }
    ensures cause { HasCause (V.space view.old).faults (V.space view.new).faults result }
{
    get_node(view, fork, per_block, node, page)?;
    Ok(stretch_of(page, node))
}

fn push_stretch(map: &mut Vec<Stretch>, stretch: Stretch) -> Result<(), OutOfMemory>
    ensures { OnOk result (map.new.items ≡ map.old.items ++ stretch ∷ []) }
{
    map.push(stretch)?;
    Ok(())
}

/// Reads the map of so many nodes along the chain of map nodes, none where the chain is none. The header node is known.
pub(crate) fn read_map<V: SectorView>(
    alloc: Global,
    view: &mut V,
    fork: &SummedFork,
    per_block: u32,
    total: u32,
    header: &Node,
    page: &mut Node,
) -> Result<Option<Vec<Stretch>>, Trouble>
    requires blocks { per_block ≤ 128 }
    requires inside { IsInside fork.now per_block (V.space view.old) }
    requires whole { total * (length page.old / 512) ≤ length (fork_sectors fork.now per_block) }
    requires some { 0 < total }
    requires long { length header.now ≡ length page.old }
    requires header { IsTrue (V.space view.old).tells → header.now ≡ node_of (V.space view.old).content (fork_sectors fork.now per_block) (length page.old / 512) 0 }
    ensures fits { IfOk result (λ found. IfSome found (λ map. FitsFile total (length page.old) map.items)) }
    ensures stretches { IsTrue (V.space view.old).tells → IfOk result (λ found. IfSome found (λ map. AreStretches (node_of (V.space view.old).content (fork_sectors fork.now per_block) (length page.old / 512)) (length page.old) map.items)) }
    ensures chain { IsTrue (V.space view.old).tells → IfOk result (λ found. IfSome found (λ map. map_chain (node_of (V.space view.old).content (fork_sectors fork.now per_block) (length page.old / 512)) total
        (next_of (node_of (V.space view.old).content (fork_sectors fork.now per_block) (length page.old / 512) 0)) ≡ names_of map.items)) }
    ensures found { IsTrue (V.space view.old).tells → HasChain total (node_of (V.space view.old).content (fork_sectors fork.now per_block) (length page.old / 512)) → IfOk result (λ found. IsSome found) }
    ensures length { length page.new ≡ length page.old }
    ensures reads { ReadsSpace (V.space view.old) (V.space view.new) }
    ensures below { V.follows view.old view.new }
    ensures disk { IsErrOf result Disk → Rose (V.space view.old).faults (V.space view.new).faults }
{
    let size = header.bytes().len() as u32;
    let mut map = Vec::new(alloc);
    push_stretch(
        &mut map,
        Stretch {
            node: 0,
            at: 248,
            len: size - 256,
        },
    )?;
    let mut next = header.links().0;
    for _read in 1..total {
        if next == 0 {
            return Ok(Some(map));
        }
        if next >= total {
            return Ok(None);
        }
        if is_reserved(&map, next) {
            return Ok(None);
        }
        let Some(step) = read_map_node(view, fork, per_block, next, page)? else {
            return Ok(None);
        };
        push_stretch(&mut map, step.stretch)?;
        next = step.next;
    }
    if next == 0 { Ok(Some(map)) } else { Ok(None) }
}
