//! A map node that is added to the map of a tree file: its bytes, and the link of the node before it.
ghost use Rattle.std.specs.Prelude.{◌≡◌, ◌≢◌, ◌<◌, ◌≤◌, ◌+◌, ◌-◌, ◌*◌, ◌/◌, ◌^◌, ◌++◌, ◌∷◌, ℕ, [], pos, IsTrue, length, take, slice_index, vec_len, vec_capacity};
ghost use Rattle.sector_disk.specs.Clock.{TimePasses};
ghost use Rattle.sector_disk.specs.Space.{SameSpace, LeavesDurable};
ghost use Rattle.btree_node.specs.Node.{IsNodeOf, SetsLinks, items, next_of, back_of};
ghost use Rattle.btree_node.specs.TreeFile.{SetsShape};
ghost use Rattle.btree_file.specs.Growth.{IsNewMapNode};
ghost use Rattle.btree_file.specs.Place.{IsInside, IsOpen, AreApart, sectors_at};
ghost use Rattle.fork_map.specs.Blocks.{fork_sectors};
ghost use Rattle.btree_file.specs.Putting.{unput, PutsNode, TakesRoomFor};

use crate::putting::put_node;
use crate::reading::first_record;
use crate::tree::Stretch;
use btree_node::{Node, TreeShape};
use fork_map::SummedFork;
use sector_disk::SectorSpace;

/// Makes a node a map node whose record is these zeros, but for the last 20, whose place the descriptor and the offsets take.
fn fill_map_node(page: &mut Node, zeros: &Node)
    requires { length zeros.now ≡ length page.old }
    ensures items { items page.new ≡ take (length page.old - 20) zeros.now ∷ [] }
    ensures grammar { IsNodeOf (pos 2) 0 page.new }
    ensures next { next_of page.new ≡ 0 }
    ensures length { length page.new ≡ length page.old }
{
    let bytes = zeros.bytes();
    let len = bytes.len() - 20;
    page.clear(2, 0);
    page.insert(0, &bytes[..len], &[]);
}

/// Makes a node the map node with this number, of whose bits only the first is set.
pub(crate) fn make_map_node(page: &mut Node, zeros: &Node, node: u32) -> Stretch
    requires long { length zeros.now ≡ length page.old }
    requires zeros { (k : ℕ) → slice_index zeros.now k ≡ 0 }
    ensures made { IsNewMapNode page.new result }
    ensures node { result.node ≡ node }
    ensures length { length page.new ≡ length page.old }
{
    fill_map_node(page, zeros);
    let (from, to) = first_record(page.bytes());
    page.set_bit(8 * from, true);
    Stretch {
        node,
        at: from,
        len: to - from,
    }
}

/// Adds a stretch to a map, for which there is memory.
pub(crate) fn add_stretch(map: &mut Vec<Stretch>, stretch: Stretch)
    requires { vec_len map.old < vec_capacity map.old }
    ensures items { map.new.items ≡ map.old.items ++ stretch ∷ [] }
    ensures capacity { vec_capacity map.old ≤ vec_capacity map.new }
{
    let _pushed = map.push(stretch);
}

/// Brings the last node of a map onto the page, where it is the header node.
pub(crate) fn turn_to_last(page: &mut Node, header: &Node, last: u32)
    requires { length header.now ≡ length page.old }
    ensures header { last ≡ 0 → page.new ≡ header.now }
    ensures kept { last ≢ 0 → page.new ≡ page.old }
    ensures length { length page.new ≡ length page.old }
{
    if last == 0 {
        page.copy_from(header);
    }
}

/// Makes the last node of a map, which stands on the page, name another one, and puts it.
pub(crate) fn link<P: SectorSpace>(
    space: &mut P,
    fork: &SummedFork,
    per_block: u32,
    page: &mut Node,
    header: &mut Node,
    last: u32,
    next: u32,
)
    requires blocks { per_block ≤ 128 }
    requires apart { AreApart (fork_sectors fork.now per_block) }
    requires inside { IsInside fork.now per_block (P.SectorView.space space.old) }
    requires open { IsOpen fork.now per_block (P.SectorView.space space.old) }
    requires whole { (last + 1) * (length page.old / 512) ≤ length (fork_sectors fork.now per_block) }
    requires room { unput (P.SectorView.space space.old).put (sectors_at (fork_sectors fork.now per_block) (length page.old / 512) last) ≤ (P.SectorView.space space.old).spare }
    requires header { length header.old ≡ length page.old }
    ensures page { SetsLinks next (back_of page.old) page.old page.new }
    ensures header { last ≡ 0 → header.new ≡ page.new }
    ensures header_kept { last ≢ 0 → header.new ≡ header.old }
    ensures header_long { length header.new ≡ length header.old }
    ensures puts { IsTrue (P.SectorView.space space.old).tells → PutsNode (sectors_at (fork_sectors fork.now per_block) (length page.old / 512) last) page.new (P.SectorView.space space.old) (P.SectorView.space space.new) }
    ensures time { IsTrue (P.SectorView.space space.old).tells → TimePasses (P.SectorView.space space.old).clock (P.SectorView.space space.new).clock (LeavesDurable (P.SectorView.space space.new)) }
    ensures room { TakesRoomFor (sectors_at (fork_sectors fork.now per_block) (length page.old / 512) last) (P.SectorView.space space.old) (P.SectorView.space space.new) }
    ensures same { SameSpace (P.SectorView.space space.old) (P.SectorView.space space.new) }
    ensures below { P.SectorView.follows space.old space.new }
    ensures faults { (P.SectorView.space space.new).faults ≡ (P.SectorView.space space.old).faults }
{
    let (_, back) = page.links();
    page.set_links(next, back);
    if last == 0 {
        header.copy_from(page);
    }
    put_node(space, fork, per_block, last, page);
}

/// Writes the numbers of a tree into its header node, and puts it.
pub(crate) fn write_header<P: SectorSpace>(
    space: &mut P,
    fork: &SummedFork,
    per_block: u32,
    header: &mut Node,
    shape: &TreeShape,
)
    requires blocks { per_block ≤ 128 }
    requires apart { AreApart (fork_sectors fork.now per_block) }
    requires inside { IsInside fork.now per_block (P.SectorView.space space.old) }
    requires open { IsOpen fork.now per_block (P.SectorView.space space.old) }
    requires whole { 1 * (length header.old / 512) ≤ length (fork_sectors fork.now per_block) }
    requires room { unput (P.SectorView.space space.old).put (sectors_at (fork_sectors fork.now per_block) (length header.old / 512) 0) ≤ (P.SectorView.space space.old).spare }
    requires size { shape.now.node_size < 2 ^ 16 }
    ensures header { SetsShape shape.now header.old header.new }
    ensures puts { IsTrue (P.SectorView.space space.old).tells → PutsNode (sectors_at (fork_sectors fork.now per_block) (length header.old / 512) 0) header.new (P.SectorView.space space.old) (P.SectorView.space space.new) }
    ensures time { IsTrue (P.SectorView.space space.old).tells → TimePasses (P.SectorView.space space.old).clock (P.SectorView.space space.new).clock (LeavesDurable (P.SectorView.space space.new)) }
    ensures room { TakesRoomFor (sectors_at (fork_sectors fork.now per_block) (length header.old / 512) 0) (P.SectorView.space space.old) (P.SectorView.space space.new) }
    ensures same { SameSpace (P.SectorView.space space.old) (P.SectorView.space space.new) }
    ensures below { P.SectorView.follows space.old space.new }
    ensures faults { (P.SectorView.space space.new).faults ≡ (P.SectorView.space space.old).faults }
{
    header.set_shape(shape);
    put_node(space, fork, per_block, 0, header);
}
