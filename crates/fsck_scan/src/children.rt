//! The nodes of the next level: the children that a level's records name.
ghost use Rattle.std.specs.Prelude.{◌≡◌, ◌↔◌, ◌<◌, ◌++◌, ◌∷◌, [], All, Contains, IsTrue, length, take, IfOk, IfNone, IfSome, OnOk};
ghost use Rattle.btree_node.specs.Levels.{child_of, value_of};
ghost use Rattle.fsck_scan.specs.Marks.{MarksAll, IsNoChild, children_of};

use crate::records::value_part;
use fsck_list::{Marks, Records};
use hx_bytes::{OutOfMemory, read_be32};

/// The child that an index record names.
#[tactic(auto, unfolding(btree_node::specs::Levels::child_of))]
fn child_in(item: &[u8]) -> u32
    requires { length (value_of item.now) ≡ 4 }
    ensures { result ≡ child_of item.now }
{
    read_be32(value_part(item), 0)
}

/// A child that no level can have, and whether it stands before in its own level.
#[derive(Clone, Copy, Debug, PartialEq, Eq)]
pub struct WrongChild {
    pub node: u32,
    pub again: bool,
}

/// Whether a node is one of these.
fn stands(nodes: &[u32], node: u32) -> bool
    ensures { IsTrue result ↔ Contains nodes.now node }
{
    nodes.contains(&node)
}

pub(crate) fn push_node(nodes: &mut Vec<u32>, node: u32) -> Result<(), OutOfMemory>
    ensures { OnOk result (nodes.new.items ≡ nodes.old.items ++ node ∷ []) }
{
    nodes.push(node)?;
    Ok(())
}

/// Marks the children that records name, and adds them to none. The first that can't be marked ends it.
pub fn mark_children(
    total: u32,
    records: &Records,
    marks: &mut Marks,
    nodes: &mut Vec<u32>,
) -> Result<Option<WrongChild>, OutOfMemory>
    requires values { All (λ item. length (value_of item) ≡ 4) records.now }
    requires none { nodes.old.items ≡ [] }
    ensures nodes { IfOk result (λ wrong. IfNone wrong (nodes.new.items ≡ children_of records.now)) }
    ensures inside { IfOk result (λ wrong. IfNone wrong (All (λ n. n < total) nodes.new.items)) }
    ensures marks { IfOk result (λ wrong. IfNone wrong (MarksAll nodes.new.items marks.old marks.new)) }
    ensures wrong { IfOk result (λ wrong. IfSome wrong (λ child. IsNoChild total records.now marks.old child.node child.again)) }
{
    for k in 0..records.len() {
        let n = child_in(records.get(k));
        if n >= total {
            return Ok(Some(WrongChild {
                node: n,
                again: false,
            }));
        }
        let taken = marks.mark(n)?;
        if !taken {
            return Ok(Some(WrongChild {
                node: n,
                again: stands(nodes.as_slice(), n),
            }));
        }
        push_node(nodes, n)?;
    }
    Ok(None)
}
