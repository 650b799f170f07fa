//! The scan of a tree of a volume: its pairs, or a finding.
ghost use Rattle.std.specs.Prelude.{◌≡◌, ◌<◌, ◌≤◌, ◌+◌, ◌-◌, ◌*◌, ◌%◌, ◌⊎◌, [], length, Contains, IsTrue, IfOk, IsErrOf};
ghost use Rattle.hx_bytes.specs.declared.faults.Trouble.TheVariants.{Disk};
ghost use Rattle.sector_disk.specs.Cause.{Rose};
ghost use Rattle.btree_node.specs.Tree.{pairs_of};
ghost use Rattle.btree_node.specs.TreeFile.{IsTreeFile, store_of};
ghost use Rattle.btree_file.specs.Frame.{ReadsSpace};
ghost use Rattle.hfs_volume.specs.Broken.{IsBrokenTree};
ghost use Rattle.hfs_volume.specs.Findings.{HasBytes};
ghost use Rattle.fsck_list.specs.declared.finding.Finding.{Finding as Listed};
ghost use Rattle.fsck_scan.specs.Form.{as_found, form_in, form_named, head_in, tree_in};

use crate::fork::Fork;
use crate::form::{Head, TreeName};
use crate::pairs::Pairs;
use crate::tree::Level;
use crate::whole::{find_head, scan};
use btree_node::KeyOrder;
use fork_map::{ExtentList, SummedFork};
use fsck_list::Findings;
use hx_bytes::Trouble;
use sector_disk::SectorView;
use std::alloc::Global;

/// How many of a volume's sectors belong to whole blocks of so many sectors.
fn whole_blocks(sectors: u64, per_block: u32) -> u64
    requires { 0 < per_block }
    ensures { result ≡ sectors - sectors % per_block }
{
    sectors - sectors % per_block as u64
}

/// Reads the tree in a fork of a volume whose blocks have so many bytes. A tree that keeps rules 4 to 7 gives its pairs. Any other gives none,
/// and its first finding is added to `out`. It comes to each node once at most, whatever the links are, behind one look at the header record;
/// a test counts these reads, and no clause does.
pub fn scan_tree<V: SectorView, K: KeyOrder>(
    alloc: Global,
    view: &mut V,
    fork: &ExtentList,
    block: u32,
    tree: TreeName,
    out: &mut Findings,
) -> Result<Pairs, Trouble>
    requires least { 512 ≤ block }
    requires most { block ≤ 65536 }
    requires order { 2 * (K.MAX + 16) ≤ (form_named tree).least_node }
    ensures clean { IsTrue (V.space view.old).tells → HasBytes (V.space view.old).content
        → IsTreeFile (form_in (form_named tree)) K.is_key K.is_value K.cmp (tree_in (V.space view.old).content (V.space view.old).sectors block fork.now)
        → IfOk result (λ pairs. (pairs ≡ pairs_of (store_of (tree_in (V.space view.old).content (V.space view.old).sectors block fork.now))) × (out.new ≡ out.old)) }
    ensures found { IsTrue (V.space view.old).tells → HasBytes (V.space view.old).content → IfOk result (λ pairs.
        (IsTreeFile (form_in (form_named tree)) K.is_key K.is_value K.cmp (tree_in (V.space view.old).content (V.space view.old).sectors block fork.now) × (out.new ≡ out.old))
        ⊎ ((pairs ≡ []) × (0 < length out.new))) }
    ensures each { IsTrue (V.space view.old).tells → (finding : Listed) → Contains out.new finding
        → Contains out.old finding ⊎ IsBrokenTree (form_in (form_named tree)) K.is_key K.is_value K.cmp (form_named tree).id (tree_in (V.space view.old).content (V.space view.old).sectors block fork.now) (as_found finding) }
    ensures reads { ReadsSpace (V.space view.old) (V.space view.new) }
    ensures below { V.follows view.old view.new }
    ensures disk { IsErrOf result Disk → Rose (V.space view.old).faults (V.space view.new).faults }
{
    let form = tree.form();
    let per_block = block / 512;
    let limit = whole_blocks(view.sectors(), per_block);
    let extents = SummedFork::copy_of(alloc, fork)?;
    let fork = Fork {
        extents: &extents,
        per_block,
        limit,
    };
    let mut level = Level::new(alloc);
    if let Some(finding) = scan::<V, K>(alloc, view, &fork, &form, &mut level)? {
        out.push(finding)?;
        return Ok(Pairs::new(alloc));
    }
    Ok(Pairs::from_records(level.into_records()))
}

/// Reads the header record of the tree in a fork of a volume whose blocks have so many bytes, whatever it says.
pub fn read_tree_head<V: SectorView>(
    alloc: Global,
    view: &mut V,
    fork: &ExtentList,
    block: u32,
) -> Result<Head, Trouble>
    requires least { 512 ≤ block }
    requires most { block ≤ 65536 }
    ensures head { IsTrue (V.space view.old).tells → IfOk result (λ head. head_in head ≡ (tree_in (V.space view.old).content (V.space view.old).sectors block fork.now).head) }
    ensures reads { ReadsSpace (V.space view.old) (V.space view.new) }
    ensures below { V.follows view.old view.new }
    ensures disk { IsErrOf result Disk → Rose (V.space view.old).faults (V.space view.new).faults }
{
    let per_block = block / 512;
    let limit = whole_blocks(view.sectors(), per_block);
    let extents = SummedFork::copy_of(alloc, fork)?;
    let fork = Fork {
        extents: &extents,
        per_block,
        limit,
    };
    find_head(alloc, view, &fork)
}
