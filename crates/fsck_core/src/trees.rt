//! The three trees of a volume, scanned (rules 4 to 7).
ghost use Rattle.std.specs.Prelude.{◌≡◌, ◌<◌, ◌≤◌, ◌+◌, ◌*◌, ◌⊎◌, [], length, map, true, Contains, IsTrue, IsSome, IfOk, IfSome, IsErrOf, MatchOption};
ghost use Rattle.hx_bytes.specs.declared.faults.Trouble.TheVariants.{Disk};
ghost use Rattle.sector_disk.specs.Cause.{Rose};
ghost use Rattle.jnl_format.specs.Recovery.{header_of_volume};
ghost use Rattle.btree_node.specs.Keys.{IsCatalogKey, IsExtentKey, IsAttrKey, catalog_cmp, extent_cmp, attr_cmp, is_eight_extents, anything};
ghost use Rattle.btree_node.specs.Tree.{pairs_of};
ghost use Rattle.btree_node.specs.TreeFile.{IsTreeFile, store_of, extents_form, catalog_form, attributes_form};
ghost use Rattle.btree_file.specs.Frame.{ReadsSpace};
ghost use Rattle.hfs_volume.specs.Blocks.{IsGoodHeader};
ghost use Rattle.hfs_volume.specs.Broken.{IsBrokenTree};
ghost use Rattle.hfs_volume.specs.Content.{extents_file, catalog_file, attributes_file, overflow_of_content};
ghost use Rattle.hfs_volume.specs.Findings.{HasBytes};
ghost use Rattle.hfs_volume.specs.Forks.{extents_id, catalog_id, attributes_id};
ghost use Rattle.fsck_list.specs.declared.finding.Finding.{Finding as Listed};
ghost use Rattle.fsck_scan.specs.Form.{form_in, form_named, tree_in};
ghost use Rattle.fsck_core.specs.Wants.{as_found};
ghost use Rattle.fsck_core.specs.Overflows.{overflows_in};

use crate::overflow::{OverflowRow, fork_extents};
use btree_node::{AttrOrder, CatalogOrder, ExtentOrder, KeyOrder};
use fork_map::ExtentList;
use fsck_list::Findings;
use fsck_scan::{Pairs, TreeName, scan_tree};
use hx_bytes::Trouble;
use sector_disk::SectorView;
use std::alloc::Global;
use volume_header::VolumeHeader;

/// The CNIDs of the special files that hold trees (TN1150, "Reserved Catalog Node IDs").
const EXTENTS_FILE: u32 = 3;

const CATALOG_FILE: u32 = 4;

const ATTRIBUTES_FILE: u32 = 8;

const DATA: u8 = 0;

/// Scans the tree in a fork, where nothing was found yet. One that keeps rules 4 to 7 gives its pairs; of any other its first finding is added.
fn scan_file<V: SectorView, K: KeyOrder>(
    alloc: Global,
    view: &mut V,
    fork: &ExtentList,
    block: u32,
    tree: TreeName,
    out: &mut Findings,
) -> Result<Option<Pairs>, Trouble>
    requires least { 512 ≤ block }
    requires most { block ≤ 65536 }
    requires order { 2 * (K.MAX + 16) ≤ (form_named tree).least_node }
    requires none { out.old ≡ [] }
    ensures empty { IfOk result (λ o. IfSome o (λ _. out.new ≡ [])) }
    ensures found { IsTrue (V.space view.old).tells → HasBytes (V.space view.old).content → IfOk result (λ o. MatchOption o (0 < length out.new) (λ pairs.
        IsTreeFile (form_in (form_named tree)) K.is_key K.is_value K.cmp (tree_in (V.space view.old).content (V.space view.old).sectors block fork.now)
        × (pairs ≡ pairs_of (store_of (tree_in (V.space view.old).content (V.space view.old).sectors block fork.now))) × (out.new ≡ []))) }
    ensures each { IsTrue (V.space view.old).tells → (finding : Listed) → Contains out.new finding
        → IsBrokenTree (form_in (form_named tree)) K.is_key K.is_value K.cmp (form_named tree).id (tree_in (V.space view.old).content (V.space view.old).sectors block fork.now) (as_found finding) }
    ensures reads { ReadsSpace (V.space view.old) (V.space view.new) }
    ensures below { V.follows view.old view.new }
    ensures disk { IsErrOf result Disk → Rose (V.space view.old).faults (V.space view.new).faults }
{
    let pairs = scan_tree::<V, K>(alloc, view, fork, block, tree, out)?;
    if out.len() > 0 {
        return Ok(None);
    }
    Ok(Some(pairs))
}

/// Scans the extents overflow file of a volume whose header keeps rule 1, where nothing was found yet. Where it is a tree in its file, that
/// keeps rules 4 to 7, it gives its pairs; else it gives none, and its first finding is added.
pub fn scan_extents<V: SectorView>(
    alloc: Global,
    view: &mut V,
    head: &VolumeHeader,
    out: &mut Findings,
) -> Result<Option<Pairs>, Trouble>
    requires good { IsGoodHeader (V.space view.old).sectors head.now }
    requires none { out.old ≡ [] }
    ensures empty { IfOk result (λ o. IfSome o (λ _. out.new ≡ [])) }
    ensures found { IsTrue (V.space view.old).tells → HasBytes (V.space view.old).content → head.now ≡ header_of_volume (V.space view.old).content
        → IfOk result (λ o. MatchOption o (0 < length out.new) (λ pairs. IsTreeFile extents_form IsExtentKey is_eight_extents extent_cmp (extents_file (V.space view.old).content)
        × (pairs ≡ pairs_of (store_of (extents_file (V.space view.old).content))) × (out.new ≡ []))) }
    ensures each { IsTrue (V.space view.old).tells → head.now ≡ header_of_volume (V.space view.old).content
        → (finding : Listed) → Contains out.new finding → IsBrokenTree extents_form IsExtentKey is_eight_extents extent_cmp extents_id (extents_file (V.space view.old).content) (as_found finding) }
    ensures reads { ReadsSpace (V.space view.old) (V.space view.new) }
    ensures below { V.follows view.old view.new }
    ensures disk { IsErrOf result Disk → Rose (V.space view.old).faults (V.space view.new).faults }
{
    let fork = fork_extents(alloc, &[], EXTENTS_FILE, DATA, &head.extents_fork)?;
    scan_file::<V, ExtentOrder>(alloc, view, &fork, head.block_size, TreeName::Extents, out)
}

/// Scans the catalog file of a volume whose header keeps rule 1 and whose overflow records are these, as `scan_extents` scans its file.
pub fn scan_catalog<V: SectorView>(
    alloc: Global,
    view: &mut V,
    head: &VolumeHeader,
    rows: &[OverflowRow],
    out: &mut Findings,
) -> Result<Option<Pairs>, Trouble>
    requires good { IsGoodHeader (V.space view.old).sectors head.now }
    requires none { out.old ≡ [] }
    ensures empty { IfOk result (λ o. IfSome o (λ _. out.new ≡ [])) }
    ensures found { IsTrue (V.space view.old).tells → HasBytes (V.space view.old).content → head.now ≡ header_of_volume (V.space view.old).content → overflows_in rows.now ≡ overflow_of_content (V.space view.old).content
        → IfOk result (λ o. MatchOption o (0 < length out.new) (λ pairs. IsTreeFile catalog_form IsCatalogKey anything catalog_cmp (catalog_file (V.space view.old).content)
        × (pairs ≡ pairs_of (store_of (catalog_file (V.space view.old).content))) × (out.new ≡ []))) }
    ensures each { IsTrue (V.space view.old).tells → head.now ≡ header_of_volume (V.space view.old).content → overflows_in rows.now ≡ overflow_of_content (V.space view.old).content
        → (finding : Listed) → Contains out.new finding → IsBrokenTree catalog_form IsCatalogKey anything catalog_cmp catalog_id (catalog_file (V.space view.old).content) (as_found finding) }
    ensures reads { ReadsSpace (V.space view.old) (V.space view.new) }
    ensures below { V.follows view.old view.new }
    ensures disk { IsErrOf result Disk → Rose (V.space view.old).faults (V.space view.new).faults }
{
    let fork = fork_extents(alloc, rows, CATALOG_FILE, DATA, &head.catalog_fork)?;
    scan_file::<V, CatalogOrder>(alloc, view, &fork, head.block_size, TreeName::Catalog, out)
}

/// Scans the attributes file of a volume whose header keeps rule 1 and whose overflow records are these, as `scan_extents` scans its file.
pub fn scan_attributes<V: SectorView>(
    alloc: Global,
    view: &mut V,
    head: &VolumeHeader,
    rows: &[OverflowRow],
    out: &mut Findings,
) -> Result<Option<Pairs>, Trouble>
    requires good { IsGoodHeader (V.space view.old).sectors head.now }
    requires none { out.old ≡ [] }
    ensures empty { IfOk result (λ o. IfSome o (λ _. out.new ≡ [])) }
    ensures found { IsTrue (V.space view.old).tells → HasBytes (V.space view.old).content → head.now ≡ header_of_volume (V.space view.old).content → overflows_in rows.now ≡ overflow_of_content (V.space view.old).content
        → IfOk result (λ o. MatchOption o (0 < length out.new) (λ pairs. IsTreeFile attributes_form IsAttrKey anything attr_cmp (attributes_file (V.space view.old).content)
        × (pairs ≡ pairs_of (store_of (attributes_file (V.space view.old).content))) × (out.new ≡ []))) }
    ensures each { IsTrue (V.space view.old).tells → head.now ≡ header_of_volume (V.space view.old).content → overflows_in rows.now ≡ overflow_of_content (V.space view.old).content
        → (finding : Listed) → Contains out.new finding → IsBrokenTree attributes_form IsAttrKey anything attr_cmp attributes_id (attributes_file (V.space view.old).content) (as_found finding) }
    ensures reads { ReadsSpace (V.space view.old) (V.space view.new) }
    ensures below { V.follows view.old view.new }
    ensures disk { IsErrOf result Disk → Rose (V.space view.old).faults (V.space view.new).faults }
{
    let fork = fork_extents(alloc, rows, ATTRIBUTES_FILE, DATA, &head.attributes_fork)?;
    scan_file::<V, AttrOrder>(
        alloc,
        view,
        &fork,
        head.block_size,
        TreeName::Attributes,
        out,
    )
}
