//! How the catalog of a volume compares keys.
ghost use Rattle.std.specs.Prelude.{◌≡◌, ◌↔◌, IsErrOf, IsTrue, IfOk, None, true};
ghost use Rattle.hx_bytes.specs.declared.faults.Trouble.TheVariants.{Disk};
ghost use Rattle.sector_disk.specs.Cause.{Rose};
ghost use Rattle.volume_header.specs.Refusal.{header_refusal, is_volume_size};
ghost use Rattle.jnl_format.specs.Recovery.{header_of_volume};
ghost use Rattle.btree_file.specs.Frame.{ReadsSpace};
ghost use Rattle.hfs_serving.specs.Checking.{FoldsFirst, catalog_begun};

use fsck_core::{fork_extents, read_headers};
use fsck_scan::read_tree_head;
use hx_bytes::Trouble;
use sector_disk::SectorView;
use std::alloc::Global;
use volume_header::VolumeHeader;

/// The CNID of the catalog file (TN1150, "Catalog Node IDs").
const CATALOG_FILE: u32 = 4;

/// The kind of a data fork.
const DATA: u8 = 0;

/// The compare type of a catalog whose keys are compared with letter case folded (TN1150, "Header Record").
const FOLDING: u8 = 0xCF;

/// Whether the header of a volume is accepted, and the catalog that begins in its extents folds letter case.
pub fn folds_case<V: SectorView>(alloc: Global, view: &mut V) -> Result<bool, Trouble>
    requires size { is_volume_size (V.space view.old).sectors ≡ true }
    ensures folds { IsTrue (V.space view.old).tells → IfOk result (λ folds. IsTrue folds ↔ FoldsFirst (V.space view.old).content) }
    ensures reads { ReadsSpace (V.space view.old) (V.space view.new) }
    ensures below { V.follows view.old view.new }
    ensures disk { IsErrOf result Disk → Rose (V.space view.old).faults (V.space view.new).faults }
{
    let headers = read_headers(view)?;
    let head = headers.head;
    match head.refusal(view.sectors()) {
        Some(_refusal) => Ok(false),
        None => compares_folded(alloc, view, &head),
    }
}

// The same of a header that is accepted.
fn compares_folded<V: SectorView>(
    alloc: Global,
    view: &mut V,
    head: &VolumeHeader,
) -> Result<bool, Trouble>
    requires accepted { header_refusal head.now (V.space view.old).sectors ≡ None }
    ensures folds { IsTrue (V.space view.old).tells → head.now ≡ header_of_volume (V.space view.old).content → IfOk result (λ folds. IsTrue folds ↔ ((catalog_begun (V.space view.old).content).head.compare ≡ 0xCF)) }
    ensures reads { ReadsSpace (V.space view.old) (V.space view.new) }
    ensures below { V.follows view.old view.new }
    ensures disk { IsErrOf result Disk → Rose (V.space view.old).faults (V.space view.new).faults }
{
    let fork = fork_extents(alloc, &[], CATALOG_FILE, DATA, &head.catalog_fork)?;
    let tree = read_tree_head(alloc, view, &fork, head.block_size)?;
    Ok(is_folding(tree.compare))
}

// Whether keys are compared with letter case folded.
fn is_folding(compare: u8) -> bool
    ensures { IsTrue result ↔ (compare ≡ 0xCF) }
{
    compare == FOLDING
}
