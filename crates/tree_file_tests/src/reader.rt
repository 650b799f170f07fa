//! A tree in a fork that is read again.
ghost use Rattle.std.specs.Prelude.{IsTrue, OnOk};
ghost use Rattle.btree_file.specs.Frame.{ReadsSpace};
ghost use Rattle.btree_file.specs.Growth.{IsBack};
ghost use Rattle.btree_file.specs.Standing.{LiesInside, Stands};

use btree_file::TreeFile;
use hx_bytes::Failed;
use sector_disk::SectorView;

/// Reads the header record of a tree again, over the content that its file stands over: the file stays what it is.
pub fn read_again<V: SectorView>(tree: &mut TreeFile, view: &mut V) -> Result<(), Failed>
    requires inside { LiesInside tree.old (V.space view.old) }
    requires stands { IsTrue (V.space view.old).tells → Stands tree.old (V.space view.old).content }
    ensures back { IsTrue (V.space view.old).tells → OnOk result (IsBack tree.old tree.new (V.space view.old).content) }
    ensures reads { ReadsSpace (V.space view.old) (V.space view.new) }
    ensures below { V.follows view.old view.new }
{
    tree.refresh(view)
}
