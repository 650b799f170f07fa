//! Whether a file is one that macOS keeps compressed.
ghost use Rattle.std.specs.Prelude.{◌≡◌, ◌==◌, ◌/◌, ◌%◌, IfOk, IsTrue};
ghost use Rattle.hfs_language.specs.Written.{FitsPath};
ghost use Rattle.hfs_serving.specs.Flags.{IsCompressedAs, is_compressed};
ghost use Rattle.volume_base.specs.Frame.{Looked, Serves};

use cat_records::FileRecord;
use hfs_language::Path;
use hx_bytes::Trouble;
use sector_disk::SectorSpace;
use std::alloc::Global;
use volume_base::{Volume, is_private_path};

/// The flag of an owner by which macOS keeps the bytes of a file compressed, as a power of two.
const COMPRESSED: u8 = 0x20;

/// Whether a file's record says so.
fn has_flag(file: &FileRecord) -> bool
    ensures { result ≡ is_compressed file.now }
{
    file.fields.owner_flags / COMPRESSED % 2 == 1
}

/// Whether the record of the file that a path stands for says so; a path of the volume's own names stands for none.
pub(crate) fn is_compressed<P: SectorSpace>(
    alloc: Global,
    volume: &mut Volume,
    space: &mut P,
    path: &Path,
) -> Result<bool, Trouble>
    requires serves { Serves volume.old (P.SectorView.space space.old) }
    requires fits { FitsPath path.now }
    ensures found { IsTrue (P.SectorView.space space.old).tells → IfOk result (λ said. IsCompressedAs (P.SectorView.space space.old).content path.now said) }
    ensures looked { Looked P.SectorView.space P.SectorView.follows volume.old volume.new space.old space.new result }
    ensures serves { Serves volume.new (P.SectorView.space space.new) }
{
    if is_private_path(path) {
        return Ok(false);
    }
    match volume.file_at(alloc, space, path, 0)? {
        Ok(file) => Ok(has_flag(&file)),
        Err(_why) => Ok(false),
    }
}
