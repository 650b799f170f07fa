//! Names and paths of their own.
ghost use Rattle.std.specs.Prelude.{◌≡◌, IfOk};

use hfs_language::Path;
use hx_bytes::{OutOfMemory, Units};
use std::alloc::Global;

/// A path of its own with the same names.
pub fn copy_path(alloc: Global, path: &Path) -> Result<Path, OutOfMemory>
    ensures { IfOk result (λ copy. copy ≡ path.now) }
{
    let mut copy = Path::new(alloc);
    for name in path.as_slice() {
        copy.push(copy_name(alloc, name)?)?;
    }
    Ok(copy)
}

/// A name of its own with the same units.
pub fn copy_name(alloc: Global, name: &Units) -> Result<Units, OutOfMemory>
    ensures { IfOk result (λ copy. copy ≡ name.now) }
{
    Ok(Units::from_vec(Vec::from_slice(alloc, name.as_slice())?))
}
