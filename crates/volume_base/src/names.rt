//! Names that a volume keeps for itself.
ghost use Rattle.std.specs.Prelude.{◌≡◌, ◌≤◌, length, IfOk};
ghost use Rattle.hfs_model.specs.Step.{private_name, is_private_name, is_private_path};

use hfs_language::Path;
use hx_bytes::{OutOfMemory, Units};
use std::alloc::Global;

/// `.journal`
const JOURNAL: [u16; 8] = [46, 106, 111, 117, 114, 110, 97, 108];

/// `.journal_info_block`
const JOURNAL_INFO: [u16; 19] = [
    46, 106, 111, 117, 114, 110, 97, 108, 95, 105, 110, 102, 111, 95, 98, 108, 111, 99, 107,
];

/// Four zeros and `HFS+ Private Data`: the folder of the files that have several names.
const PRIVATE_FOLDER: [u16; 21] = [
    0, 0, 0, 0, 72, 70, 83, 43, 32, 80, 114, 105, 118, 97, 116, 101, 32, 68, 97, 116, 97,
];

/// The name of the private folder.
pub fn private_folder(alloc: Global) -> Result<Units, OutOfMemory>
    ensures name { IfOk result (λ name. name ≡ private_name) }
    ensures short { IfOk result (λ name. length name ≤ 255) }
{
    Ok(Units::from_vec(Vec::from_slice(alloc, PRIVATE_FOLDER.as_slice())?))
}

/// Whether a name of the root is the volume's own.
pub fn is_private_name(name: &Units) -> bool
    ensures { result ≡ is_private_name name.now }
{
    let name = name.as_slice();
    name == JOURNAL.as_slice()
        || name == JOURNAL_INFO.as_slice()
        || name == PRIVATE_FOLDER.as_slice()
}

/// Whether a path begins with such a name.
pub fn is_private_path(path: &Path) -> bool
    ensures { result ≡ is_private_path path.now }
{
    match path.get(0) {
        Some(name) => is_private_name(name),
        None => false,
    }
}

/// A name of its own with the same units.
pub fn copy_name(alloc: Global, name: &Units) -> Result<Units, OutOfMemory>
    ensures { IfOk result (λ copy. copy ≡ name.now) }
{
    Ok(Units::from_vec(Vec::from_slice(alloc, name.as_slice())?))
}
