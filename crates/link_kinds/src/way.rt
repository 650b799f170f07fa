//! The way of a walk: the folders from the root, the last of which stands last in memory.
ghost use Rattle.std.specs.Prelude.{◌≡◌, [], reverse, IfOk};
ghost use Rattle.link_kinds.specs.Resolves.{goes_up, here, is_looked_at, names_to, stays, turned, without_last};

use crate::kinds::Folder;
use hfs_language::Path;
use hx_bytes::{OutOfMemory, Units};
use open_files::copy_name;
use std::alloc::Global;

/// The root folder's id (TN1150, "Catalog Node ID").
const ROOT: u32 = 2;

/// The folder that the way has come to.
pub(crate) fn last_id(way: &[Folder]) -> u32
    ensures { result ≡ here (reverse way.now) }
{
    match way.last() {
        Some(folder) => folder.id,
        None => ROOT,
    }
}

/// Whether it is looked at what stands under a component: it leads neither nowhere nor up.
pub(crate) fn is_looked_at(name: &Units) -> bool
    ensures { result ≡ is_looked_at name.now }
{
    !stays(name) && !goes_up(name)
}

/// A component that leads nowhere: an empty one, and a dot.
fn stays(name: &Units) -> bool
    ensures { result ≡ stays name.now }
{
    matches!(name.as_slice(), [] | [46])
}

/// Two dots.
fn goes_up(name: &Units) -> bool
    ensures { result ≡ goes_up name.now }
{
    matches!(name.as_slice(), [46, 46])
}

/// The way behind a component that isn't looked at.
pub(crate) fn turn(way: &mut Vec<Folder>, name: &Units)
    ensures { reverse way.new.items ≡ turned name.now (reverse way.old.items) }
{
    if !stays(name) {
        go_up(way);
    }
}

/// The way without its last folder; the root stays.
fn go_up(way: &mut Vec<Folder>)
    ensures { reverse way.new.items ≡ without_last (reverse way.old.items) }
{
    way.pop();
}

/// The names of the way, from the root.
pub(crate) fn names(alloc: Global, way: &[Folder]) -> Result<Path, OutOfMemory>
    ensures { IfOk result (λ path. path ≡ names_to (reverse way.now) []) }
{
    let mut path = Path::new(alloc);
    for folder in way {
        path.push(copy_name(alloc, &folder.name)?)?;
    }
    Ok(path)
}
