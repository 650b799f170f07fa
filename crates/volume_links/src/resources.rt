//! `rwrite`: bytes of a file's resource fork.
ghost use Rattle.std.specs.Prelude.{◌≡◌, ◌≤◌, ◌+◌, ◌^◌, false, IsTrue, IfOk, length};
ghost use Rattle.hfs_language.specs.Written.{FitsPath};
ghost use Rattle.hfs_volume.specs.TreeOf.{tree_of};
ghost use Rattle.volume_base.specs.Frame.{Looked, Serves};
ghost use Rattle.volume_links.specs.Resources.{IsToldResource, is_too_large, resource_found};

use cat_records::FileRecord;
use hfs_language::{Path, Refusal};
use hx_bytes::Trouble;
use sector_disk::SectorSpace;
use std::alloc::Global;
use volume_base::{Volume, is_private_path};

/// The most bytes of a fork.
const MOST_SIZE: u128 = 1 << 40;

/// The most bytes of one `rwrite`.
const MOST_BYTES: usize = 65_536;

/// A file's CNID, and the size of its resource fork.
#[derive(Clone, Copy)]
pub(crate) struct Resource {
    pub(crate) id: u32,
    pub(crate) size: u64,
}

/// Whether so many bytes from a place on are more than a fork or a command may have.
fn is_too_large(from: u64, long: usize) -> bool
    ensures exact { result ≡ is_too_large from long }
    ensures small { result ≡ false → from + long ≤ 2 ^ 40 }
{
    u128::from(from) + long as u128 > MOST_SIZE || long > MOST_BYTES
}

/// The resource fork of a file into which so many bytes go, or what stands against them.
fn resource_found(file: &FileRecord, from: u64, long: usize) -> Result<Resource, Refusal>
    ensures exact { result ≡ resource_found from long file.now }
    ensures small { IfOk result (λ fork. from + long ≤ 2 ^ 40) }
{
    if is_too_large(from, long) {
        return Err(Refusal::TooLarge);
    }
    Ok(Resource {
        id: file.fields.id,
        size: file.resource_fork.logical_size,
    })
}

/// The resource fork into which `rwrite` puts these bytes, or the first reason against it.
pub(crate) fn to_write<P: SectorSpace>(
    volume: &mut Volume,
    alloc: Global,
    space: &mut P,
    path: &Path,
    from: u64,
    value: &[u8],
) -> Result<Result<Resource, Refusal>, Trouble>
    requires serves { Serves volume.old (P.SectorView.space space.old) }
    requires fits { FitsPath path.now }
    // Told, it is the fork of the tree's file, or the step's refusal.
    ensures told { IsTrue (P.SectorView.space space.old).tells → IfOk result (IsToldResource (tree_of (P.SectorView.space space.old).content) path.now from value.now) }
    ensures small { IfOk result (λ said. IfOk said (λ fork. from + length value.now ≤ 2 ^ 40)) }
    ensures looked { Looked P.SectorView.space P.SectorView.follows volume.old volume.new space.old space.new result }
    ensures serves { Serves volume.new (P.SectorView.space space.new) }
{
    if is_private_path(path) {
        return Ok(Err(Refusal::Private));
    }
    let found = volume.file_at(alloc, space, path, 0)?;
    match found {
        Ok(file) => Ok(resource_found(&file, from, value.len())),
        Err(why) => Ok(Err(why)),
    }
}
