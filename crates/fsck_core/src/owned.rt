//! All forks of a volume, with their owners.
ghost use Rattle.std.specs.Prelude.{◌≡◌, ◌≤◌, ◌++◌, ◌∷◌, [], length, IsTrue, IfOk, OnOk};
ghost use Rattle.hx_bytes.specs.Fork.{fork_at};
ghost use Rattle.cat_records.specs.Records.{is_catalog, catalog_of, entry_of};
ghost use Rattle.cat_records.specs.declared.record.CatRecord.TheVariants.{File};
ghost use Rattle.hfs_volume.specs.Entries.{AreSpelled};
ghost use Rattle.hfs_volume.specs.Forks.{forks_in, special_forks, all_forks};
ghost use Rattle.hfs_volume.specs.Records.{placed_of, placed_in};
ghost use Rattle.fsck_core.specs.Owners.{owned_all};
ghost use Rattle.fsck_core.specs.AllForks.{forks_at};

use crate::follow::OwnedFork;
use crate::kinds::has_no_name;
use fsck_scan::Pairs;
use hx_bytes::{ForkRecord, OutOfMemory, read_be16, read_be32, read_fork};
use std::alloc::Global;
use volume_header::VolumeHeader;

/// The type of a file's record (TN1150, "Catalog Data Record Types").
const FILE: u16 = 2;

const DATA: u8 = 0;

const RESOURCE: u8 = 255;

/// The CNIDs of the special files (TN1150, "Special Files").
const EXTENTS_FILE: u32 = 3;

const CATALOG_FILE: u32 = 4;

const ALLOCATION_FILE: u32 = 6;

const STARTUP_FILE: u32 = 7;

const ATTRIBUTES_FILE: u32 = 8;

fn add_fork(
    forks: &mut Vec<OwnedFork>,
    id: u32,
    kind: u8,
    fork: &ForkRecord,
) -> Result<(), OutOfMemory>
    ensures { OnOk result (owned_all forks.new.items ≡ owned_all forks.old.items ++ record { id = id; kind = kind; fork = fork.now } ∷ []) }
{
    forks.push(OwnedFork {
        id,
        kind,
        fork: *fork,
    })?;
    Ok(())
}

/// The forks of the special files.
fn read_special(alloc: Global, head: &VolumeHeader) -> Result<Vec<OwnedFork>, OutOfMemory>
    ensures { IfOk result (λ forks. owned_all forks.items ≡ special_forks head.now) }
{
    let mut forks = Vec::new(alloc);
    add_fork(&mut forks, EXTENTS_FILE, DATA, &head.extents_fork)?;
    add_fork(&mut forks, CATALOG_FILE, DATA, &head.catalog_fork)?;
    add_fork(&mut forks, ALLOCATION_FILE, DATA, &head.allocation_fork)?;
    add_fork(&mut forks, STARTUP_FILE, DATA, &head.startup_fork)?;
    add_fork(&mut forks, ATTRIBUTES_FILE, DATA, &head.attributes_fork)?;
    Ok(forks)
}

/// Adds both forks of a file's record.
fn add_file(forks: &mut Vec<OwnedFork>, value: &[u8]) -> Result<(), OutOfMemory>
    requires { 248 ≤ length value.now }
    ensures { OnOk result (owned_all forks.new.items ≡ owned_all forks.old.items ++ forks_in (File (record { fields = entry_of value.now; data_fork = fork_at value.now 88; resource_fork = fork_at value.now 168 }))) }
{
    let id = read_be32(value, 8);
    add_fork(forks, id, DATA, &read_fork(value, 88))?;
    add_fork(forks, id, RESOURCE, &read_fork(value, 168))?;
    Ok(())
}

/// Adds both forks of a record that is a file. Of its bytes only these are read, and its CNID.
fn add_forks(forks: &mut Vec<OwnedFork>, value: &[u8]) -> Result<(), OutOfMemory>
    requires { IsTrue (is_catalog value.now) }
    ensures { OnOk result (owned_all forks.new.items ≡ owned_all forks.old.items ++ forks_in (catalog_of value.now)) }
{
    let kind = read_be16(value, 0);
    if kind == FILE {
        return add_file(forks, value);
    }
    Ok(())
}

/// Adds both forks of a pair of the catalog whose key has a name and whose value is a file.
fn add_pair(forks: &mut Vec<OwnedFork>, key: &[u8], value: &[u8]) -> Result<(), OutOfMemory>
    requires { IsTrue (is_catalog value.now) }
    ensures { OnOk result (owned_all forks.new.items ≡ owned_all forks.old.items ++ forks_at (placed_of (key.now, value.now))) }
{
    if has_no_name(key) {
        return Ok(());
    }
    add_forks(forks, value)
}

/// All forks of a volume: those of the special files, and both of each file, in the order of the catalog's keys.
pub fn read_forks(
    alloc: Global,
    head: &VolumeHeader,
    pairs: &Pairs,
) -> Result<Vec<OwnedFork>, OutOfMemory>
    requires { AreSpelled pairs.now }
    ensures { IfOk result (λ forks. owned_all forks.items ≡ all_forks head.now (placed_in pairs.now)) }
{
    let mut forks = read_special(alloc, head)?;
    for i in 0..pairs.len() {
        add_pair(&mut forks, pairs.key(i), pairs.value(i))?;
    }
    Ok(forks)
}
