//! The pairs of the catalog's tree, as bytes.
ghost use Rattle.std.specs.Prelude.{◌≡◌, ◌≤◌, ◌<◌, ◌^◌, IfOk, length, false, []};
ghost use Rattle.std.specs.List.{AllByRecursion};
ghost use Rattle.cat_records.specs.Fits.{FitsRecord};
ghost use Rattle.cat_records.specs.Records.{catalog_bytes};
ghost use Rattle.hfs_volume.specs.Changes.{Spells, thread_with};
ghost use Rattle.hfs_volume.specs.Records.{Placed, id_in, is_file, is_thread};
ghost use Rattle.catalog.specs.Pairs.{IsKeyOf};

use cat_records::{CatRecord, ThreadRecord, catalog_key, write_catalog};
use hx_bytes::{Bytes, OutOfMemory, Units};
use std::alloc::Global;

/// A key and a value.
#[derive(Drop)]
pub struct Pair {
    pub(crate) key: Bytes,
    pub(crate) value: Bytes,
}

/// Each unit has sixteen bits: what the type says, for proofs.
pub(crate) fn units_fit(units: &[u16])
    ensures { AllByRecursion (λ unit. unit < 2 ^ 16) units.now }
{
    let _first = units.first();
}

/// The key of a name in a folder, or of the thread of a CNID where the name is empty.
pub(crate) fn name_key(alloc: Global, parent: u32, name: &Units) -> Result<Bytes, OutOfMemory>
    requires { length name.now ≤ 255 }
    ensures { IfOk result (λ key. IsKeyOf parent name.now key) }
{
    units_fit(name.as_slice());
    let key = catalog_key(alloc, parent, name)?;
    Ok(key)
}

/// The pair of a record under a name in a folder, or of a thread where the name is empty.
pub(crate) fn record_pair(
    alloc: Global,
    parent: u32,
    name: &Units,
    rec: &CatRecord,
) -> Result<Pair, OutOfMemory>
    requires name { length name.now ≤ 255 }
    requires fits { FitsRecord rec.now }
    ensures key { IfOk result (λ pair. IsKeyOf parent name.now pair.key) }
    ensures value { IfOk result (λ pair. pair.value ≡ catalog_bytes rec.now) }
    ensures short { is_thread rec.now ≡ false → IfOk result (λ pair. length pair.value ≤ 248) }
    ensures spells { IfOk result (λ pair. Spells (record { parent = parent; name = name.now; value = rec.now }) (pair.key, pair.value)) }
{
    let key = name_key(alloc, parent, name)?;
    let value = write_catalog(alloc, rec)?;
    Ok(Pair { key, value })
}

/// The CNID of a folder or file.
pub(crate) fn id_of(rec: &CatRecord) -> u32
    ensures { result ≡ id_in rec.now }
{
    match rec {
        CatRecord::Folder(folder) => folder.fields.id,
        CatRecord::File(file) => file.fields.id,
        CatRecord::Thread(_) => 0,
    }
}

/// Whether a record is a file's.
fn is_file_record(rec: &CatRecord) -> bool
    ensures { result ≡ is_file rec.now }
{
    match rec {
        CatRecord::File(_) => true,
        CatRecord::Folder(_) | CatRecord::Thread(_) => false,
    }
}

/// Whether a record is a thread.
pub(crate) fn is_thread_record(rec: &CatRecord) -> bool
    ensures { result ≡ is_thread rec.now }
{
    match rec {
        CatRecord::Thread(_) => true,
        CatRecord::Folder(_) | CatRecord::File(_) => false,
    }
}

fn copy_units(alloc: Global, units: &Units) -> Result<Units, OutOfMemory>
    ensures { IfOk result (λ copy. copy ≡ units.now) }
{
    let copy = Vec::from_slice(alloc, units.as_slice())?;
    Ok(Units::from_vec(copy))
}

/// The pair of the thread of an entry under a name in a folder, with this in its reserved word.
pub(crate) fn thread_pair(
    alloc: Global,
    parent: u32,
    name: &Units,
    rec: &CatRecord,
    spare: i16,
) -> Result<Pair, OutOfMemory>
    requires { length name.now ≤ 255 }
    ensures key { IfOk result (λ pair. IsKeyOf (id_in rec.now) [] pair.key) }
    ensures long { IfOk result (λ pair. length pair.value ≤ 520) }
    ensures spells { IfOk result (λ pair. Spells (thread_with spare (record { parent = parent; name = name.now; value = rec.now })) (pair.key, pair.value)) }
{
    units_fit(name.as_slice());
    let units = copy_units(alloc, name)?;
    let of_file = is_file_record(rec);
    let thread = CatRecord::Thread(ThreadRecord {
        of_file,
        spare,
        parent,
        name: units,
    });
    let id = id_of(rec);
    let pair = record_pair(alloc, id, &Units::new(alloc), &thread)?;
    Ok(pair)
}
