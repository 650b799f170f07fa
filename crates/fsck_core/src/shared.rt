//! The files with several names, which stand in the private folder under a number.
ghost use Rattle.std.specs.Prelude.{◌≡◌, ◌≤◌, ◌++◌, ◌==◌, ℕ, true, length, All, Some, IsSome, IfOk, OnOk, IsTrue, count_by};
ghost use Rattle.std.specs.List.Sorted.{IsNonDecreasing};
ghost use Rattle.alloc_bitmap.specs.Apart.{times};
ghost use Rattle.cat_records.specs.Records.{is_catalog};
ghost use Rattle.hfs_volume.specs.Records.{placed_in, placed_of};
ghost use Rattle.hfs_volume.specs.Entries.{AreSpelled};
ghost use Rattle.hfs_volume.specs.Links.{is_shared};
ghost use Rattle.fsck_core.specs.Names.{shared_found, shared_some, IsSharedAs, AreShared};

use crate::kinds::parent_of;
use crate::names::{node_number, read_record};
use crate::numbers::sort_numbers;
use cat_records::CatRecord;
use fsck_scan::Pairs;
use hx_bytes::OutOfMemory;
use std::alloc::Global;

/// A file with several names.
#[derive(Clone, Copy, Debug, PartialEq, Eq)]
pub struct SharedFile {
    /// The number that its links tell.
    pub reference: u32,
    pub id: u32,
    /// How many links it says that it has.
    pub links: u32,
}

/// The file with several names under a number, where a record is one.
fn shared_record(rec: &CatRecord, reference: u32) -> Option<SharedFile>
    ensures { result ≡ shared_found reference rec.now }
{
    match rec {
        CatRecord::File(file) => Some(SharedFile {
            reference,
            id: file.fields.id,
            links: file.fields.special,
        }),
        _ => None,
    }
}

/// The file with several names of a pair, where it is one of this private folder.
pub fn shared_file(
    alloc: Global,
    private: u32,
    key: &[u8],
    value: &[u8],
) -> Result<Option<SharedFile>, OutOfMemory>
    requires { IsTrue (is_catalog value.now) }
    ensures is { 8 ≤ length key.now → IfOk result (λ found. (file : SharedFile) → found ≡ Some file → IsSharedAs (Some private) (placed_of (key.now, value.now)) file) }
    ensures whole { 8 ≤ length key.now → IfOk result (λ found. (reference : ℕ) → is_shared (Some private) reference (placed_of (key.now, value.now)) ≡ true → IsSome found) }
{
    if parent_of(key) != private {
        return Ok(None);
    }
    let Some(reference) = node_number(alloc, key)? else {
        return Ok(None);
    };
    let rec = read_record(alloc, value)?;
    Ok(shared_record(&rec, reference))
}

fn add_shared(files: &mut Vec<SharedFile>, found: Option<SharedFile>) -> Result<(), OutOfMemory>
    ensures { OnOk result (files.new.items ≡ files.old.items ++ shared_some found) }
{
    if let Some(file) = found {
        files.push(file)?;
    }
    Ok(())
}

/// The files with several names in the private folder with this CNID.
fn read_folder(alloc: Global, pairs: &Pairs, private: u32) -> Result<Vec<SharedFile>, OutOfMemory>
    requires { AreSpelled pairs.now }
    ensures { All (λ pair. 8 ≤ length pair.0) pairs.now → IfOk result (λ files. AreShared (Some private) (placed_in pairs.now) files.items) }
{
    let mut files = Vec::new(alloc);
    for i in 0..pairs.len() {
        let found = shared_file(alloc, private, pairs.key(i), pairs.value(i))?;
        add_shared(&mut files, found)?;
    }
    Ok(files)
}

/// The files with several names, if there is a private folder.
pub(crate) fn read_shared(
    alloc: Global,
    pairs: &Pairs,
    private: Option<u32>,
) -> Result<Vec<SharedFile>, OutOfMemory>
    requires { AreSpelled pairs.now }
    ensures { All (λ pair. 8 ≤ length pair.0) pairs.now → IfOk result (λ files. AreShared private (placed_in pairs.now) files.items) }
{
    let Some(id) = private else {
        return Ok(Vec::new(alloc));
    };
    read_folder(alloc, pairs, id)
}

/// The numbers of files with several names, in order.
pub(crate) fn shared_numbers(alloc: Global, files: &[SharedFile]) -> Result<Vec<u32>, OutOfMemory>
    ensures order { IfOk result (λ numbers. IsNonDecreasing numbers.items) }
    ensures same { IfOk result (λ numbers. (number : ℕ) → times number numbers.items ≡ count_by (λ file. file.reference == number) files.now) }
{
    let mut numbers = Vec::new(alloc);
    for file in files {
        numbers.push(file.reference)?;
    }
    sort_numbers(&mut numbers);
    Ok(numbers)
}
