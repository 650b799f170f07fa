//! Records by numbers: each field has a value of its own.
ghost use Rattle.std.specs.Prelude.{◌≡◌, false};
ghost use Rattle.hx_bytes.specs.Fork.{FitsFork};
ghost use Rattle.cat_records.specs.Fits.{FitsEntry, FitsRecord};
ghost use Rattle.hfs_volume.specs.Records.{is_thread};

use cat_records::{CatRecord, EntryFields, FileRecord, FolderRecord};
use hx_bytes::{Extent, ExtentRecord, ForkRecord};

fn fields(id: u32, count: u32) -> EntryFields
    ensures { FitsEntry result }
{
    EntryFields {
        flags: 0x0186,
        count,
        id,
        created: 3_500_000_001,
        changed: 3_500_000_002,
        attribute: 3_500_000_003,
        accessed: 3_500_000_004,
        backup: 3_500_000_005,
        owner: 501,
        group: 20,
        admin_flags: 3,
        owner_flags: 5,
        mode: 0o140_755,
        special: 9,
        finder: [0x2E; 32],
        encoding: 7,
        rest: 0x8001_0203,
    }
}

fn fork(start: u32, count: u32) -> ForkRecord
    ensures { FitsFork result }
{
    ForkRecord {
        logical_size: 0x0102_0304_0506_0708,
        clump_size: 0x2000,
        total_blocks: count,
        extents: ExtentRecord {
            extents: [Extent { start, count }; 8],
        },
    }
}

fn folder(id: u32, count: u32) -> FolderRecord
    ensures { FitsEntry result.fields }
{
    FolderRecord {
        fields: fields(id, count),
    }
}

fn file(id: u32, count: u32) -> FileRecord
    ensures fields { FitsEntry result.fields }
    ensures data { FitsFork result.data_fork }
    ensures resource { FitsFork result.resource_fork }
{
    FileRecord {
        fields: fields(id, count),
        data_fork: fork(id, count),
        resource_fork: fork(count, id),
    }
}

/// Whether the entry with a CNID is a file: those with an odd one are.
pub fn is_file(id: u32) -> bool {
    id % 2 == 1
}

/// The record of the entry with a CNID, with a number that a test changes.
pub fn entry(id: u32, count: u32) -> CatRecord
    ensures kind { is_thread result ≡ false }
    ensures fits { FitsRecord result }
{
    if is_file(id) {
        return CatRecord::File(file(id, count));
    }
    CatRecord::Folder(folder(id, count))
}

/// Whether a record is that of the entry with a CNID and a number.
pub fn is_entry(rec: &CatRecord, id: u32, count: u32) -> bool {
    match rec {
        CatRecord::Folder(found) => !is_file(id) && *found == folder(id, count),
        CatRecord::File(found) => is_file(id) && *found == file(id, count),
        CatRecord::Thread(_) => false,
    }
}
