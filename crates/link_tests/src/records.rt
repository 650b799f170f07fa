//! Records of the tests, and what a link's record has.
ghost use Rattle.std.specs.Prelude.{◌≡◌, false};
ghost use Rattle.hx_bytes.specs.Fork.{FitsFork};
ghost use Rattle.cat_records.specs.Fits.{FitsEntry, FitsFile, FitsRecord};
ghost use Rattle.hfs_volume.specs.Records.{is_thread};

use cat_records::{CatRecord, EntryFields, FileRecord, FolderRecord};
use hx_bytes::{Extent, ExtentRecord, ForkRecord};

/// When the private folder was made.
const MADE: u32 = 3_500_000_000;

fn fields(id: u32, special: u32, created: u32) -> EntryFields
    ensures { FitsEntry result }
{
    EntryFields {
        flags: 2,
        count: 0,
        id,
        created,
        changed: 3_500_000_002,
        attribute: 3_500_000_003,
        accessed: 3_500_000_004,
        backup: 3_500_000_005,
        owner: 501,
        group: 20,
        admin_flags: 3,
        owner_flags: 5,
        mode: 0o100_640,
        special,
        finder: [0x2E; 32],
        encoding: 7,
        rest: 0x8001_0203,
    }
}

fn fork(start: u32) -> ForkRecord
    ensures { FitsFork result }
{
    ForkRecord {
        logical_size: 0x0102_0304_0506_0708,
        clump_size: 0x2000,
        total_blocks: 8,
        extents: ExtentRecord {
            extents: [Extent { start, count: 1 }; 8],
        },
    }
}

fn file_record(id: u32, links: u32) -> FileRecord
    ensures fields { FitsEntry result.fields }
    ensures data { FitsFork result.data_fork }
    ensures resource { FitsFork result.resource_fork }
{
    FileRecord {
        fields: fields(id, links, 3_500_000_001),
        data_fork: fork(id),
        resource_fork: fork(7),
    }
}

/// A file with a CNID, which says that it has so many links.
pub fn file(id: u32, links: u32) -> CatRecord
    ensures fits { FitsRecord result }
    ensures kind { is_thread result ≡ false }
{
    CatRecord::File(file_record(id, links))
}

/// The private folder.
pub fn private_folder(id: u32) -> CatRecord
    ensures fits { FitsRecord result }
    ensures kind { is_thread result ≡ false }
{
    CatRecord::Folder(FolderRecord {
        fields: fields(id, 0, MADE),
    })
}

/// A link that says another number, and is else as it was.
pub fn link_to(link: FileRecord, number: u32) -> CatRecord
    requires { FitsFile link }
    ensures fits { FitsRecord result }
    ensures kind { is_thread result ≡ false }
{
    CatRecord::File(FileRecord {
        fields: EntryFields {
            special: number,
            ..link.fields
        },
        ..link
    })
}

/// Whether a record is that of a file which says that it has so many links, as it was made.
pub fn is_file(rec: &FileRecord, id: u32, links: u32) -> bool {
    *rec == file_record(id, links)
}

/// Whether a fork has no byte and no block.
fn is_empty(fork: &ForkRecord) -> bool {
    fork.logical_size == 0
        && fork.total_blocks == 0
        && fork.extents.extents == [Extent { start: 0, count: 0 }; 8]
}

/// Whether a record has the type and the creator of links, `hlnk` and `hfs+`.
fn has_link_type(fields: &EntryFields) -> bool {
    fields.finder[..8] == [0x68, 0x6C, 0x6E, 0x6B, 0x68, 0x66, 0x73, 0x2B]
}

/// Whether a record is that of a link with a CNID to a number: made when the private folder was, with a thread, and empty.
pub fn is_link(rec: &FileRecord, id: u32, number: u32) -> bool {
    let fields = &rec.fields;
    fields.id == id
        && fields.special == number
        && fields.created == MADE
        && fields.flags == 2
        && has_link_type(fields)
        && is_empty(&rec.data_fork)
        && is_empty(&rec.resource_fork)
}
