//! The records of new folders and files, and the header that counts them.
ghost use Rattle.std.specs.Prelude.{◌≡◌, ◌<◌, ◌^◌, ◌+◌, true, false};
ghost use Rattle.cat_records.specs.Fits.{FitsEntry, FitsRecord};
ghost use Rattle.hx_bytes.specs.Fork.{FitsFork};
ghost use Rattle.hfs_volume.specs.Changes.{with_numbers};
ghost use Rattle.hfs_volume.specs.Commands.{with_made};
ghost use Rattle.hfs_volume.specs.Records.{id_in, is_thread};
ghost use Rattle.volume_header.specs.Header.{FitsHeader};
ghost use Rattle.volume_base.specs.Making.{new_fields, new_link_value, new_value};

use cat_records::{CatRecord, EntryFields, FileRecord, FolderRecord};
use hx_bytes::ForkRecord;
use volume_base::EMPTY;
use volume_header::VolumeHeader;

/// The flag of a file that says that its thread exists (TN1150, "Catalog File Data").
const HAS_THREAD: u16 = 2;

/// The fields of a new folder or file.
fn new_fields(id: u32, moment: u32, mode: u16, flags: u16) -> EntryFields
    ensures same { result ≡ new_fields id moment mode flags }
    ensures fits { FitsEntry result }
{
    EntryFields {
        flags,
        count: 0,
        id,
        created: moment,
        changed: moment,
        attribute: moment,
        accessed: moment,
        backup: 0,
        owner: 0,
        group: 0,
        admin_flags: 0,
        owner_flags: 0,
        mode,
        special: 0,
        finder: [0; 32],
        encoding: 0,
        rest: 0,
    }
}

/// The record of a new folder, with mode 0755.
fn new_folder(id: u32, moment: u32) -> CatRecord
    ensures same { result ≡ new_value true id moment }
    ensures fits { FitsRecord result }
    ensures kind { is_thread result ≡ false }
    ensures id { id_in result ≡ id }
{
    CatRecord::Folder(FolderRecord {
        fields: new_fields(id, moment, 0o040_755, 0),
    })
}

/// The record of a new file, with mode 0644 and without blocks.
fn new_file(id: u32, moment: u32) -> CatRecord
    ensures same { result ≡ new_value false id moment }
    ensures fits { FitsRecord result }
    ensures kind { is_thread result ≡ false }
    ensures id { id_in result ≡ id }
{
    CatRecord::File(FileRecord {
        fields: new_fields(id, moment, 0o100_644, HAS_THREAD),
        data_fork: EMPTY,
        resource_fork: EMPTY,
    })
}

/// The Finder type and creator of a symbolic link, `slnk` and `rhap`, and nothing behind them (TN1150, "Finder Info").
const LINK_FINDER: [u8; 32] = *b"slnkrhap\0\0\0\0\0\0\0\0\0\0\0\0\0\0\0\0\0\0\0\0\0\0\0\0";

/// The record of a new symbolic link, with mode 0755, whose data fork holds its target.
pub fn new_link(id: u32, moment: u32, target: ForkRecord) -> CatRecord
    requires target { FitsFork target }
    ensures same { result ≡ new_link_value id moment target }
    ensures fits { FitsRecord result }
    ensures kind { is_thread result ≡ false }
    ensures id { id_in result ≡ id }
{
    let mut fields = new_fields(id, moment, 0o120_755, HAS_THREAD);
    fields.finder = LINK_FINDER;
    CatRecord::File(FileRecord {
        fields,
        data_fork: target,
        resource_fork: EMPTY,
    })
}

/// The record of a new folder or file.
pub(crate) fn new_record(folder: bool, id: u32, moment: u32) -> CatRecord
    ensures same { result ≡ new_value folder id moment }
    ensures fits { FitsRecord result }
    ensures kind { is_thread result ≡ false }
    ensures id { id_in result ≡ id }
{
    if folder {
        new_folder(id, moment)
    } else {
        new_file(id, moment)
    }
}

/// The header after a folder or file got the next CNID.
pub(crate) fn with_made(folder: bool, head: &VolumeHeader) -> VolumeHeader
    ensures same { head.now.next_catalog_id + 1 < 2 ^ 32 → head.now.folder_count + 1 < 2 ^ 32 → head.now.file_count + 1 < 2 ^ 32 → result ≡ with_made folder head.now }
    ensures numbers { result ≡ with_numbers head.now result }
    ensures fits { FitsHeader head.now → FitsHeader result }
{
    let mut made = *head;
    made.next_catalog_id = head.next_catalog_id.saturating_add(1);
    if folder {
        made.folder_count = head.folder_count.saturating_add(1);
        return made;
    }
    made.file_count = head.file_count.saturating_add(1);
    made
}
