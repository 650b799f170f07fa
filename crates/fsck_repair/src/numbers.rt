//! The numbers of a volume header.
ghost use Rattle.std.specs.Prelude.{◌≡◌, ◌-◌, ℕ, List, count_by};
ghost use Rattle.hx_bytes.specs.Field.{big};
ghost use Rattle.hfs_volume.specs.Records.{Placed, entries_of, is_file, is_folder};
ghost use Rattle.flag_rows.specs.Bits.{count_set};
ghost use Rattle.fsck_repair.specs.Counted.{AreEntriesOf};

use crate::counts::Entries;
use crate::words::low_word;
use fsck_core::{count_files, count_folders};
use fsck_list::Marks;

/// How many files the entries are, how many folders but the root, and how many blocks nothing uses.
#[derive(Clone, Copy)]
pub(crate) struct Numbers {
    pub files: u32,
    pub folders: u32,
    pub free: u32,
}

/// The numbers of the header of a volume with so many blocks.
pub(crate) fn numbers_of(total: u32, entries: &Entries, used: &Marks) -> Numbers
    ensures files { (records : List Placed) → AreEntriesOf records entries.now → big 4 result.files ≡ big 4 (count_by (λ placed. is_file placed.value) (entries_of records)) }
    ensures folders { (records : List Placed) → AreEntriesOf records entries.now → big 4 result.folders ≡ big 4 (count_by (λ placed. is_folder placed.value) (entries_of records) - 1) }
    ensures free { result.free ≡ total - count_set used.now }
{
    let files = low_word(count_files(&entries.rows));
    let folders = low_word(count_folders(&entries.rows).saturating_sub(1));
    let free = total.saturating_sub(used.count());
    Numbers {
        files,
        folders,
        free,
    }
}
