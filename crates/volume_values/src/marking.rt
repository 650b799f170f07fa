//! Folders and files whose attributes were changed, and the blocks of the values that went.
ghost use Rattle.std.specs.Prelude.{◌≡◌, ◌≤◌, ◌+◌, IfSome, Some, false, IsTrue, length, OnOk};
ghost use Rattle.std.specs.List.{Contains};
ghost use Rattle.alloc_bitmap.specs.Apart.{AreApart};
ghost use Rattle.catalog.specs.Pairs.{value_at};
ghost use Rattle.cat_records.specs.Fits.{FitsEntry, FitsRecord};
ghost use Rattle.file_io.specs.Places.{AreUsed};
ghost use Rattle.flag_rows.specs.Bits.{count_set};
ghost use Rattle.fork_map.specs.Blocks.{blocks_of};
ghost use Rattle.hfs_volume.specs.Entries.{AreSpelled};
ghost use Rattle.hfs_volume.specs.Records.{is_thread};
ghost use Rattle.volume_base.specs.Attributing.{MarksEntry, marked_fields, with_attribute_flag, with_mark};
ghost use Rattle.volume_base.specs.Changing.{catalog_node};
ghost use Rattle.volume_base.specs.Frame.{Edits, MayUpdate, Ran};
ghost use Rattle.volume_base.specs.Giving.{takes_some, trade_load};
ghost use Rattle.volume_base.specs.Holding.{KeepsUsed};
ghost use Rattle.volume_base.specs.Lists.{lists_of};
ghost use Rattle.volume_base.specs.Mapping.{HoldsUnchanged};
ghost use Rattle.volume_base.specs.Standing.{StandsOver, own_sectors};
ghost use Rattle.volume_values.specs.Valuing.{GivesAndMarks};

use cat_records::{CatRecord, EntryFields, FileRecord, FolderRecord};
use fork_map::ExtentList;
use hx_bytes::Trouble;
use sector_disk::SectorSpace;
use std::alloc::Global;
use volume_base::{Entry, Volume};

/// The flags of a folder or file that has attributes, or has none: bit 2 says it.
fn with_attribute_flag(has: bool, flags: u16) -> u16
    ensures { result ≡ with_attribute_flag has flags }
{
    let bit = if has { 4 } else { 0 };
    flags / 8 * 8 + bit + flags % 4
}

/// The fields of a folder or file to which something was done at this moment, and which has attributes, or none.
fn marked_fields(has: bool, moment: u32, fields: &EntryFields) -> EntryFields
    ensures same { result ≡ marked_fields has moment fields.now }
    ensures fits { FitsEntry fields.now → FitsEntry result }
{
    let mut changed = *fields;
    changed.flags = with_attribute_flag(has, fields.flags);
    changed.attribute = moment;
    changed
}

/// The record of such a folder or file; none of a thread.
fn with_mark(has: bool, moment: u32, rec: &CatRecord) -> Option<CatRecord>
    ensures same { result ≡ with_mark has moment rec.now }
    ensures fits { (is_thread rec.now ≡ false → FitsRecord rec.now) → IfSome result (λ changed. FitsRecord changed) }
    ensures kind { IfSome result (λ changed. is_thread changed ≡ false) }
{
    match rec {
        CatRecord::Folder(folder) => Some(CatRecord::Folder(FolderRecord {
            fields: marked_fields(has, moment, &folder.fields),
        })),
        CatRecord::File(file) => Some(CatRecord::File(FileRecord {
            fields: marked_fields(has, moment, &file.fields),
            data_fork: file.data_fork,
            resource_fork: file.resource_fork,
        })),
        CatRecord::Thread(_) => None,
    }
}

/// Dates the attributes of a folder or file by the volume's moment, and says whether it has any.
pub(crate) fn put_mark<P: SectorSpace>(
    volume: &mut Volume,
    alloc: Global,
    space: &mut P,
    entry: &Entry,
    has: bool,
) -> Result<(), Trouble>
    requires ready { MayUpdate volume.old entry.now (P.SectorView.space space.old) }
    requires fits { is_thread entry.now.rec ≡ false → FitsRecord entry.now.rec }
    // Nothing else of it is changed.
    ensures rest { volume.new ≡ record volume.old { catalog = volume.new.catalog } }
    ensures marks { IsTrue (P.SectorView.space space.old).tells → is_thread entry.now.rec ≡ false
        → OnOk result (MarksEntry has volume.old.header.modify_date entry.now volume.old volume.new (P.SectorView.space space.old).content (P.SectorView.space space.new).content) }
    ensures edits { Edits P.SectorView.space P.SectorView.follows (catalog_node volume.old) volume.old volume.new space.old space.new result }
{
    let Some(rec) = with_mark(has, volume.header.modify_date, &entry.rec) else {
        return Ok(());
    };
    volume.replace(alloc, space, entry, &rec)
}

/// Gives the blocks of a value back that an attribute of a folder or file doesn't have any more, behind a change that took blocks by which bits in so
/// many sectors of the bitmap at most were changed: 0 where none was taken. Then it dates the attributes of the folder or file, and says whether it has
/// any.
pub(crate) fn give_and_mark<P: SectorSpace>(
    volume: &mut Volume,
    alloc: Global,
    space: &mut P,
    entry: &Entry,
    old: &ExtentList,
    touched: u64,
    has: bool,
) -> Result<(), Trouble>
    requires stands { StandsOver volume.old (P.SectorView.space space.old) }
    requires unchanged { IsTrue (P.SectorView.space space.old).tells → HoldsUnchanged volume.old (P.SectorView.space space.old).content }
    requires touched { count_set volume.old.map.changed ≤ touched }
    requires apart { IsTrue (P.SectorView.space space.old).tells → AreApart (blocks_of old.now) }
    requires used { IsTrue (P.SectorView.space space.old).tells → AreUsed volume.old.map (blocks_of old.now) }
    requires spelled { IsTrue (P.SectorView.space space.old).tells → AreSpelled (lists_of volume.old (P.SectorView.space space.old).content).catalog_pairs }
    requires name { length entry.now.name ≤ 255 }
    requires there { IsTrue (P.SectorView.space space.old).tells → value_at (lists_of volume.old (P.SectorView.space space.old).content).catalog_pairs entry.now.parent entry.now.name ≡ Some entry.now.rec }
    requires fits { is_thread entry.now.rec ≡ false → FitsRecord entry.now.rec }
    requires room { IsTrue (P.SectorView.space space.old).tells → trade_load touched old.now volume.old + catalog_node volume.old ≤ (P.SectorView.space space.old).spare }
    ensures gives { IsTrue (P.SectorView.space space.old).tells → is_thread entry.now.rec ≡ false
        → OnOk result (GivesAndMarks (takes_some touched) has old.now entry.now volume.old.header.modify_date volume.old volume.new (P.SectorView.space space.old).content (P.SectorView.space space.new).content) }
    ensures ran { Ran P.SectorView.space P.SectorView.follows (λ s. Contains (own_sectors volume.old) s) (trade_load touched old.now volume.old + catalog_node volume.old) volume.new space.old space.new result }
    ensures own { own_sectors volume.new ≡ own_sectors volume.old }
    ensures used { KeepsUsed volume.old volume.new }
{
    volume.trade_blocks(alloc, space, old, touched)?;
    put_mark(volume, alloc, space, entry, has)
}
