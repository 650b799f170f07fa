//! The private folder, made by itself where there is none.
ghost use Rattle.std.specs.Prelude.{ℕ, ◌≡◌, ◌≤◌, ◌<◌, ◌+◌, ◌^◌, None, Some, false, true, IsTrue, IfSome, OnOk};
ghost use Rattle.btree_file.specs.Standing.{numbers_of};
ghost use Rattle.catalog.specs.Entries.{IsOfKind};
ghost use Rattle.cat_records.specs.Fits.{FitsEntry, FitsRecord};
ghost use Rattle.hfs_volume.specs.Entries.{AreThreaded};
ghost use Rattle.hfs_volume.specs.Records.{id_in, is_folder, is_thread, valence_in};
ghost use Rattle.volume_base.specs.Changing.{HasFolder, HasRoomToUpdate, catalog_node};
ghost use Rattle.volume_base.specs.Frame.{Edits, MayUpdate, Serves};
ghost use Rattle.volume_base.specs.Lists.{lists_of};
ghost use Rattle.volume_base.specs.Making.{HasRoomToMake};
ghost use Rattle.volume_names.specs.EditsLeft.{HasEditsLeft, HasLoadFor};
ghost use Rattle.volume_names.specs.PrivateFolder.{HasOpened, RecountsFolder, recounted, with_more};
ghost use Rattle.volume_base.specs.Standing.{StandsOver};

use crate::making::add_new;
use cat_records::{CatRecord, EntryFields, FolderRecord};
use hfs_volume::header_may_change;
use hx_bytes::Trouble;
use sector_disk::SectorSpace;
use std::alloc::Global;
use volume_base::{Entry, Volume, private_folder};

/// The CNID of the root.
const ROOT: u32 = 2;

/// The fields of a folder to which so many entries came out of sight: no date says so. Its flag 0x0010 and its last word,
/// which count its folders apart, are cleared.
fn with_more(up: u32, fields: &EntryFields) -> EntryFields
    ensures same { fields.now.count + up < 2 ^ 32 → result ≡ with_more up fields.now }
    ensures id { result.id ≡ fields.now.id }
    ensures fits { FitsEntry fields.now → FitsEntry result }
{
    let mut changed = *fields;
    changed.flags = fields.flags - fields.flags / 16 % 2 * 16;
    changed.count = fields.count.saturating_add(up);
    changed.rest = 0;
    changed
}

/// The record of such a folder; none of a file or a thread.
fn recounted(up: u32, rec: &CatRecord) -> Option<CatRecord>
    ensures same { valence_in rec.now + up < 2 ^ 32 → result ≡ recounted up rec.now }
    ensures alike { IfSome result (λ changed. IsOfKind changed rec.now) }
    ensures fits { (is_thread rec.now ≡ false → FitsRecord rec.now) → IfSome result (λ changed. FitsRecord changed) }
    ensures kind { IfSome result (λ changed. is_thread changed ≡ false) }
{
    match rec {
        CatRecord::Folder(folder) => Some(CatRecord::Folder(FolderRecord {
            fields: with_more(up, &folder.fields),
        })),
        CatRecord::File(_) => None,
        CatRecord::Thread(_) => None,
    }
}

/// Counts entries of a folder that was found.
fn put_recounted<P: SectorSpace>(
    volume: &mut Volume,
    alloc: Global,
    space: &mut P,
    entry: &Entry,
    up: u32,
) -> Result<(), Trouble>
    requires ready { MayUpdate volume.old entry.now (P.SectorView.space space.old) }
    requires fits { is_thread entry.now.rec ≡ false → FitsRecord entry.now.rec }
    ensures counts { IsTrue (P.SectorView.space space.old).tells → is_folder entry.now.rec ≡ true → valence_in entry.now.rec + up < 2 ^ 32
        → OnOk result (RecountsFolder (id_in entry.now.rec) up volume.old volume.new (P.SectorView.space space.old).content (P.SectorView.space space.new).content) }
    ensures edits { Edits P.SectorView.space P.SectorView.follows (catalog_node volume.old) volume.old volume.new space.old space.new result }
    // Edits that have room beside a node more than these sectors have room beside them behind it.
    ensures left { (edits beside : ℕ) → HasEditsLeft edits (catalog_node volume.old + beside) volume.old (P.SectorView.space space.old) → OnOk result (HasEditsLeft edits beside volume.new (P.SectorView.space space.new)) }
{
    let Some(rec) = recounted(up, &entry.rec) else {
        return Ok(());
    };
    volume.replace(alloc, space, entry, &rec)
}

/// Lets the folder with a CNID count so many entries more that users don't see: its dates stay. The volume stands as before,
/// with this one change of its catalog.
fn recount<P: SectorSpace>(
    volume: &mut Volume,
    alloc: Global,
    space: &mut P,
    id: u32,
    up: u32,
) -> Result<(), Trouble>
    requires stands { StandsOver volume.old (P.SectorView.space space.old) }
    requires threads { IsTrue (P.SectorView.space space.old).tells → AreThreaded (lists_of volume.old (P.SectorView.space space.old).content).catalog_pairs }
    requires there { IsTrue (P.SectorView.space space.old).tells → HasFolder id up (lists_of volume.old (P.SectorView.space space.old).content).catalog_pairs }
    requires room { HasRoomToUpdate volume.old (P.SectorView.space space.old) }
    ensures counts { IsTrue (P.SectorView.space space.old).tells → OnOk result (RecountsFolder id up volume.old volume.new (P.SectorView.space space.old).content (P.SectorView.space space.new).content) }
    ensures edits { Edits P.SectorView.space P.SectorView.follows (catalog_node volume.old) volume.old volume.new space.old space.new result }
    // Edits that have room beside a node more than these sectors have room beside them behind it.
    ensures left { (edits beside : ℕ) → HasEditsLeft edits (catalog_node volume.old + beside) volume.old (P.SectorView.space space.old) → OnOk result (HasEditsLeft edits beside volume.new (P.SectorView.space space.new)) }
{
    match volume.entry(alloc, space, id)? {
        Some(entry) => put_recounted(volume, alloc, space, &entry, up),
        None => Ok(()),
    }
}

/// Makes the private folder in the root, which counts it.
fn make_private<P: SectorSpace>(
    volume: &mut Volume,
    alloc: Global,
    space: &mut P,
) -> Result<(), Trouble>
    requires serves { Serves volume.old (P.SectorView.space space.old) }
    requires size { 4096 ≤ (numbers_of volume.old.catalog.file).node_size }
    requires absent { volume.old.private ≡ None }
    requires room { HasRoomToMake volume.old (P.SectorView.space space.old) }
    ensures does { IsTrue (P.SectorView.space space.old).tells → OnOk result (HasOpened (record volume.new { private = Some volume.old.header.next_catalog_id }) (P.SectorView.space space.old).content (P.SectorView.space space.new).content) }
    ensures edits { Edits P.SectorView.space P.SectorView.follows (P.SectorView.space space.old).spare volume.old volume.new space.old space.new result }
    // The header was put and counts it, and the catalog's nodes are as large.
    ensures is_put { IsTrue (P.SectorView.space space.old).tells → OnOk result (IsTrue ((P.SectorView.space space.new).put 2)) }
    ensures ids { IsTrue (P.SectorView.space space.old).tells → OnOk result (volume.new.header.next_catalog_id ≡ volume.old.header.next_catalog_id + 1) }
    ensures nodes { IsTrue (P.SectorView.space space.old).tells → OnOk result (catalog_node volume.new ≡ catalog_node volume.old) }
    // Where the load of two edits more has room beside the header's sector, a node and these sectors, the others have room beside these behind it.
    ensures left { (edits beside : ℕ) → HasLoadFor (2 + edits) (1 + (catalog_node volume.old + beside)) volume.old (P.SectorView.space space.old) → OnOk result (HasEditsLeft edits beside volume.new (P.SectorView.space space.new)) }
    // On a fault too, these sectors are left.
    ensures beside { (edits beside : ℕ) → HasLoadFor (2 + edits) (1 + (catalog_node volume.old + beside)) volume.old (P.SectorView.space space.old) → IsTrue (P.SectorView.space space.old).tells → beside ≤ (P.SectorView.space space.new).spare }
{
    header_may_change();
    let name = private_folder(alloc)?;
    add_new(volume, alloc, space, ROOT, &name, true)?;
    recount(volume, alloc, space, ROOT, 1)
}

/// Makes the private folder in a volume that has none, as a change of its own: it is settled again, and users see nothing
/// of it.
pub(crate) fn open_private<P: SectorSpace>(
    volume: &mut Volume,
    alloc: Global,
    space: &mut P,
) -> Result<(), Trouble>
    requires serves { Serves volume.old (P.SectorView.space space.old) }
    requires absent { volume.old.private ≡ None }
    // There is a CNID for it, and room for what it puts; the catalog needn't grow before.
    requires room { HasRoomToMake volume.old (P.SectorView.space space.old) }
    ensures opens { IsTrue (P.SectorView.space space.old).tells → OnOk result (HasOpened volume.new (P.SectorView.space space.old).content (P.SectorView.space space.new).content) }
    ensures edits { Edits P.SectorView.space P.SectorView.follows (P.SectorView.space space.old).spare volume.old volume.new space.old space.new result }
    // The header was put and counts it, and the catalog's nodes are as large.
    ensures is_put { IsTrue (P.SectorView.space space.old).tells → OnOk result (IsTrue ((P.SectorView.space space.new).put 2)) }
    ensures ids { IsTrue (P.SectorView.space space.old).tells → OnOk result (volume.new.header.next_catalog_id ≡ volume.old.header.next_catalog_id + 1) }
    ensures nodes { IsTrue (P.SectorView.space space.old).tells → OnOk result (catalog_node volume.new ≡ catalog_node volume.old) }
    // Where the load of two edits more has room beside the header's sector, a node and these sectors, the others have room beside these behind it.
    ensures left { (edits beside : ℕ) → HasLoadFor (2 + edits) (1 + (catalog_node volume.old + beside)) volume.old (P.SectorView.space space.old) → OnOk result (HasEditsLeft edits beside volume.new (P.SectorView.space space.new)) }
    // On a fault too, these sectors are left.
    ensures beside { (edits beside : ℕ) → HasLoadFor (2 + edits) (1 + (catalog_node volume.old + beside)) volume.old (P.SectorView.space space.old) → IsTrue (P.SectorView.space space.old).tells → beside ≤ (P.SectorView.space space.new).spare }
{
    // The least node size that the format allows the catalog (TN1150, "Catalog File").
    if volume.catalog.file.shape().node_size < 4096 {
        return Ok(());
    }
    let id = volume.header.next_catalog_id;
    make_private(volume, alloc, space)?;
    volume.private = Some(id);
    Ok(())
}
