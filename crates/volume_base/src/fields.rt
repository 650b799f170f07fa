//! Records of folders and files with other fields.
ghost use Rattle.std.specs.Prelude.{◌≡◌, ◌<◌, ◌^◌, ◌+◌, ◌%◌, IfSome, false};
ghost use Rattle.cat_records.specs.Fits.{FitsEntry, FitsRecord};
ghost use Rattle.catalog.specs.Entries.{IsOfKind};
ghost use Rattle.hfs_volume.specs.Records.{is_thread, valence_in};
ghost use Rattle.volume_base.specs.Entering.{touched, with_entries};

use cat_records::{CatRecord, EntryFields, FolderRecord};

/// The fields of a folder to which so many entries came, and from which so many went, at this moment. Its flag 0x0010 and
/// its last word, which count its folders apart, are cleared.
fn with_entries(moment: u32, up: u32, down: u32, fields: &EntryFields) -> EntryFields
    ensures same { fields.now.count + up < 2 ^ 32 → result ≡ with_entries moment up down fields.now }
    ensures id { result.id ≡ fields.now.id }
    ensures fits { FitsEntry fields.now → FitsEntry result }
{
    let mut changed = *fields;
    changed.flags = fields.flags - fields.flags / 16 % 2 * 16;
    changed.count = fields.count.saturating_add(up).saturating_sub(down);
    changed.changed = moment;
    changed.attribute = moment;
    changed.rest = 0;
    changed
}

/// The record of a folder to which so many entries came, and from which so many went, at this moment; none of a file or a
/// thread.
pub(crate) fn touched(moment: u32, up: u32, down: u32, rec: &CatRecord) -> Option<CatRecord>
    ensures same { valence_in rec.now + up < 2 ^ 32 → result ≡ touched moment up down rec.now }
    ensures alike { IfSome result (λ changed. IsOfKind changed rec.now) }
    ensures fits { (is_thread rec.now ≡ false → FitsRecord rec.now) → IfSome result (λ changed. FitsRecord changed) }
    ensures kind { IfSome result (λ changed. is_thread changed ≡ false) }
{
    match rec {
        CatRecord::Folder(folder) => Some(CatRecord::Folder(FolderRecord {
            fields: with_entries(moment, up, down, &folder.fields),
        })),
        CatRecord::File(_) => None,
        CatRecord::Thread(_) => None,
    }
}
