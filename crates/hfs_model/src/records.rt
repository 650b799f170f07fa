//! Records of a fresh volume's catalog.
ghost use Rattle.std.specs.Prelude.{◌≡◌, ◌≤◌, ◌++◌, ◌∷◌, [], length, OnOk, IfOk};
ghost use Rattle.hfs_model.specs.Fresh.{one_run, no_fork, catalog_item, new_entry, new_folder, new_thread, journal_threads};

use cat_records::{CatRecord, EntryFields, FolderRecord, ThreadRecord, catalog_key, write_catalog};
use hx_bytes::{Bytes, Extent, ExtentRecord, ForkRecord, OutOfMemory, Units};
use std::alloc::Global;

/// The root folder's id.
const ROOT: u32 = 2;
/// The id of the file `.journal_info_block`.
const INFO_FILE: u32 = 16;
/// The id of the file `.journal`.
const JOURNAL_FILE: u32 = 17;
/// File mode 0040755: a folder.
const FOLDER_MODE: u16 = 0x41ED;

/// One run of blocks, and seven extents that aren't used.
pub fn one_run(start: u32, count: u32) -> ExtentRecord
    ensures { result ≡ one_run start count }
{
    let mut extents = [Extent { start: 0, count: 0 }; 8];
    extents[0] = Extent { start, count };
    ExtentRecord { extents }
}

/// A fork without a byte.
pub fn no_fork() -> ForkRecord
    ensures { result ≡ no_fork }
{
    ForkRecord {
        logical_size: 0,
        clump_size: 0,
        total_blocks: 0,
        extents: one_run(0, 0),
    }
}

/// The fields of a new file or folder, with its flags, its number of entries, its id and its mode. All else is 0.
pub fn new_entry(flags: u16, count: u32, id: u32, mode: u16) -> EntryFields
    ensures { result ≡ new_entry flags count id mode }
{
    EntryFields {
        flags,
        count,
        id,
        created: 0,
        changed: 0,
        attribute: 0,
        accessed: 0,
        backup: 0,
        owner: 0,
        group: 0,
        admin_flags: 0,
        owner_flags: 0,
        mode,
        special: 0,
        finder: [0; 32],
        encoding: 0,
        rest: 0,
    }
}

/// A new folder with so many entries.
pub fn new_folder(id: u32, entries: u32) -> CatRecord
    ensures { result ≡ new_folder id entries }
{
    CatRecord::Folder(FolderRecord {
        fields: new_entry(0, entries, id, FOLDER_MODE),
    })
}

/// The thread of a file or a folder.
pub fn new_thread(
    alloc: Global,
    of_file: bool,
    parent: u32,
    name: &Units,
) -> Result<CatRecord, OutOfMemory>
    ensures { IfOk result (λ thread. thread ≡ new_thread of_file parent name.now) }
{
    Ok(CatRecord::Thread(ThreadRecord {
        of_file,
        spare: 0,
        parent,
        name: Units::from_vec(Vec::from_slice(alloc, name.as_slice())?),
    }))
}

/// The units of an ASCII text.
pub fn ascii(alloc: Global, text: &str) -> Result<Units, OutOfMemory>
    ensures { IfOk result (λ units. units ≡ text.now) }
{
    let mut units: Vec<u16> = Vec::new(alloc);
    for byte in text.as_bytes() {
        units.push(u16::from(*byte))?;
    }
    Ok(Units::from_vec(units))
}

fn catalog_item(
    alloc: Global,
    parent: u32,
    name: &Units,
    value: &CatRecord,
) -> Result<Bytes, OutOfMemory>
    requires { length name.now ≤ 255 }
    ensures { IfOk result (λ item. item ≡ catalog_item parent name.now value.now) }
{
    let mut item = catalog_key(alloc, parent, name)?.into_vec();
    item.extend_from_slice(write_catalog(alloc, value)?.as_slice())?;
    Ok(Bytes::from_vec(item))
}

/// Adds a record of the catalog, its key and its value, to the records of a node.
pub fn put_item(
    alloc: Global,
    items: &mut Vec<Bytes>,
    parent: u32,
    name: &Units,
    value: &CatRecord,
) -> Result<(), OutOfMemory>
    requires { length name.now ≤ 255 }
    ensures { OnOk result (items.new.items ≡ items.old.items ++ catalog_item parent name.now value.now ∷ []) }
{
    items.push(catalog_item(alloc, parent, name, value)?)?;
    Ok(())
}

/// Adds the threads of the journal's files.
pub fn put_journal_threads(alloc: Global, items: &mut Vec<Bytes>) -> Result<(), OutOfMemory>
    ensures { OnOk result (items.new.items ≡ items.old.items ++ journal_threads) }
{
    let journal = ascii(alloc, ".journal")?;
    let info = ascii(alloc, ".journal_info_block")?;
    let nameless = Units::new(alloc);
    put_item(
        alloc,
        items,
        INFO_FILE,
        &nameless,
        &new_thread(alloc, true, ROOT, &info)?,
    )?;
    put_item(
        alloc,
        items,
        JOURNAL_FILE,
        &nameless,
        &new_thread(alloc, true, ROOT, &journal)?,
    )
}
