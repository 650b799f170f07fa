//! The records of the catalog's leaf.
ghost use Rattle.std.specs.Prelude.{◌≡◌, ◌++◌, IfOk, OnOk, IsTrue};
ghost use Rattle.volume_make.specs.Refusal.{is_name};
ghost use Rattle.volume_make.specs.Texts.{file_fork, new_file, root_items, file_items, leaf_items};

use crate::layout::Layout;
use cat_records::{CatRecord, FileRecord};
use hfs_model::{
    ascii, new_entry, new_folder, new_thread, no_fork, one_run, put_item, put_journal_threads,
};
use hx_bytes::{Bytes, Extent, ForkRecord, OutOfMemory, Units};
use std::alloc::Global;

/// The id of the root's parent, which no record has.
const ROOT_PARENT: u32 = 1;
/// The root folder's id.
const ROOT: u32 = 2;
/// The id of the file `.journal_info_block`.
const INFO_FILE: u32 = 16;
/// The id of the file `.journal`.
const JOURNAL_FILE: u32 = 17;
/// File mode 0100644: a file.
const FILE_MODE: u16 = 0x81A4;
/// The flag of a file that has a thread.
const HAS_THREAD: u16 = 2;

fn file_fork(block: u32, part: Extent) -> ForkRecord
    ensures { result ≡ file_fork block part }
{
    ForkRecord {
        logical_size: u64::from(part.count) * u64::from(block),
        clump_size: 0,
        total_blocks: part.count,
        extents: one_run(part.start, part.count),
    }
}

fn new_file(block: u32, id: u32, part: Extent) -> CatRecord
    ensures { result ≡ new_file block id part }
{
    CatRecord::File(FileRecord {
        fields: new_entry(HAS_THREAD, 0, id, FILE_MODE),
        data_fork: file_fork(block, part),
        resource_fork: no_fork(),
    })
}

/// The records of the catalog's leaf, in the order of their keys.
#[tactic(auto, unfolding(crate::specs::Texts::leaf_items))]
pub(crate) fn leaf_items(
    alloc: Global,
    layout: Layout,
    name: &Units,
) -> Result<Vec<Bytes>, OutOfMemory>
    requires { IsTrue (is_name name.now) }
    ensures { IfOk result (λ items. items.items ≡ leaf_items layout name.now) }
{
    let mut items = Vec::new(alloc);
    put_root(alloc, &mut items, name)?;
    put_files(alloc, &mut items, layout)?;
    put_journal_threads(alloc, &mut items)?;
    Ok(items)
}

/// Adds the root with its thread.
fn put_root(alloc: Global, items: &mut Vec<Bytes>, name: &Units) -> Result<(), OutOfMemory>
    requires { IsTrue (is_name name.now) }
    ensures { OnOk result (items.new.items ≡ items.old.items ++ root_items name.now) }
{
    let nameless = Units::new(alloc);
    let thread = new_thread(alloc, false, ROOT_PARENT, name)?;
    put_item(alloc, items, ROOT_PARENT, name, &new_folder(ROOT, 2))?;
    put_item(alloc, items, ROOT, &nameless, &thread)
}

/// Adds the two files of the journal.
fn put_files(alloc: Global, items: &mut Vec<Bytes>, layout: Layout) -> Result<(), OutOfMemory>
    ensures { OnOk result (items.new.items ≡ items.old.items ++ file_items layout) }
{
    let journal = ascii(alloc, ".journal")?;
    let info = ascii(alloc, ".journal_info_block")?;
    let journal_file = new_file(layout.block, JOURNAL_FILE, layout.journal);
    put_item(alloc, items, ROOT, &journal, &journal_file)?;
    let info_file = new_file(layout.block, INFO_FILE, layout.info);
    put_item(alloc, items, ROOT, &info, &info_file)
}
