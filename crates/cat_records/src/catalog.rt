//! Records of the catalog, read from bytes and written as bytes.
ghost use Rattle.std.specs.Prelude.{◌≡◌, ◌≢◌, ◌↔◌, ◌++◌, IfOk, Some, Err};
ghost use Rattle.hx_bytes.specs.Field.{big};
ghost use Rattle.hx_bytes.specs.Fork.{fork_bytes};
ghost use Rattle.cat_records.specs.Records.{catalog_bytes, catalog_fault, catalog_kind, catalog_of, entry_bytes, has_thread_length, is_catalog};
ghost use Rattle.cat_records.specs.declared.fault.RecordFault.{RecordFault};
ghost use Rattle.cat_records.specs.declared.fault.RecordFault.TheVariants.{Memory};

use crate::entry::{read_entry, write_entry};
use crate::fault::RecordFault;
use crate::record::{CatRecord, FileRecord, FolderRecord};
use crate::thread::{FILE_THREAD, FOLDER_THREAD, FRONT, read_thread, write_thread};
use hx_bytes::{Bytes, OutOfMemory, read_be16, read_fork, write_be16, write_fork};
use std::alloc::Global;

const FOLDER: u16 = 1;

const FILE: u16 = 2;
/// The bytes of a folder's record.
const FOLDER_LENGTH: usize = 88;
/// The bytes of a file's record.
const FILE_LENGTH: usize = 248;

/// Reads the catalog record that bytes spell (TN1150, "Catalog File Data").
pub fn read_catalog(alloc: Global, value: &[u8]) -> Result<CatRecord, RecordFault>
    ensures read { IfOk result (λ found. found ≡ catalog_of value.now) }
    ensures spelled { IfOk result (λ found. catalog_bytes found ≡ value.now) }
    // Any fault but want of memory comes exactly where the bytes are no record.
    ensures refused { (fault : RecordFault) → fault ≢ Memory → (result ≡ Err fault) ↔ (catalog_fault value.now ≡ Some fault) }
{
    let kind = kind_of(value);
    if !has_length(kind, value) {
        return Err(RecordFault::bad_record(kind, value.len()));
    }
    match kind {
        FOLDER => Ok(CatRecord::Folder(FolderRecord {
            fields: read_entry(value),
        })),
        FILE => Ok(CatRecord::File(FileRecord {
            fields: read_entry(value),
            data_fork: read_fork(value, 88),
            resource_fork: read_fork(value, 168),
        })),
        _ => Ok(CatRecord::Thread(read_thread(alloc, value)?)),
    }
}

/// Writes a catalog record. A name of more than 65,535 units has no spelling; the low bits of its
/// length are written.
pub fn write_catalog(alloc: Global, rec: &CatRecord) -> Result<Bytes, OutOfMemory>
    ensures { IfOk result (λ bytes. bytes ≡ catalog_bytes rec.now) }
{
    match rec {
        CatRecord::Folder(folder) => write_folder(alloc, folder),
        CatRecord::File(file) => write_file(alloc, file),
        CatRecord::Thread(thread) => write_thread(alloc, thread),
    }
}

/// The type of a record, or 0 where there are no two bytes for it.
fn kind_of(value: &[u8]) -> u16
    ensures { result ≡ catalog_kind value.now }
{
    if value.len() < 2 {
        0
    } else {
        read_be16(value, 0)
    }
}

/// Whether a record of a type has the length of its type.
fn has_length(kind: u16, value: &[u8]) -> bool
    requires { kind ≡ catalog_kind value.now }
    ensures { result ≡ is_catalog value.now }
{
    match kind {
        FOLDER => value.len() == FOLDER_LENGTH,
        FILE => value.len() == FILE_LENGTH,
        FOLDER_THREAD | FILE_THREAD => is_thread(value),
        _ => false,
    }
}

fn is_thread(value: &[u8]) -> bool
    ensures { result ≡ has_thread_length value.now }
{
    value.len() >= FRONT && value.len() == FRONT + 2 * usize::from(read_be16(value, 8))
}

fn write_folder(alloc: Global, folder: &FolderRecord) -> Result<Bytes, OutOfMemory>
    ensures { IfOk result (λ bytes. bytes ≡ big 2 1 ++ entry_bytes folder.now.fields) }
{
    let mut bytes = [0; FOLDER_LENGTH];
    write_be16(&mut bytes, 0, FOLDER);
    write_entry(&folder.fields, &mut bytes);
    Ok(Bytes::from_vec(Vec::from_slice(alloc, &bytes)?))
}

fn write_file(alloc: Global, file: &FileRecord) -> Result<Bytes, OutOfMemory>
    ensures { IfOk result (λ bytes. bytes ≡ big 2 2 ++ entry_bytes file.now.fields ++ fork_bytes file.now.data_fork ++ fork_bytes file.now.resource_fork) }
{
    let mut bytes = [0; FILE_LENGTH];
    write_be16(&mut bytes, 0, FILE);
    write_entry(&file.fields, &mut bytes);
    write_fork(&mut bytes, 88, &file.data_fork);
    write_fork(&mut bytes, 168, &file.resource_fork);
    Ok(Bytes::from_vec(Vec::from_slice(alloc, &bytes)?))
}
