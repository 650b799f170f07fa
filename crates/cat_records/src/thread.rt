//! Threads, in bytes.
ghost use Rattle.std.specs.Prelude.{◌≡◌, ◌+◌, ◌*◌, ◌%◌, ◌≤◌, length, IfOk};
ghost use Rattle.hx_bytes.specs.Field.{big_at};
ghost use Rattle.cat_records.specs.Records.{thread_bytes, thread_kind, thread_of};

use crate::record::ThreadRecord;
use crate::units::{append_units, low_bits, read_units};
use hx_bytes::{Bytes, OutOfMemory, read_be16, read_be32, write_be16, write_be32};
use std::alloc::Global;

/// The type of a file's thread.
pub(crate) const FILE_THREAD: u16 = 4;
/// The type of a folder's thread.
pub(crate) const FOLDER_THREAD: u16 = 3;
/// The bytes of a thread before its name.
pub(crate) const FRONT: usize = 10;

/// The thread in bytes that have its length.
pub(crate) fn read_thread(alloc: Global, bytes: &[u8]) -> Result<ThreadRecord, OutOfMemory>
    requires front { 10 ≤ length bytes.now }
    requires name { length bytes.now ≡ 10 + 2 * big_at 2 bytes.now 8 }
    ensures { IfOk result (λ thread. thread ≡ thread_of bytes.now) }
{
    let name = read_units(alloc, bytes, FRONT, read_be16(bytes, 8))?;
    Ok(ThreadRecord {
        of_file: read_be16(bytes, 0) == FILE_THREAD,
        spare: read_be16(bytes, 2).cast_signed(),
        parent: read_be32(bytes, 4),
        name,
    })
}

/// The bytes of a thread.
pub(crate) fn write_thread(alloc: Global, thread: &ThreadRecord) -> Result<Bytes, OutOfMemory>
    ensures { IfOk result (λ bytes. bytes ≡ thread_bytes thread.now) }
{
    let mut front = [0; FRONT];
    write_be16(&mut front, 0, thread_kind(thread.of_file));
    write_be16(&mut front, 2, thread.spare.cast_unsigned());
    write_be32(&mut front, 4, thread.parent);
    write_be16(&mut front, 8, low_bits(thread.name.len()));
    let mut bytes = Vec::from_slice(alloc, &front)?;
    append_units(&mut bytes, &thread.name)?;
    Ok(Bytes::from_vec(bytes))
}

fn thread_kind(of_file: bool) -> u16
    ensures { result ≡ thread_kind of_file }
{
    if of_file { FILE_THREAD } else { FOLDER_THREAD }
}
