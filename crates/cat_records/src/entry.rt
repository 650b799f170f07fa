//! The fields that a folder's record and a file's have alike, in bytes.
ghost use Rattle.std.specs.Prelude.{◌≡◌, ◌+◌, ◌≤◌, length, take, drop};
ghost use Rattle.hx_bytes.specs.Field.{put_at};
ghost use Rattle.cat_records.specs.Records.{dates_bytes, entry_bytes, entry_of, finder_bytes, identity_bytes, rights_bytes};

use crate::record::EntryFields;
use hx_bytes::{read_be16, read_be32, write_be16, write_be32};

/// The fields of a record of at least 88 bytes.
#[tactic(auto, unfolding(crate::specs::Records::entry_of))]
pub(crate) fn read_entry(bytes: &[u8]) -> EntryFields
    requires { 88 ≤ length bytes.now }
    ensures { result ≡ entry_of bytes.now }
{
    EntryFields {
        flags: read_be16(bytes, 2),
        count: read_be32(bytes, 4),
        id: read_be32(bytes, 8),
        created: read_be32(bytes, 12),
        changed: read_be32(bytes, 16),
        attribute: read_be32(bytes, 20),
        accessed: read_be32(bytes, 24),
        backup: read_be32(bytes, 28),
        owner: read_be32(bytes, 32),
        group: read_be32(bytes, 36),
        admin_flags: bytes[40],
        owner_flags: bytes[41],
        mode: read_be16(bytes, 42),
        special: read_be32(bytes, 44),
        finder: finder_at(bytes),
        encoding: read_be32(bytes, 80),
        rest: read_be32(bytes, 84),
    }
}

fn finder_at(bytes: &[u8]) -> [u8; 32]
    requires { 80 ≤ length bytes.now }
    ensures { result ≡ take 32 (drop 48 bytes.now) }
{
    let mut finder = [0; 32];
    finder.copy_from_slice(&bytes[48..80]);
    finder
}

/// Writes the fields behind the type of a record of at least 88 bytes.
pub(crate) fn write_entry(fields: &EntryFields, into: &mut [u8])
    requires { 88 ≤ length into.old }
    ensures written { into.new ≡ put_at into.old 2 (entry_bytes fields.now) }
    ensures whole { length (entry_bytes fields.now) ≡ 86 }
{
    write_identity(fields, into);
    write_dates(fields, into);
    write_rights(fields, into);
    write_finder(fields, into);
}

fn write_identity(fields: &EntryFields, into: &mut [u8])
    requires { 88 ≤ length into.old }
    ensures written { into.new ≡ put_at into.old 2 (identity_bytes fields.now) }
    ensures whole { length (identity_bytes fields.now) ≡ 10 }
{
    write_be16(into, 2, fields.flags);
    write_be32(into, 4, fields.count);
    write_be32(into, 8, fields.id);
}

fn write_dates(fields: &EntryFields, into: &mut [u8])
    requires { 88 ≤ length into.old }
    ensures written { into.new ≡ put_at into.old 12 (dates_bytes fields.now) }
    ensures whole { length (dates_bytes fields.now) ≡ 20 }
{
    write_be32(into, 12, fields.created);
    write_be32(into, 16, fields.changed);
    write_be32(into, 20, fields.attribute);
    write_be32(into, 24, fields.accessed);
    write_be32(into, 28, fields.backup);
}

fn write_rights(fields: &EntryFields, into: &mut [u8])
    requires { 88 ≤ length into.old }
    ensures written { into.new ≡ put_at into.old 32 (rights_bytes fields.now) }
    ensures whole { length (rights_bytes fields.now) ≡ 16 }
{
    write_be32(into, 32, fields.owner);
    write_be32(into, 36, fields.group);
    into[40] = fields.admin_flags;
    into[41] = fields.owner_flags;
    write_be16(into, 42, fields.mode);
    write_be32(into, 44, fields.special);
}

fn write_finder(fields: &EntryFields, into: &mut [u8])
    requires { 88 ≤ length into.old }
    ensures written { into.new ≡ put_at into.old 48 (finder_bytes fields.now) }
    ensures whole { length (finder_bytes fields.now) ≡ 40 }
{
    into[48..80].copy_from_slice(&fields.finder);
    write_be32(into, 80, fields.encoding);
    write_be32(into, 84, fields.rest);
}
