//! A volume header written into its sector.
ghost use Rattle.std.specs.Prelude.{◌≡◌, ◌++◌, ◌≤◌, ◌+◌, length};
ghost use Rattle.hx_bytes.specs.Field.{put_at};
ghost use Rattle.volume_header.specs.Header.{blocks_bytes, counters_bytes, forks_bytes, header_bytes, history_bytes, identity_bytes};

use crate::header::VolumeHeader;
use hx_bytes::{Sector, write_be16, write_be32, write_be64, write_fork};

/// Writes a header over all of its sector.
pub fn write_header(head: &VolumeHeader, into: &mut Sector)
    ensures { into.new ≡ header_bytes head.now }
{
    write_identity(head, into);
    write_history(head, into);
    write_blocks(head, into);
    write_counters(head, into);
    write_forks(head, into);
}

fn write_identity(head: &VolumeHeader, into: &mut Sector)
    ensures written { into.new ≡ put_at into.old 0 (identity_bytes head.now) }
    ensures whole { length (identity_bytes head.now) ≡ 16 }
{
    write_be16(into, 0, head.signature);
    write_be16(into, 2, head.version);
    write_be32(into, 4, head.attributes);
    write_be32(into, 8, head.last_mounted_version);
    write_be32(into, 12, head.journal_info_block);
}

fn write_history(head: &VolumeHeader, into: &mut Sector)
    ensures written { into.new ≡ put_at into.old 16 (history_bytes head.now) }
    ensures whole { length (history_bytes head.now) ≡ 24 }
{
    write_be32(into, 16, head.create_date);
    write_be32(into, 20, head.modify_date);
    write_be32(into, 24, head.backup_date);
    write_be32(into, 28, head.checked_date);
    write_be32(into, 32, head.file_count);
    write_be32(into, 36, head.folder_count);
}

fn write_blocks(head: &VolumeHeader, into: &mut Sector)
    ensures written { into.new ≡ put_at into.old 40 (blocks_bytes head.now) }
    ensures whole { length (blocks_bytes head.now) ≡ 24 }
{
    write_be32(into, 40, head.block_size);
    write_be32(into, 44, head.total_blocks);
    write_be32(into, 48, head.free_blocks);
    write_be32(into, 52, head.next_allocation);
    write_be32(into, 56, head.rsrc_clump_size);
    write_be32(into, 60, head.data_clump_size);
}

fn write_counters(head: &VolumeHeader, into: &mut Sector)
    ensures written { into.new ≡ put_at into.old 64 (counters_bytes head.now) }
    ensures whole { length (counters_bytes head.now) ≡ 48 }
{
    write_be32(into, 64, head.next_catalog_id);
    write_be32(into, 68, head.write_count);
    write_be64(into, 72, head.encodings_bitmap);
    into[80..112].copy_from_slice(&head.finder_info);
}

fn write_forks(head: &VolumeHeader, into: &mut Sector)
    ensures written { into.new ≡ put_at into.old 112 (forks_bytes head.now) }
    ensures whole { length (forks_bytes head.now) ≡ 400 }
{
    write_fork(into, 112, &head.allocation_fork);
    write_fork(into, 192, &head.extents_fork);
    write_fork(into, 272, &head.catalog_fork);
    write_fork(into, 352, &head.attributes_fork);
    write_fork(into, 432, &head.startup_fork);
}
