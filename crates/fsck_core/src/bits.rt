//! The bits of a volume's blocks, read from its allocation file (rule 13).
ghost use Rattle.std.specs.Prelude.{◌≡◌, ◌<◌, ◌≤◌, ◌*◌, ◌^◌, ℕ, [], length, IsTrue, IfOk, IsErrOf, OnOk, ◌++◌};
ghost use Rattle.hx_bytes.specs.declared.faults.Trouble.TheVariants.{Disk};
ghost use Rattle.sector_disk.specs.Cause.{Rose};
ghost use Rattle.fork_map.specs.Blocks.{fork_sectors};
ghost use Rattle.jnl_format.specs.Recovery.{Content, header_of_volume};
ghost use Rattle.flag_rows.specs.Bits.{bit_of};
ghost use Rattle.btree_file.specs.Frame.{ReadsSpace};
ghost use Rattle.hfs_volume.specs.Blocks.{IsGoodHeader};
ghost use Rattle.hfs_volume.specs.Content.{volume_of, overflow_of_content};
ghost use Rattle.fsck_core.specs.Behind.{fork_bit};
ghost use Rattle.fsck_core.specs.Flags.{AreBits};
ghost use Rattle.fsck_core.specs.Overflows.{overflows_in};
ghost use Rattle.fsck_core.specs.Shown.{Shows};

use crate::overflow::{OverflowRow, fork_extents};
use flag_rows::Bits;
use fork_map::SummedFork;
use fsck_scan::{Fork, read_sector};
use hx_bytes::{OutOfMemory, Sector, Trouble};
use sector_disk::SectorView;
use std::alloc::Global;
use volume_header::VolumeHeader;

/// The CNID of the allocation file.
const ALLOCATION_FILE: u32 = 6;

const DATA: u8 = 0;

fn push_sector(bytes: &mut Vec<u8>, sector: &Sector) -> Result<(), OutOfMemory>
    ensures { OnOk result (bytes.new.items ≡ bytes.old.items ++ sector.now) }
{
    bytes.extend_from_slice(sector)?;
    Ok(())
}

/// The bytes of the first sectors of a fork.
fn read_front<V: SectorView>(
    alloc: Global,
    view: &mut V,
    fork: &Fork,
    count: usize,
) -> Result<Vec<u8>, Trouble>
    requires small { count < 2 ^ 32 }
    requires per_block { fork.now.per_block ≤ 2 ^ 23 }
    ensures size { IfOk result (λ bytes. length bytes.items ≡ count * 512) }
    ensures bits { IsTrue (V.space view.old).tells
        → IfOk result (λ bytes. (k : ℕ) → k < count * 4096 → bit_of bytes.items k ≡ fork_bit (V.space view.old).content fork.now.limit (fork_sectors fork.now.extents.now fork.now.per_block) k) }
    ensures reads { ReadsSpace (V.space view.old) (V.space view.new) }
    ensures below { V.follows view.old view.new }
    ensures disk { IsErrOf result Disk → Rose (V.space view.old).faults (V.space view.new).faults }
{
    let mut bytes = Vec::new(alloc);
    let mut sector = [0; 512];
    for at in 0..count {
        read_sector(view, fork, at as u64, &mut sector)?;
        push_sector(&mut bytes, &sector)?;
    }
    Ok(bytes)
}

/// Reads the bit of each block, where the header keeps rule 1, these are the volume's overflow records, and its allocation file has a bit for
/// each block.
pub(crate) fn read_bits<V: SectorView>(
    alloc: Global,
    view: &mut V,
    head: &VolumeHeader,
    rows: &[OverflowRow],
) -> Result<Bits, Trouble>
    requires good { IsGoodHeader (V.space view.old).sectors head.now }
    ensures bits { (content : Content) → Shows (V.space view.old) content → head.now ≡ header_of_volume content → overflows_in rows.now ≡ overflow_of_content content
        → head.now.total_blocks ≤ 8 * head.now.allocation_fork.logical_size → IfOk result (λ bits. AreBits (volume_of content) bits) }
    ensures reads { ReadsSpace (V.space view.old) (V.space view.new) }
    ensures below { V.follows view.old view.new }
    ensures disk { IsErrOf result Disk → Rose (V.space view.old).faults (V.space view.new).faults }
{
    let list = fork_extents(alloc, rows, ALLOCATION_FILE, DATA, &head.allocation_fork)?;
    let extents = SummedFork::from_list(alloc, list)?;
    let per_block = head.block_size / 512;
    let fork = Fork {
        extents: &extents,
        per_block,
        limit: head.total_blocks as u64 * per_block as u64,
    };
    let total = head.total_blocks as usize;
    let bytes = read_front(alloc, view, &fork, (total + 4095) / 4096)?;
    Ok(Bits::of_bytes(bytes, total))
}
