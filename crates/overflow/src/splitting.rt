//! A list of extents cut into the records of a fork.
ghost use Rattle.std.specs.Prelude.{◌≡◌, ◌<◌, ◌≤◌, ◌+◌, ◌^◌, length, IfOk};
ghost use Rattle.fork_map.specs.Blocks.{blocks_of};
ghost use Rattle.overflow.specs.Records.{records_for};

use crate::record::{OverflowRecord, count_blocks, eight_extents};
use hx_bytes::{Extent, OutOfMemory};
use std::alloc::Global;

/// The records behind that of a fork with these extents: each has eight, and says how many blocks stand before it.
pub fn split(alloc: Global, extents: &[Extent]) -> Result<Vec<OverflowRecord>, OutOfMemory>
    requires { length (blocks_of extents.now) < 2 ^ 32 }
    ensures { IfOk result (λ records. records.items ≡ records_for extents.now) }
{
    let mut records = Vec::new(alloc);
    let front = eight_extents(extents, 0);
    let mut place = count_blocks(&front.extents);
    let mut at = 8;
    while at < extents.len() {
        let eight = eight_extents(extents, at);
        records.push(OverflowRecord {
            start: place as u32,
            extents: eight,
        })?;
        place += count_blocks(&eight.extents);
        at += 8;
    }
    Ok(records)
}
