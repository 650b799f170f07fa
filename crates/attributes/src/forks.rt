//! The records of a value in a fork: the first with eight extents, and further ones.
ghost use Rattle.std.specs.Prelude.{◌≡◌, ◌≤◌, IfOk, length};
ghost use Rattle.hx_bytes.specs.Fork.{FitsExtent, FitsExtents, FitsFork};
ghost use Rattle.fork_map.specs.Blocks.{blocks_of};
ghost use Rattle.hfs_volume.specs.Forks.{in_use};
ghost use Rattle.cat_records.specs.declared.attribute.AttrRecord.TheVariants.{Fork};
ghost use Rattle.attributes.specs.Forks.{SpellParts, SpellsPart, fork_of, further_part, parts_of};

use crate::pair::{AttributePair, record_pair};
use cat_records::AttrRecord;
use fork_map::ExtentList;
use hx_bytes::{Extent, ExtentRecord, ForkRecord, OutOfMemory, Units};
use overflow::{OverflowRecord, count_blocks, eight_extents, leave_out_unused, split};
use std::alloc::Global;

/// The pairs of a value of so many bytes in these blocks, in the order of their keys: each record but the last is full, and says how many blocks stand before it.
pub(crate) fn fork_pairs(
    alloc: Global,
    id: u32,
    name: &Units,
    size: u64,
    fork: &ExtentList,
) -> Result<Vec<AttributePair>, OutOfMemory>
    requires name { length name.now ≤ 127 }
    requires blocks { length (blocks_of fork.now) ≤ 256 }
    ensures { IfOk result (λ pairs. SpellParts id name.now (parts_of size (in_use fork.now)) pairs.items) }
{
    let used = leave_out_unused(alloc, fork)?;
    let further = split(alloc, used.as_slice())?;
    let mut pairs = Vec::new(alloc);
    pairs.push(first_pair(alloc, id, name, first_record(size, &used))?)?;
    for more in further.as_slice() {
        let pair = further_pair(alloc, id, name, *more)?;
        pairs.push(pair)?;
    }
    Ok(pairs)
}

/// The fork of a value of so many bytes in these extents, of which it has the first eight.
fn first_record(size: u64, used: &ExtentList) -> ForkRecord
    requires few { length used.now ≤ 256 }
    requires blocks { length (blocks_of used.now) ≤ 256 }
    ensures { result ≡ fork_of size used.now }
{
    ForkRecord {
        logical_size: size,
        clump_size: 0,
        total_blocks: count_blocks(used.as_slice()) as u32,
        extents: eight_extents(used.as_slice(), 0),
    }
}

/// The pair of the first record of a value in a fork.
fn first_pair(
    alloc: Global,
    id: u32,
    name: &Units,
    fork: ForkRecord,
) -> Result<AttributePair, OutOfMemory>
    requires { length name.now ≤ 127 }
    ensures { IfOk result (λ pair. SpellsPart id name.now (record { start = 0; value = Fork fork }) pair) }
{
    fork_fits(&fork);
    let pair = record_pair(alloc, id, name, 0, &AttrRecord::Fork(fork))?;
    Ok(pair)
}

/// The pair of a further record of such a value.
fn further_pair(
    alloc: Global,
    id: u32,
    name: &Units,
    more: OverflowRecord,
) -> Result<AttributePair, OutOfMemory>
    requires { length name.now ≤ 127 }
    ensures { IfOk result (λ pair. SpellsPart id name.now (further_part more) pair) }
{
    extents_fit(&more.extents);
    let pair = record_pair(alloc, id, name, more.start, &AttrRecord::More(more.extents))?;
    Ok(pair)
}

/// The numbers of a fork fit their bits: what the type says, for proofs.
fn fork_fits(fork: &ForkRecord)
    ensures { FitsFork fork.now }
{
    let _size = fork.logical_size;
    let _clump = fork.clump_size;
    let _total = fork.total_blocks;
    extents_fit(&fork.extents);
}

/// So do those of eight extents.
fn extents_fit(extents: &ExtentRecord)
    ensures { FitsExtents extents.now }
{
    let _eight = extents.extents.iter();
    for extent in &extents.extents {
        extent_fits(*extent);
    }
}

/// So do those of an extent.
fn extent_fits(extent: Extent)
    ensures { FitsExtent extent }
{
    let _start = extent.start;
    let _count = extent.count;
}
