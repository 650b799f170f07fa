//! Extents in use, and whether they lie in a space.
ghost use Rattle.std.specs.Prelude.{◌≡◌, ◌++◌, true, IfOk, OnOk};
ghost use Rattle.std.specs.List.{list_all};
ghost use Rattle.hfs_volume.specs.Forks.{in_use};
ghost use Rattle.volume_base.specs.Opening.{ends_inside};

use fork_map::ExtentList;
use hx_bytes::{Extent, ExtentRecord, OutOfMemory};
use std::alloc::Global;

/// Adds the extents that have blocks to a list.
fn push_used(list: &mut ExtentList, extents: &[Extent]) -> Result<(), OutOfMemory>
    ensures { OnOk result (list.new ≡ list.old ++ in_use extents.now) }
{
    for extent in extents {
        if extent.count != 0 {
            list.push(*extent)?;
        }
    }
    Ok(())
}

/// The extents of a record that have blocks.
pub(crate) fn extents_in_use(alloc: Global, eight: &ExtentRecord) -> Result<ExtentList, OutOfMemory>
    ensures { IfOk result (λ list. list ≡ in_use eight.now.extents) }
{
    let mut list = ExtentList::new(alloc);
    push_used(&mut list, &eight.extents)?;
    Ok(list)
}

/// Whether an extent ends in so many sectors, where a block has so many.
fn ends_inside(extent: Extent, per_block: u32, sectors: u64) -> bool
    ensures { result ≡ ends_inside per_block sectors extent }
{
    extent.count == 0
        || (u128::from(extent.start) + u128::from(extent.count)) * u128::from(per_block)
            <= u128::from(sectors)
}

/// Whether these extents end in so many sectors.
pub fn all_inside(extents: &[Extent], per_block: u32, sectors: u64) -> bool
    ensures { result ≡ list_all (ends_inside per_block sectors) extents.now }
{
    extents
        .iter()
        .all(|extent| ends_inside(*extent, per_block, sectors))
}

/// These extents, or none where one of them ends outside.
pub(crate) fn inside_or_none(
    alloc: Global,
    extents: ExtentList,
    per_block: u32,
    sectors: u64,
) -> ExtentList
    ensures inside { list_all (ends_inside per_block sectors) result ≡ true }
    ensures same { list_all (ends_inside per_block sectors) extents ≡ true → result ≡ extents }
{
    if all_inside(extents.as_slice(), per_block, sectors) {
        extents
    } else {
        ExtentList::new(alloc)
    }
}
