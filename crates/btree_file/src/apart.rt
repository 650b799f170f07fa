//! Whether no block stands in two extents of a list.
ghost use Rattle.std.specs.Prelude.{◌≡◌, ◌<◌, ◌+◌, ◌↔◌, ℕ, IsTrue, length, slice_index_or};
ghost use Rattle.hx_bytes.specs.declared.extents.Extent.{Extent};
ghost use Rattle.btree_file.specs.Apart.{Meet, NoneMeet};
ghost use Rattle.btree_file.specs.Place.{AreApart};
ghost use Rattle.fork_map.specs.Blocks.{fork_sectors};

use hx_bytes::Extent;

/// Whether two extents have a block in common.
fn meets(first: Extent, second: Extent) -> bool
    ensures { IsTrue result ↔ Meet first second }
{
    let first_end = u64::from(first.start) + u64::from(first.count);
    let second_end = u64::from(second.start) + u64::from(second.count);
    first.count > 0
        && second.count > 0
        && u64::from(first.start) < second_end
        && u64::from(second.start) < first_end
}

/// Whether an extent has a block in common with none of these.
fn meets_none(extents: &[Extent], one: Extent) -> bool
    ensures { IsTrue result ↔ ((k : ℕ) (d : Extent) → k < length extents.now → Meet (slice_index_or extents.now k d) one → ⊥) }
{
    for extent in extents {
        if meets(*extent, one) {
            return false;
        }
    }
    true
}

/// Whether no two of these extents have a block in common.
pub(crate) fn are_apart(extents: &[Extent]) -> bool
    ensures { IsTrue result ↔ NoneMeet extents.now }
{
    for i in 0..extents.len() {
        if !meets_none(&extents[..i], extents[i]) {
            return false;
        }
    }
    true
}

/// Whether the sectors of a fork differ.
pub(crate) fn sectors_differ(extents: &[Extent], per_block: u32) -> bool
    requires { 0 < per_block }
    ensures { IsTrue result ↔ AreApart (fork_sectors extents.now per_block) }
{
    let _per_block = per_block;
    are_apart(extents)
}
