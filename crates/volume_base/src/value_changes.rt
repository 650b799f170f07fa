//! What a command does to the values of attributes that stand in blocks.
ghost use Rattle.std.specs.Prelude.{◌≡◌, ◌≤◌, ◌<◌, ◌+◌, ◌^◌, false, nat_lt, not, IsTrue, IfOk, length};
ghost use Rattle.attributes.specs.Owned.{names_of};
ghost use Rattle.fork_map.specs.Blocks.{blocks_of};
ghost use Rattle.hfs_volume.specs.Content.{has_attributes, volume_of};
ghost use Rattle.hfs_volume.specs.Values.{longest_inline};
ghost use Rattle.hfs_volume.specs.Weight.{blocks_for_value, value_change};
ghost use Rattle.volume_base.specs.Frame.{Looked, Serves};
ghost use Rattle.volume_base.specs.Lists.{lists_of};
ghost use Rattle.volume_base.specs.Weighing.{AreUsual};
ghost use Rattle.volume_base.specs.Values.{AreFew, change_of, freed_by, values_owned};

use crate::room::count_extents;
use crate::volume::Volume;
use attributes::ValueAt;
use btree_file::TreeFile;
use file_io::blocks_in;
use fork_map::ExtentList;
use hfs_volume::ValueChange;
use hx_bytes::{Trouble, Units};
use sector_disk::SectorSpace;
use std::alloc::Global;
use volume_cost::count_overflow;

/// The attributes that a folder goes with: how many, and what becomes of their values.
#[derive(Clone, Copy)]
pub struct OwnedValues {
    pub count: u32,
    pub change: ValueChange,
}

/// The most bytes of a value that is written into its record.
const LONGEST_INLINE: usize = 1_700;

/// Whether a value of so many bytes is written into its record.
pub fn is_short(long: usize) -> bool
    ensures { result ≡ not (nat_lt longest_inline long) }
{
    long <= LONGEST_INLINE
}

/// How many blocks of this size a value of so many bytes takes: none where it is written into its record.
pub fn blocks_for_value(block: u32, long: usize) -> u64
    requires block { 0 < block }
    requires long { long ≤ 131072 }
    ensures exact { result ≡ blocks_for_value block long }
    ensures few { result ≤ 131072 }
{
    if is_short(long) {
        return 0;
    }
    (long as u64 + u64::from(block) - 1) / u64::from(block)
}

/// The change by which a value in these extents goes, and one of so many blocks comes.
fn freed_by(fork: &ExtentList, blocks: u64) -> ValueChange
    ensures { length (blocks_of fork.now) < 2 ^ 32 → length fork.now < 2 ^ 32 → result ≡ freed_by fork.now blocks }
{
    ValueChange {
        records: count_overflow(u64::from(count_extents(fork))),
        freed: blocks_in(fork.as_slice()),
        blocks,
    }
}

/// The change by which a value goes, if there is one, and one of so many blocks comes.
fn change_of(found: Option<ValueAt>, blocks: u64) -> ValueChange
    ensures { AreFew found → result ≡ change_of found blocks }
{
    match found {
        Some(ValueAt::Blocks { size: _size, fork }) => freed_by(&fork, blocks),
        Some(ValueAt::Inline(_value)) => ValueChange {
            records: 0,
            freed: 0,
            blocks,
        },
        None => ValueChange {
            records: 0,
            freed: 0,
            blocks,
        },
    }
}

/// Two changes as one.
fn together(first: ValueChange, second: ValueChange) -> ValueChange
    ensures { first.records + second.records < 2 ^ 64 → first.freed + second.freed < 2 ^ 64 → first.blocks + second.blocks < 2 ^ 64
        → result ≡ record { records = first.records + second.records; freed = first.freed + second.freed; blocks = first.blocks + second.blocks } }
{
    ValueChange {
        records: first.records.saturating_add(second.records),
        freed: first.freed.saturating_add(second.freed),
        blocks: first.blocks.saturating_add(second.blocks),
    }
}

/// A change of one value, with numbers such as a volume's: in a sound volume they are the change's own.
fn usual_change(change: ValueChange) -> ValueChange
    ensures usual { AreUsual 2 result }
    ensures same { change.records ≤ 4294950909 → change.freed < 2 ^ 32 → change.blocks ≤ 131072 → result ≡ change }
{
    ValueChange {
        records: change.records.min(0xFFFF_BFFD),
        freed: change.freed.min(0xFFFF_FFFF),
        blocks: change.blocks.min(131_072),
    }
}

/// How many records a tree has, by its header record.
fn count_records(tree: &TreeFile) -> u32
    ensures { result ≡ tree.now.shape.leaf_records }
{
    tree.shape().leaf_records
}

/// The change by which the values of so many attributes go, with numbers such as a volume's: in a sound volume they are the change's own.
fn usual_loss(count: u32, gone: ValueChange) -> ValueChange
    ensures usual { AreUsual count result }
    ensures none { result.blocks ≡ 0 }
    ensures same { count + gone.records < 2 ^ 32 → gone.freed < 2 ^ 32 → (result.records ≡ gone.records) × (result.freed ≡ gone.freed) }
{
    ValueChange {
        records: gone.records.min(u64::from(0xFFFF_FFFF - count)),
        freed: gone.freed.min(0xFFFF_FFFF),
        blocks: 0,
    }
}

impl Volume {
    /// What a command does to values by which an attribute of a folder or file gets a value of so many blocks; or goes, with none.
    pub fn value_change<P: SectorSpace>(
        &mut self,
        alloc: Global,
        space: &mut P,
        id: u32,
        name: &Units,
        blocks: u64,
    ) -> Result<ValueChange, Trouble>
        requires serves { Serves self.old (P.SectorView.space space.old) }
        requires name { length name.now ≤ 127 }
        ensures change { IsTrue (P.SectorView.space space.old).tells → IfOk result (λ change. change ≡ value_change (volume_of (P.SectorView.space space.old).content) id name.now blocks) }
        ensures usual { IfOk result (λ change. AreUsual 2 change) }
        ensures looked { Looked P.SectorView.space P.SectorView.follows self.old self.new space.old space.new result }
        ensures serves { Serves self.new (P.SectorView.space space.new) }
    {
        let found = self.value(alloc, space, id, name)?;
        // No value takes more.
        if blocks > 131_072 {
            return Err(Trouble::Memory);
        }
        Ok(usual_change(change_of(found, blocks)))
    }

    /// What becomes of the values of these attributes of a folder, which go.
    fn values_gone<P: SectorSpace>(
        &mut self,
        alloc: Global,
        space: &mut P,
        id: u32,
        names: &[Units],
    ) -> Result<ValueChange, Trouble>
        requires serves { Serves self.old (P.SectorView.space space.old) }
        requires listed { IsTrue (P.SectorView.space space.old).tells → names.now ≡ names_of id (lists_of self.old (P.SectorView.space space.old).content).attribute_pairs }
        requires few { length names.now < 2 ^ 32 }
        ensures change { IsTrue (P.SectorView.space space.old).tells → IfOk result (λ change. change ≡ values_owned (volume_of (P.SectorView.space space.old).content) id) }
        ensures none { length names.now ≡ 0 → IfOk result (λ change. change ≡ record { records = 0; freed = 0; blocks = 0 }) }
        ensures looked { Looked P.SectorView.space P.SectorView.follows self.old self.new space.old space.new result }
        ensures serves { Serves self.new (P.SectorView.space space.new) }
    {
        let mut all = ValueChange {
            records: 0,
            freed: 0,
            blocks: 0,
        };
        for name in names {
            // No name is longer (TN1150, "Attributes File").
            if name.len() > 127 {
                return Err(Trouble::Memory);
            }
            let one = self.value_change(alloc, space, id, name, 0)?;
            all = together(all, one);
        }
        Ok(all)
    }

    /// The attributes that a folder goes with.
    pub fn owned_values<P: SectorSpace>(
        &mut self,
        alloc: Global,
        space: &mut P,
        id: u32,
    ) -> Result<OwnedValues, Trouble>
        requires serves { Serves self.old (P.SectorView.space space.old) }
        ensures counted { IsTrue (P.SectorView.space space.old).tells → IfOk result (λ owned. owned.count ≡ length (names_of id (lists_of self.old (P.SectorView.space space.old).content).attribute_pairs)) }
        ensures change { IsTrue (P.SectorView.space space.old).tells → IfOk result (λ owned. owned.change ≡ values_owned (volume_of (P.SectorView.space space.old).content) id) }
        ensures usual { IfOk result (λ owned. AreUsual owned.count owned.change) }
        // No value comes.
        ensures gone { IfOk result (λ owned. owned.change.blocks ≡ 0) }
        // A volume without an attributes file has none.
        ensures none { has_attributes self.old.header ≡ false → IfOk result (λ owned. owned ≡ record { count = 0; change = record { records = 0; freed = 0; blocks = 0 } }) }
        ensures looked { Looked P.SectorView.space P.SectorView.follows self.old self.new space.old space.new result }
        ensures serves { Serves self.new (P.SectorView.space space.new) }
    {
        let names = self.list_attributes(alloc, space, id)?;
        // A tree has no more names than records.
        let records = count_records(&self.attributes.file);
        let count = names.len().min(records as usize);
        let gone = self.values_gone(alloc, space, id, &names.as_slice()[..count])?;
        Ok(OwnedValues {
            count: count as u32,
            change: usual_loss(count as u32, gone),
        })
    }
}
