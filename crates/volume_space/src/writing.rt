//! `write` of bytes and `trunc` to a larger size: data is put into a file.
ghost use Rattle.std.specs.Prelude.{◌≡◌, ◌<◌, ◌≤◌, ◌+◌, ℕ, List, Ok, Some, false, true, IsTrue, IfNone, IfOk, IfSome, OnOk};
ghost use Rattle.std.specs.List.{Contains};
ghost use Rattle.sector_disk.specs.Lists.{Content};
ghost use Rattle.sector_disk.specs.Space.{SameSpace};
ghost use Rattle.alloc_bitmap.specs.Map.{free_of};
ghost use Rattle.btree_edit.specs.Causes.{HasTroubleCause};
ghost use Rattle.hfs_language.specs.Written.{FitsPath};
ghost use Rattle.hfs_language.specs.declared.command.Command.TheVariants as command;
ghost use Rattle.hfs_language.specs.declared.reply.Reply.TheVariants as reply;
ghost use Rattle.hfs_model.specs.Step.{is_refusal, refuses, step_line};
ghost use Rattle.hfs_volume.specs.Aside.{IsJournalSector};
ghost use Rattle.hfs_volume.specs.Content.{volume_of};
ghost use Rattle.hfs_volume.specs.TreeOf.{tree_of};
ghost use Rattle.hfs_volume.specs.Weight.{data_of, weight_with};
ghost use Rattle.hfs_volume.specs.declared.cost.Cost.TheVariants as cost;
ghost use Rattle.volume_base.specs.Keeping.{shrunk_of};
ghost use Rattle.volume_base.specs.Refusing.{facts_or};
ghost use Rattle.volume_base.specs.Room.{capacity_of};
ghost use Rattle.volume_base.specs.Service.{IsInService};
ghost use Rattle.volume_base.specs.Holding.{IsLaidOutAs};
ghost use Rattle.volume_base.specs.Holding.{HoldsOn};
ghost use Rattle.volume_base.specs.Standing.{IsSettled, StandsOver, own_sectors};
ghost use Rattle.volume_base.specs.Touching.{Touches};
ghost use Rattle.volume_space.specs.Writing.{HasData, is_data_met, is_put_now};
ghost use Rattle.volume_space.specs.Zeroing.{HasFilled};

use crate::putting::put_data;
use hfs_language::{Facts, Path, Reply};
use hfs_volume::{rewrite_puts_its_blocks_alone, trunc_does_its_step, write_does_its_step};
use hx_bytes::Trouble;
use sector_disk::SectorSpace;
use std::alloc::Global;
use volume_base::{ForkKind, Volume, against_trunc, against_write};

/// Whether so many bytes are none.
fn is_nothing(long: usize) -> bool
    ensures none { IsTrue result → long ≡ 0 }
    ensures some { result ≡ false → 0 < long }
{
    if long > 0 {
        return false;
    }
    true
}

/// Whether a size isn't larger than another.
fn is_no_longer(size: u64, old: u64) -> bool
    ensures short { IsTrue result → size ≤ old }
    ensures long { result ≡ false → old < size }
{
    if old < size {
        return false;
    }
    true
}

/// The same for the file of which this is told, or what stands against it.
fn write_told<P: SectorSpace>(
    volume: &mut Volume,
    alloc: Global,
    space: &mut P,
    _path: &Path,
    told: &Facts,
    from: u64,
    value: &[u8],
) -> Result<Option<Reply>, Trouble>
    requires stands { StandsOver volume.old (P.SectorView.space space.old) }
    requires settled { IsTrue (P.SectorView.space space.old).tells → IsSettled volume.old (P.SectorView.space space.old).content }
    requires filled { HasFilled volume.old (P.SectorView.space space.old) }
    requires closed { IsTrue (P.SectorView.space space.old).tells → (at : ℕ) → (P.SectorView.space space.old).closed at → IsJournalSector (P.SectorView.space space.old).content at }
    requires told { IsTrue (P.SectorView.space space.old).tells → Ok told.now ≡ facts_or (step_line (tree_of (P.SectorView.space space.old).content) (Ok (command.Stat _path.now))).0 }
    ensures filled { OnOk result (HasFilled volume.new (P.SectorView.space space.new)) }
    ensures reply { IsTrue (P.SectorView.space space.old).tells → IfOk result (λ said. IfSome said (λ reply. reply ≡ (step_line (tree_of (P.SectorView.space space.old).content) (Ok (command.Write _path.now from value.now))).0)) }
    ensures tree { IsTrue (P.SectorView.space space.old).tells → IfOk result (λ said. IfSome said (λ reply. tree_of (P.SectorView.space space.new).content ≡ (step_line (tree_of (P.SectorView.space space.old).content) (Ok (command.Write _path.now from value.now))).1)) }
    ensures refused { IsTrue (P.SectorView.space space.old).tells → IfOk result (λ said. IfSome said (λ reply. is_refusal reply ≡ true → (P.SectorView.space space.new).content ≡ (P.SectorView.space space.old).content)) }
    ensures lists { IsTrue (P.SectorView.space space.old).tells → IfOk result (λ said. said ≡ Some reply.Ok → HasData (command.Write _path.now from value.now) (P.SectorView.space space.old).content (P.SectorView.space space.new).content) }
    ensures waits { IsTrue (P.SectorView.space space.old).tells → IfOk result (λ said. IfNone said ((P.SectorView.space space.new).content ≡ (P.SectorView.space space.old).content)) }
    ensures waiting { IsTrue (P.SectorView.space space.old).tells → IfOk result (λ said. IfNone said (refuses (tree_of (P.SectorView.space space.old).content) (Ok (command.Write _path.now from value.now)) ≡ false)) }
    ensures exactly { IsTrue (P.SectorView.space space.old).tells → IfOk result (λ said. IfNone said (is_put_now volume.old (P.SectorView.space space.old).spare (volume_of (P.SectorView.space space.old).content) (data_of (tree_of (P.SectorView.space space.old).content) (command.Write _path.now from value.now)) ≡ false)) }
    ensures met { IsTrue (P.SectorView.space space.old).tells → IfOk result (λ said. IfNone said (is_data_met volume.old (P.SectorView.space space.old).spare (volume_of (P.SectorView.space space.old).content) (data_of (tree_of (P.SectorView.space space.old).content) (command.Write _path.now from value.now)) ≡ false)) }
    ensures same { (volume.new.private ≡ volume.old.private) × (volume.new.shrunk ≡ volume.old.shrunk) × (volume.new.capacity ≡ volume.old.capacity) }
    ensures stands { OnOk result (StandsOver volume.new (P.SectorView.space space.new)) }
    ensures settled { IsTrue (P.SectorView.space space.old).tells → OnOk result (IsSettled volume.new (P.SectorView.space space.new).content) }
    ensures service { IsInService volume.new (P.SectorView.space space.new) }
    ensures holds { (committed : Content) → HoldsOn committed volume.old → OnOk result (HoldsOn committed volume.new) }
    ensures touches { (committed : Content) → HoldsOn committed volume.old → IsLaidOutAs committed volume.old → Touches committed (λ s. Contains (own_sectors volume.old) s) (P.SectorView.space space.old) (P.SectorView.space space.new) }
    ensures loads { IsTrue (P.SectorView.space space.old).tells → (n : ℕ) (grow : List ℕ) → weight_with volume.old.capacity (free_of volume.old.map) (volume_of (P.SectorView.space space.old).content) (tree_of (P.SectorView.space space.old).content) (command.Write _path.now from value.now) ≡ cost.Load n grow
        → (P.SectorView.space space.old).spare ≤ (P.SectorView.space space.new).spare + n }
    ensures space { SameSpace (P.SectorView.space space.old) (P.SectorView.space space.new) }
    ensures below { P.SectorView.follows space.old space.new }
    ensures cause { HasTroubleCause (P.SectorView.space space.old).faults (P.SectorView.space space.new).faults result }
{
    write_does_its_step();
    rewrite_puts_its_blocks_alone();
    if let Some(why) = against_write(from, value.len(), told) {
        return Ok(Some(Reply::No(why)));
    }
    if is_nothing(value.len()) {
        return Ok(None);
    }
    let put = put_data(volume, alloc, space, told.id, ForkKind::Data, from, value)?;
    if put {
        return Ok(Some(Reply::Ok));
    }
    Ok(None)
}

/// The same for the file of which this is told, or what stands against it: a zero is written where its last byte will be.
fn lengthen_told<P: SectorSpace>(
    volume: &mut Volume,
    alloc: Global,
    space: &mut P,
    _path: &Path,
    told: &Facts,
    size: u64,
) -> Result<Option<Reply>, Trouble>
    requires stands { StandsOver volume.old (P.SectorView.space space.old) }
    requires settled { IsTrue (P.SectorView.space space.old).tells → IsSettled volume.old (P.SectorView.space space.old).content }
    requires filled { HasFilled volume.old (P.SectorView.space space.old) }
    requires closed { IsTrue (P.SectorView.space space.old).tells → (at : ℕ) → (P.SectorView.space space.old).closed at → IsJournalSector (P.SectorView.space space.old).content at }
    requires told { IsTrue (P.SectorView.space space.old).tells → Ok told.now ≡ facts_or (step_line (tree_of (P.SectorView.space space.old).content) (Ok (command.Stat _path.now))).0 }
    ensures filled { OnOk result (HasFilled volume.new (P.SectorView.space space.new)) }
    ensures reply { IsTrue (P.SectorView.space space.old).tells → IfOk result (λ said. IfSome said (λ reply. reply ≡ (step_line (tree_of (P.SectorView.space space.old).content) (Ok (command.Trunc _path.now size))).0)) }
    ensures tree { IsTrue (P.SectorView.space space.old).tells → IfOk result (λ said. IfSome said (λ reply. tree_of (P.SectorView.space space.new).content ≡ (step_line (tree_of (P.SectorView.space space.old).content) (Ok (command.Trunc _path.now size))).1)) }
    ensures refused { IsTrue (P.SectorView.space space.old).tells → IfOk result (λ said. IfSome said (λ reply. is_refusal reply ≡ true → (P.SectorView.space space.new).content ≡ (P.SectorView.space space.old).content)) }
    ensures lists { IsTrue (P.SectorView.space space.old).tells → IfOk result (λ said. said ≡ Some reply.Ok → HasData (command.Trunc _path.now size) (P.SectorView.space space.old).content (P.SectorView.space space.new).content) }
    ensures waits { IsTrue (P.SectorView.space space.old).tells → IfOk result (λ said. IfNone said ((P.SectorView.space space.new).content ≡ (P.SectorView.space space.old).content)) }
    ensures waiting { IsTrue (P.SectorView.space space.old).tells → IfOk result (λ said. IfNone said (refuses (tree_of (P.SectorView.space space.old).content) (Ok (command.Trunc _path.now size)) ≡ false)) }
    ensures exactly { IsTrue (P.SectorView.space space.old).tells → IfOk result (λ said. IfNone said (is_put_now volume.old (P.SectorView.space space.old).spare (volume_of (P.SectorView.space space.old).content) (data_of (tree_of (P.SectorView.space space.old).content) (command.Trunc _path.now size)) ≡ false)) }
    ensures met { IsTrue (P.SectorView.space space.old).tells → IfOk result (λ said. IfNone said (is_data_met volume.old (P.SectorView.space space.old).spare (volume_of (P.SectorView.space space.old).content) (data_of (tree_of (P.SectorView.space space.old).content) (command.Trunc _path.now size)) ≡ false)) }
    ensures same { (volume.new.private ≡ volume.old.private) × (volume.new.shrunk ≡ volume.old.shrunk) × (volume.new.capacity ≡ volume.old.capacity) }
    ensures stands { OnOk result (StandsOver volume.new (P.SectorView.space space.new)) }
    ensures settled { IsTrue (P.SectorView.space space.old).tells → OnOk result (IsSettled volume.new (P.SectorView.space space.new).content) }
    ensures service { IsInService volume.new (P.SectorView.space space.new) }
    ensures holds { (committed : Content) → HoldsOn committed volume.old → OnOk result (HoldsOn committed volume.new) }
    ensures touches { (committed : Content) → HoldsOn committed volume.old → IsLaidOutAs committed volume.old → Touches committed (λ s. Contains (own_sectors volume.old) s) (P.SectorView.space space.old) (P.SectorView.space space.new) }
    ensures loads { IsTrue (P.SectorView.space space.old).tells → (n : ℕ) (grow : List ℕ) → weight_with volume.old.capacity (free_of volume.old.map) (volume_of (P.SectorView.space space.old).content) (tree_of (P.SectorView.space space.old).content) (command.Trunc _path.now size) ≡ cost.Load n grow
        → (P.SectorView.space space.old).spare ≤ (P.SectorView.space space.new).spare + n }
    ensures space { SameSpace (P.SectorView.space space.old) (P.SectorView.space space.new) }
    ensures below { P.SectorView.follows space.old space.new }
    ensures cause { HasTroubleCause (P.SectorView.space space.old).faults (P.SectorView.space space.new).faults result }
{
    trunc_does_its_step();
    rewrite_puts_its_blocks_alone();
    if let Some(why) = against_trunc(size, told) {
        return Ok(Some(Reply::No(why)));
    }
    if is_no_longer(size, told.size) {
        return Ok(None);
    }
    let put = put_data(
        volume,
        alloc,
        space,
        told.id,
        ForkKind::Data,
        size - 1,
        &[0],
    )?;
    if put {
        return Ok(Some(Reply::Ok));
    }
    Ok(None)
}

/// `write` of a byte or more: the file that a path stands for has the value from a place on, with zeros in a gap before it, in blocks that
/// were free, which stand in place of those that it had there; it is dated by the volume's moment; or the first reason against it is told.
/// Nothing is told and nothing done where the value has no byte, where the file grows and has blocks past its size, and where free
/// blocks are wanting, or room for what is put. A refused command changes nothing. `Memory` comes where memory is wanting, `Disk` where a read failed.
pub fn write<P: SectorSpace>(
    volume: &mut Volume,
    alloc: Global,
    space: &mut P,
    path: &Path,
    from: u64,
    value: &[u8],
) -> Result<Option<Reply>, Trouble>
    requires stands { StandsOver volume.old (P.SectorView.space space.old) }
    requires settled { IsTrue (P.SectorView.space space.old).tells → IsSettled volume.old (P.SectorView.space space.old).content }
    requires filled { HasFilled volume.old (P.SectorView.space space.old) }
    requires fits { FitsPath path.now }
    // Only the journal's sectors are closed.
    requires closed { IsTrue (P.SectorView.space space.old).tells → (at : ℕ) → (P.SectorView.space space.old).closed at → IsJournalSector (P.SectorView.space space.old).content at }
    // Told, reply and tree are those of the plain tree's step.
    ensures filled { OnOk result (HasFilled volume.new (P.SectorView.space space.new)) }
    ensures reply { IsTrue (P.SectorView.space space.old).tells → IfOk result (λ said. IfSome said (λ reply. reply ≡ (step_line (tree_of (P.SectorView.space space.old).content) (Ok (command.Write path.now from value.now))).0)) }
    ensures tree { IsTrue (P.SectorView.space space.old).tells → IfOk result (λ said. IfSome said (λ reply. tree_of (P.SectorView.space space.new).content ≡ (step_line (tree_of (P.SectorView.space space.old).content) (Ok (command.Write path.now from value.now))).1)) }
    ensures refused { IsTrue (P.SectorView.space space.old).tells → IfOk result (λ said. IfSome said (λ reply. is_refusal reply ≡ true → (P.SectorView.space space.new).content ≡ (P.SectorView.space space.old).content)) }
    // Where it isn't refused, the file has the data in the content's lists, and nothing else of them is changed.
    ensures lists { IsTrue (P.SectorView.space space.old).tells → IfOk result (λ said. said ≡ Some reply.Ok → HasData (command.Write path.now from value.now) (P.SectorView.space space.old).content (P.SectorView.space space.new).content) }
    // Nothing is answered exactly where the step doesn't refuse it, and the data can't be put now, nor is met by what it costs; and then nothing is changed.
    ensures waits { IsTrue (P.SectorView.space space.old).tells → IfOk result (λ said. IfNone said ((P.SectorView.space space.new).content ≡ (P.SectorView.space space.old).content)) }
    ensures waiting { IsTrue (P.SectorView.space space.old).tells → IfOk result (λ said. IfNone said (refuses (tree_of (P.SectorView.space space.old).content) (Ok (command.Write path.now from value.now)) ≡ false)) }
    ensures exactly { IsTrue (P.SectorView.space space.old).tells → IfOk result (λ said. IfNone said (is_put_now volume.old (P.SectorView.space space.old).spare (volume_of (P.SectorView.space space.old).content) (data_of (tree_of (P.SectorView.space space.old).content) (command.Write path.now from value.now)) ≡ false)) }
    ensures met { IsTrue (P.SectorView.space space.old).tells → IfOk result (λ said. IfNone said (is_data_met volume.old (P.SectorView.space space.old).spare (volume_of (P.SectorView.space space.old).content) (data_of (tree_of (P.SectorView.space space.old).content) (command.Write path.now from value.now)) ≡ false)) }
    ensures shrunk { shrunk_of volume.new ≡ shrunk_of volume.old }
    ensures capacity { capacity_of volume.new ≡ capacity_of volume.old }
    ensures stands { OnOk result (StandsOver volume.new (P.SectorView.space space.new)) }
    ensures settled { IsTrue (P.SectorView.space space.old).tells → OnOk result (IsSettled volume.new (P.SectorView.space space.new).content) }
    ensures service { IsInService volume.new (P.SectorView.space space.new) }
    // No block that a content has in use is lost.
    ensures holds { (committed : Content) → HoldsOn committed volume.old → OnOk result (HoldsOn committed volume.new) }
    // On a fault too, it puts sectors of its own alone, and spills into blocks that were free at the last commit.
    ensures touches { (committed : Content) → HoldsOn committed volume.old → IsLaidOutAs committed volume.old → Touches committed (λ s. Contains (own_sectors volume.old) s) (P.SectorView.space space.old) (P.SectorView.space space.new) }
    // What its load names bounds the sectors that it puts, on a fault too.
    ensures loads { IsTrue (P.SectorView.space space.old).tells → (n : ℕ) (grow : List ℕ) → weight_with (capacity_of volume.old) (free_of volume.old.map) (volume_of (P.SectorView.space space.old).content) (tree_of (P.SectorView.space space.old).content) (command.Write path.now from value.now) ≡ cost.Load n grow
        → (P.SectorView.space space.old).spare ≤ (P.SectorView.space space.new).spare + n }
    ensures same { SameSpace (P.SectorView.space space.old) (P.SectorView.space space.new) }
    ensures below { P.SectorView.follows space.old space.new }
    ensures cause { HasTroubleCause (P.SectorView.space space.old).faults (P.SectorView.space space.new).faults result }
{
    match volume.facts(alloc, space, path)? {
        Ok(told) => write_told(volume, alloc, space, path, &told, from, value),
        Err(why) => Ok(Some(Reply::No(why))),
    }
}

/// `trunc` to a larger size than a file has: the file that a path stands for has this size, with zeros behind its bytes, in blocks that were
/// free, the first of them in place of its last one where this isn't full; it is dated by the volume's moment; or the first reason against
/// it is told. Nothing is told and nothing done where the size isn't larger, and where `write` tells nothing. A refused command changes
/// nothing. `Memory` comes where memory is wanting, `Disk` where a read failed.
pub fn lengthen<P: SectorSpace>(
    volume: &mut Volume,
    alloc: Global,
    space: &mut P,
    path: &Path,
    size: u64,
) -> Result<Option<Reply>, Trouble>
    requires stands { StandsOver volume.old (P.SectorView.space space.old) }
    requires settled { IsTrue (P.SectorView.space space.old).tells → IsSettled volume.old (P.SectorView.space space.old).content }
    requires filled { HasFilled volume.old (P.SectorView.space space.old) }
    requires fits { FitsPath path.now }
    // Only the journal's sectors are closed.
    requires closed { IsTrue (P.SectorView.space space.old).tells → (at : ℕ) → (P.SectorView.space space.old).closed at → IsJournalSector (P.SectorView.space space.old).content at }
    // Told, reply and tree are those of the plain tree's step.
    ensures filled { OnOk result (HasFilled volume.new (P.SectorView.space space.new)) }
    ensures reply { IsTrue (P.SectorView.space space.old).tells → IfOk result (λ said. IfSome said (λ reply. reply ≡ (step_line (tree_of (P.SectorView.space space.old).content) (Ok (command.Trunc path.now size))).0)) }
    ensures tree { IsTrue (P.SectorView.space space.old).tells → IfOk result (λ said. IfSome said (λ reply. tree_of (P.SectorView.space space.new).content ≡ (step_line (tree_of (P.SectorView.space space.old).content) (Ok (command.Trunc path.now size))).1)) }
    ensures refused { IsTrue (P.SectorView.space space.old).tells → IfOk result (λ said. IfSome said (λ reply. is_refusal reply ≡ true → (P.SectorView.space space.new).content ≡ (P.SectorView.space space.old).content)) }
    // Where it isn't refused, the file has the data in the content's lists, and nothing else of them is changed.
    ensures lists { IsTrue (P.SectorView.space space.old).tells → IfOk result (λ said. said ≡ Some reply.Ok → HasData (command.Trunc path.now size) (P.SectorView.space space.old).content (P.SectorView.space space.new).content) }
    // Nothing is answered exactly where the step doesn't refuse it, and the data can't be put now, nor is met by what it costs; and then nothing is changed.
    ensures waits { IsTrue (P.SectorView.space space.old).tells → IfOk result (λ said. IfNone said ((P.SectorView.space space.new).content ≡ (P.SectorView.space space.old).content)) }
    ensures waiting { IsTrue (P.SectorView.space space.old).tells → IfOk result (λ said. IfNone said (refuses (tree_of (P.SectorView.space space.old).content) (Ok (command.Trunc path.now size)) ≡ false)) }
    ensures exactly { IsTrue (P.SectorView.space space.old).tells → IfOk result (λ said. IfNone said (is_put_now volume.old (P.SectorView.space space.old).spare (volume_of (P.SectorView.space space.old).content) (data_of (tree_of (P.SectorView.space space.old).content) (command.Trunc path.now size)) ≡ false)) }
    ensures met { IsTrue (P.SectorView.space space.old).tells → IfOk result (λ said. IfNone said (is_data_met volume.old (P.SectorView.space space.old).spare (volume_of (P.SectorView.space space.old).content) (data_of (tree_of (P.SectorView.space space.old).content) (command.Trunc path.now size)) ≡ false)) }
    ensures shrunk { shrunk_of volume.new ≡ shrunk_of volume.old }
    ensures capacity { capacity_of volume.new ≡ capacity_of volume.old }
    ensures stands { OnOk result (StandsOver volume.new (P.SectorView.space space.new)) }
    ensures settled { IsTrue (P.SectorView.space space.old).tells → OnOk result (IsSettled volume.new (P.SectorView.space space.new).content) }
    ensures service { IsInService volume.new (P.SectorView.space space.new) }
    // No block that a content has in use is lost.
    ensures holds { (committed : Content) → HoldsOn committed volume.old → OnOk result (HoldsOn committed volume.new) }
    // On a fault too, it puts sectors of its own alone, and spills into blocks that were free at the last commit.
    ensures touches { (committed : Content) → HoldsOn committed volume.old → IsLaidOutAs committed volume.old → Touches committed (λ s. Contains (own_sectors volume.old) s) (P.SectorView.space space.old) (P.SectorView.space space.new) }
    // What its load names bounds the sectors that it puts, on a fault too.
    ensures loads { IsTrue (P.SectorView.space space.old).tells → (n : ℕ) (grow : List ℕ) → weight_with (capacity_of volume.old) (free_of volume.old.map) (volume_of (P.SectorView.space space.old).content) (tree_of (P.SectorView.space space.old).content) (command.Trunc path.now size) ≡ cost.Load n grow
        → (P.SectorView.space space.old).spare ≤ (P.SectorView.space space.new).spare + n }
    ensures same { SameSpace (P.SectorView.space space.old) (P.SectorView.space space.new) }
    ensures below { P.SectorView.follows space.old space.new }
    ensures cause { HasTroubleCause (P.SectorView.space space.old).faults (P.SectorView.space space.new).faults result }
{
    match volume.facts(alloc, space, path)? {
        Ok(told) => lengthen_told(volume, alloc, space, path, &told, size),
        Err(why) => Ok(Some(Reply::No(why))),
    }
}
