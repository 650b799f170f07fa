//! Zero blocks filled ahead of a growth that has more of them than one step fills.
ghost use Rattle.std.specs.Prelude.{◌≡◌, ◌≢◌, ◌⊎◌, ◌<◌, ◌≤◌, ◌+◌, ◌-◌, ◌*◌, ◌/◌, ℕ, true, false, IsTrue, IfNone, IfOk, IfSome, None, OnOk, Some, length, max, min, slice_get};
ghost use Rattle.std.specs.List.{All};
ghost use Rattle.alloc_bitmap.specs.Apart.{AreApart};
ghost use Rattle.alloc_bitmap.specs.Map.{free_of};
ghost use Rattle.btree_edit.specs.Causes.{HasTroubleCause};
ghost use Rattle.file_io.specs.Bytes.{HoldZeros, IsBlockSize, sectors_in};
ghost use Rattle.file_io.specs.Places.{blocks_for, fresh_of, new_blocks, zeros_at};
ghost use Rattle.file_io.specs.Touching.{IsOneOf, MaySpill, SpillsIn};
ghost use Rattle.flag_rows.specs.Bits.{count_set};
ghost use Rattle.fork_map.specs.Blocks.{blocks_of};
ghost use Rattle.hfs_volume.specs.Aside.{IsJournalSector};
ghost use Rattle.hfs_volume.specs.Reclaim.{FillsZeros};
ghost use Rattle.hfs_volume.specs.Weight.{most_zeros};
ghost use Rattle.sector_disk.specs.Clock.{TimePasses};
ghost use Rattle.sector_disk.specs.Lists.{sector};
ghost use Rattle.sector_disk.specs.Space.{LeavesDurable, SameRoom, SameSpace};
ghost use Rattle.volume_base.specs.Frame.{Serves};
ghost use Rattle.volume_base.specs.Room.{capacity_of};
ghost use Rattle.volume_base.specs.Service.{IsInService};
ghost use Rattle.volume_space.specs.Zeroing.{Fills, HasFilled, IsInHand, IsSureToFill, blocks_taken, done_of, is_growth_of, is_in_hand};
ghost use Rattle.volume_space.specs.declared.zeroing.Zeros.TheVariants as zeros;

use crate::putting::{is_inside, is_whole};
use alloc_bitmap::Bitmap;
use file_io::zero_step;
use hfs_volume::free_is_filled;
use hx_bytes::{Extent, OutOfMemory, Trouble};
use sector_disk::SectorSpace;
use std::alloc::Global;
use volume_base::{Filling, Volume};

/// The most zero blocks that one step fills.
const MOST_ZEROS: u32 = 1_024;

/// What the zero blocks of a growth come to ahead of its last step.
#[derive(Clone, Copy, Debug, PartialEq, Eq)]
pub enum Zeros {
    /// No more are left than the last step fills.
    Few,
    /// Some were filled, and the command is to be tried again.
    Filled,
    /// A commit comes before the first of them.
    CommitFirst,
}

/// A growth of a file: its CNID and size, the bytes that are new, from a place up to an end, and the place behind its zero blocks, in blocks.
#[derive(Clone, Copy, Debug)]
pub struct Growing {
    pub id: u32,
    pub old_size: u64,
    pub from: u64,
    pub end: u64,
    pub stop: u64,
}

/// How many blocks so many bytes take.
pub fn blocks_for(block: u32, bytes: u64) -> u64
    requires { 0 < block }
    ensures { result ≡ blocks_for block bytes }
{
    if bytes == 0 {
        return 0;
    }
    (bytes - 1) / u64::from(block) + 1
}

/// Whether this is a growth of this file from one size to another.
fn is_of(it: &Filling, id: u32, old_size: u64, new_size: u64) -> bool
    ensures { result ≡ is_growth_of it.now id old_size new_size }
{
    it.id == id && (it.old_size == old_size && it.new_size == new_size)
}

/// How many zero blocks of this growth hold zeros by now, where that one is in hand.
fn done_in(it: &Filling, id: u32, old_size: u64, new_size: u64) -> u32
    ensures { result ≡ done_of (Some it.now) id old_size new_size }
{
    if is_of(it, id, old_size, new_size) {
        return it.done;
    }
    0
}

/// How many zero blocks of this growth hold zeros by now.
fn done(volume: &Volume, id: u32, old_size: u64, new_size: u64) -> u32
    ensures { result ≡ done_of volume.now.filling id old_size new_size }
{
    match &volume.filling {
        Some(it) => done_in(it, id, old_size, new_size),
        None => 0,
    }
}

/// This growth, where it is in hand. None is in hand any more.
fn take_growth(volume: &mut Volume, id: u32, old_size: u64, new_size: u64) -> Option<Filling>
    ensures some { IfSome result (λ it. (volume.old.filling ≡ Some it) × (is_growth_of it id old_size new_size ≡ true)) }
    ensures none { IfNone result (is_in_hand volume.old.filling id old_size new_size ≡ false) }
    ensures rest { volume.new ≡ record volume.old { filling = None } }
{
    let it = volume.filling.take()?;
    if is_of(&it, id, old_size, new_size) {
        return Some(it);
    }
    None
}

/// How many zero blocks of this growth hold zeros by now, so many at most.
pub(crate) fn done_within(volume: &Volume, id: u32, old_size: u64, new_size: u64, most: u64) -> u32
    ensures { result ≡ min (done_of volume.now.filling id old_size new_size) most }
{
    let so_far = done(volume, id, old_size, new_size);
    u64::from(so_far).min(most) as u32
}

/// How many zero blocks a growth has.
fn count_zeros(block: u32, it: Growing) -> u64
    requires { 0 < block }
    ensures exact { it.from < it.end → result ≡ it.stop - blocks_for block it.old_size }
    ensures some { 0 < result → (it.from < it.end) × (result ≡ it.stop - blocks_for block it.old_size) }
{
    if it.end <= it.from {
        return 0;
    }
    it.stop.saturating_sub(blocks_for(block, it.old_size))
}

/// Whether no more zero blocks of so many are left behind those that were filled than one step fills.
fn is_few(all: u64, so_far: u32) -> bool
    ensures few { IsTrue result → all ≤ so_far + 1024 }
    ensures many { result ≡ false → so_far + 1024 < all }
{
    if all > u64::from(so_far) + u64::from(MOST_ZEROS) {
        return false;
    }
    true
}

/// Fills the next 1,024 of the blocks that a growth takes. They stay free.
fn fill_next<P: SectorSpace>(space: &mut P, block: u32, mut it: Filling) -> Result<Filling, Trouble>
    requires block { IsBlockSize block }
    requires inside { All (λ sector. sector < (P.SectorView.space space.old).sectors) (sectors_in block it.blocks) }
    requires apart { AreApart (blocks_of it.blocks) }
    requires within { it.place + it.done + 1024 ≤ length (blocks_of it.blocks) }
    requires small { it.place + it.done + 1024 < 4294967296 }
    requires may_spill { (n : ℕ) (sector : ℕ) → slice_get (sectors_in block it.blocks) n ≡ Some sector → MaySpill (P.SectorView.space space.old) sector }
    requires zeros { IsTrue (P.SectorView.space space.old).tells → HoldZeros (P.SectorView.space space.old).content (sectors_in block it.blocks) (it.place * (block / 512)) (it.done * (block / 512)) }
    ensures next { IfOk result (λ next. next ≡ record it { done = it.done + 1024 }) }
    ensures zeros { IsTrue (P.SectorView.space space.old).tells → OnOk result (HoldZeros (P.SectorView.space space.new).content (sectors_in block it.blocks) (it.place * (block / 512)) ((it.done + 1024) * (block / 512))) }
    ensures touches { IsTrue (P.SectorView.space space.old).tells → SpillsIn (IsOneOf (sectors_in block it.blocks)) (P.SectorView.space space.old) (P.SectorView.space space.new) }
    ensures sizes { IsTrue (P.SectorView.space space.old).tells → OnOk result ((at : ℕ) → (sector (P.SectorView.space space.new).content at ≡ sector (P.SectorView.space space.old).content at) ⊎ (length (sector (P.SectorView.space space.new).content at) ≡ 512)) }
    ensures time { IsTrue (P.SectorView.space space.old).tells → TimePasses (P.SectorView.space space.old).clock (P.SectorView.space space.new).clock (LeavesDurable (P.SectorView.space space.new)) }
    ensures room { SameRoom (P.SectorView.space space.old) (P.SectorView.space space.new) }
    ensures same { SameSpace (P.SectorView.space space.old) (P.SectorView.space space.new) }
    ensures below { P.SectorView.follows space.old space.new }
    ensures cause { HasTroubleCause (P.SectorView.space space.old).faults (P.SectorView.space space.new).faults result }
{
    zero_step(space, &it.blocks, block, it.place + it.done, MOST_ZEROS)?;
    it.done += MOST_ZEROS;
    Ok(it)
}

/// Whether the volume's blocks lie in the space, and that of the header is in use, as in a sound volume.
fn is_sure_to_fill<P: SectorSpace>(volume: &Volume, space: &P) -> bool
    requires service { IsInService volume.now (P.SectorView.space space.now) }
    ensures { IsTrue result → IsSureToFill volume.now (P.SectorView.space space.now) }
{
    let block = volume.header.block_size;
    if !is_whole(block) {
        return false;
    }
    let per_block = block / 512;
    if !is_inside(volume.map.total(), per_block, space.sectors()) {
        return false;
    }
    let header = Extent {
        start: 2 / per_block,
        count: 1,
    };
    volume.map.have(header, true)
}

/// Fills the next 1,024 of the blocks that a growth takes, which then is in hand.
fn fill_more<P: SectorSpace>(
    volume: &mut Volume,
    space: &mut P,
    it: Filling,
) -> Result<Zeros, Trouble>
    requires serves { Serves volume.old (P.SectorView.space space.old) }
    requires closed { IsTrue (P.SectorView.space space.old).tells → (at : ℕ) → (P.SectorView.space space.old).closed at → IsJournalSector (P.SectorView.space space.old).content at }
    requires in_hand { IsInHand volume.old it (P.SectorView.space space.old) }
    requires within { it.place + it.done + 1024 ≤ blocks_taken volume.old it }
    ensures came { IfOk result (λ came. came ≡ zeros.Filled) }
    ensures fills { IsTrue (P.SectorView.space space.old).tells → OnOk result (FillsZeros (P.SectorView.space space.old).content (P.SectorView.space space.new).content) }
    ensures next { OnOk result (volume.new.filling ≡ Some (record it { done = it.done + 1024 })) }
    ensures frame { Fills P.SectorView.space P.SectorView.follows volume.old volume.new space.old space.new result }
{
    free_is_filled();
    if !is_sure_to_fill(volume, space) {
        return Err(Trouble::Memory);
    }
    let block = volume.header.block_size;
    let _free = volume.map.count_free();
    let next = fill_next(space, block, it)?;
    volume.filling = Some(next);
    Ok(Zeros::Filled)
}

/// The blocks that a growth takes, none of which is filled yet; none is taken. `OutOfMemory` comes too where there aren't so many.
fn pick_blocks(
    map: &mut Bitmap,
    alloc: Global,
    block: u32,
    it: Growing,
) -> Result<Filling, OutOfMemory>
    requires block { 0 < block }
    requires beyond { it.old_size ≤ it.from }
    requires order { it.from < it.end }
    ensures blocks { IfOk result (λ next. next.blocks ≡ fresh_of map.old (new_blocks block it.old_size it.old_size it.end)) }
    ensures enough { OnOk result (new_blocks block it.old_size it.old_size it.end ≤ count_set (free_of map.old)) }
    ensures place { IfOk result (λ next. next.place ≡ zeros_at block it.old_size it.old_size it.end) }
    ensures sizes { IfOk result (λ next. (next.id ≡ it.id) × (next.old_size ≡ it.old_size) × (next.new_size ≡ it.end) × (next.done ≡ 0)) }
    ensures same { map.new ≡ map.old }
{
    let first = it.old_size / u64::from(block);
    let behind = blocks_for(block, it.end);
    let many = behind.saturating_sub(first);
    if many > u64::from(map.count_free()) {
        return Err(OutOfMemory);
    }
    let place = behind
        .min(blocks_for(block, it.old_size))
        .saturating_sub(first);
    let blocks = map.pick(alloc, many as u32)?;
    Ok(Filling {
        id: it.id,
        old_size: it.old_size,
        new_size: it.end,
        blocks,
        place: place as u32,
        done: 0,
    })
}

/// Fills the first zero blocks of a growth. Where something was put since the last commit another one comes first.
fn fill_first<P: SectorSpace>(
    volume: &mut Volume,
    alloc: Global,
    space: &mut P,
    it: Growing,
) -> Result<Zeros, Trouble>
    requires serves { Serves volume.old (P.SectorView.space space.old) }
    requires closed { IsTrue (P.SectorView.space space.old).tells → (at : ℕ) → (P.SectorView.space space.old).closed at → IsJournalSector (P.SectorView.space space.old).content at }
    requires none { volume.old.filling ≡ None }
    requires beyond { it.old_size ≤ it.from }
    requires order { it.from < it.end }
    requires within { zeros_at volume.old.header.block_size it.old_size it.old_size it.end + 1024 ≤ new_blocks volume.old.header.block_size it.old_size it.old_size it.end }
    ensures fills { IsTrue (P.SectorView.space space.old).tells → IfOk result (λ came. came ≡ zeros.Filled → FillsZeros (P.SectorView.space space.old).content (P.SectorView.space space.new).content) }
    ensures next { IfOk result (λ came. came ≡ zeros.Filled → done_of volume.new.filling it.id it.old_size it.end ≡ 1024) }
    ensures never { IfOk result (λ came. came ≢ zeros.Few) }
    ensures commit { IfOk result (λ came. came ≡ zeros.CommitFirst → (P.SectorView.space space.old).spare < capacity_of volume.old) }
    ensures begins { IfOk result (λ came. came ≡ zeros.Filled → capacity_of volume.old ≤ (P.SectorView.space space.old).spare) }
    ensures still { IfOk result (λ came. came ≢ zeros.Filled → space.new ≡ space.old) }
    ensures frame { Fills P.SectorView.space P.SectorView.follows volume.old volume.new space.old space.new result }
{
    if space.spare() < volume.capacity {
        return Ok(Zeros::CommitFirst);
    }
    let block = volume.header.block_size;
    let filling = pick_blocks(&mut volume.map, alloc, block, it)?;
    fill_more(volume, space, filling)
}

/// Fills the next zero blocks of a growth ahead of a command, 1,024 of them, where there are more than that left: blocks that the command
/// will take, and that stay free until then. Where it is the first step of the growth a commit comes before it, unless nothing was put since
/// the last one. `Memory` comes where memory or blocks are wanting, `Disk` where a spill failed.
pub fn fill_ahead<P: SectorSpace>(
    volume: &mut Volume,
    alloc: Global,
    space: &mut P,
    it: Growing,
) -> Result<Zeros, Trouble>
    requires serves { Serves volume.old (P.SectorView.space space.old) }
    requires filled { HasFilled volume.old (P.SectorView.space space.old) }
    // Only the journal's sectors are closed.
    requires closed { IsTrue (P.SectorView.space space.old).tells → (at : ℕ) → (P.SectorView.space space.old).closed at → IsJournalSector (P.SectorView.space space.old).content at }
    // The zero blocks lie before the first byte that is new, or hold it too.
    requires place { it.stop ≤ blocks_for volume.old.header.block_size (it.from + 1) }
    // Blocks that are free were filled, and nothing else was changed.
    ensures fills { IsTrue (P.SectorView.space space.old).tells → IfOk result (λ came. came ≡ zeros.Filled → FillsZeros (P.SectorView.space space.old).content (P.SectorView.space space.new).content) }
    // 1,024 more are filled then.
    ensures next { IfOk result (λ came. came ≡ zeros.Filled → done_of volume.new.filling it.id it.old_size (max it.old_size it.end) ≡ done_of volume.old.filling it.id it.old_size (max it.old_size it.end) + most_zeros) }
    // That, or a commit, comes exactly where more are left than one step fills.
    ensures many { IfOk result (λ came. came ≢ zeros.Few → done_of volume.old.filling it.id it.old_size (max it.old_size it.end) + most_zeros < it.stop - blocks_for volume.old.header.block_size it.old_size) }
    ensures few { it.from < it.end → IfOk result (λ came. came ≡ zeros.Few → it.stop - blocks_for volume.old.header.block_size it.old_size ≤ done_of volume.old.filling it.id it.old_size (max it.old_size it.end) + most_zeros) }
    // A commit comes exactly before the first of them, where something was put since the last one.
    ensures commit { IfOk result (λ came. came ≡ zeros.CommitFirst → (is_in_hand volume.old.filling it.id it.old_size (max it.old_size it.end) ≡ false) × ((P.SectorView.space space.old).spare < capacity_of volume.old)) }
    ensures begins { IfOk result (λ came. came ≡ zeros.Filled → is_in_hand volume.old.filling it.id it.old_size (max it.old_size it.end) ≡ false → capacity_of volume.old ≤ (P.SectorView.space space.old).spare) }
    // Where none is filled, nothing is done to the space.
    ensures still { IfOk result (λ came. came ≢ zeros.Filled → space.new ≡ space.old) }
    ensures frame { Fills P.SectorView.space P.SectorView.follows volume.old volume.new space.old space.new result }
{
    let all = count_zeros(volume.header.block_size, it);
    let new_size = it.old_size.max(it.end);
    let so_far = done(volume, it.id, it.old_size, new_size);
    if is_few(all, so_far) {
        return Ok(Zeros::Few);
    }
    match take_growth(volume, it.id, it.old_size, new_size) {
        Some(filling) => fill_more(volume, space, filling),
        None => fill_first(volume, alloc, space, it),
    }
}
