//! Zero blocks that are filled ahead of a command that makes a file longer.
ghost use Rattle.std.specs.Prelude.{◌≡◌, ◌≢◌, ◌<◌, ◌≤◌, ◌+◌, ◌-◌, ℕ, false, Ok, IsTrue, IfOk, OnOk, length, max};
ghost use Rattle.std.specs.List.{Contains};
ghost use Rattle.file_io.specs.Places.{blocks_for};
ghost use Rattle.hfs_language.specs.Written.{FitsCommand, FitsPath};
ghost use Rattle.hfs_language.specs.declared.command.Command.TheVariants as command;
ghost use Rattle.hfs_model.specs.Step.{is_private_path, to_file};
ghost use Rattle.hfs_model.specs.declared.plain.PlainNode.{PlainNode};
ghost use Rattle.hfs_volume.specs.Aside.{IsJournalSector};
ghost use Rattle.hfs_volume.specs.Content.{volume_of};
ghost use Rattle.hfs_volume.specs.Reclaim.{FillsZeros};
ghost use Rattle.hfs_volume.specs.TreeOf.{tree_of};
ghost use Rattle.hfs_volume.specs.Weight.{data_of, most_zeros, zero_blocks};
ghost use Rattle.volume_base.specs.Frame.{Serves};
ghost use Rattle.volume_base.specs.Looking.{KeepsVolume, ReadsVolume};
ghost use Rattle.volume_base.specs.Room.{capacity_of};
ghost use Rattle.volume_base.specs.Standing.{own_sectors};
ghost use Rattle.volume_space.specs.Zeroing.{HasFilled, done_of};
ghost use Rattle.volume_space.specs.declared.zeroing.Zeros.TheVariants as zeros;
ghost use Rattle.volume_step.specs.Performing.{Performs};
ghost use Rattle.volume_step.specs.Steps.{Affords, FillsMore, HasFewLeft};

use hfs_language::{Command, Path};
use hx_bytes::Trouble;
use sector_disk::SectorSpace;
use std::alloc::Global;
use volume_base::Volume;
use volume_space::{Growing, Zeros, blocks_for, fill_ahead};

/// Fills zero blocks of a growth of the file that a path stands for, up to this block, where there are more than the last step fills.
fn fill_file<P: SectorSpace>(
    alloc: Global,
    volume: &mut Volume,
    space: &mut P,
    path: &Path,
    from: u64,
    end: u64,
    stop: u64,
) -> Result<Zeros, Trouble>
    requires serves { Serves volume.old (P.SectorView.space space.old) }
    requires filled { HasFilled volume.old (P.SectorView.space space.old) }
    requires closed { IsTrue (P.SectorView.space space.old).tells → (at : ℕ) → (P.SectorView.space space.old).closed at → IsJournalSector (P.SectorView.space space.old).content at }
    requires fits { FitsPath path.now }
    requires place { stop ≤ blocks_for volume.old.header.block_size (from + 1) }
    // The path stands for a file, and isn't the volume's own.
    requires there { IsTrue (P.SectorView.space space.old).tells → (file : PlainNode) × (to_file (tree_of (P.SectorView.space space.old).content) path.now ≡ Ok file) × (is_private_path path.now ≡ false) }
    ensures many { IsTrue (P.SectorView.space space.old).tells → IfOk result (λ came. came ≢ zeros.Few → (file : PlainNode) → to_file (tree_of (P.SectorView.space space.old).content) path.now ≡ Ok file → most_zeros < stop - blocks_for volume.old.header.block_size (length file.bytes)) }
    // Blocks that are free were filled, and nothing else was changed.
    ensures fills { IsTrue (P.SectorView.space space.old).tells → IfOk result (λ came. came ≡ zeros.Filled → FillsZeros (P.SectorView.space space.old).content (P.SectorView.space space.new).content) }
    // Then more of its growth's zero blocks are filled.
    ensures next { IsTrue (P.SectorView.space space.old).tells → IfOk result (λ came. came ≡ zeros.Filled → (file : PlainNode) → to_file (tree_of (P.SectorView.space space.old).content) path.now ≡ Ok file → done_of volume.new.filling file.id (length file.bytes) (max (length file.bytes) end) ≡ done_of volume.old.filling file.id (length file.bytes) (max (length file.bytes) end) + most_zeros) }
    // None is filled where no more are left than the last step fills alone.
    ensures few { IsTrue (P.SectorView.space space.old).tells → from < end → IfOk result (λ came. came ≡ zeros.Few → (file : PlainNode) → to_file (tree_of (P.SectorView.space space.old).content) path.now ≡ Ok file → stop - blocks_for volume.old.header.block_size (length file.bytes) ≤ done_of volume.old.filling file.id (length file.bytes) (max (length file.bytes) end) + most_zeros) }
    // A commit is wanted where something was put since the last one alone.
    ensures commit { IfOk result (λ came. came ≡ zeros.CommitFirst → (P.SectorView.space space.old).spare < capacity_of volume.old) }
    // Where none is filled, the volume was read alone, but for the growth in hand.
    ensures reads { IfOk result (λ came. came ≢ zeros.Filled → ReadsVolume (record volume.old { filling = volume.new.filling }) volume.new (P.SectorView.space space.old) (P.SectorView.space space.new)) }
    ensures keeps { KeepsVolume (P.SectorView.space space.old).tells (record volume.old { filling = volume.new.filling }) volume.new }
    ensures filled { OnOk result (HasFilled volume.new (P.SectorView.space space.new)) }
    // Nothing is put.
    ensures spare { (P.SectorView.space space.old).spare ≤ (P.SectorView.space space.new).spare }
    ensures frame { Performs P.SectorView.space P.SectorView.follows (λ s. Contains (own_sectors volume.old) s) volume.old volume.new space.old space.new result }
{
    match volume.facts(alloc, space, path)? {
        Ok(told) => fill_ahead(
            volume,
            alloc,
            space,
            Growing {
                id: told.id,
                old_size: told.size,
                from,
                end,
                stop,
            },
        ),
        Err(_why) => Ok(Zeros::Few),
    }
}

/// Fills zero blocks ahead of a `write` of these bytes.
fn fill_before<P: SectorSpace>(
    alloc: Global,
    volume: &mut Volume,
    space: &mut P,
    path: &Path,
    from: u64,
    value: &[u8],
) -> Result<Zeros, Trouble>
    requires serves { Serves volume.old (P.SectorView.space space.old) }
    requires filled { HasFilled volume.old (P.SectorView.space space.old) }
    requires closed { IsTrue (P.SectorView.space space.old).tells → (at : ℕ) → (P.SectorView.space space.old).closed at → IsJournalSector (P.SectorView.space space.old).content at }
    requires fits { FitsPath path.now }
    requires affords { IsTrue (P.SectorView.space space.old).tells → Affords (capacity_of volume.old) (command.Write path.now from value.now) (P.SectorView.space space.old).content }
    ensures many { IsTrue (P.SectorView.space space.old).tells → IfOk result (λ came. came ≢ zeros.Few → most_zeros < zero_blocks (volume_of (P.SectorView.space space.old).content).head.block_size (tree_of (P.SectorView.space space.old).content) (command.Write path.now from value.now)) }
    // Blocks that are free were filled, and nothing else was changed.
    ensures fills { IsTrue (P.SectorView.space space.old).tells → IfOk result (λ came. came ≡ zeros.Filled → FillsZeros (P.SectorView.space space.old).content (P.SectorView.space space.new).content) }
    // Then more of its growth's zero blocks are filled.
    ensures next { IsTrue (P.SectorView.space space.old).tells → IfOk result (λ came. came ≡ zeros.Filled → FillsMore (data_of (tree_of (P.SectorView.space space.old).content) (command.Write path.now from value.now)) volume.old.filling volume.new.filling) }
    // None is filled where no more are left than the last step fills alone.
    ensures few { IsTrue (P.SectorView.space space.old).tells → IfOk result (λ came. came ≡ zeros.Few → HasFewLeft (command.Write path.now from value.now) volume.old.filling (P.SectorView.space space.old).content) }
    // A commit is wanted where something was put since the last one alone.
    ensures commit { IfOk result (λ came. came ≡ zeros.CommitFirst → (P.SectorView.space space.old).spare < capacity_of volume.old) }
    // Where none is filled, the volume was read alone, but for the growth in hand.
    ensures reads { IfOk result (λ came. came ≢ zeros.Filled → ReadsVolume (record volume.old { filling = volume.new.filling }) volume.new (P.SectorView.space space.old) (P.SectorView.space space.new)) }
    ensures keeps { KeepsVolume (P.SectorView.space space.old).tells (record volume.old { filling = volume.new.filling }) volume.new }
    ensures filled { OnOk result (HasFilled volume.new (P.SectorView.space space.new)) }
    // Nothing is put.
    ensures spare { (P.SectorView.space space.old).spare ≤ (P.SectorView.space space.new).spare }
    ensures frame { Performs P.SectorView.space P.SectorView.follows (λ s. Contains (own_sectors volume.old) s) volume.old volume.new space.old space.new result }
{
    if value.is_empty() {
        return Ok(Zeros::Few);
    }
    let end = from.saturating_add(value.len() as u64);
    let stop = from / u64::from(volume.header.block_size);
    fill_file(alloc, volume, space, path, from, end, stop)
}

/// Fills zero blocks ahead of a `trunc` to this size.
fn fill_up_to<P: SectorSpace>(
    alloc: Global,
    volume: &mut Volume,
    space: &mut P,
    path: &Path,
    size: u64,
) -> Result<Zeros, Trouble>
    requires serves { Serves volume.old (P.SectorView.space space.old) }
    requires filled { HasFilled volume.old (P.SectorView.space space.old) }
    requires closed { IsTrue (P.SectorView.space space.old).tells → (at : ℕ) → (P.SectorView.space space.old).closed at → IsJournalSector (P.SectorView.space space.old).content at }
    requires fits { FitsPath path.now }
    requires affords { IsTrue (P.SectorView.space space.old).tells → Affords (capacity_of volume.old) (command.Trunc path.now size) (P.SectorView.space space.old).content }
    ensures many { IsTrue (P.SectorView.space space.old).tells → IfOk result (λ came. came ≢ zeros.Few → most_zeros < zero_blocks (volume_of (P.SectorView.space space.old).content).head.block_size (tree_of (P.SectorView.space space.old).content) (command.Trunc path.now size)) }
    // Blocks that are free were filled, and nothing else was changed.
    ensures fills { IsTrue (P.SectorView.space space.old).tells → IfOk result (λ came. came ≡ zeros.Filled → FillsZeros (P.SectorView.space space.old).content (P.SectorView.space space.new).content) }
    // Then more of its growth's zero blocks are filled.
    ensures next { IsTrue (P.SectorView.space space.old).tells → IfOk result (λ came. came ≡ zeros.Filled → FillsMore (data_of (tree_of (P.SectorView.space space.old).content) (command.Trunc path.now size)) volume.old.filling volume.new.filling) }
    // None is filled where no more are left than the last step fills alone.
    ensures few { IsTrue (P.SectorView.space space.old).tells → IfOk result (λ came. came ≡ zeros.Few → HasFewLeft (command.Trunc path.now size) volume.old.filling (P.SectorView.space space.old).content) }
    // A commit is wanted where something was put since the last one alone.
    ensures commit { IfOk result (λ came. came ≡ zeros.CommitFirst → (P.SectorView.space space.old).spare < capacity_of volume.old) }
    // Where none is filled, the volume was read alone, but for the growth in hand.
    ensures reads { IfOk result (λ came. came ≢ zeros.Filled → ReadsVolume (record volume.old { filling = volume.new.filling }) volume.new (P.SectorView.space space.old) (P.SectorView.space space.new)) }
    ensures keeps { KeepsVolume (P.SectorView.space space.old).tells (record volume.old { filling = volume.new.filling }) volume.new }
    ensures filled { OnOk result (HasFilled volume.new (P.SectorView.space space.new)) }
    // Nothing is put.
    ensures spare { (P.SectorView.space space.old).spare ≤ (P.SectorView.space space.new).spare }
    ensures frame { Performs P.SectorView.space P.SectorView.follows (λ s. Contains (own_sectors volume.old) s) volume.old volume.new space.old space.new result }
{
    let last = size.saturating_sub(1);
    let stop = blocks_for(volume.header.block_size, size);
    fill_file(alloc, volume, space, path, last, size, stop)
}

/// Fills zero blocks ahead of a command for which nothing is missing, where it puts more of them into a file than its last step fills.
pub(crate) fn fill_for<P: SectorSpace>(
    alloc: Global,
    volume: &mut Volume,
    space: &mut P,
    command: &Command,
) -> Result<Zeros, Trouble>
    requires serves { Serves volume.old (P.SectorView.space space.old) }
    requires filled { HasFilled volume.old (P.SectorView.space space.old) }
    requires closed { IsTrue (P.SectorView.space space.old).tells → (at : ℕ) → (P.SectorView.space space.old).closed at → IsJournalSector (P.SectorView.space space.old).content at }
    requires fits { FitsCommand command.now }
    requires affords { IsTrue (P.SectorView.space space.old).tells → Affords (capacity_of volume.old) command.now (P.SectorView.space space.old).content }
    // Some are filled, or a commit is wanted, where it has more of them alone.
    ensures many { IsTrue (P.SectorView.space space.old).tells → IfOk result (λ came. came ≢ zeros.Few → most_zeros < zero_blocks (volume_of (P.SectorView.space space.old).content).head.block_size (tree_of (P.SectorView.space space.old).content) command.now) }
    // Blocks that are free were filled, and nothing else was changed.
    ensures fills { IsTrue (P.SectorView.space space.old).tells → IfOk result (λ came. came ≡ zeros.Filled → FillsZeros (P.SectorView.space space.old).content (P.SectorView.space space.new).content) }
    // Then more of its growth's zero blocks are filled.
    ensures next { IsTrue (P.SectorView.space space.old).tells → IfOk result (λ came. came ≡ zeros.Filled → FillsMore (data_of (tree_of (P.SectorView.space space.old).content) command.now) volume.old.filling volume.new.filling) }
    // None is filled where no more are left than the last step fills alone.
    ensures few { IsTrue (P.SectorView.space space.old).tells → IfOk result (λ came. came ≡ zeros.Few → HasFewLeft command.now volume.old.filling (P.SectorView.space space.old).content) }
    // A commit is wanted where something was put since the last one alone.
    ensures commit { IfOk result (λ came. came ≡ zeros.CommitFirst → (P.SectorView.space space.old).spare < capacity_of volume.old) }
    // Where none is filled, the volume was read alone, but for the growth in hand.
    ensures reads { IfOk result (λ came. came ≢ zeros.Filled → ReadsVolume (record volume.old { filling = volume.new.filling }) volume.new (P.SectorView.space space.old) (P.SectorView.space space.new)) }
    ensures keeps { KeepsVolume (P.SectorView.space space.old).tells (record volume.old { filling = volume.new.filling }) volume.new }
    ensures filled { OnOk result (HasFilled volume.new (P.SectorView.space space.new)) }
    // Nothing is put.
    ensures spare { (P.SectorView.space space.old).spare ≤ (P.SectorView.space space.new).spare }
    ensures frame { Performs P.SectorView.space P.SectorView.follows (λ s. Contains (own_sectors volume.old) s) volume.old volume.new space.old space.new result }
{
    match command {
        Command::Write { path, from, value } => {
            fill_before(alloc, volume, space, path, *from, value.as_slice())
        }
        Command::Trunc { path, size } => fill_up_to(alloc, volume, space, path, *size),
        _ => Ok(Zeros::Few),
    }
}
