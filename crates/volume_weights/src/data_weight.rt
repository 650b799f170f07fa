//! What `write` and `trunc` need.
ghost use Rattle.std.specs.Prelude.{◌≡◌, ◌≤◌, ◌+◌, ◌^◌, false, is_some, length, Ok, IsTrue, IfOk, IfSome};
ghost use Rattle.hfs_language.specs.Written.{FitsPath};
ghost use Rattle.hfs_language.specs.declared.command.Command.TheVariants as command;
ghost use Rattle.hfs_model.specs.Step.{step_line};
ghost use Rattle.hfs_volume.specs.Content.{volume_of};
ghost use Rattle.hfs_volume.specs.TreeOf.{tree_of};
ghost use Rattle.volume_weights.specs.DataWeighing.{WaitsForCut};
ghost use Rattle.volume_base.specs.Frame.{Looked, Serves};
ghost use Rattle.volume_base.specs.Refusing.{facts_or};
ghost use Rattle.volume_base.specs.Room.{capacity_of, free_in};
ghost use Rattle.volume_base.specs.declared.room.FreeBlocks.TheVariants as blocks;
ghost use Rattle.volume_base.specs.Weighing.{edits_weighed, weighed};

use crate::data_cost::weigh_put;
use crate::weighing::weigh_edits;
use hfs_language::{Facts, Path};
use hfs_volume::sound_has_plain_tree;
use hx_bytes::Trouble;
use sector_disk::SectorSpace;
use std::alloc::Global;
use volume_base::{Edits, ForkKind, Put, Volume, Weight, against_trunc, against_write};

/// The place behind the last byte of a value that is written from a place on.
fn end_of(from: u64, value: &[u8]) -> u64
    requires small { from + length value.now ≤ 2 ^ 40 }
    ensures { result ≡ from + length value.now }
{
    from + value.len() as u64
}

/// What the update of one record needs.
fn weigh_update<P: SectorSpace>(volume: &Volume, space: &P) -> Weight
    requires serves { Serves volume.now (P.SectorView.space space.now) }
    ensures exact { IsTrue (P.SectorView.space space.now).tells → result ≡ edits_weighed (capacity_of volume.now) (free_in blocks.Takable volume.now.map) (volume_of (P.SectorView.space space.now).content) (record { ids = 0; catalog = 0; attributes = 0; updates = 1 }) }
{
    let edits = Edits {
        ids: 0,
        catalog: 0,
        attributes: 0,
        updates: 1,
    };
    weigh_edits(volume, space, edits)
}

/// What `trunc` to a size needs of a file of which this is told; nothing is told where the file would grow and has blocks past its size.
fn weigh_size<P: SectorSpace>(
    volume: &mut Volume,
    alloc: Global,
    space: &mut P,
    _path: &Path,
    told: &Facts,
    size: u64,
) -> Result<Option<Weight>, Trouble>
    requires serves { Serves volume.old (P.SectorView.space space.old) }
    requires told { IsTrue (P.SectorView.space space.old).tells → Ok told.now ≡ facts_or (step_line (tree_of (P.SectorView.space space.old).content) (Ok (command.Stat _path.now))).0 }
    ensures answer { IsTrue (P.SectorView.space space.old).tells
        → IfOk result (λ said. IfSome said (λ weighs. weighs ≡ weighed (capacity_of volume.old) (free_in blocks.Takable volume.old.map) (volume_of (P.SectorView.space space.old).content) (tree_of (P.SectorView.space space.old).content) (command.Trunc _path.now size))) }
    ensures waits { IsTrue (P.SectorView.space space.old).tells → IfOk result (λ said. is_some said ≡ false → WaitsForCut (P.SectorView.space space.old).content (command.Trunc _path.now size)) }
    ensures cuts { IsTrue (P.SectorView.space space.old).tells → WaitsForCut (P.SectorView.space space.old).content (command.Trunc _path.now size) → IfOk result (λ said. is_some said ≡ false) }
    ensures looked { Looked P.SectorView.space P.SectorView.follows volume.old volume.new space.old space.new result }
    ensures serves { Serves volume.new (P.SectorView.space space.new) }
{
    sound_has_plain_tree();
    if let Some(why) = against_trunc(size, told) {
        return Ok(Some(Weight::Refused(why)));
    }
    if told.size < size {
        let put = Put {
            id: told.id,
            old_size: told.size,
            from: told.size,
            end: size,
        };
        return weigh_put(volume, alloc, space, ForkKind::Data, put);
    }
    Ok(Some(weigh_update(volume, space)))
}

/// What `trunc` needs; nothing is told where the file would grow and has blocks past its size.
pub(crate) fn weigh_trunc<P: SectorSpace>(
    volume: &mut Volume,
    alloc: Global,
    space: &mut P,
    path: &Path,
    size: u64,
) -> Result<Option<Weight>, Trouble>
    requires serves { Serves volume.old (P.SectorView.space space.old) }
    requires fits { FitsPath path.now }
    ensures answer { IsTrue (P.SectorView.space space.old).tells
        → IfOk result (λ said. IfSome said (λ weighs. weighs ≡ weighed (capacity_of volume.old) (free_in blocks.Takable volume.old.map) (volume_of (P.SectorView.space space.old).content) (tree_of (P.SectorView.space space.old).content) (command.Trunc path.now size))) }
    ensures waits { IsTrue (P.SectorView.space space.old).tells → IfOk result (λ said. is_some said ≡ false → WaitsForCut (P.SectorView.space space.old).content (command.Trunc path.now size)) }
    ensures cuts { IsTrue (P.SectorView.space space.old).tells → WaitsForCut (P.SectorView.space space.old).content (command.Trunc path.now size) → IfOk result (λ said. is_some said ≡ false) }
    ensures looked { Looked P.SectorView.space P.SectorView.follows volume.old volume.new space.old space.new result }
    ensures serves { Serves volume.new (P.SectorView.space space.new) }
{
    sound_has_plain_tree();
    match volume.facts(alloc, space, path)? {
        Ok(told) => weigh_size(volume, alloc, space, path, &told, size),
        Err(why) => Ok(Some(Weight::Refused(why))),
    }
}

/// What `write` of a value from a place on needs of a file of which this is told; nothing is told where the file would grow and has blocks
/// past its size.
fn weigh_value<P: SectorSpace>(
    volume: &mut Volume,
    alloc: Global,
    space: &mut P,
    _path: &Path,
    told: &Facts,
    from: u64,
    value: &[u8],
) -> Result<Option<Weight>, Trouble>
    requires serves { Serves volume.old (P.SectorView.space space.old) }
    requires told { IsTrue (P.SectorView.space space.old).tells → Ok told.now ≡ facts_or (step_line (tree_of (P.SectorView.space space.old).content) (Ok (command.Stat _path.now))).0 }
    ensures answer { IsTrue (P.SectorView.space space.old).tells
        → IfOk result (λ said. IfSome said (λ weighs. weighs ≡ weighed (capacity_of volume.old) (free_in blocks.Takable volume.old.map) (volume_of (P.SectorView.space space.old).content) (tree_of (P.SectorView.space space.old).content) (command.Write _path.now from value.now))) }
    ensures waits { IsTrue (P.SectorView.space space.old).tells → IfOk result (λ said. is_some said ≡ false → WaitsForCut (P.SectorView.space space.old).content (command.Write _path.now from value.now)) }
    ensures cuts { IsTrue (P.SectorView.space space.old).tells → WaitsForCut (P.SectorView.space space.old).content (command.Write _path.now from value.now) → IfOk result (λ said. is_some said ≡ false) }
    ensures looked { Looked P.SectorView.space P.SectorView.follows volume.old volume.new space.old space.new result }
    ensures serves { Serves volume.new (P.SectorView.space space.new) }
{
    sound_has_plain_tree();
    if let Some(why) = against_write(from, value.len(), told) {
        return Ok(Some(Weight::Refused(why)));
    }
    if !value.is_empty() {
        let put = Put {
            id: told.id,
            old_size: told.size,
            from,
            end: end_of(from, value),
        };
        return weigh_put(volume, alloc, space, ForkKind::Data, put);
    }
    Ok(Some(weigh_update(volume, space)))
}

/// What `write` needs; nothing is told where the file would grow and has blocks past its size.
pub(crate) fn weigh_write<P: SectorSpace>(
    volume: &mut Volume,
    alloc: Global,
    space: &mut P,
    path: &Path,
    from: u64,
    value: &[u8],
) -> Result<Option<Weight>, Trouble>
    requires serves { Serves volume.old (P.SectorView.space space.old) }
    requires fits { FitsPath path.now }
    ensures answer { IsTrue (P.SectorView.space space.old).tells
        → IfOk result (λ said. IfSome said (λ weighs. weighs ≡ weighed (capacity_of volume.old) (free_in blocks.Takable volume.old.map) (volume_of (P.SectorView.space space.old).content) (tree_of (P.SectorView.space space.old).content) (command.Write path.now from value.now))) }
    ensures waits { IsTrue (P.SectorView.space space.old).tells → IfOk result (λ said. is_some said ≡ false → WaitsForCut (P.SectorView.space space.old).content (command.Write path.now from value.now)) }
    ensures cuts { IsTrue (P.SectorView.space space.old).tells → WaitsForCut (P.SectorView.space space.old).content (command.Write path.now from value.now) → IfOk result (λ said. is_some said ≡ false) }
    ensures looked { Looked P.SectorView.space P.SectorView.follows volume.old volume.new space.old space.new result }
    ensures serves { Serves volume.new (P.SectorView.space space.new) }
{
    sound_has_plain_tree();
    match volume.facts(alloc, space, path)? {
        Ok(told) => weigh_value(volume, alloc, space, path, &told, from, value),
        Err(why) => Ok(Some(Weight::Refused(why))),
    }
}
