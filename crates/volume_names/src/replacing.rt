//! `mv` over a file: the file that stands at the new place loses its name, and then the place is free.
ghost use Rattle.std.specs.Prelude.{◌≡◌, Err, Ok, false, true, IsTrue, IfOk, OnOk};
ghost use Rattle.hfs_language.specs.Written.{FitsPath};
ghost use Rattle.hfs_language.specs.declared.command.Command.TheVariants as command;
ghost use Rattle.hfs_language.specs.declared.refusal.Refusal.TheVariants as refusal;
ghost use Rattle.hfs_language.specs.declared.reply.Reply.TheVariants as reply;
ghost use Rattle.hfs_model.specs.Step.{is_private_path, is_refusal, step, step_line};
ghost use Rattle.hfs_volume.specs.TreeOf.{tree_of};
ghost use Rattle.volume_base.specs.Frame.{Edits, Looked, Serves};
ghost use Rattle.volume_base.specs.Making.{path_to};
ghost use Rattle.volume_base.specs.Moving.{to_free};
ghost use Rattle.volume_names.specs.LinkLoads.{PutsItsLoad};
ghost use Rattle.volume_names.specs.Moving.{ComesTo, HasMoved, ReplacesFile, TakesOver, taking_files, taking_of};

use crate::fitting::{fits_lose, fits_replace};
use crate::losing::rm;
use crate::moving::move_free;
use hfs_language::{Facts, Path, Refusal, Reply};
use hfs_volume::sound_has_plain_tree;
use hx_bytes::{Trouble, Units};
use sector_disk::SectorSpace;
use std::alloc::Global;
use volume_base::{Volume, is_below};

/// What a `mv` to a place where an entry stands comes to: it is refused; both names are those of one file, and nothing changes; or
/// the file that stands there, which has so many names, loses this one.
#[derive(Clone, Copy)]
enum Taking {
    Refused(Refusal),
    Same,
    Over(u32),
}

/// What it comes to for two files, where the second path leads below the first or doesn't.
fn taking_files(moved: &Facts, other: &Facts, below: bool) -> Taking
    ensures { result ≡ taking_files moved.now other.now below }
{
    if moved.folder {
        return Taking::Refused(Refusal::Exists);
    }
    if other.folder {
        return Taking::Refused(Refusal::Exists);
    }
    if below {
        return Taking::Refused(Refusal::Inside);
    }
    if moved.id == other.id {
        return Taking::Same;
    }
    Taking::Over(other.links)
}

/// The same by what `stat` tells of both.
fn taking_of(moved: &Result<Facts, Refusal>, other: &Result<Facts, Refusal>, below: bool) -> Taking
    ensures { result ≡ taking_of moved.now other.now below }
{
    match moved {
        Ok(moved) => match other {
            Ok(other) => taking_files(moved, other, below),
            Err(why) => Taking::Refused(*why),
        },
        Err(why) => Taking::Refused(*why),
    }
}

/// What a `mv` comes to whose place is taken.
fn find_taking<P: SectorSpace>(
    volume: &mut Volume,
    alloc: Global,
    space: &mut P,
    from: &Path,
    to: &Path,
) -> Result<Taking, Trouble>
    requires serves { Serves volume.old (P.SectorView.space space.old) }
    requires from_fits { FitsPath from.now }
    requires to_fits { FitsPath to.now }
    requires not_own { is_private_path from.now ≡ false }
    requires goal_not_own { is_private_path to.now ≡ false }
    requires taken { IsTrue (P.SectorView.space space.old).tells → to_free (tree_of (P.SectorView.space space.old).content) from.now to.now ≡ Err refusal.Exists }
    ensures tells { IsTrue (P.SectorView.space space.old).tells → IfOk result (λ it. ComesTo it (tree_of (P.SectorView.space space.old).content) from.now to.now) }
    ensures looked { Looked P.SectorView.space P.SectorView.follows volume.old volume.new space.old space.new result }
    ensures serves { Serves volume.new (P.SectorView.space space.new) }
{
    sound_has_plain_tree();
    let moved = volume.facts(alloc, space, from)?;
    let other = volume.facts(alloc, space, to)?;
    let below = is_below(to.as_slice(), from.as_slice());
    Ok(taking_of(&moved, &other, below))
}

/// Moves a file over another one with so many names, which loses this one first, as by `rm`. Before anything is changed it is
/// asked whether there is room for both; `Memory` is answered where there isn't.
fn take_over<P: SectorSpace>(
    volume: &mut Volume,
    alloc: Global,
    space: &mut P,
    from: &Path,
    to: &Path,
    above: &[Units],
    old: &Units,
    under: &[Units],
    name: &Units,
    links: u32,
) -> Result<(), Trouble>
    requires serves { Serves volume.old (P.SectorView.space space.old) }
    requires from_fits { FitsPath from.now }
    requires to_fits { FitsPath to.now }
    requires split { from.now ≡ path_to above.now old.now }
    requires goal_split { to.now ≡ path_to under.now name.now }
    requires not_own { is_private_path from.now ≡ false }
    requires goal_not_own { is_private_path to.now ≡ false }
    requires over { IsTrue (P.SectorView.space space.old).tells → ReplacesFile links (tree_of (P.SectorView.space space.old).content) from.now to.now }
    ensures takes { IsTrue (P.SectorView.space space.old).tells → OnOk result (TakesOver from.now to.now (P.SectorView.space space.old).content (P.SectorView.space space.new).content) }
    ensures tree { IsTrue (P.SectorView.space space.old).tells → OnOk result (tree_of (P.SectorView.space space.new).content ≡ (step (tree_of (P.SectorView.space space.old).content) (command.Mv from.now to.now)).1) }
    ensures serves { OnOk result (Serves volume.new (P.SectorView.space space.new)) }
    ensures edits { Edits P.SectorView.space P.SectorView.follows (P.SectorView.space space.old).spare volume.old volume.new space.old space.new result }
    ensures loads { IsTrue (P.SectorView.space space.old).tells → PutsItsLoad (command.Mv from.now to.now) volume.old (P.SectorView.space space.old) (P.SectorView.space space.new) }
{
    sound_has_plain_tree();
    let fits = fits_replace(volume, alloc, space, to, under, name, links)?;
    if !fits {
        return Err(Trouble::Memory);
    }
    if !fits_lose(volume, space) {
        return Err(Trouble::Memory);
    }
    rm(volume, alloc, space, to)?;
    let said = move_free(volume, alloc, space, from, to, above, old, under, name)?;
    match said {
        Ok(_done) => Ok(()),
        Err(_why) => Err(Trouble::Memory),
    }
}

/// Moves a file to the place of another one, which loses its name; a file onto itself stays. A folder is in the way.
pub(crate) fn mv_over<P: SectorSpace>(
    volume: &mut Volume,
    alloc: Global,
    space: &mut P,
    from: &Path,
    to: &Path,
    above: &[Units],
    old: &Units,
    under: &[Units],
    name: &Units,
) -> Result<Reply, Trouble>
    requires serves { Serves volume.old (P.SectorView.space space.old) }
    requires from_fits { FitsPath from.now }
    requires to_fits { FitsPath to.now }
    requires split { from.now ≡ path_to above.now old.now }
    requires goal_split { to.now ≡ path_to under.now name.now }
    requires not_own { is_private_path from.now ≡ false }
    requires goal_not_own { is_private_path to.now ≡ false }
    requires taken { IsTrue (P.SectorView.space space.old).tells → to_free (tree_of (P.SectorView.space space.old).content) from.now to.now ≡ Err refusal.Exists }
    ensures reply { IsTrue (P.SectorView.space space.old).tells → IfOk result (λ reply. reply ≡ (step_line (tree_of (P.SectorView.space space.old).content) (Ok (command.Mv from.now to.now))).0) }
    ensures tree { IsTrue (P.SectorView.space space.old).tells → OnOk result (tree_of (P.SectorView.space space.new).content ≡ (step_line (tree_of (P.SectorView.space space.old).content) (Ok (command.Mv from.now to.now))).1) }
    ensures refused { IsTrue (P.SectorView.space space.old).tells → IfOk result (λ reply. is_refusal reply ≡ true → (P.SectorView.space space.new).content ≡ (P.SectorView.space space.old).content) }
    ensures lists { IsTrue (P.SectorView.space space.old).tells → IfOk result (λ said. said ≡ reply.Ok → HasMoved from.now to.now (P.SectorView.space space.old).content (P.SectorView.space space.new).content) }
    ensures serves { OnOk result (Serves volume.new (P.SectorView.space space.new)) }
    ensures edits { Edits P.SectorView.space P.SectorView.follows (P.SectorView.space space.old).spare volume.old volume.new space.old space.new result }
    ensures loads { IsTrue (P.SectorView.space space.old).tells → PutsItsLoad (command.Mv from.now to.now) volume.old (P.SectorView.space space.old) (P.SectorView.space space.new) }
{
    let it = find_taking(volume, alloc, space, from, to)?;
    match it {
        Taking::Refused(why) => Ok(Reply::No(why)),
        Taking::Same => Ok(Reply::Ok),
        Taking::Over(links) => {
            take_over(
                volume, alloc, space, from, to, above, old, under, name, links,
            )?;
            Ok(Reply::Ok)
        }
    }
}
