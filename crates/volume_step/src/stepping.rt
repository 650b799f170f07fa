//! A command on a volume in service, weighed and done.
ghost use Rattle.std.specs.Prelude.{◌≡◌, ◌≢◌, ◌⊎◌, ℕ, [], ◌∷◌, true, false, None, IsTrue, IfOk, OnOk};
ghost use Rattle.hfs_volume.specs.TreeOf.{tree_of};
ghost use Rattle.hfs_volume.specs.Content.{volume_of};
ghost use Rattle.hfs_language.specs.Written.{FitsCommand};
ghost use Rattle.hfs_model.specs.Step.{only_reads};
ghost use Rattle.hfs_model.specs.declared.plain.PlainTree.{PlainTree};
ghost use Rattle.hfs_volume.specs.Aside.{IsJournalSector};
ghost use Rattle.hfs_volume.specs.Weight.{changes_nothing, data_of, needs_cut};
ghost use Rattle.volume_base.specs.Frame.{Frees, Serves};
ghost use Rattle.volume_base.specs.Keeping.{shrunk_of};
ghost use Rattle.volume_base.specs.Room.{capacity_of};
ghost use Rattle.volume_space.specs.Writing.{is_data_met};
ghost use Rattle.volume_space.specs.Zeroing.{HasFilled};
ghost use Rattle.volume_step.specs.Performing.{Performs};
ghost use Rattle.volume_step.specs.Anew.{FitsAlike, FitsAnew, IsAnew};
ghost use Rattle.volume_step.specs.Loads.{IsWithinLoad};
ghost use Rattle.volume_step.specs.Steps.{Affords, FillsMore, FitsNow, FitsReady, GoesFurther, HasFewLeft, IsDoneOk, IsMet, KeepsGrowth, KeepsJournal, LacksCutRoom, OwnOf, PutsNow, ShrinksAs, StepsNow, StepsTo};
ghost use Rattle.volume_step.specs.declared.outcome.Outcome.TheVariants as outcome;

use crate::answering::{answer, only_reads, refusal};
use crate::cutting::cut_first;
use crate::filling::fill_for;
use crate::growing::grow_first;
use crate::judging::{Verdict, judge};
use crate::linking::link_file;
use crate::making::{make_file, make_folder, move_entry};
use crate::marking::{date, set_mode};
use crate::outcome::Outcome;
use crate::owning::{delete_attribute, set_attribute};
use crate::removing::{remove_file, remove_folder};
use crate::resizing::{resize, write_value};
use hfs_language::Command;
use hx_bytes::Trouble;
use sector_disk::SectorSpace;
use std::alloc::Global;
use volume_base::Volume;
use volume_space::Zeros;

/// Does a command for which nothing is missing, and which gives no file other bytes, nor an attribute a value; it is done where its edits are met. None
/// of the others comes here.
fn perform_without_data<P: SectorSpace>(
    alloc: Global,
    volume: &mut Volume,
    space: &mut P,
    number: u64,
    command: &Command,
) -> Result<Outcome, Trouble>
    requires serves { Serves volume.old (P.SectorView.space space.old) }
    requires fits { FitsCommand command.now }
    requires affords { IsTrue (P.SectorView.space space.old).tells → Affords (capacity_of volume.old) command.now (P.SectorView.space space.old).content }
    ensures answered { IsTrue (P.SectorView.space space.old).tells → IfOk result (λ outcome. StepsNow outcome (capacity_of volume.old) number command.now (P.SectorView.space space.old).content (P.SectorView.space space.new).content) }
    ensures done { IsTrue (P.SectorView.space space.old).tells → IsMet command.now volume.old (P.SectorView.space space.old) → IfOk result IsDoneOk }
    ensures still { IsTrue (P.SectorView.space space.old).tells → changes_nothing (tree_of (P.SectorView.space space.old).content) command.now ≡ true → IfOk result IsDoneOk }
    // It puts no data.
    ensures plain { OnOk result ((tree : PlainTree) → data_of tree command.now ≡ None) }
    ensures place { IsTrue (P.SectorView.space space.old).tells → OnOk result (KeepsJournal (P.SectorView.space space.old).content (P.SectorView.space space.new).content) }
    ensures loads { IsTrue (P.SectorView.space space.old).tells → IsWithinLoad command.now volume.old (P.SectorView.space space.old) (P.SectorView.space space.new) }
    ensures frees { Frees P.SectorView.space P.SectorView.follows volume.old volume.new space.old space.new result }
    ensures serves { OnOk result (Serves volume.new (P.SectorView.space space.new)) }
    ensures shrunk { IsTrue (P.SectorView.space space.old).tells → IfOk result (λ outcome. ShrinksAs outcome command.now (P.SectorView.space space.old).content (shrunk_of volume.old) (shrunk_of volume.new)) }
{
    match command {
        Command::At(moment) => date(alloc, volume, space, number, *moment),
        Command::Chmod { path, mode } => set_mode(alloc, volume, space, number, path, *mode),
        Command::DelAttr { path, name } => {
            delete_attribute(alloc, volume, space, number, path, name)
        }
        Command::Mkdir(path) => make_folder(alloc, volume, space, number, path),
        Command::Create(path) => make_file(alloc, volume, space, number, path),
        Command::Mv(from, to) => move_entry(alloc, volume, space, number, from, to),
        Command::Rmdir(path) => remove_folder(alloc, volume, space, number, path),
        Command::Rm(path) => remove_file(alloc, volume, space, number, path),
        Command::Ln(from, to) => link_file(alloc, volume, space, number, from, to),
        Command::Trunc { .. }
        | Command::Write { .. }
        | Command::SetAttr { .. }
        | Command::Read { .. }
        | Command::Ls(_)
        | Command::Stat(_)
        | Command::GetAttr { .. }
        | Command::LsAttr(_)
        | Command::Df
        | Command::Sync => Err(Trouble::Memory),
    }
}

/// Does a command for which nothing is missing, and no more zero blocks are to be filled than its last step fills.
fn perform_now<P: SectorSpace>(
    alloc: Global,
    volume: &mut Volume,
    space: &mut P,
    number: u64,
    command: &Command,
) -> Result<Outcome, Trouble>
    requires serves { Serves volume.old (P.SectorView.space space.old) }
    requires filled { HasFilled volume.old (P.SectorView.space space.old) }
    requires fits { FitsCommand command.now }
    requires closed { IsTrue (P.SectorView.space space.old).tells → (at : ℕ) → (P.SectorView.space space.old).closed at → IsJournalSector (P.SectorView.space space.old).content at }
    requires affords { IsTrue (P.SectorView.space space.old).tells → Affords (capacity_of volume.old) command.now (P.SectorView.space space.old).content }
    ensures answered { IsTrue (P.SectorView.space space.old).tells → IfOk result (λ outcome. StepsNow outcome (capacity_of volume.old) number command.now (P.SectorView.space space.old).content (P.SectorView.space space.new).content) }
    // Where it fits now, no commit comes first.
    ensures ready { IsTrue (P.SectorView.space space.old).tells → only_reads command.now ≡ false → (now : FitsNow command.now volume.old (P.SectorView.space space.old)) → now.grow ≡ 0 ∷ 0 ∷ 0 ∷ [] → IfOk result (λ it. it ≢ outcome.CommitFirst) }
    // Where its data is met, none does either.
    ensures puts { IsTrue (P.SectorView.space space.old).tells → is_data_met volume.old (P.SectorView.space space.old).spare (volume_of (P.SectorView.space space.old).content) (data_of (tree_of (P.SectorView.space space.old).content) command.now) ≡ true → IfOk result (λ it. it ≢ outcome.CommitFirst) }
    ensures place { IsTrue (P.SectorView.space space.old).tells → OnOk result (KeepsJournal (P.SectorView.space space.old).content (P.SectorView.space space.new).content) }
    ensures shrunk { IsTrue (P.SectorView.space space.old).tells → IfOk result (λ outcome. ShrinksAs outcome command.now (P.SectorView.space space.old).content (shrunk_of volume.old) (shrunk_of volume.new)) }
    ensures loads { IsTrue (P.SectorView.space space.old).tells → IsWithinLoad command.now volume.old (P.SectorView.space space.old) (P.SectorView.space space.new) }
    ensures frame { Performs P.SectorView.space P.SectorView.follows (OwnOf volume.old volume.new) volume.old volume.new space.old space.new result }
{
    match command {
        Command::Trunc { path, size } => resize(alloc, volume, space, number, path, *size),
        Command::Write { path, from, value } => {
            write_value(alloc, volume, space, number, path, *from, value.as_slice())
        }
        Command::SetAttr { path, name, value } => {
            set_attribute(alloc, volume, space, number, path, name, value.as_slice())
        }
        _ => perform_without_data(alloc, volume, space, number, command),
    }
}

/// The same; behind it no growth is in hand.
fn perform_last<P: SectorSpace>(
    alloc: Global,
    volume: &mut Volume,
    space: &mut P,
    number: u64,
    command: &Command,
) -> Result<Outcome, Trouble>
    requires serves { Serves volume.old (P.SectorView.space space.old) }
    requires filled { HasFilled volume.old (P.SectorView.space space.old) }
    requires fits { FitsCommand command.now }
    requires closed { IsTrue (P.SectorView.space space.old).tells → (at : ℕ) → (P.SectorView.space space.old).closed at → IsJournalSector (P.SectorView.space space.old).content at }
    requires affords { IsTrue (P.SectorView.space space.old).tells → Affords (capacity_of volume.old) command.now (P.SectorView.space space.old).content }
    ensures answered { IsTrue (P.SectorView.space space.old).tells → IfOk result (λ outcome. StepsNow outcome (capacity_of volume.old) number command.now (P.SectorView.space space.old).content (P.SectorView.space space.new).content) }
    // Where it fits now, no commit comes first.
    ensures ready { IsTrue (P.SectorView.space space.old).tells → only_reads command.now ≡ false → (now : FitsNow command.now volume.old (P.SectorView.space space.old)) → now.grow ≡ 0 ∷ 0 ∷ 0 ∷ [] → IfOk result (λ it. it ≢ outcome.CommitFirst) }
    // Where its data is met, none does either.
    ensures puts { IsTrue (P.SectorView.space space.old).tells → is_data_met volume.old (P.SectorView.space space.old).spare (volume_of (P.SectorView.space space.old).content) (data_of (tree_of (P.SectorView.space space.old).content) command.now) ≡ true → IfOk result (λ it. it ≢ outcome.CommitFirst) }
    ensures place { IsTrue (P.SectorView.space space.old).tells → OnOk result (KeepsJournal (P.SectorView.space space.old).content (P.SectorView.space space.new).content) }
    ensures filled { OnOk result (HasFilled volume.new (P.SectorView.space space.new)) }
    ensures dropped { OnOk result (volume.new.filling ≡ None) }
    ensures shrunk { IsTrue (P.SectorView.space space.old).tells → IfOk result (λ outcome. ShrinksAs outcome command.now (P.SectorView.space space.old).content (shrunk_of volume.old) (shrunk_of volume.new)) }
    ensures loads { IsTrue (P.SectorView.space space.old).tells → IsWithinLoad command.now volume.old (P.SectorView.space space.old) (P.SectorView.space space.new) }
    ensures frame { Performs P.SectorView.space P.SectorView.follows (OwnOf volume.old volume.new) volume.old volume.new space.old space.new result }
{
    let came = perform_now(alloc, volume, space, number, command)?;
    volume.filling = None;
    Ok(came)
}

/// Does a command for which nothing is missing; or zero blocks of its growth are filled first, or a commit is wanted before them.
fn perform<P: SectorSpace>(
    alloc: Global,
    volume: &mut Volume,
    space: &mut P,
    number: u64,
    command: &Command,
) -> Result<Outcome, Trouble>
    requires serves { Serves volume.old (P.SectorView.space space.old) }
    requires filled { HasFilled volume.old (P.SectorView.space space.old) }
    requires fits { FitsCommand command.now }
    requires closed { IsTrue (P.SectorView.space space.old).tells → (at : ℕ) → (P.SectorView.space space.old).closed at → IsJournalSector (P.SectorView.space space.old).content at }
    requires affords { IsTrue (P.SectorView.space space.old).tells → Affords (capacity_of volume.old) command.now (P.SectorView.space space.old).content }
    // No blocks past its file's size stand in its way.
    requires uncut { IsTrue (P.SectorView.space space.old).tells → needs_cut (volume_of (P.SectorView.space space.old).content) (data_of (tree_of (P.SectorView.space space.old).content) command.now) ≡ false }
    ensures answered { IsTrue (P.SectorView.space space.old).tells → IfOk result (λ outcome. StepsTo outcome (capacity_of volume.old) number command.now (P.SectorView.space space.old).content (P.SectorView.space space.new).content) }
    // Where it fits now, no commit comes first.
    ensures ready { IsTrue (P.SectorView.space space.old).tells → only_reads command.now ≡ false → (now : FitsNow command.now volume.old (P.SectorView.space space.old)) → now.grow ≡ 0 ∷ 0 ∷ 0 ∷ [] → IfOk result (λ it. it ≢ outcome.CommitFirst) }
    ensures puts { IsTrue (P.SectorView.space space.old).tells → PutsNow command.now volume.old (P.SectorView.space space.old) → IfOk result (λ it. it ≢ outcome.CommitFirst) }
    // Each time that it is to be tried again there are more zero blocks.
    ensures further { IsTrue (P.SectorView.space space.old).tells → IfOk result (λ it. it ≡ outcome.Again → FillsMore (data_of (tree_of (P.SectorView.space space.old).content) command.now) volume.old.filling volume.new.filling) }
    ensures least { IsTrue (P.SectorView.space space.old).tells → IfOk result (λ it. IsDoneOk it → HasFewLeft command.now volume.old.filling (P.SectorView.space space.old).content) }
    // A growth in hand behind it is its own, and then it is to be tried again.
    ensures hand { IsTrue (P.SectorView.space space.old).tells → IfOk result (λ it. KeepsGrowth it (data_of (tree_of (P.SectorView.space space.old).content) command.now) volume.new.filling) }
    ensures place { IsTrue (P.SectorView.space space.old).tells → OnOk result (KeepsJournal (P.SectorView.space space.old).content (P.SectorView.space space.new).content) }
    ensures filled { OnOk result (HasFilled volume.new (P.SectorView.space space.new)) }
    ensures shrunk { IsTrue (P.SectorView.space space.old).tells → IfOk result (λ outcome. ShrinksAs outcome command.now (P.SectorView.space space.old).content (shrunk_of volume.old) (shrunk_of volume.new)) }
    ensures loads { IsTrue (P.SectorView.space space.old).tells → IsWithinLoad command.now volume.old (P.SectorView.space space.old) (P.SectorView.space space.new) }
    ensures frame { Performs P.SectorView.space P.SectorView.follows (OwnOf volume.old volume.new) volume.old volume.new space.old space.new result }
{
    let zeros = fill_for(alloc, volume, space, command)?;
    match zeros {
        Zeros::Few => perform_last(alloc, volume, space, number, command),
        Zeros::Filled => Ok(Outcome::Again),
        Zeros::CommitFirst => {
            volume.filling = None;
            Ok(Outcome::CommitFirst)
        }
    }
}

/// Judges a command that changes the volume, and does it where nothing is missing for it.
fn change<P: SectorSpace>(
    alloc: Global,
    volume: &mut Volume,
    space: &mut P,
    number: u64,
    command: &Command,
) -> Result<Outcome, Trouble>
    requires serves { Serves volume.old (P.SectorView.space space.old) }
    requires filled { HasFilled volume.old (P.SectorView.space space.old) }
    requires fits { FitsCommand command.now }
    requires closed { IsTrue (P.SectorView.space space.old).tells → (at : ℕ) → (P.SectorView.space space.old).closed at → IsJournalSector (P.SectorView.space space.old).content at }
    requires changes { only_reads command.now ≡ false }
    ensures answered { IsTrue (P.SectorView.space space.old).tells → IfOk result (λ outcome. StepsTo outcome (capacity_of volume.old) number command.now (P.SectorView.space space.old).content (P.SectorView.space space.new).content) }
    // Where it is ready, no commit comes first.
    ensures ready { IsTrue (P.SectorView.space space.old).tells → FitsReady command.now volume.old (P.SectorView.space space.old) → IfOk result (λ it. it ≢ outcome.CommitFirst) }
    ensures puts { IsTrue (P.SectorView.space space.old).tells → PutsNow command.now volume.old (P.SectorView.space space.old) → IfOk result (λ it. it ≢ outcome.CommitFirst) }
    // Where it costs the same of all free blocks as of those that may be taken, none does either.
    ensures alike { IsTrue (P.SectorView.space space.old).tells → FitsAlike command.now volume.old (P.SectorView.space space.old) → IfOk result (λ it. it ≢ outcome.CommitFirst) }
    // Where a cut goes ahead of it, one does only where there is too little room for the cut.
    ensures short { IsTrue (P.SectorView.space space.old).tells → needs_cut (volume_of (P.SectorView.space space.old).content) (data_of (tree_of (P.SectorView.space space.old).content) command.now) ≡ true → IfOk result (λ it. it ≡ outcome.CommitFirst → LacksCutRoom volume.old (P.SectorView.space space.old)) }
    ensures further { IsTrue (P.SectorView.space space.old).tells → IfOk result (λ it. it ≡ outcome.Again → GoesFurther (capacity_of volume.old) command.now volume.old.filling volume.new.filling (P.SectorView.space space.old).content (P.SectorView.space space.new).content) }
    ensures least { IsTrue (P.SectorView.space space.old).tells → IfOk result (λ it. IsDoneOk it → HasFewLeft command.now volume.old.filling (P.SectorView.space space.old).content) }
    // A growth in hand behind it is its own, and then it is to be tried again.
    ensures hand { IsTrue (P.SectorView.space space.old).tells → IfOk result (λ it. KeepsGrowth it (data_of (tree_of (P.SectorView.space space.old).content) command.now) volume.new.filling) }
    ensures place { IsTrue (P.SectorView.space space.old).tells → OnOk result (KeepsJournal (P.SectorView.space space.old).content (P.SectorView.space space.new).content) }
    ensures filled { OnOk result (HasFilled volume.new (P.SectorView.space space.new)) }
    ensures shrunk { IsTrue (P.SectorView.space space.old).tells → IfOk result (λ outcome. ShrinksAs outcome command.now (P.SectorView.space space.old).content (shrunk_of volume.old) (shrunk_of volume.new)) }
    ensures loads { IsTrue (P.SectorView.space space.old).tells → IsWithinLoad command.now volume.old (P.SectorView.space space.old) (P.SectorView.space space.new) }
    ensures frame { Performs P.SectorView.space P.SectorView.follows (OwnOf volume.old volume.new) volume.old volume.new space.old space.new result }
{
    match judge(alloc, volume, space, command)? {
        Verdict::Refused(why) => {
            volume.filling = None;
            Ok(refusal(alloc, why))
        }
        Verdict::CutFirst => cut_first(alloc, volume, space, number, command),
        Verdict::CommitFirst => {
            volume.filling = None;
            Ok(Outcome::CommitFirst)
        }
        Verdict::Grows { tree, more } => {
            grow_first(alloc, volume, space, number, command, tree, more)
        }
        Verdict::Fits => perform(alloc, volume, space, number, command),
    }
}

/// Weighs a command, whose line has this number, and does it: what it came to is that of the plain tree's step, or a refusal for
/// want of a resource; or it is to be tried again, since a cut, the growth of a tree or zero blocks went ahead of it; or a commit is wanted before it, and
/// nothing was changed. So it is where its load is more than may be put, or the growth doesn't fit. `Memory` comes where memory is wanting,
/// `Disk` where a read failed.
pub fn step<P: SectorSpace>(
    alloc: Global,
    volume: &mut Volume,
    space: &mut P,
    number: u64,
    command: &Command,
) -> Result<Outcome, Trouble>
    requires serves { Serves volume.old (P.SectorView.space space.old) }
    requires filled { HasFilled volume.old (P.SectorView.space space.old) }
    requires fits { FitsCommand command.now }
    // Only the journal's sectors are closed.
    requires closed { IsTrue (P.SectorView.space space.old).tells → (at : ℕ) → (P.SectorView.space space.old).closed at → IsJournalSector (P.SectorView.space space.old).content at }
    // Told, the line's entry is one of a run, with what it changed for watchers.
    ensures answered { IsTrue (P.SectorView.space space.old).tells → IfOk result (λ outcome. StepsTo outcome (capacity_of volume.old) number command.now (P.SectorView.space space.old).content (P.SectorView.space space.new).content) }
    // No commit comes first where the command reads alone; nor where it puts no data into a file, and what it costs of the blocks that may be taken
    // is a load that the room suffices for; nor where it puts data, and that is met.
    ensures ready { IsTrue (P.SectorView.space space.old).tells → (only_reads command.now ≡ true) ⊎ (FitsReady command.now volume.old (P.SectorView.space space.old) ⊎ PutsNow command.now volume.old (P.SectorView.space space.old)) → IfOk result (λ it. it ≢ outcome.CommitFirst) }
    // On a transaction to which nothing was put none comes first where nothing is missing for the command.
    ensures anew { IsTrue (P.SectorView.space space.old).tells → IsAnew volume.old (P.SectorView.space space.old) → FitsAnew command.now volume.old (P.SectorView.space space.old).content → IfOk result (λ it. it ≢ outcome.CommitFirst) }
    // Where a cut goes ahead of it, one comes first only where there is too little room for the cut.
    ensures short { IsTrue (P.SectorView.space space.old).tells → needs_cut (volume_of (P.SectorView.space space.old).content) (data_of (tree_of (P.SectorView.space space.old).content) command.now) ≡ true → IfOk result (λ it. it ≡ outcome.CommitFirst → LacksCutRoom volume.old (P.SectorView.space space.old)) }
    // Each time that it is to be tried again less is left to go ahead of it.
    ensures further { IsTrue (P.SectorView.space space.old).tells → IfOk result (λ it. it ≡ outcome.Again → GoesFurther (capacity_of volume.old) command.now volume.old.filling volume.new.filling (P.SectorView.space space.old).content (P.SectorView.space space.new).content) }
    // It is done only where no more zero blocks are left than the last step fills.
    ensures least { IsTrue (P.SectorView.space space.old).tells → IfOk result (λ it. IsDoneOk it → HasFewLeft command.now volume.old.filling (P.SectorView.space space.old).content) }
    // A growth in hand behind it is its own, and then it is to be tried again.
    ensures hand { IsTrue (P.SectorView.space space.old).tells → IfOk result (λ it. KeepsGrowth it (data_of (tree_of (P.SectorView.space space.old).content) command.now) volume.new.filling) }
    // The journal lies where it lay, and the header is one of the same volume.
    ensures place { IsTrue (P.SectorView.space space.old).tells → OnOk result (KeepsJournal (P.SectorView.space space.old).content (P.SectorView.space space.new).content) }
    ensures filled { OnOk result (HasFilled volume.new (P.SectorView.space space.new)) }
    // The file that was shrunk last is the one that the command shrank, where it shrank one.
    ensures shrunk { IsTrue (P.SectorView.space space.old).tells → IfOk result (λ outcome. ShrinksAs outcome command.now (P.SectorView.space space.old).content (shrunk_of volume.old) (shrunk_of volume.new)) }
    // Where it costs a load of the blocks that may be taken, it takes no more room for puts than that names, whatever it comes to: on a fault too, and
    // where a cut or the growth of a tree goes ahead of it.
    ensures loads { IsTrue (P.SectorView.space space.old).tells → IsWithinLoad command.now volume.old (P.SectorView.space space.old) (P.SectorView.space space.new) }
    ensures frame { Performs P.SectorView.space P.SectorView.follows (OwnOf volume.old volume.new) volume.old volume.new space.old space.new result }
{
    if only_reads(command) {
        volume.filling = None;
        return answer(alloc, volume, space, number, command);
    }
    change(alloc, volume, space, number, command)
}
