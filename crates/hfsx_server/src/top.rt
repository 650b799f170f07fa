// The top call of the program.
ghost use Rattle.std.specs.Prelude.{◌≡◌, ◌≢◌, ◌⊎◌, ◌↔◌, ◌++◌, ◌<◌, ◌≤◌, [], ℕ, List, IsTrue, false, length};
ghost use Rattle.std.specs.List.{AllByRecursion};
ghost use Rattle.sector_disk.specs.Cause.{Rose};
ghost use Rattle.sector_disk.specs.Disk.{SameDisk, HasNothingPending, content};
ghost use Rattle.jnl_format.specs.Recovery.{Content};
ghost use Rattle.hfs_language.specs.Lines.{lines};
ghost use Rattle.hfs_language.specs.declared.reply.Change.{Change};
ghost use Rattle.hfs_volume.specs.Mount.{IsMountable, Mounts};
ghost use Rattle.hfs_serving.specs.Ending.{AnswersRun, AnswersToTheLast, FinishesRun};
ghost use Rattle.hfs_serving.specs.Steps.{KeepsRun};
ghost use Rattle.volume_make.specs.Layout.{free_of};
ghost use Rattle.hfsx_server.specs.Checking.{IsSoundImage, ToldBroken, ToldCheckRefusal, ToldSound};
ghost use Rattle.hfsx_server.specs.Generating.{ToldPlayed};
ghost use Rattle.hfsx_server.specs.Made.{IsMade, IsNoSize, made_layout};
ghost use Rattle.hfs_volume.specs.Sound.{IsSound};
ghost use Rattle.hfsx_server.specs.Repairing.{CanBeRepaired, IsMendableImage, KeepsImage, ToldRepairRefusal, ToldRepaired, repaired_text};
ghost use Rattle.hfsx_server.specs.Telling.{Tells, ToldRefusal, ToldUnlessFailed, refusal_text, size_refusal, usage_text, formatted_text};
ghost use Rattle.hfsx_server.specs.Sessions.{ServesSessions};
ghost use Rattle.hfsx_server.specs.Watching.{IsHeard};
ghost use Rattle.cli_words.specs.Words.{texts, AreRun, AreCheck, AreRepair, AreSessions, AreFormat, AreGen, AreInUse};
ghost use Rattle.watchers.specs.Told.{AreTold};

use crate::formatting::refused_size;
use crate::{
    Status, check, format, generate, repair, run, serve_sessions, tell_refusal, tell_usage,
};
use cli_words::{Work, named_work, read_words};
use hx_bytes::OutOfMemory;
use line_source::LineSource;
use sector_disk::Rig;
use std::alloc::Global;
use watchers::Watcher;

/// Does what the words after the program's name ask for, on an image and with the lines of a source.
///
/// `format IMAGE SECTORS` makes an empty volume, `run IMAGE` answers line after line, and `check IMAGE` says whether the volume is
/// sound. `sessions IMAGE` answers lines of many sessions, which may hold files open whatever becomes of their names. `repair IMAGE` counts
/// anew what can be counted of the volume, in one transaction. The name of the image is the caller's, who opened it. `gen SEED COUNT` plays
/// generated lines on a volume in memory, and leaves the image alone. Other words tell how the program is called. Watchers are told what the
/// lines of a `run` or of `sessions` changed, once it is durable and before the replies; one that leaves is gone from the list.
pub fn hfsx<R: Rig, S: LineSource, W: Watcher>(
    alloc: Global,
    words: &[String],
    rig: &mut R,
    source: &mut S,
    watchers: &mut Vec<W>,
) -> Status
    // Status 2 stands, whatever memory there is, exactly where the words are wrong, or don't give the image's number of sectors.
    ensures usage { (result ≡ Status.Usage) ↔ ¬ (AreInUse (texts words.now) (R.state rig.old).sectors) }
    ensures usage_told { IsTrue (R.state rig.old).tells → result ≡ Status.Usage → ToldUnlessFailed (R.state rig.old) (R.state rig.new) usage_text }

    // `format`: status 1 stands exactly where the image has fewer than 16,384 sectors or more than 2,147,483,648.
    ensures format_refused { AreFormat (texts words.now) (R.state rig.old).sectors → (result ≡ Status.Refused) ↔ IsNoSize (R.state rig.old).sectors }
    ensures format_refusal { AreFormat (texts words.now) (R.state rig.old).sectors → IsTrue (R.state rig.old).tells → result ≡ Status.Refused
        → ToldUnlessFailed (R.state rig.old) (R.state rig.new) (refusal_text (size_refusal (R.state rig.old).sectors)) }
    // Status 0 means that its line was told, with its blocks and those that are free.
    ensures format_told { AreFormat (texts words.now) (R.state rig.old).sectors → IsTrue (R.state rig.old).tells → result ≡ Status.Done
        → (R.state rig.new).told ≡ (R.state rig.old).told ++ formatted_text (made_layout (R.state rig.old).sectors).total (free_of (made_layout (R.state rig.old).sectors)) }
    // It means that each part of the volume has its text, that nothing is pending, and that what the image has is a sound volume of the
    // root alone, which can be mounted.
    ensures format_made { AreFormat (texts words.now) (R.state rig.old).sectors → IsTrue (R.state rig.old).tells → result ≡ Status.Done → IsMade (R.state rig.old) (R.state rig.new) }

    // `run`: status 1 stands exactly where the image isn't mountable, unless it couldn't be read, and then the first refusal
    // that stands is told.
    ensures run_refused { AreRun (texts words.now) → IsTrue (R.state rig.old).tells → result ≡ Status.Refused → ToldRefusal (R.state rig.old) (R.state rig.new) × ¬ IsMountable (content (R.state rig.old)) }
    ensures run_refuses { AreRun (texts words.now) → IsTrue (R.state rig.old).tells → ¬ IsMountable (content (R.state rig.old))
        → (result ≡ Status.Refused) ⊎ ((result ≡ Status.Disk) ⊎ (result ≡ Status.Memory)) }
    // From a mountable image with nothing pending, whatever ends the run and whenever power fails: there is one run, so that each
    // image that a crash may leave mounts to the tree after some of its lines, which has each line whose reply was told by then.
    ensures headline { AreRun (texts words.now) → IsTrue (R.state rig.old).tells → HasNothingPending (R.state rig.old) → (capacity : ℕ) (start : Content) → Mounts (content (R.state rig.old)) capacity start
        → KeepsRun capacity start (R.state rig.old) (S.stream source.old) (R.state rig.new) (S.stream source.new) }
    // Status 0 means that all lines of the source were answered and told, and that the volume is unmounted.
    ensures finished { AreRun (texts words.now) → IsTrue (R.state rig.old).tells → HasNothingPending (R.state rig.old) → (capacity : ℕ) (start : Content) → Mounts (content (R.state rig.old)) capacity start → result ≡ Status.Done
        → FinishesRun capacity start (R.state rig.old) (S.stream source.old) (R.state rig.new) (S.stream source.new) }
    // Status 4: each whole line that was taken has its reply told. Status 7: each line before the one too many.
    ensures source_stopped { AreRun (texts words.now) → IsTrue (R.state rig.old).tells → HasNothingPending (R.state rig.old) → (capacity : ℕ) (start : Content) → Mounts (content (R.state rig.old)) capacity start → result ≡ Status.Source
        → AnswersRun capacity start (R.state rig.old) (S.stream source.old) (R.state rig.new) (S.stream source.new) }
    ensures many_stopped { AreRun (texts words.now) → IsTrue (R.state rig.old).tells → HasNothingPending (R.state rig.old) → (capacity : ℕ) (start : Content) → Mounts (content (R.state rig.old)) capacity start → result ≡ Status.TooMany
        → AnswersToTheLast capacity start (R.state rig.old) (S.stream source.old) (R.state rig.new) (S.stream source.new) }
    // Watchers that stay are told, in order and once, what the first of these lines changed, which each crash at the end leaves.
    ensures watched { AreRun (texts words.now) → (heard : List Change) × (AllByRecursion (λ w. W.leaves w ≡ false) watchers.old.items → AreTold W.told W.leaves heard watchers.old.items watchers.new.items)
        × (IsTrue (R.state rig.old).tells → HasNothingPending (R.state rig.old) → (capacity : ℕ) (start : Content) → Mounts (content (R.state rig.old)) capacity start
        → IsHeard result heard capacity start (R.state rig.old) (S.stream source.old) (R.state rig.new) (S.stream source.new)) }
    // Other work has no changes.
    ensures unwatched { ¬ (AreRun (texts words.now)) → ¬ (AreSessions (texts words.now)) → watchers.new ≡ watchers.old }
    ensures end { AreRun (texts words.now) → IsTrue (S.stream source.old).tells → result ≡ Status.Done → (S.stream source.new).left ≡ [] }
    // Status 7 stands exactly where line number 4,294,967,295 is read.
    ensures many { IsTrue (S.stream source.old).tells → result ≡ Status.TooMany → 4294967295 < length (lines (S.stream source.old).left) }
    ensures few { AreRun (texts words.now) → IsTrue (S.stream source.old).tells → result ≡ Status.Done → length (lines (S.stream source.old).left) ≤ 4294967295 }

    // `check`: status 0 stands only where the image, with its journal replayed, is a sound volume, and the line with its numbers was
    // told. Status 1 stands exactly where it isn't, unless it couldn't be read: the first refusal was told, or findings of which each
    // is broken. Nothing is written, whatever it finds.
    ensures check_sound { AreCheck (texts words.now) → IsTrue (R.state rig.old).tells → result ≡ Status.Done → ToldSound (R.state rig.old) (R.state rig.new) }
    ensures check_found { AreCheck (texts words.now) → IsTrue (R.state rig.old).tells → result ≡ Status.Refused
        → ¬ IsSoundImage (content (R.state rig.old)) × (ToldCheckRefusal (R.state rig.old) (R.state rig.new) ⊎ ToldBroken (R.state rig.old) (R.state rig.new)) }
    ensures check_finds { AreCheck (texts words.now) → IsTrue (R.state rig.old).tells → ¬ IsSoundImage (content (R.state rig.old))
        → (result ≡ Status.Refused) ⊎ ((result ≡ Status.Disk) ⊎ (result ≡ Status.Memory)) }
    ensures check_unwritten { AreCheck (texts words.now) → ((R.state rig.new).candidates ≡ (R.state rig.old).candidates) × ((R.state rig.new).barriers ≡ (R.state rig.old).barriers) }

    // `gen`: with status 0 its line was told, with the numbers of the stream's lines that were done and refused in runs from an empty volume, and that the
    // volume in memory is sound. Status 1 doesn't stand. Nothing is written.
    ensures gen_told { (seed count : ℕ) → AreGen (texts words.now) seed count → IsTrue (R.state rig.old).tells → result ≡ Status.Done → ToldPlayed seed count (R.state rig.old) (R.state rig.new) }
    ensures gen_sound { (seed count : ℕ) → AreGen (texts words.now) seed count → result ≢ Status.Refused }
    ensures gen_unwritten { (seed count : ℕ) → AreGen (texts words.now) seed count → ((R.state rig.new).candidates ≡ (R.state rig.old).candidates) × ((R.state rig.new).barriers ≡ (R.state rig.old).barriers) }

    // `repair`: status 1 stands exactly where the image can't be repaired, unless it couldn't be read, and then the first refusal that stands is
    // told, or what was found of the repair.
    ensures repair_refused { AreRepair (texts words.now) → IsTrue (R.state rig.old).tells → result ≡ Status.Refused → ToldRepairRefusal (R.state rig.old) (R.state rig.new) × ¬ CanBeRepaired (content (R.state rig.old)) }
    ensures repair_refuses { AreRepair (texts words.now) → IsTrue (R.state rig.old).tells → ¬ CanBeRepaired (content (R.state rig.old))
        → (result ≡ Status.Refused) ⊎ ((result ≡ Status.Disk) ⊎ (result ≡ Status.Memory)) }
    // It isn't written, whatever the status.
    ensures repair_unwritten { AreRepair (texts words.now) → IsTrue (R.state rig.old).tells → ¬ CanBeRepaired (content (R.state rig.old))
        → ((R.state rig.new).candidates ≡ (R.state rig.old).candidates) × ((R.state rig.new).barriers ≡ (R.state rig.old).barriers) }
    // From an image with nothing pending that can be repaired, whatever ends it and whenever power fails: each image that a crash may leave is found to
    // be what the image stood for or its sound repair, and the repair once its line was told, but in the journal, in its info block and in the last
    // mounted version.
    ensures repair_keeps { AreRepair (texts words.now) → IsTrue (R.state rig.old).tells → HasNothingPending (R.state rig.old) → (capacity : ℕ) (start : Content) → IsMendableImage (content (R.state rig.old)) capacity start
        → KeepsImage capacity start (R.state rig.old) (R.state rig.new) }
    // Status 0 means that its line was told, and that the repair stands on the image, with nothing pending and an empty journal. A sound volume gets 0.
    ensures repair_done { AreRepair (texts words.now) → IsTrue (R.state rig.old).tells → HasNothingPending (R.state rig.old) → (capacity : ℕ) (start : Content) → IsMendableImage (content (R.state rig.old)) capacity start → result ≡ Status.Done
        → ToldRepaired capacity start (R.state rig.old) (R.state rig.new) }
    ensures repair_sound { AreRepair (texts words.now) → IsTrue (R.state rig.old).tells → HasNothingPending (R.state rig.old) → (capacity : ℕ) (start : Content) → IsMendableImage (content (R.state rig.old)) capacity start → IsSound start → result ≡ Status.Done
        → (R.state rig.new).told ≡ (R.state rig.old).told ++ repaired_text 0 }

    // `sessions`: what it refuses and what it promises, whatever ends it and whenever power fails.
    ensures sessions { AreSessions (texts words.now) → ServesSessions result (R.state rig.old) (S.stream source.old) (R.state rig.new) (S.stream source.new) }
    // Watchers that stay are told the same changes, in order and once.
    ensures sessions_watched { AreSessions (texts words.now) → (heard : List Change) × (AllByRecursion (λ w. W.leaves w ≡ false) watchers.old.items → AreTold W.told W.leaves heard watchers.old.items watchers.new.items) }

    // What is refused, and wrong words, leave the image as it was.
    ensures unwritten { (result ≡ Status.Refused) ⊎ (result ≡ Status.Usage) → (R.state rig.new).candidates ≡ (R.state rig.old).candidates }

    ensures disk { result ≡ Status.Disk → Rose (R.state rig.old).faults (R.state rig.new).faults }
    ensures source { result ≡ Status.Source → Rose (S.stream source.old).faults (S.stream source.new).faults }
    ensures sink { result ≡ Status.Sink → Rose (R.state rig.old).sink_faults (R.state rig.new).sink_faults }
    ensures same { SameDisk (R.state rig.old) (R.state rig.new) }
{
    match read_words(alloc, words) {
        Ok(Work::Run) => run(alloc, rig, source, watchers),
        Ok(Work::Check) => check(alloc, rig),
        Ok(Work::Repair) => repair(alloc, rig),
        Ok(Work::Sessions) => serve_sessions(alloc, rig, source, watchers),
        Ok(Work::Gen { seed, count }) => generate(alloc, rig, seed, count),
        Ok(Work::Format { sectors }) => {
            if sectors == rig.sectors() {
                format(alloc, rig)
            } else {
                tell_usage(rig);
                Status::Usage
            }
        }
        Ok(Work::Wrong) => {
            tell_usage(rig);
            Status::Usage
        }
        Err(OutOfMemory) => match named_work(words) {
            Work::Format { sectors } => refuse_format(rig, sectors),
            _ => Status::Memory,
        },
    }
}

// How `format` ends where there is no memory for it: what is refused without memory is refused all the same.
fn refuse_format<R: Rig>(rig: &mut R, sectors: u64) -> Status
    ensures kinds { (result ≡ Status.Usage) ⊎ ((result ≡ Status.Refused) ⊎ (result ≡ Status.Memory)) }
    ensures usage { (result ≡ Status.Usage) ↔ (sectors ≢ (R.state rig.old).sectors) }
    ensures usage_told { result ≡ Status.Usage → Tells (R.state rig.old) (R.state rig.new) usage_text }
    ensures refused { sectors ≡ (R.state rig.old).sectors → (result ≡ Status.Refused) ↔ IsNoSize (R.state rig.old).sectors }
    ensures refusal { result ≡ Status.Refused → Tells (R.state rig.old) (R.state rig.new) (refusal_text (size_refusal (R.state rig.old).sectors)) }
    ensures unwritten { (R.state rig.new).candidates ≡ (R.state rig.old).candidates }
    ensures same { SameDisk (R.state rig.old) (R.state rig.new) }
{
    if sectors != rig.sectors() {
        tell_usage(rig);
        return Status::Usage;
    }
    match refused_size(sectors) {
        Some(refusal) => {
            tell_refusal(rig, refusal);
            Status::Refused
        }
        None => Status::Memory,
    }
}
