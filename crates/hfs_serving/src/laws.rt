//! Laws of a run that crashes may cut short, each as a function without a body.
ghost use Rattle.hfs_volume.specs.declared.asked.Asked.{Asked};
ghost use Rattle.std.specs.Prelude.{◌≡◌, ◌⊎◌, ◌≤◌, ◌+◌, ◌∷◌, ◌++◌, [], ℕ, List, Option, None, IsTrue, length, take};
ghost use Rattle.sector_disk.specs.Disk.{IsImage};
ghost use Rattle.sector_disk.specs.Source.{Stream};
ghost use Rattle.jnl_format.specs.Recovery.{Content};
ghost use Rattle.jnl_replay.specs.declared.plan.Plan.{Plan};
ghost use Rattle.jnl_store.specs.Spaces.{found};
ghost use Rattle.volume_runs.specs.Rest.{TidiesFor};
ghost use Rattle.volume_runs.specs.Run.{ArePlain, Entry, IsRun, IsServed, shrunk_in, replies_of, wanted_by};
ghost use Rattle.hfs_volume.specs.Sound.{IsSound};
ghost use Rattle.hfs_serving.specs.Opening.{MayServe};
ghost use Rattle.hfs_serving.specs.Outside.{outside_of};
ghost use Rattle.hfs_serving.specs.Runs.{Answer, AreAnswers, Crashes, KeepsPlace, Leads, LeadsToRest, Serves, SetsUnmounted, SetsVersion, StandsAs, plain_answers, shifted, texts_of};
ghost use Rattle.hfs_serving.specs.Serving.{Commits, Goes, IsDurable, IsRead, IsAsDurable, IsServing, MayCommit, Stops, TellsOut, Touches};
ghost use Rattle.hfs_serving.specs.Stages.{MayTurn, Turns};
ghost use Rattle.hfs_serving.specs.Steps.{CrashesStep, KeepsRun};
ghost use Rattle.hfs_serving.specs.Taking.{HasTaken};
ghost use Rattle.hfs_serving.specs.Top.{AreTaken, HoldsAnswered, KeepsAnswers, KeepsPromises, KnowsAs, KnowsTo, SurvivesAs};

use crate::basis::Ground;
use hfs_volume::aside_is_free;
use sector_disk::SectorDisk;

/// What a crash leaves mounts to the tree of the content that it stands for.
pub fn contents_tell_trees()
    ensures survives { (capacity : ℕ) (start : Content) (run : List Entry) (answers : List Answer) (image : Content) (told : List ℕ) → IsRun capacity start run → IsSound start → SurvivesAs capacity start run answers image told → HoldsAnswered start run answers image told }
    ensures knows { (capacity : ℕ) (start : Content) (run : List Entry) (known : ℕ) (image : Content) → IsRun capacity start run → IsSound start → KnowsAs capacity start run known image → KnowsTo start run known image }
{
    aside_is_free();
}

/// Two stretches of calls, of which the first was served to its end, are one.
pub fn stretches_join<G: Ground>()
    ensures serves { (capacity : ℕ) (shrunk : Option ℕ) (start middle now : Content) (run more : List Entry) (answers others : List Answer) (a b c : G) → Serves capacity shrunk start (G.outside a) run answers middle (G.outside b)
        → Serves capacity (shrunk_in shrunk run) middle (G.outside b) more others now (G.outside c) → Serves capacity shrunk start (G.outside a) (run ++ more) (answers ++ shifted (length run) others) now (G.outside c) }
    ensures crashes { (capacity : ℕ) (shrunk : Option ℕ) (start middle : Content) (run more : List Entry) (answers others : List Answer) (known : ℕ) (a b c : G) → Serves capacity shrunk start (G.outside a) run answers middle (G.outside b)
        → Crashes capacity (shrunk_in shrunk run) middle (G.outside b) more others known (G.outside c) → Crashes capacity shrunk start (G.outside a) (run ++ more) (answers ++ shifted (length run) others) (length run + known) (G.outside c) }
    // The answers of plain lines are joined to those of all of them.
    ensures plain { (run more : List Entry) → plain_answers run ++ shifted (length run) (plain_answers more) ≡ plain_answers (run ++ more) }
{}

/// Puts and spills go on within a batch, as a step of housekeeping or an entry; a fault in them stops it.
pub fn touches_go_on<G: Ground>()
    ensures begins { (capacity : ℕ) (shrunk : Option ℕ) (committed from : Content) (a : G) → IsDurable committed (G.space a) → IsRead from (G.space a) → ((recovered : Content) → (G.outside a).leaves recovered → IsAsDurable (G.space a) recovered)
        → Goes capacity shrunk None committed from (G.outside a) [] committed from (G.space a) (G.outside a) }
    ensures goes { (capacity : ℕ) (shrunk : Option ℕ) (asked further : Option Asked) (committed from middle between now : Content) (run more : List Entry) (a b c : G) → Goes capacity shrunk asked committed from (G.outside a) run middle between (G.space b) (G.outside b)
        → Touches middle (G.space b) (G.outside b) (G.space c) (G.outside c) → Leads capacity shrunk further from (run ++ more) now → IsRead now (G.space c) → Goes capacity shrunk further committed from (G.outside a) (run ++ more) middle now (G.space c) (G.outside c) }
    ensures stops { (capacity : ℕ) (shrunk : Option ℕ) (asked : Option Asked) (committed from middle between : Content) (run : List Entry) (a b c : G) → Goes capacity shrunk asked committed from (G.outside a) run middle between (G.space b) (G.outside b)
        → Touches middle (G.space b) (G.outside b) (G.space c) (G.outside c) → Stops capacity shrunk committed from (G.outside a) run (G.outside c) }
{}

/// Where an entry and a step of housekeeping lead.
pub fn entries_lead_on()
    ensures entry { (capacity : ℕ) (shrunk : Option ℕ) (start now : Content) (run : List Entry) (entry : Entry) → LeadsToRest capacity shrunk (wanted_by entry) start run now → entry.before ≡ now → IsServed capacity entry → KeepsPlace now entry.after
        → Leads capacity shrunk None start (run ++ entry ∷ []) entry.after }
    ensures tidied { (capacity : ℕ) (shrunk : Option ℕ) (asked : Option Asked) (start now next : Content) (run : List Entry) → Leads capacity shrunk asked start run now → TidiesFor capacity (shrunk_in shrunk run) asked now next → KeepsPlace now next → Leads capacity shrunk asked start run next }
{}

/// A commit within a batch, early or at its end.
pub fn commits_go_on<G: Ground>()
    ensures goes { (capacity : ℕ) (shrunk : Option ℕ) (asked : Option Asked) (committed from middle now : Content) (run : List Entry) (a b c : G) → Goes capacity shrunk asked committed from (G.outside a) run middle now (G.space b) (G.outside b)
        → Commits (G.space b) (G.outside b) (G.space c) (G.outside c) → Goes capacity shrunk asked committed from (G.outside a) run now now (G.space c) (G.outside c) }
    ensures stops { (capacity : ℕ) (shrunk : Option ℕ) (asked : Option Asked) (committed from middle now : Content) (run : List Entry) (a b c : G) → Goes capacity shrunk asked committed from (G.outside a) run middle now (G.space b) (G.outside b)
        → MayCommit (G.space b) (G.outside b) (G.outside c) → Stops capacity shrunk committed from (G.outside a) run (G.outside c) }
{}

/// The end of a batch, whatever its lines are told: a fault before anything was told, one while the answers were told, and none.
pub fn batches_end<G: Ground>()
    ensures stopped { (capacity : ℕ) (shrunk : Option ℕ) (start : Content) (run : List Entry) (answers : List Answer) (a b : G) → AreAnswers (length run) answers → Stops capacity shrunk start start (G.outside a) run (G.outside b) → Crashes capacity shrunk start (G.outside a) run answers 0 (G.outside b) }
    ensures partly { (capacity : ℕ) (shrunk : Option ℕ) (start now : Content) (run : List Entry) (answers : List Answer) (a b c : G) → AreAnswers (length run) answers → Goes capacity shrunk None start start (G.outside a) run now now (G.space b) (G.outside b)
        → TellsOut (G.outside b) (texts_of answers) (G.outside c) → Crashes capacity shrunk start (G.outside a) run answers (length run) (G.outside c) }
    ensures served { (capacity : ℕ) (shrunk : Option ℕ) (start now : Content) (run : List Entry) (answers : List Answer) (a b c : G) → AreAnswers (length run) answers → Goes capacity shrunk None start start (G.outside a) run now now (G.space b) (G.outside b)
        → TellsOut (G.outside b) (texts_of answers) (G.outside c) → (G.outside c).told ≡ (G.outside b).told ++ texts_of answers
        → Serves capacity shrunk start (G.outside a) run answers now (G.outside c) × IsServing now (G.space b) (G.outside c) }
    // Plain lines are told their replies, and each comes behind its entry.
    ensures plain { (run : List Entry) → AreAnswers (length run) (plain_answers run) × (texts_of (plain_answers run) ≡ replies_of run) }
{}

/// The stages of a mount: housekeeping, and the version that is written before it.
pub fn mounts_serve<G: Ground>()
    ensures tidied { (capacity : ℕ) (shrunk : Option ℕ) (start now : Content) (a b : G) → Turns start now (G.outside a) (G.outside b) → TidiesFor capacity shrunk None start now → KeepsPlace start now → Serves capacity shrunk start (G.outside a) [] [] now (G.outside b) }
    ensures tidied_crashes { (capacity : ℕ) (shrunk : Option ℕ) (start now : Content) (a b : G) → MayTurn start now (G.outside a) (G.outside b) → TidiesFor capacity shrunk None start now → KeepsPlace start now → Crashes capacity shrunk start (G.outside a) [] [] 0 (G.outside b) }
    ensures version { (capacity : ℕ) (shrunk : Option ℕ) (start version now : Content) (a b c : G) → Turns start version (G.outside a) (G.outside b) → SetsVersion start version → KeepsPlace start version → TidiesFor capacity shrunk None start now → KeepsPlace start now
        → Turns version now (G.outside b) (G.outside c) → Serves capacity shrunk start (G.outside a) [] [] now (G.outside c) }
    ensures version_crashes { (capacity : ℕ) (shrunk : Option ℕ) (start version now : Content) (a b c : G) → Turns start version (G.outside a) (G.outside b) → SetsVersion start version → KeepsPlace start version → TidiesFor capacity shrunk None start now → KeepsPlace start now
        → MayTurn version now (G.outside b) (G.outside c) → Crashes capacity shrunk start (G.outside a) [] [] 0 (G.outside c) }
    ensures half_version { (capacity : ℕ) (shrunk : Option ℕ) (start version : Content) (a b : G) → MayTurn start version (G.outside a) (G.outside b) → SetsVersion start version → KeepsPlace start version → Crashes capacity shrunk start (G.outside a) [] [] 0 (G.outside b) }
{}

/// The end of a run, which sets bit 8 of the header's attributes.
pub fn runs_end<G: Ground>()
    ensures { (capacity : ℕ) (shrunk : Option ℕ) (start now ended : Content) (run : List Entry) (answers : List Answer) (a b c : G) → Serves capacity shrunk start (G.outside a) run answers now (G.outside b) → SetsUnmounted now ended → KeepsPlace now ended
        → MayTurn now ended (G.outside b) (G.outside c) → Crashes capacity shrunk start (G.outside a) run answers (length run) (G.outside c) }
{}

/// A run of a disk from which crashes leave what stands for its start: what a stretch of it says of contents, its users read of trees.
pub fn runs_keep_promises<D: SectorDisk>()
    ensures answers { (capacity : ℕ) (plan : Plan) (start : Content) (run : List Entry) (answers : List Answer) (known : ℕ) (a b : D) → IsSound start → MayServe plan capacity start
        → ((image : Content) → IsImage (D.state a).candidates image → StandsAs start (found plan image)) → Crashes capacity None start (outside_of plan (D.state a)) run answers known (outside_of plan (D.state b))
        → KeepsAnswers capacity start (D.state a) run answers known (D.state b) }
    // Of plain lines, users read it by their replies.
    ensures plain { (capacity : ℕ) (start : Content) (run : List Entry) (known : ℕ) (source source_new : Stream) (a b : D) → KeepsAnswers capacity start (D.state a) run (plain_answers run) known (D.state b)
        → ArePlain run → (IsTrue source.tells → AreTaken source run source_new) → KeepsPromises capacity start (D.state a) source run known (D.state b) source_new }
{
    aside_is_free();
}

/// A mount and a run behind it: the run's promises begin at the image that was mounted. What the mount did is a stretch without an entry.
pub fn mounted_runs_keep_promises<D: SectorDisk>()
    ensures { (capacity : ℕ) (plan : Plan) (start now : Content) (texts : List (List ℕ)) (source source_new : Stream) (a b c : D) → IsSound start → MayServe plan capacity start
        → ((image : Content) → IsImage (D.state a).candidates image → StandsAs start (found plan image)) → Serves capacity None start (outside_of plan (D.state a)) [] [] now (outside_of plan (D.state b))
        → CrashesStep capacity now None (outside_of plan (D.state b)) texts (outside_of plan (D.state c)) → (IsTrue source.tells → HasTaken [] source texts source_new) → KeepsRun capacity start (D.state a) source (D.state c) source_new }
{
    aside_is_free();
}
