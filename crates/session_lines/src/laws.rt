//! Laws of runs of sessions, each as a function without a body.
ghost use Rattle.std.specs.Prelude.{◌≡◌, ◌⊎◌, ◌<◌, ◌≤◌, ◌^◌, ◌++◌, None, Some, [], ℕ, List, Ok, IsTrue, length, ◌∷◌, false};
ghost use Rattle.sector_disk.specs.Disk.{State};
ghost use Rattle.sector_disk.specs.Source.{Stream};
ghost use Rattle.jnl_format.specs.Recovery.{Content};
ghost use Rattle.hfs_language.specs.declared.command.Command.{Command};
ghost use Rattle.hfs_language.specs.declared.command.Command.TheVariants as command;
ghost use Rattle.hfs_model.specs.Plain.{IsPlainTree, names_of};
ghost use Rattle.hfs_model.specs.Step.{only_reads, reached, refuses};
ghost use Rattle.hfs_model.specs.declared.plain.PlainEntry.{PlainEntry};
ghost use Rattle.hfs_model.specs.declared.plain.PlainTree.{PlainTree};
ghost use Rattle.hfs_volume.specs.Books.{StepKeepsTrees};
ghost use Rattle.hfs_volume.specs.TreeOf.{tree_of};
ghost use Rattle.volume_runs.specs.Run.{Entry, IsServed, asked_by, content_after, tree_after};
ghost use Rattle.hfs_serving.specs.Runs.{Answer};
ghost use Rattle.open_files.specs.Keeping.{keeping_entry, keeping_path, kept_path, names_keeping, release};
ghost use Rattle.open_files.specs.Machine.{Machine, Taken, saves_for, taken_by, tree_by, Turn};
ghost use Rattle.session_lines.specs.declared.stages.Stage.{Stage};
ghost use Rattle.session_lines.specs.declared.stages.Stage.TheVariants as stage;
ghost use Rattle.session_lines.specs.Ahead.{Ahead, NotLooked, AreDone, IsQuiet, trees_by};
ghost use Rattle.session_lines.specs.Following.{Follows};
ghost use Rattle.session_lines.specs.Owning.{HasEntry, HaveEntries, IsOwnTree};
ghost use Rattle.session_lines.specs.Stages.{command_at};
ghost use Rattle.session_lines.specs.Sessions.{AnswersSessions, FinishesSessions, KeepsSessions};
ghost use Rattle.session_lines.specs.Turns.{BrokenSessions, IsLinePart, IsLineTurn, IsTurn, MayBegin, SpokeSessions, skipped_turn};
ghost use Rattle.hfs_language.specs.declared.refusal.Refusal.{Refusal};
ghost use Rattle.hfs_language.specs.declared.reply.Change.{Change};
ghost use Rattle.hfs_language.specs.declared.reply.Reply.{Reply};
ghost use Rattle.hfs_serving.specs.Ending.{IsPutAway};
ghost use Rattle.hfs_serving.specs.Speaking.{SpeaksFrom, Speech, spoken_on};
ghost use Rattle.hfs_serving.specs.Spoken.{AnswersRigSpoken, KeepsSpoken};
ghost use Rattle.hfs_language.specs.Lines.{lines};
ghost use Rattle.open_files.specs.Lines.{asks_of, session_text};
ghost use Rattle.open_files.specs.declared.act.OpenFile.{OpenFile};
ghost use Rattle.session_lines.specs.Skipping.{IsSkipped};
ghost use Rattle.open_files.specs.declared.act.Act.TheVariants as act;

use hfs_volume::sound_content_has_tree;
use sector_disk::SectorDisk;

/// What a command that was served leaves of a tree is told by its reply: a refused one leaves it as it was. One that only reads leaves the content.
pub fn commands_leave_trees()
    ensures tree { (capacity : ℕ) (entry : Entry) (asked : Command) → asked_by entry ≡ Ok asked → IsServed capacity entry → tree_of entry.after ≡ tree_by (tree_of entry.before) asked entry.reply }
    ensures looks { (capacity : ℕ) (entry : Entry) (asked : Command) → asked_by entry ≡ Ok asked → IsTrue (only_reads asked) → IsServed capacity entry → entry.after ≡ entry.before }
{}

/// A run of sessions keeps what they promise, where it began on a tree whose keeping folder is theirs.
pub fn runs_keep_sessions<D: SectorDisk>()
    // Whatever ended it.
    ensures broken { (capacity : ℕ) (start : Content) (files : List ℕ) (heard : List Change) (source source_new : Stream) (a b : D) → MayBegin (tree_of start) files
        → KeepsSpoken (SpeaksFrom start (λ start speech. SpokeSessions start speech [] files) BrokenSessions) heard capacity start (D.state a) source (D.state b) source_new → KeepsSessions start (D.state a) source (D.state b) source_new }
    // Where the source ended it, each line that was taken of it was answered.
    ensures answered { (capacity : ℕ) (start : Content) (files left : List ℕ) (handles : List OpenFile) (heard : List Change) (source source_new : Stream) (texts : List (List ℕ)) (a b : D) → MayBegin (tree_of start) files
        → AnswersRigSpoken (SpeaksFrom start (λ start speech. SpokeSessions start speech [] files) (λ start speech. SpokeSessions start speech handles left)) heard capacity start (D.state a) source texts (D.state b) source_new
        → AnswersSessions start (D.state a) source texts (D.state b) source_new }
    // At its end the volume is unmounted, and where the speaker has none of the files of an earlier run left, all were released.
    ensures ended { (capacity : ℕ) (start : Content) (files left : List ℕ) (handles : List OpenFile) (heard : List Change) (source source_new : Stream) (texts : List (List ℕ)) (a b : D) → MayBegin (tree_of start) files
        → AnswersRigSpoken (SpeaksFrom start (λ start speech. SpokeSessions start speech [] files) (λ start speech. SpokeSessions start speech handles left)) heard capacity start (D.state a) source texts (D.state b) source_new
        → left ≡ [] → IsPutAway (D.state b) → (IsTrue source.tells → texts ≡ lines source.left) → FinishesSessions start (D.state a) source (D.state b) source_new }
{}

/// The stages of a line that takes a name away come to what the machine does ahead of the line's own command.
pub fn looks_save_what_is_taken()
    ensures rm { (machine : Machine) → IsOwnTree machine.tree → (path : List (List ℕ)) (run : List Entry) (to : Stage) → command_at to ≡ None → Follows machine.handles machine.tree (stage.Taking path) run to
        → Ahead machine.tree run (saves_for machine (command.Rm path)) to ⊎ NotLooked machine.tree run to }
    ensures mv { (machine : Machine) → IsOwnTree machine.tree → (from goal : List (List ℕ)) (run : List Entry) (to : Stage) → command_at to ≡ None → Follows machine.handles machine.tree (stage.Moving from goal) run to
        → Ahead machine.tree run (saves_for machine (command.Mv from goal)) to ⊎ NotLooked machine.tree run to }
{}

/// What sessions spoke goes on with a line: one that was served, or one that a fault cut short, whose entries are the first of it.
pub fn lines_follow_lines()
    ensures served { (start : Content) (past : Speech) (handles : List OpenFile) (files : List ℕ) (spoke : SpokeSessions start past handles files) (line : List ℕ) (own : List Entry) (turn : Turn) (changes : List Change)
        → files ≡ [] → IsOwnTree turn.next.tree → turn.next.tree.next_id < 2 ^ 32 → HaveEntries turn.next.tree turn.next.handles → IsLineTurn (content_after start past.run) spoke.spoken.last line own turn
        → SpokeSessions start (spoken_on past (record { lines = line ∷ []; run = own; answers = record { text = session_text turn.says; upto = length own } ∷ []; changes = changes })) turn.next.handles files }
    ensures cut { (start : Content) (past : Speech) (handles : List OpenFile) (files : List ℕ) (spoke : SpokeSessions start past handles files) (line : List ℕ) (own : List Entry) (turn : Turn) (changes : List Change)
        → files ≡ [] → IsLinePart (content_after start past.run) spoke.spoken.last line own turn
        → BrokenSessions start (record { lines = past.lines ++ line ∷ []; run = past.run ++ own; answers = past.answers; changes = past.changes ++ changes }) }
{}

/// The entries of a line of the plain language are a turn of the machine: those ahead and the line's own, or those up to one that is refused, or none
/// where a look isn't done.
pub fn entries_are_turns()
    ensures own { (start : Content) (machine : Machine) (line : List ℕ) (session : ℕ) (asked : Command) (run : List Entry) (replies : List Reply) (capacity : ℕ) (entry : Entry) → tree_of start ≡ machine.tree
        → asks_of line ≡ Ok (record { session = session; act = act.Plain asked }) → names_keeping asked ≡ false → AreDone replies
        → IsQuiet machine.tree run (saves_for machine asked) replies (trees_by machine.tree (saves_for machine asked) replies) → asked_by entry ≡ Ok asked → tree_of entry.before ≡ tree_after start run → IsServed capacity entry
        → (turn : Turn) × IsTurn start machine line (run ++ entry ∷ []) turn }
    ensures skipped { (start : Content) (machine : Machine) (line : List ℕ) (run : List Entry) (why : Refusal) → tree_of start ≡ machine.tree → IsSkipped why → IsQuiet machine.tree run [] [] machine.tree → IsTurn start machine line run (skipped_turn machine why) }
{}

/// A command whose paths don't lead to the keeping folder keeps it the sessions' own, and so do Save and Release.
pub fn commands_keep_what_is_kept()
    ensures others { StepKeepsTrees → (tree : PlainTree) (asked : Command) (got : Reply) → IsOwnTree tree → (tree_by tree asked got).next_id < 2 ^ 64 → names_keeping asked ≡ false → IsOwnTree (tree_by tree asked got) }
    ensures released { StepKeepsTrees → (tree : PlainTree) (id : ℕ) (got : Reply) → IsOwnTree tree → (tree_by tree (release id) got).next_id < 2 ^ 64 → IsOwnTree (tree_by tree (release id) got) }
    ensures made { StepKeepsTrees → (tree : PlainTree) (got : Reply) → IsOwnTree tree → (tree_by tree (command.Mkdir keeping_path) got).next_id < 2 ^ 64 → keeping_entry tree ≡ None → IsOwnTree (tree_by tree (command.Mkdir keeping_path) got) }
    ensures linked { StepKeepsTrees → (tree : PlainTree) (path : List (List ℕ)) (at : PlainEntry) (got : Reply) → IsOwnTree tree → (tree_by tree (command.Ln path (kept_path at.id)) got).next_id < 2 ^ 64 → reached tree path ≡ Ok at
        → IsOwnTree (tree_by tree (command.Ln path (kept_path at.id)) got) }
{}

/// Ids stay few: a command for which there are too few is refused.
pub fn ids_stay_few()
    ensures { (capacity : ℕ) (entry : Entry) → IsServed capacity entry → (tree_of entry.before).next_id < 2 ^ 32 → (tree_of entry.after).next_id < 2 ^ 32 }
{
    sound_content_has_tree();
}

/// A file that is open has an entry behind a command, where that takes a name of it only if it has two.
pub fn files_keep_entries()
    ensures { (tree : PlainTree) → IsPlainTree tree → (id : ℕ) (asked : Command) (got : Reply) → HasEntry tree id → (refuses tree (Ok asked) ≡ false → (taken : Taken) → taken_by tree asked ≡ Some taken → taken.id ≡ id → 2 ≤ names_of tree id) → HasEntry (tree_by tree asked got) id }
{}
