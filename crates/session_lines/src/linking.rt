//! Lines that look where a symbolic link or a path leads.
ghost use Rattle.std.specs.Prelude.{◌≡◌, ◌≤◌, [], ℕ, Bool, List, Option, IsTrue, IsErrOf, IfOk, OnErr, OnOk, true};
ghost use Rattle.jnl_format.specs.Recovery.{Content};
ghost use Rattle.hfs_language.specs.Written.{FitsPath};
ghost use Rattle.hfs_serving.specs.Faults.{StopFaults};
ghost use Rattle.hfs_serving.specs.Going.{SomeStands, Stands, StopsOn, line_if};
ghost use Rattle.hfs_serving.specs.Speaking.{SpeaksLine, StopsSpeaking};
ghost use Rattle.session_lines.specs.declared.errands.Errand.TheVariants as errand;
ghost use Rattle.session_lines.specs.declared.errands.Look.TheVariants as look_;
ghost use Rattle.session_lines.specs.Errands.{FitsLook, IsKindErrandOf};
ghost use Rattle.session_lines.specs.KindTurns.{followed_says, target_says, unfollowed_says};
ghost use Rattle.session_lines.specs.Lookings.{HasSeen};
ghost use Rattle.session_lines.specs.Turns.{BrokenSessions, spoke_at};

use crate::answering::tell;
use crate::errands::Look;
use crate::following::walk_along;
use crate::laws::ids_stay_few;
use hfs_language::{Path, Refusal, Reply};
use hfs_serving::{Ground, Stop, ToTell, Volume};
use hx_bytes::{Bytes, Trouble};
use link_kinds::KindRefusal;
use open_files::{SessionReply, Table};
use std::alloc::Global;

/// Tells a line where a link or a path leads.
#[allow(clippy::too_many_arguments)]
pub(crate) fn look_line<V: Volume, G: Ground>(
    alloc: Global,
    volume: &mut V,
    base: &mut G,
    table: &Table,
    look: &Look,
    told: &mut ToTell,
) -> Result<(), Stop>
    requires serves { (capacity : ℕ) × G.serves base.old capacity × (G.taken base.old ≤ capacity) }
    requires stands { IsTrue (G.space base.old).tells → SomeStands (V.knows volume.old (G.space base.old)) (G.space base.old) (G.outside base.old) }
    requires fits { FitsLook look.now }
    ensures goes { IsTrue (G.space base.old).tells → (capacity : ℕ) (committed now : Content) (shrunk : Option ℕ) (number : ℕ) → Stands (V.knows volume.old (G.space base.old) capacity) committed now shrunk (G.space base.old) (G.outside base.old)
        → (line : List ℕ) → IsKindErrandOf line (errand.Looks look.now)
        → OnOk result (SpeaksLine true capacity (V.knows volume.new (G.space base.new) capacity) committed now shrunk (G.outside base.old) number (spoke_at table.now) (spoke_at table.now) line told.old told.new (G.space base.new) (G.outside base.new)) }
    ensures stops { IsTrue (G.space base.old).tells → (capacity : ℕ) (committed now : Content) (shrunk : Option ℕ) (number : ℕ) → Stands (V.knows volume.old (G.space base.old) capacity) committed now shrunk (G.space base.old) (G.outside base.old)
        → (line : List ℕ) → OnErr result ((begun : Bool) × StopsSpeaking capacity committed now shrunk (G.outside base.old) number (spoke_at table.now) BrokenSessions (line_if begun line) (G.outside base.new)) }
    ensures still { (capacity : ℕ) → G.serves base.old capacity → G.taken base.old ≤ capacity → OnOk result (G.serves base.new capacity × (G.taken base.new ≤ capacity)) }
    ensures tells { OnOk result ((G.space base.new).tells ≡ (G.space base.old).tells) }
    ensures anchor { G.anchor base.new ≡ G.anchor base.old }
    ensures barriers { (G.space base.new).barriers ≡ (G.space base.old).barriers }
    ensures faults { StopFaults (G.failed base.old) (G.space base.old) (G.failed base.new) (G.space base.new) ⊥ result }
    ensures no_many { IsErrOf result Stop.TooMany → ⊥ }
{
    ids_stay_few();
    let reply = look_for(alloc, volume, base, look)?;
    tell(alloc, &reply, told)?;
    Ok(())
}

/// What a line is told that looks for this.
fn look_for<V: Volume, G: Ground>(
    alloc: Global,
    volume: &mut V,
    base: &mut G,
    look: &Look,
) -> Result<SessionReply, Stop>
    requires serves { (capacity : ℕ) × G.serves base.old capacity × (G.taken base.old ≤ capacity) }
    requires stands { IsTrue (G.space base.old).tells → SomeStands (V.knows volume.old (G.space base.old)) (G.space base.old) (G.outside base.old) }
    requires fits { FitsLook look.now }
    ensures goes { IsTrue (G.space base.old).tells → (capacity : ℕ) (committed now : Content) (shrunk : Option ℕ) → Stands (V.knows volume.old (G.space base.old) capacity) committed now shrunk (G.space base.old) (G.outside base.old)
        → IfOk result (HasSeen look.now capacity (V.knows volume.new (G.space base.new) capacity) committed now shrunk (G.outside base.old) (G.space base.new) (G.outside base.new)) }
    ensures stops { IsTrue (G.space base.old).tells → (capacity : ℕ) (committed now : Content) (shrunk : Option ℕ) → Stands (V.knows volume.old (G.space base.old) capacity) committed now shrunk (G.space base.old) (G.outside base.old)
        → OnErr result (StopsOn capacity committed now shrunk (G.outside base.old) [] (G.outside base.new)) }
    ensures still { (capacity : ℕ) → G.serves base.old capacity → G.taken base.old ≤ capacity → G.serves base.new capacity × (G.taken base.new ≤ capacity) }
    ensures tells { (G.space base.new).tells ≡ (G.space base.old).tells }
    ensures anchor { G.anchor base.new ≡ G.anchor base.old }
    ensures barriers { (G.space base.new).barriers ≡ (G.space base.old).barriers }
    ensures faults { StopFaults (G.failed base.old) (G.space base.old) (G.failed base.new) (G.space base.new) ⊥ result }
    ensures no_many { IsErrOf result Stop.TooMany → ⊥ }
{
    match look {
        Look::Target(path) => read_target(volume, base, path),
        Look::Follow(path) => follow(alloc, volume, base, path),
    }
}

fn read_target<V: Volume, G: Ground>(
    volume: &mut V,
    base: &mut G,
    path: &Path,
) -> Result<SessionReply, Stop>
    requires serves { (capacity : ℕ) × G.serves base.old capacity × (G.taken base.old ≤ capacity) }
    requires stands { IsTrue (G.space base.old).tells → SomeStands (V.knows volume.old (G.space base.old)) (G.space base.old) (G.outside base.old) }
    requires fits { FitsPath path.now }
    ensures goes { IsTrue (G.space base.old).tells → (capacity : ℕ) (committed now : Content) (shrunk : Option ℕ) → Stands (V.knows volume.old (G.space base.old) capacity) committed now shrunk (G.space base.old) (G.outside base.old)
        → IfOk result (HasSeen (look_.Target path.now) capacity (V.knows volume.new (G.space base.new) capacity) committed now shrunk (G.outside base.old) (G.space base.new) (G.outside base.new)) }
    ensures stops { IsTrue (G.space base.old).tells → (capacity : ℕ) (committed now : Content) (shrunk : Option ℕ) → Stands (V.knows volume.old (G.space base.old) capacity) committed now shrunk (G.space base.old) (G.outside base.old)
        → OnErr result (StopsOn capacity committed now shrunk (G.outside base.old) [] (G.outside base.new)) }
    ensures still { (capacity : ℕ) → G.serves base.old capacity → G.taken base.old ≤ capacity → G.serves base.new capacity × (G.taken base.new ≤ capacity) }
    ensures tells { (G.space base.new).tells ≡ (G.space base.old).tells }
    ensures anchor { G.anchor base.new ≡ G.anchor base.old }
    ensures barriers { (G.space base.new).barriers ≡ (G.space base.old).barriers }
    ensures faults { StopFaults (G.failed base.old) (G.space base.old) (G.failed base.new) (G.space base.new) ⊥ result }
    ensures no_many { IsErrOf result Stop.TooMany → ⊥ }
{
    match volume.read_link(base, path) {
        Ok(found) => Ok(target_told(found)),
        Err(Trouble::Memory) => Ok(SessionReply::Plain(Reply::No(Refusal::OutOfMemory))),
        Err(Trouble::Disk) => Err(Stop::Disk),
    }
}

fn follow<V: Volume, G: Ground>(
    alloc: Global,
    volume: &mut V,
    base: &mut G,
    path: &Path,
) -> Result<SessionReply, Stop>
    requires serves { (capacity : ℕ) × G.serves base.old capacity × (G.taken base.old ≤ capacity) }
    requires stands { IsTrue (G.space base.old).tells → SomeStands (V.knows volume.old (G.space base.old)) (G.space base.old) (G.outside base.old) }
    requires fits { FitsPath path.now }
    ensures goes { IsTrue (G.space base.old).tells → (capacity : ℕ) (committed now : Content) (shrunk : Option ℕ) → Stands (V.knows volume.old (G.space base.old) capacity) committed now shrunk (G.space base.old) (G.outside base.old)
        → IfOk result (HasSeen (look_.Follow path.now) capacity (V.knows volume.new (G.space base.new) capacity) committed now shrunk (G.outside base.old) (G.space base.new) (G.outside base.new)) }
    ensures stops { IsTrue (G.space base.old).tells → (capacity : ℕ) (committed now : Content) (shrunk : Option ℕ) → Stands (V.knows volume.old (G.space base.old) capacity) committed now shrunk (G.space base.old) (G.outside base.old)
        → OnErr result (StopsOn capacity committed now shrunk (G.outside base.old) [] (G.outside base.new)) }
    ensures still { (capacity : ℕ) → G.serves base.old capacity → G.taken base.old ≤ capacity → G.serves base.new capacity × (G.taken base.new ≤ capacity) }
    ensures tells { (G.space base.new).tells ≡ (G.space base.old).tells }
    ensures anchor { G.anchor base.new ≡ G.anchor base.old }
    ensures barriers { (G.space base.new).barriers ≡ (G.space base.old).barriers }
    ensures faults { StopFaults (G.failed base.old) (G.space base.old) (G.failed base.new) (G.space base.new) ⊥ result }
    ensures no_many { IsErrOf result Stop.TooMany → ⊥ }
{
    match walk_along(alloc, volume, base, path) {
        Ok(answer) => Ok(followed(answer)),
        Err(Trouble::Memory) => Ok(SessionReply::Plain(Reply::No(Refusal::OutOfMemory))),
        Err(Trouble::Disk) => Err(Stop::Disk),
    }
}

/// The target of a link, or why there is none.
fn target_told(found: Result<Option<Bytes>, Refusal>) -> SessionReply
    ensures { result ≡ target_says found }
{
    match found {
        Ok(Some(target)) => SessionReply::Plain(Reply::Content(target)),
        Ok(None) => SessionReply::NotLink,
        Err(why) => SessionReply::Plain(Reply::No(why)),
    }
}

/// Where a path leads that follows symbolic links.
fn followed(answer: Result<Path, KindRefusal>) -> SessionReply
    ensures { result ≡ followed_says answer }
{
    match answer {
        Ok(path) => SessionReply::Followed(path),
        Err(why) => unfollowed(why),
    }
}

/// Why a path isn't followed to its end.
fn unfollowed(why: KindRefusal) -> SessionReply
    ensures { result ≡ unfollowed_says why }
{
    match why {
        KindRefusal::NotFound => SessionReply::Plain(Reply::No(Refusal::NotFound)),
        KindRefusal::NotFolder => SessionReply::Plain(Reply::No(Refusal::NotFolder)),
        KindRefusal::TooManySteps(most) => SessionReply::TooManySteps(most),
        KindRefusal::BadTarget => SessionReply::Plain(Reply::No(Refusal::BadTarget)),
        KindRefusal::NotLink => SessionReply::NotLink,
    }
}
