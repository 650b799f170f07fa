//! Lines of the plain language: each spells one command, and is told its reply.
ghost use Rattle.std.specs.Prelude.{◌≡◌, ◌↔◌, ◌≤◌, ◌⊎◌, [], ℕ, Option, IsTrue, IsErrOf, IfErr, IfOk, Err, Ok, OnErr, OnOk, false};
ghost use Rattle.cmd_lang.specs.declared.fault.LineFault.TheVariants.{No};
ghost use Rattle.jnl_format.specs.Recovery.{Content};
ghost use Rattle.hfs_language.specs.Language.{command_of};
ghost use Rattle.hfs_language.specs.declared.refusal.Refusal.{Refusal};
ghost use Rattle.hfs_language.specs.declared.refusal.Refusal.TheVariants as refusal;
ghost use Rattle.hfs_language.specs.declared.reply.Reply.TheVariants as reply;
ghost use Rattle.volume_runs.specs.Fits.{FitsAsked};
ghost use Rattle.hfs_serving.specs.Commits.{HaveCauses, IsLeft, SomeWantsAt};
ghost use Rattle.hfs_serving.specs.Faults.{StopFaults};
ghost use Rattle.hfs_serving.specs.Going.{ServesLine, SomeStands, Stands, StopsOn, sync_line};
ghost use Rattle.hfs_serving.specs.Plain.{IsRefusedAs, Spells, refusal_of};

use crate::basis::Ground;
use crate::commanding::serve_command;
use crate::fitting::look_at_command;
use crate::hearer::Hearer;
use crate::housekeeping::come_to_rest;
use crate::telling::Stop;
use crate::volume::{ToTell, Volume};
use cmd_lang::{LineFault, read_line, read_valued};
use hfs_language::{Changes, Command, Refusal, Reply};
use hfs_volume::Asked;
use hx_bytes::OutOfMemory;
use line_source::Line;
use std::alloc::Global;

/// Serves a line, before which housekeeping comes to rest. Where the line isn't the first of its batch and wants a commit before anything is done for
/// it, it is left for the next batch. Answers whether it was served. `Steps` comes where the steps of housekeeping or of the line are used up.
pub fn serve_line<V: Volume, G: Ground>(
    alloc: Global,
    volume: &mut V,
    base: &mut G,
    number: u64,
    line: &Line,
    first: bool,
    told: &mut ToTell,
) -> Result<bool, Stop>
    requires serves { (capacity : ℕ) × G.serves base.old capacity × (G.taken base.old ≤ capacity) }
    requires stands { IsTrue (G.space base.old).tells → SomeStands (V.knows volume.old (G.space base.old)) (G.space base.old) (G.outside base.old) }
    ensures goes { IsTrue (G.space base.old).tells → (capacity : ℕ) (committed now : Content) (shrunk : Option ℕ) → Stands (V.knows volume.old (G.space base.old) capacity) committed now shrunk (G.space base.old) (G.outside base.old)
        → IfOk result (λ answered. ServesLine answered capacity (V.knows volume.new (G.space base.new) capacity) committed now shrunk (G.outside base.old) number line.now told.old told.new (G.space base.new) (G.outside base.new)) }
    ensures stops { IsTrue (G.space base.old).tells → (capacity : ℕ) (committed now : Content) (shrunk : Option ℕ) → Stands (V.knows volume.old (G.space base.old) capacity) committed now shrunk (G.space base.old) (G.outside base.old)
        → OnErr result (StopsOn capacity committed now shrunk (G.outside base.old) [] (G.outside base.new)) }
    ensures still { (capacity : ℕ) → G.serves base.old capacity → G.taken base.old ≤ capacity → OnOk result (G.serves base.new capacity × (G.taken base.new ≤ capacity)) }
    ensures tells { OnOk result ((G.space base.new).tells ≡ (G.space base.old).tells) }
    ensures anchor { G.anchor base.new ≡ G.anchor base.old }
    // A commit is made where a step of housekeeping or of the line wanted it, or where memory was missing for it, at most nine times.
    ensures caused { IsTrue (G.space base.old).tells → HaveCauses (SomeWantsAt V.wants G.space) 9 (G.space base.old).barriers (G.space base.new).barriers }
    // It is left only where it isn't the first and the volume wants a commit before its command.
    ensures left { IsTrue (G.space base.old).tells → IfOk result (λ served. served ≡ false → (first ≡ false) × IsLeft Spells V.wants G.space line.now) }
    ensures faults { StopFaults (G.failed base.old) (G.space base.old) (G.failed base.new) (G.space base.new) ⊥ result }
    ensures no_many { IsErrOf result Stop.TooMany → ⊥ }
{
    come_to_rest(volume, base)?;
    match read_asked(alloc, line) {
        Ok(asked) => serve_command(alloc, volume, base, number, &asked, !first, told),
        Err(why) => {
            let _standing = volume.recall(base);
            refuse(alloc, why, told)?;
            Ok(true)
        }
    }
}

/// Why a line that was read to no command is refused.
fn refusal_of(fault: LineFault) -> Refusal
    ensures { result ≡ refusal_of fault }
{
    match fault {
        LineFault::No(why) => why,
        LineFault::Memory => Refusal::OutOfMemory,
    }
}

/// What a line asks for, or why it is refused.
fn read_asked(alloc: Global, line: &Line) -> Result<Asked, Refusal>
    ensures asked { IfOk result (Spells line.now) }
    ensures fits { IfOk result FitsAsked }
    // It is refused for what is wrong with it, or because memory is missing.
    ensures refused { IfErr result (IsRefusedAs line.now) }
{
    match command_in(alloc, line) {
        Ok(command) => {
            look_at_command(&command);
            Ok(Asked::Plain(command))
        }
        Err(fault) => Err(refusal_of(fault)),
    }
}

/// The command that a line spells. Where it ends in a value that is there as it is, that isn't spelled to be read.
fn command_in(alloc: Global, line: &Line) -> Result<Command, LineFault>
    ensures command { IfOk result (λ command. command_of line.now ≡ Ok command) }
    ensures refused { (why : Refusal) → result ≡ Err (No why) → command_of line.now ≡ Err why }
{
    let (text, value) = line.parts();
    match value {
        None => read_line(alloc, text),
        Some(value) => read_valued(alloc, text, value),
    }
}

/// Tells that a line is refused, or that memory was missing for that.
fn refuse<H: Hearer>(alloc: Global, why: Refusal, heard: &mut H) -> Result<(), OutOfMemory>
    ensures { OnOk result (H.hears heard.old (reply.No why) [] heard.new ⊎ H.hears heard.old (reply.No refusal.OutOfMemory) [] heard.new) }
{
    match heard.hear(alloc, Reply::No(why), Changes::new(alloc)) {
        Ok(()) => Ok(()),
        Err(_) => heard.hear_short(alloc),
    }
}

/// Whether the line asks that all be made durable, which ends its batch.
pub(crate) fn is_sync(line: &Line) -> bool
    ensures { IsTrue result ↔ (line.now ≡ sync_line) }
{
    let (text, value) = line.parts();
    match value {
        None => text == b"sync".as_slice(),
        Some(_) => false,
    }
}
