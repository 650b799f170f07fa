//! Answers that change nothing.
ghost use Rattle.std.specs.Prelude.{◌≡◌, ◌≢◌, true, [], IsTrue, IfOk, OnOk};
ghost use Rattle.hfs_language.specs.Written.{FitsCommand};
ghost use Rattle.hfs_language.specs.declared.reply.Reply.TheVariants as reply;
ghost use Rattle.hfs_model.specs.Step.{only_reads};
ghost use Rattle.volume_base.specs.Frame.{Looked, Serves};
ghost use Rattle.volume_base.specs.Room.{capacity_of};
ghost use Rattle.volume_step.specs.Steps.{KeepsJournal, StepsTo};
ghost use Rattle.volume_step.specs.declared.outcome.Outcome.TheVariants as outcome;

use crate::outcome::Outcome;
use hfs_language::{Changes, Command, Refusal, Reply};
use hx_bytes::Trouble;
use sector_disk::SectorSpace;
use std::alloc::Global;
use volume_base::Volume;

/// Whether a command changes nothing on any volume.
pub(crate) fn only_reads(command: &Command) -> bool
    ensures { result ≡ only_reads command.now }
{
    match command {
        Command::Read { .. } => true,
        Command::Ls(_path) => true,
        Command::Stat(_path) => true,
        Command::GetAttr { .. } => true,
        Command::LsAttr(_path) => true,
        Command::Df => true,
        Command::Sync => true,
        _ => false,
    }
}

/// A refusal, of which watchers are told nothing.
pub(crate) fn refusal(alloc: Global, why: Refusal) -> Outcome
    ensures { result ≡ outcome.Answered (reply.No why) [] }
{
    Outcome::Answered {
        reply: Reply::No(why),
        changes: Changes::new(alloc),
    }
}

/// Answers a command that reads.
pub(crate) fn answer<P: SectorSpace>(
    alloc: Global,
    volume: &mut Volume,
    space: &mut P,
    _number: u64,
    command: &Command,
) -> Result<Outcome, Trouble>
    requires serves { Serves volume.old (P.SectorView.space space.old) }
    requires fits { FitsCommand command.now }
    requires reads { only_reads command.now ≡ true }
    ensures answered { IsTrue (P.SectorView.space space.old).tells → IfOk result (λ outcome. StepsTo outcome (capacity_of volume.old) _number command.now (P.SectorView.space space.old).content (P.SectorView.space space.new).content) }
    // No commit comes first.
    ensures ready { IfOk result (λ it. it ≢ outcome.CommitFirst) }
    ensures place { IsTrue (P.SectorView.space space.old).tells → OnOk result (KeepsJournal (P.SectorView.space space.old).content (P.SectorView.space space.new).content) }
    ensures looked { Looked P.SectorView.space P.SectorView.follows volume.old volume.new space.old space.new result }
    ensures serves { Serves volume.new (P.SectorView.space space.new) }
{
    match volume.tell(alloc, space, command)? {
        Some(reply) => Ok(Outcome::Answered {
            reply,
            changes: Changes::new(alloc),
        }),
        None => Ok(Outcome::CommitFirst),
    }
}
