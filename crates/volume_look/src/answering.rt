//! Commands are answered by a volume in service, which is only read.
ghost use Rattle.std.specs.Prelude.{◌≡◌, IsTrue, IsFalse, IfOk, OnOk};
ghost use Rattle.btree_edit.specs.Causes.{HasTroubleCause};
ghost use Rattle.volume_base.specs.Frame.{Looked, Serves};
ghost use Rattle.volume_base.specs.Room.{capacity_of};
ghost use Rattle.volume_base.specs.Standing.{IsSettled, StandsOver};
ghost use Rattle.volume_runs.specs.Run.{reply_to};
ghost use Rattle.volume_look.specs.Talk.{Ends, HearsEach, HearsRight, allows, taken};

use crate::allowing::{allows, look_at_command};
use crate::asker::Asker;
use hfs_language::{Command, Refusal, Reply};
use hx_bytes::Trouble;
use sector_disk::SectorSpace;
use std::alloc::{AllocError, Global};
use volume_base::Volume;

/// Answers the commands that are asked, to the last.
pub(crate) fn answer_all<P: SectorSpace, A: Asker>(
    alloc: Global,
    volume: &mut Volume,
    space: &mut P,
    asker: &mut A,
) -> Result<(), Trouble>
    requires stands { StandsOver volume.old (P.SectorView.space space.old) }
    requires settled { IsTrue (P.SectorView.space space.old).tells → IsSettled volume.old (P.SectorView.space space.old).content }
    ensures right { IsTrue (P.SectorView.space space.old).tells → IsTrue (A.state asker.old).tells → HearsRight (capacity_of volume.old) (P.SectorView.space space.old).content (A.state asker.old) (A.state asker.new) }
    ensures ends { IsTrue (A.state asker.old).tells → OnOk result (Ends (A.state asker.old) (A.state asker.new)) }
    ensures names { (P.SectorView.space space.new).names ≡ (P.SectorView.space space.old).names }
    ensures below { P.SectorView.follows space.old space.new }
    ensures cause { HasTroubleCause (P.SectorView.space space.old).faults (P.SectorView.space space.new).faults result }
{
    for _ in 0..u64::MAX {
        if !answer_next(alloc, volume, space, asker)? {
            return Ok(());
        }
    }
    Err(Trouble::Memory)
}

// Answers the next command, where one is asked, and says whether one was.
fn answer_next<P: SectorSpace, A: Asker>(
    alloc: Global,
    volume: &mut Volume,
    space: &mut P,
    asker: &mut A,
) -> Result<bool, Trouble>
    requires serves { Serves volume.old (P.SectorView.space space.old) }
    ensures right { IsTrue (P.SectorView.space space.old).tells → IsTrue (A.state asker.old).tells → HearsRight (capacity_of volume.old) (P.SectorView.space space.old).content (A.state asker.old) (A.state asker.new) }
    ensures each { IsTrue (A.state asker.old).tells → OnOk result (HearsEach (A.state asker.old) (A.state asker.new)) }
    ensures ended { IsTrue (A.state asker.old).tells → IfOk result (λ asked. IsFalse asked → IsTrue (A.state asker.new).ended) }
    ensures told { (A.state asker.new).tells ≡ (A.state asker.old).tells }
    ensures looked { Looked P.SectorView.space P.SectorView.follows volume.old volume.new space.old space.new result }
    ensures serves { Serves volume.new (P.SectorView.space space.new) }
{
    match asker.ask() {
        Ok(Some(command)) => {
            let reply = answer(alloc, volume, space, &command)?;
            match asker.hear(command, reply) {
                Ok(()) => Ok(true),
                Err(AllocError) => Err(Trouble::Memory),
            }
        }
        Ok(None) => Ok(false),
        Err(AllocError) => Err(Trouble::Memory),
    }
}

// The reply to a command: a refusal of one that is not allowed.
fn answer<P: SectorSpace>(
    alloc: Global,
    volume: &mut Volume,
    space: &mut P,
    command: &Command,
) -> Result<Reply, Trouble>
    requires serves { Serves volume.old (P.SectorView.space space.old) }
    ensures reply { IsTrue (P.SectorView.space space.old).tells → IfOk result (λ reply. reply ≡ reply_to (capacity_of volume.old) (P.SectorView.space space.old).content (taken command.now)) }
    ensures looked { Looked P.SectorView.space P.SectorView.follows volume.old volume.new space.old space.new result }
    ensures serves { Serves volume.new (P.SectorView.space space.new) }
{
    if !allows(command) {
        return Ok(Reply::No(Refusal::BadCommand));
    }
    look_at_command(command);
    match volume.tell(alloc, space, command)? {
        Some(reply) => Ok(reply),
        None => Ok(Reply::No(Refusal::BadCommand)),
    }
}
