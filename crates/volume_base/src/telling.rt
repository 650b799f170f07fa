//! The commands that change nothing.
ghost use Rattle.std.specs.Prelude.{◌≡◌, Ok, IsTrue, IfOk, IfSome, is_some};
ghost use Rattle.hfs_language.specs.Written.{FitsCommand};
ghost use Rattle.hfs_model.specs.Step.{only_reads};
ghost use Rattle.volume_runs.specs.Run.{reply_to};
ghost use Rattle.volume_base.specs.Frame.{Looked, Serves};
ghost use Rattle.volume_base.specs.Room.{capacity_of};

use crate::volume::Volume;
use hfs_language::{Command, Reply};
use hx_bytes::Trouble;
use sector_disk::SectorSpace;
use std::alloc::Global;

impl Volume {
    /// The reply to a command that changes nothing; none to any other, of which nothing was done. The reply to `df` is the
    /// volume's gauge, and that to `sync`, of which only the volume's owner knows more, is `Ok`. `Memory` comes where memory is
    /// wanting, `Disk` where a read failed.
    pub fn tell<P: SectorSpace>(
        &mut self,
        alloc: Global,
        space: &mut P,
        command: &Command,
    ) -> Result<Option<Reply>, Trouble>
        requires serves { Serves self.old (P.SectorView.space space.old) }
        requires fits { FitsCommand command.now }
        ensures told { IfOk result (λ told. is_some told ≡ only_reads command.now) }
        // Where the space tells, a reply is that of the plain tree's step, or the gauge.
        ensures reply { IsTrue (P.SectorView.space space.old).tells → IfOk result (λ told. IfSome told (λ reply. reply ≡ reply_to (capacity_of self.old) (P.SectorView.space space.old).content (Ok command.now))) }
        ensures looked { Looked P.SectorView.space P.SectorView.follows self.old self.new space.old space.new result }
        ensures serves { Serves self.new (P.SectorView.space space.new) }
    {
        match command {
            Command::Ls(path) => Ok(Some(self.ls(alloc, space, path)?)),
            Command::Stat(path) => Ok(Some(self.stat(alloc, space, path)?)),
            Command::Read { path, from, length } => {
                Ok(Some(self.read(alloc, space, path, *from, *length)?))
            }
            Command::GetAttr { path, name } => Ok(Some(self.getattr(alloc, space, path, name)?)),
            Command::LsAttr(path) => Ok(Some(self.lsattr(alloc, space, path)?)),
            Command::Df => Ok(Some(Reply::Gauge(self.gauge()))),
            Command::Sync => Ok(Some(Reply::Ok)),
            Command::Mkdir(_)
            | Command::Create(_)
            | Command::Rm(_)
            | Command::Rmdir(_)
            | Command::Mv(_, _)
            | Command::Ln(_, _)
            | Command::Write { .. }
            | Command::Trunc { .. }
            | Command::Chmod { .. }
            | Command::SetAttr { .. }
            | Command::DelAttr { .. }
            | Command::At(_) => Ok(None),
        }
    }
}
