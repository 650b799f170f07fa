//! The step of a command on a plain tree.
ghost use Rattle.std.specs.Prelude.{◌≡◌, ◌≤◌, IfOk, OnOk, OnErr, Ok};
ghost use Rattle.hfs_language.specs.declared.reply.Reply.TheVariants as reply;
ghost use Rattle.hfs_model.specs.Step.{step, step_line};
ghost use Rattle.hfs_model.specs.Answers.{step_told};

use crate::answering::{Answer, changed, told};
use crate::copying::copy_tree;
use crate::own_names::is_private;
use crate::plain::PlainTree;
use hfs_language::{Command, Refusal, Reply};
use hx_bytes::OutOfMemory;
use std::alloc::Global;

impl PlainTree {
    /// Does a command: its reply, and the tree after it. It knows no resources of a volume, and answers `df` by `Ok`.
    ///
    /// A copy of the tree is changed and takes its place at the end, so where memory is missing the tree is as it was.
    pub fn step(&mut self, alloc: Global, command: &Command) -> Result<Reply, OutOfMemory>
        requires room { self.old.next_id ≤ 4294967292 }
        ensures reply { IfOk result (λ reply. reply ≡ (step_line self.old (Ok command.now)).0) }
        ensures tree { OnOk result (self.new ≡ (step_line self.old (Ok command.now)).1) }
        ensures kept { OnErr result (self.new ≡ self.old) }
    {
        if is_private(command) {
            return Ok(Reply::No(Refusal::Private));
        }
        match self.answer(alloc, command)? {
            Answer {
                reply,
                tree: Some(tree),
            } => {
                *self = tree;
                Ok(reply)
            }
            Answer { reply, tree: None } => Ok(reply),
        }
    }

    fn answer(&self, alloc: Global, command: &Command) -> Result<Answer, OutOfMemory>
        requires room { self.now.next_id ≤ 4294967292 }
        ensures { IfOk result (λ answer. step_told self.now answer ≡ step self.now command.now) }
    {
        match command {
            Command::Mkdir(path) => self.make(alloc, true, path.as_slice()),
            Command::Create(path) => self.make(alloc, false, path.as_slice()),
            Command::Rm(path) => self.rm(alloc, path.as_slice()),
            Command::Rmdir(path) => self.rmdir(alloc, path.as_slice()),
            Command::Mv(from, to) => self.mv(alloc, from.as_slice(), to.as_slice()),
            Command::Ln(from, to) => self.ln(alloc, from.as_slice(), to.as_slice()),
            Command::Write { path, from, value } => {
                self.write(alloc, path.as_slice(), *from, value.as_slice())
            }
            Command::Read { path, from, length } => {
                self.read(alloc, path.as_slice(), *from, *length)
            }
            Command::Trunc { path, size } => self.trunc(alloc, path.as_slice(), *size),
            Command::Ls(path) => self.ls(alloc, path.as_slice()),
            Command::Stat(path) => self.stat(alloc, path.as_slice()),
            Command::Chmod { path, mode } => self.chmod(alloc, path.as_slice(), *mode),
            Command::SetAttr { path, name, value } => {
                self.setattr(alloc, path.as_slice(), name, value)
            }
            Command::GetAttr { path, name } => self.getattr(alloc, path.as_slice(), name),
            Command::DelAttr { path, name } => self.delattr(alloc, path.as_slice(), name),
            Command::LsAttr(path) => self.lsattr(alloc, path.as_slice()),
            Command::At(moment) => self.at(alloc, *moment),
            Command::Df | Command::Sync => Ok(told(Reply::Ok)),
        }
    }

    fn at(&self, alloc: Global, moment: u32) -> Result<Answer, OutOfMemory>
        ensures { IfOk result (λ answer. step_told self.now answer ≡ (reply.Ok, record self.now { moment = moment })) }
    {
        let mut tree = copy_tree(alloc, self)?;
        tree.moment = moment;
        Ok(changed(tree))
    }
}
