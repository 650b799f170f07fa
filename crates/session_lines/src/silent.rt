//! A reply that isn't told.
ghost use Rattle.std.specs.Prelude.{◌≡◌, Some};
ghost use Rattle.hfs_language.specs.declared.reply.Reply.{Reply};

use hfs_language::{Changes, Refusal, Reply};
use hfs_serving::Hearer;
use hx_bytes::OutOfMemory;
use std::alloc::Global;

/// Keeps the reply to a command, and tells neither it nor what it changed.
#[derive(Drop)]
pub(crate) struct Silent {
    pub(crate) reply: Option<Reply>,
}

impl Silent {
    /// The reply that it heard.
    pub(crate) fn into_reply(self) -> Reply
        ensures { (reply : Reply) → self.reply ≡ Some reply → result ≡ reply }
    {
        match self.reply {
            Some(reply) => reply,
            None => Reply::No(Refusal::OutOfMemory),
        }
    }
}

impl Hearer for Silent {
    ghost use Rattle.std.specs.Prelude.{◌≡◌, Some};

    ghost hears = { λ before reply changes after. after.reply ≡ Some reply };

    fn hear(&mut self, _alloc: Global, reply: Reply, _changes: Changes) -> Result<(), OutOfMemory> {
        self.reply = Some(reply);
        Ok(())
    }

    fn hear_short(&mut self, _alloc: Global) -> Result<(), OutOfMemory> {
        self.reply = Some(Reply::No(Refusal::OutOfMemory));
        Ok(())
    }
}
