//! Who hears what came of a command.
ghost use Rattle.std.specs.Prelude.{◌≡◌, [], List, OnErr, OnOk};
ghost use Rattle.hfs_language.specs.declared.reply.Change.{Change};
ghost use Rattle.hfs_language.specs.declared.reply.Reply.{Reply};
ghost use Rattle.hfs_language.specs.declared.refusal.Refusal.TheVariants as refusal;
ghost use Rattle.hfs_language.specs.declared.reply.Reply.TheVariants as reply;

use hfs_language::{Changes, Reply};
use hx_bytes::OutOfMemory;
use std::alloc::Global;

/// Hears the reply to a command, and what it changed.
pub trait Hearer {
    /// It heard this reply and these changes.
    ghost hears: { Self → Reply → List Change → Self → Type 0 };

    /// Hears them. After a refusal it is as it was.
    fn hear(&mut self, alloc: Global, reply: Reply, changes: Changes) -> Result<(), OutOfMemory>
        ensures heard { OnOk result (hears self.old reply changes self.new) }
        ensures same { OnErr result (self.new ≡ self.old) };

    /// Hears that memory was missing, which takes none as a rule.
    fn hear_short(&mut self, alloc: Global) -> Result<(), OutOfMemory>
        ensures heard { OnOk result (hears self.old (reply.No refusal.OutOfMemory) [] self.new) };
}
