//! Somebody who asks what a volume holds.
ghost use Rattle.std.specs.Prelude.{◌≡◌, ◌⊎◌, IsTrue, IfOk, OnOk};
ghost use Rattle.volume_look.specs.Talk.{Asks, Hears, Talk};

use hfs_language::{Command, Reply};
use std::alloc::AllocError;

/// Somebody who asks one command after another, and hears the reply to each.
pub trait Asker {
    /// All that a contract sees of it.
    ghost state: { Self → Talk };

    /// The next command, or none where nothing more is asked.
    fn ask(&mut self) -> Result<Option<Command>, AllocError>
        ensures asks { IsTrue (state self.old).tells → IfOk result (Asks (state self.old) (state self.new)) }
        ensures heard { IsTrue (state self.old).tells → (state self.new).heard ≡ (state self.old).heard }
        ensures tells { (state self.new).tells ≡ (state self.old).tells };

    /// Hears the reply to the command that was asked last.
    fn hear(&mut self, command: Command, reply: Reply) -> Result<(), AllocError>
        ensures hears { IsTrue (state self.old).tells → OnOk result (Hears (state self.old) command reply (state self.new)) }
        ensures unsure { IsTrue (state self.old).tells → Hears (state self.old) command reply (state self.new) ⊎ ((state self.new).heard ≡ (state self.old).heard) }
        ensures tells { (state self.new).tells ≡ (state self.old).tells };
}
