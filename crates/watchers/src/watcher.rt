//! What a watcher is.
ghost use Rattle.std.specs.Prelude.{List, Bool};
ghost use Rattle.hfs_language.specs.declared.reply.Change.{Change};
ghost use Rattle.watchers.specs.Told.{Hears};

use hfs_language::Change;

/// A watcher's answer to a change.
#[derive(Clone, Copy, Debug, PartialEq, Eq)]
pub enum Keep {
    /// It is told the next change too.
    Stay,
    /// It is told nothing more.
    Leave,
}

/// Somebody who is told of changes.
pub trait Watcher: Drop {
    /// The changes that it was told.
    ghost told: { Self → List Change };

    /// Whether it leaves.
    ghost leaves: { Self → Bool };

    /// Tells it one change. One that stays has it behind what it knew; one that leaves may have kept it or not.
    fn tell(&mut self, change: &Change) -> Keep
        ensures heard { Hears change.now (told self.old) (told self.new) (leaves self.new) result };
}

impl Watcher for Box<dyn Watcher> {
    ghost told = { λ watcher. (Watcher-box watcher).told watcher.value };

    ghost leaves = { λ watcher. (Watcher-box watcher).leaves watcher.value };

    fn tell(&mut self, change: &Change) -> Keep {
        (**self).tell(change)
    }
}
