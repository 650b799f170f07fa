//! What a command came to.

use hfs_language::{Changes, Reply};

/// What a command came to.
#[derive(Drop)]
pub enum Outcome {
    /// Its reply, and what it changed, for watchers.
    Answered { reply: Reply, changes: Changes },
    /// It wants a commit before it, and nothing was changed: there is too little room for what it puts, or the blocks that it needs
    /// are held until then.
    CommitFirst,
    /// Blocks past the size of the file that it puts data into were cut, a tree grew that had to grow ahead of it, or zero blocks of a growth
    /// were filled: the command is to be tried again.
    Again,
}
