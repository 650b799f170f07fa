//! Why a line or a command is refused.

/// A refusal, which is printed as `no`, its name and its numbers.
#[derive(Clone, Copy, Debug, PartialEq, Eq)]
pub enum Refusal {
    // Of a line, in the order in which they come.
    TooLong,
    BadCommand,
    BadName,
    NameTooLong,
    // Of a command on the plain tree.
    Private,
    Root,
    NotFound,
    NotFolder,
    IsFolder,
    Exists,
    NotEmpty,
    Inside,
    TooManyLinks,
    TooLarge,
    AttributeTooLarge,
    NoAttribute,
    BadTarget,
    // For want of a resource of the volume, in the order in which they come.
    NoTree,
    /// The next free id.
    NoIds(u64),
    /// The depth of the tree.
    TooDeep(u64),
    /// The extents of the tree's fork.
    OverflowFull(u64),
    /// The free blocks, and how many are wanted.
    NoSpace(u64, u64),
    /// The longest free run, and how many blocks are wanted.
    NoRun(u64, u64),
    /// The load of the command, and the capacity of the journal.
    TooBig(u64, u64),
    OutOfMemory,
    Unsteady,
}
