//! What a line of a session asks for, and what it is told.

use hfs_language::{Command, Path, Reply};

/// What a line asks for behind its session's number.
#[derive(Drop)]
pub enum Act {
    /// A command of the plain language.
    Plain(Command),
    /// The file of a path is opened.
    Open(Path),
    /// At most so many bytes of an open file are read from an offset on.
    HandleRead { handle: u32, from: u64, length: u64 },
    /// A handle is closed.
    Close(u32),
    /// All handles of the session are closed.
    End,
}

/// A line of a session.
#[derive(Drop)]
pub struct SessionLine {
    /// From 1 to 64.
    pub session: u8,
    pub act: Act,
}

/// What a line is told.
#[derive(Drop)]
pub enum SessionReply {
    Plain(Reply),
    /// The handle of the file that was opened.
    Opened(u32),
    /// The session has as many files open as it may.
    TooManyOpen,
    /// This handle isn't open in the session.
    NoHandle(u32),
    /// Where a path leads that follows symbolic links.
    Followed(Path),
    /// So many symbolic links were followed, and there is one more.
    TooManySteps(u32),
    /// The file isn't a symbolic link.
    NotLink,
    /// macOS keeps the file compressed: what would be written isn't what it shows.
    Compressed,
}

/// A file that a session has open.
#[derive(Clone, Copy, Debug, PartialEq, Eq)]
pub struct OpenFile {
    pub session: u8,
    pub handle: u32,
    /// The file's id.
    pub file: u32,
}
