// How a run of the program ends.
ghost use Rattle.std.specs.Prelude.{◌≡◌};
ghost use Rattle.hfsx_server.specs.Status.{code_of};

/// How a run ends. The number of each is the program's exit status.
#[derive(Clone, Copy, Debug, PartialEq, Eq)]
pub enum Status {
    /// The work was done; `run` read its source to the end.
    Done,
    /// The image or the size was refused.
    Refused,
    /// The words are wrong, or the number of sectors isn't the image's.
    Usage,
    /// The image could not be read or written.
    Disk,
    /// The source of the lines failed.
    Source,
    /// The replies could not be told.
    Sink,
    /// There was no memory.
    Memory,
    /// There were too many lines.
    TooMany,
}

impl Status {
    /// The exit status, from 0 to 7.
    pub fn code(&self) -> u8
        ensures { result ≡ code_of self.now }
    {
        match self {
            Status::Done => 0,
            Status::Refused => 1,
            Status::Usage => 2,
            Status::Disk => 3,
            Status::Source => 4,
            Status::Sink => 5,
            Status::Memory => 6,
            Status::TooMany => 7,
        }
    }
}
