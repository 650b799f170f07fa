//! The commands of the language of lines.

use hx_bytes::{Bytes, Listed, Units};

/// The names from the root to a file or folder; none for the root itself.
pub type Path = Listed<Units>;

/// A command, as a line spells it.
#[derive(Drop)]
pub enum Command {
    Mkdir(Path),
    Create(Path),
    Rm(Path),
    Rmdir(Path),
    Mv(Path, Path),
    Ln(Path, Path),
    /// Bytes are written from an offset on.
    Write {
        path: Path,
        from: u64,
        value: Bytes,
    },
    /// At most so many bytes are read from an offset on.
    Read {
        path: Path,
        from: u64,
        length: u64,
    },
    /// A file is cut or filled with zeros to a size in bytes.
    Trunc {
        path: Path,
        size: u64,
    },
    Ls(Path),
    Stat(Path),
    Chmod {
        path: Path,
        mode: u16,
    },
    SetAttr {
        path: Path,
        name: Units,
        value: Bytes,
    },
    GetAttr {
        path: Path,
        name: Units,
    },
    DelAttr {
        path: Path,
        name: Units,
    },
    LsAttr(Path),
    /// Sets the moment that later changes are dated with.
    At(u32),
    Df,
    Sync,
}
