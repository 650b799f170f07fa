//! What is to be done with the files of a volume.

/// What is to be done.
#[derive(Clone, Copy, Debug, PartialEq, Eq)]
pub enum Wish {
    /// Files and folders are made below a folder. What is there already is left alone, or replaced where `over` is set.
    Get { over: bool },
    /// A tar archive of them is written to standard output.
    Tar,
    /// A file's bytes are written to standard output.
    Cat,
    /// A line for each entry: its path, with its mode, size and date where it is `long`, and for all folders below where it is `deep`.
    List { long: bool, deep: bool },
    /// What is known of an entry.
    Stat,
}

impl Wish {
    /// Whether files are read.
    pub(crate) fn reads(&self) -> bool {
        matches!(self, Wish::Get { .. } | Wish::Tar | Wish::Cat)
    }

    /// Whether whole folders are taken out, so that each entry needs a name of its own there.
    pub(crate) fn takes_out(&self) -> bool {
        matches!(self, Wish::Get { .. } | Wish::Tar)
    }

    /// Whether the attributes of an entry are asked for.
    pub(crate) fn wants_attributes(&self) -> bool {
        matches!(self, Wish::Get { .. } | Wish::Tar | Wish::Stat)
    }
}
