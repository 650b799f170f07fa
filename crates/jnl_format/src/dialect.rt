//! The dialects of the journal.
ghost use Rattle.std.specs.Prelude.{◌≡◌};
ghost use Rattle.jnl_format.specs.Dialect.{most_blhdr as most_of, may_end as ends_behind};

/// How a journal is read.
#[derive(Clone, Copy, Debug, PartialEq, Eq)]
pub enum Dialect {
    /// As TN1150 states it ("Journal"): `next` of entry 0 is zero in the last list of a transaction, and so in the last of
    /// a text. The header of a list fills 65,536 bytes at most.
    Plain,
    /// As later systems write it, by Apple's published code: `next` of entry 0 is the number of the transaction, so a text
    /// may end behind each list. The header of a list fills 1 MiB at most, the room of 65,535 entries.
    Wide,
}

impl Dialect {
    /// How many bytes the header of a list fills at most.
    pub fn most_blhdr(self) -> u32
        ensures { result ≡ most_of self }
    {
        match self {
            Dialect::Plain => 65_536,
            Dialect::Wide => 1_048_576,
        }
    }

    /// Whether a text may end behind a list. `last` says that the list is the last of its transaction.
    pub fn may_end(self, last: bool) -> bool
        ensures { result ≡ ends_behind self last }
    {
        match self {
            Dialect::Plain => last,
            Dialect::Wide => true,
        }
    }
}
