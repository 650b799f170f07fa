//! One finding of a check, and the order of findings.
ghost use Rattle.std.specs.Prelude.{◌↔◌, IsTrue};
ghost use Rattle.fsck_list.specs.Order.{IsBefore};

/// A rule that fails at a place: the value found there, and the one wanted.
#[derive(Clone, Copy, Debug, PartialEq, Eq)]
pub struct Finding {
    pub rule: u8,
    pub place: u64,
    pub found: u64,
    pub wanted: u64,
}

impl Finding {
    /// Whether this finding stands before another: by rule, then by place, then by what was found, then by what is wanted.
    pub fn is_before(&self, other: &Finding) -> bool
        ensures { IsTrue result ↔ IsBefore self.now other.now }
    {
        if self.rule != other.rule {
            return self.rule < other.rule;
        }
        if self.place != other.place {
            return self.place < other.place;
        }
        if self.found != other.found {
            return self.found < other.found;
        }
        self.wanted < other.wanted
    }
}
