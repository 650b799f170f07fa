//! Which sectors are the journal's.
ghost use Rattle.std.specs.Prelude.{◌≡◌, IsTrue};
ghost use Rattle.jnl_store.specs.Own.{own_of, owns};

use jnl_replay::Plan;

/// The sectors of a journal's buffer and header, from the first up to an end, and the info block.
#[derive(Clone, Copy, Debug, PartialEq, Eq)]
pub struct Own {
    first: u64,
    end: u64,
    info: u64,
}

impl Own {
    /// Those of no journal.
    pub fn none() -> Own
        ensures { result ≡ record { first = 0; end = 0; info = 0 } }
    {
        Own {
            first: 0,
            end: 0,
            info: 0,
        }
    }

    /// Those of a plan's journal.
    pub fn of(plan: &Plan) -> Own
        ensures { result ≡ own_of plan.now }
    {
        let offset = plan.info.offset;
        let size = plan.info.size;
        let first = offset / 512;
        Own {
            first,
            end: first + size / 512,
            info: plan.place.info_sector,
        }
    }

    /// Whether a sector is one of them.
    pub fn has(&self, at: u64) -> bool
        ensures { result ≡ owns self.now at }
    {
        self.first <= at && at < self.end || at == self.info
    }

    /// Whether they are the same as these.
    pub fn is(&self, other: &Own) -> bool
        ensures { IsTrue result → self.now ≡ other.now }
    {
        self.first == other.first && self.end == other.end && self.info == other.info
    }
}
