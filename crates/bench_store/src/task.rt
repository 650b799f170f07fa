//! Which sectors are put, and in which order.

/// The most sectors of a journal.
pub const MOST_RING: u64 = 200_000;

/// The first sector that is put.
const FIRST: u64 = 262_144;

/// How many sectors are put at most. The scattered ones are each of them once, since the step has no factor with it.
const MOST: u64 = 65_536;

const STEP: u64 = 40_503;

/// The order in which sectors are put.
#[derive(Clone, Copy, PartialEq, Eq)]
pub enum Kind {
    Again,
    Rising,
    Scattered,
}

impl Kind {
    pub fn of(word: &str) -> Kind {
        if word == "again" {
            Kind::Again
        } else if word == "rising" {
            Kind::Rising
        } else {
            Kind::Scattered
        }
    }
}

/// What a run has to do.
#[derive(Clone, Copy)]
pub struct Task {
    pub ring: u64,
    pub puts: u64,
    pub commits: u64,
    pub kind: Kind,
}

impl Task {
    /// How many sectors are put in all.
    pub fn sectors(&self) -> u64 {
        match self.kind {
            Kind::Again => self.puts,
            _ => self.puts.saturating_mul(self.commits).min(MOST),
        }
    }

    /// The number of the first put of a transaction.
    pub fn first(&self, number: u64) -> u64 {
        match self.kind {
            Kind::Again => 0,
            _ => number.wrapping_mul(self.puts),
        }
    }

    /// The sector of a put.
    pub fn place(&self, k: u64) -> u64 {
        match self.kind {
            Kind::Scattered => FIRST + k % MOST * STEP % MOST,
            _ => FIRST + k % MOST,
        }
    }

    /// The byte of which the sectors of a transaction are full.
    pub fn byte(number: u64) -> u8 {
        (number % 251) as u8
    }

    /// The byte that a put has in the end.
    pub fn last_byte(&self, k: u64) -> u8 {
        match self.kind {
            Kind::Again => Task::byte(self.commits.saturating_sub(1)),
            _ => {
                if self.puts == 0 {
                    0
                } else {
                    Task::byte(k / self.puts)
                }
            }
        }
    }
}
