//! Random lines, answered by the plain tree and by the table.
ghost use Rattle.std.specs.Prelude.{◌<◌};

use crate::script::answer;
use crate::table::Table;
use crate::wish::{Letters, Wish, line_of};
use hfs_model::PlainTree;
use hx_bytes::OutOfMemory;
use std::alloc::{AllocError, Global};

/// What comparing found: no difference, or the first line that has two answers.
#[derive(Drop)]
pub enum Outcome {
    Same,
    Differs(String),
}

/// Numbers from a seed, each from 0 up to a bound.
#[derive(Drop)]
struct Dice {
    state: u64,
}

impl Dice {
    fn roll(&mut self, bound: u64) -> u64
        requires some { 0 < bound }
        ensures below { result < bound }
    {
        self.state = self
            .state
            .wrapping_mul(6_364_136_223_846_793_005)
            .wrapping_add(1_442_695_040_888_963_407);
        (self.state >> 33) % bound
    }

    fn letter(&mut self) -> u8 {
        match self.roll(3) {
            0 => b'a',
            1 => b'b',
            _ => b'c',
        }
    }

    /// Up to three names, and seldom none.
    fn path(&mut self, alloc: Global) -> Result<Letters, AllocError> {
        let mut path = Vec::new(alloc);
        let long = match self.roll(16) {
            0 => 0,
            1..=7 => 1,
            8..=13 => 2,
            _ => 3,
        };
        for _ in 0..long {
            path.push(self.letter())?;
        }
        Ok(path)
    }

    /// A small number, seldom a larger one, and seldom one past a limit.
    fn size(&mut self) -> u64 {
        match self.roll(32) {
            0 => 20_000,
            1 => 1_099_511_627_777,
            _ => self.roll(60),
        }
    }

    fn small(&mut self) -> u8 {
        match self.roll(4) {
            0 => 0,
            1 => 1,
            2 => 5,
            _ => 17,
        }
    }

    fn moment(&mut self) -> u32 {
        match self.roll(3) {
            0 => 7,
            1 => 1_000,
            _ => 4_294_967_295,
        }
    }

    fn mode(&mut self) -> u16 {
        match self.roll(3) {
            0 => 0o600,
            1 => 0o7777,
            _ => 0,
        }
    }

    fn wish(&mut self, alloc: Global) -> Result<Wish, AllocError> {
        Ok(match self.roll(24) {
            0..=2 => Wish::Mkdir(self.path(alloc)?),
            3..=5 => Wish::Create(self.path(alloc)?),
            6 | 7 => Wish::Rm(self.path(alloc)?),
            8 => Wish::Rmdir(self.path(alloc)?),
            9 | 10 => Wish::Mv(self.path(alloc)?, self.path(alloc)?),
            11 | 12 => Wish::Ln(self.path(alloc)?, self.path(alloc)?),
            13 | 14 => Wish::Write(self.path(alloc)?, self.size(), self.small()),
            15 => Wish::Read(self.path(alloc)?, self.roll(40), self.size()),
            16 => Wish::Trunc(self.path(alloc)?, self.size()),
            17 => Wish::Ls(self.path(alloc)?),
            18 => Wish::Stat(self.path(alloc)?),
            19 => Wish::Chmod(self.path(alloc)?, self.mode()),
            20 => Wish::SetAttr(self.path(alloc)?, self.letter(), self.small()),
            21 => Wish::GetAttr(self.path(alloc)?, self.letter()),
            22 => Wish::DelAttr(self.path(alloc)?, self.letter()),
            _ => match self.roll(2) {
                0 => Wish::LsAttr(self.path(alloc)?),
                _ => Wish::At(self.moment()),
            },
        })
    }
}

/// Lines from a seed, and the answers to each.
pub fn compare(alloc: Global, seed: u64, count: u32) -> Result<Outcome, OutOfMemory> {
    let mut dice = Dice { state: seed };
    let mut tree = PlainTree::new(alloc)?;
    let mut table = Table::new(alloc)?;
    for _ in 0..count {
        let wish = dice.wish(alloc)?;
        let line = line_of(alloc, &wish)?;
        let told = answer(alloc, &mut tree, line.as_bytes())?;
        let wanted = table.answer(alloc, &wish)?;
        if told.as_slice() != wanted.as_bytes() {
            return Ok(Outcome::Differs(format!(in alloc; "{line}: the table answers {wanted}")?));
        }
    }
    Ok(Outcome::Same)
}
