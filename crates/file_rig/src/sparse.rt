//! A place of which a part reads as zeros because it was never written: what is to be zeros there isn't written either.
ghost use Rattle.std.specs.Prelude.{◌≡◌, ◌≤◌, ◌+◌, ℕ, IsTrue, IfSome, Some, length, replicate};
ghost use Rattle.file_rig.specs.Place.{AreLeft, zeros};

use crate::failure::Failure;
use crate::place::Place;
use hx_bytes::Sector;
use std::marker::Model;

/// A place, and from which of its sectors on it holds zeros, if that is known.
#[derive(Drop)]
pub struct Sparse<P: Place + Drop> {
    place: P,
    // Whether the place was asked.
    is_asked: bool,
    blank: Option<u64>,
}

impl<P: Place + Drop> Model for Sparse<P> {
    ghost use Rattle.std.specs.Prelude.{IsTrue, IfSome};
    ghost use Rattle.file_rig.specs.Place as specs;
    ghost use Rattle.file_rig.specs.Place.{HoldsZerosFrom};

    ghost Value = { specs.Place };

    ghost view = { λ sparse. P.state sparse.place };

    ghost invariant = { λ sparse. IsTrue (P.state sparse.place).tells → IfSome sparse.blank (λ from. HoldsZerosFrom from (P.state sparse.place).held) };
}

impl<P: Place + Drop> Sparse<P> {
    /// The place, which is asked for its zeros when it is first written.
    pub fn new(place: P) -> Sparse<P>
        ensures { result ≡ P.state place }
    {
        Sparse {
            place,
            is_asked: false,
            blank: None,
        }
    }

    // Asks the place for its zeros, once.
    fn ask(&mut self) -> Result<(), Failure>
        ensures { self.new ≡ self.old }
    {
        if !self.is_asked {
            self.blank = self.place.zeros_from()?;
            self.is_asked = true;
        }
        Ok(())
    }
}

impl<P: Place + Drop> Place for Sparse<P> {
    ghost state = { λ sparse. sparse };

    fn read_run(&mut self, first: u64, into: &mut [Sector]) -> Result<(), Failure> {
        self.place.read_run(first, into)
    }

    fn write_run(&mut self, first: u64, run: &[Sector]) -> Result<(), Failure> {
        self.ask()?;
        if holds_zeros(self.blank, first) && are_zeros(run) {
            return Ok(());
        }
        self.blank = zeros_left(self.blank, first, run.len() as u64);
        self.place.write_run(first, run)
    }

    fn flush(&mut self) -> Result<(), Failure> {
        self.place.flush()
    }
}

// Whether this sector and all behind it hold zeros, as far as is known.
fn holds_zeros(known: Option<u64>, first: u64) -> bool
    ensures { IsTrue result → (from : ℕ) × (known ≡ Some from) × (from ≤ first) }
{
    match known {
        Some(from) => from <= first,
        None => false,
    }
}

// From where on there are zeros when a run was written.
fn zeros_left(known: Option<u64>, first: u64, count: u64) -> Option<u64>
    ensures { IfSome result (AreLeft known (first + count)) }
{
    let end = first.checked_add(count)?;
    Some(known?.max(end))
}

// Whether all bytes of a run are zero.
fn are_zeros(run: &[Sector]) -> bool
    ensures { IsTrue result → run.now ≡ replicate (length run.now) zeros }
{
    for sector in run {
        if !is_zeros(sector) {
            return false;
        }
    }
    true
}

// Whether all bytes of a sector are zero.
fn is_zeros(sector: &Sector) -> bool
    ensures { IsTrue result → sector.now ≡ zeros }
{
    // All are looked at, which takes less than looking for the first that isn't.
    let mut bits = 0;
    for byte in sector {
        bits |= *byte;
    }
    bits == 0
}
