//! The sectors of a place, with those that were written gathered up to the next flush, and runs of them read ahead.
ghost use Rattle.std.specs.Prelude.{◌≡◌, ◌≤◌, ◌<◌, ◌+◌, [], IsTrue, length, OnOk, OnErr, IfOk, slice_set};
ghost use Rattle.sector_disk.specs.Lists.{sector, put_sectors};
ghost use Rattle.file_rig.specs.Place.{AreFresh, SameOutside, IsWritten};

use crate::ahead::Ahead;
use crate::failure::Failure;
use crate::gathered::Gathered;
use crate::place::Place;
use hx_bytes::Sector;
use std::alloc::{AllocError, Global};
use std::marker::Model;

/// A place and the two runs. Each read gives the last write, and a flush that succeeds answers for all writes before it.
#[derive(Drop)]
pub struct Store<P: Place + Drop> {
    place: P,
    sectors: u64,
    gathered: Gathered,
    ahead: Ahead,
}

impl<P: Place + Drop> Model for Store<P> {
    ghost use Rattle.std.specs.Prelude.{◌≡◌, IsTrue, length};
    ghost use Rattle.file_rig.specs.Place as specs;
    ghost use Rattle.file_rig.specs.Place.{AreFresh, over};

    ghost Value = { specs.Store };

    ghost view = { λ store. record {
      sectors = store.sectors;
      tells = (P.state store.place).tells;
      shown = over store.gathered (P.state store.place).held;
      flushed = (P.state store.place).flushed;
    } };

    ghost invariant = { λ store. IsTrue (P.state store.place).tells
        → (length (P.state store.place).held ≡ store.sectors) × AreFresh (P.state store.place).held store.gathered store.ahead };
}

impl<P: Place + Drop> Store<P> {
    /// The sectors of a place.
    pub fn new(alloc: Global, place: P, sectors: u64) -> Result<Store<P>, AllocError>
        requires { IsTrue (P.state place).tells → length (P.state place).held ≡ sectors }
        ensures { IfOk result (λ store. (store.sectors ≡ sectors) × (store.tells ≡ (P.state place).tells) × (store.shown ≡ (P.state place).held) × (store.flushed ≡ (P.state place).flushed)) }
    {
        Ok(Store {
            place,
            sectors,
            gathered: Gathered::new(alloc)?,
            ahead: Ahead::new(alloc)?,
        })
    }

    /// How many sectors it has.
    pub fn sectors(&self) -> u64
        ensures { result ≡ self.now.sectors }
    {
        self.sectors
    }

    /// Reads a sector.
    pub fn read(&mut self, at: u64, into: &mut Sector) -> Result<(), Failure>
        requires { at < self.old.sectors }
        ensures value { IsTrue self.old.tells → OnOk result (into.new ≡ sector self.old.shown at) }
        ensures shown { self.new.shown ≡ self.old.shown }
        ensures flushed { self.new.flushed ≡ self.old.flushed }
        ensures same { (self.new.tells ≡ self.old.tells) × (self.new.sectors ≡ self.old.sectors) }
    {
        if let Some(value) = self.gathered.get(at) {
            *into = *value;
            return Ok(());
        }
        read_on(
            &mut self.place,
            &mut self.ahead,
            &self.gathered,
            at,
            self.sectors,
        );
        if let Some(value) = self.ahead.get(at) {
            *into = *value;
            return Ok(());
        }
        let mut one = [[0; 512]];
        self.place.read_run(at, &mut one)?;
        *into = one[0];
        Ok(())
    }

    /// Writes a sector: it is handed over with its neighbours, at the latest by the next flush.
    pub fn write(&mut self, at: u64, value: &Sector) -> Result<(), Failure>
        requires { at < self.old.sectors }
        ensures written { IsTrue self.old.tells → OnOk result (self.new.shown ≡ slice_set self.old.shown at value.now) }
        ensures failed { IsTrue self.old.tells → OnErr result (self.new.shown ≡ self.old.shown) }
        ensures flushed { self.new.flushed ≡ self.old.flushed }
        ensures same { (self.new.tells ≡ self.old.tells) × (self.new.sectors ≡ self.old.sectors) }
    {
        gather(&mut self.place, &mut self.gathered, at, value)?;
        self.ahead.put(at, value);
        Ok(())
    }

    /// Makes durable all that was written.
    pub fn flush(&mut self) -> Result<(), Failure>
        ensures flushed { IsTrue self.old.tells → OnOk result (self.new.flushed ≡ self.old.shown) }
        ensures failed { OnErr result (self.new.flushed ≡ self.old.flushed) }
        ensures shown { IsTrue self.old.tells → self.new.shown ≡ self.old.shown }
        ensures same { (self.new.tells ≡ self.old.tells) × (self.new.sectors ≡ self.old.sectors) }
    {
        hand_over(&mut self.place, &mut self.gathered)?;
        self.place.flush()
    }
}

// Reads the sector with its neighbours where it wasn't read yet, if the place has the last write of each of them. Where that fails nothing is said:
// the sector alone is read then.
fn read_on<P: Place>(place: &mut P, ahead: &mut Ahead, gathered: &Gathered, at: u64, sectors: u64)
    requires size { IsTrue (P.state place.old).tells → length (P.state place.old).held ≡ sectors }
    requires fresh { IsTrue (P.state place.old).tells → AreFresh (P.state place.old).held gathered.now ahead.old }
    ensures fresh { IsTrue (P.state place.old).tells → AreFresh (P.state place.old).held gathered.now ahead.new }
    ensures same { P.state place.new ≡ P.state place.old }
{
    if ahead.get(at).is_some() {
        return;
    }
    let stretch = ahead.stretch_for(at);
    if stretch.fits(sectors) && gathered.is_apart(stretch.first, stretch.count as u64) {
        let _ = ahead.fill(place, stretch);
    }
}

// Lets the run take a sector, and hands it over first where it can't.
fn gather<P: Place>(
    place: &mut P,
    gathered: &mut Gathered,
    at: u64,
    value: &Sector,
) -> Result<(), Failure>
    requires within { IsTrue (P.state place.old).tells → gathered.old.first + length gathered.old.values ≤ length (P.state place.old).held }
    requires inside { IsTrue (P.state place.old).tells → at < length (P.state place.old).held }
    ensures written { IsTrue (P.state place.old).tells → OnOk result (IsWritten (P.state place.old).held gathered.old at value.now (P.state place.new).held gathered.new) }
    ensures unsure { IsTrue (P.state place.old).tells → OnErr result (SameOutside gathered.old.first (length gathered.old.values) (P.state place.old).held (P.state place.new).held) }
    ensures kept { OnErr result (gathered.new ≡ gathered.old) }
    ensures flushed { (P.state place.new).flushed ≡ (P.state place.old).flushed }
    ensures tells { (P.state place.new).tells ≡ (P.state place.old).tells }
{
    if gathered.put(at, value) {
        return Ok(());
    }
    hand_over(place, gathered)?;
    let _ = gathered.put(at, value);
    Ok(())
}

// Hands the gathered run to the place. Where that fails the run is kept, so reads go on giving what was written.
fn hand_over<P: Place>(place: &mut P, gathered: &mut Gathered) -> Result<(), Failure>
    requires { IsTrue (P.state place.old).tells → gathered.old.first + length gathered.old.values ≤ length (P.state place.old).held }
    ensures written { IsTrue (P.state place.old).tells → OnOk result ((P.state place.new).held ≡ put_sectors (P.state place.old).held gathered.old.first gathered.old.values) }
    ensures empty { OnOk result ((gathered.new.first ≡ gathered.old.first) × (gathered.new.values ≡ [])) }
    ensures unsure { IsTrue (P.state place.old).tells → OnErr result (SameOutside gathered.old.first (length gathered.old.values) (P.state place.old).held (P.state place.new).held) }
    ensures kept { OnErr result (gathered.new ≡ gathered.old) }
    ensures flushed { (P.state place.new).flushed ≡ (P.state place.old).flushed }
    ensures tells { (P.state place.new).tells ≡ (P.state place.old).tells }
{
    if gathered.is_empty() {
        return Ok(());
    }
    place.write_run(gathered.first(), gathered.values())?;
    gathered.clear();
    Ok(())
}
