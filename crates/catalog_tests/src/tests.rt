//! Whole lives of a catalog: filled, changed, moved about and emptied.
use crate::checks::check_all;
use crate::flaw::{Flaw, wanted};
use crate::steps::{add, move_on, remove, update};
use crate::table::{Place, Table};
use catalog::Moved;
use entry_kit::{Length, Shelf};
use std::alloc::Global;

/// The CNID of the first entry.
const FIRST: u32 = 16;

/// How often each answer of a move came.
#[derive(Clone, Copy, Debug, PartialEq, Eq)]
struct Moves {
    done: u32,
    absent: u32,
    exists: u32,
}

impl Moves {
    fn note(&mut self, answer: Moved) {
        match answer {
            Moved::Done => self.done = self.done.saturating_add(1),
            Moved::Absent => self.absent = self.absent.saturating_add(1),
            Moved::Exists => self.exists = self.exists.saturating_add(1),
        }
    }
}

/// Adds an entry at each place but each third, in shuffled order, and tries each of them once more.
fn fill(alloc: Global, shelf: &mut Shelf, table: &mut Table) -> Result<(), Flaw> {
    for number in 0..table.count_places() {
        if number % 3 != 1 {
            let place = table.place(number);
            let id = number.wrapping_add(FIRST);
            add(alloc, shelf, table, place, id)?;
            add(alloc, shelf, table, place, id.wrapping_add(10_000))?;
        }
    }
    check_all(alloc, shelf, table)
}

/// Gives each entry another number, and asks for it where there is none.
fn change(alloc: Global, shelf: &mut Shelf, table: &mut Table) -> Result<(), Flaw> {
    for number in 0..table.count_places() {
        let place = table.place(number);
        update(alloc, shelf, table, place, number.wrapping_mul(3))?;
    }
    check_all(alloc, shelf, table)
}

/// Moves from each place to the one that comes so many later: to another name or folder, onto itself, from where there is
/// nothing and onto what is there.
fn move_each(
    alloc: Global,
    shelf: &mut Shelf,
    table: &mut Table,
    later: u32,
) -> Result<Moves, Flaw> {
    let mut moves = Moves {
        done: 0,
        absent: 0,
        exists: 0,
    };
    for number in 0..table.count_places() {
        let from = table.place(number);
        let to = table.place(number.wrapping_add(later));
        moves.note(move_on(alloc, shelf, table, from, to)?);
    }
    check_all(alloc, shelf, table)?;
    Ok(moves)
}

/// Removes what stands at every other place, and then the rest; each place is asked for twice.
fn empty(alloc: Global, shelf: &mut Shelf, table: &mut Table) -> Result<(), Flaw> {
    for odd in 0..2u32 {
        for number in 0..table.count_places() {
            if number % 2 == odd {
                let place = table.place(number);
                remove(alloc, shelf, table, place)?;
                remove(alloc, shelf, table, place)?;
            }
        }
        check_all(alloc, shelf, table)?;
    }
    Ok(())
}

/// Moves: none goes onto itself; then each goes to the place behind, of which each third is free, and the last to where the
/// first was; then on to the seventh behind.
fn move_about(alloc: Global, shelf: &mut Shelf, table: &mut Table) -> Result<(), Flaw> {
    let many = u32::from(table.many);
    let stay = move_each(alloc, shelf, table, 0)?;
    let none = Moves {
        done: 0,
        absent: many,
        exists: many * 2,
    };
    wanted(stay == none, Flaw::Moves)?;
    let turn = move_each(alloc, shelf, table, 1)?;
    let third = Moves {
        done: many + 1,
        absent: 0,
        exists: (many * 2).saturating_sub(1),
    };
    wanted(turn == third, Flaw::Moves)?;
    move_each(alloc, shelf, table, 7)?;
    Ok(())
}

/// A whole life of a catalog with so many names in each folder, which has at least so many levels when it is full.
fn live(alloc: Global, length: Length, many: u16, levels: u16) -> Result<(), Flaw> {
    let mut shelf = Shelf::new(alloc, 600)?;
    let mut table = Table::new(alloc, length, many)?;
    fill(alloc, &mut shelf, &mut table)?;
    let depth = shelf.shape().depth;
    wanted(depth >= levels, Flaw::Levels(depth))?;
    change(alloc, &mut shelf, &mut table)?;
    move_about(alloc, &mut shelf, &mut table)?;
    empty(alloc, &mut shelf, &mut table)?;
    let shape = shelf.shape();
    wanted(
        (shape.depth, shape.root, shape.leaf_records, shape.free) == (0, 0, 0, 600),
        Flaw::Levels(shape.depth),
    )
}

#[test]
fn names_of_one_unit(rt: HostRuntime) -> Result<(), Flaw> {
    live(rt.alloc(), Length::Shortest, 200, 2)
}

// A leaf holds six entries with such names, or seven threads; a node above seven of these keys, or more of the threads'.
#[test]
fn names_of_255_units(rt: HostRuntime) -> Result<(), Flaw> {
    live(rt.alloc(), Length::Longest, 100, 3)
}

#[test]
fn names_that_begin_each_other(rt: HostRuntime) -> Result<(), Flaw> {
    live(rt.alloc(), Length::Growing, 255, 3)
}

#[test]
fn three_places(rt: HostRuntime) -> Result<(), Flaw> {
    live(rt.alloc(), Length::Shortest, 1, 1)
}
