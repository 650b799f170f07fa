//! Calls, each with the answer that the table wants.
use crate::checks::{check_gone, check_place};
use crate::flaw::{Flaw, wanted};
use crate::table::{Place, Table, folder_id};
use btree_edit::{Inserted, Removed};
use catalog::Moved;
use entry_kit::Shelf;
use std::alloc::Global;

/// Adds the entry with a CNID.
pub fn add(
    alloc: Global,
    shelf: &mut Shelf,
    table: &mut Table,
    place: Place,
    id: u32,
) -> Result<(), Flaw> {
    let name = table.name(alloc, place)?;
    let answer = shelf.add(alloc, folder_id(place.folder), &name, id)?;
    if table.has(place) {
        wanted(answer == Inserted::Exists, Flaw::Adding(place))?;
        check_gone(alloc, shelf, id)?;
    } else {
        wanted(answer == Inserted::Done, Flaw::Adding(place))?;
        table.put(place, id, 0);
    }
    check_place(alloc, shelf, table, place)
}

/// Gives the entry at a place another number.
pub fn update(
    alloc: Global,
    shelf: &mut Shelf,
    table: &mut Table,
    place: Place,
    count: u32,
) -> Result<(), Flaw> {
    let name = table.name(alloc, place)?;
    let id = table.id(place);
    let answer = shelf.update(alloc, folder_id(place.folder), &name, id, count)?;
    if table.has(place) {
        wanted(answer == Removed::Done, Flaw::Updating(place))?;
        table.put(place, id, count);
    } else {
        wanted(answer == Removed::Absent, Flaw::Updating(place))?;
    }
    check_place(alloc, shelf, table, place)
}

/// Removes the entry at a place.
pub fn remove(
    alloc: Global,
    shelf: &mut Shelf,
    table: &mut Table,
    place: Place,
) -> Result<(), Flaw> {
    let name = table.name(alloc, place)?;
    let answer = shelf.remove(alloc, folder_id(place.folder), &name)?;
    if table.has(place) {
        wanted(answer == Removed::Done, Flaw::Removing(place))?;
        check_gone(alloc, shelf, table.id(place))?;
        table.put(place, 0, 0);
    } else {
        wanted(answer == Removed::Absent, Flaw::Removing(place))?;
    }
    check_place(alloc, shelf, table, place)
}

/// How a move should end: Absent before Exists.
fn move_in(table: &mut Table, from: Place, to: Place) -> Moved {
    if !table.has(from) {
        return Moved::Absent;
    }
    if table.has(to) {
        return Moved::Exists;
    }
    table.put(to, table.id(from), table.count(from));
    table.put(from, 0, 0);
    Moved::Done
}

/// Moves the entry at a place to another one.
pub fn move_on(
    alloc: Global,
    shelf: &mut Shelf,
    table: &mut Table,
    from: Place,
    to: Place,
) -> Result<Moved, Flaw> {
    let old = table.name(alloc, from)?;
    let new = table.name(alloc, to)?;
    let (before, behind) = (folder_id(from.folder), folder_id(to.folder));
    let answer = shelf.move_on(alloc, before, &old, behind, &new)?;
    wanted(answer == move_in(table, from, to), Flaw::Moving(from, to))?;
    check_place(alloc, shelf, table, from)?;
    check_place(alloc, shelf, table, to)?;
    Ok(answer)
}
