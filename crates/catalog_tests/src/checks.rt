//! A catalog held against its table.
use crate::flaw::{Flaw, wanted};
use crate::table::{FOLDERS, Place, Table, folder_id};
use cat_records::{CatRecord, ThreadRecord};
use catalog::Children;
use entry_kit::{Shelf, is_entry, is_file};
use hx_bytes::Units;
use std::alloc::Global;

/// Whether what was found is the record of the entry with a CNID; 0 is none.
fn is_record(found: &Option<CatRecord>, id: u32, count: u32) -> bool {
    match found {
        Some(rec) => id != 0 && is_entry(rec, id, count),
        None => id == 0,
    }
}

/// Whether a thread is that of an entry at this place.
fn tells(found: &Option<ThreadRecord>, id: u32, parent: u32, name: &Units) -> bool {
    match found {
        Some(thread) => {
            thread.of_file == is_file(id)
                && thread.spare == 0
                && thread.parent == parent
                && thread.name.as_slice() == name.as_slice()
        }
        None => false,
    }
}

/// Looks a place up, and its entry's thread.
pub fn check_place(
    alloc: Global,
    shelf: &mut Shelf,
    table: &Table,
    place: Place,
) -> Result<(), Flaw> {
    let parent = folder_id(place.folder);
    let name = table.name(alloc, place)?;
    let id = table.id(place);
    let found = shelf.record(alloc, parent, &name)?;
    wanted(
        is_record(&found, id, table.count(place)),
        Flaw::Record(place),
    )?;
    if id == 0 {
        return Ok(());
    }
    let thread = shelf.thread(alloc, id)?;
    wanted(tells(&thread, id, parent, &name), Flaw::Thread(id))
}

/// Whether the entry so many places down a list is that of a place.
fn is_child(
    alloc: Global,
    list: &Children,
    at: usize,
    table: &Table,
    place: Place,
) -> Result<bool, Flaw> {
    let name = table.name(alloc, place)?;
    match list.get(at) {
        Some(child) => Ok(
            child.name.as_slice() == name.as_slice()
                && is_entry(&child.rec, table.id(place), table.count(place)),
        ),
        None => Ok(false),
    }
}

/// Lists a folder.
fn check_children(alloc: Global, shelf: &mut Shelf, table: &Table, folder: u8) -> Result<(), Flaw> {
    let list = shelf.children(alloc, folder_id(folder))?;
    let mut at = 0usize;
    for name in 0..table.many {
        let place = Place { folder, name };
        if table.has(place) {
            wanted(
                is_child(alloc, &list, at, table, place)?,
                Flaw::Children(folder),
            )?;
            at = at.wrapping_add(1);
        }
    }
    wanted(list.len() == at, Flaw::Children(folder))
}

/// Lists each folder, and looks up each place.
pub fn check_all(alloc: Global, shelf: &mut Shelf, table: &Table) -> Result<(), Flaw> {
    for folder in 0..FOLDERS {
        check_children(alloc, shelf, table, folder)?;
        for name in 0..table.many {
            check_place(alloc, shelf, table, Place { folder, name })?;
        }
    }
    Ok(())
}

/// Looks for the thread of an entry that is gone.
pub fn check_gone(alloc: Global, shelf: &mut Shelf, id: u32) -> Result<(), Flaw> {
    let thread = shelf.thread(alloc, id)?;
    wanted(thread.is_none(), Flaw::Thread(id))
}
