//! Whole lives of attributes: set, given other values, deleted, dropped a file at a time, and set again.
use crate::checks::check_all;
use crate::flaw::{Flaw, wanted};
use crate::steps::{delete, drop_all, set};
use crate::table::Table;
use entry_kit::{Drawer, Length};
use std::alloc::Global;

/// Sets each attribute but each fourth, in shuffled order, and half of them once more.
fn fill(alloc: Global, drawer: &mut Drawer, table: &mut Table) -> Result<(), Flaw> {
    for number in 0..table.count_places() {
        if number % 4 != 3 {
            let place = table.place(number);
            set(alloc, drawer, table, place)?;
            if number % 2 == 0 {
                set(alloc, drawer, table, place)?;
            }
        }
    }
    check_all(alloc, drawer, table)
}

/// Deletes each third attribute, whether or not it is there, twice.
fn thin(alloc: Global, drawer: &mut Drawer, table: &mut Table) -> Result<(), Flaw> {
    for number in 0..table.count_places() {
        if number % 3 == 0 {
            let place = table.place(number);
            delete(alloc, drawer, table, place)?;
            delete(alloc, drawer, table, place)?;
        }
    }
    check_all(alloc, drawer, table)
}

/// Drops the attributes of each second file, each twice, while its neighbours keep theirs, and then those of the others.
fn drop_each(alloc: Global, drawer: &mut Drawer, table: &mut Table) -> Result<(), Flaw> {
    for odd in [1, 0] {
        for file in 0..u32::from(table.files) {
            if file % 2 == odd {
                drop_all(alloc, drawer, table, file)?;
                drop_all(alloc, drawer, table, file)?;
            }
        }
        check_all(alloc, drawer, table)?;
    }
    Ok(())
}

/// Deletes each attribute.
fn delete_each(alloc: Global, drawer: &mut Drawer, table: &mut Table) -> Result<(), Flaw> {
    for number in 0..table.count_places() {
        let place = table.place(number);
        delete(alloc, drawer, table, place)?;
    }
    check_all(alloc, drawer, table)
}

/// Whether a tree has no pair, and all its nodes but the header's are free.
fn check_bare(drawer: &Drawer) -> Result<(), Flaw> {
    let shape = drawer.shape();
    let is_bare = shape.depth == 0 && shape.root == 0 && shape.leaf_records == 0;
    wanted(
        is_bare && shape.free == shape.total.saturating_sub(1),
        Flaw::Levels(shape.depth),
    )
}

/// A whole life of a tree, which has at least so many levels when it is full. Files have at most seven attributes, or are emptied
/// one attribute at a time.
fn live(alloc: Global, drawer: &mut Drawer, table: &mut Table, levels: u16) -> Result<(), Flaw> {
    fill(alloc, drawer, table)?;
    let depth = drawer.shape().depth;
    wanted(depth >= levels, Flaw::Levels(depth))?;
    thin(alloc, drawer, table)?;
    if table.many <= 7 {
        drop_each(alloc, drawer, table)?;
        check_bare(drawer)?;
        fill(alloc, drawer, table)?;
    }
    delete_each(alloc, drawer, table)?;
    check_bare(drawer)
}

fn live_in_4096(
    alloc: Global,
    length: Length,
    files: u16,
    many: u16,
    levels: u16,
) -> Result<(), Flaw> {
    let mut drawer = Drawer::of_4096(alloc, 500)?;
    let mut table = Table::new(alloc, length, files, many)?;
    live(alloc, &mut drawer, &mut table, levels)
}

fn live_in_8192(
    alloc: Global,
    length: Length,
    files: u16,
    many: u16,
    levels: u16,
) -> Result<(), Flaw> {
    let mut drawer = Drawer::of_8192(alloc, 500)?;
    let mut table = Table::new(alloc, length, files, many)?;
    live(alloc, &mut drawer, &mut table, levels)
}

#[test]
fn names_of_one_unit(rt: HostRuntime) {
    let alloc = rt.alloc();
    assert_eq!(rt; live_in_4096(alloc, Length::Shortest, 60, 7, 2), Ok(()));
    assert_eq!(rt; live_in_8192(alloc, Length::Shortest, 60, 7, 2), Ok(()));
}

// A node above has room for fourteen of these keys, or twenty-nine where it has 8,192 bytes.
#[test]
fn names_of_127_units(rt: HostRuntime) {
    let alloc = rt.alloc();
    assert_eq!(rt; live_in_4096(alloc, Length::Longest, 60, 7, 3), Ok(()));
    assert_eq!(rt; live_in_8192(alloc, Length::Longest, 60, 7, 3), Ok(()));
}

#[test]
fn names_that_begin_each_other(rt: HostRuntime) {
    let alloc = rt.alloc();
    assert_eq!(rt; live_in_4096(alloc, Length::Growing, 3, 127, 3), Ok(()));
    assert_eq!(rt; live_in_8192(alloc, Length::Growing, 60, 7, 2), Ok(()));
}

#[test]
fn one_attribute(rt: HostRuntime) {
    let alloc = rt.alloc();
    assert_eq!(rt; live_in_4096(alloc, Length::Longest, 1, 1, 1), Ok(()));
    assert_eq!(rt; live_in_8192(alloc, Length::Shortest, 1, 1, 1), Ok(()));
}
