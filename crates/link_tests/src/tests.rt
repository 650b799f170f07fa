//! Names of files, made and dropped, as tables of steps.
use crate::folders::Folders;
use crate::places::Place;
use crate::steps::{Step, Wanted, play};
use crate::stop::Stop;
use hard_links::Linked;
use std::alloc::Global;

const A: Place = Place::Root(0x61);

const B: Place = Place::Root(0x62);

const C: Place = Place::Root(0x63);

const D: Place = Place::Root(0x64);

/// The first link of a file `a`: the file stands under its CNID in the private folder, and links have the old name and the new one.
const FIRST: [Step; 5] = [
    Step::Add(A, 16),
    Step::Link(A, C, (19, 20), Linked::Done),
    Step::Look(A, Wanted::Link(19, 16)),
    Step::Look(C, Wanted::Link(20, 16)),
    Step::Look(Place::Node(16), Wanted::File(16, 2)),
];

/// A second link, made from the name that the first one gave.
const SECOND: [Step; 5] = [
    Step::Link(C, D, (21, 22), Linked::Done),
    Step::Look(D, Wanted::Link(21, 16)),
    Step::Look(C, Wanted::Link(20, 16)),
    Step::Look(A, Wanted::Link(19, 16)),
    Step::Look(Place::Node(16), Wanted::File(16, 3)),
];

/// All three names dropped: at the last one the file stays as it was, until it waits to be removed.
const ALL_DROPPED: [Step; 10] = [
    Step::Drop(A, 19, 2),
    Step::Look(Place::Node(16), Wanted::File(16, 2)),
    Step::Drop(D, 21, 1),
    Step::Look(Place::Node(16), Wanted::File(16, 1)),
    Step::Names(C, 16, 1),
    Step::Drop(C, 20, 0),
    Step::Look(Place::Node(16), Wanted::File(16, 1)),
    Step::Orphan(Place::Node(16)),
    Step::Look(Place::Temp(16), Wanted::File(16, 1)),
    Step::NoFile(Place::Node(16)),
];

/// A shared file with CNID 18 under the number 19, which is the CNID of `b`; its names are `a` and `c`.
const ANOTHER_NUMBER: [Step; 7] = [
    Step::Add(A, 18),
    Step::Add(B, 19),
    Step::Link(A, C, (21, 22), Linked::Done),
    Step::Move(Place::Node(18), Place::Node(19)),
    Step::Refer(A, 19),
    Step::Refer(C, 19),
    Step::Names(C, 18, 2),
];

/// The file whose CNID is the number of another gets the next number, and each name stands for its own file.
const NEXT_NUMBER: [Step; 6] = [
    Step::Link(B, D, (23, 24), Linked::Done),
    Step::Look(B, Wanted::Link(23, 20)),
    Step::Look(D, Wanted::Link(24, 20)),
    Step::Look(Place::Node(20), Wanted::File(19, 2)),
    Step::Names(D, 19, 2),
    Step::Names(C, 18, 2),
];

/// The names of a file whose number isn't its CNID are counted and dropped by its number.
const BY_NUMBER: [Step; 6] = [
    Step::Link(C, D, (23, 24), Linked::Done),
    Step::Look(D, Wanted::Link(23, 19)),
    Step::Look(Place::Node(19), Wanted::File(18, 3)),
    Step::Drop(A, 21, 2),
    Step::Look(Place::Node(19), Wanted::File(18, 2)),
    Step::Look(B, Wanted::File(19, 0)),
];

/// A file without a name takes the number behind those that wait already.
const TWO_ORPHANS: [Step; 6] = [
    Step::Add(A, 16),
    Step::Add(Place::Temp(16), 30),
    Step::Orphan(A),
    Step::Look(Place::Temp(17), Wanted::File(16, 0)),
    Step::Look(Place::Temp(16), Wanted::File(30, 0)),
    Step::NoFile(A),
];

/// A name that was moved goes on naming its file.
const MOVED_NAME: [Step; 4] = [
    Step::Move(A, B),
    Step::Look(B, Wanted::Link(19, 16)),
    Step::Link(B, D, (21, 22), Linked::Done),
    Step::Names(D, 16, 3),
];

/// A file with 32,766 names gets one more, and then no other; what stands there stays.
const MOST_NAMES: [Step; 7] = [
    Step::Count(Place::Node(16), 16, 32_766),
    Step::Link(A, D, (21, 22), Linked::Done),
    Step::Look(Place::Node(16), Wanted::File(16, 32_767)),
    Step::Link(A, B, (23, 24), Linked::TooManyLinks),
    Step::NoFile(B),
    Step::Look(Place::Node(16), Wanted::File(16, 32_767)),
    Step::Look(A, Wanted::Link(19, 16)),
];

/// Plays tables on a new volume, one after the other.
fn plays(alloc: Global, tables: &[&[Step]]) -> Result<(), Stop> {
    let mut folders = Folders::with_private(alloc, 300)?;
    for table in tables {
        play(alloc, &mut folders, table)?;
    }
    Ok(())
}

#[test]
fn a_first_link_moves_the_file_out_of_sight(rt: HostRuntime) -> Result<(), Stop> {
    plays(rt.alloc(), &[&FIRST])
}

#[test]
fn a_later_link_is_one_more(rt: HostRuntime) -> Result<(), Stop> {
    plays(rt.alloc(), &[&FIRST, &SECOND])
}

#[test]
fn names_are_dropped_down_to_the_last(rt: HostRuntime) -> Result<(), Stop> {
    plays(rt.alloc(), &[&FIRST, &SECOND, &ALL_DROPPED])
}

#[test]
fn a_number_that_is_taken_is_passed_by(rt: HostRuntime) -> Result<(), Stop> {
    plays(rt.alloc(), &[&ANOTHER_NUMBER, &NEXT_NUMBER])
}

#[test]
fn names_go_by_the_number(rt: HostRuntime) -> Result<(), Stop> {
    plays(rt.alloc(), &[&ANOTHER_NUMBER, &BY_NUMBER])
}

#[test]
fn a_file_that_waits_passes_by_those_before(rt: HostRuntime) -> Result<(), Stop> {
    plays(rt.alloc(), &[&TWO_ORPHANS])
}

#[test]
fn a_moved_name_names_its_file(rt: HostRuntime) -> Result<(), Stop> {
    plays(rt.alloc(), &[&FIRST, &MOVED_NAME])
}

#[test]
fn the_most_names_are_32767(rt: HostRuntime) -> Result<(), Stop> {
    plays(rt.alloc(), &[&FIRST, &MOST_NAMES])
}
