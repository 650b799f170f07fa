//! Calls with the answers that are wanted, and looks at what stands there.
use crate::folders::Folders;
use crate::places::Place;
use crate::records::{is_file, is_link};
use crate::stop::{Stop, wanted};
use cat_records::ThreadRecord;
use catalog::{Inserted, Moved, Removed};
use hard_links::{EntryAt, Linked};
use std::alloc::Global;

/// What a name should give.
#[derive(Clone, Copy)]
pub enum Wanted {
    /// A file with a CNID, which says that it has so many links.
    File(u32, u32),
    /// A link with a CNID to a number.
    Link(u32, u32),
}

impl Wanted {
    fn id(self) -> u32 {
        match self {
            Wanted::File(id, _) => id,
            Wanted::Link(id, _) => id,
        }
    }
}

/// Gives a file another name, and wants this answer.
fn link(
    alloc: Global,
    folders: &mut Folders,
    from: Place,
    to: Place,
    ids: (u32, u32),
    answer: Linked,
) -> Result<(), Stop> {
    let (old, new) = (from.entry(alloc)?, to.entry(alloc)?);
    let given = folders.link(alloc, &old, &new, ids)?;
    wanted(given == answer, Stop::Answer(to))
}

/// Removes a link, and wants that so many names are left, and that its thread is gone.
fn drop_name(
    alloc: Global,
    folders: &mut Folders,
    at: Place,
    id: u32,
    left: u32,
) -> Result<(), Stop> {
    let entry = at.entry(alloc)?;
    let given = folders.drop_link(alloc, &entry)?;
    wanted(given == left, Stop::Answer(at))?;
    let found = folders.file(alloc, &entry)?;
    wanted(found.is_none(), Stop::Record(at))?;
    let thread = folders.thread(alloc, id)?;
    wanted(thread.is_none(), Stop::Thread(id))
}

/// Whether a thread tells that a file stands at a place.
fn tells(thread: &Option<ThreadRecord>, at: &EntryAt) -> bool {
    match thread {
        Some(thread) => {
            thread.of_file
                && thread.spare == 0
                && thread.parent == at.parent
                && thread.name.as_slice() == at.name.as_slice()
        }
        None => false,
    }
}

/// Looks a name up, and the thread of what should stand there.
fn look(alloc: Global, folders: &mut Folders, at: Place, what: Wanted) -> Result<(), Stop> {
    let entry = at.entry(alloc)?;
    let is_it = match folders.file(alloc, &entry)? {
        Some(rec) => match what {
            Wanted::File(id, links) => is_file(&rec, id, links),
            Wanted::Link(id, number) => is_link(&rec, id, number),
        },
        None => false,
    };
    wanted(is_it, Stop::Record(at))?;
    let thread = folders.thread(alloc, what.id())?;
    wanted(tells(&thread, &entry), Stop::Thread(what.id()))
}

/// Wants that a name stands for the file with a CNID that says that it has so many links.
fn names(alloc: Global, folders: &mut Folders, at: Place, id: u32, links: u32) -> Result<(), Stop> {
    match folders.file(alloc, &at.entry(alloc)?)? {
        Some(rec) => {
            let file = folders.resolve(alloc, &rec)?;
            wanted(
                file.fields.id == id && file.fields.special == links,
                Stop::Identity(at),
            )
        }
        None => Err(Stop::Record(at)),
    }
}

/// Wants that no file stands at a place.
fn none_at(alloc: Global, folders: &mut Folders, at: Place) -> Result<(), Stop> {
    let found = folders.file(alloc, &at.entry(alloc)?)?;
    wanted(found.is_none(), Stop::Record(at))
}

fn add(alloc: Global, folders: &mut Folders, at: Place, id: u32) -> Result<(), Stop> {
    let answer = folders.add_file(alloc, &at.entry(alloc)?, id)?;
    wanted(answer == Inserted::Done, Stop::Answer(at))
}

fn move_to(alloc: Global, folders: &mut Folders, from: Place, to: Place) -> Result<(), Stop> {
    let answer = folders.move_on(alloc, &from.entry(alloc)?, &to.entry(alloc)?)?;
    wanted(answer == Moved::Done, Stop::Answer(to))
}

fn refer(alloc: Global, folders: &mut Folders, at: Place, number: u32) -> Result<(), Stop> {
    let answer = folders.refer(alloc, &at.entry(alloc)?, number)?;
    wanted(answer == Removed::Done, Stop::Answer(at))
}

fn count(alloc: Global, folders: &mut Folders, at: Place, id: u32, links: u32) -> Result<(), Stop> {
    let answer = folders.count(alloc, &at.entry(alloc)?, id, links)?;
    wanted(answer == Removed::Done, Stop::Answer(at))
}

fn set_aside(alloc: Global, folders: &mut Folders, at: Place) -> Result<(), Stop> {
    folders.orphan(alloc, &at.entry(alloc)?)
}

/// A step of a test.
#[derive(Clone, Copy)]
pub enum Step {
    /// Adds a file with a CNID.
    Add(Place, u32),
    /// Gives a file another name, with two CNIDs, and wants this answer.
    Link(Place, Place, (u32, u32), Linked),
    /// Removes the link with a CNID, and wants that so many names are left.
    Drop(Place, u32, u32),
    Move(Place, Place),
    /// Has a link say another number.
    Refer(Place, u32),
    /// Has the file with a CNID say that it has so many links.
    Count(Place, u32, u32),
    /// Has a file wait to be removed.
    Orphan(Place),
    /// Wants this under a name.
    Look(Place, Wanted),
    /// Wants that a name stands for the file with a CNID that says that it has so many links.
    Names(Place, u32, u32),
    NoFile(Place),
}

fn play_step(alloc: Global, folders: &mut Folders, step: Step) -> Result<(), Stop> {
    match step {
        Step::Add(at, id) => add(alloc, folders, at, id),
        Step::Link(from, to, ids, answer) => link(alloc, folders, from, to, ids, answer),
        Step::Drop(at, id, left) => drop_name(alloc, folders, at, id, left),
        Step::Move(from, to) => move_to(alloc, folders, from, to),
        Step::Refer(at, number) => refer(alloc, folders, at, number),
        Step::Count(at, id, links) => count(alloc, folders, at, id, links),
        Step::Orphan(at) => set_aside(alloc, folders, at),
        Step::Look(at, what) => look(alloc, folders, at, what),
        Step::Names(at, id, links) => names(alloc, folders, at, id, links),
        Step::NoFile(at) => none_at(alloc, folders, at),
    }
}

/// Plays steps up to the first that goes otherwise than wanted.
pub fn play(alloc: Global, folders: &mut Folders, steps: &[Step]) -> Result<(), Stop> {
    for step in steps {
        play_step(alloc, folders, *step)?;
    }
    Ok(())
}
