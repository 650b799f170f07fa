//! Watchers that leave, and one of a folder.
ghost use Rattle.std.specs.Prelude.{◌≡◌, ◌++◌, ◌∷◌, ◌⊎◌, ◌↔◌, [], List, IsTrue, true, false};
ghost use Rattle.hfs_language.specs.declared.reply.Change.{Change};

use crate::under::copied;
use crate::{FolderAt, Keep, Under, Watcher, tell_all};
use hfs_language::{Change, ChangeKind, Changes};
use hx_bytes::{OutOfMemory, Units};
use std::alloc::Global;

/// One that leaves at its first change, and keeps none.
#[derive(Drop)]
struct Leaver;

impl Watcher for Leaver {
    ghost told = { λ watcher. [] };

    ghost leaves = { λ watcher. true };

    fn tell(&mut self, change: &Change) -> Keep {
        Keep::Leave
    }
}

/// One that keeps all that it is told.
#[derive(Drop)]
struct Keeper {
    alloc: Global,
    heard: Changes,
    gone: bool,
}

impl Watcher for Keeper {
    ghost told = { λ watcher. watcher.heard };

    ghost leaves = { λ watcher. watcher.gone };

    fn tell(&mut self, change: &Change) -> Keep {
        self.gone = true;
        let Ok(heard) = copied(self.alloc, change) else {
            return Keep::Leave;
        };
        match self.heard.push(heard) {
            Ok(()) => {
                self.gone = false;
                Keep::Stay
            }
            Err(_) => Keep::Leave,
        }
    }
}

fn change(alloc: Global, line: u64) -> Change {
    change_at(alloc, line, ChangeKind::Made, 18, 2)
}

fn change_at(alloc: Global, line: u64, kind: ChangeKind, id: u32, parent: u32) -> Change {
    Change {
        line,
        kind,
        id,
        parent,
        name: Units::new(alloc),
    }
}

// `mkdir /a`, `create /a/f`, `create /g`, `mv /g /a/g`, `rm /a/f` and `mv /a/g /g`
fn some_changes(alloc: Global) -> Result<Changes, OutOfMemory> {
    let mut changes = Changes::new(alloc);
    changes.push(change_at(alloc, 0, ChangeKind::Made, 18, 2))?;
    changes.push(change_at(alloc, 1, ChangeKind::Made, 19, 18))?;
    changes.push(change_at(alloc, 2, ChangeKind::Made, 20, 2))?;
    changes.push(change_at(alloc, 3, ChangeKind::Moved, 20, 18))?;
    changes.push(change_at(alloc, 4, ChangeKind::Removed, 19, 18))?;
    changes.push(change_at(alloc, 5, ChangeKind::Moved, 20, 2))?;
    Ok(changes)
}

// What somebody who keeps changes hears of these behind one of the folder 18, with room for so many ids; and whether that one stays.
fn heard_under(alloc: Global, room: u32, changes: &Changes) -> Result<(Keep, Keeper), OutOfMemory> {
    let keeper = Keeper {
        alloc,
        heard: Changes::new(alloc),
        gone: false,
    };
    let root = [FolderAt { id: 2, parent: 1 }];
    let Ok(mut under) = Under::new(alloc, 18, &root, room, keeper) else {
        return Err(OutOfMemory);
    };
    let answer = under.hear_all(changes)?;
    Ok((answer, under.into_inner()))
}

fn line_at(keeper: &Keeper, at: usize) -> u64 {
    match keeper.heard.get(at) {
        Some(change) => change.line,
        None => 99,
    }
}

#[test]
fn a_folder_hears_what_is_in_it_and_comes_into_it(rt: HostRuntime) -> Result<(), OutOfMemory> {
    let changes = some_changes(rt.alloc())?;
    let (answer, keeper) = heard_under(rt.alloc(), 4, &changes)?;
    assert!(rt; answer == Keep::Stay);
    assert_eq!(rt; keeper.heard.len(), 3);
    assert_eq!(rt; line_at(&keeper, 0), 1);
    assert_eq!(rt; line_at(&keeper, 1), 3);
    assert_eq!(rt; line_at(&keeper, 2), 4);
    Ok(())
}

#[test]
fn who_has_no_room_leaves(rt: HostRuntime) -> Result<(), OutOfMemory> {
    let changes = some_changes(rt.alloc())?;
    let (answer, keeper) = heard_under(rt.alloc(), 3, &changes)?;
    assert!(rt; answer == Keep::Leave);
    assert_eq!(rt; keeper.heard.len(), 1);
    Ok(())
}

#[test]
fn those_that_leave_are_gone(rt: HostRuntime) -> Result<(), OutOfMemory> {
    let mut watchers: Vec<Box<dyn Watcher>> = Vec::new(rt.alloc());
    watchers.push(Box::new(rt.alloc(), Leaver)?)?;
    watchers.push(Box::new(rt.alloc(), Leaver)?)?;
    let mut changes = Changes::new(rt.alloc());
    tell_all(&mut watchers, &changes);
    assert_eq!(rt; watchers.len(), 2);
    changes.push(change(rt.alloc(), 0))?;
    tell_all(&mut watchers, &changes);
    assert_eq!(rt; watchers.len(), 0);
    Ok(())
}
