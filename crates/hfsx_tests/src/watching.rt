// Watchers are told what the lines changed, once it is durable.
ghost use Rattle.std.specs.Prelude.{◌≡◌, IfOk};

use hfs_language::{Change, Changes};
use hfsx_server::Status;
use hx_bytes::{OutOfMemory, Units};
use mem_disk::MemSource;
use std::alloc::Global;
use std::test::Fail;
use test_kit::{fresh_rig, run_watched};
use watchers::{Keep, Watcher};

/// Stays as long as the changes that it is told are those of these lines.
#[derive(Drop)]
struct Expecting {
    alloc: Global,
    lines: [u64; 3],
    heard: Changes,
    gone: bool,
}

impl Expecting {
    fn new(alloc: Global, lines: [u64; 3]) -> Expecting {
        Expecting {
            alloc,
            lines,
            heard: Changes::new(alloc),
            gone: false,
        }
    }

    // Whether the next change is to be one of this line.
    fn is_next(&self, line: u64) -> bool {
        match self.lines.as_slice().get(self.heard.len()) {
            Some(next) => *next == line,
            None => false,
        }
    }
}

impl Watcher for Expecting {
    ghost told = { λ watcher. watcher.heard };

    ghost leaves = { λ watcher. watcher.gone };

    fn tell(&mut self, change: &Change) -> Keep {
        self.gone = true;
        if !self.is_next(change.line) {
            return Keep::Leave;
        }
        let Ok(heard) = copied(self.alloc, change) else {
            return Keep::Leave;
        };
        match self.heard.push(heard) {
            Ok(()) => {
                self.gone = false;
                Keep::Stay
            }
            Err(_) => Keep::Leave,
        }
    }
}

fn copied(alloc: Global, change: &Change) -> Result<Change, OutOfMemory>
    ensures { IfOk result (λ copy. copy ≡ change.now) }
{
    Ok(Change {
        line: change.line,
        kind: change.kind,
        id: change.id,
        parent: change.parent,
        name: Units::from_vec(Vec::from_slice(alloc, change.name.as_slice())?),
    })
}

// Serves lines on a new volume, with a watcher for each of these rows, that stays as long as the changes that it is told are those of these
// lines. Answers what was told, and how many watchers are left; nothing where the run ended otherwise than at the end of its lines.
fn served_with(
    alloc: Global,
    input: &[u8],
    expected: &[[u64; 3]],
) -> Result<Option<(Vec<u8>, usize)>, OutOfMemory> {
    let mut rig = fresh_rig(alloc)?;
    let mut source = MemSource::new(alloc, input, 64, None)?;
    let mut watchers: Vec<Box<dyn Watcher>> = Vec::new(alloc);
    for lines in expected {
        watchers.push(Box::new(alloc, Expecting::new(alloc, *lines))?)?;
    }
    let ended = run_watched(alloc, "run v.img", &mut rig, &mut source, &mut watchers)?;
    if ended != Status::Done {
        return Ok(None);
    }
    Ok(Some((Vec::from_slice(alloc, rig.told())?, watchers.len())))
}

// The first stays, since it is told the changes of lines 0 and 2. The second leaves at the first change, and the third at that of line 2.
#[test]
fn watchers_are_told_changes_in_order(rt: HostRuntime) -> Result<(), Fail> {
    let lines = b"mkdir /a\nls /\nmkdir /b\n";
    let served = served_with(rt.alloc(), lines, &[[0, 2, 9], [9, 9, 9], [0, 9, 9]])?;
    assert!(rt;
        matches!(&served, Some((told, left)) if told.as_slice() == b"ok\nok 1 a/\nok\n".as_slice() && *left == 1)
    );
    Ok(())
}

// Two that leave at once, behind one another, and one that is told the one change that there is.
#[test]
fn watchers_that_leave_are_told_no_more(rt: HostRuntime) -> Result<(), Fail> {
    let lines = b"mkdir /a\ncreate /a\n";
    let served = served_with(rt.alloc(), lines, &[[9, 9, 9], [9, 9, 9], [0, 9, 9]])?;
    assert!(rt;
        matches!(&served, Some((told, left)) if told.as_slice() == b"ok\nno Exists\n".as_slice() && *left == 1)
    );
    Ok(())
}

// A file that takes the place of another is told as moved, and the other isn't told; a file that is moved onto itself isn't told either. The first watcher
// leaves at the third change, and the other two stay, since there is no fourth one.
#[test]
fn a_replaced_file_is_told_as_one_move(rt: HostRuntime) -> Result<(), Fail> {
    let lines = b"create /a\ncreate /b\nmv /a /b\nmv /b /b\n";
    let served = served_with(rt.alloc(), lines, &[[0, 1, 9], [0, 1, 2], [0, 1, 2]])?;
    assert!(rt;
        matches!(&served, Some((told, left)) if told.as_slice() == b"ok\nok\nok\nok\n".as_slice() && *left == 2)
    );
    Ok(())
}
