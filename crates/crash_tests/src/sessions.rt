//! Power fails while sessions hold files open whose names go, make symbolic links and write resource forks.
use crate::few::{Few, fresh_few};
use crate::plain::count_lines;
use crate::runs::{PIECE, is_clean, told_by};
use crate::stops::Tried;
use hfsx_server::Status;
use hx_bytes::OutOfMemory;
use mem_disk::MemImage;
use std::alloc::Global;
use std::test::Fail;
use test_kit::run_program;

/// Lines of sessions and what comes of them.
#[derive(Clone, Copy)]
pub struct Story {
    lines: &'static [u8],
    /// What they are told.
    replies: &'static [u8],
    /// What a session asks behind them.
    reads: &'static [u8],
    /// What it is told, behind none of the lines first, and behind all of them last.
    seen: &'static [Seen],
}

/// What a session is told behind some of the lines, up to this one.
#[derive(Clone, Copy)]
pub struct Seen {
    told: &'static [u8],
    last: u64,
}

/// A file loses its only name while a session has it open, and its bytes are read by the handle.
pub const NAMELESS: Story = Story {
    lines: b"1 create /f\n1 write /f 0 =hi\n2 open /f\n1 rm /f\n2 hread 1 0 9\n1 ls /\n2 close 1\n2 hread 1 0 9\n",
    replies: b"ok\nok\nok 1\nok\nok =hi\nok 0\nok\nno NoHandle 1\n",
    reads: b"1 ls /\n1 read /f 0 9\n",
    seen: &[
        Seen {
            told: b"ok 0\nno NotFound\n",
            last: 0,
        },
        Seen {
            told: b"ok 1 f\nok =\n",
            last: 1,
        },
        Seen {
            told: b"ok 1 f\nok =hi\n",
            last: 3,
        },
        Seen {
            told: b"ok 0\nno NotFound\n",
            last: 8,
        },
    ],
};

/// A link is made, and the file to which it leads gets a resource fork, which is written again and stays while the file is moved.
pub const LINKED: Story = Story {
    lines: b"1 symlink /l =f\n1 create /f\n1 rwrite /f 0 =one\n1 rwrite /f 1 =two\n1 follow /l\n1 mv /f /g\n1 follow /l\n",
    replies: b"ok\nok\nok\nok\nok /f\nok\nno NotFound\n",
    reads: b"1 ls /\n1 readlink /l\n1 rread /f 0 9\n1 rread /g 0 9\n",
    seen: &[
        Seen {
            told: b"ok 0\nno NotFound\nno NotFound\nno NotFound\n",
            last: 0,
        },
        Seen {
            told: b"ok 1 l\nok =f\nno NotFound\nno NotFound\n",
            last: 1,
        },
        Seen {
            told: b"ok 2 f l\nok =f\nok =\nno NotFound\n",
            last: 2,
        },
        Seen {
            told: b"ok 2 f l\nok =f\nok =one\nno NotFound\n",
            last: 3,
        },
        Seen {
            told: b"ok 2 f l\nok =f\nok =otwo\nno NotFound\n",
            last: 5,
        },
        Seen {
            told: b"ok 2 g l\nok =f\nno NotFound\nok =otwo\n",
            last: 7,
        },
    ],
};

/// What the keeping folder holds between two runs.
const KEPT: &[u8] = b"ls /%u0000HFSX%u0020Open%u0020Files\n";

// How sessions ended on a disk.
fn serve(alloc: Global, disk: &mut Few, lines: &[u8]) -> Result<Status, OutOfMemory> {
    run_program(alloc, "sessions v.img", disk, lines, PIECE)
}

// Whether users see the volume of an image as after so many lines or more, and nothing is kept behind a run without a line.
fn is_seen(
    alloc: Global,
    story: &Story,
    image: &MemImage,
    answered: u64,
) -> Result<bool, OutOfMemory> {
    let mut disk = Few::over(alloc, image)?;
    if serve(alloc, &mut disk, b"")? != Status::Done {
        return Ok(false);
    }
    let behind = disk.rig.image(alloc, 1)?;
    match told_by(alloc, &behind, KEPT)? {
        Some(told) => {
            if told.as_slice() != b"ok 0\n".as_slice()
                && told.as_slice() != b"no NotFound\n".as_slice()
            {
                return Ok(false);
            }
        }
        None => return Ok(false),
    }
    let mut again = Few::over(alloc, image)?;
    if serve(alloc, &mut again, story.reads)? != Status::Done {
        return Ok(false);
    }
    for seen in story.seen {
        if answered <= seen.last && seen.told == again.rig.told() {
            return Ok(true);
        }
    }
    Ok(false)
}

// Stops the run after each call that wrote, and looks at the image of this choice.
fn try_sessions(alloc: Global, story: &Story, choice: u64) -> Result<Tried, OutOfMemory> {
    let start = fresh_few(alloc)?;
    let mut whole = Few::over(alloc, &start)?;
    let mut tried = Tried {
        crashes: 0,
        wrong: None,
    };
    if serve(alloc, &mut whole, story.lines)? != Status::Done || whole.rig.told() != story.replies {
        tried.wrong = Some(0);
        return Ok(tried);
    }
    for call in 0..whole.rig.calls() {
        if !whole.rig.wrote(call) {
            continue;
        }
        let stop = call.saturating_add(1);
        let mut disk = Few::over(alloc, &start)?;
        disk.rig.stop_after(stop);
        serve(alloc, &mut disk, story.lines)?;
        let answered = count_lines(disk.rig.told());
        let image = disk.rig.image(alloc, choice)?;
        if !is_clean(alloc, &image)? || !is_seen(alloc, story, &image, answered)? {
            tried.wrong = Some(stop);
        }
        tried.crashes = tried.crashes.saturating_add(1);
    }
    Ok(tried)
}

#[test]
fn the_oldest_values_of_sessions_leave_a_prefix(rt: HostRuntime) -> Result<(), Fail> {
    let tried = try_sessions(rt.alloc(), &NAMELESS, 0)?;
    assert!(rt; tried.wrong == None);
    assert!(rt; tried.crashes > 20);
    Ok(())
}

#[test]
fn the_newest_values_of_sessions_leave_a_prefix(rt: HostRuntime) -> Result<(), Fail> {
    let tried = try_sessions(rt.alloc(), &NAMELESS, 1)?;
    assert!(rt; tried.wrong == None);
    assert!(rt; tried.crashes > 20);
    Ok(())
}

#[test]
fn the_oldest_values_of_links_leave_a_prefix(rt: HostRuntime) -> Result<(), Fail> {
    let tried = try_sessions(rt.alloc(), &LINKED, 0)?;
    assert!(rt; tried.wrong == None);
    assert!(rt; tried.crashes > 20);
    Ok(())
}

#[test]
fn the_newest_values_of_links_leave_a_prefix(rt: HostRuntime) -> Result<(), Fail> {
    let tried = try_sessions(rt.alloc(), &LINKED, 1)?;
    assert!(rt; tried.wrong == None);
    assert!(rt; tried.crashes > 20);
    Ok(())
}
