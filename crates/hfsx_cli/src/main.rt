//! The program `hfsx`: it opens an image and hands it to the top call.
#![tactic(auto)]

use cli_words::{Work, read_words};
use file_rig::{
    Act, Failure, FileLimit, FileRig, Image, Limited, Sparse, StdinSource, Store, Stream, Waiting,
    take_closed, tell, tell_stream,
};
use hfsx_server::{Status, hfsx};
use hx_bytes::OutOfMemory;
use std::alloc::{AllocError, Global};
use std::env::{Env, FillError};
use std::io::{self, ErrorKind};
use std::process::ExitCode;
use watchers::Watcher;

/// The status where the image can't be opened, locked or given its length.
const NO_IMAGE: u8 = 8;

/// The status where there is no memory to begin with.
const NO_MEMORY: u8 = 6;

/// The bytes of a word for which there is room at first.
const FIRST_ROOM: usize = 4_096;

fn main(rt: HostRuntime) -> ExitCode {
    if let Err(error) = take_closed(&rt) {
        let _ = eprintln!(rt; "hfsx: opening /dev/null: {error}");
        return ExitCode::from(NO_IMAGE);
    }
    match given_words(&rt) {
        Ok(words) => ExitCode::from(work(&rt, &words)),
        Err(AllocError) => ExitCode::from(NO_MEMORY),
    }
}

/// The words after the program's name.
#[derive(Drop)]
struct Words {
    list: Vec<String>,
    /// Whether each is text as it was given. In one that isn't, U+FFFD stands for what is no text.
    are_text: bool,
}

// The words of the command line.
fn given_words(rt: &HostRuntime) -> Result<Words, AllocError> {
    let mut words = Words {
        list: Vec::new(rt.alloc()),
        are_text: true,
    };
    let mut room = vec![in rt.alloc(); 0u8; FIRST_ROOM]?;
    let mut at = 1usize;
    for _ in 0..u64::MAX {
        match rt.arg(at, room.as_mut_slice()) {
            Ok(length) => {
                words.take(rt.alloc(), &room[..length])?;
                at = at.saturating_add(1);
            }
            Err(FillError::TooLong) => {
                let more = room.len().saturating_mul(2);
                room = vec![in rt.alloc(); 0u8; more]?;
            }
            Err(FillError::NotPresent) => break,
        }
    }
    Ok(words)
}

impl Words {
    // Takes the bytes of the next word.
    fn take(&mut self, alloc: Global, bytes: &[u8]) -> Result<(), AllocError> {
        if str::from_utf8(bytes).is_err() {
            self.are_text = false;
        }
        self.list.push(String::from_utf8_lossy(alloc, bytes)?)?;
        Ok(())
    }
}

// Does what the words ask for, and gives the exit status.
fn work(rt: &HostRuntime, words: &Words) -> u8 {
    let are_text = words.are_text;
    let words = words.list.as_slice();
    let name = match words {
        [_, image, ..] => image.as_str(),
        _ => "",
    };
    let named = match read_words(rt.alloc(), words) {
        Ok(named) => named,
        Err(OutOfMemory) => return NO_MEMORY,
    };
    if !are_text && !matches!(named, Work::Wrong) {
        let why = io::Error::new(ErrorKind::InvalidInput, "its path isn't UTF-8");
        tell(rt, &Act::Opening.failed(why), name);
        return NO_IMAGE;
    }
    let (image, sectors) = match image_of(rt, named, name) {
        Ok(found) => found,
        Err(failure) => {
            tell(rt, &failure, name);
            return NO_IMAGE;
        }
    };
    let store = match Store::new(rt.alloc(), Sparse::new(image), sectors) {
        Ok(store) => store,
        Err(AllocError) => return NO_MEMORY,
    };
    let output = Waiting::new(rt, rt.stdout());
    let limit = FileLimit::of_process(rt);
    let mut rig = FileRig::new(store, Limited::new(rt, limit, Stream::Output, output));
    let mut source = StdinSource::new(Waiting::new(rt, rt.stdin()));
    // Nobody watches.
    let mut watchers: Vec<Box<dyn Watcher>> = Vec::new(rt.alloc());
    let status = hfsx(rt.alloc(), words, &mut rig, &mut source, &mut watchers);
    match status {
        Status::Disk => match rig.failure() {
            Some(failure) => {
                tell(rt, &failure, name);
                if failure.act.is_before_work() {
                    return NO_IMAGE;
                }
            }
            None => {}
        },
        Status::Source => {
            if let Some(error) = source.failure() {
                tell_stream(rt, "reading standard input", error);
            }
        }
        Status::Sink => {
            if let Some(error) = rig.sink_failure() {
                tell_stream(rt, "writing standard output", error);
            }
        }
        _ => {}
    }
    status.code()
}

// The image that the words name, and its number of sectors.
fn image_of<'a>(
    rt: &'a HostRuntime,
    work: Work,
    name: &'a str,
) -> Result<(Image<'a>, u64), Failure> {
    match work {
        Work::Format { sectors } => Image::to_format(rt, name, sectors),
        Work::Run | Work::Repair | Work::Sessions => Image::open(rt, name),
        Work::Check => Image::to_check(rt, name),
        Work::Gen { .. } | Work::Wrong => Ok((Image::Absent, 0)),
    }
}
