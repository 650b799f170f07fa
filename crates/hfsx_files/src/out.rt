//! A volume's files are taken out, listed and told. No byte of the image changes.
use crate::call::{Call, Verb};
use crate::options::lack_of;
use crate::serving::look;
use crate::status::WRONG_WORDS;
use files_out::{Out, Wish, path_of};
use files_talk::Notes;
use hfs_language::Path;
use std::alloc::AllocError;

/// Does what a call asks for, and gives the exit status.
pub(crate) fn take_out(rt: &HostRuntime, call: &Call) -> Result<u8, AllocError> {
    let alloc = rt.alloc();
    let (wish, folder) = wish_of(call);
    let mut paths = Vec::new(alloc);
    for path in paths_of(call) {
        match path_of(alloc, path.as_str())? {
            Ok(found) => paths.push(found)?,
            Err(lack) => {
                let why = lack_of(alloc, path.as_str(), lack)?;
                let _ = eprintln!(rt; "hfsx-files: {path}: {}", why.as_str());
                return Ok(WRONG_WORDS);
            }
        }
    }
    if paths.is_empty() {
        paths.push(Path::new(alloc))?;
    }
    let notes = Notes::new(rt, "got", call.verbose);
    let mut job = Out::new(notes, wish, paths, folder)?;
    let status = look(rt, call.image(), &mut job)?;
    job.finish(status == 0)?;
    Ok(if status == 0 { job.status() } else { status })
}

// What is to be done, and the folder in which it is done.
fn wish_of(call: &Call) -> (Wish, &str) {
    match call.verb {
        Verb::Cat => (Wish::Cat, ""),
        Verb::Stat => (Wish::Stat, ""),
        Verb::List => (
            Wish::List {
                long: call.long,
                deep: call.deep,
            },
            "",
        ),
        _ => get_of(call),
    }
}

// The same of `get`, whose folder is the last word.
fn get_of(call: &Call) -> (Wish, &str) {
    let folder = match call.plain.last() {
        Some(word) => word.as_str(),
        None => "",
    };
    if folder == "-" {
        (Wish::Tar, "")
    } else {
        (Wish::Get { over: call.over }, folder)
    }
}

// The paths in the volume.
fn paths_of(call: &Call) -> &[String] {
    let words = call.plain.as_slice();
    let end = if call.verb == Verb::Get {
        words.len().saturating_sub(1)
    } else {
        words.len()
    };
    match words.get(1..end) {
        Some(paths) => paths,
        None => &[],
    }
}
