//! The program `hfsx-files`: files of the system are put into a volume, and a volume's files are taken out, listed and told.
//!
//! It stands on the calls of the volume's server: what changes a volume goes through its top call, as lines, so a volume keeps what the server
//! promises; and what is taken out is asked of its look, which writes nothing.
#![tactic(auto)]

mod call;
mod errand;
mod making;
mod options;
mod out;
mod put;
mod serving;
mod status;
mod texts;
mod words;

use call::{Call, Verb};
use file_rig::take_closed;
use hfsx_adopt::adopt;
use hfsx_explain::explain;
use hfsx_salvage::salvage;
use options::read_options;
use std::alloc::AllocError;
use std::env::{Env, FillError};
use std::io::Write;
use std::process::ExitCode;
use words::read_call;

/// The bytes of a word for which there is room at first.
const FIRST_ROOM: usize = 4_096;

fn main(rt: HostRuntime) -> ExitCode {
    if let Err(error) = take_closed(&rt) {
        let _ = eprintln!(rt; "hfsx-files: opening /dev/null: {error}");
        return ExitCode::from(status::NO_IMAGE);
    }
    match begin(&rt) {
        Ok(status) => ExitCode::from(status),
        Err(AllocError) => ExitCode::from(status::NO_MEMORY),
    }
}

// Does what the words ask for, and gives the exit status.
fn begin(rt: &HostRuntime) -> Result<u8, AllocError> {
    let Some(words) = given_words(rt)? else {
        let _ = eprintln!(rt; "hfsx-files: a word isn't UTF-8");
        return Ok(status::WRONG_WORDS);
    };
    match read_call(rt.alloc(), words)? {
        Ok(call) => work(rt, call),
        Err(why) => Ok(refuse(rt, why.as_str())),
    }
}

// Tells what is wrong with the words, and how they are written.
fn refuse(rt: &HostRuntime, why: &str) -> u8 {
    let usage = texts::USAGE;
    let _ = eprintln!(rt; "hfsx-files: {why}\n{usage}");
    status::WRONG_WORDS
}

// Does what a call asks for.
fn work(rt: &HostRuntime, call: Call) -> Result<u8, AllocError> {
    match call.verb {
        Verb::Help => Ok(help(rt)),
        Verb::Version => Ok(tell(rt, texts::VERSION)),
        Verb::Put => match read_options(rt, &call)? {
            Ok(options) => put::put(rt, &call, &options),
            Err(why) => Ok(refuse(rt, why.as_str())),
        },
        Verb::Salvage => salvage(rt, call.image(), call.word(1), call.json),
        Verb::Explain => explain(rt, call.image(), call.json),
        Verb::Adopt => adopt(rt, call.image()),
        Verb::Get | Verb::List | Verb::Cat | Verb::Stat => out::take_out(rt, &call),
    }
}

// Tells how the program is called, and what it does.
fn help(rt: &HostRuntime) -> u8 {
    let status = tell(rt, texts::USAGE);
    if status != 0 {
        return status;
    }
    tell(rt, texts::HELP)
}

// Tells a text on standard output.
fn tell(rt: &HostRuntime, text: &str) -> u8 {
    match rt.stdout().write_all(text.as_bytes()) {
        Ok(()) => 0,
        Err(_) => status::NO_OUTPUT,
    }
}

// The words behind the program's name, or none where one isn't text.
fn given_words(rt: &HostRuntime) -> Result<Option<Vec<String>>, AllocError> {
    let mut words = Vec::new(rt.alloc());
    let mut room = vec![in rt.alloc(); 0u8; FIRST_ROOM]?;
    let mut at = 1usize;
    for _ in 0..u64::MAX {
        match rt.arg(at, room.as_mut_slice()) {
            Ok(length) => {
                match str::from_utf8(&room[..length]) {
                    Ok(word) => words.push(String::from_str(rt.alloc(), word)?)?,
                    Err(_) => return Ok(None),
                }
                at = at.saturating_add(1);
            }
            Err(FillError::TooLong) => {
                let more = room.len().saturating_mul(2);
                room = vec![in rt.alloc(); 0u8; more]?;
            }
            Err(FillError::NotPresent) => break,
        }
    }
    Ok(Some(words))
}
