//! What the plain tree answers to lines.
use cmd_lang::{LineFault, print_reply, read_line};
use hfs_language::Reply;
use hfs_model::PlainTree;
use hx_bytes::OutOfMemory;
use std::alloc::Global;

/// The most that the next id may be for a step.
const MOST_ID: u32 = 4_294_967_292;

/// What a volume, made by the lines `before` on a new one, tells of some lines behind the first ones of others: behind none, behind one, and so
/// on to all.
pub fn told_behind(
    alloc: Global,
    before: &[u8],
    first: &[u8],
    lines: &[u8],
) -> Result<Vec<Vec<u8>>, OutOfMemory> {
    let mut told = Vec::new(alloc);
    let whole = count_lines(first);
    for count in 0..whole.saturating_add(1) {
        let mut tree = PlainTree::new(alloc)?;
        play(alloc, &mut tree, before, u64::MAX)?;
        play(alloc, &mut tree, first, count)?;
        told.push(play(alloc, &mut tree, lines, u64::MAX)?)?;
    }
    Ok(told)
}

/// How many newlines the text has.
pub fn count_lines(text: &[u8]) -> u64 {
    let mut lines: u64 = 0;
    for byte in text {
        if *byte == b'\n' {
            lines = lines.saturating_add(1);
        }
    }
    lines
}

// The replies of a tree to so many lines of a text, each of which ends with a newline.
fn play(
    alloc: Global,
    tree: &mut PlainTree,
    text: &[u8],
    count: u64,
) -> Result<Vec<u8>, OutOfMemory> {
    let mut told = Vec::new(alloc);
    let mut left = count;
    let lines = text.strip_suffix(b"\n").unwrap_or(text);
    for line in lines.split(|byte| *byte == b'\n') {
        if 0 < left {
            left = left.saturating_sub(1);
            told.extend_from_slice(&answer(alloc, tree, line)?)?;
        }
    }
    Ok(told)
}

// The reply to a line, as it is printed.
fn answer(alloc: Global, tree: &mut PlainTree, line: &[u8]) -> Result<Vec<u8>, OutOfMemory> {
    let reply = match read_line(alloc, line) {
        Ok(command) => {
            if tree.next_id > MOST_ID {
                return Err(OutOfMemory);
            }
            tree.step(alloc, &command)?
        }
        Err(LineFault::No(refusal)) => Reply::No(refusal),
        Err(LineFault::Memory) => return Err(OutOfMemory),
    };
    Ok(print_reply(alloc, &reply)?.into_vec())
}
