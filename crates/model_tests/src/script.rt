//! Lines that a plain tree answers.
use cmd_lang::{LineFault, print_reply, read_line};
use hfs_language::Reply;
use hfs_model::PlainTree;
use hx_bytes::OutOfMemory;
use std::alloc::Global;

/// The most that the next id may be for a step.
const MOST_ID: u32 = 4_294_967_292;

/// The reply to a line, as it is printed.
pub fn answer(alloc: Global, tree: &mut PlainTree, line: &[u8]) -> Result<Vec<u8>, OutOfMemory> {
    let reply = match read_line(alloc, line) {
        Ok(command) => {
            if tree.next_id > MOST_ID {
                return Err(OutOfMemory);
            }
            tree.step(alloc, &command)?
        }
        Err(LineFault::No(refusal)) => Reply::No(refusal),
        Err(LineFault::Memory) => return Err(OutOfMemory),
    };
    Ok(print_reply(alloc, &reply)?.into_vec())
}

/// The replies to lines on fresh trees, one for each stretch that a line with `#` begins.
pub fn play(alloc: Global, input: &[u8]) -> Result<Vec<u8>, OutOfMemory> {
    let mut output = Vec::new(alloc);
    let mut tree = PlainTree::new(alloc)?;
    let lines = input.strip_suffix(b"\n").unwrap_or(input);
    for line in lines.split(|byte| *byte == b'\n') {
        if line.starts_with(b"#") {
            tree = PlainTree::new(alloc)?;
            output.extend_from_slice(line)?;
            output.push(b'\n')?;
        } else {
            output.extend_from_slice(&answer(alloc, &mut tree, line)?)?;
        }
    }
    Ok(output)
}
