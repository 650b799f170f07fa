//! Reads lines, and prints of each the command that it spells, written by hand, or the refusal.
//! What goes in and what must come out are the files `stdin` and `stdout` of this crate, line by line.
#![tactic(auto)]

mod spelled;

use anyhow::Context;
use cmd_lang::{LineFault, print_reply, read_line};
use hfs_language::Reply;
use hx_bytes::OutOfMemory;
use spelled::line_of;
use std::alloc::Global;
use std::io::{Read, Write};

fn main(rt: HostRuntime) -> anyhow::Result<()> {
    let mut input = Vec::new(rt.alloc());
    rt.stdin().read_to_end(&mut input)?;
    let mut output = Vec::new(rt.alloc());
    let lines = input.strip_suffix(b"\n").unwrap_or(&input);
    for line in lines.split(|byte| *byte == b'\n') {
        answer(rt.alloc(), &mut output, line)
            .ok()
            .context("no memory")?;
    }
    rt.stdout().write_all(&output)?;
    Ok(())
}

/// The line of the command that a line spells, or its refusal.
fn answer(alloc: Global, output: &mut Vec<u8>, line: &[u8]) -> Result<(), OutOfMemory> {
    match read_line(alloc, line) {
        Ok(command) => {
            output.extend_from_slice(line_of(alloc, &command)?.as_bytes())?;
            output.push(b'\n')?;
        }
        Err(LineFault::No(refusal)) => {
            output.extend_from_slice(print_reply(alloc, &Reply::No(refusal))?.as_slice())?;
        }
        Err(LineFault::Memory) => return Err(OutOfMemory),
    }
    Ok(())
}
