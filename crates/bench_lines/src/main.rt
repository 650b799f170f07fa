//! Reads lines of all kinds again and again, and counts them: `bench_lines lines ROUNDS`. Or reads one `write` of so many bytes, or spells its
//! value: `bench_lines read|spell plain|text|any BYTES ROUNDS`, where the bytes stand for themselves, or one in eight doesn't, or they are any.
#![tactic(auto)]

mod lines;
mod values;

use anyhow::Context;
use cmd_lang::read_line;
use lines::LINES;
use std::alloc::Global;
use std::env;
use values::{read_bytes, spell_bytes};

fn main(rt: HostRuntime) -> anyhow::Result<()> {
    let words: Vec<String> = env::args(&rt)?.skip(1).collect(rt.alloc())?;
    match words.as_slice() {
        [verb, kind, bytes, rounds] => {
            let bytes = number(bytes);
            let rounds = number(rounds);
            let taken = if verb.as_str() == "read" {
                read_bytes(rt.alloc(), kind.as_str(), bytes, rounds)
            } else {
                spell_bytes(rt.alloc(), kind.as_str(), bytes, rounds)
            };
            let taken = taken.context("no memory")?;
            println!(rt; "bytes {taken}")?;
        }
        [kind, rounds] if kind.as_str() == "lines" => {
            let commands = count_commands(rt.alloc(), number(rounds));
            println!(rt; "commands {commands}")?;
        }
        _ => println!(rt; "commands {}", count_commands(rt.alloc(), 1))?,
    }
    Ok(())
}

fn number(word: &String) -> u64 {
    word.as_str().parse().unwrap_or(0)
}

/// How many of the lines are commands, over all rounds.
fn count_commands(alloc: Global, rounds: u64) -> u64 {
    let mut commands: u64 = 0;
    for _ in 0..rounds {
        for line in LINES {
            if read_line(alloc, line).is_ok() {
                commands = commands.wrapping_add(1);
            }
        }
    }
    commands
}
