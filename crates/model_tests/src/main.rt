//! The plain tree as lines see it. Without words: reads lines, and prints what a fresh tree answers; a line that begins with `#` is printed
//! as it is, and the tree is a fresh one again. With a seed and a count: that many random lines, each answered by the plain tree and by a
//! second, simple table, whose answers must be the same.
#![tactic(auto)]

mod random;
mod script;
#[cfg(test)]
mod streams;
mod table;
#[cfg(test)]
mod tests;
mod wish;

use anyhow::Context;
use random::{Outcome, compare};
use script::play;
use std::alloc::Global;
use std::env;
use std::io::{Read, Write};

fn main(rt: HostRuntime) -> anyhow::Result<()> {
    let mut words = env::args(&rt)?;
    words.next();
    match (words.next(), words.next()) {
        (Some(seed), Some(count)) => {
            let seed = seed.as_str().parse::<u64>().ok().context("no number")?;
            let count = count.as_str().parse::<u32>().ok().context("no number")?;
            match compare(rt.alloc(), seed, count).ok().context("no memory")? {
                Outcome::Same => println!(rt; "{count} lines have the same answers")?,
                Outcome::Differs(difference) => println!(rt; "{difference}")?,
            }
        }
        _ => {
            let mut input = Vec::new(rt.alloc());
            rt.stdin().read_to_end(&mut input)?;
            let output = play(rt.alloc(), &input).ok().context("no memory")?;
            rt.stdout().write_all(&output)?;
        }
    }
    Ok(())
}
