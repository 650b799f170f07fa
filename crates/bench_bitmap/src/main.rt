//! Takes and gives eight blocks again and again, or asks for the fewest runs: `bench_bitmap BLOCKS KIND HOLDS FEWEST ROUNDS`.
//! KIND is `empty`, `holes` (each second block is used) or `random`. So many single blocks are held before. Where FEWEST is
//! 0, a round takes eight blocks and gives them back; else it asks in how few runs so many blocks stand. It prints a sum of
//! what was answered, and a script times it.
#![tactic(auto)]

mod pattern;

use alloc_bitmap::Bitmap;
use fork_map::ExtentList;
use hx_bytes::{Extent, Trouble};
use pattern::{Kind, Pattern};
use std::alloc::Global;
use std::env;

#[derive(Drop)]
struct Task {
    total: u32,
    kind: Kind,
    holds: u32,
    fewest: u32,
    rounds: u32,
}

fn main(rt: HostRuntime) -> anyhow::Result<()> {
    let words: Vec<String> = env::args(&rt)?.skip(1).collect(rt.alloc())?;
    match words.as_slice() {
        [blocks, kind, holds, fewest, rounds] => {
            let task = Task {
                total: number(blocks),
                kind: kind_of(kind.as_str()),
                holds: number(holds),
                fewest: number(fewest),
                rounds: number(rounds),
            };
            match run(rt.alloc(), &task) {
                Ok(sum) => println!(rt; "{blocks} blocks, {kind}: {sum}")?,
                Err(_) => println!(rt; "no memory")?,
            }
        }
        _ => println!(rt; "usage: bench_bitmap BLOCKS empty|holes|random HOLDS FEWEST ROUNDS")?,
    }
    Ok(())
}

fn number(word: &String) -> u32 {
    word.as_str().parse().unwrap_or(0)
}

fn kind_of(word: &str) -> Kind {
    if word == "holes" {
        Kind::Holes
    } else if word == "random" {
        Kind::Random
    } else {
        Kind::Empty
    }
}

fn run(alloc: Global, task: &Task) -> Result<u64, Trouble> {
    let mut fork = ExtentList::new(alloc);
    fork.push(Extent {
        start: 0,
        count: task.total / 4096 + 1,
    })?;
    let mut view = Pattern { kind: task.kind };
    let mut map = Bitmap::load(alloc, &mut view, &fork, task.total, 512)?;
    hold_some(alloc, &mut map, task.holds)?;
    let mut sum: u64 = 0;
    for _ in 0..task.rounds {
        let answer = if task.fewest == 0 {
            round(alloc, &mut map)?
        } else {
            map.fewest(task.fewest) as u64
        };
        sum = sum.wrapping_add(answer);
    }
    Ok(sum)
}

/// Holds so many blocks, one in each 512 that isn't used.
fn hold_some(alloc: Global, map: &mut Bitmap, holds: u32) -> Result<(), Trouble> {
    for n in 0..holds {
        let e = Extent {
            start: n.wrapping_mul(512) | 1,
            count: 1,
        };
        if map.have(e, false) {
            map.hold(alloc, e)?;
        }
    }
    map.keep();
    Ok(())
}

/// Takes eight blocks and gives them back, as a command does.
fn round(alloc: Global, map: &mut Bitmap) -> Result<u64, Trouble> {
    if map.count_free() < 8 {
        return Ok(0);
    }
    let list = map.take(alloc, 8)?;
    let mut sum: u64 = 0;
    for extent in list.as_slice() {
        sum = sum.wrapping_add(extent.start as u64 * extent.count as u64);
        if map.have(*extent, true) {
            map.give(alloc, *extent)?;
        }
    }
    map.keep();
    Ok(sum)
}
