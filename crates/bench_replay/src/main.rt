//! Validates and replays a full journal over a disk in memory: `bench_replay SECTORS WORK`, where the journal has
//! so many sectors, and the work is `make`, `validate`, `replay` or `compare`, each with those before it. It prints
//! how many sectors and blocks the journal's text has, how many device calls each stage made, and how many blocks
//! were found at home. A script times it.
#![tactic(auto)]

ghost use Rattle.std.specs.Prelude.{◌≤◌};

mod journal;

use hx_bytes::OutOfMemory;
use jnl_replay::replay;
use journal::{Journal, home_of, put_journal};
use mem_disk::MemRig;
use sector_disk::SectorDisk;
use std::alloc::Global;
use std::env;
use test_kit::find_plan;

/// How far a run goes.
#[derive(Clone, Copy, PartialEq, Eq)]
enum Work {
    Make,
    Validate,
    Replay,
    Compare,
}

/// Device calls of each stage, and the blocks found at home.
#[derive(Clone, Copy)]
struct Counts {
    journal: Journal,
    make: u64,
    validate: u64,
    replay: u64,
    home: u64,
}

fn main(rt: HostRuntime) -> anyhow::Result<()> {
    let words: Vec<String> = env::args(&rt)?.skip(1).collect(rt.alloc())?;
    let (sectors, work) = match words.as_slice() {
        [sectors, work] => (number(sectors), work_of(work)),
        _ => (0, None),
    };
    match work {
        Some(work) if 1024 <= sectors && sectors <= 1_048_576 => {
            match run(rt.alloc(), sectors, work) {
                Ok(counts) => tell(rt, &counts)?,
                Err(_) => println!(rt; "no memory")?,
            }
        }
        _ => println!(rt; "usage: bench_replay SECTORS make|validate|replay|compare")?,
    }
    Ok(())
}

fn number(word: &String) -> u64 {
    word.as_str().parse().unwrap_or(0)
}

fn work_of(word: &String) -> Option<Work> {
    match word.as_str() {
        "make" => Some(Work::Make),
        "validate" => Some(Work::Validate),
        "replay" => Some(Work::Replay),
        "compare" => Some(Work::Compare),
        _ => None,
    }
}

fn tell(rt: HostRuntime, counts: &Counts) -> anyhow::Result<()> {
    let text = counts.journal.text;
    let blocks = counts.journal.blocks;
    println!(rt; "text of {text} sectors with {blocks} blocks")?;
    println!(rt;
        "calls: make {}, validate {}, replay {}",
        counts.make, counts.validate, counts.replay
    )?;
    println!(rt; "blocks found at home: {}", counts.home)?;
    Ok(())
}

/// Runs the stages over a new disk.
fn run(alloc: Global, sectors: u64, work: Work) -> Result<Counts, OutOfMemory>
    requires least { 1024 ≤ sectors }
    requires most { sectors ≤ 1048576 }
{
    let mut rig = MemRig::new(alloc, 24 + 2 * sectors)?;
    let journal = put_journal(&mut rig, sectors);
    let mut counts = Counts {
        journal,
        make: rig.calls(),
        validate: 0,
        replay: 0,
        home: 0,
    };
    if work != Work::Make {
        check(&mut rig, work, &mut counts);
    }
    if work == Work::Compare {
        counts.home = blocks_at_home(&mut rig, sectors, journal.blocks);
    }
    Ok(counts)
}

/// Validates the journal, and replays it where the work goes so far.
fn check(rig: &mut MemRig, work: Work, counts: &mut Counts) {
    let made = rig.calls();
    if let Ok(plan) = find_plan(rig) {
        let validated = rig.calls();
        counts.validate = validated.saturating_sub(made);
        if work != Work::Validate {
            let _done = replay(rig, &plan);
            counts.replay = rig.calls().saturating_sub(validated);
        }
    }
}

/// How many of the blocks stand in their sectors.
fn blocks_at_home(rig: &mut MemRig, sectors: u64, blocks: u64) -> u64
    requires { sectors ≤ 1048576 }
{
    let mut home: u64 = 0;
    for block in 0..blocks {
        let (at, want) = home_of(sectors, block);
        let mut sector = [0; 512];
        if at < rig.sectors() && rig.read(at, &mut sector).is_ok() && sector == want {
            home = home.saturating_add(1);
        }
    }
    home
}
