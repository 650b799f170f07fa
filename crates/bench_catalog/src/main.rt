//! Calls of the catalog and of attributes over trees in memory: `bench_catalog KIND WHERE MANY ROUNDS TOLD`. Where KIND is `children`,
//! each round lists a folder of MANY files; where it is `add`, it adds ten files to a folder of MANY and removes them again; where it is
//! `names`, it lists the names of a file's MANY attributes. Where WHERE is `file`, the catalog is a tree file over sectors, and else
//! nodes. It prints how many nodes the tree has and how many the calls read in all; a round of `add` has ten calls. Where TOLD is
//! `timed`, it prints also how long a call took.
#![tactic(auto)]

mod calls;
mod filed;
mod filling;
mod made;
mod measuring;
mod subject;

use measuring::{Figures, Kind, Task, measure};
use std::env;

fn main(rt: HostRuntime) -> anyhow::Result<()> {
    let words: Vec<String> = env::args(&rt)?.skip(1).collect(rt.alloc())?;
    match words.as_slice() {
        [kind, place, many, rounds, told] => {
            let task = task_of(kind.as_str(), place.as_str(), number(many), number(rounds));
            run(&rt, kind.as_str(), &task, told.as_str() == "timed")?;
        }
        _ => println!(rt;
            "usage: bench_catalog children|add|names nodes|file MANY ROUNDS counted|timed"
        )?,
    }
    Ok(())
}

fn task_of(kind: &str, place: &str, many: u32, rounds: u32) -> Task {
    Task {
        kind: kind_of(kind),
        is_filed: place == "file",
        many,
        rounds,
    }
}

fn number(word: &String) -> u32 {
    word.as_str().parse().unwrap_or(0)
}

fn kind_of(word: &str) -> Kind {
    if word == "add" {
        Kind::Add
    } else if word == "names" {
        Kind::Names
    } else {
        Kind::Children
    }
}

fn run(rt: &HostRuntime, kind: &str, task: &Task, is_timed: bool) -> anyhow::Result<()> {
    match measure(rt, task) {
        Ok(figures) => tell(rt, kind, task.many, &figures, is_timed)?,
        Err(_) => println!(rt; "stopped")?,
    }
    Ok(())
}

fn tell(
    rt: &HostRuntime,
    kind: &str,
    many: u32,
    figures: &Figures,
    is_timed: bool,
) -> anyhow::Result<()> {
    let Figures {
        nodes,
        levels,
        calls,
        loads,
        nanos,
    } = *figures;
    println!(rt;
        "{kind} {many}: a tree of {nodes} nodes in {levels} levels, {calls} calls read {loads} nodes"
    )?;
    if is_timed {
        let each = nanos / u128::from(calls.max(1));
        println!(rt; "{each} ns a call")?;
    }
    Ok(())
}
