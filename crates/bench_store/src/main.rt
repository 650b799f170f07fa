//! Makes transactions on a new volume in a file: `bench_store FILE RING PUTS COMMITS KIND`. The volume's journal has RING
//! sectors, and each of COMMITS transactions puts PUTS sectors: the same ones each time where KIND is `again`, the next ones
//! where it is `rising`, and others all over the volume where it is `scattered`. It prints how many transactions were
//! committed, how many sectors were put in all, and how many of them read back as they were put last. A script times it.
#![tactic(auto)]

ghost use Rattle.std.specs.Prelude.{◌≤◌};

mod mounted;
mod task;
mod volume;

use file_rig::{FileRig, Image, Place, Store};
use hx_bytes::OutOfMemory;
use mounted::Mounted;
use std::env;
use std::io::Write;
use task::{Kind, MOST_RING, Task};
use volume::{SECTORS, make_volume};

/// The slots of the sector cache, as many as the program has.
const SLOTS: u32 = 1024;

/// What a run did.
#[derive(Clone, Copy)]
struct Counts {
    committed: u64,
    sectors: u64,
    found: u64,
}

fn main(rt: HostRuntime) -> anyhow::Result<()> {
    let words: Vec<String> = env::args(&rt)?.skip(1).collect(rt.alloc())?;
    match words.as_slice() {
        [name, ring, puts, commits, kind] => {
            let task = Task {
                ring: number(ring).clamp(1024, MOST_RING),
                puts: number(puts),
                commits: number(commits),
                kind: Kind::of(kind.as_str()),
            };
            match run(&rt, name.as_str(), &task) {
                Ok(Some(counts)) => tell(rt, &counts)?,
                Ok(None) => println!(rt; "no volume")?,
                Err(_) => println!(rt; "no memory")?,
            }
        }
        _ => println!(rt; "usage: bench_store FILE RING PUTS COMMITS again|rising|scattered")?,
    }
    Ok(())
}

fn number(word: &String) -> u64 {
    word.as_str().parse().unwrap_or(0)
}

fn tell(rt: HostRuntime, counts: &Counts) -> anyhow::Result<()> {
    let Counts {
        committed,
        sectors,
        found,
    } = *counts;
    println!(rt; "{committed} transactions, {sectors} sectors, {found} read back")?;
    Ok(())
}

// Makes the volume, and the transactions on it.
fn run(rt: &HostRuntime, name: &str, task: &Task) -> Result<Option<Counts>, OutOfMemory>
    requires most { task.now.ring ≤ 200000 }
{
    let (image, sectors) = match Image::to_format(rt, name, SECTORS) {
        Ok(found) => found,
        Err(_) => return Ok(None),
    };
    let store = Store::new(rt.alloc(), image, sectors)?;
    let mut disk = FileRig::new(store, rt.stdout());
    make_volume(&mut disk, task.ring);
    let Some(mut mounted) = Mounted::mount(rt.alloc(), &mut disk, SLOTS)? else {
        return Ok(None);
    };
    let mut counts = Counts {
        committed: 0,
        sectors: 0,
        found: 0,
    };
    for number in 0..task.commits {
        if transact(rt, &mut mounted, &mut disk, task, number)? {
            counts.committed = counts.committed.saturating_add(1);
        }
    }
    counts.sectors = task.sectors();
    for k in 0..task.sectors() {
        if mounted.byte(&mut disk, task.place(k)) == task.last_byte(k) {
            counts.found = counts.found.saturating_add(1);
        }
    }
    Ok(Some(counts))
}

// Makes one transaction, and says whether it was committed.
fn transact<P: Place + Drop, K: Write + Drop>(
    rt: &HostRuntime,
    mounted: &mut Mounted,
    disk: &mut FileRig<P, K>,
    task: &Task,
    number: u64,
) -> Result<bool, OutOfMemory> {
    mounted.begin(rt.alloc(), task.puts)?;
    let first = task.first(number);
    for k in 0..task.puts {
        mounted.put(disk, task.place(first.wrapping_add(k)), Task::byte(number));
    }
    mounted.keep();
    Ok(mounted.commit(disk))
}
