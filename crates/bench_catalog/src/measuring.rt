//! Calls, counted and timed.
use crate::filling::{
    FILE, FOLDER, add_file, filled_catalog, filled_drawer, remove_file, shuffled,
};
use crate::subject::Subject;
use btree_node::TreeShape;
use entry_kit::{Drawer, Stop};
use std::alloc::Global;
use std::io;
use std::time::Instant;

/// Which call is measured.
#[derive(Clone, Copy, PartialEq, Eq)]
pub enum Kind {
    Children,
    Add,
    Names,
}

/// What was measured.
#[derive(Clone, Copy)]
pub struct Figures {
    /// The nodes of the tree, without the header's.
    pub nodes: u32,
    pub levels: u16,
    pub calls: u64,
    /// The nodes that all calls read.
    pub loads: u64,
    pub nanos: u128,
}

/// What calls took: nodes read, and time.
#[derive(Clone, Copy)]
struct Spent {
    loads: u64,
    nanos: u128,
}

impl Spent {
    fn and(&self, other: &Spent) -> Spent {
        Spent {
            loads: self.loads.wrapping_add(other.loads),
            nanos: self.nanos.wrapping_add(other.nanos),
        }
    }
}

/// What stopped the program.
#[derive(Clone, Copy, PartialEq, Eq)]
pub enum Halt {
    Call,
    Clock,
    /// A call gave something else than was wanted.
    Wrong,
}

impl From<Stop> for Halt {
    fn from(_: Stop) -> Halt {
        Halt::Call
    }
}

impl From<io::Error> for Halt {
    fn from(_: io::Error) -> Halt {
        Halt::Clock
    }
}

/// How many files a round adds.
const TEN: u32 = 10;

/// What is measured: a call, on a tree of so many entries, in a tree file or in nodes, in so many rounds.
#[derive(Clone, Copy)]
pub struct Task {
    pub kind: Kind,
    pub is_filed: bool,
    pub many: u32,
    pub rounds: u32,
}

/// Measures a task.
pub fn measure(rt: &HostRuntime, task: &Task) -> Result<Figures, Halt> {
    match task.kind {
        Kind::Children => measure_children(rt, task),
        Kind::Add => measure_adds(rt, task),
        Kind::Names => measure_names(rt, task),
    }
}

fn counted(shape: &TreeShape, calls: u64, spent: &Spent) -> Figures {
    Figures {
        nodes: shape.total.saturating_sub(shape.free).saturating_sub(1),
        levels: shape.depth,
        calls,
        loads: spent.loads,
        nanos: spent.nanos,
    }
}

/// Lists the folder, again and again.
fn list_files(alloc: Global, subject: &mut Subject, many: u32, rounds: u32) -> Result<(), Halt> {
    for _ in 0..rounds {
        let list = subject.children(alloc, FOLDER)?;
        if list.len() != many as usize {
            return Err(Halt::Wrong);
        }
    }
    Ok(())
}

fn time_lists(rt: &HostRuntime, subject: &mut Subject, task: &Task) -> Result<Spent, Halt> {
    let before = subject.count_loads();
    let start = Instant::now(rt)?;
    list_files(rt.alloc(), subject, task.many, task.rounds)?;
    let nanos = start.elapsed(rt)?.as_nanos();
    let loads = subject.count_loads().saturating_sub(before);
    Ok(Spent { loads, nanos })
}

fn children_figures(rt: &HostRuntime, subject: &mut Subject, task: &Task) -> Result<Figures, Halt> {
    let spent = time_lists(rt, subject, task)?;
    let shape = subject.shape();
    Ok(counted(&shape, u64::from(task.rounds), &spent))
}

fn measure_children(rt: &HostRuntime, task: &Task) -> Result<Figures, Halt> {
    let mut subject = filled_catalog(rt.alloc(), task.is_filed, task.many)?;
    children_figures(rt, &mut subject, task)
}

/// Lists the names of the file's attributes, again and again.
fn list_names(alloc: Global, drawer: &mut Drawer, many: u32, rounds: u32) -> Result<(), Halt> {
    for _ in 0..rounds {
        let names = drawer.names(alloc, FILE)?;
        if names.len() != many as usize {
            return Err(Halt::Wrong);
        }
    }
    Ok(())
}

fn time_names(rt: &HostRuntime, drawer: &mut Drawer, task: &Task) -> Result<Spent, Halt> {
    let before = drawer.count_loads();
    let start = Instant::now(rt)?;
    list_names(rt.alloc(), drawer, task.many, task.rounds)?;
    let nanos = start.elapsed(rt)?.as_nanos();
    let loads = drawer.count_loads().saturating_sub(before);
    Ok(Spent { loads, nanos })
}

fn names_figures(rt: &HostRuntime, drawer: &mut Drawer, task: &Task) -> Result<Figures, Halt> {
    let spent = time_names(rt, drawer, task)?;
    let shape = drawer.shape();
    Ok(counted(&shape, u64::from(task.rounds), &spent))
}

fn measure_names(rt: &HostRuntime, task: &Task) -> Result<Figures, Halt> {
    let mut drawer = filled_drawer(rt.alloc(), task.many)?;
    names_figures(rt, &mut drawer, task)
}

/// The odd number of a file that a round adds, beside one that stays.
fn added(many: u32, round: u32, at: u32) -> u32 {
    shuffled(round.wrapping_mul(TEN).wrapping_add(at), many) | 1
}

/// Adds ten files; gives the nodes read.
fn add_ten(alloc: Global, subject: &mut Subject, many: u32, round: u32) -> Result<u64, Stop> {
    let before = subject.count_loads();
    for at in 0..TEN {
        add_file(
            alloc,
            subject,
            added(many, round, at),
            many.wrapping_add(at),
        )?;
    }
    Ok(subject.count_loads().saturating_sub(before))
}

fn remove_ten(alloc: Global, subject: &mut Subject, many: u32, round: u32) -> Result<(), Stop> {
    for at in 0..TEN {
        remove_file(alloc, subject, added(many, round, at))?;
    }
    Ok(())
}

/// Adds ten files, and removes them again: the adds are what is measured.
fn spend_round(
    rt: &HostRuntime,
    subject: &mut Subject,
    many: u32,
    round: u32,
) -> Result<Spent, Halt> {
    let start = Instant::now(rt)?;
    let loads = add_ten(rt.alloc(), subject, many, round)?;
    let nanos = start.elapsed(rt)?.as_nanos();
    remove_ten(rt.alloc(), subject, many, round)?;
    Ok(Spent { loads, nanos })
}

fn spend_rounds(
    rt: &HostRuntime,
    subject: &mut Subject,
    many: u32,
    rounds: u32,
) -> Result<Spent, Halt> {
    let mut all = Spent { loads: 0, nanos: 0 };
    for round in 0..rounds {
        let spent = spend_round(rt, subject, many, round)?;
        all = all.and(&spent);
    }
    Ok(all)
}

fn add_figures(rt: &HostRuntime, subject: &mut Subject, task: &Task) -> Result<Figures, Halt> {
    let shape = subject.shape();
    let spent = spend_rounds(rt, subject, task.many, task.rounds)?;
    Ok(counted(&shape, u64::from(task.rounds) * u64::from(TEN), &spent))
}

fn measure_adds(rt: &HostRuntime, task: &Task) -> Result<Figures, Halt> {
    let mut subject = filled_catalog(rt.alloc(), task.is_filed, task.many)?;
    add_figures(rt, &mut subject, task)
}
