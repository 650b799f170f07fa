//! The runs of a journal's text, put in order list by list.
ghost use Rattle.std.specs.Prelude.{◌≡◌, ◌<◌, ◌+◌, ◌^◌, ◌++◌, ◌==◌, [], ℕ, Some, OnOk, if◌then◌else◌};
ghost use Rattle.jnl_replay.specs.Runs.{place_in_runs, place_in_both, all_runs, AreWhole, AreRuns};

use crate::merging::sort_runs;
use crate::runs::{Run, add_home, find_place};
use hx_bytes::OutOfMemory;
use jnl_format::Home;
use std::alloc::Global;
use std::marker::Model;
use std::mem::replace;

// So many runs are put in order together, since that takes their memory once more.
const MOST: usize = 524288;

/// Runs in the order of their sectors, none of which two have.
#[derive(Drop)]
struct SortedRuns {
    runs: Vec<Run>,
}

impl Model for SortedRuns {
    ghost use Rattle.std.specs.Prelude.{List};
    ghost use Rattle.jnl_replay.specs.declared.runs.Run.{Run};
    ghost use Rattle.jnl_replay.specs.Runs.{AreRuns};

    ghost Value = { List Run };

    ghost view = { λ s. s.runs.items };

    ghost invariant = { λ s. AreRuns s.runs.items };
}

impl SortedRuns {
    // The place of a sector's bytes, where it is in one of the runs.
    fn find(&self, at: u64) -> Option<u64>
        ensures { result ≡ place_in_runs self.now at }
    {
        find_place(&self.runs, at)
    }
}

// The place of a sector's bytes in the last of these lists that has it.
fn find_in(lists: &[SortedRuns], at: u64) -> Option<u64>
    ensures { result ≡ place_in_runs (all_runs lists.now) at }
{
    let mut left = lists.len();
    while left > 0 {
        left -= 1;
        if let Some(place) = lists[left].find(at) {
            return Some(place);
        }
    }
    None
}

/// Runs, of which a later one stands before an earlier one. Each takes 16 bytes.
#[derive(Drop)]
pub struct RunIndex {
    lists: Vec<SortedRuns>,
}

impl Model for RunIndex {
    ghost use Rattle.std.specs.Prelude.{List};
    ghost use Rattle.jnl_replay.specs.declared.runs.Run.{Run};
    ghost use Rattle.jnl_replay.specs.Runs.{all_runs};

    ghost Value = { List Run };

    ghost view = { λ i. all_runs i.lists.items };
}

impl RunIndex {
    /// No run.
    #[tactic(auto, unfolding(crate::specs::Runs::all_runs))]
    pub(crate) fn new(alloc: Global) -> RunIndex
        ensures { result ≡ [] }
    {
        RunIndex {
            lists: Vec::new(alloc),
        }
    }

    /// The place of a sector's bytes, where it is in one of the runs.
    pub(crate) fn find(&self, at: u64) -> Option<u64>
        ensures { result ≡ place_in_runs self.now at }
    {
        find_in(&self.lists, at)
    }

    // Adds a list behind the others.
    fn push(&mut self, runs: Vec<Run>) -> Result<(), OutOfMemory>
        requires { AreRuns runs.items }
        ensures { OnOk result (self.new ≡ self.old ++ runs.items) }
    {
        self.lists.push(SortedRuns { runs })?;
        Ok(())
    }

    /// Puts runs in order, and adds them behind those that there are.
    pub(crate) fn put_runs(&mut self, alloc: Global, runs: Vec<Run>) -> Result<(), OutOfMemory>
        requires { AreWhole runs.items }
        ensures { OnOk result ((q : ℕ) → place_in_runs self.new q ≡ place_in_both self.old runs.items q) }
    {
        let sorted = sort_runs(alloc, runs)?;
        self.push(sorted)?;
        Ok(())
    }

    /// Adds a home behind those that there are, to runs that aren't put in order yet. It stands in place of an earlier one of its sector.
    pub(crate) fn add(
        &mut self,
        alloc: Global,
        runs: &mut Vec<Run>,
        home: &Home,
    ) -> Result<(), OutOfMemory>
        requires sector { home.now.sector + 1 < 2 ^ 32 }
        requires place { home.now.place + 512 < 2 ^ 64 }
        requires whole { AreWhole runs.old.items }
        ensures puts { OnOk result ((q : ℕ) → place_in_both self.new runs.new.items q ≡ (if home.now.sector == q then Some home.now.place else place_in_both self.old runs.old.items q)) }
        ensures whole { OnOk result (AreWhole runs.new.items) }
    {
        if runs.len() < MOST {
            add_home(runs, home)?;
            return Ok(());
        }
        let full = replace(runs, Vec::new(alloc));
        self.put_runs(alloc, full)?;
        add_home(runs, home)?;
        Ok(())
    }
}
