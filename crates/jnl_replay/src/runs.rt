//! Runs of sectors whose bytes stand one behind another in a journal's text.
ghost use Rattle.std.specs.Prelude.{◌≡◌, ◌<◌, ◌≤◌, ◌+◌, ◌*◌, ◌^◌, ◌==◌, ◌++◌, ◌∷◌, [], ℕ, Some, length, slice_index_or, take, ◌-◌, OnOk, IsTrue, if◌then◌else◌};
ghost use Rattle.jnl_replay.specs.Runs.{place_in_run, place_in_runs, IsRun, AreWhole, AreRuns};

use hx_bytes::OutOfMemory;
use jnl_format::Home;

/// So many sectors from a first one on, with the place of the first one's bytes in the text.
#[derive(Clone, Copy, Debug, PartialEq, Eq)]
pub struct Run {
    pub first: u32,
    pub many: u32,
    pub place: u64,
}

impl Run {
    /// The sector behind the last one.
    pub(crate) fn end(&self) -> u32
        requires { IsRun self.now }
        ensures { result ≡ self.now.first + self.now.many }
    {
        self.first + self.many
    }

    /// The place of a sector's bytes, where it is one of the run's.
    fn place_of(&self, at: u64) -> Option<u64>
        requires { IsRun self.now }
        ensures { result ≡ place_in_run self.now at }
    {
        let first = u64::from(self.first);
        if at < first {
            return None;
        }
        let into = at - first;
        if into >= u64::from(self.many) {
            return None;
        }
        Some(self.place + into * 512)
    }

    // Whether this home follows the run's last one, in both.
    fn goes_on(&self, home: &Home) -> bool
        requires { IsRun self.now }
        ensures sector { IsTrue result → home.now.sector ≡ self.now.first + self.now.many }
        ensures place { IsTrue result → home.now.place ≡ self.now.place + self.now.many * 512 }
    {
        if home.sector != u64::from(self.end()) {
            return false;
        }
        home.place == self.place + u64::from(self.many) * 512
    }
}

// Adds a run behind the others.
pub(crate) fn push_run(runs: &mut Vec<Run>, run: Run) -> Result<(), OutOfMemory>
    ensures { OnOk result (runs.new.items ≡ runs.old.items ++ run ∷ []) }
{
    runs.push(run)?;
    Ok(())
}

// Puts a run in the place of the last one.
fn put_last(runs: &mut Vec<Run>, run: Run)
    requires { 0 < length runs.old.items }
    ensures { runs.new.items ≡ take (length runs.old.items - 1) runs.old.items ++ run ∷ [] }
{
    let last = runs.len() - 1;
    runs[last] = run;
}

/// Adds a home behind the runs that there are: to the last of them, where it goes on there. It stands in place of an earlier one of its sector.
pub(crate) fn add_home(runs: &mut Vec<Run>, home: &Home) -> Result<(), OutOfMemory>
    requires sector { home.now.sector + 1 < 2 ^ 32 }
    requires place { home.now.place + 512 < 2 ^ 64 }
    requires whole { AreWhole runs.old.items }
    ensures puts { OnOk result ((q : ℕ) → place_in_runs runs.new.items q ≡ (if home.now.sector == q then Some home.now.place else place_in_runs runs.old.items q)) }
    ensures whole { OnOk result (AreWhole runs.new.items) }
{
    let count = runs.len();
    if 0 < count {
        let last = runs[count - 1];
        if last.goes_on(home) {
            put_last(
                runs,
                Run {
                    many: last.many + 1,
                    ..last
                },
            );
            return Ok(());
        }
    }
    push_run(
        runs,
        Run {
            first: home.sector as u32,
            many: 1,
            place: home.place,
        },
    )?;
    Ok(())
}

// How many runs begin at a sector or before it, where none overlaps another.
fn count_up_to(runs: &[Run], at: u64) -> usize
    ensures within { result ≤ length runs.now }
    ensures below { 0 < result → (none : Run) → (slice_index_or runs.now (result - 1) none).first ≤ at }
    ensures above { result < length runs.now → (none : Run) → at < (slice_index_or runs.now result none).first }
{
    let mut low = 0;
    let mut high = runs.len();
    while low < high {
        let middle = low + (high - low) / 2;
        if u64::from(runs[middle].first) <= at {
            low = middle + 1;
        } else {
            high = middle;
        }
    }
    low
}

/// The place of a sector's bytes, where it is in one of these runs.
pub(crate) fn find_place(runs: &[Run], at: u64) -> Option<u64>
    requires { AreRuns runs.now }
    ensures { result ≡ place_in_runs runs.now at }
{
    let count = count_up_to(runs, at);
    if count == 0 {
        return None;
    }
    runs[count - 1].place_of(at)
}
