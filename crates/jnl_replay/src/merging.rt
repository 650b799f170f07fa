//! Runs of sectors in the order of their sectors, of which a later one stands before an earlier one.
ghost use Rattle.std.specs.Prelude.{◌≡◌, ◌<◌, ◌≤◌, ◌+◌, ◌^◌, min, max, ℕ, length, slice_index_or, take, drop, IfOk, OnOk, MatchOption};
ghost use Rattle.jnl_replay.specs.Runs.{place_in_run, place_in_runs, place_in_both, IsRun, AreWhole, AreRuns, EndBy, IsNext, HaveNone};

use crate::runs::{Run, push_run};
use hx_bytes::OutOfMemory;
use std::alloc::Global;

// What a run has from a sector on.
fn from_sector(run: &Run, at: u32) -> Run
    requires run { IsRun run.now }
    requires inside { at < run.now.first + run.now.many }
    ensures run { IsRun result }
    ensures first { result.first ≡ max run.now.first at }
    ensures end { result.first + result.many ≡ run.now.first + run.now.many }
    ensures same { (q : ℕ) → at ≤ q → place_in_run result q ≡ place_in_run run.now q }
{
    if at <= run.first {
        return *run;
    }
    let into = at - run.first;
    Run {
        first: at,
        many: run.many - into,
        place: run.place + u64::from(into) * 512,
    }
}

// What a run has before a sector.
fn before_sector(run: &Run, at: u32) -> Run
    requires run { IsRun run.now }
    requires inside { run.now.first < at }
    ensures run { IsRun result }
    ensures first { result.first ≡ run.now.first }
    ensures end { result.first + result.many ≡ min (run.now.first + run.now.many) at }
    ensures same { (q : ℕ) → q < at → place_in_run result q ≡ place_in_run run.now q }
{
    let most = at - run.first;
    Run {
        many: run.many.min(most),
        ..*run
    }
}

// How many runs end by a sector, if so many do.
fn skip(runs: &[Run], from: usize, at: u32) -> usize
    requires runs { AreRuns runs.now }
    requires inside { from ≤ length runs.now }
    requires ended { EndBy runs.now from at }
    ensures within { result ≤ length runs.now }
    ensures ended { EndBy runs.now result at }
    ensures next { result < length runs.now → (none : Run) → at < (slice_index_or runs.now result none).first + (slice_index_or runs.now result none).many }
{
    let mut k = from;
    while k < runs.len() {
        let end = runs[k].end();
        if at < end {
            return k;
        }
        k += 1;
    }
    k
}

// What two lists of runs have next from a sector on, by which so many of each end. Where both have a sector the newer one has the word.
fn next_run(older: &[Run], i: usize, newer: &[Run], j: usize, at: u32) -> Option<Run>
    requires older { AreRuns older.now }
    requires newer { AreRuns newer.now }
    requires ended_older { EndBy older.now i at }
    requires ended_newer { EndBy newer.now j at }
    requires next_older { i < length older.now → (none : Run) → at < (slice_index_or older.now i none).first + (slice_index_or older.now i none).many }
    requires next_newer { j < length newer.now → (none : Run) → at < (slice_index_or newer.now j none).first + (slice_index_or newer.now j none).many }
    ensures { MatchOption result (HaveNone older.now newer.now at) (IsNext older.now newer.now at) }
{
    if i >= older.len() {
        if j >= newer.len() {
            return None;
        }
        return Some(from_sector(&newer[j], at));
    }
    let old = from_sector(&older[i], at);
    if j >= newer.len() {
        return Some(old);
    }
    let new = from_sector(&newer[j], at);
    if new.first <= old.first {
        return Some(new);
    }
    Some(before_sector(&old, new.first))
}

// Two lists of runs as one.
fn merge(alloc: Global, older: &[Run], newer: &[Run]) -> Result<Vec<Run>, OutOfMemory>
    requires older { AreRuns older.now }
    requires newer { AreRuns newer.now }
    ensures runs { IfOk result (λ runs. AreRuns runs.items) }
    ensures same { IfOk result (λ runs. (q : ℕ) → place_in_runs runs.items q ≡ place_in_both older.now newer.now q) }
{
    let mut out = Vec::with_capacity(alloc, older.len() + newer.len())?;
    let mut i = 0;
    let mut j = 0;
    let mut at = 0;
    'runs: loop {
        i = skip(older, i, at);
        j = skip(newer, j, at);
        let Some(run) = next_run(older, i, newer, j, at) else {
            return Ok(out);
        };
        push_run(&mut out, run)?;
        at = run.end();
    }
}

// Takes the runs from an index on away, and gives them.
fn take_back(alloc: Global, runs: &mut Vec<Run>, index: usize) -> Result<Vec<Run>, OutOfMemory>
    requires { index ≤ length runs.old.items }
    ensures front { OnOk result (runs.new.items ≡ take index runs.old.items) }
    ensures back { IfOk result (λ back. back.items ≡ drop index runs.old.items) }
{
    let back = Vec::from_slice(alloc, &runs[index..])?;
    runs.truncate(index);
    Ok(back)
}

/// Puts runs into the order of their sectors. A later one stands before an earlier one, which keeps what lies on its sides.
pub(crate) fn sort_runs(alloc: Global, mut runs: Vec<Run>) -> Result<Vec<Run>, OutOfMemory>
    requires { AreWhole runs.items }
    ensures runs { IfOk result (λ sorted. AreRuns sorted.items) }
    ensures same { IfOk result (λ sorted. (q : ℕ) → place_in_runs sorted.items q ≡ place_in_runs runs.items q) }
{
    let count = runs.len();
    if count < 2 {
        return Ok(runs);
    }
    let back = take_back(alloc, &mut runs, count / 2)?;
    let older = sort_runs(alloc, runs)?;
    let newer = sort_runs(alloc, back)?;
    let sorted = merge(alloc, &older, &newer)?;
    Ok(sorted)
}
