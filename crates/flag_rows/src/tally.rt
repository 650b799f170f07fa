//! The runs of a least length, counted over the tree.
ghost use Rattle.std.specs.Prelude.{◌≡◌, ◌<◌, ◌≤◌, ◌+◌, ◌-◌, ◌*◌, ◌^◌, ◌++◌, true, false, length, replicate};
ghost use Rattle.flag_rows.specs.Sums.{clear_of};
ghost use Rattle.flag_rows.specs.Trees.{part, AreSummed};
ghost use Rattle.flag_rows.specs.Tallies.{ended, tally_from, Tallied};

use crate::bits::Bits;
use crate::sums::Sum;

/// The length of the run that is open, and the blocks and the number of the runs of a least length before it.
#[derive(Clone, Copy, Debug)]
pub struct Tally {
    pub open_run: u32,
    pub blocks: u32,
    pub count: u32,
}

/// Ends the open run.
pub fn end_run(least: u32, s: Tally) -> Tally
    requires some { 1 ≤ least }
    requires room { s.open_run + s.blocks < 2 ^ 32 }
    requires count { s.count ≤ s.blocks }
    ensures { result ≡ ended least s }
{
    if s.open_run < least {
        return Tally {
            open_run: 0,
            blocks: s.blocks,
            count: s.count,
        };
    }
    Tally {
        open_run: 0,
        blocks: s.blocks + s.open_run,
        count: s.count + 1,
    }
}

/// So many free flags, and so many that aren't.
fn step(least: u32, s: Tally, free: u32, used: u32) -> Tally
    requires some { 1 ≤ least }
    requires room { s.open_run + s.blocks + free < 2 ^ 32 }
    requires count { s.count ≤ s.blocks }
    ensures { result ≡ tally_from least s (replicate free true ++ replicate used false) }
{
    let longer = Tally {
        open_run: s.open_run + free,
        blocks: s.blocks,
        count: s.count,
    };
    if used == 0 {
        return longer;
    }
    end_run(least, longer)
}

/// The flags from one place up to another.
fn tally_flags(bits: &Bits, start: usize, end: usize, least: u32, s: Tally) -> Tally
    requires order { start ≤ end }
    requires inside { end ≤ length bits.now }
    requires some { 1 ≤ least }
    requires room { s.open_run + s.blocks + (end - start) < 2 ^ 32 }
    requires count { s.count ≤ s.blocks }
    ensures { result ≡ tally_from least s (part (clear_of bits.now) start (end - start)) }
{
    let _size = bits.len();
    let mut now = s;
    let mut at = start;
    while at < end {
        let taken = bits.first_before(at, end, true);
        let free = bits.first_before(taken, end, false);
        now = step(least, now, (taken - at) as u32, (free - taken) as u32);
        at = free;
    }
    now
}

/// The chunks below a node, or until so many blocks are reached.
pub fn walk(
    bits: &Bits,
    nodes: &[Sum],
    chunks: usize,
    at: usize,
    first: usize,
    height: usize,
    width: usize,
    least: u32,
    stop: u32,
    s: Tally,
) -> Tally
    requires few { chunks ≤ 2 ^ 23 }
    requires tree { AreSummed (clear_of bits.now) chunks nodes.now }
    requires width { width ≡ 2 ^ height }
    requires place { at * 2 ^ height ≡ chunks + first }
    requires inside { first + width ≤ chunks }
    requires some { 1 ≤ least }
    requires room { s.open_run + s.blocks + length (part (clear_of bits.now) (first * 1024) (width * 1024)) < 2 ^ 32 }
    requires count { s.count ≤ s.blocks }
    ensures tallied { Tallied stop (tally_from least s (part (clear_of bits.now) (first * 1024) (width * 1024))) result }
    ensures room { result.open_run + result.blocks ≤ s.open_run + s.blocks + length (part (clear_of bits.now) (first * 1024) (width * 1024)) }
    ensures count { result.count ≤ result.blocks }
    ensures grows { s.blocks ≤ result.blocks }
{
    let size = bits.len();
    if stop <= s.blocks {
        return s;
    }
    let sum = nodes[at];
    if sum.front == sum.size {
        return Tally {
            open_run: s.open_run + sum.size,
            blocks: s.blocks,
            count: s.count,
        };
    }
    if sum.top.count < least && s.open_run + sum.front < least {
        return Tally {
            open_run: sum.back,
            blocks: s.blocks,
            count: s.count,
        };
    }
    if height == 0 {
        let start = (first * 1024).min(size);
        let end = (start + 1024).min(size);
        return tally_flags(bits, start, end, least, s);
    }
    let half = width / 2;
    let left = walk(
        bits,
        nodes,
        chunks,
        2 * at,
        first,
        height - 1,
        half,
        least,
        stop,
        s,
    );
    walk(
        bits,
        nodes,
        chunks,
        2 * at + 1,
        first + half,
        height - 1,
        half,
        least,
        stop,
        left,
    )
}
