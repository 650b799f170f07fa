//! A row of flags with the sums of its chunks.
ghost use Rattle.std.specs.Prelude.{◌≡◌, ◌<◌, ◌≤◌, ◌+◌, ◌-◌, ◌*◌, ◌^◌, ℕ, true, false, not, length, slice_get, slice_index_or, IfOk, OnErr, OnOk};
ghost use Rattle.flag_rows.specs.Bits.{count_set, mark};
ghost use Rattle.flag_rows.specs.Runs.{runs_of, longest_first, longest_of, fewest_of};
ghost use Rattle.flag_rows.specs.Sums.{sum_of, clear_of, top_from};
ghost use Rattle.flag_rows.specs.Marks.{Fit, mark_all};
ghost use Rattle.flag_rows.specs.Tallies.{blocks_in, count_in};
ghost use Rattle.fork_map.specs.Cut.{front};

use crate::bits::Bits;
use crate::sums::Sum;
use crate::tally::{Tally, end_run, walk};
use crate::tree::{no_sums, renew};
use fork_map::ExtentList;
use hx_bytes::{Extent, OutOfMemory};
use std::alloc::Global;
use std::marker::Model;

/// Flags, of which the runs of clear ones are found in logarithmic time.
#[derive(Drop)]
pub struct Row {
    bits: Bits,
    nodes: Vec<Sum>,
    chunks: usize,
    height: usize,
}

impl Model for Row {
    ghost use Rattle.std.specs.Prelude.{List, Bool};
    ghost use Rattle.flag_rows.specs.Sums.{clear_of};
    ghost use Rattle.flag_rows.specs.Trees.{IsTree};

    ghost Value = { List Bool };

    ghost view = { λ r. r.bits };

    ghost invariant = { λ r. IsTree (clear_of r.bits) r.chunks r.height r.nodes.items };
}

impl Row {
    /// Sums flags for the first time.
    pub fn of_bits(alloc: Global, bits: Bits) -> Result<Row, OutOfMemory>
        ensures { IfOk result (λ row. row ≡ bits) }
    {
        let size = bits.len();
        let mut chunks: usize = 1;
        let mut height: usize = 0;
        while chunks * 1024 < size {
            chunks *= 2;
            height += 1;
        }
        let mut nodes = no_sums(alloc, 2 * chunks)?;
        renew(&bits, &mut nodes, chunks, 0, chunks - 1);
        Ok(Row {
            bits,
            nodes,
            chunks,
            height,
        })
    }

    /// The same row once more.
    pub fn copy(&self, alloc: Global) -> Result<Row, OutOfMemory>
        ensures { IfOk result (λ row. row ≡ self.now) }
    {
        let bits = self.bits.copy(alloc)?;
        let nodes = Vec::from_slice(alloc, self.nodes.as_slice())?;
        Ok(Row {
            bits,
            nodes,
            chunks: self.chunks,
            height: self.height,
        })
    }

    pub fn bits(&self) -> &Bits
        ensures { result.now ≡ self.now }
    {
        &self.bits
    }

    /// The sum of all flags.
    fn top(&self) -> Sum
        ensures { result ≡ sum_of (clear_of self.now) }
    {
        let _size = self.bits.len();
        self.nodes[1]
    }

    /// How many flags are clear.
    pub fn count_clear(&self) -> u32
        ensures { result ≡ count_set (clear_of self.now) }
    {
        self.top().free
    }

    /// The length of the longest run of clear flags.
    #[tactic(auto, using(crate::proofs::TopLaws::longest_top))]
    pub fn longest(&self) -> u32
        ensures { result ≡ longest_of (runs_of (clear_of self.now)) }
    {
        self.top().top.count
    }

    /// The longest run of clear flags, and of several the first.
    pub fn first_longest(&self) -> Option<Extent>
        ensures { result ≡ slice_get (longest_first (runs_of (clear_of self.now))) 0 }
    {
        let run = self.top().top;
        if run.count == 0 {
            return None;
        }
        Some(run)
    }

    /// Gives the flags of an extent a value.
    pub fn set(&mut self, extent: Extent, value: bool)
        requires { extent.start + extent.count ≤ length self.old }
        ensures { self.new ≡ mark self.old extent value }
    {
        if extent.count == 0 {
            return;
        }
        let _size = self.bits.len();
        let start = extent.start as usize;
        let last = start + extent.count as usize - 1;
        self.bits.fill(extent, value);
        renew(
            &self.bits,
            &mut self.nodes,
            self.chunks,
            start / 1024,
            last / 1024,
        );
    }
}

impl Row {
    /// Gives the flags of several extents a value.
    pub fn set_all(&mut self, list: &[Extent], value: bool)
        requires { Fit (length self.old) list.now }
        ensures { self.new ≡ mark_all self.old list.now value }
    {
        for extent in list {
            self.set(*extent, value);
        }
    }

    /// Sets so many clear flags, or all: the first of the runs, longest first, and of those of one length the first.
    pub fn take(&mut self, alloc: Global, n: u32) -> Result<ExtentList, OutOfMemory>
        ensures rule { IfOk result (λ list. list ≡ front n (longest_first (runs_of (clear_of self.old)))) }
        ensures taken { IfOk result (λ list. self.new ≡ mark_all self.old list true) }
        // They were clear: the same flags cleared again give the row from before.
        ensures back { IfOk result (λ list. mark_all self.new list false ≡ self.old) }
        ensures same { OnErr result (self.new ≡ self.old) }
    {
        let mut list = ExtentList::new(alloc);
        let mut left = n;
        while left > 0 {
            match self.first_longest() {
                Some(run) => {
                    let count = run.count.min(left);
                    let extent = Extent {
                        start: run.start,
                        count,
                    };
                    match list.push(extent) {
                        Ok(()) => {}
                        Err(fault) => {
                            self.set_all(list.as_slice(), false);
                            return Err(fault);
                        }
                    }
                    self.set(extent, true);
                    left -= count;
                }
                None => return Ok(list),
            }
        }
        Ok(list)
    }
}

impl Row {
    /// The runs of a least length, or of some of them, once they have so many flags together.
    fn tally(&self, least: u32, stop: u32) -> Tally
        requires { 1 ≤ least }
        ensures reached { stop ≤ result.blocks → stop ≤ blocks_in least (runs_of (clear_of self.now)) }
        ensures blocks { result.blocks < stop → result.blocks ≡ blocks_in least (runs_of (clear_of self.now)) }
        ensures count { result.blocks < stop → result.count ≡ count_in least (runs_of (clear_of self.now)) }
        ensures few { result.count ≤ result.blocks }
    {
        let _size = self.bits.len();
        let none = Tally {
            open_run: 0,
            blocks: 0,
            count: 0,
        };
        let all = walk(
            &self.bits,
            self.nodes.as_slice(),
            self.chunks,
            1,
            0,
            self.height,
            self.chunks,
            least,
            stop,
            none,
        );
        end_run(least, all)
    }

    /// The greatest length whose runs have `n` flags together.
    fn least_length(&self, n: u32, best: u32) -> u32
        requires some { 1 ≤ best }
        requires all { n ≤ blocks_in 1 (runs_of (clear_of self.now)) }
        requires none { blocks_in (best + 1) (runs_of (clear_of self.now)) < n }
        ensures some { 1 ≤ result }
        ensures bound { result ≤ best }
        ensures enough { n ≤ blocks_in result (runs_of (clear_of self.now)) }
        ensures more { blocks_in (result + 1) (runs_of (clear_of self.now)) < n }
    {
        let mut low = 1;
        let mut high = best;
        while low < high {
            let middle = high - (high - low) / 2;
            if self.tally(middle, n).blocks < n {
                high = middle - 1;
            } else {
                low = middle;
            }
        }
        low
    }

    /// How many runs, longest first, have `n` flags together, or how many there are.
    pub fn fewest(&self, n: u32) -> u32
        ensures { result ≡ fewest_of n (longest_first (runs_of (clear_of self.now))) }
    {
        if n == 0 {
            return 0;
        }
        let best = self.longest();
        if n <= best {
            return 1;
        }
        let all = self.tally(1, n);
        if all.blocks < n {
            return all.count;
        }
        let length = self.least_length(n, best);
        if length == best {
            return (n - 1) / length + 1;
        }
        let over = self.tally(length + 1, n);
        over.count + ((n - over.blocks - 1) / length + 1)
    }
}
