//! A fork with the number of blocks before each of its extents, by which a block is found without a walk.
ghost use Rattle.std.specs.Prelude.{◌≡◌, ◌<◌, ◌≤◌, ◌-◌, ◌^◌, ℕ, [], length, take, slice_get, slice_index, IfOk, IfSome};
ghost use Rattle.fork_map.specs.Blocks.{blocks_of, sectors_of};
ghost use Rattle.fork_map.specs.Sums.{AreSums};

use crate::list::ExtentList;
use hx_bytes::{Extent, OutOfMemory};
use std::alloc::Global;
use std::marker::Model;
use std::mem::replace;

/// The blocks of a fork, of which each is found by halves.
#[derive(Drop)]
pub struct SummedFork {
    list: ExtentList,
    /// How many blocks come before each extent.
    sums: Vec<u128>,
}

impl Model for SummedFork {
    ghost use Rattle.std.specs.Prelude.{List};
    ghost use Rattle.hx_bytes.specs.declared.extents.Extent.{Extent};
    ghost use Rattle.fork_map.specs.Sums.{AreSums};

    ghost Value = { List Extent };

    ghost view = { λ f. f.list };

    ghost invariant = { λ f. AreSums f.list f.sums.items };
}

/// Writes how many blocks come before each extent.
fn fill_sums(extents: &[Extent], sums: &mut [u128])
    requires { length sums.old ≡ length extents.now }
    ensures { AreSums extents.now sums.new }
{
    let mut sum: u128 = 0;
    for at in 0..extents.len() {
        sums[at] = sum;
        let extent = extents[at];
        sum += extent.count as u128;
    }
}

/// Keeps the first blocks of a list of extents.
fn keep_blocks(list: &mut Vec<Extent>, blocks: u64)
    ensures blocks { blocks_of list.new.items ≡ take blocks (blocks_of list.old.items) }
    ensures few { length list.new.items ≤ length list.old.items }
{
    let mut left = blocks;
    for i in 0..list.len() {
        if left == 0 {
            list.truncate(i);
            return;
        }
        let count = u64::from(list[i].count).min(left);
        list[i].count = count as u32;
        left -= count;
    }
}

/// How many numbers come up to the last one that is found by halves to be at most `n`: the one behind it is greater.
fn count_at_most(sums: &[u128], n: u64) -> usize
    ensures within { result ≤ length sums.now }
    ensures below { 0 < result → slice_index sums.now (result - 1) ≤ n }
    ensures above { result < length sums.now → n < slice_index sums.now result }
{
    let mut low = 0;
    let mut high = sums.len();
    while low < high {
        let middle = low + (high - low) / 2;
        if sums[middle] <= n as u128 {
            low = middle + 1;
        } else {
            high = middle;
        }
    }
    low
}

impl SummedFork {
    /// A fork without a block.
    pub fn new(alloc: Global) -> SummedFork
        ensures { result ≡ [] }
    {
        SummedFork {
            list: ExtentList::new(alloc),
            sums: Vec::new(alloc),
        }
    }

    /// Takes over a list.
    pub fn from_list(alloc: Global, list: ExtentList) -> Result<SummedFork, OutOfMemory>
        ensures { IfOk result (λ fork. fork ≡ list) }
    {
        let mut sums = Vec::from_elem(alloc, 0, list.len())?;
        fill_sums(list.as_slice(), &mut sums);
        Ok(SummedFork { list, sums })
    }

    /// The same fork once more.
    pub fn copy_of(alloc: Global, list: &ExtentList) -> Result<SummedFork, OutOfMemory>
        ensures { IfOk result (λ fork. fork ≡ list.now) }
    {
        SummedFork::from_list(alloc, list.copy(alloc)?)
    }

    /// The extents.
    pub fn list(&self) -> &ExtentList
        ensures { result.now ≡ self.now }
    {
        &self.list
    }

    /// The extents, as a slice.
    pub fn as_slice(&self) -> &[Extent]
        ensures { result.now ≡ self.now }
    {
        self.list.as_slice()
    }

    /// The block at a place of the fork, whatever its number.
    pub fn block_at(&self, n: u64) -> Option<u64>
        ensures block { result ≡ slice_get (blocks_of self.now) n }
        ensures bound { IfSome result (λ block. block < 2 ^ 33) }
    {
        let extents = self.list.as_slice();
        let count = count_at_most(&self.sums, n);
        if count == 0 {
            return None;
        }
        let extent = extents[count - 1];
        let offset = n as u128 - self.sums[count - 1];
        if offset < extent.count as u128 {
            Some(extent.start as u64 + offset as u64)
        } else {
            None
        }
    }

    /// The sector at a place of the fork, where a block has so many sectors of 512 bytes.
    pub fn sector_at(&self, per_block: u32, n: u64) -> Option<u64>
        requires { per_block ≤ 2 ^ 23 }
        ensures { result ≡ slice_get (sectors_of per_block (blocks_of self.now)) n }
    {
        if per_block == 0 {
            return None;
        }
        match self.block_at(n / per_block as u64) {
            Some(block) => Some(block * per_block as u64 + n % per_block as u64),
            None => None,
        }
    }

    /// Keeps the first blocks.
    pub fn shorten(&mut self, blocks: u64)
        ensures { blocks_of self.new ≡ take blocks (blocks_of self.old) }
    {
        let alloc = *self.sums.allocator();
        let mut list = replace(&mut self.list, ExtentList::new(alloc)).into_list();
        keep_blocks(&mut list, blocks);
        self.sums.truncate(list.len());
        fill_sums(&list, &mut self.sums);
        self.list = ExtentList::from_list(list);
    }
}
