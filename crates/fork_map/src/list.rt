// A list of extents.
ghost use Rattle.std.specs.Prelude.{◌≡◌, ◌<◌, ◌≤◌, ◌==◌, ◌++◌, [], ◌∷◌, length, slice_index_or, slice_get, min, ◌^◌, ◌-◌, OnOk, OnErr, IfOk, IfSome};
ghost use Rattle.std.specs.Option.{option_map};
ghost use Rattle.fork_map.specs.Blocks.{blocks_of, sectors_of};

use crate::place::find_place;
use hx_bytes::{Extent, OutOfMemory};
use std::alloc::Global;
use std::marker::Model;

/// The extents of a fork, in order (TN1150, "Fork Data Structure").
#[derive(Drop)]
pub struct ExtentList {
    list: Vec<Extent>,
}

impl Model for ExtentList {
    ghost use Rattle.std.specs.Prelude.{List};
    ghost use Rattle.hx_bytes.specs.declared.extents.Extent.{Extent};

    ghost Value = { List Extent };

    ghost view = { λ l. l.list.items };
}

impl ExtentList {
    pub fn new(alloc: Global) -> ExtentList
        ensures { result ≡ [] }
    {
        ExtentList {
            list: Vec::new(alloc),
        }
    }

    /// Adds an extent at the end, and joins it to none.
    pub fn push(&mut self, extent: Extent) -> Result<(), OutOfMemory>
        ensures added { OnOk result (self.new ≡ self.old ++ extent ∷ []) }
        ensures kept { OnErr result (self.new ≡ self.old) }
    {
        self.list.push(extent)?;
        Ok(())
    }

    /// How many extents there are.
    pub fn len(&self) -> usize
        ensures { result ≡ length self.now }
    {
        self.list.len()
    }

    pub fn is_empty(&self) -> bool
        ensures { result ≡ (length self.now == 0) }
    {
        self.list.is_empty()
    }

    pub fn get(&self, at: usize) -> Extent
        requires { at < length self.now }
        ensures { result ≡ slice_index_or self.now at result }
    {
        self.list[at]
    }

    /// All of them, as a slice.
    pub fn as_slice(&self) -> &[Extent]
        ensures { result.now ≡ self.now }
    {
        self.list.as_slice()
    }

    /// The same list once more.
    pub fn copy(&self, alloc: Global) -> Result<ExtentList, OutOfMemory>
        ensures { IfOk result (λ list. list ≡ self.now) }
    {
        let list = Vec::from_slice(alloc, &self.list)?;
        Ok(ExtentList { list })
    }

    /// Takes over a list, without memory.
    pub fn from_list(list: Vec<Extent>) -> ExtentList
        ensures { result ≡ list.items }
    {
        ExtentList { list }
    }

    /// Gives the list up, without memory.
    pub fn into_list(self) -> Vec<Extent>
        ensures { result.items ≡ self }
    {
        let ExtentList { list } = self;
        list
    }

    /// The block at a place of the list, or 4,294,967,295, which no volume has, where its number is greater.
    pub fn block_of(&self, n: u32) -> Option<u32>
        ensures { result ≡ option_map (λ block. min block (2 ^ 32 - 1)) (slice_get (blocks_of self.now) n) }
    {
        match self.block_at(n as u64) {
            Some(block) => Some(block.min(0xFFFF_FFFF) as u32),
            None => None,
        }
    }

    /// The block at a place of the list, whatever its number.
    pub fn block_at(&self, n: u64) -> Option<u64>
        ensures block { result ≡ slice_get (blocks_of self.now) n }
        ensures bound { IfSome result (λ block. block < 2 ^ 33) }
    {
        let items = self.list.as_slice();
        let place = find_place(items, n as u128);
        if place.index < items.len() {
            let extent = items[place.index];
            Some(extent.start as u64 + place.offset as u64)
        } else {
            None
        }
    }

    /// The sector at a place of the fork, where a block has so many sectors of 512 bytes.
    pub fn sector_at(&self, per_block: u32, n: u64) -> Option<u64>
        requires { per_block ≤ 2 ^ 23 }
        ensures { result ≡ slice_get (sectors_of per_block (blocks_of self.now)) n }
    {
        if per_block == 0 {
            return None;
        }
        match self.block_at(n / per_block as u64) {
            Some(block) => Some(block * per_block as u64 + n % per_block as u64),
            None => None,
        }
    }
}
