//! Forks over nodes in memory, stored only where what that needs holds.
ghost use Rattle.std.specs.Prelude.{◌≡◌, ◌≤◌, ◌+◌, ◌/◌, ℕ, IsTrue, length};
ghost use Rattle.btree_node.specs.Mem.{mem_state};
ghost use Rattle.btree_edit.specs.Desk.{IsDeskOf};

use crate::flaw::Flaw;
use crate::fork::Fork;
use crate::gates::{has_few_blocks, kind_of};
use btree_edit::{Desk, Found, find};
use btree_node::{ExtentOrder, KeyOrder, NodeStore, TreeShape};
use fork_map::ExtentList;
use hx_bytes::ForkRecord;
use node_kit::Untold;
use overflow::{load_fork, store_fork};
use std::alloc::Global;

/// The extents overflow file, and a desk for its tree.
#[derive(Drop)]
pub struct Forks {
    store: Untold,
    desk: Desk,
    ghost fits: { IsDeskOf (mem_state store.nodes).shape.node_size desk },
}

impl Forks {
    /// A tree without a record, of so many nodes of 512 bytes.
    pub fn of_512(alloc: Global, nodes: u16) -> Result<Forks, Flaw> {
        let store = Untold::new(alloc, 512, u32::from(nodes) + 1)?;
        let desk = Desk::new(alloc, 512)?;
        Ok(Forks { store, desk })
    }

    /// A tree without a record, of so many nodes of 4,096 bytes.
    pub fn of_4096(alloc: Global, nodes: u16) -> Result<Forks, Flaw> {
        let store = Untold::new(alloc, 4096, u32::from(nodes) + 1)?;
        let desk = Desk::new(alloc, 4096)?;
        Ok(Forks { store, desk })
    }

    /// The numbers of the tree's header.
    pub fn shape(&self) -> TreeShape {
        self.store.shape()
    }

    /// Gives a fork another list, and gives its record.
    pub fn store(
        &mut self,
        alloc: Global,
        fork: &Fork,
        new: &ExtentList,
    ) -> Result<ForkRecord, Flaw> {
        if fork.id == 3 || !has_few_blocks(new) {
            return Err(Flaw::Room);
        }
        let kind = kind_of(fork.of_resources);
        let rec = store_fork(
            alloc,
            &mut self.store,
            &mut self.desk,
            fork.id,
            kind,
            &fork.list,
            new,
        )?;
        Ok(rec)
    }

    /// The extents that a fork has by its record.
    pub fn load(&mut self, alloc: Global, fork: &Fork) -> Result<ExtentList, Flaw> {
        let kind = kind_of(fork.of_resources);
        let list = load_fork(
            alloc,
            &mut self.store,
            &mut self.desk,
            fork.id,
            kind,
            &fork.rec,
        )?;
        Ok(list)
    }

    /// Whether the tree has this value under a key.
    pub fn has(&mut self, key: &[u8], value: &[u8]) -> Result<bool, Flaw> {
        if !ExtentOrder::valid(key) {
            return Ok(false);
        }
        let found = find::<Untold, ExtentOrder>(&mut self.store, &mut self.desk, key)?;
        Ok(matches!(found, Found::At { .. }) && self.desk.value() == value)
    }
}
