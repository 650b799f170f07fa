//! The pairs of a tree, in the order of their keys.
ghost use Rattle.std.specs.Prelude.{◌≡◌, ◌<◌, [], length, map, slice_index_or};
ghost use Rattle.btree_node.specs.Levels.{pair_of};

use crate::records::{key_part, value_part};
use fsck_list::Records;
use std::alloc::Global;
use std::marker::Model;

/// Keys, each with its length in front, and their values.
#[derive(Drop)]
pub struct Pairs {
    records: Records,
}

impl Model for Pairs {
    ghost use Rattle.std.specs.Prelude.{List, map};
    ghost use Rattle.btree_node.specs.Levels.{Pair, pair_of};

    ghost Value = { List Pair };

    ghost view = { λ p. map pair_of p.records };
}

impl Pairs {
    /// No pair.
    pub fn new(alloc: Global) -> Pairs
        ensures { result ≡ [] }
    {
        Pairs {
            records: Records::new(alloc),
        }
    }

    /// The pairs that records spell.
    pub(crate) fn from_records(records: Records) -> Pairs
        ensures { result ≡ map pair_of records }
    {
        Pairs { records }
    }

    /// How many there are.
    pub fn len(&self) -> usize
        ensures { result ≡ length self.now }
    {
        self.records.len()
    }

    /// The key of a pair, with its length in front.
    pub fn key(&self, i: usize) -> &[u8]
        requires { i < length self.now }
        ensures { result.now ≡ (slice_index_or self.now i ([], [])).0 }
    {
        key_part(self.records.get(i))
    }

    /// The value of a pair.
    pub fn value(&self, i: usize) -> &[u8]
        requires { i < length self.now }
        ensures { result.now ≡ (slice_index_or self.now i ([], [])).1 }
    {
        value_part(self.records.get(i))
    }
}
