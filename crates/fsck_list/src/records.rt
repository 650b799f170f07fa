//! Records of bytes, in two allocations whatever their number.
ghost use Rattle.std.specs.Prelude.{◌≡◌, ◌<◌, ◌≤◌, ◌++◌, [], ◌∷◌, length, slice_index_or, slice_range, OnErr, OnOk};
ghost use Rattle.fsck_list.specs.Flat.{start_of};

use hx_bytes::OutOfMemory;
use std::alloc::Global;
use std::marker::Model;

/// A list of byte strings, which stand one behind the other.
#[derive(Drop)]
pub struct Records {
    bytes: Vec<u8>,
    ends: Vec<usize>,
}

impl Model for Records {
    ghost use Rattle.std.specs.Prelude.{List, ℕ};
    ghost use Rattle.fsck_list.specs.Flat.{cut_at, AreEnds};

    ghost Value = { List (List ℕ) };

    ghost view = { λ r. cut_at r.bytes.items r.ends.items };

    ghost invariant = { λ r. AreEnds r.bytes.items r.ends.items };
}

impl Records {
    /// No record.
    #[tactic(auto, unfolding(crate::specs::Flat::cut_at))]
    pub fn new(alloc: Global) -> Records
        ensures { result ≡ [] }
    {
        Records {
            bytes: Vec::new(alloc),
            ends: Vec::new(alloc),
        }
    }

    /// How many there are.
    #[tactic(auto, using(crate::proofs::FlatLaws::length_cut))]
    pub fn len(&self) -> usize
        ensures { result ≡ length self.now }
    {
        self.ends.len()
    }

    /// Adds a record at the end.
    pub fn push(&mut self, bytes: &[u8]) -> Result<(), OutOfMemory>
        ensures added { OnOk result (self.new ≡ self.old ++ bytes.now ∷ []) }
        ensures same { OnErr result (self.new ≡ self.old) }
    {
        self.ends.reserve(1)?;
        self.bytes.extend_from_slice(bytes)?;
        let end = self.bytes.len();
        self.ends.push_reserved(end);
        Ok(())
    }

    /// The bytes of a record.
    pub fn get(&self, i: usize) -> &[u8]
        requires { i < length self.now }
        ensures { result.now ≡ slice_index_or self.now i [] }
    {
        let start = start_of(&self.ends, i);
        let end = self.ends[i];
        stretch(&self.bytes, start, end)
    }
}

/// Where a record begins: where the one before it ends.
fn start_of(ends: &[usize], i: usize) -> usize
    requires { i ≤ length ends.now }
    ensures { result ≡ start_of ends.now i }
{
    if i == 0 { 0 } else { ends[i - 1] }
}

/// The bytes from one place up to another.
fn stretch(bytes: &[u8], start: usize, end: usize) -> &[u8]
    requires order { start ≤ end }
    requires inside { end ≤ length bytes.now }
    ensures { result.now ≡ slice_range bytes.now start end }
{
    &bytes[start..end]
}
