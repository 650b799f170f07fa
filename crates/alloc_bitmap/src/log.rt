//! Which blocks are used, and the changes since the last keep.
ghost use Rattle.std.specs.Prelude.{◌≡◌, ◌⊎◌, ℕ, ◌++◌, not, true, false, length, map, slice_index_or, OnOk, OnErr};
ghost use Rattle.flag_rows.specs.Marks.{mark_all, Fit, is_held};
ghost use Rattle.alloc_bitmap.specs.Kept.{Kept};
ghost use Rattle.alloc_bitmap.specs.declared.log.BitChange.{BitChange};

use flag_rows::Row;
use hx_bytes::{Extent, OutOfMemory};
use std::alloc::Global;
use std::marker::Model;

/// The blocks of an extent became used, or free.
#[derive(Clone, Copy, Debug)]
pub struct BitChange {
    extent: Extent,
    used: bool,
}

/// Flags of used blocks that can go back to what they were at the last keep.
#[derive(Drop)]
pub struct Used {
    row: Row,
    log: Vec<BitChange>,
}

impl Model for Used {
    ghost use Rattle.std.specs.Prelude.{length};
    ghost use Rattle.alloc_bitmap.specs.Kept.{Kept, rewind, ChangesFit};

    ghost Value = { Kept };

    ghost view = { λ u. record { flags = u.row; kept = rewind u.log.items u.row } };

    ghost invariant = { λ u. ChangesFit (length u.row) u.log.items };
}

impl Used {
    pub fn new(alloc: Global, row: Row) -> Used
        ensures flags { result.flags ≡ row }
        ensures kept { result.kept ≡ row }
    {
        Used {
            row,
            log: Vec::new(alloc),
        }
    }

    pub fn row(&self) -> &Row
        ensures { result.now ≡ self.now.flags }
    {
        &self.row
    }

    pub fn keep(&mut self)
        ensures flags { self.new.flags ≡ self.old.flags }
        ensures kept { self.new.kept ≡ self.old.flags }
    {
        self.log.clear();
    }

    /// Makes the blocks of extents used, or free, that are not so yet.
    pub fn change_all(&mut self, list: &[Extent], used: bool) -> Result<(), OutOfMemory>
        requires fit { Fit (length self.old.flags) list.now }
        requires change { (k : ℕ) → is_held list.now k ≡ true → slice_index_or self.old.flags k used ≡ not used }
        ensures changed { OnOk result (self.new.flags ≡ mark_all self.old.flags list.now used) }
        ensures kept { self.new.kept ≡ self.old.kept }
        ensures same { OnErr result (self.new.flags ≡ self.old.flags) }
    {
        log_all(&mut self.log, list, used)?;
        self.row.set_all(list, used);
        Ok(())
    }

    /// Goes back to the last keep, and gives the flags of another row the same values where a block changed since.
    pub fn undo(&mut self, taken: &mut Row)
        requires { length taken.old ≡ length self.old.flags }
        ensures flags { self.new.flags ≡ self.old.kept }
        ensures kept { self.new.kept ≡ self.old.kept }
        ensures size { length taken.new ≡ length taken.old }
        ensures taken { (k : ℕ) → (slice_index_or taken.new k false ≡ slice_index_or self.old.kept k false)
            ⊎ ((slice_index_or taken.new k false ≡ slice_index_or taken.old k false) × (slice_index_or self.old.kept k false ≡ slice_index_or self.old.flags k false)) }
    {
        while let Some(change) = self.log.pop() {
            self.row.set(change.extent, !change.used);
            taken.set(change.extent, !change.used);
        }
    }
}

/// Notes that the extents changed, or nothing where there is no memory for all of them.
fn log_all(log: &mut Vec<BitChange>, list: &[Extent], used: bool) -> Result<(), OutOfMemory>
    ensures noted { OnOk result (log.new.items ≡ log.old.items ++ map (λ extent. record { extent = extent; used = used }) list.now) }
    ensures same { OnErr result (log.new.items ≡ log.old.items) }
{
    let len = log.len();
    for extent in list {
        let change = BitChange {
            extent: *extent,
            used,
        };
        if log.push(change).is_err() {
            log.truncate(len);
            return Err(OutOfMemory);
        }
    }
    Ok(())
}
