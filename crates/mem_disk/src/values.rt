// The candidates of one sector: its value at the last barrier, then each value written since.
ghost use Rattle.std.specs.Prelude.{◌≡◌, ◌<◌, ◌-◌, ◌++◌, [], ◌∷◌, length, take, slice_index_or, IfOk, OnOk, OnErr};
ghost use Rattle.sector_disk.specs.Lists.{last};

use hx_bytes::{OutOfMemory, Sector};
use std::alloc::Global;
use std::marker::Model;

#[derive(Drop)]
pub struct Values {
    list: Vec<Sector>,
}

impl Model for Values {
    ghost use Rattle.std.specs.Prelude.{ℕ, List};

    ghost Value = { List (List ℕ) };

    ghost view = { λ v. v.list.items };
}

impl Values {
    /// This value, and nothing pending.
    pub fn only(alloc: Global, value: &Sector) -> Result<Values, OutOfMemory>
        ensures { IfOk result (λ values. values ≡ value.now ∷ []) }
    {
        let mut list = Vec::with_capacity(alloc, 1)?;
        list.push(*value)?;
        Ok(Values { list })
    }

    pub fn len(&self) -> usize
        ensures { result ≡ length self.now }
    {
        self.list.len()
    }

    pub fn get(&self, at: usize) -> Sector
        requires { at < length self.now }
        ensures { result ≡ slice_index_or self.now at [] }
    {
        self.list[at]
    }

    /// What a read gives: the last of them.
    pub fn newest(&self) -> Sector
        requires { 0 < length self.now }
        ensures { result ≡ last self.now }
    {
        self.list[self.list.len() - 1]
    }

    /// One value more.
    pub fn push(&mut self, value: &Sector) -> Result<(), OutOfMemory>
        ensures added { OnOk result (self.new ≡ self.old ++ value.now ∷ []) }
        ensures kept { OnErr result (self.new ≡ self.old) }
    {
        self.list.push(*value)?;
        Ok(())
    }

    /// Takes the last value back.
    pub fn pop(&mut self)
        ensures { self.new ≡ take (length self.old - 1) self.old }
    {
        self.list.pop();
    }

    /// Keeps the last value alone, without memory.
    pub fn keep_newest(&mut self)
        requires { 0 < length self.old }
        ensures { self.new ≡ last self.old ∷ [] }
    {
        let newest = self.newest();
        self.list.truncate(1);
        self.list[0] = newest;
    }
}
