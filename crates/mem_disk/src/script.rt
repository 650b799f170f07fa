// Which calls of a rig in memory fail.
ghost use Rattle.std.specs.Prelude.{◌≡◌, ◌≤◌, ◌-◌, ◌++◌, ◌∷◌, [], ◌↔◌, IsTrue, Contains, OnOk, OnErr};
ghost use Rattle.sector_disk.specs.Cause.{next_count};
ghost use Rattle.mem_disk.specs.Script.{Fails, no_script};

use hx_bytes::OutOfMemory;
use std::alloc::Global;
use std::marker::Model;

#[derive(Drop)]
pub struct Script {
    // how many device calls were made
    calls: u64,
    // the numbers of the calls that fail
    failing: Vec<u64>,
    // from this number on each call fails
    stop: u64,
    // how many bytes the sink still takes
    room: u64,
    // how many calls found no memory
    starved: u64,
    // the numbers of the writes and barriers
    writes: Vec<u64>,
}

impl Model for Script {
    ghost use Rattle.mem_disk.specs.Script as words;

    ghost Value = { words.Script };

    ghost view = { λ s. record { calls = s.calls; failing = s.failing.items; stop = s.stop; room = s.room; starved = s.starved; writes = s.writes.items } };
}

impl Script {
    pub fn new(alloc: Global) -> Script
        ensures { result ≡ no_script }
    {
        Script {
            calls: 0,
            failing: Vec::new(alloc),
            stop: u64::MAX,
            room: u64::MAX,
            starved: 0,
            writes: Vec::new(alloc),
        }
    }

    pub fn calls(&self) -> u64
        ensures { result ≡ self.now.calls }
    {
        self.calls
    }

    pub fn room(&self) -> u64
        ensures { result ≡ self.now.room }
    {
        self.room
    }

    pub fn starved(&self) -> u64
        ensures { result ≡ self.now.starved }
    {
        self.starved
    }

    /// Whether the next call fails.
    pub fn fails(&self) -> bool
        ensures { IsTrue result ↔ Fails self.now }
    {
        self.calls >= self.stop || self.failing.contains(&self.calls)
    }

    pub fn wrote(&self, call: u64) -> bool
        ensures { IsTrue result ↔ Contains self.now.writes call }
    {
        self.writes.contains(&call)
    }

    pub fn fail_on(&mut self, call: u64) -> Result<(), OutOfMemory>
        ensures named { OnOk result (self.new ≡ record self.old { failing = self.old.failing ++ call ∷ [] }) }
        ensures kept { OnErr result (self.new ≡ self.old) }
    {
        self.failing.push(call)?;
        Ok(())
    }

    pub fn stop_after(&mut self, calls: u64)
        ensures { self.new ≡ record self.old { stop = calls } }
    {
        self.stop = calls;
    }

    pub fn sink_room(&mut self, bytes: u64)
        ensures { self.new ≡ record self.old { room = bytes } }
    {
        self.room = bytes;
    }

    /// The sink takes so many bytes.
    pub fn spend(&mut self, bytes: u64)
        requires { bytes ≤ self.old.room }
        ensures { self.new ≡ record self.old { room = self.old.room - bytes } }
    {
        self.room -= bytes;
    }

    /// Counts the next call.
    pub fn count_call(&mut self)
        ensures { self.new ≡ record self.old { calls = next_count self.old.calls } }
    {
        self.calls = self.calls.saturating_add(1);
    }

    /// Counts the next call, a write or a barrier, and notes its number.
    pub fn count_write(&mut self) -> Result<(), OutOfMemory>
        ensures noted { OnOk result (self.new ≡ record self.old { calls = next_count self.old.calls; writes = self.old.writes ++ self.old.calls ∷ [] }) }
        ensures counted { OnErr result (self.new ≡ record self.old { calls = next_count self.old.calls }) }
    {
        let call = self.calls;
        self.calls = call.saturating_add(1);
        self.writes.push(call)?;
        Ok(())
    }

    /// Counts a call that found no memory.
    pub fn starve(&mut self)
        ensures starved { self.new ≡ record self.old { starved = next_count self.old.starved } }
        ensures later { self.old.starved ≤ self.new.starved }
    {
        self.starved = self.starved.saturating_add(1);
    }
}
