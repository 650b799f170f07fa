//! A place that holds sectors, as a file does.
ghost use Rattle.std.specs.Prelude.{◌≡◌, ◌≤◌, ◌+◌, IsTrue, length, take, drop, OnOk, OnErr, IfOk, IfSome};
ghost use Rattle.sector_disk.specs.Lists.{put_sectors};
ghost use Rattle.file_rig.specs.Place as specs;
ghost use Rattle.file_rig.specs.Place.{HoldsZerosFrom, SameOutside};

use crate::failure::Failure;
use hx_bytes::Sector;

/// A row of sectors, of which runs are read and written, and a flush that makes durable what was written.
pub trait Place {
    /// All that a contract sees of it.
    ghost state: { Self → specs.Place };

    /// Reads the sectors from `first` on.
    fn read_run(&mut self, first: u64, into: &mut [Sector]) -> Result<(), Failure>
        requires { IsTrue (state self.old).tells → first + length into.old ≤ length (state self.old).held }
        ensures read { IsTrue (state self.old).tells → OnOk result (into.new ≡ take (length into.old) (drop first (state self.old).held)) }
        ensures same { state self.new ≡ state self.old };

    /// Writes the sectors from `first` on. Where it fails, any bytes of these sectors may have been written.
    fn write_run(&mut self, first: u64, run: &[Sector]) -> Result<(), Failure>
        requires { IsTrue (state self.old).tells → first + length run.now ≤ length (state self.old).held }
        ensures written { IsTrue (state self.old).tells → OnOk result ((state self.new).held ≡ put_sectors (state self.old).held first run.now) }
        ensures unsure { IsTrue (state self.old).tells → OnErr result (SameOutside first (length run.now) (state self.old).held (state self.new).held) }
        ensures flushed { (state self.new).flushed ≡ (state self.old).flushed }
        ensures tells { (state self.new).tells ≡ (state self.old).tells };

    /// From which sector on it holds zeros, if that is known.
    fn zeros_from(&mut self) -> Result<Option<u64>, Failure>
        ensures zeros { IsTrue (state self.old).tells → IfOk result (λ known. IfSome known (λ from. HoldsZerosFrom from (state self.old).held)) }
        ensures same { state self.new ≡ state self.old }
    {
        Ok(None)
    }

    /// Makes durable what was written.
    fn flush(&mut self) -> Result<(), Failure>
        ensures flushed { OnOk result ((state self.new).flushed ≡ (state self.old).held) }
        ensures failed { OnErr result ((state self.new).flushed ≡ (state self.old).flushed) }
        ensures held { (state self.new).held ≡ (state self.old).held }
        ensures tells { (state self.new).tells ≡ (state self.old).tells };
}
