//! A view of what a volume stands for, with nothing written: its journal's blocks in place of its sectors.
ghost use Rattle.std.specs.Prelude.{◌≡◌, ◌<◌, ◌≤◌, ◌+◌, ◌∷◌, [], IsTrue, IfOk, IfSome, IsErrOf};
ghost use Rattle.sector_disk.specs.Cause.{Rose};
ghost use Rattle.sector_disk.specs.Disk.{content};
ghost use Rattle.jnl_format.specs.Recovery.{replayed};
ghost use Rattle.jnl_replay.specs.Peeking.{peeked};
ghost use Rattle.jnl_replay.specs.Plan.{FitsAny, FitsPlan, IsPlan, IsPlanAs, journal_of};
ghost use Rattle.jnl_format.specs.declared.dialect.Dialect.{Dialect};
ghost use Rattle.sector_disk.specs.Disk.{OnlyReads};
ghost use Rattle.hx_bytes.specs.declared.faults.Trouble.TheVariants.{Disk};

use crate::homes::Homes;
use crate::index::Peek;
use crate::plan::Plan;
use crate::run_index::RunIndex;
use crate::text::text_of;
use hx_bytes::Trouble;
use sector_disk::SectorDisk;
use std::alloc::Global;

impl Peek {
    /// Indexes the sectors that the journal's lists name, the last block of each.
    pub fn new<D: SectorDisk>(alloc: Global, disk: &mut D, plan: &Plan) -> Result<Peek, Trouble>
        requires fits { FitsPlan (D.state disk.old).sectors plan.now }
        requires plan { IsTrue (D.state disk.old).tells → IsPlan (content (D.state disk.old)) plan.now }
        ensures shows { IsTrue (D.state disk.old).tells → IfOk result (λ peek. peeked peek (content (D.state disk.old)) ≡ replayed (journal_of plan.now) (content (D.state disk.old))) }
        ensures sectors { IfOk result (λ peek. peek.sectors ≡ (D.state disk.old).sectors) }
        ensures reads { OnlyReads (D.state disk.old) (D.state disk.new) }
        ensures cause { IsErrOf result Disk → Rose (D.state disk.old).faults (D.state disk.new).faults }
    {
        Peek::new_as(alloc, disk, plan)
    }

    /// The same in each dialect in which the plan is the disk's.
    pub fn new_as<D: SectorDisk>(alloc: Global, disk: &mut D, plan: &Plan) -> Result<Peek, Trouble>
        requires fits { FitsAny (D.state disk.old).sectors plan.now }
        ensures shows { IsTrue (D.state disk.old).tells → (dialect : Dialect) → IsPlanAs dialect (content (D.state disk.old)) plan.now
            → IfOk result (λ peek. peeked peek (content (D.state disk.old)) ≡ replayed (journal_of plan.now) (content (D.state disk.old))) }
        ensures sectors { IfOk result (λ peek. peek.sectors ≡ (D.state disk.old).sectors) }
        ensures reads { OnlyReads (D.state disk.old) (D.state disk.new) }
        ensures cause { IsErrOf result Disk → Rose (D.state disk.old).faults (D.state disk.new).faults }
    {
        let sectors = disk.sectors();
        let text = text_of(plan, sectors);
        let mut homes = Homes::new(&text, sectors);
        let mut index = RunIndex::new(alloc);
        let mut runs = Vec::new(alloc);
        while let Some(home) = homes.next(disk)? {
            index.add(alloc, &mut runs, &home)?;
        }
        index.put_runs(alloc, runs)?;
        Ok(Peek {
            text,
            sectors,
            index,
        })
    }
}
