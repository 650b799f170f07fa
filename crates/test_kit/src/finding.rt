//! The plan of a volume, as a mount looks for it.
ghost use Rattle.std.specs.Prelude.{IsTrue, IfOk};
ghost use Rattle.sector_disk.specs.Disk.{content};
ghost use Rattle.jnl_replay.specs.Plan.{FitsPlan, FitsPlanAs, IsPlan, IsPlanAs};
ghost use Rattle.sector_disk.specs.Disk.{OnlyReads};

use hx_bytes::Failed;
use jnl_format::{Dialect, JnlRefusal};
use jnl_replay::{Plan, ReplayFault, find_place, validate_as};
use sector_disk::SectorDisk;

/// Validates the journal of which the volume header speaks. A volume that is refused is answered as version 0.
pub fn find_plan<D: SectorDisk>(disk: &mut D) -> Result<Plan, ReplayFault>
    ensures plan { IsTrue (D.state disk.old).tells → IfOk result (λ plan. IsPlan (content (D.state disk.old)) plan) }
    ensures fits { IfOk result (λ plan. FitsPlan (D.state disk.old).sectors plan) }
    ensures reads { OnlyReads (D.state disk.old) (D.state disk.new) }
{
    find_plan_as(disk, Dialect::Plain)
}

/// The same in a dialect.
pub fn find_plan_as<D: SectorDisk>(disk: &mut D, dialect: Dialect) -> Result<Plan, ReplayFault>
    ensures plan { IsTrue (D.state disk.old).tells → IfOk result (λ plan. IsPlanAs dialect (content (D.state disk.old)) plan) }
    ensures fits { IfOk result (λ plan. FitsPlanAs dialect (D.state disk.old).sectors plan) }
    ensures reads { OnlyReads (D.state disk.old) (D.state disk.new) }
{
    match find_place(disk) {
        Ok(Ok(place)) => validate_as(disk, &place, dialect),
        Ok(Err(_)) => Err(ReplayFault::Refused(JnlRefusal::ForeignJournal(0))),
        Err(Failed) => Err(ReplayFault::Disk),
    }
}
