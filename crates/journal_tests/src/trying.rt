// What is asked of a journal on a disk in memory.
use jnl_format::{Dialect, JnlRefusal};
use jnl_replay::{Peek, PeekView, ReplayFault};
use mem_disk::MemRig;
use sector_disk::{SectorDisk, SectorView};
use std::process::Abort;
use test_kit::{find_plan_as, sector_of};

/// The version of a system that keeps a journal.
pub(crate) const HFSJ: u32 = 0x4846_534A;

/// The sector into which the blocks of the lists belong, on a volume of 2,048.
pub(crate) const HOME: u64 = 2000;

/// Makes durable what was written.
pub(crate) fn settle(rig: &mut MemRig) {
    let _settled = rig.barrier();
}

/// Why a dialect refuses the journal, if it does.
pub(crate) fn refusal(rig: &mut MemRig, dialect: Dialect) -> Option<JnlRefusal> {
    match find_plan_as(rig, dialect) {
        Err(ReplayFault::Refused(refusal)) => Some(refusal),
        _ => None,
    }
}

/// Asserts that a peek shows sectors full of these bytes, and that nothing was written home.
pub(crate) fn shows(rt: &impl Abort, rig: &mut MemRig, peek: &Peek, rows: &[(u64, u8)]) {
    for (at, byte) in rows {
        let mut sector = [9; 512];
        let mut view = PeekView { peek, disk: rig };
        if *at < view.sectors() {
            assert!(rt; view.get(*at, &mut sector).is_ok());
        }
        assert_eq!(rt; sector, [*byte; 512], "sector {at}");
    }
    assert_eq!(rt; sector_of(rig, HOME), [0; 512]);
}
