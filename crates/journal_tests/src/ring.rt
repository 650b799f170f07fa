// A ring of three sectors behind its header, on a disk of eight.
ghost use Rattle.std.specs.Prelude.{◌≤◌, IfOk};
ghost use Rattle.mem_disk.specs.MemRig.{rig_state};

use hx_bytes::{OutOfMemory, Sector};
use jnl_ring::{Span, read_at, write_at};
use mem_disk::MemRig;
use sector_disk::SectorDisk;
use std::alloc::Global;
use std::test::Fail;

const SPAN: Span = Span {
    base: 2,
    size: 2_048,
};

fn fresh(alloc: Global) -> Result<MemRig, OutOfMemory>
    ensures { IfOk result (λ rig. 8 ≤ (rig_state rig).sectors) }
{
    MemRig::new(alloc, 8)
}

#[test]
fn a_list_is_written_and_read_over_the_wrap(rt: HostRuntime) -> Result<(), Fail> {
    let alloc = rt.alloc();
    let mut rig = fresh(alloc)?;
    let sectors: &[Sector] = &[[1; 512], [2; 512]];
    assert!(rt; write_at(&mut rig, &SPAN, 1_536, &sectors).is_ok());
    let mut bytes = [9; 1_024];
    assert!(rt; read_at(&mut rig, &SPAN, 1_536, &mut bytes).is_ok());
    for (at, want) in [(0, 1), (511, 1), (512, 2), (1_023, 2)] {
        assert_eq!(rt; bytes[at], want, "byte {at}");
    }
    // The last byte before the wrap and what follows behind it.
    let mut few = [9; 4];
    assert!(rt; read_at(&mut rig, &SPAN, 2_046, &mut few).is_ok());
    assert_eq!(rt; few, [1, 1, 2, 2]);
    assert!(rt; read_at(&mut rig, &SPAN, 1_022, &mut few).is_ok());
    assert_eq!(rt; few, [2, 2, 0, 0]);
    // The list stands in the last sector of the journal and in the first of its buffer.
    let newest = rig.image(alloc, 1)?;
    for (at, byte) in [0, 0, 0, 2, 0, 1, 0, 0].iter().enumerate() {
        assert!(rt;
            newest.sectors.get(at).is_some_and(|s| *s == [*byte; 512]),
            "sector {at}"
        );
    }
    Ok(())
}

#[test]
fn a_fault_of_the_disk_is_handed_on(rt: HostRuntime) -> Result<(), Fail> {
    let alloc = rt.alloc();
    for call in 0..3u64 {
        let mut rig = fresh(alloc)?;
        rig.fail_on(alloc, call)?;
        let sectors: &[Sector] = &[[1; 512], [2; 512]];
        let wrote = write_at(&mut rig, &SPAN, 1_536, &sectors).is_ok();
        assert_eq!(rt; wrote, call == 2, "write {call}");
        assert_eq!(rt; rig.calls(), if call == 0 { 1 } else { 2 });
        let mut bytes = [0; 600];
        let read = read_at(&mut rig, &SPAN, 512, &mut bytes).is_ok();
        assert_eq!(rt; read, call != 2, "read {call}");
    }
    Ok(())
}
