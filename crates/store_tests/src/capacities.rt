// How many sectors a transaction may have, by the sizes of a journal and of its lists' headers.
use crate::volumes::{JOURNALING, sealed_blhdr};
use hx_bytes::{Order, OutOfMemory};
use jnl_store::capacity;
use mem_disk::MemRig;
use std::alloc::Global;
use std::test::Fail;
use test_kit::{BASE, INFO, find_plan, header_block, info_block, put, volume_header};

/// The capacity of an empty journal of so many sectors, in a volume of 4,096. There is none where the journal is refused.
fn capacity_of(alloc: Global, sectors: u64, blhdr: u32) -> Result<Option<u64>, OutOfMemory> {
    let size = sectors.min(2_048) * 512;
    let mut rig = MemRig::new(alloc, 4_096)?;
    put(&mut rig, 2, &volume_header(JOURNALING, 512));
    put(&mut rig, INFO, &info_block(1, size));
    let head = header_block(Order::Big, 512, 512, size);
    put(&mut rig, BASE, &sealed_blhdr(&head, Order::Big, blhdr));
    match find_plan(&mut rig) {
        Ok(plan) => Ok(Some(capacity(&plan))),
        Err(_) => Ok(None),
    }
}

// The largest m with `m + h * ceil(m / E)` at most T, by hand: T is the buffer's sectors but one, h those of a list's
// header, E its entries but entry 0.
#[test]
fn lists_fill_the_buffer_but_one_sector(rt: HostRuntime) -> Result<(), Fail> {
    for (sectors, blhdr, want) in [
        (3, 512, 0),
        (4, 512, 1),
        (33, 512, 30),
        (34, 512, 30),
        (35, 512, 31),
        (1_024, 4_096, 990),
        (2_048, 4_096, 1_982),
    ] {
        assert_eq!(rt;
            capacity_of(rt.alloc(), sectors, blhdr)?,
            Some(want),
            "{sectors} and {blhdr}"
        );
    }
    Ok(())
}
