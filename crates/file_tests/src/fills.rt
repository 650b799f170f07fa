//! Growths over blocks that were filled with zeros ahead of them.
use crate::calls::fill;
use crate::making::make;
use crate::moves::{extend_over, put};
use std::alloc::Global;
use std::process::Abort;
use std::test::Fail;

/// Makes a file of a block and five bytes six blocks long, of whose four zero blocks so many were filled before, and looks how many blocks the
/// growth spilled: the last old one, and the zero blocks that weren't filled.
fn grows_over(rt: &impl Abort, alloc: Global, block: u32, zeroed: u32) -> Result<(), Fail> {
    let mut file = make(alloc, block)?;
    let bytes = u64::from(block);
    put(rt, alloc, &mut file, 0, bytes.saturating_add(5), 3)?;
    fill(
        rt,
        alloc,
        &mut file.space,
        &mut file.map,
        block,
        5,
        1,
        zeroed.saturating_add(1),
    )?;
    let before = file.space.spills_left;
    extend_over(rt, alloc, &mut file, bytes.saturating_mul(6), zeroed)?;
    let spilled = before.saturating_sub(file.space.spills_left);
    let blocks = u64::from(5u32.saturating_sub(zeroed));
    assert_eq!(rt; spilled.saturating_mul(512), blocks.saturating_mul(bytes));
    Ok(())
}

#[test]
fn blocks_that_hold_zeros_are_not_filled_again(rt: HostRuntime) -> Result<(), Fail> {
    for block in [512, 4096, 65536u32] {
        for zeroed in 0..5u32 {
            grows_over(&rt, rt.alloc(), block, zeroed)?;
        }
    }
    Ok(())
}
