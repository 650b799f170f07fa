// The trees of volumes that were made, with each edit in a transaction of its own.
use crate::grove::live;
use std::test::Fail;

/// The sizes of blocks, and the sectors of the journal.
const VOLUMES: [(u32, u64); 3] = [(4096, 2048), (512, 2048), (65536, 512)];

#[test]
fn trees_live_in_volumes_that_were_made(rt: HostRuntime) -> Result<(), Fail> {
    for (block, journal) in VOLUMES {
        let lived = live(rt.alloc(), block, journal, 13);
        assert_eq!(rt; lived, Ok(()), "{block}");
    }
    Ok(())
}
