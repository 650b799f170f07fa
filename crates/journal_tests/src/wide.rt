// Journals as later systems write them: headers of lists of 98,304 bytes, and transaction numbers and checksums in `next`.
use crate::trying::{HFSJ, HOME, refusal, settle, shows};
use hx_bytes::{Order, Sector, write_o16, write_o32, write_o64};
use jnl_format::{Dialect, JnlRefusal};
use jnl_replay::{Peek, adopt, replay_as};
use mem_disk::MemRig;
use std::alloc::Global;
use std::test::Fail;
use test_kit::{
    BASE, INFO, find_plan, find_plan_as, info_block, put, sealed_header, sealed_list, sector_of,
    volume_header, with_number,
};

const SECTORS: u64 = 2048;

const BLOCKS: u32 = 256;

// A transaction buffer of 3 MiB has 6,144 blocks of 512 bytes, with 16 bytes each.
pub(crate) const BLHDR: u32 = 98_304;

const JOURNAL: u64 = 131_072;

// Behind the list's header, which fills 192 sectors.
const BODY: u64 = BASE + 193;

// The checksum of 512 bytes of 2.
const SUM: u32 = 0x3FF;

fn header(order: Order, start: u64, end: u64, blhdr: u32) -> Sector {
    let mut sector = [0; 512];
    write_o32(&mut sector, 0, 0x4A4E_4C78, order);
    write_o32(&mut sector, 4, 0x1234_5678, order);
    write_o64(&mut sector, 8, start, order);
    write_o64(&mut sector, 16, end, order);
    write_o64(&mut sector, 24, JOURNAL, order);
    write_o32(&mut sector, 32, blhdr, order);
    write_o32(&mut sector, 40, 512, order);
    // The number of the next transaction, behind what the checksum covers.
    write_o32(&mut sector, 44, 8, order);
    sealed_header(&sector, order)
}

// A list of transaction 7: its flags say that it is the first and has checksums, and its one block belongs into a sector.
fn list(order: Order) -> Sector {
    let mut sector = [0; 512];
    write_o16(&mut sector, 0, 6143, order);
    write_o16(&mut sector, 2, 2, order);
    write_o32(&mut sector, 4, 98_816, order);
    write_o32(&mut sector, 12, 3, order);
    write_o32(&mut sector, 28, 7, order);
    write_o64(&mut sector, 32, HOME, order);
    write_o32(&mut sector, 40, 512, order);
    write_o32(&mut sector, 44, SUM, order);
    sealed_list(&sector, order)
}

pub(crate) fn volume(alloc: Global, order: Order) -> Result<MemRig, Fail> {
    let mut rig = MemRig::new(alloc, SECTORS)?;
    put(&mut rig, 2, &volume_header(HFSJ, BLOCKS));
    put(&mut rig, INFO, &info_block(1, JOURNAL));
    put(&mut rig, BASE, &header(order, 512, 99_328, BLHDR));
    put(&mut rig, BASE + 1, &list(order));
    put(&mut rig, BODY, &[2; 512]);
    settle(&mut rig);
    Ok(rig)
}

fn replays(rig: &mut MemRig) -> bool {
    match find_plan_as(rig, Dialect::Wide) {
        Ok(plan) => replay_as(rig, &plan).is_ok(),
        Err(_) => false,
    }
}

fn adopts(rig: &mut MemRig) -> bool {
    match find_plan_as(rig, Dialect::Wide) {
        Ok(plan) => adopt(rig, &plan).is_ok(),
        Err(_) => false,
    }
}

#[test]
fn the_plain_dialect_refuses_what_the_wide_one_replays(rt: HostRuntime) -> Result<(), Fail> {
    let alloc = rt.alloc();
    for order in [Order::Big, Order::Little] {
        let mut rig = volume(alloc, order)?;
        assert_eq!(rt;
            refusal(&mut rig, Dialect::Plain),
            Some(JnlRefusal::BadHeader(32))
        );
        assert!(rt; replays(&mut rig));
        assert_eq!(rt; sector_of(&mut rig, HOME), [2; 512]);
        assert_eq!(rt;
            sector_of(&mut rig, BASE),
            header(order, 99_328, 99_328, BLHDR)
        );
    }
    Ok(())
}

#[test]
fn a_peek_shows_what_the_wide_dialect_reads(rt: HostRuntime) -> Result<(), Fail> {
    let alloc = rt.alloc();
    let mut rig = volume(alloc, Order::Little)?;
    let Ok(plan) = find_plan_as(&mut rig, Dialect::Wide) else {
        assert!(rt; false);
        return Ok(());
    };
    let Ok(peek) = Peek::new_as(alloc, &mut rig, &plan) else {
        assert!(rt; false);
        return Ok(());
    };
    shows(&rt, &mut rig, &peek, &[(HOME, 2), (HOME + 1, 0)]);
    Ok(())
}

#[test]
fn an_adopted_journal_is_one_of_the_plain_dialect(rt: HostRuntime) -> Result<(), Fail> {
    let alloc = rt.alloc();
    for order in [Order::Big, Order::Little] {
        let mut rig = volume(alloc, order)?;
        assert!(rt; adopts(&mut rig));
        assert_eq!(rt; sector_of(&mut rig, HOME), [2; 512]);
        assert_eq!(rt;
            sector_of(&mut rig, BASE),
            header(order, 99_328, 99_328, 4096)
        );
        assert!(rt; find_plan(&mut rig).is_ok());
        // Once more nothing changes.
        assert!(rt; adopts(&mut rig));
        assert_eq!(rt;
            sector_of(&mut rig, BASE),
            header(order, 99_328, 99_328, 4096)
        );
    }
    Ok(())
}

// The largest size of a list's header, and the next one.
#[test]
fn a_lists_header_fills_1_mib_at_most(rt: HostRuntime) -> Result<(), Fail> {
    let alloc = rt.alloc();
    let rows = [
        (65_536, None, None),
        (66_048, Some(JnlRefusal::BadHeader(32)), None),
        (1_048_576, Some(JnlRefusal::BadHeader(32)), None),
        (
            1_049_088,
            Some(JnlRefusal::BadHeader(32)),
            Some(JnlRefusal::BadHeader(32)),
        ),
    ];
    for (blhdr, plain, wide) in rows {
        let mut rig = volume(alloc, Order::Little)?;
        put(&mut rig, BASE, &header(Order::Little, 512, 512, blhdr));
        settle(&mut rig);
        assert_eq!(rt; refusal(&mut rig, Dialect::Plain), plain, "{blhdr}");
        assert_eq!(rt; refusal(&mut rig, Dialect::Wide), wide, "{blhdr}");
    }
    Ok(())
}

// Damages of the list, with its checksum made anew, are refused in the wide dialect too.
#[test]
fn a_damaged_list_is_refused(rt: HostRuntime) -> Result<(), Fail> {
    let alloc = rt.alloc();
    let order = Order::Little;
    let rows = [
        ("a used count too small", 4, 98_304),
        ("a used count too large", 4, 99_328),
        ("a block past the volume", 32, 2048),
        ("a block in the journal", 32, 25),
        ("a block that isn't whole sectors", 40, 500),
    ];
    for (shows, at, number) in rows {
        let mut rig = volume(alloc, order)?;
        let damaged = with_number(&sector_of(&mut rig, BASE + 1), at, number, order);
        put(&mut rig, BASE + 1, &sealed_list(&damaged, order));
        settle(&mut rig);
        assert_eq!(rt;
            refusal(&mut rig, Dialect::Wide),
            Some(JnlRefusal::BadList(512)),
            "{shows}"
        );
    }
    Ok(())
}
