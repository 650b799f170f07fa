// Journals replayed, refused, and cut off in the middle.
use crate::trying::{HFSJ, HOME, refusal, settle, shows};
use hx_bytes::{Order, Sector};
use jnl_format::{Dialect, Entry, JnlRefusal, checksum};
use jnl_replay::{Peek, replay};
use mem_disk::MemRig;
use std::alloc::Global;
use std::test::Fail;
use test_kit::{
    BASE, INFO, find_plan, header_block, info_block, list_block, list_of, put, sealed_header,
    sealed_list, sector_of, volume_header, with_number,
};

const FOREIGN: u32 = 825_241_136;
// A volume of 6,144 sectors and one of 2,048, and the sector into which the list's block belongs.
const LARGE: (u64, u32, u64) = (6144, 768, 5000);

const SMALL: (u64, u32, u64) = (2048, 256, 2000);

fn block(bnum: u64, bsize: u32) -> Entry {
    Entry {
        bnum,
        bsize,
        next: 1,
    }
}

/// A volume with a journal of 4,096 bytes and one list: a skipped block of 512 bytes, and one for a sector.
fn volume(
    alloc: Global,
    size: (u64, u32, u64),
    order: Order,
    version: u32,
    flags: u32,
) -> Result<MemRig, Fail> {
    let (sectors, total_blocks, home) = size;
    let mut rig = MemRig::new(alloc, sectors)?;
    put(&mut rig, 2, &volume_header(version, total_blocks));
    put(&mut rig, INFO, &info_block(flags, 4096));
    put(&mut rig, BASE, &header_block(order, 512, 2048, 4096));
    let blocks = [block(u64::MAX, 512), block(home, 512)];
    put(&mut rig, BASE + 1, &list_block(order, &blocks, 1536));
    put(&mut rig, BASE + 2, &[1; 512]);
    put(&mut rig, BASE + 3, &[2; 512]);
    settle(&mut rig);
    Ok(rig)
}

fn replays(rig: &mut MemRig) -> bool {
    match find_plan(rig) {
        Ok(plan) => replay(rig, &plan).is_ok(),
        Err(_) => false,
    }
}

#[test]
fn a_skipped_block_is_stepped_over(rt: HostRuntime) -> Result<(), Fail> {
    let alloc = rt.alloc();
    for order in [Order::Big, Order::Little] {
        let mut rig = volume(alloc, LARGE, order, HFSJ, 1)?;
        assert!(rt; replays(&mut rig));
        assert_eq!(rt; sector_of(&mut rig, 5000), [2; 512]);
        assert_eq!(rt; sector_of(&mut rig, 5001), [0; 512]);
        assert_eq!(rt;
            sector_of(&mut rig, BASE),
            header_block(order, 2048, 2048, 4096)
        );
    }
    Ok(())
}

#[test]
fn a_block_stands_behind_the_wrap(rt: HostRuntime) -> Result<(), Fail> {
    let alloc = rt.alloc();
    let mut rig = MemRig::new(alloc, 2048)?;
    put(&mut rig, 2, &volume_header(HFSJ, 256));
    put(&mut rig, INFO, &info_block(1, 2048));
    put(
        &mut rig,
        BASE,
        &header_block(Order::Little, 1536, 1024, 2048),
    );
    put(
        &mut rig,
        BASE + 3,
        &list_block(Order::Little, &[block(HOME, 512)], 1024),
    );
    put(&mut rig, BASE + 1, &[7; 512]);
    settle(&mut rig);
    assert!(rt; replays(&mut rig));
    assert_eq!(rt; sector_of(&mut rig, HOME), [7; 512]);
    assert_eq!(rt;
        sector_of(&mut rig, BASE),
        header_block(Order::Little, 1024, 1024, 2048)
    );
    Ok(())
}

#[test]
fn a_journal_to_be_initialised_counts_as_empty(rt: HostRuntime) -> Result<(), Fail> {
    let alloc = rt.alloc();
    let mut rig = volume(alloc, SMALL, Order::Little, FOREIGN, 5)?;
    assert!(rt; replays(&mut rig));
    assert_eq!(rt; sector_of(&mut rig, HOME), [0; 512]);
    assert_eq!(rt; sector_of(&mut rig, INFO), info_block(1, 4096));
    assert!(rt; replays(&mut rig));
    Ok(())
}

#[test]
fn each_damage_has_its_refusal(rt: HostRuntime) -> Result<(), Fail> {
    let alloc = rt.alloc();
    let little = Order::Little;
    let big = Order::Big;
    // The sector, the byte, the number put there and in which order, and the refusal.
    let damages = [
        (INFO, 0, 3, big, JnlRefusal::OtherDevice),
        (INFO, 0, 0, big, JnlRefusal::BadInfo(0)),
        (INFO, 40, 12289, big, JnlRefusal::BadInfo(36)),
        (INFO, 40, 1024, big, JnlRefusal::BadInfo(36)),
        (INFO, 40, 8192, big, JnlRefusal::BadInfo(36)),
        (INFO, 48, 1024, big, JnlRefusal::BadInfo(44)),
        (INFO, 48, 4100, big, JnlRefusal::BadInfo(44)),
        (INFO, 48, 1_048_576, big, JnlRefusal::BadInfo(44)),
        (BASE, 0, 1, little, JnlRefusal::BadHeader(0)),
        (BASE, 4, 1, little, JnlRefusal::BadHeader(4)),
        (BASE, 8, 513, little, JnlRefusal::BadHeader(8)),
        (BASE, 8, 0, little, JnlRefusal::BadHeader(8)),
        (BASE, 16, 4608, little, JnlRefusal::BadHeader(16)),
        (BASE, 24, 4608, little, JnlRefusal::BadHeader(24)),
        (BASE, 32, 256, little, JnlRefusal::BadHeader(32)),
        (BASE, 32, 66_048, little, JnlRefusal::BadHeader(32)),
        (BASE, 36, 1, little, JnlRefusal::BadHeader(36)),
        (BASE, 40, 1024, little, JnlRefusal::BadHeader(36)),
        (BASE + 1, 8, 1, little, JnlRefusal::BadList(512)),
        (BASE + 1, 56, 1024, little, JnlRefusal::BadList(512)),
        (BASE + 1, 48, 2048, little, JnlRefusal::BadList(512)),
        (BASE + 1, 48, 16, little, JnlRefusal::BadList(512)),
        (BASE + 1, 48, 25, little, JnlRefusal::BadList(512)),
        (BASE + 1, 48, 2, little, JnlRefusal::BadList(512)),
    ];
    for (at, place, number, order, want) in damages {
        let mut rig = volume(alloc, SMALL, little, HFSJ, 1)?;
        let damaged = with_number(&sector_of(&mut rig, at), place, number, order);
        put(&mut rig, at, &damaged);
        assert_eq!(rt;
            refusal(&mut rig, Dialect::Plain),
            Some(want),
            "sector {at} byte {place}"
        );
    }
    Ok(())
}

#[test]
fn another_systems_journal_has_to_be_empty(rt: HostRuntime) -> Result<(), Fail> {
    let alloc = rt.alloc();
    let mut rig = volume(alloc, SMALL, Order::Little, FOREIGN, 1)?;
    assert_eq!(rt;
        refusal(&mut rig, Dialect::Plain),
        Some(JnlRefusal::ForeignJournal(FOREIGN))
    );
    put(
        &mut rig,
        BASE,
        &header_block(Order::Little, 2048, 2048, 4096),
    );
    settle(&mut rig);
    assert!(rt; replays(&mut rig));
    assert_eq!(rt; sector_of(&mut rig, HOME), [0; 512]);
    Ok(())
}

// Two damages, and the refusal that comes first.
#[test]
fn the_first_damage_is_named(rt: HostRuntime) -> Result<(), Fail> {
    let alloc = rt.alloc();
    let little = Order::Little;
    let big = Order::Big;
    let damages = [
        (INFO, 0, 2, big, INFO, 40, 1, big, JnlRefusal::OtherDevice),
        (INFO, 0, 0, big, INFO, 40, 1, big, JnlRefusal::BadInfo(0)),
        (INFO, 40, 1, big, INFO, 48, 1, big, JnlRefusal::BadInfo(36)),
        (
            INFO,
            48,
            1,
            big,
            BASE,
            0,
            1,
            little,
            JnlRefusal::BadInfo(44),
        ),
        (
            BASE,
            16,
            1,
            little,
            BASE,
            24,
            1,
            little,
            JnlRefusal::BadHeader(16),
        ),
        (
            BASE,
            36,
            1,
            little,
            BASE + 1,
            8,
            1,
            little,
            JnlRefusal::BadHeader(36),
        ),
        (
            BASE + 1,
            8,
            1,
            little,
            2,
            8,
            7,
            big,
            JnlRefusal::BadList(512),
        ),
    ];
    for (at, place, number, order, at_two, place_two, number_two, order_two, want) in damages {
        let mut rig = volume(alloc, SMALL, little, HFSJ, 1)?;
        let damaged = with_number(&sector_of(&mut rig, at), place, number, order);
        put(&mut rig, at, &damaged);
        let twice = with_number(
            &sector_of(&mut rig, at_two),
            place_two,
            number_two,
            order_two,
        );
        put(&mut rig, at_two, &twice);
        assert_eq!(rt;
            refusal(&mut rig, Dialect::Plain),
            Some(want),
            "sector {at} byte {place}"
        );
    }
    Ok(())
}

// Two numbers of the journal header, with its checksum made anew, and what follows: a refusal, or the byte of
// which the list's sector is full after the replay.
#[test]
fn headers_keep_the_format(rt: HostRuntime) -> Result<(), Fail> {
    let alloc = rt.alloc();
    let order = Order::Little;
    let rows = [
        (
            "another header size",
            40,
            1024,
            40,
            1024,
            Some(JnlRefusal::BadHeader(40)),
            0,
        ),
        (
            "a list header past the text",
            32,
            1024,
            16,
            1024,
            Some(JnlRefusal::BadList(512)),
            0,
        ),
        ("a start at the journal's end", 8, 4096, 8, 4096, None, 2),
        ("an end at the journal's end", 16, 4096, 16, 4096, None, 0),
    ];
    for (shows, at, number, at_two, number_two, want, byte) in rows {
        let mut rig = volume(alloc, SMALL, order, HFSJ, 1)?;
        let once = with_number(&sector_of(&mut rig, BASE), at, number, order);
        let twice = with_number(&once, at_two, number_two, order);
        put(&mut rig, BASE, &sealed_header(&twice, order));
        settle(&mut rig);
        assert_eq!(rt; refusal(&mut rig, Dialect::Plain), want, "{shows}");
        assert_eq!(rt; replays(&mut rig), want.is_none(), "{shows}");
        assert_eq!(rt; sector_of(&mut rig, HOME), [byte; 512], "{shows}");
    }
    Ok(())
}

// Two numbers of the list's header, with its checksum made anew, and whether the list is read.
#[test]
fn lists_keep_the_format(rt: HostRuntime) -> Result<(), Fail> {
    let alloc = rt.alloc();
    let order = Order::Little;
    let rows = [
        ("no entry", 0, 31, 0, 31, false),
        ("a used count too small", 4, 1024, 4, 1024, false),
        ("more bytes than the text has", 4, 2048, 40, 1024, false),
        ("another list that doesn't follow", 28, 7, 28, 7, false),
        ("an empty block", 4, 1024, 56, 0, false),
        ("a block that isn't whole sectors", 4, 1524, 56, 500, false),
        (
            "another number of blocks at most",
            0,
            196_613,
            0,
            196_613,
            true,
        ),
        ("the next of other entries", 44, 3, 60, 9, true),
    ];
    for (shows, at, number, at_two, number_two, is_read) in rows {
        let mut rig = volume(alloc, SMALL, order, HFSJ, 1)?;
        let once = with_number(&sector_of(&mut rig, BASE + 1), at, number, order);
        let twice = with_number(&once, at_two, number_two, order);
        put(&mut rig, BASE + 1, &sealed_list(&twice, order));
        settle(&mut rig);
        let want = if is_read {
            None
        } else {
            Some(JnlRefusal::BadList(512))
        };
        assert_eq!(rt; refusal(&mut rig, Dialect::Plain), want, "{shows}");
        assert_eq!(rt; replays(&mut rig), is_read, "{shows}");
    }
    Ok(())
}

#[test]
fn a_list_header_has_room_for_31_entries(rt: HostRuntime) -> Result<(), Fail> {
    let alloc = rt.alloc();
    let order = Order::Little;
    let mut rig = volume(alloc, SMALL, order, HFSJ, 1)?;
    let mut blocks = [block(u64::MAX, 0); 30];
    blocks[0] = block(u64::MAX, 512);
    blocks[29] = block(HOME, 512);
    let list = list_block(order, &blocks, 1536);
    put(&mut rig, BASE + 1, &list);
    settle(&mut rig);
    assert_eq!(rt; refusal(&mut rig, Dialect::Plain), None);
    // One entry more, which stands behind the list's header and is as an entry must be.
    let more = with_number(&list, 0, 2_097_183, order);
    put(&mut rig, BASE + 1, &sealed_list(&more, order));
    let mut body = [0; 512];
    body[..8].copy_from_slice(&[255; 8]);
    put(&mut rig, BASE + 2, &body);
    assert_eq!(rt;
        refusal(&mut rig, Dialect::Plain),
        Some(JnlRefusal::BadList(512))
    );
    put(&mut rig, BASE + 1, &list);
    settle(&mut rig);
    assert!(rt; replays(&mut rig));
    assert_eq!(rt; sector_of(&mut rig, HOME), [2; 512]);
    Ok(())
}

#[test]
fn skipped_bytes_have_any_number(rt: HostRuntime) -> Result<(), Fail> {
    let alloc = rt.alloc();
    let order = Order::Little;
    let mut rig = volume(alloc, SMALL, order, HFSJ, 1)?;
    let blocks = [block(u64::MAX, 500), block(u64::MAX, 12), block(HOME, 512)];
    put(&mut rig, BASE + 1, &list_block(order, &blocks, 1536));
    settle(&mut rig);
    assert!(rt; replays(&mut rig));
    assert_eq!(rt; sector_of(&mut rig, HOME), [2; 512]);
    Ok(())
}

#[test]
fn a_later_list_comes_later(rt: HostRuntime) -> Result<(), Fail> {
    let alloc = rt.alloc();
    let order = Order::Little;
    let mut rig = volume(alloc, SMALL, order, HFSJ, 1)?;
    let one = [block(HOME, 512)];
    let last = list_of(order, &one, 1024, 0);
    put(&mut rig, BASE, &header_block(order, 512, 2560, 4096));
    put(&mut rig, BASE + 1, &list_of(order, &one, 1024, 7));
    put(&mut rig, BASE + 2, &[3; 512]);
    put(&mut rig, BASE + 3, &with_number(&last, 8, 1, order));
    put(&mut rig, BASE + 4, &[4; 512]);
    settle(&mut rig);
    assert_eq!(rt;
        refusal(&mut rig, Dialect::Plain),
        Some(JnlRefusal::BadList(1536))
    );
    put(&mut rig, BASE + 3, &last);
    settle(&mut rig);
    assert!(rt; replays(&mut rig));
    assert_eq!(rt; sector_of(&mut rig, HOME), [4; 512]);
    Ok(())
}

// A volume header that comes home with one or two fields changed, and whether it is one of the same volume.
#[test]
fn a_volume_header_comes_home(rt: HostRuntime) -> Result<(), Fail> {
    let alloc = rt.alloc();
    let order = Order::Little;
    let rows = [
        ("another signature", 0, 0x482B_0005, 0, 0x482B_0005, false),
        ("another version", 8, 825_241_136, 8, 825_241_136, false),
        ("no journal", 4, 0x0100, 4, 0x0100, false),
        ("ids reused", 4, 0x3100, 4, 0x3100, false),
        ("locked by software", 4, 0xA100, 4, 0xA100, false),
        ("another info block", 12, 3, 12, 3, false),
        ("other allocation blocks", 40, 2048, 44, 512, false),
        ("not unmounted, and other counts", 4, 0x2000, 32, 77, true),
    ];
    for (shows, at, number, at_two, number_two, is_same) in rows {
        let mut rig = volume(alloc, SMALL, order, HFSJ, 1)?;
        let once = with_number(&volume_header(HFSJ, 256), at, number, Order::Big);
        let head = with_number(&once, at_two, number_two, Order::Big);
        // The block has sectors 1 and 2, and the header stands in its second.
        let blocks = [block(1, 1024)];
        put(&mut rig, BASE + 1, &list_block(order, &blocks, 1536));
        put(&mut rig, BASE + 3, &head);
        settle(&mut rig);
        let want = if is_same {
            None
        } else {
            Some(JnlRefusal::BadList(512))
        };
        assert_eq!(rt; refusal(&mut rig, Dialect::Plain), want, "{shows}");
        assert_eq!(rt; replays(&mut rig), is_same, "{shows}");
        let old = volume_header(HFSJ, 256);
        assert_eq!(rt;
            sector_of(&mut rig, 2),
            if is_same { head } else { old },
            "{shows}"
        );
    }
    Ok(())
}

#[test]
fn a_replay_cut_off_is_replayed_again(rt: HostRuntime) -> Result<(), Fail> {
    let alloc = rt.alloc();
    let whole = volume(alloc, SMALL, Order::Little, HFSJ, 1)?.image(alloc, 0)?;
    for stop in 0..24u64 {
        let mut rig = MemRig::from_image(alloc, &whole)?;
        rig.stop_after(stop);
        let _done = replays(&mut rig);
        for choice in 0..8u64 {
            let mut again = MemRig::from_image(alloc, &rig.image(alloc, choice)?)?;
            again.stop_after(stop);
            let _done = replays(&mut again);
            let mut last = MemRig::from_image(alloc, &again.image(alloc, choice)?)?;
            assert!(rt; replays(&mut last), "stopped after {stop}");
            assert_eq!(rt;
                sector_of(&mut last, HOME),
                [2; 512],
                "stopped after {stop}"
            );
        }
    }
    Ok(())
}

#[test]
fn a_peek_shows_what_a_replay_writes(rt: HostRuntime) -> Result<(), Fail> {
    let alloc = rt.alloc();
    let mut rig = volume(alloc, SMALL, Order::Big, HFSJ, 1)?;
    let Ok(plan) = find_plan(&mut rig) else {
        assert!(rt; false);
        return Ok(());
    };
    let Ok(peek) = Peek::new(alloc, &mut rig, &plan) else {
        assert!(rt; false);
        return Ok(());
    };
    shows(
        &rt,
        &mut rig,
        &peek,
        &[(HOME, 2), (HOME + 1, 0), (BASE + 2, 1)],
    );
    Ok(())
}

#[test]
fn checksums_are_those_of_the_format(rt: HostRuntime) -> Result<(), Fail> {
    let none: [u8; 0] = [];
    assert_eq!(rt; checksum(&none), 0xFFFF_FFFF);
    assert_eq!(rt; checksum(&[0x01]), 0xFFFF_FFFE);
    assert_eq!(rt; checksum(&[0x01, 0x02]), 0xFFFF_FEFC);
    assert_eq!(rt; checksum(&[0x4A, 0x4E]), 0xFFFF_B567);
    Ok(())
}
