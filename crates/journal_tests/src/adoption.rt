// Images whose journal later systems wrote, adopted or refused.
use crate::trying::{HOME, settle};
use crate::wide::{BLHDR, volume};
use hx_bytes::Order;
use image_adopt::{AdoptRefusal, Adopted, Made, adopt_image};
use jnl_format::JnlRefusal;
use mem_disk::MemRig;
use std::test::Fail;
use test_kit::{BASE, INFO, put, sector_of, with_number};
use volume_header::HeaderRefusal;

// What an adoption answers, where the disk doesn't fail.
fn adopts(rig: &mut MemRig) -> Option<Result<Adopted, AdoptRefusal>> {
    match adopt_image(rig) {
        Ok(answer) => Some(answer),
        Err(_) => None,
    }
}

// Whether a device call from this one on wrote.
fn has_written_since(rig: &MemRig, first: u64) -> bool {
    (first..rig.calls()).any(|call| rig.wrote(call))
}

#[test]
fn an_image_is_adopted_once(rt: HostRuntime) -> Result<(), Fail> {
    let mut rig = volume(rt.alloc(), Order::Little)?;
    let made = Made {
        was: BLHDR,
        now: 4096,
        live: true,
    };
    assert_eq!(rt; adopts(&mut rig), Some(Ok(Adopted::Anew(made))));
    assert_eq!(rt; sector_of(&mut rig, HOME), [2; 512]);
    let first = rig.calls();
    assert_eq!(rt; adopts(&mut rig), Some(Ok(Adopted::Already)));
    assert!(rt; !has_written_since(&rig, first));
    Ok(())
}

// What makes a volume one that isn't adopted: a field of a sector, and its number.
#[test]
fn what_is_refused_is_named_and_not_written(rt: HostRuntime) -> Result<(), Fail> {
    let rows = [
        (
            2,
            0,
            0x482B_0004,
            AdoptRefusal::Header(HeaderRefusal::NotHfsx {
                signature: 0x482B,
                version: 4,
            }),
        ),
        (
            2,
            4,
            0x100,
            AdoptRefusal::Header(HeaderRefusal::NotJournaled),
        ),
        (2, 4, 0xA100, AdoptRefusal::SoftwareLocked),
        (INFO, 0, 2, AdoptRefusal::Journal(JnlRefusal::OtherDevice)),
        (BASE, 4, 0, AdoptRefusal::Journal(JnlRefusal::BadHeader(4))),
        (
            BASE + 1,
            4,
            99_328,
            AdoptRefusal::Journal(JnlRefusal::BadList(512)),
        ),
    ];
    for (at, place, number, why) in rows {
        let mut rig = volume(rt.alloc(), Order::Big)?;
        let changed = with_number(&sector_of(&mut rig, at), place, number, Order::Big);
        put(&mut rig, at, &changed);
        settle(&mut rig);
        let first = rig.calls();
        assert_eq!(rt; adopts(&mut rig), Some(Err(why)));
        assert!(rt; !has_written_since(&rig, first));
    }
    Ok(())
}
