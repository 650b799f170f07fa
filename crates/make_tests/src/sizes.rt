// Sizes and names: which are refused, and how many blocks the others have.
use crate::volumes::{OLD, formatted, has_bytes, long_name, sector_of, used_disk};
use hx_bytes::Units;
use std::test::Fail;
use volume_make::{FormatFault, Summary, format, format_refusal};

#[test]
fn a_volume_has_its_blocks(rt: HostRuntime) -> Result<(), Fail> {
    let alloc = rt.alloc();
    // Sectors, bytes of a block, sectors of the journal; blocks, and free ones. On 16,385 sectors the last one is in no block of
    // 4,096 bytes, and on 16,386 the alternate header's isn't in one either.
    for (sectors, block, journal, blocks, free) in [
        (16_384, 4_096, 2_048, 2_048, 1_692),
        (16_384, 512, 2_048, 16_384, 13_558),
        (16_384, 1_024, 2_048, 8_192, 6_779),
        (16_384, 65_536, 512, 128, 114),
        (16_385, 512, 512, 16_385, 15_094),
        (16_385, 4_096, 512, 2_048, 1_884),
        (16_386, 4_096, 512, 2_048, 1_885),
        (16_513, 65_536, 512, 129, 115),
    ] {
        let mut rig = used_disk(alloc, sectors)?;
        let made = formatted(alloc, &mut rig, block, journal, "a")?;
        let summary = Summary {
            files: 2,
            folders: 0,
            blocks,
            free,
        };
        assert_eq!(rt; made, Ok(summary));
    }
    Ok(())
}

#[test]
fn a_refused_format_writes_nothing(rt: HostRuntime) -> Result<(), Fail> {
    let alloc = rt.alloc();
    for (sectors, block, journal, name, refusal) in [
        (16_383, 4_096, 2_048, "a", FormatFault::TooSmall(16_383)),
        (16_384, 1_000, 2_048, "a", FormatFault::BadBlockSize(1_000)),
        (16_384, 256, 2_048, "a", FormatFault::BadBlockSize(256)),
        (
            16_384,
            131_072,
            2_048,
            "a",
            FormatFault::BadBlockSize(131_072),
        ),
        (16_384, 4_096, 256, "a", FormatFault::BadJournalSize(256)),
        (16_384, 512, 511, "a", FormatFault::BadJournalSize(511)),
        (16_384, 512, 4_097, "a", FormatFault::BadJournalSize(4_097)),
        (16_384, 4_096, 516, "a", FormatFault::BadJournalSize(516)),
        (16_384, 4_096, 2_048, "", FormatFault::BadName),
    ] {
        let mut rig = used_disk(alloc, sectors)?;
        let calls = rig.calls();
        let made = formatted(alloc, &mut rig, block, journal, name)?;
        assert_eq!(rt; made, Err(refusal));
        assert_eq!(rt; rig.calls(), calls);
        assert_eq!(rt; sector_of(&mut rig, 2), [OLD; 512]);
    }
    Ok(())
}

#[test]
fn great_sizes_are_refused_in_order(rt: HostRuntime) -> Result<(), Fail> {
    let alloc = rt.alloc();
    let name = long_name(alloc, 255)?;
    let longer = long_name(alloc, 256)?;
    let most = 2_147_483_648;
    for (sectors, block, journal, refusal) in [
        (most + 1, 1_000, 0, Some(FormatFault::TooLarge(most + 1))),
        (most, 2_048, 2_048, Some(FormatFault::BadBlockSize(2_048))),
        (
            most,
            4_096,
            65_544,
            Some(FormatFault::BadJournalSize(65_544)),
        ),
        (most, 4_096, 65_536, None),
        (most, 65_536, 65_536, None),
        (1_048_576, 512, 65_536, None),
    ] {
        assert_eq!(rt; format_refusal(sectors, block, journal, &name), refusal);
    }
    assert_eq!(rt;
        format_refusal(most, 4_096, 65_536, &longer),
        Some(FormatFault::BadName)
    );
    assert_eq!(rt;
        format_refusal(most, 4_096, 65_536, &Units::new(alloc)),
        Some(FormatFault::BadName)
    );
    Ok(())
}

#[test]
fn the_longest_name_has_room(rt: HostRuntime) -> Result<(), Fail> {
    let alloc = rt.alloc();
    let name = long_name(alloc, 255)?;
    let mut rig = used_disk(alloc, 16_384)?;
    let made = format(alloc, &mut rig, 4_096, 2_048, &name);
    assert_eq!(rt; made.is_ok(), true);
    // The root's key is 516 bytes long, and the name has 255 units.
    let key = [2, 4, 0, 0, 0, 1, 0, 255];
    assert_eq!(rt; has_bytes(&mut rig, 2_336, 14, &key), true);
    Ok(())
}

#[test]
fn a_disk_that_fails_is_told(rt: HostRuntime) -> Result<(), Fail> {
    let alloc = rt.alloc();
    for late in [0, 1, 700, 2_827] {
        let mut rig = used_disk(alloc, 16_384)?;
        let call = rig.calls().saturating_add(late);
        rig.fail_on(alloc, call)?;
        let made = formatted(alloc, &mut rig, 4_096, 2_048, "a")?;
        assert_eq!(rt; made, Err(FormatFault::Disk));
        // The header is the last that is written.
        assert_eq!(rt; sector_of(&mut rig, 2), [OLD; 512]);
    }
    Ok(())
}
