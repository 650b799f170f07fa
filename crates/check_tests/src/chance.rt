// Sectors of a volume overwritten by chance: what a check says is told beforehand, by what each sector is for.
use crate::volumes::{SECTORS, checked, made, read_bytes, says_clean, write_sector};
use hx_bytes::{OutOfMemory, Sector};
use sector_kit::Sectors;
use std::alloc::Global;
use std::process::Abort;
use std::test::Fail;

/// Numbers that follow from a seed (Knuth's multiplier).
#[derive(Clone, Copy)]
struct Chance {
    state: u64,
}

impl Chance {
    fn next(&mut self) -> u32 {
        self.state = self
            .state
            .wrapping_mul(6_364_136_223_846_793_005)
            .wrapping_add(1_442_695_040_888_963_407);
        (self.state / 4_294_967_296) as u32
    }

    /// A number below another, which isn't 0.
    fn below(&mut self, limit: u32) -> u32 {
        self.next().checked_rem(limit).unwrap_or(0)
    }

    fn sector(&mut self) -> Sector {
        let mut sector = [0; 512];
        for byte in &mut sector {
            *byte = (self.next() / 16_777_216) as u8;
        }
        sector
    }
}

/// The sectors that a check of the blank volume with blocks of 4,096 bytes looks at, as stretches: the header, the bitmap, the info block, the
/// header nodes of the three trees, the records of the catalog's leaf and their places, and the alternate header.
const LOOKED_AT: [(u32, u32); 9] = [
    (2, 1),
    (8, 8),
    (16, 1),
    (2_072, 8),
    (2_200, 8),
    (2_328, 8),
    (2_336, 2),
    (2_343, 1),
    (16_382, 1),
];

fn is_looked_at(at: u32) -> bool {
    for (first, count) in LOOKED_AT {
        if first <= at && at - first < count {
            return true;
        }
    }
    false
}

/// One of the sectors that a check looks at.
fn one_looked_at(chance: &mut Chance) -> u32 {
    let k = chance.below(9) as usize;
    match LOOKED_AT.get(k) {
        Some((first, count)) => first.wrapping_add(chance.below(*count)),
        None => 2,
    }
}

/// Overwrites a sector, checks the volume, and puts back what stood there.
fn survives(
    alloc: Global,
    view: &mut Sectors,
    at: u32,
    chance: &mut Chance,
) -> Result<bool, OutOfMemory> {
    let was = read_bytes(view, at);
    write_sector(view, at, &chance.sector());
    let verdict = checked(alloc, view)?;
    write_sector(view, at, &was);
    Ok(says_clean(&verdict))
}

/// Overwrites so many sectors, one at a time.
fn overwrite(rt: &impl Abort, alloc: Global, seed: u64, rounds: u32) -> Result<(), Fail> {
    let mut view = made(alloc, 4_096, 2_048)?;
    let mut chance = Chance { state: seed };
    for _ in 0..rounds {
        let anywhere = chance.below(SECTORS as u32);
        assert_eq!(rt;
            survives(alloc, &mut view, anywhere, &mut chance)?,
            !is_looked_at(anywhere),
            "{anywhere}"
        );
        let there = one_looked_at(&mut chance);
        assert_eq!(rt;
            survives(alloc, &mut view, there, &mut chance)?,
            false,
            "{there}"
        );
    }
    Ok(())
}

#[test]
fn sectors_overwritten_by_chance_are_found_where_they_matter(rt: HostRuntime) -> Result<(), Fail> {
    overwrite(&rt, rt.alloc(), 7, 40)
}

#[test]
fn other_sectors_overwritten_by_chance(rt: HostRuntime) -> Result<(), Fail> {
    overwrite(&rt, rt.alloc(), 11, 40)
}
