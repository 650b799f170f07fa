// The text of a transaction, byte for byte, as its commit leaves it in the ring.
use crate::mounted::Mounted;
use crate::volumes::{Form, disk_of, volume_of};
use hx_bytes::{Order, OutOfMemory, Sector};
use mem_disk::MemImage;
use std::alloc::Global;
use std::test::Fail;
use test_kit::BASE;

const LITTLE: Form = Form {
    order: Order::Little,
    blhdr: 512,
};

const BIG: Form = Form {
    order: Order::Big,
    blhdr: 512,
};

/// What a commit leaves: of so many puts, the k-th of which fills sector 256 + k with the byte k.
fn committed(alloc: Global, form: Form, puts: u8) -> Result<MemImage, OutOfMemory> {
    let mut disk = disk_of(alloc, &volume_of(alloc, form)?)?;
    if let Some(mut store) = Mounted::mount(alloc, &mut disk)? {
        store.begin(alloc, u64::from(puts))?;
        for k in 0..puts {
            store.put(&mut disk, 256 + u64::from(k), k);
        }
        store.keep();
        let _committed = store.commit(&mut disk);
    }
    disk.rig.image(alloc, 1)
}

/// Whether a sector of the text, counted from its first, has these bytes.
fn stands(image: &MemImage, at: u64, wanted: &Sector) -> bool {
    match image
        .sectors
        .get(BASE.saturating_add(1).saturating_add(at) as usize)
    {
        Some(sector) => sector == wanted,
        None => false,
    }
}

/// A list's header of one sector: its first twelve bytes, the next of its first entry, and an entry each for so many sectors.
#[derive(Clone, Copy)]
struct Header {
    order: Order,
    front: [u8; 12],
    next: u8,
    first: u8,
    entries: u8,
}

fn bytes_of(header: &Header) -> Sector {
    let mut sector = [0; 512];
    sector[..12].copy_from_slice(&header.front);
    match header.order {
        Order::Big => sector[31] = header.next,
        Order::Little => sector[28] = header.next,
    }
    for k in 0..header.entries {
        put_entry(
            &mut sector,
            header.order,
            usize::from(k),
            header.first.saturating_add(k),
        );
    }
    sector
}

// An entry for sector 256 + `low`, of 512 bytes: bnum has eight bytes, bsize four and next four.
fn put_entry(sector: &mut Sector, order: Order, k: usize, low: u8) {
    if k < 30 {
        let entry = &mut sector[32 + 16 * k..48 + 16 * k];
        match order {
            Order::Big => {
                entry[6] = 1;
                entry[7] = low;
                entry[10] = 2;
            }
            Order::Little => {
                entry[0] = low;
                entry[1] = 1;
                entry[9] = 2;
            }
        }
    }
}

/// Of a commit of so many puts, what a sector of its text has.
#[derive(Clone, Copy)]
struct Row {
    form: Form,
    puts: u8,
    at: u64,
    header: Header,
}

fn has_header(alloc: Global, row: &Row) -> Result<bool, OutOfMemory> {
    let image = committed(alloc, row.form, row.puts)?;
    Ok(stands(&image, row.at, &bytes_of(&row.header)))
}

// The bytes of a header stand in TN1150's order of fields: max_blocks, num_blocks, bytes_used and checksum. A full list says by
// entry 0 that another follows where one does.
const ROWS: [Row; 8] = [
    Row {
        form: LITTLE,
        puts: 1,
        at: 0,
        header: Header {
            order: Order::Little,
            front: [0x1f, 0, 2, 0, 0, 4, 0, 0, 0xda, 0xde, 0xe4, 0xe0],
            next: 0,
            first: 0,
            entries: 1,
        },
    },
    Row {
        form: LITTLE,
        puts: 30,
        at: 0,
        header: Header {
            order: Order::Little,
            front: [0x1f, 0, 0x1f, 0, 0, 0x3e, 0, 0, 0x83, 0xc1, 0xa2, 0xe0],
            next: 0,
            first: 0,
            entries: 30,
        },
    },
    Row {
        form: LITTLE,
        puts: 31,
        at: 0,
        header: Header {
            order: Order::Little,
            front: [0x1f, 0, 0x1f, 0, 0, 0x3e, 0, 0, 0x82, 0xc0, 0xa3, 0xe1],
            next: 1,
            first: 0,
            entries: 30,
        },
    },
    Row {
        form: LITTLE,
        puts: 31,
        at: 31,
        header: Header {
            order: Order::Little,
            front: [0x1f, 0, 2, 0, 0, 4, 0, 0, 0xda, 0xde, 0xe4, 0xe0],
            next: 0,
            first: 30,
            entries: 1,
        },
    },
    Row {
        form: BIG,
        puts: 1,
        at: 0,
        header: Header {
            order: Order::Big,
            front: [0, 0x1f, 0, 2, 0, 0, 4, 0, 0xff, 0xe0, 0xfb, 0xda],
            next: 0,
            first: 0,
            entries: 1,
        },
    },
    Row {
        form: BIG,
        puts: 30,
        at: 0,
        header: Header {
            order: Order::Big,
            front: [0, 0x1f, 0, 0x1f, 0, 0, 0x3e, 0, 0xff, 0xe0, 0xbd, 0x83],
            next: 0,
            first: 0,
            entries: 30,
        },
    },
    Row {
        form: BIG,
        puts: 31,
        at: 0,
        header: Header {
            order: Order::Big,
            front: [0, 0x1f, 0, 0x1f, 0, 0, 0x3e, 0, 0xff, 0xe0, 0xbd, 0x82],
            next: 1,
            first: 0,
            entries: 30,
        },
    },
    // A header of two sectors has 30 entries in its first one.
    Row {
        form: Form {
            order: Order::Big,
            blhdr: 1_024,
        },
        puts: 31,
        at: 0,
        header: Header {
            order: Order::Big,
            front: [0, 0x3f, 0, 0x20, 0, 0, 0x42, 0, 0xff, 0xc0, 0x01, 0x5e],
            next: 0,
            first: 0,
            entries: 30,
        },
    },
];

#[test]
fn lists_have_these_headers(rt: HostRuntime) -> Result<(), Fail> {
    for (k, row) in ROWS.iter().enumerate() {
        assert!(rt; has_header(rt.alloc(), row)?, "row {k}");
    }
    Ok(())
}

// Where the header has two sectors, the second begins with the entry of sector 286, 0x011e.
#[test]
fn entries_go_on_in_the_next_sector(rt: HostRuntime) -> Result<(), Fail> {
    let form = Form {
        order: Order::Big,
        blhdr: 1_024,
    };
    let image = committed(rt.alloc(), form, 31)?;
    let mut second = [0; 512];
    second[..16].copy_from_slice(&[0, 0, 0, 0, 0, 0, 1, 0x1e, 0, 0, 2, 0, 0, 0, 0, 0]);
    assert!(rt; stands(&image, 1, &second));
    Ok(())
}

// Behind each header stand the bytes of its puts.
#[test]
fn bytes_stand_behind_their_header(rt: HostRuntime) -> Result<(), Fail> {
    for form in [LITTLE, BIG] {
        let image = committed(rt.alloc(), form, 31)?;
        for (at, byte) in [(1, 0), (2, 1), (30, 29), (32, 30)] {
            assert!(rt; stands(&image, at, &[byte; 512]), "sector {at}");
        }
    }
    Ok(())
}
