// A full journal, made by the writers of its format.
ghost use Rattle.std.specs.Prelude.{◌≤◌};

use hx_bytes::{Order, Sector};
use jnl_format::{Entry, Header, ListHead, write_entry, write_header, write_list};
use mem_disk::MemRig;
use sector_disk::SectorDisk;
use test_kit::{BASE, INFO, info_block, put, volume_header};

const HEADER: u64 = 2;

// The version `HFSJ`.
const JOURNALING: u32 = 0x4846_534A;

const LIST_SECTORS: u64 = 8;

const LIST_BYTES: u32 = 4096;

// Entries of 16 bytes behind the head's 16, but for entry 0.
const BLOCKS: u64 = 254;

/// The sectors of a journal's text, and the blocks in it, each of one sector.
#[derive(Clone, Copy)]
pub struct Journal {
    pub text: u64,
    pub blocks: u64,
}

/// The sector into which a block belongs, and its bytes.
pub fn home_of(sectors: u64, block: u64) -> (u64, Sector)
    requires { sectors ≤ 1048576 }
{
    let at = (BASE + sectors).saturating_add(block);
    (at, [(1 + block % 251) as u8; 512])
}

/// Writes a volume with a journal of so many sectors that is full of lists.
pub fn put_journal(rig: &mut MemRig, sectors: u64) -> Journal
    requires least { 1024 ≤ sectors }
    requires most { sectors ≤ 1048576 }
{
    put(
        rig,
        HEADER,
        &volume_header(JOURNALING, (3 + sectors / 4) as u32),
    );
    put(rig, INFO, &info_block(1, sectors * 512));
    let journal = put_lists(rig, sectors);
    let mut head = [0; 512];
    let header = Header {
        order: Order::Little,
        start: 512,
        end: 512u64.saturating_add(journal.text.saturating_mul(512)),
        size: sectors * 512,
        blhdr: LIST_BYTES,
    };
    write_header(&header, &mut head);
    put(rig, BASE, &head);
    let _settled = rig.barrier();
    journal
}

// Lists as large as there is room for, up to one sector before the buffer would be full.
fn put_lists(rig: &mut MemRig, sectors: u64) -> Journal
    requires least { 1024 ≤ sectors }
    requires most { sectors ≤ 1048576 }
{
    let most = sectors - 2;
    let mut text: u64 = 0;
    let mut blocks: u64 = 0;
    while text < most && LIST_SECTORS < most - text {
        let count = BLOCKS.min(most - text - LIST_SECTORS);
        put_list(rig, sectors, BASE + 1 + text, blocks, count);
        text += LIST_SECTORS + count;
        blocks += count;
    }
    Journal { text, blocks }
}

// A list with so many blocks, the first of them with this number.
fn put_list(rig: &mut MemRig, sectors: u64, at: u64, first: u64, count: u64)
    requires most { sectors ≤ 1048576 }
    requires at { at ≤ 2097152 }
    requires first { first ≤ 1048576 }
    requires some { 1 ≤ count }
    requires few { count ≤ 254 }
{
    let bytes = list_header(sectors, first, count);
    for k in 0..8usize {
        let mut sector = [0; 512];
        sector.copy_from_slice(&bytes[512 * k..512 * k + 512]);
        put(rig, at + k as u64, &sector);
    }
    for k in 0..count {
        let (_, body) = home_of(sectors, first + k);
        put(rig, at + LIST_SECTORS + k, &body);
    }
}

// The header of that list.
fn list_header(sectors: u64, first: u64, count: u64) -> [u8; 4096]
    requires most { sectors ≤ 1048576 }
    requires first { first ≤ 1048576 }
    requires some { 1 ≤ count }
    requires few { count ≤ 254 }
{
    let mut bytes = [0; 4096];
    let none = Entry {
        bnum: 0,
        bsize: 0,
        next: 0,
    };
    let head = ListHead {
        entries: count as u16 + 1,
        used: LIST_BYTES + 512 * count as u32,
        last: true,
    };
    let mut front = [0; 32];
    write_list(&head, &none, Order::Little, LIST_BYTES, &mut front);
    bytes[..32].copy_from_slice(&front);
    for k in 0..count {
        let (bnum, _) = home_of(sectors, first + k);
        let place = 32 + 16 * k as usize;
        put_entry(&mut bytes, place, bnum);
    }
    bytes
}

// The entry of a block of one sector.
fn put_entry(bytes: &mut [u8; 4096], place: usize, bnum: u64) {
    if place <= 4080 {
        let entry = Entry {
            bnum,
            bsize: 512,
            next: 0,
        };
        let mut into = [0; 16];
        write_entry(&entry, Order::Little, &mut into);
        bytes[place..place + 16].copy_from_slice(&into);
    }
}
