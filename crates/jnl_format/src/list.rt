//! Block lists: the head of one, and its entries.
ghost use Rattle.std.specs.Prelude.{◌≡◌, ◌↔◌, IsTrue, ◌&&◌};
ghost use Rattle.jnl_format.specs.List.{list_head_of, list_sum, is_list_head, list_read, entry_at, entry_bytes, list_spelled, list_bytes, max_blocks};

use crate::structures::{Entry, ListHead};
use crate::sums::checksum;
use hx_bytes::{Order, read_o16, read_o32, read_o64, write_be32, write_o16, write_o32, write_o64};

/// Reads the head of a block list from its first 32 bytes. There is none where the checksum or the number of
/// entries breaks the format.
pub fn read_list(head: &[u8; 32], order: Order, blhdr: u32) -> Option<ListHead>
    ensures { result ≡ list_read order blhdr head.now }
{
    if !is_head(head, order, blhdr) {
        return None;
    }
    Some(ListHead {
        entries: read_o16(head, 2, order),
        used: read_o32(head, 4, order),
        last: read_o32(head, 28, order) == 0,
    })
}

fn is_head(head: &[u8; 32], order: Order, blhdr: u32) -> bool
    ensures { result ≡ is_list_head order blhdr head.now }
{
    let entries = u32::from(read_o16(head, 2, order));
    read_o32(head, 8, order) == sum_of_list(head) && 1 <= entries && 16 + 16 * entries <= blhdr
}

fn sum_of_list(head: &[u8; 32]) -> u32
    ensures { result ≡ list_sum head.now }
{
    let mut blank = *head;
    write_be32(&mut blank, 8, 0);
    checksum(&blank)
}

/// Reads an entry of a block list.
pub fn read_entry(bytes: &[u8; 16], order: Order) -> Entry
    ensures { result ≡ entry_at order bytes.now 0 }
{
    Entry {
        bnum: read_o64(bytes, 0, order),
        bsize: read_o32(bytes, 8, order),
        next: read_o32(bytes, 12, order),
    }
}

/// Writes the first 32 bytes of a block list whose header fills `blhdr` bytes: its head, and entry 0.
pub fn write_list(head: &ListHead, first: &Entry, order: Order, blhdr: u32, into: &mut [u8; 32])
    requires { IsTrue head.now.last ↔ (first.now.next ≡ 0) }
    ensures { into.new ≡ list_bytes head.now first.now order blhdr }
{
    // The checksum is taken with its own field zero.
    write_head(head, first, 0, order, blhdr, into);
    let sum = checksum(into);
    write_head(head, first, sum, order, blhdr, into);
}

fn write_head(
    head: &ListHead,
    first: &Entry,
    sum: u32,
    order: Order,
    blhdr: u32,
    into: &mut [u8; 32],
)
    ensures { into.new ≡ list_spelled sum head.now first.now order blhdr }
{
    write_o16(into, 0, blocks_at_most(blhdr), order);
    write_o16(into, 2, head.entries, order);
    write_o32(into, 4, head.used, order);
    write_o32(into, 8, sum, order);
    write_o32(into, 12, 0, order);
    write_o64(into, 16, first.bnum, order);
    write_o32(into, 24, first.bsize, order);
    write_o32(into, 28, first.next, order);
}

fn blocks_at_most(blhdr: u32) -> u16
    ensures { result ≡ max_blocks blhdr }
{
    (blhdr / 16).saturating_sub(1).min(65535) as u16
}

/// Writes an entry of a block list.
pub fn write_entry(entry: &Entry, order: Order, into: &mut [u8; 16])
    ensures { into.new ≡ entry_bytes order entry.now }
{
    write_o64(into, 0, entry.bnum, order);
    write_o32(into, 8, entry.bsize, order);
    write_o32(into, 12, entry.next, order);
}
