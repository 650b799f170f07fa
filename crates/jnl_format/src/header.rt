//! The journal header, in the order of the machine that wrote it.
ghost use Rattle.std.specs.Prelude.{◌≡◌, ◌<◌, ◌^◌, ◌++◌, ℕ, drop};
ghost use Rattle.jnl_format.specs.Header.{order_of, header_of, header_sum, header_fault_as, header_read, header_read_as, header_spelled, header_bytes, is_offset, is_blhdr_as, wrapped, IsHeader, IsHeaderAs};
ghost use Rattle.jnl_format.specs.declared.dialect.Dialect.{Dialect};

use crate::dialect::Dialect;
use crate::structures::{Header, JnlRefusal};
use crate::sums::checksum;
use hx_bytes::{Order, Sector, read_o32, read_o64, write_be32, write_o32, write_o64};

const MAGIC: u32 = 0x4A4E_4C78;

const ENDIAN: u32 = 0x1234_5678;

const HEADER_SIZE: u32 = 512;

/// Reads the header of a journal of so many bytes. An offset equal to the size is given as 512. The refusal
/// is `BadHeader` with the offset of the first field that breaks the format.
pub fn read_header(sector: &Sector, size: u64) -> Result<Header, JnlRefusal>
    ensures { result ≡ header_read size sector.now }
{
    read_header_as(sector, size, Dialect::Plain)
}

/// The same in a dialect.
pub fn read_header_as(sector: &Sector, size: u64, dialect: Dialect) -> Result<Header, JnlRefusal>
    ensures { result ≡ header_read_as dialect size sector.now }
{
    match order(sector) {
        None => Err(JnlRefusal::BadHeader(0)),
        Some(order) => match first_header_fault(sector, order, size, dialect) {
            None => Ok(header_fields(sector, order, size)),
            Some(fault) => Err(fault),
        },
    }
}

fn order(sector: &Sector) -> Option<Order>
    ensures { result ≡ order_of sector.now }
{
    if read_o32(sector, 0, Order::Little) == MAGIC {
        return Some(Order::Little);
    }
    if read_o32(sector, 0, Order::Big) == MAGIC {
        return Some(Order::Big);
    }
    None
}

fn first_header_fault(
    sector: &Sector,
    order: Order,
    size: u64,
    dialect: Dialect,
) -> Option<JnlRefusal>
    ensures { result ≡ header_fault_as dialect order size sector.now }
{
    if read_o32(sector, 4, order) != ENDIAN {
        return Some(JnlRefusal::BadHeader(4));
    }
    if !is_buffer_offset(read_o64(sector, 8, order), size) {
        return Some(JnlRefusal::BadHeader(8));
    }
    if !is_buffer_offset(read_o64(sector, 16, order), size) {
        return Some(JnlRefusal::BadHeader(16));
    }
    if read_o64(sector, 24, order) != size {
        return Some(JnlRefusal::BadHeader(24));
    }
    if !is_list_header_size(read_o32(sector, 32, order), dialect) {
        return Some(JnlRefusal::BadHeader(32));
    }
    if read_o32(sector, 36, order) != sum_of_header(sector) {
        return Some(JnlRefusal::BadHeader(36));
    }
    if read_o32(sector, 40, order) != HEADER_SIZE {
        return Some(JnlRefusal::BadHeader(40));
    }
    None
}

fn is_buffer_offset(at: u64, size: u64) -> bool
    ensures { result ≡ is_offset size at }
{
    at % 512 == 0 && 512 <= at && at <= size
}

fn is_list_header_size(blhdr: u32, dialect: Dialect) -> bool
    ensures { result ≡ is_blhdr_as dialect blhdr }
{
    let most = dialect.most_blhdr();
    blhdr % 512 == 0 && 512 <= blhdr && blhdr <= most
}

fn sum_of_header(sector: &Sector) -> u32
    ensures { result ≡ header_sum sector.now }
{
    let mut blank = *sector;
    write_be32(&mut blank, 36, 0);
    checksum(&blank[..44])
}

fn header_fields(sector: &Sector, order: Order, size: u64) -> Header
    ensures { result ≡ header_of order size sector.now }
{
    Header {
        order,
        start: wrapped_offset(read_o64(sector, 8, order), size),
        end: wrapped_offset(read_o64(sector, 16, order), size),
        size: read_o64(sector, 24, order),
        blhdr: read_o32(sector, 32, order),
    }
}

fn wrapped_offset(at: u64, size: u64) -> u64
    ensures { result ≡ wrapped size at }
{
    if at == size { 512 } else { at }
}

/// Writes a header into the first 44 bytes of a sector, and keeps the rest of it.
pub fn write_header(head: &Header, into: &mut Sector)
    ensures bytes { into.new ≡ header_bytes head.now ++ drop 44 into.old }
    ensures read_back { (size : ℕ) → size < 2 ^ 64 → IsHeader size head.now → header_read size into.new ≡ Ok head.now }
    ensures read_back_as { (dialect : Dialect) (size : ℕ) → size < 2 ^ 64 → IsHeaderAs dialect size head.now → header_read_as dialect size into.new ≡ Ok head.now }
{
    // The checksum is taken with its own field zero.
    write_fields(head, 0, into);
    let sum = checksum(&into[..44]);
    write_fields(head, sum, into);
}

fn write_fields(head: &Header, sum: u32, into: &mut Sector)
    ensures { into.new ≡ header_spelled sum head.now ++ drop 44 into.old }
{
    write_o32(into, 0, MAGIC, head.order);
    write_o32(into, 4, ENDIAN, head.order);
    write_o64(into, 8, head.start, head.order);
    write_o64(into, 16, head.end, head.order);
    write_o64(into, 24, head.size, head.order);
    write_o32(into, 32, head.blhdr, head.order);
    write_o32(into, 36, sum, head.order);
    write_o32(into, 40, HEADER_SIZE, head.order);
}
