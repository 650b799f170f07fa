//! The writes that put a volume on a disk.
ghost use Rattle.std.specs.Prelude.{◌≡◌, ◌≤◌, ◌+◌, IsTrue, OnOk};
ghost use Rattle.sector_disk.specs.Cause.{HasCause};
ghost use Rattle.sector_disk.specs.Disk.{SameDisk, SameSink, HasNothingPending, content};
ghost use Rattle.volume_make.specs.Layout.{IsFitting, sectors_in, first_of, count_of};
ghost use Rattle.volume_make.specs.Texts.{bitmap_sector, piece};
ghost use Rattle.volume_make.specs.Written.{Writes, WritesFront, WritesTrees, WritesHeaders, HasParts};

use crate::layout::Layout;
use crate::texts::{bitmap_sector, header_sector, info_sector, journal_sector, piece};
use crate::trees::Trees;
use hx_bytes::{Extent, Failed};
use sector_disk::{SectorDisk, write_all_then_barrier};

/// The sector of the volume header.
const HEADER: u64 = 2;

/// The sectors of so many blocks.
fn sectors_in(layout: Layout, blocks: u32) -> u64
    ensures { result ≡ sectors_in layout blocks }
{
    u64::from(blocks) * u64::from(layout.block / 512)
}

/// Writes a text and zeros behind it over a part, sector by sector.
fn write_part<D: SectorDisk>(
    disk: &mut D,
    layout: Layout,
    part: Extent,
    text: &[u8],
) -> Result<(), Failed>
    requires { first_of layout part + count_of layout part ≤ (D.state disk.old).sectors }
    ensures written { IsTrue (D.state disk.old).tells → OnOk result (Writes (first_of layout part) (count_of layout part) (piece text.now) (content (D.state disk.old)) (content (D.state disk.new))) }
    ensures same { SameDisk (D.state disk.old) (D.state disk.new) }
    ensures sink { SameSink (D.state disk.old) (D.state disk.new) }
    ensures cause { HasCause (D.state disk.old).faults (D.state disk.new).faults result }
{
    // The last of them has a number, since the disk counts its sectors by one.
    let _sectors = disk.sectors();
    let first = sectors_in(layout, part.start);
    for k in 0..sectors_in(layout, part.count) {
        disk.write(first + k, &piece(text, k))?;
    }
    Ok(())
}

/// Writes the bitmap, sector by sector.
fn write_bitmap<D: SectorDisk>(disk: &mut D, layout: Layout) -> Result<(), Failed>
    requires fitting { IsFitting layout }
    requires inside { first_of layout layout.bitmap + count_of layout layout.bitmap ≤ (D.state disk.old).sectors }
    ensures written { IsTrue (D.state disk.old).tells → OnOk result (Writes (first_of layout layout.bitmap) (count_of layout layout.bitmap) (bitmap_sector layout) (content (D.state disk.old)) (content (D.state disk.new))) }
    ensures same { SameDisk (D.state disk.old) (D.state disk.new) }
    ensures sink { SameSink (D.state disk.old) (D.state disk.new) }
    ensures cause { HasCause (D.state disk.old).faults (D.state disk.new).faults result }
{
    // The last of them has a number, since the disk counts its sectors by one.
    let _sectors = disk.sectors();
    let first = sectors_in(layout, layout.bitmap.start);
    for k in 0..sectors_in(layout, layout.bitmap.count) {
        disk.write(first + k, &bitmap_sector(layout, k))?;
    }
    Ok(())
}

/// Writes the bitmap, the journal info block and the journal.
fn write_front<D: SectorDisk>(disk: &mut D, layout: Layout) -> Result<(), Failed>
    requires fitting { IsFitting layout }
    requires size { (D.state disk.old).sectors ≡ layout.sectors }
    ensures written { IsTrue (D.state disk.old).tells → OnOk result (WritesFront layout (content (D.state disk.old)) (content (D.state disk.new))) }
    ensures same { SameDisk (D.state disk.old) (D.state disk.new) }
    ensures sink { SameSink (D.state disk.old) (D.state disk.new) }
    ensures cause { HasCause (D.state disk.old).faults (D.state disk.new).faults result }
{
    write_bitmap(disk, layout)?;
    write_part(disk, layout, layout.info, &info_sector(layout))?;
    write_part(disk, layout, layout.journal, &journal_sector(layout))
}

/// Writes the extents overflow file, the attributes file and the catalog.
fn write_trees<D: SectorDisk>(disk: &mut D, layout: Layout, trees: &Trees) -> Result<(), Failed>
    requires fitting { IsFitting layout }
    requires size { (D.state disk.old).sectors ≡ layout.sectors }
    ensures written { IsTrue (D.state disk.old).tells → OnOk result (WritesTrees layout trees.now.extents.items trees.now.attributes.items trees.now.catalog.items (content (D.state disk.old)) (content (D.state disk.new))) }
    ensures same { SameDisk (D.state disk.old) (D.state disk.new) }
    ensures sink { SameSink (D.state disk.old) (D.state disk.new) }
    ensures cause { HasCause (D.state disk.old).faults (D.state disk.new).faults result }
{
    write_part(disk, layout, layout.extents, trees.extents.as_slice())?;
    write_part(disk, layout, layout.attributes, trees.attributes.as_slice())?;
    write_part(disk, layout, layout.catalog, trees.catalog.as_slice())
}

/// Writes the alternate header and then the header, each behind a barrier: until the last one came, the header isn't the
/// new volume's.
fn write_headers<D: SectorDisk>(disk: &mut D, layout: Layout) -> Result<(), Failed>
    requires fitting { IsFitting layout }
    requires size { (D.state disk.old).sectors ≡ layout.sectors }
    ensures written { IsTrue (D.state disk.old).tells → OnOk result (WritesHeaders layout (content (D.state disk.old)) (content (D.state disk.new))) }
    ensures settled { IsTrue (D.state disk.old).tells → OnOk result (HasNothingPending (D.state disk.new)) }
    ensures same { SameDisk (D.state disk.old) (D.state disk.new) }
    ensures sink { SameSink (D.state disk.old) (D.state disk.new) }
    ensures cause { HasCause (D.state disk.old).faults (D.state disk.new).faults result }
{
    let header = header_sector(layout);
    write_all_then_barrier(disk, layout.sectors - 2, &[header])?;
    write_all_then_barrier(disk, HEADER, &[header])
}

/// Writes a volume with these trees over a disk, its header last.
pub(crate) fn write_volume<D: SectorDisk>(
    disk: &mut D,
    layout: Layout,
    trees: &Trees,
) -> Result<(), Failed>
    requires fitting { IsFitting layout }
    requires size { (D.state disk.old).sectors ≡ layout.sectors }
    ensures written { IsTrue (D.state disk.old).tells → OnOk result (HasParts layout trees.now.extents.items trees.now.attributes.items trees.now.catalog.items (content (D.state disk.old)) (content (D.state disk.new))) }
    ensures settled { IsTrue (D.state disk.old).tells → OnOk result (HasNothingPending (D.state disk.new)) }
    ensures same { SameDisk (D.state disk.old) (D.state disk.new) }
    ensures sink { SameSink (D.state disk.old) (D.state disk.new) }
    ensures cause { HasCause (D.state disk.old).faults (D.state disk.new).faults result }
{
    write_front(disk, layout)?;
    write_trees(disk, layout, trees)?;
    write_headers(disk, layout)
}
