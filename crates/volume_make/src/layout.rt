//! Where the parts of a volume lie.
ghost use Rattle.std.specs.Prelude.{◌≡◌, ◌<◌, ◌≤◌, ◌+◌, ◌-◌, ◌*◌, ◌/◌, ◌^◌, [], None};
ghost use Rattle.volume_make.specs.Layout.{CanBe, blocks_for, behind, end_of, last_start, layout_of, free_of};

use hx_bytes::Extent;

/// The parts of a volume that is made, each a run of blocks: the reserved front, then the parts from the bitmap to the
/// catalog one behind the other, and the last blocks.
#[derive(Clone, Copy, Debug, PartialEq, Eq)]
pub struct Layout {
    /// The number of the disk's sectors.
    pub sectors: u64,
    /// The bytes of a block: a power of two from 512 to 65,536.
    pub block: u32,
    /// The number of blocks. Sectors behind the last whole block belong to none.
    pub total: u32,
    /// The allocation file. It begins behind the blocks that hold any of the first 1,536 bytes.
    pub bitmap: Extent,
    /// The journal info block.
    pub info: Extent,
    /// The journal, its header in the first sector.
    pub journal: Extent,
    /// The extents overflow file.
    pub extents: Extent,
    /// The attributes file.
    pub attributes: Extent,
    /// The catalog file.
    pub catalog: Extent,
    /// The blocks that hold any of the disk's last 1,024 bytes: two, one or none.
    pub last: Extent,
}

/// The first 1,536 bytes: the boot sectors and the volume header.
const FRONT: u32 = 1_536;
/// The sectors of the alternate header and of the reserved space at the end.
const END: u64 = 2;
/// The bytes of a tree of sixteen nodes.
const TREE: u32 = 65_536;
/// The bytes of the catalog's 64 nodes.
const CATALOG: u32 = 262_144;

/// Where the parts lie on a volume of so many sectors, with blocks of so many bytes and a journal of so many sectors.
#[tactic(auto, unfolding(crate::specs::Layout::layout_of))]
pub fn layout_of(sectors: u64, block: u32, journal: u64) -> Layout
    requires { CanBe sectors block journal }
    ensures { result ≡ layout_of sectors block journal }
{
    let total = (sectors * 512 / u64::from(block)) as u32;
    let front = blocks_for(FRONT, block);
    let map = blocks_for(total, 8 * block);
    let bitmap = Extent {
        start: front,
        count: map,
    };
    let info = behind(bitmap, 1);
    let journal = behind(info, (journal * 512 / u64::from(block)) as u32);
    let extents = behind(journal, blocks_for(TREE, block));
    let attributes = behind(extents, blocks_for(TREE, block));
    let catalog = behind(attributes, blocks_for(CATALOG, block));
    let start = last_start(((sectors - END) * 512 / u64::from(block)) as u32, total);
    let last = Extent {
        start,
        count: total - start,
    };
    Layout {
        sectors,
        block,
        total,
        bitmap,
        info,
        journal,
        extents,
        attributes,
        catalog,
        last,
    }
}

/// The number of blocks that so many bytes begin.
fn blocks_for(bytes: u32, block: u32) -> u32
    requires some { 1 ≤ block }
    requires fits { bytes + block < 2 ^ 32 }
    ensures { result ≡ blocks_for bytes block }
{
    (bytes + block - 1) / block
}

/// So many blocks behind a run.
fn behind(run: Extent, count: u32) -> Extent
    requires { end_of run < 2 ^ 32 }
    ensures { result ≡ behind run count }
{
    Extent {
        start: run.start + run.count,
        count,
    }
}

/// The first of the last blocks: the block of the alternate header's sector, or the end where that sector is in none.
fn last_start(block: u32, total: u32) -> u32
    ensures value { result ≡ last_start block total }
    ensures below { result ≤ total }
{
    if block < total { block } else { total }
}

impl Layout {
    /// The first free block.
    pub fn first_free(self) -> u32
        requires { end_of self.catalog < 2 ^ 32 }
        ensures { result ≡ end_of self.catalog }
    {
        self.catalog.start + self.catalog.count
    }

    /// The number of free blocks.
    pub fn free(self) -> u32
        requires { end_of self.catalog + self.last.count ≤ self.total }
        ensures { result ≡ free_of self }
    {
        self.total - (self.catalog.start + self.catalog.count) - self.last.count
    }
}
