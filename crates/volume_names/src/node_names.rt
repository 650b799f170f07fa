//! The names of files with links in the private folder.
ghost use Rattle.std.specs.Prelude.{◌≡◌, ◌≤◌, ◌++◌, None, IsTrue, IfOk, OnOk, codes, length};
ghost use Rattle.btree_edit.specs.Causes.{HasTroubleCause};
ghost use Rattle.btree_file.specs.Standing.{pairs_in};
ghost use Rattle.btree_file.specs.State.{sectors_of_tree};
ghost use Rattle.hard_links.specs.Numbers.{FindsFree, IsFirstFree, TellsFree};
ghost use Rattle.hfs_volume.specs.Links.{node_name};
ghost use Rattle.hfs_volume.specs.Records.{placed_in, record_at};
ghost use Rattle.volume_base.specs.Frame.{Looked, Serves};
ghost use Rattle.volume_base.specs.Lists.{lists_of};
ghost use Rattle.volume_base.specs.Looking.{IsCatalogOver, ReadsTree};

use btree_edit::Desk;
use btree_file::TreeFile;
use hx_bytes::{OutOfMemory, Trouble, Units};
use itoa::Buffer;
use sector_disk::SectorSpace;
use std::alloc::Global;
use volume_base::{Volume, lookup_record};

/// `iNode`, by which the name of a file with links begins (TN1150, "Hard Links").
const NODE: [u16; 5] = [105, 78, 111, 100, 101];

fn append_digits(name: &mut Units, digits: &[u8]) -> Result<(), OutOfMemory>
    ensures { OnOk result (name.new ≡ name.old ++ digits.now) }
{
    for digit in digits {
        name.push(u16::from(*digit))?;
    }
    Ok(())
}

/// The name of a file with links, under this number.
pub(crate) fn node_name(alloc: Global, number: u32) -> Result<Units, OutOfMemory>
    ensures name { IfOk result (λ name. name ≡ node_name number) }
    ensures some { IfOk result (λ name. 1 ≤ length name) }
    ensures short { IfOk result (λ name. length name ≤ 255) }
{
    let mut digits = Buffer::new();
    let mut name = Units::from_vec(Vec::from_slice(alloc, NODE.as_slice())?);
    append_digits(&mut name, digits.format(number).as_bytes())?;
    Ok(name)
}

/// Whether no file in the private folder has this number.
fn is_free_number<P: SectorSpace>(
    alloc: Global,
    tree: &mut TreeFile,
    desk: &mut Desk,
    space: &mut P,
    private: u32,
    number: u32,
) -> Result<bool, Trouble>
    requires over { IsCatalogOver tree.old desk.old (P.SectorView.space space.old) }
    ensures free { IsTrue (P.SectorView.space space.old).tells → IfOk result (λ is. TellsFree (pairs_in (sectors_of_tree tree.old) (P.SectorView.space space.old).content) private (codes "iNode") number is) }
    ensures over { IsCatalogOver tree.new desk.new (P.SectorView.space space.new) }
    ensures reads { ReadsTree tree.old tree.new (P.SectorView.space space.old) (P.SectorView.space space.new) }
    ensures below { P.SectorView.follows space.old space.new }
    ensures cause { HasTroubleCause (P.SectorView.space space.old).faults (P.SectorView.space space.new).faults result }
{
    let name = node_name(alloc, number)?;
    let found = lookup_record(alloc, tree, desk, space, private, &name)?;
    if let Some(_record) = found {
        return Ok(false);
    }
    Ok(true)
}

/// The first number from one on that no file in the private folder has; none where each number from there on is one's.
fn free_number_from<P: SectorSpace>(
    alloc: Global,
    tree: &mut TreeFile,
    desk: &mut Desk,
    space: &mut P,
    private: u32,
    low: u32,
) -> Result<Option<u32>, Trouble>
    requires over { IsCatalogOver tree.old desk.old (P.SectorView.space space.old) }
    ensures found { IsTrue (P.SectorView.space space.old).tells → IfOk result (λ found. FindsFree (pairs_in (sectors_of_tree tree.old) (P.SectorView.space space.old).content) private (codes "iNode") low found) }
    ensures over { IsCatalogOver tree.new desk.new (P.SectorView.space space.new) }
    ensures reads { ReadsTree tree.old tree.new (P.SectorView.space space.old) (P.SectorView.space space.new) }
    ensures below { P.SectorView.follows space.old space.new }
    ensures cause { HasTroubleCause (P.SectorView.space space.old).faults (P.SectorView.space space.new).faults result }
{
    for number in low..=u32::MAX {
        if is_free_number(alloc, tree, desk, space, private, number)? {
            return Ok(Some(number));
        }
    }
    Ok(None)
}

/// The first number from a file's own on that no file in the private folder has; behind the greatest comes 1. `Memory` is answered too where there
/// is none.
fn find_free_number<P: SectorSpace>(
    alloc: Global,
    tree: &mut TreeFile,
    desk: &mut Desk,
    space: &mut P,
    private: u32,
    own: u32,
) -> Result<u32, Trouble>
    requires over { IsCatalogOver tree.old desk.old (P.SectorView.space space.old) }
    ensures first { IsTrue (P.SectorView.space space.old).tells → IfOk result (λ number. IsFirstFree (pairs_in (sectors_of_tree tree.old) (P.SectorView.space space.old).content) private (codes "iNode") own number) }
    ensures over { IsCatalogOver tree.new desk.new (P.SectorView.space space.new) }
    ensures reads { ReadsTree tree.old tree.new (P.SectorView.space space.old) (P.SectorView.space space.new) }
    ensures below { P.SectorView.follows space.old space.new }
    ensures cause { HasTroubleCause (P.SectorView.space space.old).faults (P.SectorView.space space.new).faults result }
{
    let found = free_number_from(alloc, tree, desk, space, private, own)?;
    if let Some(number) = found {
        return Ok(number);
    }
    let again = free_number_from(alloc, tree, desk, space, private, 1)?;
    if let Some(number) = again {
        return Ok(number);
    }
    Err(Trouble::Memory)
}

/// The first number from a file's own on that no file in the private folder has; behind the greatest comes 1. `Memory` is answered too where there
/// is none.
pub(crate) fn free_number<P: SectorSpace>(
    volume: &mut Volume,
    alloc: Global,
    space: &mut P,
    private: u32,
    own: u32,
) -> Result<u32, Trouble>
    requires serves { Serves volume.old (P.SectorView.space space.old) }
    ensures first { IsTrue (P.SectorView.space space.old).tells → IfOk result (λ number. IsFirstFree (lists_of volume.old (P.SectorView.space space.old).content).catalog_pairs private (codes "iNode") own number) }
    ensures free { IsTrue (P.SectorView.space space.old).tells → IfOk result (λ number. record_at (placed_in (lists_of volume.old (P.SectorView.space space.old).content).catalog_pairs) private (node_name number) ≡ None) }
    ensures looked { Looked P.SectorView.space P.SectorView.follows volume.old volume.new space.old space.new result }
    ensures serves { Serves volume.new (P.SectorView.space space.new) }
{
    find_free_number(
        alloc,
        &mut volume.catalog.file,
        &mut volume.catalog.desk,
        space,
        private,
        own,
    )
}
