//! `read`: bytes of a file.
ghost use Rattle.std.specs.Prelude.{◌≡◌, ◌≤◌, ◌<◌, ◌*◌, ◌/◌, ◌%◌, false, true, Ok, Some, IsTrue, IfOk, length, take, drop};
ghost use Rattle.std.specs.List.{All, list_all};
ghost use Rattle.btree_edit.specs.Causes.{HasTroubleCause};
ghost use Rattle.btree_file.specs.Frame.{ReadsSpace};
ghost use Rattle.btree_file.specs.Standing.{pairs_in};
ghost use Rattle.btree_file.specs.State.{sectors_of_tree};
ghost use Rattle.file_io.specs.Bytes.{IsBlockSize, fork_bytes};
ghost use Rattle.fork_map.specs.Blocks.{blocks_of, fork_sectors};
ghost use Rattle.hfs_language.specs.Written.{FitsPath};
ghost use Rattle.hfs_language.specs.declared.command.Command.TheVariants as command;
ghost use Rattle.hfs_model.specs.Plain.{node_at};
ghost use Rattle.hfs_model.specs.Step.{step_line};
ghost use Rattle.hfs_model.specs.declared.plain.PlainNode.{PlainNode};
ghost use Rattle.hfs_volume.specs.Content.{volume_of, records_of};
ghost use Rattle.hfs_model.specs.Kinds.{kind_told};
ghost use Rattle.hfs_model.specs.declared.kinds.KindEdit.TheVariants as edit;
ghost use Rattle.hfs_volume.specs.TreeOf.{tree_of, bytes_in_fork};
ghost use Rattle.volume_base.specs.Cutting.{fork_at, kind_of};
ghost use Rattle.volume_base.specs.Frame.{Looked, Serves};
ghost use Rattle.volume_base.specs.Lists.{lists_of};
ghost use Rattle.volume_base.specs.Looking.{IsCatalogOver, ReadsTree};
ghost use Rattle.volume_base.specs.Opening.{ends_inside};
ghost use Rattle.volume_base.specs.Reading.{HasFile, bytes_by_id, file_in_record, file_of, to_read, file_in};

use crate::entries::Entry;
use crate::extents::inside_or_none;
use crate::forks::{ForkKind, fork_of, number_of};
use crate::looking::load_extents;
use crate::names::is_private_path;
use crate::nodes::{Node, find_node};
use crate::volume::Volume;
use btree_edit::Desk;
use btree_file::TreeFile;
use cat_records::{CatRecord, FileRecord};
use file_io::read;
use fork_map::ExtentList;
use hfs_language::{Path, Refusal, Reply};
use hfs_volume::sound_has_plain_tree;
use hx_bytes::{Bytes, Trouble, Units};
use sector_disk::SectorSpace;
use std::alloc::Global;

/// The most bytes that one command reads.
const MOST_BYTES: u64 = 65_536;

/// The file that was found, unless more bytes are asked than one command reads.
fn to_read(long: u64, node: &Node) -> Result<FileRecord, Refusal>
    ensures said { result ≡ to_read long node.now }
    ensures few { IfOk result (λ file. long ≤ 65536) }
{
    match node {
        Node::Folder(_) => Err(Refusal::IsFolder),
        Node::File(file, _) => {
            if MOST_BYTES < long {
                return Err(Refusal::TooLarge);
            }
            Ok(*file)
        }
    }
}

/// The file of what was found by a CNID, if it is one.
fn file_of(found: Option<Entry>) -> Option<FileRecord>
    ensures { result ≡ file_of found }
{
    match found {
        Some(entry) => file_in_record(&entry.rec),
        None => None,
    }
}

fn file_in_record(rec: &CatRecord) -> Option<FileRecord>
    ensures { result ≡ file_in_record rec.now }
{
    match rec {
        CatRecord::File(file) => Some(*file),
        CatRecord::Folder(_) => None,
        CatRecord::Thread(_) => None,
    }
}

/// The file that a path stands for, of which so many bytes are asked, or the first reason against it.
fn find_file<P: SectorSpace>(
    alloc: Global,
    tree: &mut TreeFile,
    desk: &mut Desk,
    space: &mut P,
    private: Option<u32>,
    path: &[Units],
    long: u64,
) -> Result<Result<FileRecord, Refusal>, Trouble>
    requires over { IsCatalogOver tree.old desk.old (P.SectorView.space space.old) }
    requires names { All (λ name. length name ≤ 255) path.now }
    ensures found { IsTrue (P.SectorView.space space.old).tells → IfOk result (λ said. said ≡ file_in (pairs_in (sectors_of_tree tree.old) (P.SectorView.space space.old).content) private path.now long) }
    ensures few { IfOk result (λ said. IfOk said (λ file. long ≤ 65536)) }
    ensures over { IsCatalogOver tree.new desk.new (P.SectorView.space space.new) }
    ensures reads { ReadsTree tree.old tree.new (P.SectorView.space space.old) (P.SectorView.space space.new) }
    ensures below { P.SectorView.follows space.old space.new }
    ensures cause { HasTroubleCause (P.SectorView.space space.old).faults (P.SectorView.space space.new).faults result }
{
    match find_node(alloc, tree, desk, space, private, path)? {
        Ok(node) => Ok(to_read(long, &node)),
        Err(why) => Ok(Err(why)),
    }
}

/// A block's size, or 512 where it isn't one of whole sectors.
fn whole_block(block: u32) -> u32
    requires least { 512 ≤ block }
    requires most { block ≤ 65536 }
    ensures whole { IsBlockSize result }
    ensures same { block % 512 ≡ 0 → result ≡ block }
{
    if block % 512 == 0 { block } else { 512 }
}

/// A file's size, or 0 where the blocks of its fork hold less.
pub fn size_held(fork: &ExtentList, per_block: u32, size: u64) -> u64
    requires { per_block ≤ 128 }
    ensures held { result ≤ length (fork_sectors fork.now per_block) * 512 }
    ensures same { size ≤ length (fork_sectors fork.now per_block) * 512 → result ≡ size }
{
    if size == 0 {
        return 0;
    }
    match fork.sector_at(per_block, (size - 1) / 512) {
        Some(_) => size,
        None => 0,
    }
}

/// Bytes of a file that has so many in the blocks of a fork. Where these lie outside, or hold less, there are none.
pub(crate) fn read_fork<P: SectorSpace>(
    alloc: Global,
    space: &mut P,
    fork: ExtentList,
    block: u32,
    size: u64,
    from: u64,
    long: u32,
) -> Result<Bytes, Trouble>
    requires least { 512 ≤ block }
    requires most { block ≤ 65536 }
    ensures bytes { IsTrue (P.SectorView.space space.old).tells → block % 512 ≡ 0 → list_all (ends_inside (block / 512) (P.SectorView.space space.old).sectors) fork ≡ true → size ≤ length (blocks_of fork) * block
        → IfOk result (λ bytes. bytes ≡ take long (drop from (take size (fork_bytes (P.SectorView.space space.old).content block fork)))) }
    ensures reads { ReadsSpace (P.SectorView.space space.old) (P.SectorView.space space.new) }
    ensures below { P.SectorView.follows space.old space.new }
    ensures cause { HasTroubleCause (P.SectorView.space space.old).faults (P.SectorView.space space.new).faults result }
{
    let whole = whole_block(block);
    let inside = inside_or_none(alloc, fork, whole / 512, space.sectors());
    let held = size_held(&inside, whole / 512, size);
    read(alloc, space, &inside, whole, held, from, long)
}

impl Volume {
    /// The file that a path stands for, of which so many bytes are asked, or the first reason against it.
    pub(crate) fn file_to_read<P: SectorSpace>(
        &mut self,
        alloc: Global,
        space: &mut P,
        path: &Path,
        long: u64,
    ) -> Result<Result<FileRecord, Refusal>, Trouble>
        requires serves { Serves self.old (P.SectorView.space space.old) }
        requires fits { FitsPath path.now }
        ensures found { IsTrue (P.SectorView.space space.old).tells → IfOk result (λ said. said ≡ file_in (lists_of self.old (P.SectorView.space space.old).content).catalog_pairs self.old.private path.now long) }
        ensures few { IfOk result (λ said. IfOk said (λ file. long ≤ 65536)) }
        ensures looked { Looked P.SectorView.space P.SectorView.follows self.old self.new space.old space.new result }
        ensures serves { Serves self.new (P.SectorView.space space.new) }
    {
        find_file(
            alloc,
            &mut self.catalog.file,
            &mut self.catalog.desk,
            space,
            self.private,
            path.as_slice(),
            long,
        )
    }

    /// So many bytes of a file's fork from a place on, or fewer where the fork ends.
    pub(crate) fn read_file<P: SectorSpace>(
        &mut self,
        alloc: Global,
        space: &mut P,
        file: &FileRecord,
        kind: ForkKind,
        from: u64,
        long: u64,
    ) -> Result<Bytes, Trouble>
        requires serves { Serves self.old (P.SectorView.space space.old) }
        requires there { IsTrue (P.SectorView.space space.old).tells → HasFile (records_of (volume_of (P.SectorView.space space.old).content)) file.now }
        requires few { long ≤ 65536 }
        ensures bytes { IsTrue (P.SectorView.space space.old).tells → IfOk result (λ bytes. bytes ≡ take long (drop from (bytes_in_fork (P.SectorView.space space.old).content file.now.fields.id (kind_of kind) (fork_at (kind_of kind) file.now)))) }
        ensures looked { Looked P.SectorView.space P.SectorView.follows self.old self.new space.old space.new result }
        ensures serves { Serves self.new (P.SectorView.space space.new) }
    {
        let block = self.header.block_size;
        let fork = fork_of(kind, file);
        let list = load_extents(
            alloc,
            &mut self.extents.file,
            &mut self.extents.desk,
            space,
            file.fields.id,
            number_of(kind),
            &fork,
        )?;
        read_fork(
            alloc,
            space,
            list,
            block,
            fork.logical_size,
            from,
            long as u32,
        )
    }

    /// So many bytes, 65,536 at most, of the file with a CNID from a place on, or fewer where the file ends, whatever names
    /// the file has; none where no file of the catalog has this CNID. It changes nothing. `Memory` comes where memory is
    /// wanting, `Disk` where a read failed.
    pub fn read_id<P: SectorSpace>(
        &mut self,
        alloc: Global,
        space: &mut P,
        id: u32,
        from: u64,
        long: u32,
    ) -> Result<Option<Bytes>, Trouble>
        requires serves { Serves self.old (P.SectorView.space space.old) }
        requires few { long ≤ 65536 }
        ensures bytes { IsTrue (P.SectorView.space space.old).tells → IfOk result (λ found. found ≡ bytes_by_id (P.SectorView.space space.old).content (lists_of self.old (P.SectorView.space space.old).content).catalog_pairs id from long) }
        // Of a file of the plain tree, these are its bytes there.
        ensures seen { IsTrue (P.SectorView.space space.old).tells → IfOk result (λ found. (file : PlainNode) → node_at (tree_of (P.SectorView.space space.old).content) id ≡ Some file → file.folder ≡ false → found ≡ Some (take long (drop from file.bytes))) }
        ensures looked { Looked P.SectorView.space P.SectorView.follows self.old self.new space.old space.new result }
        ensures serves { Serves self.new (P.SectorView.space space.new) }
    {
        let found = self.entry(alloc, space, id)?;
        match file_of(found) {
            Some(file) => Ok(Some(self.read_file(
                alloc,
                space,
                &file,
                ForkKind::Data,
                from,
                u64::from(long),
            )?)),
            None => Ok(None),
        }
    }

    /// The reply to `read`: so many bytes, 65,536 at most, of the file that a path stands for, from a place on, or fewer where
    /// the file ends; or the first reason against it, of which `TooLarge` comes last. A path that begins with a name of the
    /// volume's own is refused. It changes nothing. `Memory` comes where memory is wanting, `Disk` where a read failed.
    pub fn read<P: SectorSpace>(
        &mut self,
        alloc: Global,
        space: &mut P,
        path: &Path,
        from: u64,
        long: u64,
    ) -> Result<Reply, Trouble>
        requires serves { Serves self.old (P.SectorView.space space.old) }
        requires fits { FitsPath path.now }
        // Told, the reply is that of the plain tree's step.
        ensures reply { IsTrue (P.SectorView.space space.old).tells → IfOk result (λ reply. reply ≡ (step_line (tree_of (P.SectorView.space space.old).content) (Ok (command.Read path.now from long))).0) }
        ensures looked { Looked P.SectorView.space P.SectorView.follows self.old self.new space.old space.new result }
        ensures serves { Serves self.new (P.SectorView.space space.new) }
    {
        if is_private_path(path) {
            return Ok(Reply::No(Refusal::Private));
        }
        sound_has_plain_tree();
        match self.file_to_read(alloc, space, path, long)? {
            Ok(file) => Ok(Reply::Content(self.read_file(
                alloc,
                space,
                &file,
                ForkKind::Data,
                from,
                long,
            )?)),
            Err(why) => Ok(Reply::No(why)),
        }
    }

    /// The reply to `rread`: so many bytes, 65,536 at most, of the resource fork of the file that a path stands for, from a place on, or fewer
    /// where the fork ends; or the first reason against it, as `read` tells it. It changes nothing. `Memory` comes where memory is wanting, `Disk`
    /// where a read failed.
    pub fn read_resource<P: SectorSpace>(
        &mut self,
        alloc: Global,
        space: &mut P,
        path: &Path,
        from: u64,
        long: u64,
    ) -> Result<Reply, Trouble>
        requires serves { Serves self.old (P.SectorView.space space.old) }
        requires fits { FitsPath path.now }
        // Told, the reply is that of the plain tree's step.
        ensures reply { IsTrue (P.SectorView.space space.old).tells → IfOk result (λ reply. reply ≡ (kind_told (tree_of (P.SectorView.space space.old).content) (edit.ResourceRead path.now from long)).0) }
        ensures looked { Looked P.SectorView.space P.SectorView.follows self.old self.new space.old space.new result }
        ensures serves { Serves self.new (P.SectorView.space space.new) }
    {
        if is_private_path(path) {
            return Ok(Reply::No(Refusal::Private));
        }
        match self.file_at(alloc, space, path, long)? {
            Ok(file) => {
                let bytes = self.read_file(alloc, space, &file, ForkKind::Resource, from, long)?;
                Ok(Reply::Content(bytes))
            }
            Err(why) => Ok(Reply::No(why)),
        }
    }
}
