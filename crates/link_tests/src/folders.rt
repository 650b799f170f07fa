//! A catalog with a private folder over nodes in memory, whose calls are made only where what they need holds.
ghost use Rattle.std.specs.Prelude.{◌≡◌, ◌≤◌, ◌+◌, ℕ, false, IfOk, IfSome, OnOk, length};
ghost use Rattle.btree_node.specs.Mem.{mem_state};
ghost use Rattle.btree_edit.specs.Desk.{IsDeskOf};
ghost use Rattle.cat_records.specs.Fits.{FitsFile, FitsRecord};
ghost use Rattle.hfs_volume.specs.Records.{is_thread};

use crate::places::{PRIVATE, Place};
use crate::records::{file, link_to, private_folder};
use crate::stop::Stop;
use btree_edit::Desk;
use btree_node::NodeStore;
use cat_records::{CatRecord, FileRecord, ThreadRecord};
use catalog::{Inserted, Moved, Removed, add, by_id, lookup, move_entry, update};
use hard_links::{EntryAt, Linked, drop_link, make_link, orphan, resolve};
use hx_bytes::Units;
use node_kit::Untold;
use std::alloc::Global;

/// A catalog, and a desk for it.
#[derive(Drop)]
pub struct Folders {
    store: Untold,
    desk: Desk,
    ghost fits: { IsDeskOf (mem_state store.nodes).shape.node_size desk },
}

impl Folders {
    /// A catalog without an entry, of so many nodes of 4,096 bytes.
    fn new(alloc: Global, nodes: u16) -> Result<Folders, Stop> {
        let store = Untold::new(alloc, 4096, u32::from(nodes) + 1)?;
        let desk = Desk::new(alloc, 4096)?;
        Ok(Folders { store, desk })
    }

    /// A catalog with the private folder alone.
    pub fn with_private(alloc: Global, nodes: u16) -> Result<Folders, Stop> {
        let mut folders = Folders::new(alloc, nodes)?;
        let place = Place::Private;
        match folders.add_private(alloc, &place.entry(alloc)?)? {
            Inserted::Done => Ok(folders),
            Inserted::Exists => Err(Stop::Answer(place)),
        }
    }

    /// Refuses a catalog with nodes smaller than the format allows it.
    fn is_wide(&self) -> Result<(), Stop>
        ensures { OnOk result (4096 ≤ (mem_state self.now.store.nodes).shape.node_size) }
    {
        if self.store.shape().node_size < 4096 {
            return Err(Stop::Room);
        }
        Ok(())
    }

    /// Adds a file with a CNID.
    pub fn add_file(&mut self, alloc: Global, at: &EntryAt, id: u32) -> Result<Inserted, Stop> {
        takes_name(&at.name)?;
        self.insert(alloc, at, &file(id, 0))
    }

    /// Adds the private folder.
    fn add_private(&mut self, alloc: Global, at: &EntryAt) -> Result<Inserted, Stop> {
        takes_name(&at.name)?;
        self.insert(alloc, at, &private_folder(PRIVATE))
    }

    /// Adds an entry with a record.
    fn insert(&mut self, alloc: Global, at: &EntryAt, rec: &CatRecord) -> Result<Inserted, Stop>
        requires some { 1 ≤ length at.now.name }
        requires name { length at.now.name ≤ 255 }
        requires kind { is_thread rec.now ≡ false }
        requires fits { FitsRecord rec.now }
    {
        self.is_wide()?;
        let answer = add(
            alloc,
            &mut self.store,
            &mut self.desk,
            at.parent,
            &at.name,
            rec,
        )?;
        Ok(answer)
    }

    /// Has the record of a file made by a test say that it has so many links.
    pub fn count(
        &mut self,
        alloc: Global,
        at: &EntryAt,
        id: u32,
        links: u32,
    ) -> Result<Removed, Stop> {
        takes_name(&at.name)?;
        self.put(alloc, at, &file(id, links))
    }

    /// Has the link at a place say another number.
    pub fn refer(&mut self, alloc: Global, at: &EntryAt, number: u32) -> Result<Removed, Stop> {
        takes_name(&at.name)?;
        match self.file(alloc, at)? {
            Some(link) => self.put(alloc, at, &link_to(link, number)),
            None => Ok(Removed::Absent),
        }
    }

    /// Gives an entry another record.
    fn put(&mut self, alloc: Global, at: &EntryAt, rec: &CatRecord) -> Result<Removed, Stop>
        requires some { 1 ≤ length at.now.name }
        requires name { length at.now.name ≤ 255 }
        requires kind { is_thread rec.now ≡ false }
        requires fits { FitsRecord rec.now }
    {
        self.is_wide()?;
        let answer = update(
            alloc,
            &mut self.store,
            &mut self.desk,
            at.parent,
            &at.name,
            rec,
        )?;
        Ok(answer)
    }

    /// Moves an entry.
    pub fn move_on(&mut self, alloc: Global, from: &EntryAt, to: &EntryAt) -> Result<Moved, Stop> {
        takes_name(&from.name)?;
        takes_name(&to.name)?;
        self.is_wide()?;
        let answer = move_entry(
            alloc,
            &mut self.store,
            &mut self.desk,
            from.parent,
            &from.name,
            to.parent,
            &to.name,
        )?;
        Ok(answer)
    }

    /// Gives a file another name.
    pub fn link(
        &mut self,
        alloc: Global,
        from: &EntryAt,
        to: &EntryAt,
        ids: (u32, u32),
    ) -> Result<Linked, Stop> {
        takes_name(&from.name)?;
        takes_name(&to.name)?;
        self.is_wide()?;
        let answer = make_link(
            alloc,
            &mut self.store,
            &mut self.desk,
            PRIVATE,
            from,
            to,
            ids,
        )?;
        Ok(answer)
    }

    /// Removes a link, and answers how many names are left.
    pub fn drop_link(&mut self, alloc: Global, at: &EntryAt) -> Result<u32, Stop> {
        takes_name(&at.name)?;
        self.is_wide()?;
        let left = drop_link(alloc, &mut self.store, &mut self.desk, PRIVATE, at)?;
        Ok(left)
    }

    /// Has a file without a name wait to be removed.
    pub fn orphan(&mut self, alloc: Global, at: &EntryAt) -> Result<(), Stop> {
        takes_name(&at.name)?;
        self.is_wide()?;
        orphan(alloc, &mut self.store, &mut self.desk, PRIVATE, at)?;
        Ok(())
    }

    /// The file of a name; none where there is no file of that name.
    pub fn file(&mut self, alloc: Global, at: &EntryAt) -> Result<Option<FileRecord>, Stop>
        ensures { IfOk result (λ found. IfSome found (λ file. FitsFile file)) }
    {
        takes_name(&at.name)?;
        match lookup(alloc, &mut self.store, &mut self.desk, at.parent, &at.name)? {
            Some(CatRecord::File(file)) => Ok(Some(file)),
            Some(CatRecord::Folder(_)) => Ok(None),
            Some(CatRecord::Thread(_)) => Ok(None),
            None => Ok(None),
        }
    }

    /// The file that a record stands for.
    pub fn resolve(&mut self, alloc: Global, rec: &FileRecord) -> Result<FileRecord, Stop> {
        let found = resolve(alloc, &mut self.store, &mut self.desk, PRIVATE, rec)?;
        Ok(found)
    }

    /// The thread of a CNID.
    pub fn thread(&mut self, alloc: Global, id: u32) -> Result<Option<ThreadRecord>, Stop> {
        let found = by_id(alloc, &mut self.store, &mut self.desk, id)?;
        Ok(found)
    }
}

/// Refuses a name of a length that the catalog doesn't take.
fn takes_name(name: &Units) -> Result<(), Stop>
    ensures some { OnOk result (1 ≤ length name.now) }
    ensures most { OnOk result (length name.now ≤ 255) }
{
    if name.is_empty() || name.len() > 255 {
        return Err(Stop::Room);
    }
    Ok(())
}
