//! A volume that was made, its store, and its three trees.
ghost use Rattle.std.specs.Prelude.{◌≡◌, IfOk};
ghost use Rattle.jnl_replay.specs.Plan.{FitsPlan};
ghost use Rattle.jnl_store.specs.Store.{plan_of};
ghost use Rattle.mem_disk.specs.MemRig.{rig_state};
ghost use Rattle.tree_store_tests.specs.Hidden.{hidden};

use crate::asking::{Question, ask, numbers};
use crate::flaw::Flaw;
use crate::quiet::Quiet;
use btree_node::{AttrOrder, CatalogOrder, ExtentOrder, KeyOrder, TreeShape};
use fork_map::ExtentList;
use hfs_model::ascii;
use hx_bytes::{ForkRecord, OutOfMemory, Sector};
use jnl_replay::{Plan, find_place, replay, validate};
use jnl_store::{Space, Store};
use mem_disk::MemRig;
use sector_disk::{SectorDisk, SectorView};
use std::alloc::Global;
use tree_kit::{Kind, key_of, value_of};
use volume_header::{VolumeHeader, read_header};
use volume_make::format;

/// The sectors of the volumes that are made.
const SECTORS: u64 = 16384;

/// A mounted volume. Its calls do nothing over a disk of another size.
#[derive(Drop)]
pub struct Grove {
    disk: Quiet,
    store: Store,
    ghost fits: { FitsPlan 16384 (plan_of store) },
}

/// The answer to a question, in a space of a store and a disk.
fn ask_in<K: KeyOrder>(
    alloc: Global,
    store: &mut Store,
    disk: &mut Quiet,
    place: &Place,
    question: Question,
    pair: &Pair,
) -> Result<bool, Flaw>
    ensures { plan_of store.new ≡ plan_of store.old }
{
    let mut space = Space { store, disk };
    ask::<Space<Quiet>, K>(
        alloc,
        &mut space,
        &place.fork,
        place.block,
        question,
        &pair.key,
        &pair.value,
    )
}

/// The numbers of a tree in such a space.
fn numbers_in(
    alloc: Global,
    store: &mut Store,
    disk: &mut Quiet,
    place: &Place,
) -> Result<TreeShape, Flaw>
    ensures { plan_of store.new ≡ plan_of store.old }
{
    let mut space = Space { store, disk };
    numbers::<Space<Quiet>>(alloc, &mut space, &place.fork, place.block)
}

/// Where a tree is: its fork, in blocks of so many bytes.
#[derive(Drop)]
struct Place {
    fork: ExtentList,
    block: u32,
}

/// A key and its value.
#[derive(Drop)]
struct Pair {
    key: Vec<u8>,
    value: Vec<u8>,
}

fn pair_of(alloc: Global, kind: Kind, number: u32) -> Result<Pair, OutOfMemory> {
    let key = key_of(alloc, kind, number)?;
    let value = value_of(alloc, kind, number, 1)?;
    Ok(Pair { key, value })
}

impl Grove {
    /// Makes a volume, and mounts it.
    pub fn make(alloc: Global, block: u32, journal: u64) -> Result<Grove, Flaw> {
        let rig = MemRig::new(alloc, SECTORS)?;
        let mut disk = Quiet { rig };
        let name = ascii(alloc, "a")?;
        match format(alloc, &mut disk, block, journal, &name) {
            Ok(_) => Grove::mount(alloc, disk),
            Err(_) => Err(Flaw::NotMounted),
        }
    }

    /// Mounts the volume of a disk: its journal is replayed.
    pub fn mount(alloc: Global, start: Quiet) -> Result<Grove, Flaw> {
        let mut disk = start;
        if disk.sectors() != SECTORS {
            return Err(Flaw::NotMounted);
        }
        let plan = find_plan(&mut disk)?;
        match replay(&mut disk, &plan) {
            Ok(()) => {}
            Err(_) => return Err(Flaw::NotMounted),
        }
        let store = Store::attach(alloc, &plan, 64)?;
        Ok(Grove { disk, store })
    }

    /// Mounts the volume once more, without what the store kept.
    pub fn again(self, alloc: Global) -> Result<Grove, Flaw> {
        let Grove { disk, store } = self;
        Grove::mount(alloc, disk)
    }

    /// The volume header.
    fn header(&mut self) -> Result<VolumeHeader, Flaw> {
        let mut sector = [0; 512];
        let mut space = Space {
            store: &mut self.store,
            disk: &mut self.disk,
        };
        let sectors = space.sectors();
        if sectors < 3 {
            return Err(Flaw::NotMounted);
        }
        match space.get(2, &mut sector) {
            Ok(()) => header_in(&sector, sectors),
            Err(_) => Err(Flaw::NotMounted),
        }
    }

    /// Where a tree is.
    fn place(&mut self, alloc: Global, kind: Kind) -> Result<Place, Flaw> {
        let head = self.header()?;
        let block = head.block_size;
        let fork = list_of(alloc, &fork_of(&head, kind))?;
        Ok(Place { fork, block })
    }

    /// The numbers of a tree, attached anew.
    fn shape(&mut self, alloc: Global, kind: Kind) -> Result<TreeShape, Flaw> {
        let place = self.place(alloc, kind)?;
        numbers_in(alloc, &mut self.store, &mut self.disk, &place)
    }

    /// Commits what was put, and says whether it was.
    fn commit(&mut self) -> bool {
        self.store.keep();
        if self.disk.sectors() != SECTORS {
            return false;
        }
        if self.store.pending() > self.store.capacity() {
            return false;
        }
        self.store.commit(&mut self.disk).is_ok()
    }

    /// Adds a pair or removes it, in a tree that is attached anew, and commits.
    fn edit<K: KeyOrder>(
        &mut self,
        alloc: Global,
        kind: Kind,
        number: u32,
        question: Question,
    ) -> Result<(), Flaw> {
        let pair = pair_of(alloc, kind, number)?;
        let place = self.place(alloc, kind)?;
        self.store.begin(alloc, 400)?;
        let done = ask_in::<K>(
            alloc,
            &mut self.store,
            &mut self.disk,
            &place,
            question,
            &pair,
        )?;
        if !done {
            return Err(Flaw::Refused(number));
        }
        if self.commit() {
            Ok(())
        } else {
            Err(Flaw::Refused(number))
        }
    }

    /// Whether a tree, attached anew, has the pair of a number.
    fn has<K: KeyOrder>(&mut self, alloc: Global, kind: Kind, number: u32) -> Result<bool, Flaw> {
        let pair = pair_of(alloc, kind, number)?;
        let place = self.place(alloc, kind)?;
        ask_in::<K>(
            alloc,
            &mut self.store,
            &mut self.disk,
            &place,
            Question::Find,
            &pair,
        )
    }
}

/// The volume header in a sector.
fn header_in(sector: &Sector, sectors: u64) -> Result<VolumeHeader, Flaw> {
    match read_header(sector, sectors) {
        Ok(head) => Ok(head),
        Err(_) => Err(Flaw::NotMounted),
    }
}

/// The record of the fork of a tree.
fn fork_of(head: &VolumeHeader, kind: Kind) -> ForkRecord {
    match kind {
        Kind::Extents => head.extents_fork,
        Kind::Catalog => head.catalog_fork,
        Kind::Attributes => head.attributes_fork,
    }
}

/// The plan of the journal of which the volume header speaks.
fn find_plan(disk: &mut Quiet) -> Result<Plan, Flaw>
    ensures fits { IfOk result (λ plan. FitsPlan (hidden (rig_state disk.old.rig)).sectors plan) }
    ensures sectors { (hidden (rig_state disk.new.rig)).sectors ≡ (hidden (rig_state disk.old.rig)).sectors }
{
    let place = match find_place(disk) {
        Ok(Ok(place)) => place,
        _ => return Err(Flaw::NotMounted),
    };
    match validate(disk, &place) {
        Ok(plan) => Ok(plan),
        Err(_) => Err(Flaw::NotMounted),
    }
}

/// The extents of a fork's record.
fn list_of(alloc: Global, record: &ForkRecord) -> Result<ExtentList, OutOfMemory> {
    let mut list = ExtentList::new(alloc);
    for extent in record.extents.extents.iter() {
        if extent.count > 0 {
            list.push(*extent)?;
        }
    }
    Ok(list)
}

/// Which numbers have a pair.
fn stands(step: u32, number: u32) -> bool {
    match step {
        0 => true,
        1 => number % 3 == 0,
        _ => false,
    }
}

/// Whether just the pairs that stand after a step are there, beside so many others.
fn look<K: KeyOrder>(
    alloc: Global,
    grove: &mut Grove,
    kind: Kind,
    step: u32,
    many: u32,
    others: u32,
) -> Result<(), Flaw> {
    let mut records = others;
    for number in 0..many {
        let wanted = stands(step, number);
        if grove.has::<K>(alloc, kind, number)? != wanted {
            return Err(Flaw::Lost(number));
        }
        records = records.wrapping_add(u32::from(wanted));
    }
    if grove.shape(alloc, kind)?.leaf_records == records {
        Ok(())
    } else {
        Err(Flaw::Numbers)
    }
}

/// Adds each number, shuffled.
fn fill<K: KeyOrder>(alloc: Global, grove: &mut Grove, kind: Kind, many: u32) -> Result<(), Flaw> {
    for place in 0..many {
        let number = place.wrapping_mul(7) % many.max(1);
        grove.edit::<K>(alloc, kind, number, Question::Add)?;
    }
    Ok(())
}

/// Removes the numbers that stand after the step before and not after this one.
fn thin<K: KeyOrder>(
    alloc: Global,
    grove: &mut Grove,
    kind: Kind,
    step: u32,
    many: u32,
) -> Result<(), Flaw> {
    for number in 0..many {
        if stands(step.wrapping_sub(1), number) && !stands(step, number) {
            grove.edit::<K>(alloc, kind, number, Question::TakeOut)?;
        }
    }
    Ok(())
}

/// Mounts a volume once more, and looks through a tree.
fn look_again<K: KeyOrder>(
    alloc: Global,
    start: Grove,
    kind: Kind,
    step: u32,
    many: u32,
    others: u32,
) -> Result<Grove, Flaw> {
    let mut grove = start.again(alloc)?;
    look::<K>(alloc, &mut grove, kind, step, many, others)?;
    Ok(grove)
}

/// A volume, and the numbers of one of its trees.
#[derive(Drop)]
struct Measured {
    grove: Grove,
    shape: TreeShape,
}

fn measure(alloc: Global, start: Grove, kind: Kind) -> Result<Measured, Flaw> {
    let mut grove = start;
    let shape = grove.shape(alloc, kind)?;
    Ok(Measured { grove, shape })
}

/// Fills a tree, and looks through it.
fn filled<K: KeyOrder>(
    alloc: Global,
    start: Grove,
    kind: Kind,
    many: u32,
    others: u32,
) -> Result<Grove, Flaw> {
    let mut grove = start;
    fill::<K>(alloc, &mut grove, kind, many)?;
    look::<K>(alloc, &mut grove, kind, 0, many, others)?;
    Ok(grove)
}

/// Removes pairs, mounts the volume once more, and looks through the tree.
fn thinned<K: KeyOrder>(
    alloc: Global,
    start: Grove,
    kind: Kind,
    step: u32,
    many: u32,
    others: u32,
) -> Result<Grove, Flaw> {
    let mut grove = start;
    thin::<K>(alloc, &mut grove, kind, step, many)?;
    look_again::<K>(alloc, grove, kind, step, many, others)
}

fn run<K: KeyOrder>(alloc: Global, start: Grove, kind: Kind, many: u32) -> Result<Grove, Flaw> {
    let bare = measure(alloc, start, kind)?;
    let before = bare.shape;
    let others = before.leaf_records;
    let full = filled::<K>(alloc, bare.grove, kind, many, others)?;
    let few = thinned::<K>(alloc, full, kind, 1, many, others)?;
    let none = thinned::<K>(alloc, few, kind, 2, many, others)?;
    let last = measure(alloc, none, kind)?;
    if last.shape == before {
        Ok(last.grove)
    } else {
        Err(Flaw::Numbers)
    }
}

/// The life of each of the three trees of a volume, between so many pairs and none.
pub fn live(alloc: Global, block: u32, journal: u64, many: u32) -> Result<(), Flaw> {
    let made = Grove::make(alloc, block, journal)?;
    let one = run::<ExtentOrder>(alloc, made, Kind::Extents, many)?;
    let two = run::<CatalogOrder>(alloc, one, Kind::Catalog, many)?;
    run::<AttrOrder>(alloc, two, Kind::Attributes, many)?;
    Ok(())
}
