// Trees of all orders and sizes: filled, changed, half emptied, filled again and emptied.
use crate::edits::{add, change, step_through, take_out};
use crate::grove::Grove;
use crate::keys::Kind;
use crate::looking::{Flaw, Wanted, look};
use crate::planting::plant;
use btree_edit::{Inserted, Removed};
use btree_node::{AttrOrder, CatalogOrder, ExtentOrder, KeyOrder, NodeStore};
use hx_bytes::OutOfMemory;
use std::alloc::Global;
use std::test::Fail;

/// In which order the numbers come.
#[derive(Clone, Copy, Debug, PartialEq, Eq)]
enum Way {
    Rising,
    Falling,
    Shuffled,
}

/// The number that comes at a place, of so many; a prime number of them is shuffled.
fn number_at(way: Way, place: u32, many: u32) -> u32 {
    match way {
        Way::Rising => place,
        Way::Falling => many.wrapping_sub(place).wrapping_sub(1),
        Way::Shuffled => place.wrapping_mul(7919) % many.max(1),
    }
}

fn wanted(
    alloc: Global,
    kind: Kind,
    units: u16,
    value: u32,
    many: u32,
) -> Result<Wanted, OutOfMemory> {
    let versions = vec![in alloc; 0u8; many as usize]?;
    Ok(Wanted {
        kind,
        units,
        value,
        versions,
    })
}

fn add_all<K: KeyOrder>(
    alloc: Global,
    tree: &mut Grove,
    wanted: &mut Wanted,
    way: Way,
    many: u32,
) -> Result<(), Flaw> {
    for place in 0..many {
        let number = number_at(way, place, many);
        if wanted.version(number) == 0 {
            add::<K>(alloc, tree, wanted, number)?;
        }
    }
    Ok(())
}

fn change_all<K: KeyOrder>(
    alloc: Global,
    tree: &mut Grove,
    wanted: &mut Wanted,
    way: Way,
    many: u32,
) -> Result<(), Flaw> {
    for place in 0..many {
        change::<K>(alloc, tree, wanted, number_at(way, place, many))?;
    }
    Ok(())
}

/// Removes the first so many pairs that come.
fn take_some<K: KeyOrder>(
    alloc: Global,
    tree: &mut Grove,
    wanted: &mut Wanted,
    way: Way,
    many: u32,
    some: u32,
) -> Result<(), Flaw> {
    for place in 0..some {
        let number = number_at(way, place, many);
        if wanted.version(number) != 0 {
            take_out::<K>(alloc, tree, wanted, number)?;
        }
    }
    Ok(())
}

/// A whole life of a tree: each order of numbers in turn.
fn live<K: KeyOrder>(
    alloc: Global,
    tree: &mut Grove,
    wanted: &mut Wanted,
    ways: (Way, Way, Way),
    many: u32,
) -> Result<(), Flaw> {
    let (first, second, third) = ways;
    look(alloc, tree, wanted)?;
    add_all::<K>(alloc, tree, wanted, first, many)?;
    step_through::<K>(alloc, tree, wanted, many)?;
    change_all::<K>(alloc, tree, wanted, second, many)?;
    take_some::<K>(alloc, tree, wanted, third, many, many / 2)?;
    step_through::<K>(alloc, tree, wanted, many)?;
    add_all::<K>(alloc, tree, wanted, second, many)?;
    take_some::<K>(alloc, tree, wanted, first, many, many)?;
    look(alloc, tree, wanted)
}

const MIXED: (Way, Way, Way) = (Way::Rising, Way::Shuffled, Way::Falling);

const BACK: (Way, Way, Way) = (Way::Falling, Way::Rising, Way::Shuffled);

const TURNED: (Way, Way, Way) = (Way::Shuffled, Way::Falling, Way::Rising);

/// A tree of four hundred nodes of this size, or of 32,768 bytes.
fn tree_of(alloc: Global, size: u32) -> Result<Grove, OutOfMemory> {
    match size {
        512 => Grove::new(alloc, 512, 400),
        1024 => Grove::new(alloc, 1024, 400),
        2048 => Grove::new(alloc, 2048, 400),
        4096 => Grove::new(alloc, 4096, 400),
        8192 => Grove::new(alloc, 8192, 400),
        16384 => Grove::new(alloc, 16384, 400),
        _ => Grove::new(alloc, 32768, 400),
    }
}

/// The longest value of a pair with a key of so many bytes in a node of this size.
fn longest_value(size: u32, key: u32) -> u32 {
    (size / 2)
        .saturating_sub(10)
        .saturating_sub(key)
        .saturating_add(1)
}

/// Three lives of a tree of nodes of this size, each over other orders of its numbers; the keys have at most so many units.
fn three_lives<K: KeyOrder>(
    alloc: Global,
    kind: Kind,
    size: u32,
    units: u16,
    value: u32,
    many: u32,
) -> Result<(), Flaw> {
    for ways in [MIXED, BACK, TURNED] {
        let mut tree = tree_of(alloc, size)?;
        let mut list = wanted(alloc, kind, units, value, many)?;
        live::<K>(alloc, &mut tree, &mut list, ways, many)?;
    }
    Ok(())
}

#[test]
fn extents_live_in_nodes_of_each_size(rt: HostRuntime) {
    let alloc = rt.alloc();
    for size in [512, 1024, 2048] {
        let value = longest_value(size, 12);
        assert_eq!(rt;
            three_lives::<ExtentOrder>(alloc, Kind::Extents, size, 0, value, 211),
            Ok(()),
            "{size}"
        );
    }
    for size in [4096, 8192, 16384, 32768] {
        let value = longest_value(size, 12);
        assert_eq!(rt;
            three_lives::<ExtentOrder>(alloc, Kind::Extents, size, 0, value, 53),
            Ok(()),
            "{size}"
        );
    }
}

#[test]
fn extents_of_one_length_fill_many_levels(rt: HostRuntime) {
    let alloc = rt.alloc();
    assert_eq!(rt;
        three_lives::<ExtentOrder>(alloc, Kind::Extents, 512, 0, 234, 307),
        Ok(())
    );
}

#[test]
fn folders_live_in_nodes_of_each_size(rt: HostRuntime) {
    let alloc = rt.alloc();
    assert_eq!(rt;
        three_lives::<CatalogOrder>(alloc, Kind::Catalog, 4096, 255, 249, 211),
        Ok(())
    );
    for size in [4096, 8192, 16384, 32768] {
        let value = longest_value(size, 518);
        assert_eq!(rt;
            three_lives::<CatalogOrder>(alloc, Kind::Catalog, size, 255, value, 53),
            Ok(()),
            "{size}"
        );
    }
}

#[test]
fn attributes_live_in_nodes_of_each_size(rt: HostRuntime) {
    let alloc = rt.alloc();
    assert_eq!(rt;
        three_lives::<AttrOrder>(alloc, Kind::Attributes, 4096, 127, 300, 211),
        Ok(())
    );
    for size in [4096, 8192, 16384, 32768] {
        let value = longest_value(size, 268);
        assert_eq!(rt;
            three_lives::<AttrOrder>(alloc, Kind::Attributes, size, 127, value, 53),
            Ok(()),
            "{size}"
        );
    }
}

/// Two hundred extents in and out again leave no level, no root, and all nodes free but the header's.
#[test]
fn two_hundred_keys_in_and_out(rt: HostRuntime) -> Result<(), Fail> {
    let alloc = rt.alloc();
    let mut tree = tree_of(alloc, 512)?;
    let mut list = wanted(alloc, Kind::Extents, 0, 65, 200)?;
    assert_eq!(rt;
        add_all::<ExtentOrder>(alloc, &mut tree, &mut list, Way::Rising, 200),
        Ok(())
    );
    assert_eq!(rt; tree.shape().leaf_records, 200);
    assert_eq!(rt;
        take_some::<ExtentOrder>(alloc, &mut tree, &mut list, Way::Falling, 200, 200),
        Ok(())
    );
    let shape = tree.shape();
    assert_eq!(rt;
        (shape.depth, shape.root, shape.free, shape.leaf_records),
        (0, 0, 399, 0)
    );
    Ok(())
}

/// Where a leaf's first key goes and its second is longer, the parent's key grows; here so often that a parent has to split for it.
#[test]
fn a_parent_splits_where_a_key_grows(rt: HostRuntime) -> Result<(), Fail> {
    let alloc = rt.alloc();
    let mut tree = tree_of(alloc, 4096)?;
    let mut list = wanted(alloc, Kind::Catalog, 255, 249, 211)?;
    assert_eq!(rt;
        add_all::<CatalogOrder>(alloc, &mut tree, &mut list, Way::Shuffled, 211),
        Ok(())
    );
    let mut split = false;
    for number in 0..70u32 {
        let free = tree.shape().free;
        let short = number * 3;
        assert_eq!(rt;
            take_out::<CatalogOrder>(alloc, &mut tree, &mut list, short),
            Ok(()),
            "{short}"
        );
        split = split || tree.shape().free < free;
    }
    assert!(rt; split);
    Ok(())
}

fn named_key(alloc: Global, folder: u32, units: u16) -> Result<Vec<u8>, OutOfMemory> {
    let n = folder.to_be_bytes();
    let size = units.wrapping_mul(2).wrapping_add(6).to_be_bytes();
    let long = units.to_be_bytes();
    let mut key = Vec::from_slice(
        alloc,
        &[size[0], size[1], n[0], n[1], n[2], n[3], long[0], long[1]],
    )?;
    for _ in 0..units {
        key.push(0)?;
        key.push(b'a')?;
    }
    Ok(key)
}

// A node of 4,096 bytes holds 4,080 bytes of records with their offsets: two of these pairs, and not three. So most leaves have
// a short key first and the long one behind it. Over 21 leaves the root has 21 records of 16 bytes; a long key makes one take 524.
#[test]
fn longer_first_keys_split_the_node_above(rt: HostRuntime) -> Result<(), Fail> {
    let alloc = rt.alloc();
    let mut tree = Grove::new(alloc, 4096, 60)?;
    for units in [1, 255] {
        for folder in 0..20u32 {
            let key = named_key(alloc, folder, units)?;
            let added = tree.add::<CatalogOrder>(&key, &[7; 1500]);
            assert_eq!(rt; added, Some(Inserted::Done), "{folder}");
        }
    }
    assert_eq!(rt; (tree.shape().depth, tree.shape().leaf_records), (2, 40));
    for (units, depth) in [(1, 3), (255, 0)] {
        for folder in 0..20u32 {
            let key = named_key(alloc, folder, units)?;
            let gone = tree.take_out::<CatalogOrder>(&key);
            assert_eq!(rt; gone, Some(Removed::Done), "{folder}");
            assert!(rt; !tree.has::<CatalogOrder>(&key, &[7; 1500]), "{folder}");
        }
        assert_eq!(rt; tree.shape().depth, depth);
    }
    assert_eq!(rt; (tree.shape().root, tree.shape().free), (0, 59));
    Ok(())
}

/// The value of a number's pair with each byte turned.
fn turned(alloc: Global, wanted: &Wanted, number: u32) -> Result<Vec<u8>, OutOfMemory> {
    let mut turned = Vec::new(alloc);
    for byte in &wanted.value(alloc, number)? {
        turned.push(*byte ^ 0xFF)?;
    }
    Ok(turned)
}

#[test]
fn a_value_of_the_same_length_is_written_into_its_leaf_alone(rt: HostRuntime) -> Result<(), Fail> {
    let alloc = rt.alloc();
    let mut tree = tree_of(alloc, 512)?;
    let mut list = wanted(alloc, Kind::Extents, 0, 65, 60)?;
    assert_eq!(rt;
        add_all::<ExtentOrder>(alloc, &mut tree, &mut list, Way::Rising, 60),
        Ok(())
    );
    for number in 0..60u32 {
        let key = list.key(alloc, number)?;
        let value = turned(alloc, &list, number)?;
        let before = tree.start();
        assert_eq!(rt;
            tree.change::<ExtentOrder>(&key, &value),
            Some(Removed::Done),
            "{number}"
        );
        assert_eq!(rt; tree.store.nodes.count_written(), 1, "{number}");
        assert_eq!(rt; tree.shape(), before, "{number}");
        assert!(rt; tree.has::<ExtentOrder>(&key, &value), "{number}");
    }
    Ok(())
}

/// Two nodes, of which one is the header node: the first pair takes the other.
#[test]
fn a_fresh_store_takes_a_pair(rt: HostRuntime) -> Result<(), Fail> {
    let key = [0, 10, 0, 0, 0, 0, 0, 16, 0, 0, 0, 5];
    assert!(rt; ExtentOrder::valid(&key));
    let store = plant::<ExtentOrder>(rt.alloc(), 512, 2, &key, &[7; 64])?;
    let shape = store.shape();
    assert_eq!(rt;
        (
            shape.depth,
            shape.root,
            shape.first,
            shape.last,
            shape.leaf_records,
            shape.free
        ),
        (1, 1, 1, 1, 1, 0)
    );
    assert_eq!(rt; store.count_written(), 2);
    Ok(())
}

/// Adds the pair of a number with room for so many writes.
fn add_within(
    alloc: Global,
    tree: &mut Grove,
    list: &Wanted,
    number: u32,
    writes: u32,
) -> Result<Option<Inserted>, OutOfMemory> {
    let key = list.key(alloc, number)?;
    let value = list.value(alloc, number)?;
    tree.limit(writes);
    Ok(tree.add::<ExtentOrder>(&key, &value))
}

/// Removes it.
fn take_within(
    alloc: Global,
    tree: &mut Grove,
    list: &Wanted,
    number: u32,
    writes: u32,
) -> Result<Option<Removed>, OutOfMemory> {
    let key = list.key(alloc, number)?;
    tree.limit(writes);
    Ok(tree.take_out::<ExtentOrder>(&key))
}

/// Gives it another value of the same length.
fn change_within(
    alloc: Global,
    tree: &mut Grove,
    list: &Wanted,
    number: u32,
    writes: u32,
) -> Result<Option<Removed>, OutOfMemory> {
    let key = list.key(alloc, number)?;
    let value = turned(alloc, list, number)?;
    tree.limit(writes);
    Ok(tree.change::<ExtentOrder>(&key, &value))
}

/// An edit of a tree with so many levels asks for four writes a level and eight more, and one of a value of the same length for one.
#[test]
fn an_edit_fails_without_room_for_its_writes(rt: HostRuntime) -> Result<(), Fail> {
    let alloc = rt.alloc();
    let mut tree = tree_of(alloc, 512)?;
    let list = wanted(alloc, Kind::Extents, 0, 65, 2)?;
    for (number, writes, answer) in [
        (0, 7, None),
        (0, 8, Some(Inserted::Done)),
        (1, 11, None),
        (1, 12, Some(Inserted::Done)),
        (1, 0, Some(Inserted::Exists)),
    ] {
        let added = add_within(alloc, &mut tree, &list, number, writes)?;
        assert_eq!(rt; added, answer, "{number}, {writes}");
    }
    for (writes, answer) in [(0, None), (1, Some(Removed::Done))] {
        let changed = change_within(alloc, &mut tree, &list, 0, writes)?;
        assert_eq!(rt; changed, answer, "{writes}");
    }
    for (writes, answer) in [
        (11, None),
        (12, Some(Removed::Done)),
        (0, Some(Removed::Absent)),
    ] {
        let gone = take_within(alloc, &mut tree, &list, 0, writes)?;
        assert_eq!(rt; gone, answer, "{writes}");
    }
    assert_eq!(rt; tree.shape().leaf_records, 1);
    Ok(())
}

/// The one free node takes the first pair. A second one wants two, and a removal of a key of one length none.
#[test]
fn an_edit_fails_without_free_nodes(rt: HostRuntime) -> Result<(), Fail> {
    let alloc = rt.alloc();
    let mut tree = Grove::new(alloc, 512, 2)?;
    let list = wanted(alloc, Kind::Extents, 0, 65, 2)?;
    for (number, answer) in [(0, Some(Inserted::Done)), (1, None)] {
        let added = add_within(alloc, &mut tree, &list, number, 100)?;
        assert_eq!(rt; added, answer, "{number}");
    }
    let gone = take_within(alloc, &mut tree, &list, 0, 100)?;
    assert_eq!(rt; gone, Some(Removed::Done));
    Ok(())
}

/// A removal fails without a free node where a longer key may come to the front.
#[test]
fn a_removal_fails_without_free_nodes(rt: HostRuntime) -> Result<(), Fail> {
    let alloc = rt.alloc();
    let mut names = Grove::new(alloc, 4096, 2)?;
    let key = named_key(alloc, 3, 5)?;
    let added = names.add::<CatalogOrder>(&key, &[7; 20]);
    assert_eq!(rt; added, Some(Inserted::Done));
    assert_eq!(rt; names.take_out::<CatalogOrder>(&key), None);
    assert!(rt; names.has::<CatalogOrder>(&key, &[7; 20]));
    Ok(())
}
