//! Nodes and keys as TN1150 spells them.

use btree_node::{AttrOrder, CatalogOrder, ExtentOrder, KeyOrder, Node};
use std::alloc::Global;
use std::cmp::Ordering;

/// Puts a record into a leaf that has room for it.
fn put(node: &mut Node, i: u16, key: &[u8], value: &[u8]) -> bool {
    if !node.check(-1, 1) || i > node.count() || key.len() > 1000 || value.len() > 1000 {
        return false;
    }
    if key.len() + value.len() + 2 > node.room() as usize {
        return false;
    }
    node.insert(i, key, value);
    true
}

/// Puts a record in the place of another.
fn change(node: &mut Node, i: u16, key: &[u8], value: &[u8]) -> bool {
    if !node.check(-1, 1) || i >= node.count() || key.len() > 1000 || value.len() > 1000 {
        return false;
    }
    if key.len() + value.len() > node.room() as usize {
        return false;
    }
    node.replace(i, key, value);
    true
}

fn drop_record(node: &mut Node, i: u16) -> bool {
    if !node.check(-1, 1) || i >= node.count() {
        return false;
    }
    node.remove(i);
    true
}

fn room_of(node: &Node) -> u32 {
    if node.check(-1, 1) { node.room() } else { 0 }
}

fn leaf(alloc: Global) -> Option<Node> {
    match Node::new(alloc, 512) {
        Ok(mut node) => {
            node.clear(-1, 1);
            Some(node)
        }
        Err(_) => None,
    }
}

/// Writes bytes at a place of a picture of a node.
fn paint(picture: &mut [u8; 512], at: usize, bytes: &[u8]) {
    let mut place = at;
    for byte in bytes {
        if place < 512 {
            picture[place] = *byte;
            place += 1;
        }
    }
}

#[test]
fn a_leaf_is_laid_out_from_both_ends(rt: HostRuntime) {
    let mut node = leaf(rt.alloc()).expect(&rt, "memory");
    assert!(rt; put(&mut node, 0, b"\x00\x02cc", b"third"));
    assert!(rt; put(&mut node, 0, b"\x00\x02aa", b"first one"));
    assert!(rt; put(&mut node, 1, b"\x00\x02bb", b""));
    node.set_links(0x01020304, 7);
    let mut want = [0u8; 512];
    paint(
        &mut want,
        0,
        b"\x01\x02\x03\x04\x00\x00\x00\x07\xff\x01\x00\x03",
    );
    paint(
        &mut want,
        14,
        b"\x00\x02aafirst one\x00\x02bb\x00\x02ccthird",
    );
    paint(&mut want, 504, b"\x00\x28\x00\x1f\x00\x1b\x00\x0e");
    assert!(rt; node.bytes() == want.as_slice());
    assert_eq!(rt; room_of(&node), 464);
    assert!(rt; change(&mut node, 1, b"\x00\x02bb", b"now some"));
    assert!(rt; drop_record(&mut node, 0));
    assert!(rt; node.check(-1, 1) && node.count() == 2);
    if node.check(-1, 1) && node.count() == 2 {
        assert!(rt; node.item(0) == b"\x00\x02bbnow some".as_slice());
        assert!(rt; node.item(1) == b"\x00\x02ccthird".as_slice());
    }
    assert_eq!(rt; room_of(&node), 471);
    assert_eq!(rt; node.links(), (0x01020304, 7));
}

#[test]
fn the_grammar_of_a_node(rt: HostRuntime) {
    // what is written over a sound leaf of two records of five bytes, and whether it is still one
    let cases: [(usize, &[u8], bool, &str); 11] = [
        (508, b"\x00\x13\x00\x0e", true, "the leaf itself"),
        (510, b"\x00\x10", true, "the first record begins later"),
        (
            510,
            b"\x00\x0d",
            false,
            "the first record begins in the descriptor",
        ),
        (
            508,
            b"\x00\x0d",
            false,
            "an offset is lower than the one before",
        ),
        (508, b"\x00\x0e", true, "a record without bytes"),
        (506, b"\x01\xfa", true, "no byte is free"),
        (
            506,
            b"\x01\xfb",
            false,
            "the last offset is past the offsets",
        ),
        (10, b"\x00\xfa", false, "more records than offsets"),
        (10, b"\x01\x00", false, "the offsets are the whole node"),
        (8, b"\x00", false, "another kind"),
        (9, b"\x02", false, "another height"),
    ];
    for (at, bytes, want, shows) in cases {
        let mut node = leaf(rt.alloc()).expect(&rt, "memory");
        let mut picture = [0u8; 512];
        paint(&mut picture, 8, b"\xff\x01\x00\x02");
        paint(&mut picture, 506, b"\x00\x18\x00\x13\x00\x0e");
        paint(&mut picture, at, bytes);
        node.fill(0, &picture);
        assert_eq!(rt; node.check(-1, 1), want, "{shows}");
    }
}

#[test]
fn records_that_begin_late_leave_their_room(rt: HostRuntime) {
    let mut node = leaf(rt.alloc()).expect(&rt, "memory");
    let mut picture = [0u8; 512];
    paint(&mut picture, 8, b"\xff\x01\x00\x01");
    paint(&mut picture, 480, b"late");
    paint(&mut picture, 508, b"\x01\xe4\x01\xe0");
    node.fill(0, &picture);
    assert_eq!(rt; room_of(&node), 490);
    let long = [9u8; 400];
    assert!(rt; put(&mut node, 1, &long, b"the end"));
    if node.check(-1, 1) && node.count() == 2 {
        assert!(rt; node.item(0) == b"late".as_slice());
        assert!(rt; node.item(1).ends_with(b"the end"));
    }
    assert_eq!(rt; room_of(&node), 81);
}

/// Compares two keys, or answers none where one of them isn't a key.
fn order_of<K: KeyOrder>(a: &[u8], b: &[u8]) -> Option<Ordering> {
    if K::valid(a) && K::valid(b) {
        Some(K::compare(a, b))
    } else {
        None
    }
}

#[test]
fn names_of_one_folder_stand_together(rt: HostRuntime) {
    let one_z = b"\x00\x08\x00\x00\x00\x01\x00\x01\x00z";
    let two = b"\x00\x06\x00\x00\x00\x02\x00\x00";
    let two_a = b"\x00\x08\x00\x00\x00\x02\x00\x01\x00a";
    let two_ab = b"\x00\x0a\x00\x00\x00\x02\x00\x02\x00a\x00b";
    let two_high = b"\x00\x08\x00\x00\x00\x02\x00\x01\x01a";
    let wrong_length = b"\x00\x09\x00\x00\x00\x02\x00\x01\x00a";
    let cases: [(&[u8], &[u8], Option<Ordering>); 7] = [
        (two_a, two_ab, Some(Ordering::Less)),
        (two_a, one_z, Some(Ordering::Greater)),
        (two, two_a, Some(Ordering::Less)),
        (one_z, two, Some(Ordering::Less)),
        (two_ab, two_high, Some(Ordering::Less)),
        (two_ab, two_ab, Some(Ordering::Equal)),
        (two_a, wrong_length, None),
    ];
    for (a, b, want) in cases {
        assert!(rt; order_of::<CatalogOrder>(a, b) == want, "{a:?} and {b:?}");
    }
}

#[test]
fn the_other_orders(rt: HostRuntime) {
    // length, fork, pad, file, start
    let first = b"\x00\x0a\x00\x00\x00\x00\x00\x10\x00\x00\x01\x00";
    let resource = b"\x00\x0a\xff\x00\x00\x00\x00\x10\x00\x00\x00\x08";
    let padded = b"\x00\x0a\x00\x07\x00\x00\x00\x10\x00\x00\x01\x00";
    let later = b"\x00\x0a\x00\x00\x00\x00\x00\x11\x00\x00\x00\x00";
    let other_fork = b"\x00\x0a\x01\x00\x00\x00\x00\x11\x00\x00\x00\x00";
    assert!(rt; order_of::<ExtentOrder>(first, resource) == Some(Ordering::Less));
    assert!(rt; order_of::<ExtentOrder>(resource, later) == Some(Ordering::Less));
    assert!(rt; order_of::<ExtentOrder>(first, padded) == Some(Ordering::Equal));
    assert!(rt; order_of::<ExtentOrder>(first, other_fork) == None);
    // length, pad, file, start, name length, name
    let attr = b"\x00\x0e\x00\x00\x00\x00\x00\x10\x00\x00\x00\x09\x00\x01\x00a";
    let longer = b"\x00\x10\x00\x00\x00\x00\x00\x10\x00\x00\x00\x00\x00\x02\x00a\x00a";
    let next = b"\x00\x0e\x00\x00\x00\x00\x00\x11\x00\x00\x00\x00\x00\x01\x00a";
    assert!(rt; order_of::<AttrOrder>(attr, longer) == Some(Ordering::Less));
    assert!(rt; order_of::<AttrOrder>(longer, next) == Some(Ordering::Less));
    assert!(rt; order_of::<AttrOrder>(attr, first) == None);
    assert_eq!(rt;
        (CatalogOrder::MAX, ExtentOrder::MAX, AttrOrder::MAX),
        (516, 10, 266)
    );
    assert!(rt; ExtentOrder::FIXED && !CatalogOrder::FIXED && !AttrOrder::FIXED);
}
