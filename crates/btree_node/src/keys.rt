//! The orders of the three trees of a volume.
ghost use Rattle.std.specs.Prelude.{◌≡◌, ◌<◌, ◌≤◌, ◌↔◌, ◌+◌, ◌*◌, ◌/◌, IsTrue, length, take};
ghost use Rattle.std.specs.Ordering.{nat_cmp};
ghost use Rattle.std.specs.Cmp.Lexicographic.{slice_cmp};
ghost use Rattle.btree_node.specs.Keys.{units, IsCatalogKey, IsExtentKey, IsAttrKey};

use crate::order::KeyOrder;
use hx_bytes::{read_be16, read_be32};
use std::cmp::Ordering;

/// The order of the catalog: the parent as a number, then the name unit by unit
/// (TN1150, "Catalog File Key", with binary compare).
pub struct CatalogOrder;

/// The order of the extents overflow file, whose values are eight extents (TN1150, "Extents Overflow File Key").
pub struct ExtentOrder;

/// The order of the attributes file (TN1150, "Attributes File").
pub struct AttrOrder;

impl KeyOrder for CatalogOrder {
    ghost use Rattle.std.proofs.Common.{refl, arith, false};
    ghost use Rattle.btree_node.specs.Keys.{IsCatalogKey, catalog_cmp, anything};
    ghost use Rattle.btree_node.specs.KeyLaws.{catalog_total, catalog_same, catalog_length};

    ghost is_key = { IsCatalogKey };

    ghost cmp = { catalog_cmp };

    ghost plain = { λ key. key };

    ghost is_value = { anything };

    ghost MAX = { 516 };

    ghost FIXED = { false };

    ghost total = { catalog_total };

    ghost same = { catalog_same };

    ghost plain_length = { λ _. refl };

    ghost key_length = { λ _ key. key.size };

    ghost key_most = { λ _ key. Prim.omega arith };

    ghost same_length = { catalog_length };

    ghost one_length = { λ _ _ fixed _ _. Prim.cc };

    const MAX: u32 = 516;

    const FIXED: bool = false;

    fn compare(a: &[u8], b: &[u8]) -> Ordering {
        let parent = read_be32(a, 2).cmp(&read_be32(b, 2));
        if parent.is_ne() {
            return parent;
        }
        compare_units(&a[8..], &b[8..])
    }

    fn valid(key: &[u8]) -> bool {
        if key.len() < 8 {
            return false;
        }
        let size = read_be16(key, 0) as usize;
        let units = read_be16(key, 6) as usize;
        key.len() == size + 2 && size == 6 + 2 * units && units <= 255
    }

    fn valid_value(_value: &[u8]) -> bool {
        true
    }
}

impl KeyOrder for ExtentOrder {
    ghost use Rattle.std.proofs.Common.{refl, arith, sym, ◌∙◌, true};
    ghost use Rattle.btree_node.specs.Keys.{IsExtentKey, extent_cmp, extent_plain, is_eight_extents};
    ghost use Rattle.btree_node.specs.KeyLaws.{extent_total, extent_same, extent_plain_length};

    ghost is_key = { IsExtentKey };

    ghost cmp = { extent_cmp };

    ghost plain = { extent_plain };

    ghost is_value = { is_eight_extents };

    ghost MAX = { 10 };

    ghost FIXED = { true };

    ghost total = { extent_total };

    ghost same = { extent_same };

    ghost plain_length = { extent_plain_length };

    ghost key_length = { λ _ key. Prim.omega arith };

    ghost key_most = { λ _ key. Prim.omega arith };

    ghost same_length = { λ _ _ first second _. first.long ∙ sym second.long };

    ghost one_length = { λ _ _ fixed first second. first.long ∙ sym second.long };

    const MAX: u32 = 10;

    const FIXED: bool = true;

    fn compare(a: &[u8], b: &[u8]) -> Ordering {
        read_be32(a, 4).cmp(&read_be32(b, 4)).then(
            a[2].cmp(&b[2]).then(read_be32(a, 8).cmp(&read_be32(b, 8))),
        )
    }

    fn valid(key: &[u8]) -> bool {
        key.len() == 12 && read_be16(key, 0) == 10 && (key[2] == 0 || key[2] == 255)
    }

    fn valid_value(value: &[u8]) -> bool {
        value.len() == 64
    }
}

impl KeyOrder for AttrOrder {
    ghost use Rattle.std.proofs.Common.{refl, arith, false};
    ghost use Rattle.btree_node.specs.Keys.{IsAttrKey, attr_cmp, attr_plain, anything};
    ghost use Rattle.btree_node.specs.KeyLaws.{attr_total, attr_same, attr_length, attr_plain_length};

    ghost is_key = { IsAttrKey };

    ghost cmp = { attr_cmp };

    ghost plain = { attr_plain };

    ghost is_value = { anything };

    ghost MAX = { 266 };

    ghost FIXED = { false };

    ghost total = { attr_total };

    ghost same = { attr_same };

    ghost plain_length = { attr_plain_length };

    ghost key_length = { λ _ key. key.size };

    ghost key_most = { λ _ key. Prim.omega arith };

    ghost same_length = { attr_length };

    ghost one_length = { λ _ _ fixed _ _. Prim.cc };

    const MAX: u32 = 266;

    const FIXED: bool = false;

    fn compare(a: &[u8], b: &[u8]) -> Ordering {
        let file = read_be32(a, 4).cmp(&read_be32(b, 4));
        let name = compare_units(&a[14..], &b[14..]);
        let start = read_be32(a, 8).cmp(&read_be32(b, 8));
        file.then(name.then(start))
    }

    fn valid(key: &[u8]) -> bool {
        if key.len() < 14 {
            return false;
        }
        let size = read_be16(key, 0) as usize;
        let units = read_be16(key, 12) as usize;
        key.len() == size + 2 && size == 12 + 2 * units && units <= 127
    }

    fn valid_value(_value: &[u8]) -> bool {
        true
    }
}

/// The order of the first numbers of two bytes each that differ, or else that of how many there are. Names are short, so each pair is
/// looked at by itself.
fn compare_units(a: &[u8], b: &[u8]) -> Ordering
    ensures { result ≡ slice_cmp nat_cmp (units a.now) (units b.now) }
{
    let (first, _half) = a.as_chunks::<2>();
    let (second, _half) = b.as_chunks::<2>();
    let both = first.len().min(second.len());
    for i in 0..both {
        let unit = read_be16(&first[i], 0);
        let other = read_be16(&second[i], 0);
        let order = unit.cmp(&other);
        if order.is_ne() {
            return order;
        }
    }
    first.len().cmp(&second.len())
}
