//! The bits of a map in the bytes of a node, the highest bit of a byte first.
ghost use Rattle.std.specs.Prelude.{◌≡◌, ◌<◌, ◌≤◌, ◌*◌, ℕ, true, false, length};
ghost use Rattle.flag_rows.specs.Bits.{bit_of};
ghost use Rattle.btree_node.specs.TreeFile.{SetsBit};

use flag_rows::bytes::first;

pub(crate) fn set_bit(node: &mut [u8], at: usize, value: bool)
    requires { at < 8 * length node.old }
    ensures { SetsBit at value node.old node.new }
{
    let place = at / 8;
    let flag = 1u8 << (7 - at % 8);
    if value {
        node[place] |= flag;
    } else {
        node[place] &= !flag;
    }
}

/// The first bit from a place on, up to another, that is clear, or the other place.
pub(crate) fn first_clear(node: &[u8], start: usize, end: usize) -> usize
    requires order { start ≤ end }
    requires inside { end ≤ 8 * length node.now }
    ensures from { start ≤ result }
    ensures to { result ≤ end }
    ensures before { (k : ℕ) → start ≤ k → k < result → bit_of node.now k ≡ true }
    ensures clear { result < end → bit_of node.now result ≡ false }
{
    first(node, start, end, false)
}
