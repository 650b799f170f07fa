//! Edits of one record in a node: its bytes, and then the offsets.
ghost use Rattle.std.specs.Prelude.{◌≡◌, ◌<◌, ◌≤◌, ℕ, ◌+◌, ◌*◌, ◌++◌, [], length, insert, remove, slice_index_or};
ghost use Rattle.hx_bytes.specs.Field.{put_at};
ghost use Rattle.btree_node.specs.Node.{IsNode, SameHead, offset, record_count, items, room_beside};
ghost use Rattle.btree_node.specs.Bytes.{OpensData, OpensSlot, ClosesSlot, SetsCount, Packs, InsertsRecord, RemovesRecord, OverwritesRecord};

use crate::bytes::{count_records, get_offset, lower_offsets, raise_offsets, set_offset};
use crate::moves::{move_down, move_up};
use hx_bytes::write_be16;

fn put_record(node: &mut [u8], at: usize, key: &[u8], value: &[u8])
    requires { at + (length key.now + length value.now) ≤ length node.old }
    ensures { node.new ≡ put_at node.old at (key.now ++ value.now) }
{
    let between = at + key.len();
    node[at..between].copy_from_slice(key);
    node[between..between + value.len()].copy_from_slice(value);
}

fn open_data(node: &mut [u8], at: usize, end: usize, key: &[u8], value: &[u8])
    requires ordered { at ≤ end }
    requires within { end + (length key.now + length value.now) ≤ length node.old }
    ensures { OpensData at end (key.now ++ value.now) node.old node.new }
{
    move_up(node, at, end, key.len() + value.len());
    put_record(node, at, key, value);
}

fn set_count(node: &mut [u8], n: usize)
    requires size { 512 ≤ length node.old }
    requires small { n < 65536 }
    ensures { SetsCount n node.old node.new }
{
    write_be16(node, 10, n as u16);
}

/// Makes room for one offset more, and sets it and those behind it.
fn open_slot(node: &mut [u8], i: usize, n: usize, at: usize, len: usize)
    requires inside { i ≤ n }
    requires room { 14 + 2 * (n + 2) ≤ length node.old }
    requires size { 512 ≤ length node.old }
    requires small { length node.old ≤ 32768 }
    requires low { at < 65536 }
    requires fits { (j : ℕ) → i ≤ j → j ≤ n → offset node.old j + len < 65536 }
    ensures { OpensSlot i n at len node.old node.new }
{
    let size = node.len();
    move_down(node, size - 2 * (n + 2), size - 2 * i, 2);
    set_offset(node, i, at as u16);
    raise_offsets(node, i + 1, n + 2, len);
    set_count(node, n + 1);
}

/// Takes one offset away, and lowers those behind it.
fn close_slot(node: &mut [u8], i: usize, n: usize, len: usize)
    requires inside { i < n }
    requires room { 14 + 2 * (n + 1) ≤ length node.old }
    requires size { 512 ≤ length node.old }
    requires small { length node.old ≤ 32768 }
    requires fits { (j : ℕ) → i < j → j ≤ n → len ≤ offset node.old j }
    ensures { ClosesSlot i n len node.old node.new }
{
    let size = node.len();
    move_up(node, size - 2 * (n + 1), size - 2 * (i + 1), 2);
    lower_offsets(node, i, n, len);
    set_count(node, n - 1);
}

/// Puts one record more behind the first `i`.
pub(crate) fn insert_record(node: &mut [u8], i: usize, key: &[u8], value: &[u8])
    requires size { 512 ≤ length node.old }
    requires small { length node.old ≤ 32768 }
    requires well_formed { IsNode node.old }
    requires inside { i ≤ length (items node.old) }
    requires packed { offset node.old 0 ≡ 14 }
    requires room { length key.now + length value.now + 2 ≤ room_beside (length node.old) (items node.old) }
    ensures { InsertsRecord i (key.now ++ value.now) node.old node.new }
{
    let n = count_records(node);
    let at = get_offset(node, i);
    let end = get_offset(node, n);
    open_data(node, at, end, key, value);
    open_slot(node, i, n, at, key.len() + value.len());
}

/// Takes one record away.
pub(crate) fn remove_record(node: &mut [u8], i: usize)
    requires size { 512 ≤ length node.old }
    requires small { length node.old ≤ 32768 }
    requires well_formed { IsNode node.old }
    requires inside { i < length (items node.old) }
    ensures { RemovesRecord i node.old node.new }
{
    let n = count_records(node);
    let at = get_offset(node, i);
    let to = get_offset(node, i + 1);
    let end = get_offset(node, n);
    let len = to - at;
    move_down(node, at, end, len);
    close_slot(node, i, n, len);
}

/// Puts a record in the place of another of its length.
pub(crate) fn overwrite_record(node: &mut [u8], i: usize, key: &[u8], value: &[u8])
    requires size { 512 ≤ length node.old }
    requires well_formed { IsNode node.old }
    requires inside { i < length (items node.old) }
    requires length { length key.now + length value.now ≡ length (slice_index_or (items node.old) i []) }
    ensures { OverwritesRecord i (key.now ++ value.now) node.old node.new }
{
    let at = get_offset(node, i);
    put_record(node, at, key, value);
}

/// Brings the first record to the end of the descriptor.
pub(crate) fn pack(node: &mut [u8])
    requires size { 512 ≤ length node.old }
    requires well_formed { IsNode node.old }
    ensures { Packs node.old node.new }
{
    let n = count_records(node);
    let first = get_offset(node, 0);
    if first > 14 {
        let end = get_offset(node, n);
        move_down(node, 14, end, first - 14);
        lower_offsets(node, 0, n + 1, first - 14);
    }
}
