//! Moves of bytes in a node, block by block.
ghost use Rattle.std.specs.Prelude.{◌≡◌, ◌≤◌, ◌+◌, length, slice_range};
ghost use Rattle.hx_bytes.specs.Field.{put_at};
ghost use Rattle.btree_node.specs.Bytes.{MovesUp, MovesDown};

const BLOCK: usize = 512;

/// Puts the bytes from `from` on to another place, which may overlap theirs.
fn move_block(bytes: &mut [u8], from: usize, to: usize, len: usize)
    requires short { len ≤ 512 }
    requires source { from + len ≤ length bytes.old }
    requires place { to + len ≤ length bytes.old }
    ensures { bytes.new ≡ put_at bytes.old to (slice_range bytes.old from (from + len)) }
{
    let mut block = [0u8; BLOCK];
    let part = &mut block[..len];
    part.copy_from_slice(&bytes[from..from + len]);
    bytes[to..to + len].copy_from_slice(part);
}

/// Moves the bytes from `at` up to `end` by this many places towards the end.
pub(crate) fn move_up(bytes: &mut [u8], at: usize, end: usize, by: usize)
    requires ordered { at ≤ end }
    requires within { end + by ≤ length bytes.old }
    ensures { MovesUp at end by bytes.old bytes.new }
{
    let mut from = end;
    while at < from {
        let len = BLOCK.min(from - at);
        from -= len;
        move_block(bytes, from, from + by, len);
    }
}

/// Moves the bytes from `at + by` up to `end` by this many places towards the front.
pub(crate) fn move_down(bytes: &mut [u8], at: usize, end: usize, by: usize)
    requires ordered { at + by ≤ end }
    requires within { end ≤ length bytes.old }
    ensures { MovesDown at end by bytes.old bytes.new }
{
    let mut from = at + by;
    while from < end {
        let len = BLOCK.min(end - from);
        move_block(bytes, from, from - by, len);
        from += len;
    }
}
