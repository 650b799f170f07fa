//! What is known of a stretch of flags.
ghost use Rattle.std.specs.Prelude.{◌≡◌};
ghost use Rattle.flag_rows.specs.Sums.{better, joined};

use hx_bytes::Extent;

/// How many flags a stretch has, how many are free, how many of these stand at both ends, and the first longest run,
/// from the stretch's begin on.
#[derive(Clone, Copy, Debug)]
pub struct Sum {
    pub size: u32,
    pub free: u32,
    pub front: u32,
    pub back: u32,
    pub top: Extent,
}

/// The longer one, and of two that are as long the first.
fn better_of(a: Extent, b: Extent) -> Extent
    ensures { result ≡ better a b }
{
    if a.count < b.count { b } else { a }
}

/// The sum of two stretches, one after the other.
pub fn join(a: Sum, b: Sum) -> Sum
    ensures { result ≡ joined a b }
{
    let front = if a.front == a.size {
        a.size.saturating_add(b.front)
    } else {
        a.front
    };
    let back = if b.front == b.size {
        a.back.saturating_add(b.size)
    } else {
        b.back
    };
    let middle = Extent {
        start: a.size.saturating_sub(a.back),
        count: a.back.saturating_add(b.front),
    };
    let right = Extent {
        start: a.size.saturating_add(b.top.start),
        count: b.top.count,
    };
    Sum {
        size: a.size.saturating_add(b.size),
        free: a.free.saturating_add(b.free),
        front,
        back,
        top: better_of(a.top, better_of(middle, right)),
    }
}
