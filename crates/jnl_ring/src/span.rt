// Where a journal lies, and its offsets.
ghost use Rattle.std.specs.Prelude.{◌≡◌, ◌≤◌, ◌-◌};
ghost use Rattle.jnl_format.specs.Ring.{distance, offset_after};
ghost use Rattle.jnl_ring.specs.Span.{InBuffer, IsSpan};

/// A journal's first sector, and its size in bytes. The first sector is its header, and the rest is
/// the buffer, which wraps.
#[derive(Clone, Copy, Debug, PartialEq, Eq)]
pub struct Span {
    pub base: u64,
    pub size: u64,
}

/// The offset so many bytes further on.
pub fn advance(span: &Span, at: u64, by: u64) -> u64
    requires span { IsSpan span.now }
    requires at { InBuffer span.now at }
    requires by { by ≤ span.now.size - 512 }
    ensures after { result ≡ offset_after span.now.size at by }
    ensures inside { InBuffer span.now result }
{
    let end = at + by;
    if end < span.size {
        end
    } else {
        end - span.size + 512
    }
}

/// How many bytes of the buffer lie between these offsets: none where they are equal.
pub fn used_bytes(span: &Span, start: u64, end: u64) -> u64
    requires span { IsSpan span.now }
    requires start { InBuffer span.now start }
    requires end { InBuffer span.now end }
    ensures { result ≡ distance span.now.size start end }
{
    if start <= end {
        end - start
    } else {
        (span.size - 512) - (start - end)
    }
}
