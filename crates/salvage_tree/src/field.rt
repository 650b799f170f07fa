//! Numbers in bytes, where there are bytes for them.

/// The number in the two bytes from `at` on.
pub(crate) fn number16(bytes: &[u8], at: usize) -> Option<u16> {
    match bytes.get(at..at.saturating_add(2)) {
        Some([a, b]) => Some(u16::from_be_bytes([*a, *b])),
        _ => None,
    }
}

/// The number in the four bytes from `at` on.
pub(crate) fn number32(bytes: &[u8], at: usize) -> Option<u32> {
    match bytes.get(at..at.saturating_add(4)) {
        Some([a, b, c, d]) => Some(u32::from_be_bytes([*a, *b, *c, *d])),
        _ => None,
    }
}

/// The number in the eight bytes from `at` on.
pub(crate) fn number64(bytes: &[u8], at: usize) -> Option<u64> {
    let high = number32(bytes, at)?;
    let low = number32(bytes, at.saturating_add(4))?;
    Some(u64::from(high) << 32 | u64::from(low))
}
