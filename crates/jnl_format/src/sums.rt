//! The checksum of journal headers and block lists.
ghost use Rattle.std.specs.Prelude.{◌≡◌};
ghost use Rattle.jnl_format.specs.Checksum.{checksum_of};

/// The checksum of these bytes (TN1150, "Journal Checksums").
#[tactic(auto, unfolding(crate::specs::Checksum::checksum_of))]
pub fn checksum(bytes: &[u8]) -> u32
    ensures { result ≡ checksum_of bytes.now }
{
    let mut sum: u32 = 0;
    for byte in bytes {
        sum = sum.wrapping_mul(256) ^ sum.wrapping_add(u32::from(*byte));
    }
    u32::MAX - sum
}
