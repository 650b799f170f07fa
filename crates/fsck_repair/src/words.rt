//! Numbers of 32 bits.
ghost use Rattle.std.specs.Prelude.{◌≡◌};
ghost use Rattle.hx_bytes.specs.Field.{big};

/// The last 32 bits of a number.
pub(crate) fn low_word(number: u64) -> u32
    ensures { big 4 result ≡ big 4 number }
{
    (number % 4_294_967_296) as u32
}
