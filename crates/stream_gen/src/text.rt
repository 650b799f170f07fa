//! Pieces of a line, each appended to a text.
ghost use Rattle.std.specs.Prelude.{◌≡◌, ◌++◌, ◌+◌, ◌/◌, ◌%◌, ◌<◌, OnOk};
ghost use Rattle.stream_gen.specs.Stream as spec;

use hx_bytes::OutOfMemory;
use itoa::Buffer;

pub(crate) fn push(text: &mut Vec<u8>, bytes: &[u8]) -> Result<(), OutOfMemory>
    ensures { OnOk result (text.new.items ≡ text.old.items ++ bytes.now) }
{
    text.extend_from_slice(bytes)?;
    Ok(())
}

/// The folder of a line's group, with a space in front.
pub(crate) fn push_folder(text: &mut Vec<u8>, i: u64) -> Result<(), OutOfMemory>
    ensures { OnOk result (text.new.items ≡ text.old.items ++ spec.folder_of i) }
{
    let mut buffer = Buffer::new();
    push(text, b" /d")?;
    push(text, buffer.format(i / 8).as_bytes())
}

/// The value that a line writes.
pub(crate) fn push_value(text: &mut Vec<u8>, seed: u64, i: u64) -> Result<(), OutOfMemory>
    ensures { OnOk result (text.new.items ≡ text.old.items ++ spec.value_of seed i) }
{
    let value = (seed as u128 * (i as u128 + 1) % 100_000_000) as u32;
    push(
        text,
        &[
            digit(value, 10_000_000),
            digit(value, 1_000_000),
            digit(value, 100_000),
            digit(value, 10_000),
            digit(value, 1_000),
            digit(value, 100),
            digit(value, 10),
            digit(value, 1),
        ],
    )
}

/// The digit of a number at the place of this power of ten.
fn digit(value: u32, place: u32) -> u8
    requires { 0 < place }
    ensures { result ≡ 48 + value / place % 10 }
{
    b'0' + (value / place % 10) as u8
}
