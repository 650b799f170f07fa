//! Numbers and values are printed into bytes.
ghost use Rattle.std.specs.Prelude.{◌≡◌, ◌++◌, ◌<◌, true, IfOk, OnOk};
ghost use Rattle.std.specs.List.{flat_map, list_all};
ghost use Rattle.std.specs.Fmt.{digit_glyph};
ghost use Rattle.hfs_language.specs.Text as spec;

use crate::pieces::push_pieces;
use itoa::Buffer;
use std::alloc::{AllocError, Global};

/// Appends a number with a space in front.
pub fn push_field(text: &mut Vec<u8>, number: u64) -> Result<(), AllocError>
    ensures { OnOk result (text.new.items ≡ text.old.items ++ spec.field number) }
{
    let mut buffer = Buffer::new();
    text.extend_from_slice(b" ")?;
    text.extend_from_slice(buffer.format(number).as_bytes())
}

/// A value, with `=` in front.
pub(crate) fn value_text(alloc: Global, value: &[u8]) -> Result<Vec<u8>, AllocError>
    ensures { IfOk result (λ text. text.items ≡ spec.value_text value.now) }
{
    let mut text = Vec::new(alloc);
    push_value_text(&mut text, value)?;
    Ok(text)
}

/// Appends a value, with `=` in front.
pub(crate) fn push_value_text(text: &mut Vec<u8>, value: &[u8]) -> Result<(), AllocError>
    ensures { OnOk result (text.new.items ≡ text.old.items ++ spec.value_text value.now) }
{
    text.extend_from_slice(b"=")?;
    push_bytes(text, value)
}

/// Appends each byte as a value spells it.
pub(crate) fn push_bytes(text: &mut Vec<u8>, value: &[u8]) -> Result<(), AllocError>
    ensures { OnOk result (text.new.items ≡ text.old.items ++ flat_map spec.byte_text value.now) }
{
    if are_plain(value) {
        return text.extend_from_slice(value);
    }
    push_pieces(text, value)
}

/// Whether each byte stands for itself in a value.
pub(crate) fn are_plain(bytes: &[u8]) -> bool
    ensures { result ≡ list_all spec.is_plain bytes.now }
{
    // Without a branch for each byte the compiler looks at many of them at once.
    let mut plain = true;
    for byte in bytes {
        plain &= is_plain(*byte);
    }
    plain
}

/// A byte that stands for itself in a value.
pub(crate) fn is_plain(byte: u8) -> bool
    ensures { result ≡ spec.is_plain byte }
{
    byte >= 33 && byte <= 126 && byte != b'%'
}

/// An upper-case hexadecimal digit.
pub(crate) fn hex_digit(value: u8) -> u8
    requires { value < 16 }
    ensures { result ≡ digit_glyph true value }
{
    if value < 10 {
        b'0' + value
    } else {
        b'A' + (value - 10)
    }
}
