//! Numbers, modes, paths and bytes as words of a line, and what replies tell.
ghost use Rattle.std.specs.Prelude.{◌≡◌, ◌++◌, ◌∷◌, ◌+◌, ◌<◌, [], Ok, codes, drop, take, IfOk, IfSome, OnOk};
ghost use Rattle.hfs_language.specs.Language.{value_of};
ghost use Rattle.hfs_language.specs.Text as spec;
ghost use Rattle.files_talk.specs.Words.{path_text};

use crate::list::LineList;
use cmd_lang::read_value;
use hx_bytes::{Bytes, OutOfMemory};
use itoa::Buffer;
use std::alloc::{AllocError, Global};

/// The bytes of a file of which one line always has room, whatever they are.
pub const PIECE: usize = 45_056;

/// Appends a number, with a space in front.
pub fn push_number(lines: &mut LineList, number: u64) -> Result<(), AllocError>
    ensures { OnOk result (lines.new ≡ lines.old ++ spec.field number) }
{
    let mut buffer = Buffer::new();
    lines.push(b" ")?;
    lines.push(buffer.format(number).as_bytes())
}

/// Appends the low twelve bits of a mode in four octal digits, with a space in front.
pub fn push_mode(lines: &mut LineList, mode: u16) -> Result<(), AllocError>
    ensures { OnOk result (lines.new ≡ lines.old ++ 32 ∷ spec.mode_text mode) }
{
    lines.push(&[
        b' ',
        octal_digit(mode / 512 % 8),
        octal_digit(mode / 64 % 8),
        octal_digit(mode / 8 % 8),
        octal_digit(mode % 8),
    ])
}

fn octal_digit(value: u16) -> u8
    requires { value < 8 }
    ensures { result ≡ 48 + value }
{
    b'0' + value as u8
}

/// Appends a path, of which the root's word may be empty, with a space in front.
pub fn push_path(lines: &mut LineList, word: &str) -> Result<(), AllocError>
    ensures { OnOk result (lines.new ≡ lines.old ++ 32 ∷ path_text word.now) }
{
    lines.push(b" ")?;
    lines.push(spelled_path(word.as_bytes()))
}

// A path, of which the root's word may be empty.
fn spelled_path(word: &[u8]) -> &[u8]
    ensures { result.now ≡ path_text word.now }
{
    match word {
        [] => b"/",
        [_, ..] => word,
    }
}

/// Appends the line that writes bytes from an offset on into the file of a path.
pub fn push_written(
    lines: &mut LineList,
    word: &str,
    from: u64,
    bytes: &[u8],
) -> Result<(), AllocError>
    ensures { OnOk result (lines.new ≡ lines.old ++ codes "write" ++ 32 ∷ path_text word.now ++ spec.field from ++ codes " " ++ spec.value_text bytes.now ++ codes "\n") }
{
    lines.push(b"write")?;
    push_path(lines, word)?;
    push_number(lines, from)?;
    lines.push(b" ")?;
    lines.end_with_value(bytes)
}

/// Appends the line that sets an attribute of the entry of a path.
pub fn push_attribute(
    lines: &mut LineList,
    word: &str,
    name: &str,
    value: &[u8],
) -> Result<(), AllocError>
    ensures { OnOk result (lines.new ≡ lines.old ++ codes "setattr" ++ 32 ∷ path_text word.now ++ codes " " ++ name.now ++ codes " " ++ spec.value_text value.now ++ codes "\n") }
{
    lines.push(b"setattr")?;
    push_path(lines, word)?;
    lines.push(b" ")?;
    lines.push(name.as_bytes())?;
    lines.push(b" ")?;
    lines.end_with_value(value)
}

/// Whether a reply is `ok`, with or without more.
pub fn is_ok(reply: &[u8]) -> bool {
    reply == b"ok".as_slice() || reply.starts_with(b"ok ".as_slice())
}

/// The bytes that the reply to a `read` spells, or none where it spells none.
pub fn content_of(alloc: Global, reply: &[u8]) -> Result<Option<Bytes>, AllocError>
    ensures { IfOk result (λ found. IfSome found (λ value. value_of (drop 3 reply.now) ≡ Ok value)) }
{
    let Some(value) = behind_ok(reply) else {
        return Ok(None);
    };
    match read_value(alloc, value) {
        Ok(found) => Ok(found),
        Err(OutOfMemory) => Err(AllocError),
    }
}

// What stands behind `ok` and a space.
fn behind_ok(reply: &[u8]) -> Option<&[u8]>
    ensures { IfSome result (λ text. (take 3 reply.now ≡ codes "ok ") × (text.now ≡ drop 3 reply.now)) }
{
    match reply {
        [b'o', b'k', b' ', rest @ ..] => Some(rest),
        _ => None,
    }
}

/// What a `stat` tells. A folder's `size` is the number of its entries, and its `links` is 0. The date is that of the content, in seconds
/// since 1904.
#[derive(Clone, Copy, Debug, PartialEq, Eq)]
pub struct Facts {
    pub folder: bool,
    pub id: u64,
    pub size: u64,
    pub links: u64,
    pub mode: u32,
    pub created: u32,
    pub changed: u32,
}

/// The facts that the reply to a `stat` tells, or none where it tells none.
pub fn facts_of(reply: &[u8]) -> Option<Facts> {
    let text = str::from_utf8(reply).ok()?;
    let mut words = text.split(' ');
    if words.next()? != "ok" {
        return None;
    }
    let folder = words.next()? == "folder";
    let id = words.next()?.parse().ok()?;
    let size = words.next()?.parse().ok()?;
    let links = if folder {
        0
    } else {
        words.next()?.parse().ok()?
    };
    let mode = u32::from_str_radix(words.next()?, 8).ok()?;
    let created = words.next()?.parse().ok()?;
    let changed = words.next()?.parse().ok()?;
    Some(Facts {
        folder,
        id,
        size,
        links,
        mode,
        created,
        changed,
    })
}
