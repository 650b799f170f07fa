//! A `write` whose value is in its one spelling: only of the words before it is it asked whether they are text.
ghost use Rattle.std.specs.Prelude.{◌≡◌, ◌++◌, ◌∷◌, Ok, IfOk, IfSome, codes};
ghost use Rattle.hfs_language.specs.Language as spec;
ghost use Rattle.hfs_language.specs.declared.command.Command.TheVariants.{Write};
ghost use Rattle.cmd_lang.specs.Reads.{Reads};
ghost use Rattle.cmd_lang.specs.Written.{HasNoSpace, IsSpelledWrite, IsWrite};

use crate::LineFault;
use crate::fault::both;
use crate::line::text_of;
use crate::path::read_path;
use crate::spelled::value_bytes;
use crate::words::read_number;
use hfs_language::{Command, Path};
use hx_bytes::Bytes;
use memchr::memchr;
use std::alloc::{AllocError, Global};

/// The path, the place and the value of such a line.
#[derive(Drop)]
pub(crate) struct SpelledWrite<'l> {
    pub(crate) path: &'l str,
    pub(crate) from: &'l str,
    pub(crate) value: Bytes,
}

/// Such a line in its parts, if it is one.
pub(crate) fn spelled_write<'l>(
    alloc: Global,
    line: &'l [u8],
) -> Result<Option<SpelledWrite<'l>>, AllocError>
    ensures { IfOk result (λ found. IfSome found (λ write. IsSpelledWrite line.now write.path.now write.from.now write.value)) }
{
    match write_words(line) {
        Some((path, from, last)) => match value_bytes(alloc, last)? {
            Some(value) => Ok(Some(SpelledWrite {
                path,
                from,
                value: Bytes::from_vec(value),
            })),
            None => Ok(None),
        },
        None => Ok(None),
    }
}

/// The words of a `write` behind the first.
pub(crate) fn write_words(line: &[u8]) -> Option<(&str, &str, &[u8])>
    ensures { IfSome result (λ words. IsWrite line.now words.0.now words.1.now words.2.now) }
{
    let behind = line.strip_prefix(b"write ".as_slice())?;
    let (path, other) = first_word(behind)?;
    let (from, last) = first_word(other)?;
    let path = text_of(path)?;
    let from = text_of(from)?;
    Some((path, from, last))
}

/// The bytes before the first space, and those behind it.
fn first_word(bytes: &[u8]) -> Option<(&[u8], &[u8])>
    ensures { IfSome result (λ parts. (bytes.now ≡ parts.0.now ++ 32 ∷ parts.1.now) × HasNoSpace parts.0.now) }
{
    let at = memchr(b' ', bytes)?;
    Some((&bytes[..at], &bytes[at + 1..]))
}

/// The command of such a line.
pub(crate) fn read_spelled_write(alloc: Global, write: SpelledWrite) -> Result<Command, LineFault>
    ensures { Reads (spec.after (λ p. Write p.0 p.1.0 p.1.1) (spec.both (spec.path_of write.entry.path.now) (spec.both (spec.number_of write.entry.from.now) (Ok write.entry.value)))) result }
{
    let SpelledWrite { path, from, value } = write;
    let (path, (from, value)) = path_and_value(alloc, path, from, value)?;
    Ok(Command::Write { path, from, value })
}

fn path_and_value(
    alloc: Global,
    path: &str,
    from: &str,
    value: Bytes,
) -> Result<(Path, (u64, Bytes)), LineFault>
    ensures { Reads (spec.both (spec.path_of path.now) (spec.both (spec.number_of from.now) (Ok value))) result }
{
    let first = read_path(alloc, path);
    let second = number_and_value(from, value);
    both(first, second)
}

fn number_and_value(from: &str, value: Bytes) -> Result<(u64, Bytes), LineFault>
    ensures { Reads (spec.both (spec.number_of from.now) (Ok value)) result }
{
    both(read_number(from), Ok(value))
}
