//! A line that ends in a value whose bytes aren't spelled.
ghost use Rattle.std.specs.Prelude.{◌≡◌, ◌≤◌, ◌++◌, [], length, nat_lt, Ok, Err, IfOk, IfSome, IsTrue};
ghost use Rattle.std.specs.List.{flat_map};
ghost use Rattle.hfs_language.specs.Language.{command_of};
ghost use Rattle.hfs_language.specs.Text as spec;
ghost use Rattle.hfs_language.specs.declared.refusal.Refusal.{Refusal};
ghost use Rattle.cmd_lang.specs.Reads.{Reads};
ghost use Rattle.cmd_lang.specs.Written.{IsSpelledWrite};
ghost use Rattle.cmd_lang.specs.declared.fault.LineFault.TheVariants.{No};

use crate::LineFault;
use crate::line::{MOST_BYTES, read_bytes};
use crate::print::{is_plain, push_value_text};
use crate::spelled::look_at_bytes;
use crate::written::{SpelledWrite, read_spelled_write, write_words};
use hfs_language::{Command, Refusal};
use hx_bytes::Bytes;
use std::alloc::{AllocError, Global};

/// The command of the line that is this text with the text of a value behind it. Of a `write` the value is taken as it is, without spelling it.
pub fn read_valued(alloc: Global, head: &[u8], value: &[u8]) -> Result<Command, LineFault>
    ensures command { IfOk result (λ command. command_of (head.now ++ spec.value_text value.now) ≡ Ok command) }
    ensures refused { (why : Refusal) → result ≡ Err (No why) → command_of (head.now ++ spec.value_text value.now) ≡ Err why }
{
    match read_parts(alloc, head, value) {
        Ok(command) => Ok(command),
        Err(fault) => Err(fault),
    }
}

#[tactic(auto, unfolding(hfs_language::specs::Language::command_of))]
fn read_parts(alloc: Global, head: &[u8], value: &[u8]) -> Result<Command, LineFault>
    ensures { Reads (command_of (head.now ++ spec.value_text value.now)) result }
{
    if is_too_long(head, value) {
        return Err(LineFault::No(Refusal::TooLong));
    }
    if let Some(write) = given_write(alloc, head, value)? {
        return read_spelled_write(alloc, write);
    }
    read_spelled(alloc, head, value)
}

/// Whether the text has more bytes than a line may have.
fn is_too_long(head: &[u8], value: &[u8]) -> bool
    ensures { result ≡ nat_lt 140000 (length (head.now ++ spec.value_text value.now)) }
{
    if head.len() > MOST_BYTES {
        return true;
    }
    if value.len() > MOST_BYTES {
        return true;
    }
    // (the value's text begins with `=`)
    head.len() + 1 + text_length(value) > MOST_BYTES
}

/// How many bytes spell these.
fn text_length(value: &[u8]) -> usize
    requires { length value.now ≤ 140000 }
    ensures few { result ≤ 420000 }
    ensures length { result ≡ length (flat_map spec.byte_text value.now) }
{
    let mut count = 0;
    for byte in value {
        count += spelling_length(*byte);
    }
    count
}

fn spelling_length(byte: u8) -> usize
    ensures few { result ≤ 3 }
    ensures length { result ≡ length (spec.byte_text byte) }
{
    if is_plain(byte) { 1 } else { 3 }
}

/// The parts of a `write` whose value this is, if the line is one.
fn given_write<'l>(
    alloc: Global,
    head: &'l [u8],
    value: &[u8],
) -> Result<Option<SpelledWrite<'l>>, AllocError>
    ensures { IfOk result (λ found. IfSome found (λ write. IsSpelledWrite (head.now ++ spec.value_text value.now) write.path.now write.from.now write.value)) }
{
    match write_words(head) {
        Some((path, from, last)) => if last.is_empty() {
            look_at_bytes(value);
            Ok(Some(SpelledWrite {
                path,
                from,
                value: Bytes::from_vec(Vec::from_slice(alloc, value)?),
            }))
        } else {
            Ok(None)
        },
        None => Ok(None),
    }
}

/// The command of the line when it is spelled.
fn read_spelled(alloc: Global, head: &[u8], value: &[u8]) -> Result<Command, LineFault>
    ensures { Reads (command_of (head.now ++ spec.value_text value.now)) result }
{
    let mut text = Vec::from_slice(alloc, head)?;
    push_value_text(&mut text, value)?;
    read_bytes(alloc, &text)
}
