//! A line is read to a command.
ghost use Rattle.std.specs.Prelude.{◌≡◌, ◌==◌, true, false, Ok, Err, IfOk, IfSome, IfNone};
ghost use Rattle.std.specs.List.{slice_split};
ghost use Rattle.std.specs.Str.{is_utf8};
ghost use Rattle.hfs_language.specs.Language.{command_of, words_command};
ghost use Rattle.hfs_language.specs.declared.refusal.Refusal.{Refusal};
ghost use Rattle.cmd_lang.specs.Reads.{Reads};
ghost use Rattle.cmd_lang.specs.declared.fault.LineFault.TheVariants.{No};

use crate::LineFault;
use crate::command::read_command;
use crate::split::words_of;
use crate::words::BAD_COMMAND;
use crate::written::{read_spelled_write, spelled_write};
use hfs_language::{Command, Refusal};
use std::alloc::Global;
use std::str;

/// The most bytes of a line, without its newline.
pub const MOST_BYTES: usize = 140_000;

/// The command that a line spells, which is given without its newline.
///
/// Otherwise it is the first of the refusals `TooLong`, `BadCommand`, `BadName` and `NameTooLong`
/// that stands.
pub fn read_line(alloc: Global, line: &[u8]) -> Result<Command, LineFault>
    ensures command { IfOk result (λ command. command_of line.now ≡ Ok command) }
    ensures refused { (why : Refusal) → result ≡ Err (No why) → command_of line.now ≡ Err why }
{
    match read_bytes(alloc, line) {
        Ok(command) => Ok(command),
        Err(fault) => Err(fault),
    }
}

#[tactic(auto, unfolding(hfs_language::specs::Language::command_of))]
pub(crate) fn read_bytes(alloc: Global, line: &[u8]) -> Result<Command, LineFault>
    ensures { Reads (command_of line.now) result }
{
    if line.len() > MOST_BYTES {
        return Err(LineFault::No(Refusal::TooLong));
    }
    if let Some(write) = spelled_write(alloc, line)? {
        return read_spelled_write(alloc, write);
    }
    match text_of(line) {
        Some(text) => read_text(alloc, text),
        None => Err(BAD_COMMAND),
    }
}

/// The bytes as text; none where they aren't UTF-8.
pub fn text_of(bytes: &[u8]) -> Option<&str>
    ensures text { IfSome result (λ text. (text.now ≡ bytes.now) × (is_utf8 bytes.now ≡ true)) }
    ensures other { IfNone result (is_utf8 bytes.now ≡ false) }
{
    match str::from_utf8(bytes) {
        Ok(text) => Some(text),
        Err(_) => None,
    }
}

/// The command that the words of a text spell.
fn read_text(alloc: Global, text: &str) -> Result<Command, LineFault>
    ensures { Reads (words_command (slice_split (λ b. b == 32) text.now)) result }
{
    let words = words_of(alloc, text)?;
    read_command(alloc, &words)
}
