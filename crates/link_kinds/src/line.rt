//! A line on a symbolic link or a resource fork is read.
ghost use Rattle.std.specs.Prelude.{◌≡◌, ◌==◌, ◌∷◌, [], true, false, map, Ok, Err, IfOk, IfSome, IfNone};
ghost use Rattle.std.specs.List.{slice_split};
ghost use Rattle.std.specs.Str.{is_utf8};
ghost use Rattle.cmd_lang.specs.Reads.{Reads};
ghost use Rattle.cmd_lang.specs.declared.fault.LineFault.TheVariants.{No};
ghost use Rattle.hfs_language.specs.Language.{number_of, path_of, value_of};
ghost use Rattle.hfs_language.specs.declared.refusal.Refusal.{Refusal};
ghost use Rattle.link_kinds.specs.Lines.{begins_as, is_kind_line, kind_line_of, kind_of, read_of, symlink_of, words_kind, write_of};

use crate::kinds::{KindCommand, KindLine};
use cmd_lang::{
    BAD_COMMAND, LineFault, MOST_BYTES, read_number, read_path, read_value_text, text_of, words_of,
};
use hfs_language::Refusal;
use hfs_model::KindEdit;
use open_files::session_of;
use std::alloc::Global;

/// What a line on a link or a resource fork asks for; the line is given without its newline.
///
/// Otherwise it is the first of the refusals `TooLong`, `BadCommand`, `BadName` and `NameTooLong` that stands. A line is too long with its
/// session's number.
pub fn read_kind(alloc: Global, line: &[u8]) -> Result<KindLine, LineFault>
    ensures asks { IfOk result (λ asks. kind_line_of line.now ≡ Ok asks) }
    ensures refused { (why : Refusal) → result ≡ Err (No why) → kind_line_of line.now ≡ Err why }
{
    match read_bytes(alloc, line) {
        Ok(asks) => Ok(asks),
        Err(fault) => Err(fault),
    }
}

/// Whether a line is one on a link or a resource fork: behind its session it begins with one of their words and a space.
pub fn is_kind_line(line: &[u8]) -> bool
    ensures { result ≡ is_kind_line line.now }
{
    match session_of(line) {
        Some((_, part)) => begins_as(part, b"symlink ")
            || begins_as(part, b"readlink ")
            || begins_as(part, b"follow ")
            || begins_as(part, b"rwrite ")
            || begins_as(part, b"rread "),
        None => false,
    }
}

fn begins_as(part: &[u8], word: &[u8]) -> bool
    ensures { result ≡ begins_as part.now word.now }
{
    if part.len() < word.len() {
        return false;
    }
    &part[..word.len()] == word
}

#[tactic(auto, unfolding(crate::specs::Lines::kind_line_of))]
fn read_bytes(alloc: Global, line: &[u8]) -> Result<KindLine, LineFault>
    ensures { Reads (kind_line_of line.now) result }
{
    if line.len() > MOST_BYTES {
        return Err(LineFault::No(Refusal::TooLong));
    }
    match session_of(line) {
        Some((session, part)) => Ok(KindLine {
            session,
            command: read_part(alloc, part)?,
        }),
        None => Err(BAD_COMMAND),
    }
}

/// What the part behind a session's number asks for.
fn read_part(alloc: Global, part: &[u8]) -> Result<KindCommand, LineFault>
    ensures { Reads (kind_of part.now) result }
{
    match text_of(part) {
        Some(text) => read_text(alloc, text),
        None => Err(BAD_COMMAND),
    }
}

fn read_text(alloc: Global, part: &str) -> Result<KindCommand, LineFault>
    ensures { Reads (words_kind (slice_split (λ b. b == 32) part.now)) result }
{
    let words = words_of(alloc, part)?;
    read_words(alloc, &words)
}

fn read_words(alloc: Global, words: &[&str]) -> Result<KindCommand, LineFault>
    ensures { Reads (words_kind (map (λ word. word.now) words.now)) result }
{
    match words {
        [verb, word] => two_words(alloc, verb, word),
        [verb, one, two] => three_words(alloc, verb, one, two),
        [verb, one, two, three] => four_words(alloc, verb, one, two, three),
        _ => Err(BAD_COMMAND),
    }
}

fn two_words(alloc: Global, verb: &str, word: &str) -> Result<KindCommand, LineFault>
    ensures { Reads (words_kind (verb.now ∷ word.now ∷ [])) result }
{
    match verb {
        "readlink" => Ok(KindCommand::Readlink(read_path(alloc, word)?)),
        "follow" => Ok(KindCommand::Follow(read_path(alloc, word)?)),
        _ => Err(BAD_COMMAND),
    }
}

fn three_words(alloc: Global, verb: &str, one: &str, two: &str) -> Result<KindCommand, LineFault>
    ensures { Reads (words_kind (verb.now ∷ one.now ∷ two.now ∷ [])) result }
{
    match verb {
        "symlink" => read_symlink(alloc, one, two),
        _ => Err(BAD_COMMAND),
    }
}

fn four_words(
    alloc: Global,
    verb: &str,
    one: &str,
    two: &str,
    three: &str,
) -> Result<KindCommand, LineFault>
    ensures { Reads (words_kind (verb.now ∷ one.now ∷ two.now ∷ three.now ∷ [])) result }
{
    match verb {
        "rwrite" => read_resource_write(alloc, one, two, three),
        "rread" => read_resource_read(alloc, one, two, three),
        _ => Err(BAD_COMMAND),
    }
}

/// A path, and the target of the link that is made there.
fn read_symlink(alloc: Global, path: &str, value: &str) -> Result<KindCommand, LineFault>
    ensures { Reads (symlink_of (path_of path.now) (value_of value.now)) result }
{
    let value = read_value_text(alloc, value.as_bytes())?;
    let path = read_path(alloc, path)?;
    Ok(KindCommand::Edit(KindEdit::Symlink { path, value }))
}

/// A path, an offset, and the bytes that are written there.
fn read_resource_write(
    alloc: Global,
    path: &str,
    from: &str,
    value: &str,
) -> Result<KindCommand, LineFault>
    ensures { Reads (write_of (path_of path.now) (number_of from.now) (value_of value.now)) result }
{
    let from = read_number(from)?;
    let value = read_value_text(alloc, value.as_bytes())?;
    let path = read_path(alloc, path)?;
    Ok(KindCommand::Edit(KindEdit::ResourceWrite { path, from, value }))
}

/// A path, an offset, and how many bytes are read from there.
fn read_resource_read(
    alloc: Global,
    path: &str,
    from: &str,
    length: &str,
) -> Result<KindCommand, LineFault>
    ensures { Reads (read_of (path_of path.now) (number_of from.now) (number_of length.now)) result }
{
    let from = read_number(from)?;
    let length = read_number(length)?;
    let path = read_path(alloc, path)?;
    Ok(KindCommand::Edit(KindEdit::ResourceRead { path, from, length }))
}
