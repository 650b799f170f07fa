//! A line of a session is read.
ghost use Rattle.std.specs.Prelude.{◌≡◌, ◌==◌, ◌∷◌, [], true, false, map, Ok, Err, IfOk, IfSome, IfNone};
ghost use Rattle.std.specs.List.{slice_split};
ghost use Rattle.std.specs.Str.{is_utf8};
ghost use Rattle.cmd_lang.specs.Reads.{Reads};
ghost use Rattle.cmd_lang.specs.declared.fault.LineFault.TheVariants.{No};
ghost use Rattle.hfs_language.specs.Language.{number_of};
ghost use Rattle.hfs_language.specs.declared.refusal.Refusal.{Refusal};
ghost use Rattle.open_files.specs.Lines.{act_of, asks_of, handle_of, plain_act, read_act, words_act};

use crate::{Act, SessionLine, session_of};
use cmd_lang::{
    BAD_COMMAND, LineFault, MOST_BYTES, read_line, read_number, read_path, read_small_number,
    text_of, words_of,
};
use hfs_language::Refusal;
use std::alloc::Global;

/// What a line of a session asks for; the line is given without its newline.
///
/// Otherwise it is the first of the refusals `TooLong`, `BadCommand`, `BadName` and `NameTooLong` that stands. A line is too long with its
/// session's number.
pub fn read_session(alloc: Global, line: &[u8]) -> Result<SessionLine, LineFault>
    ensures asks { IfOk result (λ asks. asks_of line.now ≡ Ok asks) }
    ensures refused { (why : Refusal) → result ≡ Err (No why) → asks_of line.now ≡ Err why }
{
    match read_bytes(alloc, line) {
        Ok(asks) => Ok(asks),
        Err(fault) => Err(fault),
    }
}

#[tactic(auto, unfolding(crate::specs::Lines::asks_of))]
fn read_bytes(alloc: Global, line: &[u8]) -> Result<SessionLine, LineFault>
    ensures { Reads (asks_of line.now) result }
{
    if line.len() > MOST_BYTES {
        return Err(LineFault::No(Refusal::TooLong));
    }
    match session_of(line) {
        Some((session, part)) => Ok(SessionLine {
            session,
            act: read_act(alloc, part)?,
        }),
        None => Err(BAD_COMMAND),
    }
}

/// What the part behind a session's number asks for.
fn read_act(alloc: Global, part: &[u8]) -> Result<Act, LineFault>
    ensures { Reads (act_of part.now) result }
{
    match text_of(part) {
        Some(text) => read_text(alloc, text),
        None => Err(BAD_COMMAND),
    }
}

fn read_text(alloc: Global, part: &str) -> Result<Act, LineFault>
    ensures { Reads (words_act part.now (slice_split (λ b. b == 32) part.now)) result }
{
    let words = words_of(alloc, part)?;
    read_words(alloc, part, &words)
}

/// What the words of a part ask for.
fn read_words(alloc: Global, part: &str, words: &[&str]) -> Result<Act, LineFault>
    ensures { Reads (words_act part.now (map (λ word. word.now) words.now)) result }
{
    match words {
        [] => read_plain(alloc, part),
        [verb] => one_word(alloc, part, verb),
        [verb, word] => two_words(alloc, part, verb, word),
        [_, _, _] => read_plain(alloc, part),
        [verb, one, two, three] => four_words(alloc, part, verb, one, two, three),
        _ => read_plain(alloc, part),
    }
}

fn one_word(alloc: Global, part: &str, verb: &str) -> Result<Act, LineFault>
    ensures { Reads (words_act part.now (verb.now ∷ [])) result }
{
    match verb {
        "end" => Ok(Act::End),
        _ => read_plain(alloc, part),
    }
}

fn two_words(alloc: Global, part: &str, verb: &str, word: &str) -> Result<Act, LineFault>
    ensures { Reads (words_act part.now (verb.now ∷ word.now ∷ [])) result }
{
    match verb {
        "open" => Ok(Act::Open(read_path(alloc, word)?)),
        "close" => Ok(Act::Close(read_small_number(word)?)),
        _ => read_plain(alloc, part),
    }
}

fn four_words(
    alloc: Global,
    part: &str,
    verb: &str,
    one: &str,
    two: &str,
    three: &str,
) -> Result<Act, LineFault>
    ensures { Reads (words_act part.now (verb.now ∷ one.now ∷ two.now ∷ three.now ∷ [])) result }
{
    match verb {
        "hread" => read_handle_read(one, two, three),
        _ => read_plain(alloc, part),
    }
}

/// A command of the plain language.
fn read_plain(alloc: Global, part: &str) -> Result<Act, LineFault>
    ensures { Reads (plain_act part.now) result }
{
    match read_line(alloc, part.as_bytes()) {
        Ok(command) => Ok(Act::Plain(command)),
        Err(fault) => Err(fault),
    }
}

/// A handle, an offset, and how many bytes are read from there.
fn read_handle_read(handle: &str, from: &str, length: &str) -> Result<Act, LineFault>
    ensures { Reads (read_act (handle_of handle.now) (number_of from.now) (number_of length.now)) result }
{
    let handle = read_small_number(handle)?;
    let from = read_number(from)?;
    let length = read_number(length)?;
    Ok(Act::HandleRead {
        handle,
        from,
        length,
    })
}
