//! What a session's line is told, as a line.
ghost use Rattle.std.specs.Prelude.{◌≡◌, ◌++◌, ◌∷◌, [], codes, IfOk, OnOk};
ghost use Rattle.std.specs.List.{flat_map};
ghost use Rattle.hfs_language.specs.Text.{field};
ghost use Rattle.hfs_language.specs.Written.{path_text};
ghost use Rattle.open_files.specs.Lines.{session_text, slashed};

use crate::SessionReply;
use cmd_lang::{print_reply, push_field};
use hfs_language::Path;
use hx_bytes::{Bytes, OutOfMemory, Units};
use name_text::print_component;
use std::alloc::Global;

/// The text of what a line is told: one line with its newline.
#[tactic(auto, unfolding(crate::specs::Lines::session_text))]
pub fn print_session_reply(alloc: Global, reply: &SessionReply) -> Result<Bytes, OutOfMemory>
    ensures { IfOk result (λ text. text ≡ session_text reply.now) }
{
    match reply {
        SessionReply::Plain(reply) => print_reply(alloc, reply),
        SessionReply::Opened(handle) => numbered(alloc, b"ok", *handle),
        SessionReply::TooManyOpen => line(alloc, b"no TooManyOpen 256\n"),
        SessionReply::NoHandle(handle) => numbered(alloc, b"no NoHandle", *handle),
        SessionReply::Followed(path) => followed(alloc, path),
        SessionReply::TooManySteps(most) => numbered(alloc, b"no TooManySteps", *most),
        SessionReply::NotLink => line(alloc, b"no NotLink\n"),
        SessionReply::Compressed => line(alloc, b"no Compressed\n"),
    }
}

fn line(alloc: Global, text: &[u8]) -> Result<Bytes, OutOfMemory>
    ensures { IfOk result (λ line. line ≡ text.now) }
{
    Ok(Bytes::from_vec(Vec::from_slice(alloc, text)?))
}

/// Words, a number and a newline.
fn numbered(alloc: Global, words: &[u8], number: u32) -> Result<Bytes, OutOfMemory>
    ensures { IfOk result (λ line. line ≡ words.now ++ field number ++ 10 ∷ []) }
{
    let mut line = Vec::from_slice(alloc, words)?;
    push_field(&mut line, u64::from(number))?;
    line.push(b'\n')?;
    Ok(Bytes::from_vec(line))
}

/// A path behind `ok`.
fn followed(alloc: Global, path: &Path) -> Result<Bytes, OutOfMemory>
    ensures { IfOk result (λ line. line ≡ codes "ok " ++ path_text path.now ++ 10 ∷ []) }
{
    let mut line = Vec::from_slice(alloc, b"ok ")?;
    push_path(alloc, &mut line, path)?;
    line.push(b'\n')?;
    Ok(Bytes::from_vec(line))
}

/// A slash before each name, and a slash alone for the root.
#[tactic(auto, using(crate::proofs::Slashes::root_slashed, crate::proofs::Slashes::path_slashed))]
fn push_path(alloc: Global, text: &mut Vec<u8>, path: &Path) -> Result<(), OutOfMemory>
    ensures { OnOk result (text.new.items ≡ text.old.items ++ path_text path.now) }
{
    if path.is_empty() {
        text.push(b'/')?;
        return Ok(());
    }
    push_names(alloc, text, path.as_slice())
}

fn push_names(alloc: Global, text: &mut Vec<u8>, names: &[Units]) -> Result<(), OutOfMemory>
    ensures { OnOk result (text.new.items ≡ text.old.items ++ flat_map slashed names.now) }
{
    for name in names {
        push_name(alloc, text, name)?;
    }
    Ok(())
}

/// A name with a slash before it.
fn push_name(alloc: Global, text: &mut Vec<u8>, name: &Units) -> Result<(), OutOfMemory>
    ensures { OnOk result (text.new.items ≡ text.old.items ++ slashed name.now) }
{
    let name = print_component(alloc, name)?;
    text.push(b'/')?;
    text.extend_from_slice(name.as_bytes())?;
    Ok(())
}
