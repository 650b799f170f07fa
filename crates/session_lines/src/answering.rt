//! What a line is told.
ghost use Rattle.std.specs.Prelude.{◌≡◌, false, IfErr, IfOk, OnErr, OnOk};
ghost use Rattle.hfs_serving.specs.Said.{joined};
ghost use Rattle.open_files.specs.declared.act.SessionReply.TheVariants as said;
ghost use Rattle.session_lines.specs.Said.{text_told, told_if};

use hfs_serving::{Stop, ToTell, say_short, say_text};
use hx_bytes::OutOfMemory;
use open_files::{SessionReply, print_session_reply};
use std::alloc::Global;

/// Adds a line's reply to what is to be told, or that memory was missing for that. Answers whether it is told as it is.
pub(crate) fn tell(alloc: Global, reply: &SessionReply, told: &mut ToTell) -> Result<bool, Stop>
    ensures told { IfOk result (λ whole. told.new ≡ joined told.old (text_told (told_if whole reply.now))) }
    ensures memory { IfErr result (λ stop. stop ≡ Stop.Memory) }
{
    match try_to_tell(alloc, reply, told) {
        Ok(()) => Ok(true),
        Err(OutOfMemory) => {
            tell_short(alloc, told)?;
            Ok(false)
        }
    }
}

/// Tells that memory was missing. After a refusal all is as it was.
#[tactic(auto, unfolding(open_files::specs::Lines::session_text))]
fn tell_short(alloc: Global, told: &mut ToTell) -> Result<(), OutOfMemory>
    ensures told { OnOk result (told.new ≡ joined told.old (text_told (told_if false said.TooManyOpen))) }
{
    say_short(alloc, told)
}

/// Adds a line's reply. After a refusal all is as it was.
fn try_to_tell(alloc: Global, reply: &SessionReply, told: &mut ToTell) -> Result<(), OutOfMemory>
    ensures told { OnOk result (told.new ≡ joined told.old (text_told reply.now)) }
    ensures same { OnErr result (told.new ≡ told.old) }
{
    let text = print_session_reply(alloc, reply)?;
    say_text(alloc, text.as_slice(), told)
}
