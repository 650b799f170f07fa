//! What is to be told of a line.
ghost use Rattle.std.specs.Prelude.{◌≡◌, ◌++◌, [], OnErr, OnOk, take};
ghost use Rattle.hfs_language.specs.Text.{reply_text};
ghost use Rattle.hfs_serving.specs.Said.{joined};
ghost use Rattle.hfs_serving.specs.Undoing.{short};

use crate::hearer::Hearer;
use crate::volume::ToTell;
use cmd_lang::print_reply;
use hfs_language::{Changes, Reply};
use hx_bytes::{Bytes, Listed, OutOfMemory};
use std::alloc::Global;
use std::mem::replace;

/// Adds a list's items behind those of another. After a refusal it is as it was.
fn append<T: Drop>(alloc: Global, list: &mut Listed<T>, more: Listed<T>) -> Result<(), OutOfMemory>
    ensures added { OnOk result (list.new ≡ list.old ++ more) }
    ensures same { OnErr result (list.new ≡ list.old) }
{
    let mut items = replace(list, Listed::new(alloc)).into_vec();
    let mut others = more.into_vec();
    match items.append(&mut others) {
        Ok(()) => {
            *list = Listed::from_vec(items);
            Ok(())
        }
        Err(why) => {
            *list = Listed::from_vec(items);
            Err(why.into())
        }
    }
}

/// How much room is taken behind each text of a reply: so much as the 32 lines of a batch need to be told that memory was missing, which
/// then takes none.
const ROOM: usize = 480;

/// Adds a text behind another, and room behind it. After a refusal the texts are as they were.
fn add_text(texts: &mut Vec<u8>, text: &[u8]) -> Result<(), OutOfMemory>
    ensures added { OnOk result (texts.new.items ≡ texts.old.items ++ text.now) }
    ensures same { OnErr result (texts.new.items ≡ texts.old.items) }
{
    texts.reserve(text.len().saturating_add(ROOM))?;
    texts.extend_from_slice(text)?;
    Ok(())
}

/// Adds the text of a reply. After a refusal it is as it was.
fn add_reply(alloc: Global, replies: &mut Bytes, text: &[u8]) -> Result<(), OutOfMemory>
    ensures added { OnOk result (replies.new ≡ replies.old ++ text.now) }
    ensures same { OnErr result (replies.new ≡ replies.old) }
{
    let mut texts = replace(replies, Bytes::new(alloc)).into_vec();
    let added = add_text(&mut texts, text);
    *replies = Bytes::from_vec(texts);
    added
}

/// Adds a text that is told. After a refusal all is as it was.
pub fn say_text(alloc: Global, text: &[u8], told: &mut ToTell) -> Result<(), OutOfMemory>
    ensures added { OnOk result (told.new ≡ joined told.old (record { replies = text.now; changes = [] })) }
    ensures same { OnErr result (told.new ≡ told.old) }
{
    add_reply(alloc, &mut told.replies, text)
}

/// Takes away all but the first so many items.
fn shorten<T: Drop>(alloc: Global, list: &mut Listed<T>, len: usize)
    ensures { list.new ≡ take len list.old }
{
    let mut items = replace(list, Listed::new(alloc)).into_vec();
    items.truncate(len);
    *list = Listed::from_vec(items);
}

/// Adds the text of a reply, and what was changed. After a refusal all is as it was.
pub fn say(
    alloc: Global,
    reply: &Reply,
    changes: Changes,
    told: &mut ToTell,
) -> Result<(), OutOfMemory>
    ensures added { OnOk result (told.new ≡ joined told.old (record { replies = reply_text reply.now; changes = changes })) }
    ensures same { OnErr result (told.new ≡ told.old) }
{
    let text = print_reply(alloc, reply)?;
    let len = told.replies.len();
    say_text(alloc, text.as_slice(), told)?;
    match append(alloc, &mut told.changes, changes) {
        Ok(()) => Ok(()),
        Err(why) => {
            shorten(alloc, &mut told.replies, len);
            Err(why)
        }
    }
}

/// Adds the reply that memory was missing, for which there is room behind any other. After a refusal all is as it was.
pub fn say_short(alloc: Global, told: &mut ToTell) -> Result<(), OutOfMemory>
    ensures told { OnOk result (told.new ≡ joined told.old short) }
    ensures same { OnErr result (told.new ≡ told.old) }
{
    let mut texts = replace(&mut told.replies, Bytes::new(alloc)).into_vec();
    let added = texts.extend_from_slice(b"no OutOfMemory\n");
    told.replies = Bytes::from_vec(texts);
    added?;
    Ok(())
}

impl Hearer for ToTell {
    ghost use Rattle.std.specs.Prelude.{◌≡◌};
    ghost use Rattle.hfs_language.specs.Text.{reply_text};
    ghost use Rattle.hfs_serving.specs.Said.{joined};

    // It is to be told.
    ghost hears = { λ before reply changes after. after ≡ joined before (record { replies = reply_text reply; changes = changes }) };

    fn hear(&mut self, alloc: Global, reply: Reply, changes: Changes) -> Result<(), OutOfMemory> {
        say(alloc, &reply, changes, self)
    }

    fn hear_short(&mut self, alloc: Global) -> Result<(), OutOfMemory> {
        say_short(alloc, self)
    }
}
