//! A line in memory, whose value may be there as it is.
ghost use Rattle.std.specs.Prelude.{◌≡◌, ◌≤◌, ◌++◌, IfOk, IfSome, IfNone, length};
ghost use Rattle.hfs_language.specs.Text.{value_text};
ghost use Rattle.line_source.specs.Batch.{has_newline};
ghost use Rattle.line_source.specs.Input.{IsLine};

use crate::taken::{front, has_newline};
use cmd_lang::push_value;
use hx_bytes::{Bytes, OutOfMemory};
use std::alloc::Global;
use std::marker::Model;

/// A line without its newline: its text, or the text in front of the value in which it ends, and the bytes of that value, which aren't spelled.
/// Contracts see the text of the line, however it is held.
#[derive(Drop)]
pub struct Line {
    head: Bytes,
    value: Option<Bytes>,
}

impl Model for Line {
    ghost use Rattle.std.specs.Prelude.{ℕ, List};
    ghost use Rattle.line_source.specs.Line.{line_text};

    ghost Value = { List ℕ };

    ghost view = { λ line. line_text line.head line.value };
}

impl Line {
    /// A line whose text is there.
    pub fn from_text(text: Bytes) -> Line
        ensures { result ≡ text }
    {
        Line {
            head: text,
            value: None,
        }
    }

    /// A line that is this text with the text of a value behind it.
    pub fn with_value(head: Bytes, value: Bytes) -> Line
        ensures { result ≡ head ++ value_text value }
    {
        Line {
            head,
            value: Some(value),
        }
    }

    /// The text of the line, or the text in front of a value, and the value.
    pub fn parts(&self) -> (&[u8], Option<&[u8]>)
        ensures text { IfNone result.1 (self.now ≡ result.0.now) }
        ensures value { IfSome result.1 (λ value. self.now ≡ result.0.now ++ value_text value.now) }
    {
        match &self.value {
            None => (self.head.as_slice(), None),
            Some(value) => (self.head.as_slice(), Some(value.as_slice())),
        }
    }

    /// How many bytes its text has at most, or none where that may be more than these. A value isn't spelled to tell it: each of its bytes takes three
    /// at most.
    pub fn length_within(&self, room: usize) -> Option<usize>
        ensures { IfSome result (λ most. (length self.now ≤ most) × (most ≤ room)) }
    {
        let (head, value) = self.parts();
        match value {
            None => text_length_within(head, room),
            Some(value) => valued_length_within(head, value, room),
        }
    }

    /// Whether a newline stands in its text. A value's text has none.
    pub fn has_newline(&self) -> bool
        ensures { result ≡ has_newline self.now }
    {
        let (head, value) = self.parts();
        match value {
            None => has_newline(head),
            Some(_) => has_newline(head),
        }
    }

    /// Its text, spelled.
    pub fn to_text(&self, alloc: Global) -> Result<Vec<u8>, OutOfMemory>
        ensures { IfOk result (λ text. text.items ≡ self.now) }
    {
        let (head, value) = self.parts();
        match value {
            None => Ok(Vec::from_slice(alloc, head)?),
            Some(value) => {
                let mut text = Vec::from_slice(alloc, head)?;
                push_value(&mut text, value)?;
                Ok(text)
            }
        }
    }

    // What is held of it: all, or of more than `limit` bytes the first `limit + 1`, spelled.
    pub(crate) fn held(self, alloc: Global, limit: usize) -> Result<Line, OutOfMemory>
        ensures { IfOk result (IsLine limit self) }
    {
        if let Some(_) = self.length_within(limit) {
            return Ok(self);
        }
        let text = self.to_text(alloc)?;
        let held = Vec::from_slice(alloc, front(&text, 0, limit))?;
        Ok(Line::from_text(Bytes::from_vec(held)))
    }
}

// How many bytes a text has, unless they are more than these.
fn text_length_within(text: &[u8], room: usize) -> Option<usize>
    ensures { IfSome result (λ most. (length text.now ≤ most) × (most ≤ room)) }
{
    if text.len() > room {
        return None;
    }
    Some(text.len())
}

// How many bytes a text has at most with that of a value behind it, unless they may be more than these.
fn valued_length_within(head: &[u8], value: &[u8], room: usize) -> Option<usize>
    ensures { IfSome result (λ most. (length (head.now ++ value_text value.now) ≤ most) × (most ≤ room)) }
{
    if head.len() >= room {
        return None;
    }
    let left = room - head.len() - 1;
    if value.len() > left / 3 {
        return None;
    }
    Some(head.len() + 1 + 3 * value.len())
}
