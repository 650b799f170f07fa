//! Lines that a job asks.
ghost use Rattle.std.specs.Prelude.{◌≡◌, ◌≤◌, ◌++◌, ◌∷◌, ◌+◌, [], length, IfOk, IfSome, OnOk};
ghost use Rattle.hfs_language.specs.Lines.{HasNoNewline};
ghost use Rattle.hfs_language.specs.Text.{value_text};
ghost use Rattle.line_source.specs.Handed.{AreLines, bytes_of};
ghost use Rattle.files_talk.specs.Handing.{HandsOn};

use hx_bytes::{Bytes, Failed};
use line_source::Line;
use std::alloc::{AllocError, Global};
use std::marker::Model;

/// How many bytes of lines are handed over at once at most, with their newlines.
const MOST_HANDED: usize = 4_194_304;

/// Lines that were ended, and the front of the next one. Contracts see all of their bytes, with a newline behind each line.
#[derive(Drop)]
pub struct LineList {
    alloc: Global,
    lines: Vec<Line>,
    front: Vec<u8>,
    size: usize,
}

impl Model for LineList {
    ghost use Rattle.std.specs.Prelude.{ℕ, List, ◌++◌};
    ghost use Rattle.line_source.specs.Handed.{bytes_of};

    ghost Value = { List ℕ };

    ghost view = { λ list. bytes_of list.lines.items ++ list.front.items };
}

impl LineList {
    /// No line.
    pub fn new(alloc: Global) -> LineList
        ensures { result ≡ [] }
    {
        LineList {
            alloc,
            lines: Vec::new(alloc),
            front: Vec::new(alloc),
            size: 0,
        }
    }

    /// How many bytes were added since lines were handed over, of a value those that its text has at most.
    pub fn size(&self) -> usize {
        self.size
    }

    /// Adds bytes to the line.
    pub fn push(&mut self, bytes: &[u8]) -> Result<(), AllocError>
        ensures { OnOk result (self.new ≡ self.old ++ bytes.now) }
    {
        self.size = self.size.saturating_add(bytes.len());
        self.front.extend_from_slice(bytes)?;
        Ok(())
    }

    /// Ends the line.
    pub fn end(&mut self) -> Result<(), AllocError>
        ensures { OnOk result (self.new ≡ self.old ++ 10 ∷ []) }
    {
        let text = Vec::from_slice(self.alloc, self.front.as_slice())?;
        self.front.clear();
        self.lines.push(Line::from_text(Bytes::from_vec(text)))?;
        Ok(())
    }

    /// Ends the line with a value, which isn't spelled.
    pub fn end_with_value(&mut self, value: &[u8]) -> Result<(), AllocError>
        ensures { OnOk result (self.new ≡ self.old ++ value_text value.now ++ 10 ∷ []) }
    {
        self.size = self.size.saturating_add(value.len().saturating_mul(3));
        let head = Vec::from_slice(self.alloc, self.front.as_slice())?;
        let value = Vec::from_slice(self.alloc, value)?;
        self.front.clear();
        self.lines.push(Line::with_value(Bytes::from_vec(head), Bytes::from_vec(value)))?;
        Ok(())
    }

    /// Whether no line was ended since lines were handed over.
    pub(crate) fn is_empty(&self) -> bool {
        self.lines.is_empty()
    }

    /// Hands over as many of the first lines as may be handed over at once. It fails where that is none of them: the first is too long, or has a
    /// newline.
    pub(crate) fn hand_over(&mut self) -> Result<Vec<Line>, Failed>
        ensures { IfOk result (λ given. AreLines given.items × (length (bytes_of given.items) ≤ 4194304) × (self.old ≡ bytes_of given.items ++ self.new)) }
    {
        self.size = 0;
        let had_none = self.lines.is_empty();
        let given = match hand_on(self.alloc, &mut self.lines) {
            Ok(given) => given,
            Err(AllocError) => return Err(Failed),
        };
        if given.is_empty() && !had_none {
            return Err(Failed);
        }
        Ok(given)
    }
}

// Takes lines from the front, as many as have room.
fn hand_on(alloc: Global, lines: &mut Vec<Line>) -> Result<Vec<Line>, AllocError>
    ensures { IfOk result (λ given. HandsOn 4194304 lines.old.items given.items 0 lines.new.items) }
{
    let mut given = Vec::new(alloc);
    let mut room = MOST_HANDED;
    for at in 0..lines.len() {
        match room_of(&lines[0], room) {
            Some(taken) => {
                room -= taken;
                given.push(lines.remove(0))?;
            }
            None => return Ok(given),
        }
    }
    Ok(given)
}

// How many bytes of the room a line takes at most with its newline, or none where it has no room or has a newline within.
fn room_of(line: &Line, room: usize) -> Option<usize>
    ensures { IfSome result (λ taken. HasNoNewline line.now × (length line.now + 1 ≤ taken) × (taken ≤ room)) }
{
    if line.has_newline() {
        return None;
    }
    let length = line.length_within(room)?;
    if length == room {
        return None;
    }
    Some(length + 1)
}
