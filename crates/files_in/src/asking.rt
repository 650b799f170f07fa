//! Lines that are asked: what each reply is to, and the moment that the volume has.
use files_talk::{
    LineList, Notes, push_attribute, push_mode, push_number, push_path, push_written,
};
use std::alloc::AllocError;

/// The most lines that are asked at once: as many as the server makes durable together.
const MOST_LINES: usize = 28;

/// Behind so many bytes of lines no more are asked at once: with the lines of one step more they can still be handed over together.
const MOST_TEXT: usize = 3_700_000;

/// What a reply is to.
#[derive(Drop)]
pub(crate) enum Asked {
    /// Nothing depends on it.
    Other,
    /// A `stat` or an `ls` whose answer is waited for.
    Question,
    /// A step of the file that is gathered under this number.
    Step(u64),
    /// The move of this file to its place.
    Move(u64),
    /// The making of a folder, which is told under this name.
    Folder(Told),
    /// The making of a further name of a file.
    Link(Told),
    /// A change of an entry that is there: its mode or its date.
    Change(String),
}

/// Something that is made in a folder: how it is called where it is told, the folder's path, and the date that this is to have.
#[derive(Drop)]
pub(crate) struct Told {
    pub(crate) shown: String,
    pub(crate) folder: String,
    pub(crate) date: u32,
}

/// The lines that were asked last.
#[derive(Drop)]
pub(crate) struct Asking<'a> {
    pub(crate) notes: Notes<'a>,
    asked: Vec<Asked>,
    moment: Option<u32>,
}

impl<'a> Asking<'a> {
    /// Nothing was asked yet.
    pub(crate) fn new(notes: Notes<'a>) -> Asking<'a> {
        let alloc = notes.rt().alloc();
        Asking {
            notes,
            asked: Vec::new(alloc),
            moment: None,
        }
    }

    /// The runtime.
    pub(crate) fn rt(&self) -> &'a HostRuntime {
        self.notes.rt()
    }

    /// Whether no more is to be asked at once.
    pub(crate) fn is_full(&self, lines: &LineList) -> bool {
        self.asked.len() >= MOST_LINES || lines.size() > MOST_TEXT
    }

    /// Whether each line was answered.
    pub(crate) fn is_answered(&self) -> bool {
        self.asked.is_empty()
    }

    /// What the next reply is to.
    pub(crate) fn next(&mut self) -> Option<Asked> {
        if self.asked.is_empty() {
            return None;
        }
        Some(self.asked.remove(0))
    }

    // Ends a line.
    fn end(&mut self, lines: &mut LineList, asked: Asked) -> Result<(), AllocError> {
        lines.end()?;
        self.asked.push(asked)?;
        Ok(())
    }

    /// Sets the moment with which changes are dated, if it isn't this one.
    pub(crate) fn at(&mut self, lines: &mut LineList, date: u32) -> Result<(), AllocError> {
        if self.moment == Some(date) {
            return Ok(());
        }
        self.moment = Some(date);
        lines.push(b"at")?;
        push_number(lines, u64::from(date))?;
        self.end(lines, Asked::Other)
    }

    /// A line of a verb and a path.
    pub(crate) fn path(
        &mut self,
        lines: &mut LineList,
        verb: &str,
        word: &str,
        asked: Asked,
    ) -> Result<(), AllocError> {
        lines.push(verb.as_bytes())?;
        push_path(lines, word)?;
        self.end(lines, asked)
    }

    /// A line of a verb and two paths.
    pub(crate) fn paths(
        &mut self,
        lines: &mut LineList,
        verb: &str,
        words: (&str, &str),
        asked: Asked,
    ) -> Result<(), AllocError> {
        lines.push(verb.as_bytes())?;
        push_path(lines, words.0)?;
        push_path(lines, words.1)?;
        self.end(lines, asked)
    }

    /// The line that sets a mode.
    pub(crate) fn mode(
        &mut self,
        lines: &mut LineList,
        word: &str,
        mode: u16,
        asked: Asked,
    ) -> Result<(), AllocError> {
        lines.push(b"chmod")?;
        push_path(lines, word)?;
        push_mode(lines, mode)?;
        self.end(lines, asked)
    }

    /// The line that gives a file a size.
    pub(crate) fn size(
        &mut self,
        lines: &mut LineList,
        word: &str,
        size: u64,
        asked: Asked,
    ) -> Result<(), AllocError> {
        lines.push(b"trunc")?;
        push_path(lines, word)?;
        push_number(lines, size)?;
        self.end(lines, asked)
    }

    /// The line that writes bytes from an offset on.
    pub(crate) fn write(
        &mut self,
        lines: &mut LineList,
        word: &str,
        from: u64,
        bytes: &[u8],
        asked: Asked,
    ) -> Result<(), AllocError> {
        push_written(lines, word, from, bytes)?;
        self.asked.push(asked)?;
        Ok(())
    }

    /// The line that sets an attribute.
    pub(crate) fn attribute(
        &mut self,
        lines: &mut LineList,
        word: &str,
        name: &str,
        value: &[u8],
        asked: Asked,
    ) -> Result<(), AllocError> {
        push_attribute(lines, word, name, value)?;
        self.asked.push(asked)?;
        Ok(())
    }
}
