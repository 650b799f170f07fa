//! What replies tell.
use crate::asking::{Asked, Told};
use crate::gathered::Gathered;
use crate::ground::Ground;
use files_talk::{is_ok, reason_of};
use std::alloc::AllocError;

impl<'a> Ground<'a> {
    /// Hears the next reply, and gives the file that came to its place by what it tells.
    pub(crate) fn hear(&mut self, reply: &[u8]) -> Result<Option<Gathered>, AllocError> {
        match self.asking.next() {
            None | Some(Asked::Other) => Ok(None),
            Some(Asked::Question) => {
                self.answer.clear();
                self.answer.extend_from_slice(reply)?;
                Ok(None)
            }
            Some(Asked::Step(number)) => {
                self.staging.hear_step(number, reply)?;
                Ok(None)
            }
            Some(Asked::Move(number)) => {
                self.staging
                    .hear_move(&mut self.asking, number, reply, self.over)
            }
            Some(Asked::Folder(told)) => {
                self.hear_made(told, reply, true)?;
                Ok(None)
            }
            Some(Asked::Link(told)) => {
                self.hear_made(told, reply, false)?;
                Ok(None)
            }
            Some(Asked::Change(shown)) => {
                self.hear_change(shown.as_str(), reply)?;
                Ok(None)
            }
        }
    }

    // Hears of a folder or a further name that was to be made.
    pub(crate) fn hear_made(
        &mut self,
        told: Told,
        reply: &[u8],
        folder: bool,
    ) -> Result<(), AllocError> {
        if is_ok(reply) {
            let counts = &mut self.asking.notes.counts;
            if folder {
                counts.folders = counts.folders.saturating_add(1);
            } else {
                counts.links = counts.links.saturating_add(1);
            }
            self.asking.notes.name(told.shown.as_str());
            return Ok(());
        }
        let why = reason_of(self.alloc(), reply)?;
        self.asking
            .notes
            .leave_out(told.shown.as_str(), why.as_str());
        self.undated.push(told)?;
        Ok(())
    }

    pub(crate) fn hear_change(&mut self, shown: &str, reply: &[u8]) -> Result<(), AllocError> {
        if !is_ok(reply) {
            let why = reason_of(self.alloc(), reply)?;
            self.asking.notes.doubt(shown, why.as_str());
        }
        Ok(())
    }
}
