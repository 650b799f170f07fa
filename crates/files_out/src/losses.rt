//! What is left out is told, with its reason.

use crate::out::Out;
use crate::shown::{shown_path, word_of_name};
use crate::walk::Node;
use cmd_lang::print_reply;
use files_talk::{Facts, reason_of};
use hfs_language::{Path, Refusal, Reply};
use hx_bytes::{OutOfMemory, Units};
use std::alloc::AllocError;

impl<'a> Out<'a> {
    /// Tells that an entry of the volume is left out, for the reason that a reply gives.
    pub(crate) fn lose(&mut self, node: &Node, reply: &Reply) -> Result<(), AllocError> {
        let why = self.reason(reply)?;
        self.lose_for(&node.path, why.as_str())
    }

    /// Tells that an attribute of an entry is left out, for the reason that a reply gives: that it is too large, or another one.
    pub(crate) fn lose_value(
        &mut self,
        node: &Node,
        name: &Units,
        reply: &Reply,
    ) -> Result<(), AllocError> {
        let alloc = self.notes.rt().alloc();
        let word = word_of_name(alloc, name)?;
        let reason = match reply {
            Reply::No(Refusal::TooLarge) => self.reason(&Reply::No(Refusal::AttributeTooLarge))?,
            _ => self.reason(reply)?,
        };
        let why = format!(in alloc; "its attribute {}: {}", word.as_str(), reason.as_str())?;
        self.lose_for(&node.path, why.as_str())
    }

    // The reason that a reply gives.
    fn reason(&self, reply: &Reply) -> Result<String, AllocError> {
        let alloc = self.notes.rt().alloc();
        let text = match print_reply(alloc, reply) {
            Ok(text) => text,
            Err(OutOfMemory) => return Err(AllocError),
        };
        reason_of(alloc, text.as_slice().trim_ascii_end())
    }

    /// Tells that an entry of the volume is left out, for a reason.
    pub(crate) fn lose_for(&mut self, path: &Path, why: &str) -> Result<(), AllocError> {
        let path = shown_path(self.notes.rt().alloc(), path)?;
        self.notes.leave_out(path.as_str(), why);
        Ok(())
    }

    /// Tells that a file's resource fork is left out, where it has one.
    pub(crate) fn lose_resources(&mut self, node: &Node, facts: &Facts) -> Result<(), AllocError> {
        let bytes = self.extra_of(facts).resources;
        if bytes == 0 {
            return Ok(());
        }
        let why = format!(in self.notes.rt().alloc();
            "its resource fork of {bytes} bytes, which `hfsx-files salvage` takes out"
        )?;
        self.lose_for(&node.path, why.as_str())
    }

    /// Tells the attributes that the system's files don't get.
    pub(crate) fn lose_attributes(&mut self, node: &mut Node) -> Result<(), AllocError> {
        let alloc = self.notes.rt().alloc();
        for _ in 0..u64::MAX {
            let Some(name) = node.attributes.pop() else {
                break;
            };
            let word = word_of_name(alloc, &name)?;
            let why = format!(in alloc;
                "its attribute {}, which a tar archive would have",
                word.as_str()
            )?;
            self.lose_for(&node.path, why.as_str())?;
        }
        Ok(())
    }
}
