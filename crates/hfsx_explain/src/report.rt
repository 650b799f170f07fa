//! What is told of an image, as lines or as JSON.

use crate::notes::Note;
use crate::repair::Repair;
use crate::runs::Run;
use crate::words::Said;
use salvage_tree::push_json;
use std::alloc::{AllocError, Global};

/// Standard output, and whether it failed.
#[derive(Drop)]
pub(crate) struct Report<'a> {
    rt: &'a HostRuntime,
    json: bool,
    pub(crate) failed: bool,
}

impl<'a> Report<'a> {
    pub(crate) fn new(rt: &'a HostRuntime, json: bool) -> Report<'a> {
        Report {
            rt,
            json,
            failed: false,
        }
    }

    fn print(&mut self, line: &str) {
        if !self.failed && println!(self.rt; "{line}").is_err() {
            self.failed = true;
        }
    }

    /// Tells that the volume is sound.
    pub(crate) fn tell_clean(
        &mut self,
        files: u64,
        folders: u64,
        blocks: u64,
        free: u64,
    ) -> Result<(), AllocError> {
        let line = if self.json {
            format!(in self.rt.alloc();
                "{{\"clean\":true,\"files\":{files},\"folders\":{folders},\"blocks\":{blocks},\"free\":{free}}}"
            )?
        } else {
            format!(in self.rt.alloc();
                "the volume is sound: {files} files, {folders} folders, {blocks} blocks, of which {free} are free"
            )?
        };
        self.print(line.as_str());
        Ok(())
    }

    /// Tells why the image isn't judged.
    pub(crate) fn tell_refusal(
        &mut self,
        word: &str,
        text: &str,
        help: &str,
    ) -> Result<(), AllocError> {
        let mut line = String::new(self.rt.alloc());
        if self.json {
            line.push_str("{\"refused\":")?;
            push_json(&mut line, word)?;
            line.push_str(",\"text\":")?;
            push_json(&mut line, text)?;
            line.push('}')?;
        } else {
            line.push_str(text)?;
            line.push_str(": ")?;
            line.push_str(help)?;
        }
        self.print(line.as_str());
        Ok(())
    }

    /// Tells a note.
    pub(crate) fn tell_note(&mut self, note: &Note) -> Result<(), AllocError> {
        let mut line = String::new(self.rt.alloc());
        if self.json {
            line.push_str("{\"note\":")?;
            push_json(&mut line, note.kind)?;
            line.push_str(",\"text\":")?;
            push_json(&mut line, note.text.as_str())?;
            if let Some(path) = &note.path {
                line.push_str(",\"path\":")?;
                push_json(&mut line, path.as_str())?;
            }
            line.push('}')?;
        } else {
            line.push_str("note: ")?;
            line.push_str(note.text.as_str())?;
        }
        self.print(line.as_str());
        Ok(())
    }

    /// Tells of a run of findings.
    pub(crate) fn tell(&mut self, run: &Run, said: &Said) -> Result<(), AllocError> {
        let line = if self.json {
            self.object(run, said)?
        } else {
            self.sentence(run, said)?
        };
        self.print(line.as_str());
        Ok(())
    }

    fn sentence(&self, run: &Run, said: &Said) -> Result<String, AllocError> {
        let rule = run.first.rule;
        let text = said.text.as_str();
        let mends = if said.mends {
            "can be mended from what is there"
        } else {
            "can't be mended from what is there"
        };
        format!(in self.rt.alloc(); "S{rule}: {text} ({mends})")
    }

    fn object(&self, run: &Run, said: &Said) -> Result<String, AllocError> {
        let rule = run.first.rule;
        let place = run.first.place;
        let last = run.last;
        let found = run.first.found;
        let wanted = run.first.wanted;
        let mut line = format!(in self.rt.alloc();
            "{{\"rule\":{rule},\"place\":{place},\"last\":{last},\"found\":{found},\"wanted\":{wanted},\"text\":"
        )?;
        push_json(&mut line, said.text.as_str())?;
        if let Some(path) = &said.path {
            line.push_str(",\"path\":")?;
            push_json(&mut line, path.as_str())?;
        }
        line.push_str(if said.mends {
            ",\"mendable\":true}"
        } else {
            ",\"mendable\":false}"
        })?;
        Ok(line)
    }

    /// Tells how many findings there are, how many of them can be mended, and what `hfsx repair` does.
    pub(crate) fn tell_count(
        &mut self,
        findings: u64,
        mendable: u64,
        repair: &Repair,
    ) -> Result<(), AllocError> {
        let alloc = self.rt.alloc();
        let mut line = if self.json {
            format!(in alloc; "{{\"findings\":{findings},\"mendable\":{mendable},\"repair\":")?
        } else {
            format!(in alloc;
                "findings {findings}, of which {mendable} can be mended from what is there"
            )?
        };
        let said = if self.json {
            repair_object(alloc, repair)?
        } else {
            repair_sentence(alloc, repair)?
        };
        line.push_str(said.as_str())?;
        self.print(line.as_str());
        Ok(())
    }
}

// What `hfsx repair` does, behind the counts of an object.
fn repair_object(alloc: Global, repair: &Repair) -> Result<String, AllocError> {
    match repair {
        Repair::Mends(sectors) => format!(in alloc; "true,\"sectors\":{sectors}}}"),
        Repair::Unknown => format!(in alloc; "null}}"),
        _ => format!(in alloc; "false}}"),
    }
}

// The same behind the counts of a sentence.
fn repair_sentence(alloc: Global, repair: &Repair) -> Result<String, AllocError> {
    match repair {
        Repair::Mends(sectors) => {
            format!(in alloc;
                ": `hfsx repair` writes {sectors} sectors, and the volume is sound then"
            )
        }
        Repair::Leaves(_) => {
            format!(in alloc; "; `hfsx repair` writes nothing as long as the others stay")
        }
        Repair::TooBig { sectors, capacity } => format!(in alloc;
            "; `hfsx repair` refuses it, since {sectors} sectors differ and a transaction of the journal holds {capacity}"
        ),
        Repair::Refused => {
            format!(in alloc; "; `hfsx repair` refuses the image, as `hfsx run` does")
        }
        Repair::Unknown => String::from_str(alloc, ""),
    }
}
