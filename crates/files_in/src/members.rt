//! A member of an archive: where it goes, and the folders above it.
use crate::archive_in::{ArchiveIn, Item, Waiting};
use crate::asking::Asked;
use crate::folder::CLAMPED;
use crate::ground::Found;
use crate::staging::{MARK, STAGING};
use files_talk::{LineList, child_of, word_of};
use std::alloc::AllocError;
use std::io::Read;
use tar_text::{Kind, Member};

impl<'a, R: Read + Drop> ArchiveIn<'a, R> {
    // Looks at a member, makes the folders above it, and asks whether it is there where it may be.
    pub(crate) fn look_at(
        &mut self,
        lines: &mut LineList,
        member: Member,
    ) -> Result<bool, AllocError> {
        if member.owner > 0 || member.group > 0 {
            self.owned = self.owned.saturating_add(1);
        }
        let Some(item) = self.item(member)? else {
            return Ok(true);
        };
        self.make_folders(lines, item.folder.as_str(), item.date)?;
        if self.ground.fresh {
            return self.put(lines, item, Found::Nothing);
        }
        self.ground
            .asking
            .path(lines, "stat", item.word.as_str(), Asked::Question)?;
        self.waiting = Some(Waiting { item, found: None });
        Ok(false)
    }

    // What is to be put for a member, or none where it is left out, which is told.
    pub(crate) fn item(&mut self, member: Member) -> Result<Option<Item>, AllocError> {
        let alloc = self.ground.alloc();
        let Member {
            kind,
            path,
            target,
            mode,
            size,
            changed,
            attributes,
            ..
        } = member;
        let shown = String::from_utf8_lossy(alloc, path.as_slice())?;
        if let Some(why) = lack_of(kind) {
            self.ground.asking.notes.leave_out(shown.as_str(), why);
            return Ok(None);
        }
        let Some((folder, word)) = self.words(shown.as_str(), path.as_slice())? else {
            return Ok(None);
        };
        let target = if kind == Kind::HardLink {
            match self.words(shown.as_str(), target.as_slice())? {
                Some((_, target)) => target,
                None => return Ok(None),
            }
        } else {
            String::new(alloc)
        };
        let date = self.ground.dates.date(changed);
        if date.clamped {
            self.ground.asking.notes.remark(shown.as_str(), CLAMPED);
        }
        Ok(Some(Item {
            shown,
            word,
            folder,
            kind,
            target,
            mode,
            size,
            date: date.date,
            attributes,
        }))
    }

    // The paths of a member and of its folder in the volume. Where there is none, it is left out, which is told.
    pub(crate) fn words(
        &mut self,
        shown: &str,
        path: &[u8],
    ) -> Result<Option<(String, String)>, AllocError> {
        let alloc = self.ground.alloc();
        let mut folder = String::from_str(alloc, self.ground.top())?;
        let mut word = String::from_str(alloc, self.ground.top())?;
        let Ok(path) = str::from_utf8(path) else {
            self.ground
                .asking
                .notes
                .leave_out(shown, "its name isn't UTF-8");
            return Ok(None);
        };
        for name in path.split('/') {
            if name.is_empty() || name == "." {
                continue;
            }
            match component_of(name) {
                Some(why) => {
                    self.ground.asking.notes.leave_out(shown, why);
                    return Ok(None);
                }
                None => {}
            }
            match word_of(alloc, name)? {
                Ok(component) => {
                    let below = child_of(alloc, word.as_str(), component.as_str())?;
                    folder = word;
                    word = below;
                }
                Err(why) => {
                    self.ground.asking.notes.leave_out(shown, why);
                    return Ok(None);
                }
            }
        }
        Ok(Some((folder, word)))
    }

    // Makes the folders on the way to one, and this one, where they aren't known to be there.
    pub(crate) fn make_folders(
        &mut self,
        lines: &mut LineList,
        folder: &str,
        date: u32,
    ) -> Result<(), AllocError> {
        let alloc = self.ground.alloc();
        if folder.len() <= self.ground.top().len() || self.folders.contains(folder) {
            return Ok(());
        }
        let mut path = String::from_str(alloc, self.ground.top())?;
        let Some(rest) = folder.strip_prefix(self.ground.top()) else {
            return Ok(());
        };
        for name in rest.split('/') {
            if name.is_empty() {
                continue;
            }
            path = child_of(alloc, path.as_str(), name)?;
            if !self.folders.contains(path.as_str()) {
                self.ground.asking.at(lines, date)?;
                self.ground
                    .asking
                    .path(lines, "mkdir", path.as_str(), Asked::Other)?;
                self.folders
                    .insert(String::from_str(alloc, path.as_str())?)?;
            }
        }
        Ok(())
    }
}

// Why a member of this kind isn't put.
fn lack_of(kind: Kind) -> Option<&'static str> {
    match kind {
        Kind::File | Kind::HardLink | Kind::Folder => None,
        Kind::SymbolicLink => Some("volumes keep no symbolic links yet"),
        Kind::CharacterDevice | Kind::BlockDevice => Some("it is a device"),
        Kind::Fifo => Some("it is a pipe"),
        Kind::Sparse => Some("it is spelled with holes, as GNU tar does with --sparse"),
        Kind::Other(_) => Some("its kind isn't known"),
    }
}

// Why a name can't be one of a path in the volume.
fn component_of(name: &str) -> Option<&'static str> {
    if name == ".." {
        return Some("its path leads upwards");
    }
    if name == STAGING || name == MARK {
        return Some("its name is one of those that this program gives to files of its own");
    }
    None
}
