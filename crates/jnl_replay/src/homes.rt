//! The sectors that a journal's blocks belong into, one after another.
ghost use Rattle.std.specs.Prelude.{◌≡◌, ◌≤◌, ◌<◌, ◌+◌, ◌*◌, ◌-◌, IsTrue, IfOk, IfSome, OnOk, MatchOption, MatchBool, List, [], ◌∷◌, if◌then◌else◌, ◌/◌, ℕ};
ghost use Rattle.sector_disk.specs.Cause.{HasCause};
ghost use Rattle.sector_disk.specs.Disk.{content};
ghost use Rattle.jnl_format.specs.Text.{is_skipped};
ghost use Rattle.jnl_format.specs.declared.blocks.Home.{Home};
ghost use Rattle.jnl_format.specs.declared.blocks.Volume.{Volume};
ghost use Rattle.jnl_replay.specs.Pending.{IsCursor, Pending, GoesOn, Gives, work_left};
ghost use Rattle.sector_disk.specs.Disk.{OnlyReads};
ghost use Rattle.jnl_replay.specs.Text.{words, IsText};

use crate::blocks::is_skip;
use crate::text::{Text, read_entry_at, read_text};
use hx_bytes::Failed;
use jnl_format::{Entry, Home, read_list};
use sector_disk::SectorDisk;

/// The homes that are still to come.
#[derive(Clone, Copy)]
pub struct Homes {
    pub text: Text,
    pub sectors: u64,
    /// The place of the next list.
    pub list: u64,
    /// The place of the next entry of this list, and how many are left.
    pub entry: u64,
    pub entries: u16,
    /// The place of the next entry's block.
    pub body: u64,
    /// What is left of this block.
    pub sector: u64,
    pub place: u64,
    pub count: u32,
    /// No home before this place is given any more.
    pub reached: u64,
}

impl Homes {
    /// All homes of a text, on a disk of so many sectors.
    pub fn new(text: &Text, sectors: u64) -> Homes
        ensures text { result.text ≡ text.now }
        ensures sectors { result.sectors ≡ sectors }
        ensures start { (result.list ≡ 0) × (result.entry ≡ 0) × (result.entries ≡ 0) × (result.body ≡ 0) × (result.place ≡ 0) × (result.count ≡ 0) × (result.reached ≡ 0) }
        ensures cursor { IsCursor result }
    {
        Homes {
            text: *text,
            sectors,
            list: 0,
            entry: 0,
            entries: 0,
            body: 0,
            sector: 0,
            place: 0,
            count: 0,
            reached: 0,
        }
    }

    /// The next home, or none at the end.
    pub fn next<D: SectorDisk>(&mut self, disk: &mut D) -> Result<Option<Home>, Failed>
        requires text { IsText (D.state disk.old).sectors self.old.text }
        requires cursor { IsCursor self.old }
        ensures gives { IsTrue (D.state disk.old).tells → IfOk result (Gives (words self.old.text (content (D.state disk.old))) self.old self.new) }
        ensures on_disk { IfOk result (λ home. IfSome home (λ h. h.sector < self.old.sectors)) }
        ensures placed { IfOk result (λ home. IfSome home (λ h. h.place + 512 ≤ self.old.text.length)) }
        ensures further { IfOk result (λ home. IfSome home (λ h. (self.old.reached < self.new.reached) × (self.new.reached ≤ self.old.text.length))) }
        ensures cursor { IsCursor self.new }
        ensures text { self.new.text ≡ self.old.text }
        ensures sectors { self.new.sectors ≡ self.old.sectors }
        ensures reads { OnlyReads (D.state disk.old) (D.state disk.new) }
        ensures cause { HasCause (D.state disk.old).faults (D.state disk.new).faults result }
    {
        while self.count == 0 {
            if !self.step(disk)? {
                return Ok(None);
            }
        }
        Ok(self.take())
    }

    // The first sector of this block, if it may be given.
    fn take(&mut self) -> Option<Home>
        requires some { 0 < self.old.count }
        requires cursor { IsCursor self.old }
        ensures gives { (bytes : List ℕ) → Gives bytes self.old self.new result }
        ensures on_disk { IfSome result (λ h. h.sector < self.old.sectors) }
        ensures placed { IfSome result (λ h. h.place + 512 ≤ self.old.text.length) }
        ensures further { IfSome result (λ h. (self.old.reached < self.new.reached) × (self.new.reached ≤ self.old.text.length)) }
        ensures cursor { IsCursor self.new }
        ensures text { self.new.text ≡ self.old.text }
        ensures sectors { self.new.sectors ≡ self.old.sectors }
    {
        if self.place < self.reached || self.sectors <= self.sector {
            return None;
        }
        let home = Home {
            sector: self.sector,
            place: self.place,
        };
        self.sector += 1;
        self.place += 512;
        self.count -= 1;
        self.reached = self.place;
        Some(home)
    }

    // Goes on to the next block or list, or answers that there is none.
    fn step<D: SectorDisk>(&mut self, disk: &mut D) -> Result<bool, Failed>
        requires text { IsText (D.state disk.old).sectors self.old.text }
        requires cursor { IsCursor self.old }
        requires none { self.old.count ≡ 0 }
        ensures goes { IsTrue (D.state disk.old).tells → IfOk result (GoesOn (words self.old.text (content (D.state disk.old))) self.old self.new) }
        ensures less { IfOk result (λ more. IsTrue more → work_left self.new < work_left self.old) }
        ensures cursor { IsCursor self.new }
        ensures text { self.new.text ≡ self.old.text }
        ensures sectors { self.new.sectors ≡ self.old.sectors }
        ensures reached { self.new.reached ≡ self.old.reached }
        ensures reads { OnlyReads (D.state disk.old) (D.state disk.new) }
        ensures cause { HasCause (D.state disk.old).faults (D.state disk.new).faults result }
    {
        if 0 < self.entries {
            self.take_entry(disk)
        } else if self.list < self.text.length {
            self.take_list(disk)
        } else {
            Ok(false)
        }
    }

    // Goes on to the block of the next entry.
    fn take_entry<D: SectorDisk>(&mut self, disk: &mut D) -> Result<bool, Failed>
        requires text { IsText (D.state disk.old).sectors self.old.text }
        requires cursor { IsCursor self.old }
        requires none { self.old.count ≡ 0 }
        requires some { 0 < self.old.entries }
        ensures goes { IsTrue (D.state disk.old).tells → IfOk result (GoesOn (words self.old.text (content (D.state disk.old))) self.old self.new) }
        ensures less { IfOk result (λ more. IsTrue more → work_left self.new < work_left self.old) }
        ensures cursor { IsCursor self.new }
        ensures text { self.new.text ≡ self.old.text }
        ensures sectors { self.new.sectors ≡ self.old.sectors }
        ensures reached { self.new.reached ≡ self.old.reached }
        ensures reads { OnlyReads (D.state disk.old) (D.state disk.new) }
        ensures cause { HasCause (D.state disk.old).faults (D.state disk.new).faults result }
    {
        if self.text.length - self.entry < 16 {
            return Ok(false);
        }
        let entry = read_entry_at(disk, &self.text, self.entry)?;
        let size = u64::from(entry.bsize);
        if self.text.length - self.body < size {
            return Ok(false);
        }
        self.sector = entry.bnum;
        self.place = self.body;
        self.count = kept_sectors(&entry);
        self.entry += 16;
        self.entries -= 1;
        self.body += size;
        Ok(true)
    }

    // Goes on to the next list.
    fn take_list<D: SectorDisk>(&mut self, disk: &mut D) -> Result<bool, Failed>
        requires text { IsText (D.state disk.old).sectors self.old.text }
        requires cursor { IsCursor self.old }
        requires none { self.old.count ≡ 0 }
        requires no_entries { self.old.entries ≡ 0 }
        requires some { self.old.list < self.old.text.length }
        ensures goes { IsTrue (D.state disk.old).tells → IfOk result (GoesOn (words self.old.text (content (D.state disk.old))) self.old self.new) }
        ensures less { IfOk result (λ more. IsTrue more → work_left self.new < work_left self.old) }
        ensures cursor { IsCursor self.new }
        ensures text { self.new.text ≡ self.old.text }
        ensures sectors { self.new.sectors ≡ self.old.sectors }
        ensures reached { self.new.reached ≡ self.old.reached }
        ensures reads { OnlyReads (D.state disk.old) (D.state disk.new) }
        ensures cause { HasCause (D.state disk.old).faults (D.state disk.new).faults result }
    {
        let at = self.list;
        let left = self.text.length - at;
        let header = u64::from(self.text.blhdr);
        if left < header {
            return Ok(false);
        }
        let mut bytes = [0; 32];
        read_text(disk, &self.text, at, &mut bytes)?;
        let head = match read_list(&bytes, self.text.order, self.text.blhdr) {
            Some(head) => head,
            None => return Ok(false),
        };
        let used = u64::from(head.used);
        if used < header {
            return Ok(false);
        }
        if left < used {
            return Ok(false);
        }
        self.entry = at + 32;
        self.entries = head.entries - 1;
        self.body = at + header;
        self.list = at + used;
        Ok(true)
    }
}

fn kept_sectors(entry: &Entry) -> u32
    ensures { result ≡ (if is_skipped entry.now then 0 else entry.now.bsize / 512) }
{
    if is_skip(entry) { 0 } else { entry.bsize / 512 }
}
