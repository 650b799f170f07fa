//! A watcher of one folder and all below it, for another watcher.
ghost use Rattle.std.specs.Prelude.{◌≡◌, [], Ok, false, IfOk, IfErr, OnOk, OnErr};
ghost use Rattle.watchers.specs.declared.watcher.Keep.TheVariants.{Stay};
ghost use Rattle.watchers.specs.Told.{Hears};
ghost use Rattle.watchers.specs.Under.{HearsUnder, TellsUnder, Watching, is_crowded, with_change};

use crate::folders::{FolderAt, is_within, note};
use crate::telling::has_left;
use crate::{Keep, Watcher};
use hfs_language::{Change, ChangeKind, Changes};
use hx_bytes::{OutOfMemory, Units};
use std::alloc::Global;
use std::marker::Model;

/// Watches a folder for another watcher, which is told the changes in this folder and below it, and no others.
///
/// A change counts by where it is once it is made: what is moved into the folder is told, what is moved out of it isn't. It knows where things
/// stand from the folders that it is given at first, and from the changes, which it keeps all.
#[derive(Drop)]
pub struct Under<W: Watcher> {
    alloc: Global,
    top: u32,
    room: u32,
    known: Vec<FolderAt>,
    told: Changes,
    has_left: bool,
    inner: W,
}

impl<W: Watcher> Model for Under<W> {
    ghost use Rattle.watchers.specs.Under.{Watching};

    ghost Value = { Watching W };

    ghost view = { λ under. record { top = under.top; room = under.room; known = under.known.items; told = under.told; has_left = under.has_left; inner = under.inner } };
}

/// The watcher that was handed in, where memory was missing.
#[derive(Drop)]
pub struct NoRoomFor<W: Watcher> {
    pub inner: W,
}

impl<W: Watcher> Under<W> {
    /// Watches the folder `top` for `inner`. The folders of the tree are given, each with the folder that it stands in; there is room for
    /// `room` ids of these and of all that is made later.
    pub fn new(
        alloc: Global,
        top: u32,
        folders: &[FolderAt],
        room: u32,
        inner: W,
    ) -> Result<Under<W>, NoRoomFor<W>>
        ensures made { IfOk result (λ under. under ≡ record { top = top; room = room; known = folders.now; told = []; has_left = false; inner = inner }) }
        ensures given_back { IfErr result (λ fault. fault.inner ≡ inner) }
    {
        let Ok(known) = Vec::from_slice(alloc, folders) else {
            return Err(NoRoomFor { inner });
        };
        Ok(Under {
            alloc,
            top,
            room,
            known,
            told: Changes::new(alloc),
            has_left: false,
            inner,
        })
    }

    /// Tells one change, where memory is there for it; else all stays as it was.
    pub fn hear(&mut self, change: &Change) -> Result<Keep, OutOfMemory>
        ensures heard { IfOk result (λ answer. HearsUnder W.told W.leaves change.now self.old self.new answer) }
        ensures kept { OnErr result (self.new ≡ self.old) }
    {
        if self.has_left {
            return Ok(Keep::Leave);
        }
        if self.is_crowded(change) {
            self.has_left = true;
            return Ok(Keep::Leave);
        }
        self.keep(change)?;
        if !is_within(self.known.as_slice(), self.top, change.parent) {
            return Ok(Keep::Stay);
        }
        if has_left(&mut self.inner, change) {
            self.has_left = true;
            return Ok(Keep::Leave);
        }
        Ok(Keep::Stay)
    }

    /// Tells changes one after the other, until it leaves.
    pub fn hear_all(&mut self, changes: &Changes) -> Result<Keep, OutOfMemory>
        ensures { result ≡ Ok Stay → TellsUnder W.told changes.now self.old self.new }
    {
        for change in changes.as_slice() {
            let answer = self.hear(change)?;
            if is_leave(answer) {
                return Ok(Keep::Leave);
            }
        }
        Ok(Keep::Stay)
    }

    /// Whether something is made and there is no room for its id.
    fn is_crowded(&self, change: &Change) -> bool
        ensures { result ≡ is_crowded self.now.room self.now.known change.now }
    {
        matches!(change.kind, ChangeKind::Made) && self.room as usize <= self.known.len()
    }

    /// Keeps a change, and knows where things stand after it.
    fn keep(&mut self, change: &Change) -> Result<(), OutOfMemory>
        ensures done { OnOk result (self.new ≡ with_change change.now self.old) }
        ensures kept { OnErr result (self.new ≡ self.old) }
    {
        self.known.reserve(1)?;
        self.told.push(copied(self.alloc, change)?)?;
        note(&mut self.known, change);
        Ok(())
    }

    /// The one within, as it is now.
    pub fn into_inner(self) -> W
        ensures { result ≡ self.inner }
    {
        let Under { inner, .. } = self;
        inner
    }
}

impl<W: Watcher> Watcher for Under<W> {
    ghost told = { λ watching. watching.told };

    ghost leaves = { λ watching. watching.has_left };

    fn tell(&mut self, change: &Change) -> Keep
        ensures heard { Hears change.now self.old.told self.new.told self.new.has_left result }
        ensures passed_on { result ≡ Stay → HearsUnder W.told W.leaves change.now self.old self.new Stay }
    {
        match self.hear(change) {
            Ok(answer) => answer,
            Err(_) => {
                self.has_left = true;
                Keep::Leave
            }
        }
    }
}

fn is_leave(answer: Keep) -> bool
    ensures { result ≡ false → answer ≡ Stay }
{
    match answer {
        Keep::Leave => true,
        Keep::Stay => false,
    }
}

/// A change of its own.
pub(crate) fn copied(alloc: Global, change: &Change) -> Result<Change, OutOfMemory>
    ensures { IfOk result (λ copy. copy ≡ change.now) }
{
    Ok(Change {
        line: change.line,
        kind: change.kind,
        id: change.id,
        parent: change.parent,
        name: Units::from_vec(Vec::from_slice(alloc, change.name.as_slice())?),
    })
}
