//! Which files sessions have open.
ghost use Rattle.std.specs.Prelude.{◌≡◌, ◌≤◌, ◌+◌, [], length, insert, true, false, Some, IfOk, IfSome, OnOk, OnErr};
ghost use Rattle.hfs_model.specs.Sorted.{put_before};
ghost use Rattle.open_files.specs.Handles.{Opens, close_of, file_of, first_free, first_handle, is_handle, is_held, is_open, without_handle};
ghost use Rattle.open_files.specs.Order.{IsLeast, are_in_order, handle_before};

use crate::OpenFile;
use hx_bytes::OutOfMemory;
use std::alloc::Global;
use std::marker::Model;

/// The most files that a session has open at once.
pub const MOST_OPEN: u32 = 256;

/// The files that sessions have open, in the order of their sessions and handles.
#[derive(Drop)]
pub struct Table {
    files: Vec<OpenFile>,
    ghost in_order: { are_in_order files.items ≡ true },
}

impl Model for Table {
    ghost use Rattle.std.specs.Prelude.{List};
    ghost use Rattle.open_files.specs.declared.act.OpenFile.{OpenFile};

    ghost Value = { List OpenFile };

    ghost view = { λ table. table.files.items };
}

/// What came of a file that was to be opened.
#[derive(Clone, Copy, Debug, PartialEq, Eq)]
pub enum Opened {
    /// The least number from 1 that wasn't open in the session.
    Handle(u32),
    /// The session has 256 files open.
    TooManyOpen,
}

/// What came of a handle that was to be closed.
#[derive(Clone, Copy, Debug, PartialEq, Eq)]
pub enum Closed {
    /// No handle names this file any more.
    Gone(u32),
    /// Another handle names the file.
    Still,
    /// The handle isn't open in the session.
    NoHandle,
}

impl Table {
    /// No file is open. It takes no memory.
    pub fn new(alloc: Global) -> Table
        ensures { result ≡ [] }
    {
        Table {
            files: Vec::new(alloc),
        }
    }

    /// Opens the file with this id in a session.
    pub fn open_file(&mut self, session: u8, id: u32) -> Result<Opened, OutOfMemory>
        ensures opened { IfOk result (λ answer. Opens self.old session id answer self.new) }
        ensures kept { OnErr result (self.new ≡ self.old) }
    {
        match first_free(self.files.as_slice(), session, MOST_OPEN) {
            Some(handle) => {
                put(
                    &mut self.files,
                    OpenFile {
                        session,
                        handle,
                        file: id,
                    },
                )?;
                Ok(Opened::Handle(handle))
            }
            None => Ok(Opened::TooManyOpen),
        }
    }

    /// The id of a handle's file; none where the handle isn't open in the session.
    pub fn file(&self, session: u8, handle: u32) -> Option<u32>
        ensures { result ≡ file_of self.now session handle }
    {
        match self
            .files
            .iter()
            .find(|opened| opened.is_handle(session, handle))
        {
            Some(opened) => Some(opened.file),
            None => None,
        }
    }

    /// Whether a session has this file open.
    pub fn held(&self, id: u32) -> bool
        ensures { result ≡ is_held self.now id }
    {
        self.files.iter().any(|opened| opened.file == id)
    }

    /// The session's least handle; none where it has none. The handles stand in the order of their sessions and numbers, none of them twice.
    pub fn first(&self, session: u8) -> Option<u32>
        ensures first { result ≡ first_handle self.now session }
        ensures least { IfSome result (IsLeast self.now session) }
        ensures order { are_in_order self.now ≡ true }
    {
        first_of(self.files.as_slice(), session)
    }

    /// Closes a handle. It takes no memory.
    pub fn close(&mut self, session: u8, handle: u32) -> Closed
        ensures answer { result ≡ close_of self.old session handle }
        ensures left { self.new ≡ without_handle session handle self.old }
    {
        let file = self.file(session, handle);
        drop_handle(&mut self.files, session, handle);
        match file {
            Some(id) => if self.held(id) {
                Closed::Still
            } else {
                Closed::Gone(id)
            },
            None => Closed::NoHandle,
        }
    }
}

impl OpenFile {
    fn is_handle(&self, session: u8, handle: u32) -> bool
        ensures { result ≡ is_handle session handle self.now }
    {
        self.session == session && self.handle == handle
    }

    /// Whether this one comes before the other.
    fn comes_before(&self, other: &OpenFile) -> bool
        ensures { result ≡ handle_before self.now other.now }
    {
        self.session < other.session || self.session == other.session && self.handle < other.handle
    }
}

/// The first handle of a session.
fn first_of(files: &[OpenFile], session: u8) -> Option<u32>
    ensures { result ≡ first_handle files.now session }
{
    match files.iter().find(|opened| opened.session == session) {
        Some(opened) => Some(opened.handle),
        None => None,
    }
}

fn is_open(files: &[OpenFile], session: u8, handle: u32) -> bool
    ensures { result ≡ is_open files.now session handle }
{
    files.iter().any(|opened| opened.is_handle(session, handle))
}

/// The least of so many numbers from 1 on that isn't open in the session.
#[tactic(auto, using(crate::proofs::Firsts::handle_taken))]
fn first_free(files: &[OpenFile], session: u8, count: u32) -> Option<u32>
    requires { count ≤ 256 }
    ensures value { result ≡ first_free files.now session count 1 }
    ensures free { IfSome result (λ handle. is_open files.now session handle ≡ false) }
{
    let mut handle = 1;
    let mut left = count;
    while left > 0 {
        if !is_open(files, session, handle) {
            return Some(handle);
        }
        handle += 1;
        left -= 1;
    }
    None
}

/// The place of the first that this one comes before, or the list's length where there is none.
fn place_of(files: &[OpenFile], opened: &OpenFile) -> usize
    ensures within { result ≤ length files.now }
    ensures value { insert files.now result opened.now ≡ put_before handle_before opened.now files.now }
{
    for (at, next) in files.iter().enumerate() {
        if opened.comes_before(next) {
            return at;
        }
    }
    files.len()
}

/// Puts one more, which isn't open, at its place.
#[tactic(auto, using(crate::proofs::Ordered::put_in_order))]
fn put(files: &mut Vec<OpenFile>, opened: OpenFile) -> Result<(), OutOfMemory>
    requires free { is_open files.old.items opened.session opened.handle ≡ false }
    requires in_order { are_in_order files.old.items ≡ true }
    ensures done { OnOk result (files.new.items ≡ put_before handle_before opened files.old.items) }
    ensures in_order { are_in_order files.new.items ≡ true }
    ensures kept { OnErr result (files.new.items ≡ files.old.items) }
{
    let at = place_of(files.as_slice(), &opened);
    files.insert(at, opened)?;
    Ok(())
}

/// The handles without this one.
fn drop_handle(files: &mut Vec<OpenFile>, session: u8, handle: u32)
    ensures { files.new.items ≡ without_handle session handle files.old.items }
{
    files.retain(|opened| !opened.is_handle(session, handle));
}
