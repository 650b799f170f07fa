//! Files and folders are made below a folder of the system, and nothing outside of it: what stands there already is never followed
//! where it is a symbolic link, and never written.

use files_talk::{Facts, Notes, child_of, seconds_of};
use std::alloc::AllocError;
use std::fs::{self, DirBuilder, File, FileTimes, Files, OpenOptions, Permissions};
use std::io::{self, ErrorKind, Write};
use std::os::unix::fs::{DirBuilderExt, MetadataExt, OpenOptionsExt, PermissionsExt, symlink};
use std::time::{Duration, UNIX_EPOCH};

/// The modes under which a folder and a file are made, until they get their own.
const FOLDER_MODE: u32 = 0o700;

const FILE_MODE: u32 = 0o600;

/// The name under which a file is gathered beside its place, so that no part of it stands there where the work is cut off.
const PART: &str = ".hfsx-files-part";

/// The date of what was never dated.
const NO_DATE: u32 = 0;

/// What is told of an entry that has the name under which files are gathered.
const OWN_NAME: &str = "its name is one of those that this program gives to files of its own";

/// A folder that gets its mode and its date when all that is in it was made.
#[derive(Drop)]
struct Folder {
    place: String,
    facts: Facts,
}

/// What is being made.
#[derive(Drop)]
pub(crate) struct Below {
    over: bool,
    file: Option<File>,
    /// Where it is gathered.
    part: String,
    folders: Vec<Folder>,
}

/// Tells that an entry is left out, for the system's reason.
fn lose(notes: &mut Notes<'_>, place: &str, error: io::Error) -> Result<bool, AllocError> {
    let why = error.to_string(notes.rt().alloc())?;
    notes.leave_out(place, why.as_str());
    Ok(false)
}

/// Tells that an entry is left out, since something is there or for the system's reason.
fn lose_place(notes: &mut Notes<'_>, place: &str, error: io::Error) -> Result<bool, AllocError> {
    if error.kind() == ErrorKind::AlreadyExists {
        notes.leave_out(place, "it is there already");
        return Ok(false);
    }
    lose(notes, place, error)
}

impl Below {
    /// Nothing is being made. What is there already is replaced where `over` is set.
    pub(crate) fn new(rt: &HostRuntime, over: bool) -> Below {
        Below {
            over,
            file: None,
            part: String::new(rt.alloc()),
            folders: Vec::new(rt.alloc()),
        }
    }

    /// Makes a folder, or takes the one that is there, and answers whether there is one now. The one that the user named may be a
    /// symbolic link to a folder.
    pub(crate) fn make_folder(
        &mut self,
        notes: &mut Notes<'_>,
        place: &str,
        top: bool,
        facts: Facts,
    ) -> Result<bool, AllocError> {
        if is_part(place) {
            notes.leave_out(place, OWN_NAME);
            return Ok(false);
        }
        let mut builder = DirBuilder::new();
        builder.mode(FOLDER_MODE);
        match builder.create(notes.rt(), place) {
            Ok(()) => self.keep(notes, place, facts),
            Err(error) => {
                if error.kind() != ErrorKind::AlreadyExists {
                    return lose(notes, place, error);
                }
                if !is_folder(notes, place, top)? {
                    return Ok(false);
                }
                if self.over {
                    return self.keep(notes, place, facts);
                }
                Ok(true)
            }
        }
    }

    // Keeps what a folder gets at the end.
    fn keep(&mut self, notes: &Notes<'_>, place: &str, facts: Facts) -> Result<bool, AllocError> {
        let place = String::from_str(notes.rt().alloc(), place)?;
        self.folders.push(Folder { place, facts })?;
        Ok(true)
    }

    /// Whether this very file is there already, as far as size and date tell, and isn't to be replaced.
    pub(crate) fn has_same(&self, rt: &HostRuntime, place: &str, facts: Facts) -> bool {
        if self.over {
            return false;
        }
        match fs::symlink_metadata(rt, place) {
            Ok(found) => {
                found.is_file()
                    && found.len() == facts.size
                    && found.mtime() == seconds_of(facts.changed)
            }
            Err(_) => false,
        }
    }

    /// Opens a file that isn't there yet, and answers whether it is open. It is gathered beside its place.
    pub(crate) fn start(&mut self, notes: &mut Notes<'_>, place: &str) -> Result<bool, AllocError> {
        self.file = None;
        if is_part(place) {
            notes.leave_out(place, OWN_NAME);
            return Ok(false);
        }
        if !self.over && fs::symlink_metadata(notes.rt(), place).is_ok() {
            notes.leave_out(place, "it is there already");
            return Ok(false);
        }
        let part = part_of(notes, place)?;
        if !remove(notes, part.as_str())? {
            return Ok(false);
        }
        let mut options = OpenOptions::new();
        options.write(true).create_new(true).mode(FILE_MODE);
        match options.open(notes.rt(), part.as_str()) {
            Ok(file) => {
                self.file = Some(file);
                self.part = part;
                Ok(true)
            }
            Err(error) => lose(notes, place, error),
        }
    }

    /// Writes the next bytes of the file, and answers whether they were written.
    pub(crate) fn write(
        &mut self,
        notes: &mut Notes<'_>,
        place: &str,
        bytes: &[u8],
    ) -> Result<bool, AllocError> {
        let written = match &mut self.file {
            Some(file) => file.write_all(bytes),
            None => return Ok(false),
        };
        match written {
            Ok(()) => Ok(true),
            Err(error) => lose(notes, place, error),
        }
    }

    /// Gives the file its date and its mode, moves it to its place, and answers whether it is there.
    pub(crate) fn end(
        &mut self,
        notes: &mut Notes<'_>,
        place: &str,
        facts: Facts,
    ) -> Result<bool, AllocError> {
        let ended = match &self.file {
            Some(file) => settle(file, facts),
            None => Ok(()),
        };
        self.file = None;
        if let Err(error) = self.move_to(notes.rt(), place) {
            let _ = fs::remove_file(notes.rt(), self.part.as_str());
            return lose_place(notes, place, error);
        }
        tell(notes, place, facts, ended)?;
        Ok(true)
    }

    // Moves the file that was gathered to its place. What came there meanwhile is replaced only where that is wanted.
    fn move_to(&self, rt: &HostRuntime, place: &str) -> io::Result<()> {
        let part = self.part.as_str();
        if self.over {
            return fs::rename(rt, part, place);
        }
        match fs::hard_link(rt, part, place) {
            Ok(()) => fs::remove_file(rt, part),
            Err(error) => {
                if error.kind() == ErrorKind::AlreadyExists {
                    return Err(error);
                }
                // (a system without hard links)
                fs::rename(rt, part, place)
            }
        }
    }

    /// Closes a file that isn't whole, and takes it away.
    pub(crate) fn give_up(&mut self, notes: &Notes<'_>) {
        if self.file.is_some() {
            self.file = None;
            let _ = fs::remove_file(notes.rt(), self.part.as_str());
        }
    }

    /// Gives a file another name, and answers whether it has it.
    pub(crate) fn link(
        &mut self,
        notes: &mut Notes<'_>,
        first: &str,
        place: &str,
    ) -> Result<bool, AllocError> {
        if self.over && !remove(notes, place)? {
            return Ok(false);
        }
        match fs::hard_link(notes.rt(), first, place) {
            Ok(()) => Ok(true),
            Err(error) => {
                if error.kind() == ErrorKind::AlreadyExists
                    && is_one_file(notes.rt(), first, place)
                {
                    return Ok(false);
                }
                lose_place(notes, place, error)
            }
        }
    }

    /// Makes a symbolic link, and answers whether it was made. What was made of one before is left as it is.
    pub(crate) fn make_symlink(
        &mut self,
        notes: &mut Notes<'_>,
        place: &str,
        target: &str,
    ) -> Result<bool, AllocError> {
        if is_part(place) {
            notes.leave_out(place, OWN_NAME);
            return Ok(false);
        }
        if leads_to(notes.rt(), place, target) || self.over && !remove(notes, place)? {
            return Ok(false);
        }
        match symlink(notes.rt(), target, place) {
            Ok(()) => Ok(true),
            Err(error) => lose_place(notes, place, error),
        }
    }

    /// Gives the folders their modes and dates, those behind first.
    pub(crate) fn finish(&mut self, notes: &mut Notes<'_>) -> Result<(), AllocError> {
        for _ in 0..u64::MAX {
            match self.folders.pop() {
                Some(folder) => settle_folder(notes, folder.place.as_str(), folder.facts)?,
                None => break,
            }
        }
        Ok(())
    }
}

// Where a file is gathered that comes to a place.
fn part_of(notes: &Notes<'_>, place: &str) -> Result<String, AllocError> {
    let alloc = notes.rt().alloc();
    match place.rsplit_once('/') {
        Some((folder, _)) => child_of(alloc, folder, PART),
        None => String::from_str(alloc, PART),
    }
}

// Whether a place is one where files are gathered.
fn is_part(place: &str) -> bool {
    match place.rsplit_once('/') {
        Some((_, name)) => name == PART,
        None => place == PART,
    }
}

// Whether two places are names of one file.
fn is_one_file(rt: &HostRuntime, first: &str, second: &str) -> bool {
    match (
        fs::symlink_metadata(rt, first),
        fs::symlink_metadata(rt, second),
    ) {
        (Ok(first), Ok(second)) => first.dev() == second.dev() && first.ino() == second.ino(),
        _ => false,
    }
}

// Whether a symbolic link with this target stands at a place.
fn leads_to(rt: &HostRuntime, place: &str, target: &str) -> bool {
    match rt.read_link(rt.alloc(), place) {
        Ok(found) => found.into_string().as_str() == target,
        Err(_) => false,
    }
}

// Whether a folder stands at a place, which is told where something else does. A symbolic link is something else, but for the place
// that the user named.
fn is_folder(notes: &mut Notes<'_>, place: &str, top: bool) -> Result<bool, AllocError> {
    let found = if top {
        fs::metadata(notes.rt(), place)
    } else {
        fs::symlink_metadata(notes.rt(), place)
    };
    match found {
        Ok(found) => {
            if found.is_dir() {
                return Ok(true);
            }
            notes.leave_out(place, "something that is no folder is there already");
            Ok(false)
        }
        Err(error) => lose(notes, place, error),
    }
}

// Takes away what stands at a place, and answers whether nothing stands there now. A folder is left alone.
fn remove(notes: &mut Notes<'_>, place: &str) -> Result<bool, AllocError> {
    let Ok(found) = fs::symlink_metadata(notes.rt(), place) else {
        return Ok(true);
    };
    if found.is_dir() {
        notes.leave_out(place, "a folder is there already");
        return Ok(false);
    }
    match fs::remove_file(notes.rt(), place) {
        Ok(()) => Ok(true),
        Err(error) => lose(notes, place, error),
    }
}

// Gives a folder its mode and its date.
fn settle_folder(notes: &mut Notes<'_>, place: &str, facts: Facts) -> Result<(), AllocError> {
    let ended = match File::open(notes.rt(), place) {
        Ok(folder) => settle(&folder, facts),
        Err(error) => Err(error),
    };
    tell(notes, place, facts, ended)
}

// Tells what an entry didn't get.
fn tell(
    notes: &mut Notes<'_>,
    place: &str,
    facts: Facts,
    ended: io::Result<()>,
) -> Result<(), AllocError> {
    if facts.changed != NO_DATE && seconds_of(facts.changed) < 0 {
        notes.doubt(place, "its date is before 1970, and can't be set here");
    }
    if let Err(error) = ended {
        let why = error.to_string(notes.rt().alloc())?;
        let what = format!(in notes.rt().alloc();
            "its mode or its date can't be set: {}",
            why.as_str()
        )?;
        notes.doubt(place, what.as_str());
    }
    Ok(())
}

// Gives a file its date, where the system can tell it, and its mode.
fn settle(file: &File, facts: Facts) -> io::Result<()> {
    if let Ok(seconds) = u64::try_from(seconds_of(facts.changed)) {
        if let Some(time) = UNIX_EPOCH.checked_add(Duration::from_secs(seconds)) {
            file.set_times(FileTimes::new().set_accessed(time).set_modified(time))?;
        }
    }
    file.set_permissions(Permissions::from_mode(facts.mode))
}
