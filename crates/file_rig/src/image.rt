//! The file or block device of an image: opened, measured, read and written, and looked for as long as it is written.

use crate::failure::{Act, Failure};
use crate::identity::Identity;
use crate::limit::FileLimit;
use crate::opening::{Opened, Purpose, may_be_image, open};
use crate::place::Place;
use hx_bytes::Sector;
use std::fs::{self, File};
use std::io::{self, ErrorKind, Seek, SeekFrom};
use std::os::unix::fs::{FileExt, FileTypeExt};

/// The bytes of a sector.
const SECTOR: u64 = 512;

/// An image, or a file that is to become one.
#[derive(Drop)]
pub enum Image<'a> {
    /// There is none.
    Absent,
    /// A file that is opened, or made, and gets its length when it is first asked for anything.
    Unmade {
        rt: &'a HostRuntime,
        name: &'a str,
        sectors: u64,
    },
    /// A file that is open and locked.
    Open(OpenImage<'a>),
}

/// An image that is open: against other processes, or where it is read alone against those that write it.
#[derive(Drop)]
pub struct OpenImage<'a> {
    rt: &'a HostRuntime,
    name: &'a str,
    opened: Opened,
    sectors: u64,
    // The first of the sectors that it got when it was made longer, which hold zeros.
    added: Option<u64>,
    limit: FileLimit,
}

impl<'a> Image<'a> {
    /// Opens a file or a block device that is there, and says how many whole sectors it has.
    pub fn open(rt: &'a HostRuntime, name: &'a str) -> Result<(Image<'a>, u64), Failure> {
        let opened = open(rt, name, Purpose::Writing)?;
        measured(rt, name, opened)
    }

    /// Opens a file or a block device that is there to read it alone, and says how many whole sectors it has. It needn't be one that
    /// may be written.
    pub fn to_check(rt: &'a HostRuntime, name: &'a str) -> Result<(Image<'a>, u64), Failure> {
        let opened = open(rt, name, Purpose::Reading)?;
        measured(rt, name, opened)
    }

    /// A file to be formatted with so many sectors, and how many it will have: a block device has the number that it has.
    pub fn to_format(
        rt: &'a HostRuntime,
        name: &'a str,
        sectors: u64,
    ) -> Result<(Image<'a>, u64), Failure> {
        if let Ok(found) = fs::metadata(rt, name) {
            may_be_image(rt, &found)?;
            if found.file_type().is_block_device() {
                return Image::open(rt, name);
            }
        }
        Ok((Image::Unmade { rt, name, sectors }, sectors))
    }

    // The image, which is opened now where that was put off, or none.
    fn file(&mut self) -> Result<Option<&OpenImage<'a>>, Failure> {
        if let Image::Unmade { rt, name, sectors } = self {
            *self = Image::Open(made(*rt, *name, *sectors)?);
        }
        match self {
            Image::Open(image) => Ok(Some(image)),
            _ => Ok(None),
        }
    }
}

// An image of what was opened, and its number of sectors.
fn measured<'a>(
    rt: &'a HostRuntime,
    name: &'a str,
    opened: Opened,
) -> Result<(Image<'a>, u64), Failure> {
    let sectors = sectors_of(&opened.file)?;
    let image = OpenImage {
        rt,
        name,
        opened,
        sectors,
        added: None,
        limit: FileLimit::of_process(rt),
    };
    Ok((Image::Open(image), sectors))
}

// A file that is opened, or made, and gets this length.
fn made<'a>(rt: &'a HostRuntime, name: &'a str, sectors: u64) -> Result<OpenImage<'a>, Failure> {
    let opened = open(rt, name, Purpose::Making)?;
    let limit = FileLimit::of_process(rt);
    let added = match lengthen(&opened.file, sectors, limit) {
        Ok(added) => added,
        Err(error) => return Err(Act::Lengthening.failed(error)),
    };
    Ok(OpenImage {
        rt,
        name,
        opened,
        sectors,
        added: Some(added),
        limit,
    })
}

// Gives a file its length, and says from which sector on it holds nothing of before.
fn lengthen(file: &File, sectors: u64, limit: FileLimit) -> io::Result<u64> {
    let length = sectors.checked_mul(SECTOR).unwrap_or(u64::MAX);
    let was = file.metadata()?.len();
    if length > was {
        limit.allows(length)?;
    }
    file.set_len(length)?;
    Ok(was.div_ceil(SECTOR))
}

impl<'a> OpenImage<'a> {
    // Reads the sectors from one on.
    fn read(&self, first: u64, into: &mut [Sector]) -> io::Result<()> {
        self.opened
            .file
            .read_exact_at(into.as_flattened_mut(), first.wrapping_mul(SECTOR))
    }

    // Writes the sectors from one on. A file that became shorter isn't made longer again.
    fn write(&self, first: u64, run: &[Sector]) -> Result<(), Failure> {
        self.has_its_length()?;
        match self.write_bytes(first.wrapping_mul(SECTOR), run.as_flattened()) {
            Ok(()) => Ok(()),
            Err(error) => {
                let count = run.len() as u64;
                Err(Act::Writing { first, count }.failed(error))
            }
        }
    }

    // Writes bytes at a place, if the system lets a file have so many.
    fn write_bytes(&self, place: u64, bytes: &[u8]) -> io::Result<()> {
        if matches!(self.opened.identity, Identity::File { .. }) {
            self.limit.allows(place.saturating_add(bytes.len() as u64))?;
        }
        self.opened.file.write_all_at(bytes, place)
    }

    // Makes durable what was written, and sees that the image is still there.
    fn flush(&self) -> Result<(), Failure> {
        if let Err(error) = self.opened.file.sync_data() {
            return Err(Act::Flushing.failed(error));
        }
        self.has_its_length()?;
        self.has_its_name()
    }

    // Whether it has as many sectors as when it was opened.
    fn has_its_length(&self) -> Result<(), Failure> {
        if sectors_of(&self.opened.file)? < self.sectors {
            return Err(lost("it became shorter"));
        }
        Ok(())
    }

    // Whether its name still names it.
    fn has_its_name(&self) -> Result<(), Failure> {
        match fs::metadata(self.rt, self.name) {
            Ok(found) => {
                if Identity::of(&found) == self.opened.identity {
                    Ok(())
                } else {
                    Err(lost("its name was given to another file"))
                }
            }
            Err(error) => {
                if error.kind() == ErrorKind::NotFound {
                    Err(lost("it was removed or renamed"))
                } else {
                    Err(Act::Keeping.failed(error))
                }
            }
        }
    }
}

fn lost(why: &str) -> Failure {
    Act::Keeping.failed(io::Error::new(ErrorKind::NotFound, why))
}

impl<'a> Place for Image<'a> {
    ghost use Rattle.file_rig.specs.Untold.{untold_place};

    ghost state = { λ _. untold_place };

    fn read_run(&mut self, first: u64, into: &mut [Sector]) -> Result<(), Failure> {
        if let Some(image) = self.file()? {
            if let Err(error) = image.read(first, into) {
                return Err(Act::Reading(first).failed(error));
            }
        }
        Ok(())
    }

    fn write_run(&mut self, first: u64, run: &[Sector]) -> Result<(), Failure> {
        match self.file()? {
            Some(image) => image.write(first, run),
            None => Ok(()),
        }
    }

    fn zeros_from(&mut self) -> Result<Option<u64>, Failure> {
        match self.file()? {
            Some(image) => Ok(image.added),
            None => Ok(None),
        }
    }

    fn flush(&mut self) -> Result<(), Failure> {
        match self.file()? {
            Some(image) => image.flush(),
            None => Ok(()),
        }
    }
}

// How many whole sectors a file has, or a block device, whose length its end tells.
fn sectors_of(file: &File) -> Result<u64, Failure> {
    let mut end = file;
    match end.seek(SeekFrom::End(0)) {
        Ok(length) => Ok(length / SECTOR),
        Err(error) => Err(Act::Measuring.failed(error)),
    }
}
