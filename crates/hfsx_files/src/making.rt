//! An image is made anew.
use crate::errand::{Errand, Task};
use crate::options::Size;
use crate::serving::make;
use crate::status::{NO_IMAGE, WRONG_WORDS};
use files_in::{identity_of, sectors_for};
use files_talk::{LineList, Talk};
use std::alloc::AllocError;
use std::fs::{self, OpenOptions};
use std::io;

/// The fewest sectors of a volume, and the most.
const FEWEST: u64 = 16_384;

const MOST: u64 = 2_147_483_648;

/// Makes an image anew, and gives the exit status. Of a file that is there nothing is kept.
pub(crate) fn make_image(
    rt: &HostRuntime,
    image: &str,
    size: Size,
    folder: &str,
) -> Result<u8, AllocError> {
    let (sectors, is_auto) = match size {
        Size::Sectors(sectors) => (sectors, false),
        Size::Auto => (sectors_for(rt, folder, identity_of(rt, image))?, true),
    };
    // What is refused for its size is left as it is.
    if sectors >= FEWEST && sectors <= MOST {
        if let Err(error) = empty(rt, image) {
            let _ = eprintln!(rt; "hfsx-files: making {image} empty: {error}");
            return Ok(NO_IMAGE);
        }
    }
    let alloc = rt.alloc();
    let talk = Talk::new(
        Errand::new(alloc, Task::Make),
        LineList::new(alloc),
        Vec::new(alloc),
    );
    let status = make(rt, image, sectors, is_auto, &talk)?;
    if status == WRONG_WORDS {
        let _ = eprintln!(rt;
            "hfsx-files: {image}: it has another number of sectors than {sectors}"
        );
    }
    Ok(status)
}

// Takes all bytes out of a file that is there, so that its blocks hold zeros afterwards. What is no file is left alone.
fn empty(rt: &HostRuntime, image: &str) -> io::Result<()> {
    match fs::metadata(rt, image) {
        Ok(found) => if !found.is_file() {
            return Ok(());
        },
        Err(_) => return Ok(()),
    }
    let file = OpenOptions::new().write(true).open(rt, image)?;
    match file.try_lock() {
        Ok(()) => file.set_len(0),
        Err(_) => Err(io::Error::new(io::ErrorKind::ResourceBusy, "another process uses it")),
    }
}
