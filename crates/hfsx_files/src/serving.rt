//! A volume is served by the top call, and what fails is told.
use crate::errand::{Errand, Task};
use crate::status::{NO_IMAGE, NO_MEMORY};
use file_rig::{Failure, FileRig, Image, Sparse, Store, tell};
use files_out::Out;
use files_talk::{LineList, Lines, Replies, Talk};
use hfsx_adopt::{InMemory, extras_of};
use hfsx_server::{Status, hfsx};
use hx_bytes::{Failed, Trouble};
use image_adopt::adopt_image;
use std::alloc::AllocError;
use std::cell::RefCell;
use std::io::ErrorKind;
use watchers::Watcher;

/// Serves the volume of an image, which may be changed, and gives the exit status.
pub(crate) fn serve(
    rt: &HostRuntime,
    image: &str,
    talk: &RefCell<Talk<Errand<'_>>>,
) -> Result<u8, AllocError> {
    let opened = Image::open(rt, image);
    let words = vec![in rt.alloc(); copy(rt, "run")?, copy(rt, image)?]?;
    run(rt, words.as_slice(), image, opened, talk)
}

/// Lets a job look at what the volume of an image holds, of which no byte is changed, and gives the exit status. A volume that `adopt` would
/// change is looked at as it would be then: that is done in memory.
pub(crate) fn look(rt: &HostRuntime, image: &str, job: &mut Out<'_>) -> Result<u8, AllocError> {
    let (place, sectors) = match Image::to_check(rt, image) {
        Ok(found) => found,
        Err(failure) => {
            tell(rt, &failure, image);
            return Ok(NO_IMAGE);
        }
    };
    let alloc = rt.alloc();
    let talk = Talk::new(
        Errand::new(alloc, Task::Make),
        LineList::new(alloc),
        Vec::new(alloc),
    );
    let store = Store::new(alloc, InMemory::new(alloc, place), sectors)?;
    let mut rig = FileRig::new(store, Replies(&talk));
    if let Err(Failed) = adopt_image(&mut rig) {
        return Ok(tell_disk(rt, image, rig.failure(), Status::Disk));
    }
    match extras_of(alloc, &mut rig) {
        Ok(extras) => job.know(extras),
        Err(Trouble::Memory) => return Ok(NO_MEMORY),
        Err(Trouble::Disk) => return Ok(tell_disk(rt, image, rig.failure(), Status::Disk)),
    }
    if rig.failure().is_some() {
        return Ok(tell_disk(rt, image, rig.failure(), Status::Disk));
    }
    let status = hfsx_server::look(alloc, &mut rig, job);
    tell_end(rt, image, status, rig.failure(), &talk)
}

/// Makes a volume of so many sectors in an image, or where the number isn't the user's as large as a device is, and gives the exit status.
pub(crate) fn make<'a>(
    rt: &'a HostRuntime,
    image: &'a str,
    sectors: u64,
    is_auto: bool,
    talk: &RefCell<Talk<Errand<'_>>>,
) -> Result<u8, AllocError> {
    let (opened, found) = match Image::to_format(rt, image, sectors) {
        Ok((place, found)) => (Ok((place, found)), found),
        Err(failure) => (Err(failure), sectors),
    };
    let size = if is_auto { found } else { sectors };
    let size = size.to_string(rt.alloc())?;
    let words = vec![in rt.alloc(); copy(rt, "format")?, copy(rt, image)?, size]?;
    run(rt, words.as_slice(), image, opened, talk)
}

fn copy(rt: &HostRuntime, text: &str) -> Result<String, AllocError> {
    String::from_str(rt.alloc(), text)
}

// Serves a place by the top call, and tells what failed.
fn run(
    rt: &HostRuntime,
    words: &[String],
    image: &str,
    opened: Result<(Image<'_>, u64), Failure>,
    talk: &RefCell<Talk<Errand<'_>>>,
) -> Result<u8, AllocError> {
    let (place, sectors) = match opened {
        Ok(found) => found,
        Err(failure) => {
            tell(rt, &failure, image);
            return Ok(NO_IMAGE);
        }
    };
    let store = Store::new(rt.alloc(), Sparse::new(place), sectors)?;
    let mut rig = FileRig::new(store, Replies(talk));
    let mut source = Lines::new(talk);
    // Nobody watches.
    let mut watchers: Vec<Box<dyn Watcher>> = Vec::new(rt.alloc());
    let status = hfsx(rt.alloc(), words, &mut rig, &mut source, &mut watchers);
    tell_end(rt, image, status, rig.failure(), talk)
}

// Tells what failed, and gives the exit status.
fn tell_end(
    rt: &HostRuntime,
    image: &str,
    status: Status,
    failure: Option<Failure>,
    talk: &RefCell<Talk<Errand<'_>>>,
) -> Result<u8, AllocError> {
    match status {
        Status::Disk => Ok(tell_disk(rt, image, failure, status)),
        Status::Refused => {
            tell_refusal(rt, image, talk)?;
            Ok(status.code())
        }
        // The lines and the replies are in memory.
        Status::Source | Status::Sink => Ok(NO_MEMORY),
        _ => Ok(status.code()),
    }
}

// Tells what failed of the image.
fn tell_disk(rt: &HostRuntime, image: &str, failure: Option<Failure>, status: Status) -> u8 {
    match failure {
        Some(failure) if failure.error.kind() == ErrorKind::OutOfMemory => NO_MEMORY,
        Some(failure) => {
            tell(rt, &failure, image);
            if failure.act.is_before_work() {
                NO_IMAGE
            } else {
                status.code()
            }
        }
        None => status.code(),
    }
}

// Tells why the volume isn't served.
fn tell_refusal(
    rt: &HostRuntime,
    image: &str,
    talk: &RefCell<Talk<Errand<'_>>>,
) -> Result<(), AllocError> {
    let Ok(mut talk) = talk.try_borrow_mut() else {
        return Ok(());
    };
    let text = String::from_utf8_lossy(rt.alloc(), talk.job().unasked.as_slice())?;
    match text.as_str().strip_prefix("refused ") {
        Some(why) => {
            let why = why.trim_end();
            let _ = eprintln!(rt; "hfsx-files: {image}: the volume is refused: {why}");
        }
        None => {
            let _ = eprintln!(rt;
                "hfsx-files: {image}: the volume isn't sound: `hfsx-files explain` says what is wrong, and `salvage` takes out what can be read"
            );
        }
    }
    Ok(())
}
