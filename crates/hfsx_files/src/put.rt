//! Files of the system are put into a volume.
use crate::call::Call;
use crate::errand::{Errand, Task};
use crate::making::make_image;
use crate::options::Options;
use crate::serving::serve;
use crate::status::{LEFT_OUT, NO_IMAGE, NO_INPUT, NO_OUTPUT, REFUSED};
use file_rig::Waiting;
use files_in::{ArchiveIn, FolderIn, Wishes, identity_of};
use files_talk::{LineList, Notes, Talk};
use std::alloc::AllocError;

/// Puts a folder or an archive, and gives the exit status.
pub(crate) fn put(rt: &HostRuntime, call: &Call, options: &Options) -> Result<u8, AllocError> {
    let from = call.word(1);
    let wishes = Wishes {
        to: options.to.as_str(),
        dates: options.dates,
        over: call.over,
        fresh: options.size.is_some() && options.to.is_empty(),
    };
    let notes = Notes::new(rt, "put", call.verbose);
    let task = if from == "-" {
        let input = Waiting::new(rt, rt.stdin());
        Task::Archive(ArchiveIn::new(notes, input, wishes)?)
    } else {
        match FolderIn::new(notes, from, wishes) {
            Ok(job) => Task::Folder(job),
            Err(error) => {
                let _ = eprintln!(rt; "hfsx-files: {from}: {error}");
                return Ok(NO_IMAGE);
            }
        }
    };
    if let Some(size) = options.size {
        let status = make_image(rt, call.image(), size, from)?;
        if status != 0 {
            return Ok(status);
        }
    }
    let mut task = task;
    if let Task::Folder(job) = &mut task {
        job.pass_over(identity_of(rt, call.image()));
    }
    put_all(rt, call.image(), task)
}

// Has the volume served, and tells what was put.
fn put_all(rt: &HostRuntime, image: &str, task: Task<'_>) -> Result<u8, AllocError> {
    let alloc = rt.alloc();
    let talk = Talk::new(
        Errand::new(alloc, task),
        LineList::new(alloc),
        Vec::new(alloc),
    );
    let status = serve(rt, image, &talk)?;
    let Ok(mut talk) = talk.try_borrow_mut() else {
        return Ok(status);
    };
    match &mut talk.job().task {
        Task::Folder(job) => {
            let ended = end(job.notes(), status);
            Ok(if ended == 0 && !job.has_ended() {
                REFUSED
            } else {
                ended
            })
        }
        Task::Archive(job) => {
            let ended = end(job.notes(), status);
            if job.is_broken() && (ended == 0 || ended == LEFT_OUT) {
                return Ok(NO_INPUT);
            }
            Ok(if ended == 0 && !job.has_ended() {
                REFUSED
            } else {
                ended
            })
        }
        Task::Make => Ok(status),
    }
}

// Tells the sum, and gives the exit status.
fn end(notes: &mut Notes<'_>, status: u8) -> u8 {
    let told = notes.sum();
    if status != 0 {
        status
    } else if !told {
        NO_OUTPUT
    } else if notes.has_lacks() {
        LEFT_OUT
    } else {
        0
    }
}
