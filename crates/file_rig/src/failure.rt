//! What the system was asked for when it failed, and its reason.

use crate::identity::Identity;
use crate::limit::{FileLimit, Limited};
use crate::opening::is_stream;
use crate::streams::Stream;
use crate::waiting::Waiting;
use std::fs;
use std::io::{self, Write};
use std::rt::Stderr;

/// What the program was doing.
#[derive(Clone, Copy, PartialEq, Eq, Debug, Drop)]
pub enum Act {
    /// Opening the image, which must be a file or a block device.
    Opening,
    /// Taking the lock on the image.
    Locking,
    /// Asking for the image's size.
    Measuring,
    /// Giving the image its length.
    Lengthening,
    /// Reading this sector.
    Reading(u64),
    /// Writing so many sectors from this one on.
    Writing { first: u64, count: u64 },
    /// Making durable what was written.
    Flushing,
    /// Keeping the image that was opened, as long as it is written.
    Keeping,
}

/// An act and the system's reason.
#[derive(Clone, Copy, Drop)]
pub struct Failure {
    pub act: Act,
    pub error: io::Error,
}

impl Act {
    /// The failure of this act.
    pub fn failed(self, error: io::Error) -> Failure {
        Failure { act: self, error }
    }

    /// Whether there was no image to work on yet.
    pub fn is_before_work(&self) -> bool {
        matches!(
            self,
            Act::Opening | Act::Locking | Act::Measuring | Act::Lengthening
        )
    }
}

/// Tells on standard error what failed, in one sentence, unless standard error is the image. Where standard error fails too, that is all.
pub fn tell(rt: &HostRuntime, failure: &Failure, image: &str) {
    if let Ok(found) = fs::metadata(rt, image) {
        if is_stream(rt, Stream::Error, Identity::of(&found)) {
            return;
        }
    }
    let mut sink = standard_error(rt);
    let error = failure.error;
    let _ = match failure.act {
        Act::Opening => sink.write_fmt(format_args!("hfsx: opening {image}: {error}\n")),
        Act::Locking => sink.write_fmt(format_args!("hfsx: locking {image}: {error}\n")),
        Act::Measuring => sink.write_fmt(format_args!(
            "hfsx: asking for the size of {image}: {error}\n"
        )),
        Act::Lengthening => sink.write_fmt(format_args!(
            "hfsx: giving {image} its length: {error}\n"
        )),
        Act::Reading(at) => sink.write_fmt(format_args!(
            "hfsx: reading sector {at} of {image}: {error}\n"
        )),
        Act::Writing { first, count } => {
            if count == 1 {
                sink.write_fmt(format_args!("hfsx: writing sector {first} of {image}: {error}\n"))
            } else {
                let last = first.saturating_add(count).saturating_sub(1);
                sink.write_fmt(format_args!(
                    "hfsx: writing sectors {first} to {last} of {image}: {error}\n"
                ))
            }
        }
        Act::Flushing => sink.write_fmt(format_args!("hfsx: making {image} durable: {error}\n")),
        Act::Keeping => sink.write_fmt(format_args!("hfsx: keeping {image}: {error}\n")),
    };
}

/// Tells on standard error what failed of a standard stream. Where standard error fails too, that is all.
pub fn tell_stream(rt: &HostRuntime, act: &str, error: io::Error) {
    let _ = standard_error(rt).write_fmt(format_args!("hfsx: {act}: {error}\n"));
}

// Standard error, which is waited for, and written only where the system lets it have the bytes.
fn standard_error(rt: &HostRuntime) -> Limited<'_, Waiting<'_, HostRuntime, Stderr>> {
    let sink = Waiting::new(rt, rt.stderr());
    Limited::new(rt, FileLimit::of_process(rt), Stream::Error, sink)
}
