//! Each call of a run that writes, or waits for what was written, fails once.
use crate::crashes::is_one_of;
use crate::few::{Few, fresh_few};
use crate::names::{LINES, READS};
use crate::plain::told_behind;
use crate::runs::{run_lines, told_by};
use hfsx_server::Status;
use hx_bytes::OutOfMemory;
use std::alloc::Global;

/// What all faults of a run came to.
#[derive(Clone, Copy)]
pub struct Failed {
    /// How many calls failed, each in a run of its own.
    pub faults: u64,
    /// The call behind whose fault the status or an image was wrong, if there was one.
    pub wrong: Option<u64>,
}

/// Lets each call of the run that wrote fail once. The run has to end by that fault; a second run over what stands on the disk then has to serve
/// lines, and what it reads is what the plain tree tells after some of the first lines, among them each that was answered.
pub fn try_faults(alloc: Global) -> Result<Failed, OutOfMemory> {
    let start = fresh_few(alloc)?;
    let wanted = told_behind(alloc, b"", LINES, READS)?;
    let mut whole = Few::over(alloc, &start)?;
    run_lines(alloc, &mut whole, LINES)?;
    let mut tried = Failed {
        faults: 0,
        wrong: None,
    };
    for call in 0..whole.rig.calls() {
        if whole.rig.wrote(call) {
            let mut disk = Few::over(alloc, &start)?;
            disk.rig.fail_on(alloc, call)?;
            let ran = run_lines(alloc, &mut disk, LINES)?;
            let told = told_by(alloc, &disk.rig.image(alloc, 1)?, READS)?;
            if ran.status != Status::Disk || !is_one_of(&wanted, ran.lines, told) {
                tried.wrong = Some(call);
            }
            tried.faults = tried.faults.saturating_add(1);
        }
    }
    Ok(tried)
}
