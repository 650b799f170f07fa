//! The image is checked, and what the check tells is said in words.
ghost use Rattle.std.specs.Prelude.{◌≤◌, length};

use crate::finding::{Finding, Line, read_line};
use crate::hearing::Ear;
use crate::names::Names;
use crate::refusal::{ADOPT_HELP, refusal_help, refusal_text};
use crate::repair::{Repair, contains};
use crate::report::Report;
use crate::runs::runs_of;
use crate::words::say;
use file_rig::{FileRig, Image, Store};
use hfsx_adopt::InMemory;
use hfsx_salvage::{ImageSectors, tell_unopened};
use hfsx_server::{Status, check};
use hx_bytes::Failed;
use image_adopt::{AdoptRefusal, Adopted, adopt_image};
use salvage_tree::read_survey;
use std::alloc::{AllocError, Global};
use std::cell::RefCell;

/// The status where standard output failed.
const NO_OUTPUT: u8 = 5;

/// The status where the image can't be opened.
const NO_IMAGE: u8 = 8;

/// Says in words what a check finds of the volume in an image. The paths are those that the catalog's records tell, without the journal.
pub fn explain(rt: &HostRuntime, image: &str, json: bool) -> Result<u8, AllocError> {
    let (place, sectors) = match Image::to_check(rt, image) {
        Ok(found) => found,
        Err(failure) => {
            tell_unopened(rt, &failure, image);
            return Ok(NO_IMAGE);
        }
    };
    let kept = RefCell::new(Vec::new(rt.alloc()));
    let store = Store::new(rt.alloc(), InMemory::new(rt.alloc(), place), sectors)?;
    let mut rig = FileRig::new(store, Ear(&kept));
    let status = check(rt.alloc(), &mut rig);
    match status {
        Status::Done | Status::Refused => {}
        _ => {
            if let Some(failure) = rig.failure() {
                let error = failure.error;
                let _ = eprintln!(rt; "hfsx-files: reading {image}: {error}");
            }
            return Ok(status.code());
        }
    }
    let told = match kept.try_borrow() {
        Ok(bytes) => String::from_utf8_lossy(rt.alloc(), bytes.as_slice())?,
        Err(_) => String::new(rt.alloc()),
    };
    let repair = match status {
        Status::Refused => Repair::of(rt.alloc(), &mut rig)?,
        _ => Repair::Unknown,
    };
    // What an adoption writes stays in memory.
    let may_be_adopted = status == Status::Refused && is_adopted(adopt_image(&mut rig));
    let mut report = Report::new(rt, json);
    tell_all(
        rt,
        image,
        told.as_str(),
        &repair,
        may_be_adopted,
        &mut report,
    )?;
    if report.failed {
        return Ok(NO_OUTPUT);
    }
    Ok(status.code())
}

// Whether an adoption changed the volume.
fn is_adopted(done: Result<Result<Adopted, AdoptRefusal>, Failed>) -> bool {
    matches!(done, Ok(Ok(Adopted::Anew(_))))
}

// Tells what each line of the check says, and of a volume that was judged the notes.
fn tell_all(
    rt: &HostRuntime,
    image: &str,
    told: &str,
    repair: &Repair,
    may_be_adopted: bool,
    report: &mut Report<'_>,
) -> Result<(), AllocError> {
    let mut findings = Vec::new(rt.alloc());
    for line in told.lines() {
        match read_line(line) {
            Line::Clean {
                files,
                folders,
                blocks,
                free,
            } => report.tell_clean(files, folders, blocks, free)?,
            Line::Refused {
                word,
                first,
                second,
            } => {
                let text = refusal_text(rt.alloc(), word, first, second)?;
                let help = if may_be_adopted {
                    ADOPT_HELP
                } else {
                    refusal_help(word)
                };
                return report.tell_refusal(word, text.as_str(), help);
            }
            Line::Finding(finding) => findings.push(finding)?,
            Line::Findings(_) | Line::Other => {}
        }
    }
    let names = names_of(rt, image)?;
    if !findings.is_empty() {
        let findings = with_left(rt.alloc(), findings.as_slice(), repair.left())?;
        tell_findings(rt, &names, findings.as_slice(), repair, report)?;
    }
    for note in names.notes()?.as_slice() {
        report.tell_note(note)?;
    }
    Ok(())
}

// The names that the image's catalog tells.
fn names_of(rt: &HostRuntime, image: &str) -> Result<Names, AllocError> {
    let Ok(mut source) = ImageSectors::open(rt, image) else {
        return Names::new(rt.alloc(), None, 0);
    };
    let survey = read_survey(rt.alloc(), &mut source)?;
    let unerased = match &survey {
        Some(survey) => survey.unerased(rt.alloc(), &mut source)?,
        None => 0,
    };
    Names::new(rt.alloc(), survey, unerased)
}

// Findings in order, with those that a repair would leave: some are judged only where the first ones are mended.
fn with_left(
    alloc: Global,
    told: &[Finding],
    left: &[Finding],
) -> Result<Vec<Finding>, AllocError> {
    let mut all = Vec::new(alloc);
    for finding in told {
        all.push(*finding)?;
    }
    for finding in left {
        if !contains(told, finding) {
            let at = place_of(all.as_slice(), finding);
            all.insert(at, *finding)?;
        }
    }
    Ok(all)
}

// Where a finding stands among others: by rule, then by place.
fn place_of(all: &[Finding], one: &Finding) -> usize
    ensures { result ≤ length all.now }
{
    for at in 0..all.len() {
        let it = &all[at];
        if (it.rule, it.place) > (one.rule, one.place) {
            return at;
        }
    }
    all.len()
}

// Tells of findings, with the paths that the image's catalog tells.
fn tell_findings(
    rt: &HostRuntime,
    names: &Names,
    findings: &[Finding],
    repair: &Repair,
    report: &mut Report<'_>,
) -> Result<(), AllocError> {
    let mut mendable: u64 = 0;
    let runs = runs_of(rt.alloc(), findings, repair)?;
    for run in runs.as_slice() {
        let said = say(rt.alloc(), names, run)?;
        if said.mends {
            mendable = mendable.saturating_add(run.count());
        }
        report.tell(run, &said)?;
    }
    report.tell_count(findings.len() as u64, mendable, repair)
}
