// Lines that tell what a volume has.
ghost use Rattle.std.specs.Prelude.{◌≡◌, ◌++◌, codes, decimal};
ghost use Rattle.std.specs.List.{flat_map};
ghost use Rattle.hfs_language.specs.Text.{field};
ghost use Rattle.hfsx_server.specs.Telling.{Telling, Tells, clean_text, finding_text, findings_text, formatted_text};

use crate::refusal::{tell_decimal, tell_number, tell_numbers, tell_piece};
use fsck_list::Finding;
use hx_bytes::Failed;
use sector_disk::Rig;
use volume_make::Summary;

/// Tells the blocks of a volume that was formatted, and those that are free.
pub(crate) fn tell_formatted<R: Rig>(rig: &mut R, summary: Summary) -> Result<(), Failed>
    ensures { Telling (R.state rig.old) (R.state rig.new) (formatted_text summary.blocks summary.free) result }
{
    tell_count(rig, b"formatted", summary.blocks)?;
    tell_last(rig, b" blocks,", summary.free, b" free\n")
}

/// Tells what a sound volume has: its files, its folders, its blocks, and those that are free.
pub(crate) fn tell_clean<R: Rig>(rig: &mut R, summary: Summary) -> Result<(), Failed>
    ensures { Telling (R.state rig.old) (R.state rig.new) (clean_text summary) result }
{
    tell_count(rig, b"clean files", summary.files)?;
    tell_count(rig, b" folders", summary.folders)?;
    tell_count(rig, b" blocks", summary.blocks)?;
    tell_last(rig, b" free", summary.free, b"\n")
}

/// Tells each finding, and how many there are. A sink that fails is left at that.
pub(crate) fn tell_findings<R: Rig>(rig: &mut R, findings: &[Finding])
    ensures { Tells (R.state rig.old) (R.state rig.new) (findings_text findings.now) }
{
    let _ = tell_all(rig, findings);
}

// Tells each finding, and how many there are.
fn tell_all<R: Rig>(rig: &mut R, findings: &[Finding]) -> Result<(), Failed>
    ensures { Telling (R.state rig.old) (R.state rig.new) (findings_text findings.now) result }
{
    tell_each(rig, findings)?;
    tell_total(rig, findings.len() as u64)
}

// Tells how many findings there are.
fn tell_total<R: Rig>(rig: &mut R, count: u64) -> Result<(), Failed>
    ensures { Telling (R.state rig.old) (R.state rig.new) (codes "findings" ++ field count ++ codes "\n") result }
{
    tell_piece(rig, b"findings")?;
    tell_number(rig, count)?;
    tell_piece(rig, b"\n")
}

// Tells each finding.
fn tell_each<R: Rig>(rig: &mut R, findings: &[Finding]) -> Result<(), Failed>
    ensures { Telling (R.state rig.old) (R.state rig.new) (flat_map finding_text findings.now) result }
{
    for finding in findings {
        tell_finding(rig, finding)?;
    }
    Ok(())
}

// Tells a finding: its rule, its place, what is found there and what is wanted.
fn tell_finding<R: Rig>(rig: &mut R, finding: &Finding) -> Result<(), Failed>
    ensures { Telling (R.state rig.old) (R.state rig.new) (finding_text finding.now) result }
{
    tell_rule(rig, finding.rule)?;
    tell_numbers(rig, &[finding.place, finding.found, finding.wanted])?;
    tell_piece(rig, b"\n")
}

// Tells the number of a rule.
fn tell_rule<R: Rig>(rig: &mut R, rule: u8) -> Result<(), Failed>
    ensures { Telling (R.state rig.old) (R.state rig.new) (codes "S" ++ decimal rule) result }
{
    tell_piece(rig, b"S")?;
    tell_decimal(rig, u64::from(rule))
}

// Tells a number behind what it counts.
fn tell_count<R: Rig>(rig: &mut R, word: &[u8], number: u32) -> Result<(), Failed>
    ensures { Telling (R.state rig.old) (R.state rig.new) (word.now ++ field number) result }
{
    tell_piece(rig, word)?;
    tell_number(rig, u64::from(number))
}

// Tells the last number of a line, and the line's end.
fn tell_last<R: Rig>(rig: &mut R, word: &[u8], number: u32, end: &[u8]) -> Result<(), Failed>
    ensures { Telling (R.state rig.old) (R.state rig.new) (word.now ++ field number ++ end.now) result }
{
    tell_count(rig, word, number)?;
    tell_piece(rig, end)
}
