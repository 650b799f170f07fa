// Refusals of an image or a size, and lines that are told before the program ends.
ghost use Rattle.std.specs.Prelude.{◌++◌, decimal};
ghost use Rattle.hfs_language.specs.Text.{field, fields};
ghost use Rattle.hfsx_server.specs.Telling.{Tells, Telling, case_text, header_text, journal_text, mount_text, open_text, refusal_text, refused_text, usage_text};

use crate::reports::tell_findings;
use fsck_list::Finding;
use hfs_serving::{MountRefusal, OpenRefusal};
use hx_bytes::Failed;
use itoa::Buffer;
use jnl_format::JnlRefusal;
use sector_disk::{Rig, tell_whole};
use volume_header::HeaderRefusal;

/// Why a size is refused.
#[derive(Clone, Copy, Debug, PartialEq, Eq)]
pub enum SizeRefusal {
    /// A volume has more sectors than this.
    TooSmall(u64),
    /// A volume has fewer sectors than this.
    TooLarge(u64),
}

const USAGE: &[u8; 108] =
    b"usage: hfsx format IMAGE SECTORS | run IMAGE | check IMAGE | gen SEED COUNT | sessions IMAGE | repair IMAGE\n";

/// Tells how the program is called. A sink that fails is left at that.
pub fn tell_usage<R: Rig>(rig: &mut R)
    ensures { Tells (R.state rig.old) (R.state rig.new) usage_text }
{
    let _ = tell_whole(rig, USAGE);
}

/// Tells why a size is refused. A sink that fails is left at that.
pub fn tell_refusal<R: Rig>(rig: &mut R, refusal: SizeRefusal)
    ensures { Tells (R.state rig.old) (R.state rig.new) (refusal_text refusal) }
{
    let _ = match refusal {
        SizeRefusal::TooSmall(sectors) => tell_refused(rig, b"TooSmall", &[sectors]),
        SizeRefusal::TooLarge(sectors) => tell_refused(rig, b"TooLarge", &[sectors]),
    };
}

/// Tells why an image isn't served: its refusal, or what a check finds of it. A sink that fails is left at that.
pub fn tell_mount<R: Rig>(rig: &mut R, refusal: MountRefusal, findings: &[Finding])
    ensures { Tells (R.state rig.old) (R.state rig.new) (mount_text findings.now refusal) }
{
    match refusal {
        MountRefusal::Image(why) => tell_open(rig, why),
        MountRefusal::CaseFolding => tell_case(rig),
        MountRefusal::Unsound => tell_findings(rig, findings),
    }
}

/// Tells why an image isn't opened. A sink that fails is left at that.
pub fn tell_open<R: Rig>(rig: &mut R, refusal: OpenRefusal)
    ensures { Tells (R.state rig.old) (R.state rig.new) (open_text refusal) }
{
    let _ = match refusal {
        OpenRefusal::Header(why) => tell_header(rig, why),
        OpenRefusal::SoftwareLocked => tell_refused(rig, b"SoftwareLocked", &[]),
        OpenRefusal::Journal(why) => tell_journal(rig, why),
        OpenRefusal::JournalTooSmall { need, has } => {
            tell_refused(rig, b"JournalTooSmall", &[need, has])
        }
    };
}

// Tells that the volume folds the case of letters.
pub(crate) fn tell_case<R: Rig>(rig: &mut R)
    ensures { Tells (R.state rig.old) (R.state rig.new) case_text }
{
    let _ = tell_refused(rig, b"CaseFolding", &[]);
}

// A volume header that isn't accepted.
fn tell_header<R: Rig>(rig: &mut R, why: HeaderRefusal) -> Result<(), Failed>
    ensures { Telling (R.state rig.old) (R.state rig.new) (header_text why) result }
{
    match why {
        HeaderRefusal::LimitSectors(sectors) => tell_refused(rig, b"LimitSectors", &[sectors]),
        HeaderRefusal::NotHfsx { signature, version } => {
            tell_refused(rig, b"NotHfsx", &[u64::from(signature), u64::from(version)])
        }
        HeaderRefusal::BadGeometry(offset) => {
            tell_refused(rig, b"BadGeometry", &[u64::from(offset)])
        }
        HeaderRefusal::NotJournaled => tell_refused(rig, b"NotJournaled", &[]),
        HeaderRefusal::IdsReused => tell_refused(rig, b"IdsReused", &[]),
    }
}

// A journal that can't be replayed.
fn tell_journal<R: Rig>(rig: &mut R, why: JnlRefusal) -> Result<(), Failed>
    ensures { Telling (R.state rig.old) (R.state rig.new) (journal_text why) result }
{
    match why {
        JnlRefusal::BadInfo(offset) => tell_refused(rig, b"BadInfo", &[u64::from(offset)]),
        JnlRefusal::OtherDevice => tell_refused(rig, b"OtherDevice", &[]),
        JnlRefusal::BadHeader(offset) => tell_refused(rig, b"BadHeader", &[u64::from(offset)]),
        JnlRefusal::BadList(offset) => tell_refused(rig, b"BadList", &[offset]),
        JnlRefusal::ForeignJournal(version) => {
            tell_refused(rig, b"ForeignJournal", &[u64::from(version)])
        }
    }
}

// The line of a refusal: its name and its numbers.
pub(crate) fn tell_refused<R: Rig>(rig: &mut R, name: &[u8], numbers: &[u64]) -> Result<(), Failed>
    ensures { Telling (R.state rig.old) (R.state rig.new) (refused_text name.now numbers.now) result }
{
    tell_piece(rig, b"refused ")?;
    tell_piece(rig, name)?;
    tell_numbers(rig, numbers)?;
    tell_piece(rig, b"\n")
}

// Numbers, each behind a space.
pub(crate) fn tell_numbers<R: Rig>(rig: &mut R, numbers: &[u64]) -> Result<(), Failed>
    ensures { Telling (R.state rig.old) (R.state rig.new) (fields numbers.now) result }
{
    for number in numbers {
        tell_number(rig, *number)?;
    }
    Ok(())
}

pub(crate) fn tell_number<R: Rig>(rig: &mut R, number: u64) -> Result<(), Failed>
    ensures { Telling (R.state rig.old) (R.state rig.new) (field number) result }
{
    tell_piece(rig, b" ")?;
    tell_decimal(rig, number)
}

pub(crate) fn tell_decimal<R: Rig>(rig: &mut R, number: u64) -> Result<(), Failed>
    ensures { Telling (R.state rig.old) (R.state rig.new) (decimal number) result }
{
    let mut buffer = Buffer::new();
    tell_piece(rig, buffer.format(number).as_bytes())
}

pub(crate) fn tell_piece<R: Rig>(rig: &mut R, bytes: &[u8]) -> Result<(), Failed>
    ensures { Telling (R.state rig.old) (R.state rig.new) bytes.now result }
{
    tell_whole(rig, bytes)
}
