//! A journal's text, read piece by piece.
ghost use Rattle.std.specs.Prelude.{◌≡◌, ◌≤◌, ◌+◌, IsTrue, length, OnOk, IfOk};
ghost use Rattle.sector_disk.specs.Cause.{HasCause};
ghost use Rattle.sector_disk.specs.Disk.{content};
ghost use Rattle.jnl_format.specs.List.{entry_at};
ghost use Rattle.jnl_format.specs.Text.{bytes_at};
ghost use Rattle.jnl_replay.specs.Plan.{FitsAny};
ghost use Rattle.sector_disk.specs.Disk.{OnlyReads};
ghost use Rattle.jnl_replay.specs.Text.{words, IsText, text_in};

use crate::plan::Plan;
use hx_bytes::{Failed, Order};
use jnl_format::{Entry, read_entry};
use jnl_ring::{Span, advance, read_at, used_bytes};
use sector_disk::SectorDisk;

/// Where a journal's text lies, and how its lists are written.
#[derive(Clone, Copy)]
pub struct Text {
    pub span: Span,
    pub start: u64,
    pub length: u64,
    pub order: Order,
    pub blhdr: u32,
}

pub fn text_of(plan: &Plan, sectors: u64) -> Text
    requires { FitsAny sectors plan.now }
    ensures is { result ≡ text_in plan.now.info plan.now.header }
    ensures fits { IsText sectors result }
{
    let span = Span {
        base: plan.info.offset / 512,
        size: plan.info.size,
    };
    Text {
        span,
        start: plan.header.start,
        length: used_bytes(&span, plan.header.start, plan.header.end),
        order: plan.header.order,
        blhdr: plan.header.blhdr,
    }
}

/// Reads the bytes from a place on.
pub fn read_text<D: SectorDisk>(
    disk: &mut D,
    text: &Text,
    at: u64,
    into: &mut [u8],
) -> Result<(), Failed>
    requires text { IsText (D.state disk.old).sectors text.now }
    requires inside { at + length into.old ≤ text.now.length }
    ensures value { IsTrue (D.state disk.old).tells → OnOk result (into.new ≡ bytes_at (words text.now (content (D.state disk.old))) at (length into.old)) }
    ensures reads { OnlyReads (D.state disk.old) (D.state disk.new) }
    ensures cause { HasCause (D.state disk.old).faults (D.state disk.new).faults result }
{
    let offset = advance(&text.span, text.start, at);
    read_at(disk, &text.span, offset, into)
}

/// Reads the entry at a place.
pub fn read_entry_at<D: SectorDisk>(disk: &mut D, text: &Text, at: u64) -> Result<Entry, Failed>
    requires text { IsText (D.state disk.old).sectors text.now }
    requires inside { at + 16 ≤ text.now.length }
    ensures value { IsTrue (D.state disk.old).tells → IfOk result (λ entry. entry ≡ entry_at text.now.order (words text.now (content (D.state disk.old))) at) }
    ensures reads { OnlyReads (D.state disk.old) (D.state disk.new) }
    ensures cause { HasCause (D.state disk.old).faults (D.state disk.new).faults result }
{
    let mut bytes = [0u8; 16];
    read_text(disk, text, at, &mut bytes)?;
    Ok(read_entry(&bytes, text.order))
}
