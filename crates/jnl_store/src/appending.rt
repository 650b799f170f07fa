//! A transaction: its lists behind those that are live, behind a barrier, and the journal header behind another.
ghost use Rattle.std.specs.Prelude.{◌≡◌, ◌<◌, ◌≤◌, ◌+◌, ◌-◌, ◌*◌, ◌/◌, ◌%◌, List, IsTrue, IfOk, OnOk, length};
ghost use Rattle.sector_disk.specs.Cause.{HasCause};
ghost use Rattle.sector_disk.specs.Disk.{CrashesLeave, SameDisk, SameSink, content, only};
ghost use Rattle.jnl_ring.specs.Writing.{MixesInRing, PutsInRing};
ghost use Rattle.jnl_replay.specs.Plan.{FitsPlan};
ghost use Rattle.jnl_store.specs.InUse.{IsInUse, used_of};
ghost use Rattle.jnl_store.specs.Lists.{lists_sectors, text_sectors};
ghost use Rattle.jnl_store.specs.Overlay.{overlay};
ghost use Rattle.jnl_store.specs.Plan.{form_of, span_of, with_text};
ghost use Rattle.jnl_store.specs.Standing.{StandsForOne};
ghost use Rattle.jnl_store.specs.Appending.{IsAppended, MayAppend, durable_by, end_after, longer};
ghost use Rattle.jnl_store.specs.Batch.{AreOnce};
ghost use Rattle.jnl_format.specs.declared.blocks.Home.{Home};

use crate::form::ListForm;
use crate::header_sector::write_journal_header;
use crate::lists::write_lists;
use crate::puts::Put;
use hx_bytes::Failed;
use jnl_format::Header;
use jnl_replay::Plan;
use jnl_ring::Span;
use sector_disk::SectorDisk;

/// Writes the puts as one transaction behind those that are live. At Ok it is live, by the plan that is answered.
pub fn append<D: SectorDisk>(disk: &mut D, plan: &Plan, puts: &[Put]) -> Result<Plan, Failed>
    requires rest { IsInUse plan.now }
    requires fits { FitsPlan (D.state disk.old).sectors plan.now }
    requires room { used_of plan.now / 512 + text_sectors plan.now.header.blhdr (length puts.now) ≤ plan.now.info.size / 512 - 2 }
    requires once { AreOnce puts.now }
    requires ready { IsTrue (D.state disk.old).tells → (live : List Home) × MayAppend plan.now live puts.now (D.state disk.old) }
    ensures plan { IfOk result (λ done. done ≡ longer plan.now puts.now) }
    ensures rest { IfOk result IsInUse }
    ensures written { IsTrue (D.state disk.old).tells → OnOk result (IsAppended plan.now puts.now (D.state disk.old) (D.state disk.new)) }
    ensures crash { IsTrue (D.state disk.old).tells → CrashesLeave (D.state disk.old) (D.state disk.new)
        (StandsForOne plan.now (D.state disk.old) (durable_by plan.now (content (D.state disk.old))) (overlay puts.now (durable_by plan.now (content (D.state disk.old))))) }
    ensures barriers { (D.state disk.new).barriers ≤ (D.state disk.old).barriers + 2 }
    ensures same { SameDisk (D.state disk.old) (D.state disk.new) }
    ensures sink { SameSink (D.state disk.old) (D.state disk.new) }
    ensures cause { HasCause (D.state disk.old).faults (D.state disk.new).faults result }
{
    let end = write_text(disk, plan, puts)?;
    let next = next_plan(plan, end);
    write_journal_header(disk, &next)?;
    Ok(next)
}

// Writes the lists from the end of the live text on, and calls a barrier. Answers the offset behind them.
fn write_text<D: SectorDisk>(disk: &mut D, plan: &Plan, puts: &[Put]) -> Result<u64, Failed>
    requires rest { IsInUse plan.now }
    requires fits { FitsPlan (D.state disk.old).sectors plan.now }
    requires room { used_of plan.now / 512 + text_sectors plan.now.header.blhdr (length puts.now) ≤ plan.now.info.size / 512 - 2 }
    ensures end { IfOk result (λ end. end ≡ end_after plan.now puts.now) }
    ensures puts { IsTrue (D.state disk.old).tells → OnOk result (PutsInRing (span_of plan.now) plan.now.header.end (lists_sectors (form_of plan.now) puts.now) (content (D.state disk.old)) (content (D.state disk.new))) }
    ensures settled { IsTrue (D.state disk.old).tells → OnOk result ((D.state disk.new).candidates ≡ only (content (D.state disk.new))) }
    ensures crash { CrashesLeave (D.state disk.old) (D.state disk.new) (MixesInRing (span_of plan.now) plan.now.header.end (lists_sectors (form_of plan.now) puts.now) (D.state disk.old).candidates) }
    ensures barriers { (D.state disk.new).barriers ≤ (D.state disk.old).barriers + 1 }
    ensures same { SameDisk (D.state disk.old) (D.state disk.new) }
    ensures sink { SameSink (D.state disk.old) (D.state disk.new) }
    ensures cause { HasCause (D.state disk.old).faults (D.state disk.new).faults result }
{
    let span = Span {
        base: plan.info.offset / 512,
        size: plan.info.size,
    };
    let form = ListForm {
        order: plan.header.order,
        blhdr: plan.header.blhdr,
    };
    let end = write_lists(disk, &span, &form, plan.header.end, puts)?;
    disk.barrier()?;
    Ok(end)
}

// The plan of the journal with a text up to this offset.
fn next_plan(plan: &Plan, end: u64) -> Plan
    ensures { result ≡ with_text plan.now plan.now.header.start end }
{
    Plan {
        place: plan.place,
        info: plan.info,
        header: Header {
            order: plan.header.order,
            start: plan.header.start,
            end,
            size: plan.header.size,
            blhdr: plan.header.blhdr,
        },
        fresh: plan.fresh,
    }
}
