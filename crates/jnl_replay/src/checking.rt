//! A journal found, and checked before anything is written.
ghost use Rattle.std.specs.Prelude.{◌≡◌, ◌≢◌, ◌≤◌, ◌<◌, ◌+◌, ◌*◌, ◌/◌, ◌⊎◌, IsTrue, IfOk, IfErr, OnOk, IsErrOf, None, Some, Bool, ◌||◌};
ghost use Rattle.sector_disk.specs.Cause.{Rose};
ghost use Rattle.sector_disk.specs.Disk.{content};
ghost use Rattle.sector_disk.specs.Lists.{sector};
ghost use Rattle.jnl_format.specs.Info.{holds, is_fresh, IsInfo};
ghost use Rattle.jnl_format.specs.Header.{header_read_as, IsHeaderAs};
ghost use Rattle.jnl_format.specs.Recovery.{info_in, info_from, journal_as, list_fault_as, foreign_fault, text_fault_as, fresh_header, recovery, recovery_as, replayed};
ghost use Rattle.jnl_replay.specs.Plan.{IsPlace, IsPlan, IsPlanAs, IsRefusedAs, IsRefusedIn, IsFaultOf, IsFirstFault, FitsPlan, FitsPlanAs, journal_of};
ghost use Rattle.sector_disk.specs.Disk.{OnlyReads};
ghost use Rattle.jnl_replay.specs.declared.plan.ReplayFault.TheVariants.{Disk};

use crate::lists::first_bad_list;
use crate::plan::{Place, Plan, ReplayFault};
use crate::text::text_of;
use crate::volume::{HEADER_SECTOR, read_volume};
use hx_bytes::{Order, Sector};
use jnl_format::{
    Dialect, Header, Info, JnlRefusal, Volume, first_info_fault, info_fields, read_header_as,
};
use jnl_ring::advance;
use sector_disk::SectorDisk;

const FRESH: u32 = 4;

const FRESH_BLHDR: u32 = 4096;

const JOURNALING_VERSION: u32 = 0x4846_534A;

/// Finds the journal of a volume whose header says this place, and checks it. It writes nothing. The refusal
/// is the first that stands in the order `OtherDevice`, `BadInfo`, `BadHeader`, `BadList`, `ForeignJournal`.
pub fn validate<D: SectorDisk>(disk: &mut D, place: &Place) -> Result<Plan, ReplayFault>
    requires size { (D.state disk.old).sectors ≤ 2147483648 }
    requires info { place.now.info_sector < (D.state disk.old).sectors }
    requires place { IsTrue (D.state disk.old).tells → IsPlace (content (D.state disk.old)) place.now }
    // A plan has the content's journal, which has no fault.
    ensures plan { IsTrue (D.state disk.old).tells → IfOk result (λ plan. IsPlan (content (D.state disk.old)) plan × (plan.place ≡ place.now)) }
    // With a plan the recovered content is defined: the blocks are written to their sectors.
    ensures recovered { IsTrue (D.state disk.old).tells → IfOk result (λ plan. recovery (content (D.state disk.old)) ≡ Ok (replayed (journal_of plan) (content (D.state disk.old)))) }
    // A refusal is the one that stands in place of the recovered content.
    ensures refused { IsTrue (D.state disk.old).tells → IfErr result (IsRefusedAs (content (D.state disk.old))) }
    ensures fits { IfOk result (λ plan. FitsPlan (D.state disk.old).sectors plan) }
    ensures reads { OnlyReads (D.state disk.old) (D.state disk.new) }
    ensures cause { IsErrOf result Disk → Rose (D.state disk.old).faults (D.state disk.new).faults }
{
    validate_as(disk, place, Dialect::Plain)
}

/// The same in a dialect.
pub fn validate_as<D: SectorDisk>(
    disk: &mut D,
    place: &Place,
    dialect: Dialect,
) -> Result<Plan, ReplayFault>
    requires size { (D.state disk.old).sectors ≤ 2147483648 }
    requires info { place.now.info_sector < (D.state disk.old).sectors }
    requires place { IsTrue (D.state disk.old).tells → IsPlace (content (D.state disk.old)) place.now }
    // A plan has the content's journal, which has no fault.
    ensures plan { IsTrue (D.state disk.old).tells → IfOk result (λ plan. IsPlanAs dialect (content (D.state disk.old)) plan × (plan.place ≡ place.now)) }
    // With a plan the recovered content is defined: the blocks are written to their sectors.
    ensures recovered { IsTrue (D.state disk.old).tells → IfOk result (λ plan. recovery_as dialect (content (D.state disk.old)) ≡ Ok (replayed (journal_of plan) (content (D.state disk.old)))) }
    // A refusal is the one that stands in place of the recovered content.
    ensures refused { IsTrue (D.state disk.old).tells → IfErr result (IsRefusedIn dialect (content (D.state disk.old))) }
    ensures fits { IfOk result (λ plan. FitsPlanAs dialect (D.state disk.old).sectors plan) }
    ensures reads { OnlyReads (D.state disk.old) (D.state disk.new) }
    ensures cause { IsErrOf result Disk → Rose (D.state disk.old).faults (D.state disk.new).faults }
{
    let plan = match find_journal(disk, place, dialect) {
        Ok(plan) => plan,
        Err(fault) => return Err(fault),
    };
    match check_text(disk, &plan, dialect) {
        Ok(()) => Ok(plan),
        Err(fault) => Err(fault),
    }
}

fn find_journal<D: SectorDisk>(
    disk: &mut D,
    place: &Place,
    dialect: Dialect,
) -> Result<Plan, ReplayFault>
    requires size { (D.state disk.old).sectors ≤ 2147483648 }
    requires info { place.now.info_sector < (D.state disk.old).sectors }
    ensures plan { IsTrue (D.state disk.old).tells → IfOk result (λ plan. (journal_as dialect place.now.info_sector (content (D.state disk.old)) ≡ Ok (journal_of plan)) × (plan.place ≡ place.now)) }
    ensures refused { IsTrue (D.state disk.old).tells → IfErr result (IsFaultOf (journal_as dialect place.now.info_sector (content (D.state disk.old)))) }
    ensures fits { IfOk result (λ plan. FitsPlanAs dialect (D.state disk.old).sectors plan) }
    ensures reads { OnlyReads (D.state disk.old) (D.state disk.new) }
    ensures cause { IsErrOf result Disk → Rose (D.state disk.old).faults (D.state disk.new).faults }
{
    let info = match find_info(disk, place.info_sector) {
        Ok(info) => info,
        Err(fault) => return Err(fault),
    };
    if is_new(&info) {
        return Ok(fresh_plan(place, &info));
    }
    match find_header(disk, &info, dialect) {
        Ok(header) => Ok(kept_plan(place, &info, &header)),
        Err(fault) => Err(fault),
    }
}

fn find_info<D: SectorDisk>(disk: &mut D, at: u64) -> Result<Info, ReplayFault>
    requires size { (D.state disk.old).sectors ≤ 2147483648 }
    requires info { at < (D.state disk.old).sectors }
    ensures found { IsTrue (D.state disk.old).tells → IfOk result (λ info. info_in at (content (D.state disk.old)) ≡ Ok info) }
    ensures refused { IsTrue (D.state disk.old).tells → IfErr result (IsFaultOf (info_in at (content (D.state disk.old)))) }
    ensures fits { IfOk result (λ info. IsInfo ((D.state disk.old).sectors * 512) at info) }
    ensures reads { OnlyReads (D.state disk.old) (D.state disk.new) }
    ensures cause { IsErrOf result Disk → Rose (D.state disk.old).faults (D.state disk.new).faults }
{
    let sectors = disk.sectors();
    let mut block = [0; 512];
    match disk.read(at, &mut block) {
        Ok(()) => judge_info(&block, sectors, at),
        Err(_) => Err(ReplayFault::Disk),
    }
}

// The info block that stands in the sector with this number.
fn judge_info(block: &Sector, sectors: u64, at: u64) -> Result<Info, ReplayFault>
    requires size { sectors ≤ 2147483648 }
    requires at { at < sectors }
    ensures found { IfOk result (λ info. info_from sectors at block.now ≡ Ok info) }
    ensures refused { IfErr result (IsFaultOf (info_from sectors at block.now)) }
    ensures fits { IfOk result (λ info. IsInfo (sectors * 512) at info) }
    ensures no_disk { IsErrOf result Disk → ⊥ }
{
    let info = info_fields(block);
    match first_info_fault(&info, sectors * 512, is_taken(&info, at)) {
        None => Ok(info),
        Some(refusal) => Err(ReplayFault::Refused(refusal)),
    }
}

// The journal would hold the volume header or the info block.
fn is_taken(info: &Info, at: u64) -> bool
    requires { at < 2147483648 }
    ensures { result ≡ (holds info.now 2 || holds info.now at) }
{
    lies_on(info, HEADER_SECTOR) || lies_on(info, at)
}

fn find_header<D: SectorDisk>(
    disk: &mut D,
    info: &Info,
    dialect: Dialect,
) -> Result<Header, ReplayFault>
    requires least { 1536 ≤ info.now.size }
    requires inside { info.now.offset + info.now.size ≤ (D.state disk.old).sectors * 512 }
    ensures found { IsTrue (D.state disk.old).tells → IfOk result (λ header. header_read_as dialect info.now.size (sector (content (D.state disk.old)) (info.now.offset / 512)) ≡ Ok header) }
    ensures refused { IsTrue (D.state disk.old).tells → IfErr result (IsFaultOf (header_read_as dialect info.now.size (sector (content (D.state disk.old)) (info.now.offset / 512)))) }
    ensures fits { IfOk result (λ header. IsHeaderAs dialect info.now.size header) }
    ensures reads { OnlyReads (D.state disk.old) (D.state disk.new) }
    ensures cause { IsErrOf result Disk → Rose (D.state disk.old).faults (D.state disk.new).faults }
{
    let mut block = [0; 512];
    match disk.read(info.offset / 512, &mut block) {
        Ok(()) => judge_header(&block, info.size, dialect),
        Err(_) => Err(ReplayFault::Disk),
    }
}

fn judge_header(block: &Sector, size: u64, dialect: Dialect) -> Result<Header, ReplayFault>
    requires { 1536 ≤ size }
    ensures found { IfOk result (λ header. header_read_as dialect size block.now ≡ Ok header) }
    ensures refused { IfErr result (IsFaultOf (header_read_as dialect size block.now)) }
    ensures fits { IfOk result (λ header. IsHeaderAs dialect size header) }
    ensures no_disk { IsErrOf result Disk → ⊥ }
{
    match read_header_as(block, size, dialect) {
        Ok(header) => Ok(header),
        Err(refusal) => Err(ReplayFault::Refused(refusal)),
    }
}

fn is_new(info: &Info) -> bool
    ensures { result ≡ is_fresh info.now }
{
    info.flags & FRESH != 0
}

fn kept_plan(place: &Place, info: &Info, header: &Header) -> Plan
    ensures { result ≡ record { place = place.now; info = info.now; header = header.now; fresh = Bool.false } }
{
    Plan {
        place: *place,
        info: *info,
        header: *header,
        fresh: false,
    }
}

fn fresh_plan(place: &Place, info: &Info) -> Plan
    ensures { result ≡ record { place = place.now; info = info.now; header = fresh_header info.now.size; fresh = Bool.true } }
{
    let header = Header {
        order: Order::Little,
        start: 512,
        end: 512,
        size: info.size,
        blhdr: FRESH_BLHDR,
    };
    Plan {
        place: *place,
        info: *info,
        header,
        fresh: true,
    }
}

fn lies_on(info: &Info, sector: u64) -> bool
    requires { sector < 2147483648 }
    ensures { result ≡ holds info.now sector }
{
    let from = sector * 512;
    info.offset < from + 512 && (from < info.offset || from - info.offset < info.size)
}

fn check_text<D: SectorDisk>(disk: &mut D, plan: &Plan, dialect: Dialect) -> Result<(), ReplayFault>
    requires fits { FitsPlanAs dialect (D.state disk.old).sectors plan.now }
    requires place { IsTrue (D.state disk.old).tells → IsPlace (content (D.state disk.old)) plan.now.place }
    ensures sound { IsTrue (D.state disk.old).tells → OnOk result (text_fault_as dialect plan.now.place.info_sector plan.now.place.last_mounted (journal_of plan.now) (content (D.state disk.old)) ≡ None) }
    ensures refused { IsTrue (D.state disk.old).tells → IfErr result (IsFirstFault (text_fault_as dialect plan.now.place.info_sector plan.now.place.last_mounted (journal_of plan.now) (content (D.state disk.old)))) }
    ensures reads { OnlyReads (D.state disk.old) (D.state disk.new) }
    ensures cause { IsErrOf result Disk → Rose (D.state disk.old).faults (D.state disk.new).faults }
{
    match check_lists(disk, plan, dialect) {
        Ok(()) => check_origin(plan),
        Err(fault) => Err(fault),
    }
}

fn check_lists<D: SectorDisk>(
    disk: &mut D,
    plan: &Plan,
    dialect: Dialect,
) -> Result<(), ReplayFault>
    requires fits { FitsPlanAs dialect (D.state disk.old).sectors plan.now }
    requires place { IsTrue (D.state disk.old).tells → IsPlace (content (D.state disk.old)) plan.now.place }
    ensures sound { IsTrue (D.state disk.old).tells → OnOk result (list_fault_as dialect plan.now.place.info_sector (journal_of plan.now) (content (D.state disk.old)) ≡ None) }
    ensures refused { IsTrue (D.state disk.old).tells → IfErr result (IsFirstFault (list_fault_as dialect plan.now.place.info_sector (journal_of plan.now) (content (D.state disk.old)))) }
    ensures reads { OnlyReads (D.state disk.old) (D.state disk.new) }
    ensures cause { IsErrOf result Disk → Rose (D.state disk.old).faults (D.state disk.new).faults }
{
    let sectors = disk.sectors();
    let header = match read_volume(disk, &plan.place) {
        Ok(header) => header,
        Err(fault) => return Err(fault),
    };
    let text = text_of(plan, sectors);
    let volume = Volume {
        sectors,
        first: plan.info.offset / 512,
        count: plan.info.size / 512,
        info_sector: plan.place.info_sector,
        header,
    };
    match first_bad_list(disk, &text, &volume, dialect)? {
        None => Ok(()),
        Some(at) => {
            let offset = advance(&text.span, text.start, at);
            Err(ReplayFault::Refused(JnlRefusal::BadList(offset)))
        }
    }
}

// A journal that isn't empty is only replayed where the system that last mounted the volume keeps it.
fn check_origin(plan: &Plan) -> Result<(), ReplayFault>
    ensures sound { OnOk result (foreign_fault plan.now.place.last_mounted (journal_of plan.now) ≡ None) }
    ensures refused { IfErr result (IsFirstFault (foreign_fault plan.now.place.last_mounted (journal_of plan.now))) }
    ensures no_disk { IsErrOf result Disk → ⊥ }
{
    let version = plan.place.last_mounted;
    if plan.header.start != plan.header.end && version != JOURNALING_VERSION {
        return Err(ReplayFault::Refused(JnlRefusal::ForeignJournal(version)));
    }
    Ok(())
}
