//! The lists of a journal's text, looked at one by one.
ghost use Rattle.std.specs.Prelude.{◌≡◌, ◌≤◌, ◌<◌, ◌+◌, IsTrue, IfOk, IfSome, OnSome, IfNone, Bool, length, is_some, ◌↔◌, ◌⊎◌};
ghost use Rattle.sector_disk.specs.Cause.{HasCause};
ghost use Rattle.sector_disk.specs.Disk.{content};
ghost use Rattle.jnl_format.specs.Dialect.{may_end};
ghost use Rattle.jnl_format.specs.Text.{is_list_as, head_at, bad_list_as};
ghost use Rattle.sector_disk.specs.Disk.{OnlyReads};
ghost use Rattle.jnl_replay.specs.Text.{words, IsText};

use crate::blocks::blocks_are_valid;
use crate::buffered::BufferedDisk;
use crate::text::{Text, read_text};
use hx_bytes::Failed;
use jnl_format::{Dialect, ListHead, Volume, read_list};
use sector_disk::SectorDisk;

/// The place of the first list that isn't as it must be in a dialect, if there is one.
pub fn first_bad_list<D: SectorDisk>(
    disk: &mut D,
    text: &Text,
    volume: &Volume,
    dialect: Dialect,
) -> Result<Option<u64>, Failed>
    requires text { IsText (D.state disk.old).sectors text.now }
    ensures value { IsTrue (D.state disk.old).tells → IfOk result (λ place.
        let bytes = words text.now (content (D.state disk.old)) in
        place ≡ bad_list_as dialect volume.now text.now.order text.now.blhdr bytes (length bytes) 0) }
    ensures inside { IfOk result (λ place. IfSome place (λ at. at < text.now.length)) }
    ensures reads { OnlyReads (D.state disk.old) (D.state disk.new) }
    ensures cause { HasCause (D.state disk.old).faults (D.state disk.new).faults result }
{
    let mut buffered = BufferedDisk {
        disk,
        last: None,
        before: None,
    };
    walk_lists(&mut buffered, text, volume, dialect)
}

// The same over a disk whose last sectors are at hand.
fn walk_lists<D: SectorDisk>(
    disk: &mut D,
    text: &Text,
    volume: &Volume,
    dialect: Dialect,
) -> Result<Option<u64>, Failed>
    requires text { IsText (D.state disk.old).sectors text.now }
    ensures value { IsTrue (D.state disk.old).tells → IfOk result (λ place.
        let bytes = words text.now (content (D.state disk.old)) in
        place ≡ bad_list_as dialect volume.now text.now.order text.now.blhdr bytes (length bytes) 0) }
    ensures inside { IfOk result (λ place. IfSome place (λ at. at < text.now.length)) }
    ensures reads { OnlyReads (D.state disk.old) (D.state disk.new) }
    ensures cause { HasCause (D.state disk.old).faults (D.state disk.new).faults result }
{
    let mut at = 0;
    while at < text.length {
        match list_bytes(disk, text, volume, dialect, at)? {
            Some(used) => at += used,
            None => return Ok(Some(at)),
        }
    }
    Ok(None)
}

/// How many bytes the list at a place uses, or none where it isn't as it must be.
fn list_bytes<D: SectorDisk>(
    disk: &mut D,
    text: &Text,
    volume: &Volume,
    dialect: Dialect,
    at: u64,
) -> Result<Option<u64>, Failed>
    requires text { IsText (D.state disk.old).sectors text.now }
    requires inside { at < text.now.length }
    ensures value { IsTrue (D.state disk.old).tells → IfOk result (λ used.
        is_some used ≡ is_list_as dialect volume.now text.now.order text.now.blhdr (words text.now (content (D.state disk.old))) at) }
    ensures used { IsTrue (D.state disk.old).tells → IfOk result (λ used. IfSome used (λ n. n ≡ (head_at text.now.order (words text.now (content (D.state disk.old))) at).used)) }
    ensures some { IfOk result (λ used. IfSome used (λ n. 0 < n)) }
    ensures inside { IfOk result (λ used. IfSome used (λ n. at + n ≤ text.now.length)) }
    ensures reads { OnlyReads (D.state disk.old) (D.state disk.new) }
    ensures cause { HasCause (D.state disk.old).faults (D.state disk.new).faults result }
{
    let header = u64::from(text.blhdr);
    let left = text.length - at;
    if left < header {
        return Ok(None);
    }
    let mut bytes = [0; 32];
    read_text(disk, text, at, &mut bytes)?;
    let head = match read_list(&bytes, text.order, text.blhdr) {
        Some(head) => head,
        None => return Ok(None),
    };
    let used = u64::from(head.used);
    if !is_sized(&head, dialect, header, left) {
        return Ok(None);
    }
    let entries = u64::from(head.entries) - 1;
    if blocks_are_valid(disk, text, volume, at + 32, at + header, at + used, entries)? {
        Ok(Some(used))
    } else {
        Ok(None)
    }
}

// The list has its header, ends in the text, and is one behind which the text may end if nothing follows.
fn is_sized(head: &ListHead, dialect: Dialect, header: u64, left: u64) -> bool
    ensures { IsTrue result ↔ (header ≤ head.now.used) × (head.now.used ≤ left) × ((may_end dialect head.now.last ≡ Bool.true) ⊎ (head.now.used < left)) }
{
    let used = u64::from(head.used);
    let ends = dialect.may_end(head.last);
    header <= used && used <= left && (ends || used < left)
}
