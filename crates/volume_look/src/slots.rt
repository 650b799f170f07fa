//! Sectors that were read, kept in memory.
ghost use Rattle.std.specs.Prelude.{◌≡◌, ◌<◌, true, false, length, IfOk, IfSome};
ghost use Rattle.sector_disk.specs.Lists.{Content, sector};
ghost use Rattle.volume_look.specs.Slots.{AreCopies, IsCopy, is_put, put_over};

use hx_bytes::{OutOfMemory, Sector};
use std::alloc::Global;

/// A sector, and the bytes that it has.
#[derive(Clone, Copy)]
pub(crate) struct Copied {
    pub(crate) at: u64,
    pub(crate) bytes: Sector,
}

/// Empty slots, one for each remainder that a sector's number may leave.
pub(crate) fn empty_slots(alloc: Global, count: u32) -> Result<Vec<Option<Copied>>, OutOfMemory>
    ensures { (content : Content) → IfOk result (λ slots. AreCopies content slots.items) }
{
    let mut slots = Vec::new(alloc);
    slots.resize(count as usize, None)?;
    Ok(slots)
}

/// The bytes of a sector that is in its slot.
pub(crate) fn recall(slots: &[Option<Copied>], at: u64) -> Option<&Sector>
    ensures { (content : Content) → AreCopies content slots.now → IfSome result (λ bytes. bytes.now ≡ sector content at) }
{
    if slots.is_empty() {
        return None;
    }
    let place = (at % slots.len() as u64) as usize;
    bytes_of(&slots[place], at)
}

// The bytes, where they are this sector's.
fn bytes_of(copied: &Option<Copied>, at: u64) -> Option<&Sector>
    ensures { (content : Content) → IsCopy content copied.now → IfSome result (λ bytes. bytes.now ≡ sector content at) }
{
    match copied {
        Some(copied) => {
            if copied.at == at {
                Some(&copied.bytes)
            } else {
                None
            }
        }
        None => None,
    }
}

/// Gives the bytes of a sector that was put over a content, and says whether it was.
pub(crate) fn read_put(put: &Option<Copied>, at: u64, into: &mut Sector) -> bool
    ensures found { (content : Content) → at < length content → result ≡ true → into.new ≡ sector (put_over put.now content) at }
    ensures none { (content : Content) → result ≡ false → sector (put_over put.now content) at ≡ sector content at }
{
    match put {
        Some(one) => {
            if one.at == at {
                let bytes = one.bytes;
                *into = bytes;
                return true;
            }
            false
        }
        None => false,
    }
}

/// Whether this is the sector that was put.
pub(crate) fn is_put(put: &Option<Copied>, at: u64) -> bool
    ensures { result ≡ is_put put.now at }
{
    match put {
        Some(one) => at == one.at,
        None => false,
    }
}

/// Puts a sector's bytes into its slot, where there is one.
pub(crate) fn keep(slots: &mut [Option<Copied>], at: u64, bytes: &Sector)
    ensures { (content : Content) → AreCopies content slots.old → bytes.now ≡ sector content at → AreCopies content slots.new }
{
    if slots.is_empty() {
        return;
    }
    let place = (at % slots.len() as u64) as usize;
    slots[place] = Some(Copied { at, bytes: *bytes });
}
