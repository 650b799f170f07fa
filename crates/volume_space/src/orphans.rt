//! Files that lost their last name, found among the entries of the private folder.
ghost use Rattle.std.specs.Prelude.{◌≡◌};
ghost use Rattle.std.specs.List.{list_all};
ghost use Rattle.hfs_volume.specs.Records.{id_in, is_link_type};
ghost use Rattle.volume_space.specs.Orphans.{begins_temp, found_next, is_digit, is_led, is_number, is_own_record, is_temp, is_waiting, lesser};
ghost use Rattle.volume_base.specs.Orphans.{is_blockless};

use cat_records::{CatRecord, EntryFields};
use catalog::Child;
use hx_bytes::read_be32;

/// `hlnk`, the type of a further name (TN1150, "Hard Links").
const LINK_TYPE: u32 = 0x686C_6E6B;

/// `hfs+`, its creator.
const LINK_CREATOR: u32 = 0x6866_732B;

/// Whether a name begins with the word `temp`.
fn begins_temp(name: &[u16]) -> bool
    ensures { result ≡ begins_temp name.now }
{
    if name.len() < 4 {
        return false;
    }
    name[0] == 116 && (name[1] == 101 && (name[2] == 109 && name[3] == 112))
}

/// Whether a unit is a decimal digit.
fn is_digit(unit: u16) -> bool
    ensures { result ≡ is_digit unit }
{
    47 < unit && unit < 58
}

/// Whether units are decimal digits.
fn are_digits(units: &[u16]) -> bool
    ensures { result ≡ list_all is_digit units.now }
{
    units.iter().all(|unit| is_digit(*unit))
}

/// Whether so many digits, of which this is the first, have no zero in front.
fn is_led(first: u16, many: usize) -> bool
    ensures { result ≡ is_led first many }
{
    many == 1 || first != 48
}

/// Whether units are a decimal number of 64 digits or fewer.
fn is_number(units: &[u16]) -> bool
    ensures { result ≡ is_number units.now }
{
    if units.is_empty() {
        return false;
    }
    if units.len() > 64 {
        return false;
    }
    if !is_led(units[0], units.len()) {
        return false;
    }
    are_digits(units)
}

/// Whether a name is the word `temp` with a number behind it.
fn is_temp(name: &[u16]) -> bool
    ensures { result ≡ is_temp name.now }
{
    if !begins_temp(name) {
        return false;
    }
    if name.len() < 4 {
        return false;
    }
    is_number(&name[4..])
}

/// Whether the fields are those of a further name of a file.
pub(crate) fn is_link(fields: &EntryFields) -> bool
    ensures { result ≡ is_link_type fields.now }
{
    read_be32(fields.finder.as_slice(), 0) == LINK_TYPE
        && read_be32(fields.finder.as_slice(), 4) == LINK_CREATOR
}

/// Whether a record is a file's own.
fn is_own_record(rec: &CatRecord) -> bool
    ensures { result ≡ is_own_record rec.now }
{
    match rec {
        CatRecord::Folder(_folder) => false,
        CatRecord::File(file) => !is_link(&file.fields),
        CatRecord::Thread(_thread) => false,
    }
}

/// Whether an entry of the private folder waits to be removed.
fn is_waiting(child: &Child) -> bool
    ensures { result ≡ is_waiting child.now }
{
    is_own_record(&child.rec) && is_temp(child.name.as_slice())
}

/// The CNID in a folder's or file's record; 0 in a thread's.
fn id_in(rec: &CatRecord) -> u32
    ensures { result ≡ id_in rec.now }
{
    match rec {
        CatRecord::Folder(folder) => folder.fields.id,
        CatRecord::File(file) => file.fields.id,
        CatRecord::Thread(_thread) => 0,
    }
}

/// The lesser of what was found before and this CNID.
fn lesser(found: Option<u32>, id: u32) -> u32
    ensures { result ≡ lesser found id }
{
    match found {
        None => id,
        Some(least) => { if id < least { id } else { least } }
    }
}

/// What was found behind one entry more.
pub(crate) fn found_next(found: Option<u32>, child: &Child) -> Option<u32>
    ensures { result ≡ found_next found child.now }
{
    if is_waiting(child) {
        Some(lesser(found, id_in(&child.rec)))
    } else {
        found
    }
}

/// Whether a record is that of a file that has no blocks.
pub(crate) fn is_blockless(rec: &CatRecord) -> bool
    ensures { result ≡ is_blockless rec.now }
{
    match rec {
        CatRecord::Folder(_folder) => false,
        CatRecord::File(file) => {
            file.data_fork.total_blocks == 0 && file.resource_fork.total_blocks == 0
        }
        CatRecord::Thread(_thread) => false,
    }
}
