//! Power fails after each write and each barrier of a run.
use crate::few::{Few, fresh_few};
use crate::plain::told_behind;
use crate::runs::{AT_ONCE, PIECE, is_clean, run_lines, told_by};
use crate::stops::{Judge, Tried, try_stops};
use hx_bytes::OutOfMemory;
use mem_disk::MemImage;
use std::alloc::Global;
use test_kit::filling;

/// A run that makes six folders, and asks after each that it is durable.
const FOLDERS: &[u8] =
    b"mkdir /d0\nsync\nmkdir /d1\nsync\nmkdir /d2\nsync\nmkdir /d3\nsync\nmkdir /d4\nsync\nmkdir /d5\nsync\n";

/// A run with each command that changes folders, entries and attributes.
const COMMANDS: &[u8] =
    b"mkdir /a\ncreate /a/f\nat 500\nchmod /a/f 600\nsetattr /a/f k =one\nsync\nmkdir /a/b\nmv /a/f /a/b/g\nsetattr /a/b/g k =two\nsetattr /a l =\nsync\ndelattr /a/b/g k\ncreate /h\nrmdir /a\nmv /a/b/g /g\nrmdir /a/b\nrmdir /a\nsync\n";

/// What is read back behind it.
const READS: &[u8] =
    b"ls /\nstat /\nls /a\nstat /a\nlsattr /a\nstat /a/f\ngetattr /a/f k\nls /a/b\nstat /a/b\nstat /a/b/g\ngetattr /a/b/g k\nstat /h\nstat /g\nlsattr /g\n";

/// A run in which files lose their only names; with the first of them the private folder is made.
const REMOVALS: &[u8] =
    b"create /a\ncreate /b\nsync\nrm /a\nmkdir /d\ncreate /d/c\nsync\nrm /d/c\nrm /b\nrmdir /d\nsync\ncreate /a\nrm /a\ncreate /e\nsync\n";

/// What is read back behind it.
const READS_OF_REMOVALS: &[u8] =
    b"ls /\nstat /\nstat /a\nstat /b\nls /d\nstat /d\nstat /d/c\nstat /e\n";

/// A run in which bytes are put into files and cut off, and files get and lose names: into new blocks and over old ones, over the border of a
/// block, behind a gap, by either name of a file. Housekeeping gives back blocks between the lines.
const BYTES: &[u8] =
    b"create /f\nwrite /f 5 =hello\nsync\nwrite /f 4094 =wxyz\nln /f /g\nsync\nwrite /g 0 =ab\nmkdir /d\ncreate /d/h\ntrunc /d/h 5000\nrm /f\nat 700\nln /g /d/i\nsync\ntrunc /g 3\ntrunc /d/h 4000\nwrite /d/h 3999 =xyz\nmv /g /d/g\nsetattr /d/g k =v\nchmod /d/i 640\nsync\nwrite /d/i 9000 =%00end\ndelattr /d/i k\nrm /d/i\nrm /d/g\nread /d/h 3998 9\ntrunc /d/h 0\nrm /d/h\nrmdir /d\ncreate /f\nwrite /f 0 =last\nls /\nsync\n";

/// What is read back behind it.
const READS_OF_BYTES: &[u8] =
    b"ls /\nstat /\nls /d\nstat /d\nstat /f\nread /f 0 9100\nstat /g\nread /g 0 9100\nlsattr /g\nstat /d/h\nread /d/h 0 9100\nstat /d/g\nread /d/g 0 9100\ngetattr /d/g k\nstat /d/i\nread /d/i 8998 9100\nlsattr /d/i\n";

/// A run in which files take the places of others: of one that has another name too, of one that loses its last name, and of itself.
const REPLACEMENTS: &[u8] =
    b"create /a\nwrite /a 0 =A\ncreate /b\nwrite /b 0 =BB\nln /b /c\nmv /a /b\nread /b 0 9\nstat /c\nmv /b /c\nls /\nread /c 0 9\nmv /c /c\ncreate /z\nstat /z\nmkdir /d\nmv /c /d\nmv /z /c\nsync\n";

/// What is read back behind it.
const READS_OF_REPLACEMENTS: &[u8] =
    b"ls /\nstat /\nstat /a\nread /a 0 9\nstat /b\nread /b 0 9\nstat /c\nread /c 0 9\nstat /z\nls /d\n";

/// A file whose bytes are put three times, which come at once.
const ONE_BATCH: &[u8] = b"create /f\nwrite /f 0 =a\nwrite /f 0 =b\nwrite /f 0 =c\n";

/// How many files with long names fill the catalog so far that one more entry makes it grow.
const FILES: u8 = 80;

/// A run that makes one entry more, and puts bytes.
const GROWTH: &[u8] = b"mkdir /d\nsync\ncreate /d/x\nwrite /d/x 0 =y\nsync\n";

/// What is read back behind it.
const READS_OF_GROWTH: &[u8] = b"stat /\nls /d\nstat /d\nstat /d/x\nread /d/x 0 9\n";

/// The room behind it: the catalog has 80 nodes, and had 64.
const ROOM_OF_GROWTH: &[u8] = b"ok 4096 2048 1675 1675 1982 0 16 15 3 80 25 0 16 15\n";

/// A folder with six attributes, made before those files.
const MARKED: &[u8] =
    b"mkdir /d\nsetattr /d a =v\nsetattr /d b =v\nsetattr /d c =v\nsetattr /d d =v\nsetattr /d e =v\nsetattr /d f =v\n";

/// A run that removes it, ahead of which the catalog grows, and then the attributes file.
const TWO_GROWTHS: &[u8] = b"rmdir /d\nsync\ncreate /x\nwrite /x 0 =y\nsync\n";

/// What is read back behind it.
const READS_OF_TWO_GROWTHS: &[u8] =
    b"stat /\nstat /d\nlsattr /d\ngetattr /d f\nstat /x\nread /x 0 9\n";

/// The room behind it: the catalog has 80 nodes, and had 64; the attributes file has 20, and had 16.
const ROOM_OF_TWO_GROWTHS: &[u8] = b"ok 4096 2048 1671 1671 1982 0 16 15 3 80 25 0 20 19\n";

/// All crashes of a run of all commands on a new volume.
pub fn try_all(alloc: Global, choice: u64) -> Result<Tried, OutOfMemory> {
    try_from(alloc, &fresh_few(alloc)?, COMMANDS, READS, choice)
}

/// All crashes of a run that removes files on a new volume.
pub fn try_removals(alloc: Global, choice: u64) -> Result<Tried, OutOfMemory> {
    try_from(
        alloc,
        &fresh_few(alloc)?,
        REMOVALS,
        READS_OF_REMOVALS,
        choice,
    )
}

/// All crashes of a run that puts bytes into files and gives files names on a new volume.
pub fn try_bytes(alloc: Global, choice: u64) -> Result<Tried, OutOfMemory> {
    try_from(alloc, &fresh_few(alloc)?, BYTES, READS_OF_BYTES, choice)
}

/// All crashes of a run in which files take the places of others on a new volume.
pub fn try_replacements(alloc: Global, choice: u64) -> Result<Tried, OutOfMemory> {
    try_from(
        alloc,
        &fresh_few(alloc)?,
        REPLACEMENTS,
        READS_OF_REPLACEMENTS,
        choice,
    )
}

/// All crashes of one batch that puts bytes into a file over and over on a new volume.
pub fn try_one_batch(alloc: Global, choice: u64) -> Result<Tried, OutOfMemory> {
    let start = fresh_few(alloc)?;
    let reads = b"ls /\nread /f 0 9\n";
    try_in_pieces(alloc, &start, b"", ONE_BATCH, AT_ONCE, reads, choice)
}

/// All crashes of a run ahead of which the catalog grows; nothing where it doesn't grow.
pub fn try_growth(alloc: Global, choice: u64) -> Result<Option<Tried>, OutOfMemory> {
    let reads = READS_OF_GROWTH;
    try_grown(alloc, b"", GROWTH, ROOM_OF_GROWTH, reads, choice)
}

/// All crashes of a run ahead of whose first line the catalog grows, and the attributes file; nothing where they don't grow.
pub fn try_two_growths(alloc: Global, choice: u64) -> Result<Option<Tried>, OutOfMemory> {
    let reads = READS_OF_TWO_GROWTHS;
    try_grown(
        alloc,
        MARKED,
        TWO_GROWTHS,
        ROOM_OF_TWO_GROWTHS,
        reads,
        choice,
    )
}

// All crashes of a run on a volume where these lines were served first, and then many files were made; nothing where another room is behind it.
fn try_grown(
    alloc: Global,
    first: &[u8],
    lines: &[u8],
    room: &[u8],
    reads: &[u8],
    choice: u64,
) -> Result<Option<Tried>, OutOfMemory> {
    let mut before = Vec::new(alloc);
    before.extend_from_slice(first)?;
    before.extend_from_slice(&filling(alloc, FILES)?)?;
    let mut full = Few::over(alloc, &fresh_few(alloc)?)?;
    run_lines(alloc, &mut full, &before)?;
    let start = full.rig.image(alloc, 1)?;
    let mut whole = Few::over(alloc, &start)?;
    run_lines(alloc, &mut whole, lines)?;
    let grown = told_by(alloc, &whole.rig.image(alloc, 1)?, b"df\n")?;
    if !matches!(&grown, Some(told) if told.as_slice() == room) {
        return Ok(None);
    }
    let tried = try_in_pieces(alloc, &start, &before, lines, PIECE, reads, choice)?;
    Ok(Some(tried))
}

/// All crashes of a run on a volume of which the ring was gone round before.
pub fn try_worn(alloc: Global, choice: u64) -> Result<Tried, OutOfMemory> {
    try_from(alloc, &worn(alloc)?, FOLDERS, b"ls /\n", choice)
}

/// How many batches wear the ring: a new mode of the root, and a `sync`.
const BATCHES: u16 = 506;

/// A volume on which so many batches were committed before. The next list begins so near to the ring's end that the ring
/// wraps inside one of the lists of the run.
pub fn worn(alloc: Global) -> Result<MemImage, OutOfMemory> {
    let mut disk = Few::over(alloc, &fresh_few(alloc)?)?;
    let mut lines = Vec::new(alloc);
    for batch in 0..BATCHES {
        lines.extend_from_slice(b"chmod / ")?;
        for place in [6, 3, 0] {
            lines.push(b'0' + (batch >> place & 7) as u8)?;
        }
        lines.extend_from_slice(b"\nsync\n")?;
    }
    run_lines(alloc, &mut disk, &lines)?;
    disk.rig.image(alloc, 1)
}

/// Stops the run of lines that come in such pieces after each call that wrote, and mounts the image of this choice. It must be sound, and what is read of it must be what the
/// plain tree tells after some of the lines, among them each that was answered. The lines `before` made what stood there first.
fn try_in_pieces(
    alloc: Global,
    start: &MemImage,
    before: &[u8],
    lines: &[u8],
    piece: u64,
    reads: &[u8],
    choice: u64,
) -> Result<Tried, OutOfMemory> {
    let wanted = told_behind(alloc, before, lines, reads)?;
    let telling = Telling { reads, wanted };
    try_stops(alloc, start, lines, piece, choice, &telling)
}

/// Sound volumes of which lines are told one of these texts, none of those before the number of lines that were answered.
#[derive(Drop)]
struct Telling<'a> {
    reads: &'a [u8],
    wanted: Vec<Vec<u8>>,
}

impl Judge for Telling<'_> {
    fn is_right(
        &self,
        alloc: Global,
        image: &MemImage,
        answered: u64,
    ) -> Result<bool, OutOfMemory> {
        let told = told_by(alloc, image, self.reads)?;
        Ok(is_clean(alloc, image)? && is_one_of(&self.wanted, answered, told))
    }
}

/// The same for lines that come in the usual pieces, on a volume of which nothing is known beside.
pub fn try_from(
    alloc: Global,
    start: &MemImage,
    lines: &[u8],
    reads: &[u8],
    choice: u64,
) -> Result<Tried, OutOfMemory> {
    try_in_pieces(alloc, start, b"", lines, PIECE, reads, choice)
}

/// Whether this was told, and is wanted after so many lines at least.
pub fn is_one_of(wanted: &[Vec<u8>], least: u64, told: Option<Vec<u8>>) -> bool {
    let Some(told) = told else {
        return false;
    };
    let mut count: u64 = 0;
    for want in wanted {
        if least <= count && want.as_slice() == told.as_slice() {
            return true;
        }
        count = count.saturating_add(1);
    }
    false
}
