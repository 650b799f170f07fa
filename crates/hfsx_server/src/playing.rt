// Lines of a stream, played on a volume in memory.
#![tactic(auto, unfolding(crate::specs::Playing::tallied))]

ghost use Rattle.std.specs.Prelude.{◌≡◌, ◌≤◌, ◌-◌, ◌++◌, ◌∷◌, [], true, IfOk, OnOk, if◌then◌else◌};
ghost use Rattle.sector_disk.specs.Cause.{next_count};
ghost use Rattle.stream_gen.specs.Stream.{line_of};
ghost use Rattle.hfs_language.specs.Lines.{lines};
ghost use Rattle.hfs_model.specs.Plain.{fresh_tree};
ghost use Rattle.hfs_model.specs.declared.plain.PlainTree.{PlainTree};
ghost use Rattle.hfs_volume.specs.Mount.{MountsTo};
ghost use Rattle.hfsx_server.specs.Playing.{HasPlayed, ServesBytes, stream_from, tallied, tallied_byte};

use crate::{Status, check, format, run};
use hfs_language::lines_end;
use hx_bytes::OutOfMemory;
use mem_disk::{MemImage, MemRig, MemSource};
use std::alloc::Global;
use stream_gen::line;
use watchers::Watcher;

/// The sectors of the volume.
const SECTORS: u64 = 65_536;

/// How many lines are served from one mount to the next. The disk in memory keeps all that was written to it since it was made, so it is
/// made anew behind so many.
const PART: u64 = 4_096;

/// How many bytes the source gives at once, at most.
const PIECE: u64 = 65_536;

/// A volume in memory, and what its lines were answered.
#[derive(Drop)]
pub(crate) struct Stage {
    pub image: MemImage,
    /// How many lines were done.
    pub done: u64,
    /// How many were refused.
    pub refused: u64,
}

/// Replies that are counted byte by byte.
#[derive(Clone, Copy)]
struct Tally {
    /// Whether a line begins with the next byte.
    begins: bool,
    /// How many lines were done.
    done: u64,
    /// How many were refused.
    refused: u64,
}

/// Plays so many lines of the stream of a seed on an empty volume.
pub(crate) fn play_lines(alloc: Global, seed: u64, count: u64) -> Result<Stage, OutOfMemory>
    ensures { IfOk result (HasPlayed seed count) }
{
    let image = formatted(alloc)?;
    let mut stage = Stage {
        image,
        done: 0,
        refused: 0,
    };
    for part in 0..count.div_ceil(PART) {
        let first = part.saturating_mul(PART);
        let end = count.min(first.saturating_add(PART));
        play_part(alloc, seed, first, end, &mut stage)?;
    }
    Ok(stage)
}

// Plays one part of the stream, behind what was played of it.
fn play_part(
    alloc: Global,
    seed: u64,
    first: u64,
    end: u64,
    stage: &mut Stage,
) -> Result<(), OutOfMemory>
    requires order { first ≤ end }
    requires most { end ≤ 18446744073709551615 }
    requires played { HasPlayed seed first stage.old }
    ensures { OnOk result (HasPlayed seed end stage.new) }
{
    let bytes = lines_between(alloc, seed, first, end)?;
    let told = serve(alloc, &mut stage.image, bytes.as_slice())?;
    let tally = tally_of(told.as_slice(), stage.done, stage.refused);
    stage.done = tally.done;
    stage.refused = tally.refused;
    Ok(())
}

// An empty volume.
fn formatted(alloc: Global) -> Result<MemImage, OutOfMemory>
    ensures { IfOk result (λ image. MountsTo image.sectors.items fresh_tree) }
{
    let mut rig = MemRig::new(alloc, SECTORS)?;
    match format(alloc, &mut rig) {
        Status::Done => rig.image(alloc, 1),
        _ => Err(OutOfMemory),
    }
}

// Lines of the stream, each with its newline.
fn lines_between(alloc: Global, seed: u64, first: u64, end: u64) -> Result<Vec<u8>, OutOfMemory>
    requires { first ≤ end }
    ensures { IfOk result (λ bytes. lines bytes.items ≡ stream_from seed first (end - first)) }
{
    lines_end();
    let mut bytes = Vec::new(alloc);
    for i in first..end {
        push_line(alloc, &mut bytes, seed, i)?;
    }
    Ok(bytes)
}

// Appends a line and its newline.
fn push_line(alloc: Global, bytes: &mut Vec<u8>, seed: u64, i: u64) -> Result<(), OutOfMemory>
    ensures { OnOk result (bytes.new.items ≡ bytes.old.items ++ (line_of seed i ++ 10 ∷ [])) }
{
    bytes.extend_from_slice(line(alloc, seed, i)?.as_slice())?;
    bytes.push(b'\n')?;
    Ok(())
}

/// Serves lines on a volume, and gives what was told.
pub(crate) fn serve(
    alloc: Global,
    image: &mut MemImage,
    bytes: &[u8],
) -> Result<Vec<u8>, OutOfMemory>
    ensures { (tree : PlainTree) → MountsTo image.old.sectors.items tree → IfOk result (λ told. ServesBytes tree bytes.now told.items image.new.sectors.items) }
{
    let mut rig = MemRig::from_image(alloc, image)?;
    let mut source = MemSource::new(alloc, bytes, PIECE, None)?;
    let mut watchers: Vec<Box<dyn Watcher>> = Vec::new(alloc);
    match run(alloc, &mut rig, &mut source, &mut watchers) {
        Status::Done => {
            let told = Vec::from_slice(alloc, rig.told())?;
            *image = rig.image(alloc, 1)?;
            Ok(told)
        }
        _ => Err(OutOfMemory),
    }
}

// The numbers so far, and those of the replies in these bytes.
fn tally_of(told: &[u8], done: u64, refused: u64) -> Tally
    ensures { result ≡ tallied (record { begins = true; done = done; refused = refused }) told.now }
{
    let mut tally = Tally {
        begins: true,
        done,
        refused,
    };
    for byte in told.iter() {
        tally = tallied_byte(tally, *byte);
    }
    tally
}

// The numbers with one byte more.
fn tallied_byte(tally: Tally, byte: u8) -> Tally
    ensures { result ≡ tallied_byte tally byte }
{
    let is_done = byte == b'o';
    Tally {
        begins: byte == b'\n',
        done: one_more(tally.done, tally.begins && is_done),
        refused: one_more(tally.refused, tally.begins && !is_done),
    }
}

// One more, where it is counted.
fn one_more(number: u64, counted: bool) -> u64
    ensures { result ≡ (if counted then next_count number else number) }
{
    if counted {
        number.saturating_add(1)
    } else {
        number
    }
}

/// Whether a check finds nothing.
pub(crate) fn is_sound(alloc: Global, image: &MemImage) -> Result<bool, OutOfMemory>
    ensures { (tree : PlainTree) → MountsTo image.now.sectors.items tree → IfOk result (λ sound. sound ≡ true) }
{
    let mut rig = MemRig::from_image(alloc, image)?;
    match check(alloc, &mut rig) {
        Status::Done => Ok(true),
        Status::Refused => Ok(false),
        _ => Err(OutOfMemory),
    }
}
