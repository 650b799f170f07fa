// A stream of generated lines, played on a volume in memory.
ghost use Rattle.std.specs.Prelude.{◌≡◌, ◌≢◌, ◌⊎◌, ◌++◌, IsTrue, IfOk, OnOk};
ghost use Rattle.sector_disk.specs.Cause.{Rose};
ghost use Rattle.sector_disk.specs.Disk.{SameDisk};
ghost use Rattle.hfs_language.specs.Text.{field};
ghost use Rattle.hfsx_server.specs.Generating.{IsPlayed, ToldPlayed, played_text, verdict_of};

use crate::Status;
use crate::playing::{is_sound, play_lines, serve};
use hx_bytes::{Bytes, Failed, OutOfMemory};
use itoa::Buffer;
use mem_disk::MemImage;
use sector_disk::{Rig, tell_whole};
use std::alloc::Global;

/// Of each file that has so many bytes or more, the last ones spell a number.
const DIGITS: u64 = 8;

/// What the lines were answered, and what the volume holds behind them.
#[derive(Clone, Copy, Debug, PartialEq, Eq)]
pub struct Played {
    /// How many lines were done.
    pub done: u64,
    /// How many were refused.
    pub refused: u64,
    /// The folders, but for the root.
    pub folders: u64,
    /// The names of files.
    pub names: u64,
    /// The files.
    pub files: u64,
    /// Their bytes.
    pub bytes: u64,
    /// The sum of the numbers that the last eight bytes of each file spell; 0 where they spell none.
    pub sum: u64,
    /// Whether a check found the volume sound.
    pub clean: bool,
}

/// What the volume holds, as in `Played`.
#[derive(Clone, Copy)]
struct Held {
    folders: u64,
    names: u64,
    files: u64,
    bytes: u64,
    sum: u64,
}

/// A file of the volume: its CNID, its size, and a path of its.
#[derive(Drop)]
struct File {
    id: u64,
    size: u64,
    path: String,
}

/// What a walk found: the paths of folders, and those of names of files.
#[derive(Drop)]
struct Found {
    folders: Vec<String>,
    names: Vec<String>,
}

/// Plays so many lines of the stream of a seed on a volume of 65,536 sectors in memory, and tells on one line what was answered and what
/// the volume holds: `gen SEED COUNT ok A no B folders C names D files E bytes F sum G clean`. The disk of `rig` is left alone.
///
/// The numbers of done and refused lines are those of runs of the stream's lines from an empty volume. A volume that was played on is sound, so that
/// `unsound`, which would stand for one that isn't, and the status for it, are never told.
pub fn generate<R: Rig>(alloc: Global, rig: &mut R, seed: u64, count: u64) -> Status
    ensures told { IsTrue (R.state rig.old).tells → result ≡ Status.Done → ToldPlayed seed count (R.state rig.old) (R.state rig.new) }
    ensures sound { result ≢ Status.Refused }
    ensures kinds { (result ≡ Status.Done) ⊎ ((result ≡ Status.Sink) ⊎ (result ≡ Status.Memory)) }
    ensures unwritten { (R.state rig.new).candidates ≡ (R.state rig.old).candidates }
    ensures barriers { (R.state rig.new).barriers ≡ (R.state rig.old).barriers }
    ensures sink { result ≡ Status.Sink → Rose (R.state rig.old).sink_faults (R.state rig.new).sink_faults }
    ensures same { SameDisk (R.state rig.old) (R.state rig.new) }
{
    let Ok(played) = play(alloc, seed, count) else {
        return Status::Memory;
    };
    let Ok(text) = line_of(alloc, seed, count, &played) else {
        return Status::Memory;
    };
    match tell_whole(rig, text.as_slice()) {
        Ok(()) => verdict_of(&played),
        Err(Failed) => Status::Sink,
    }
}

// The status of a stream that was played.
fn verdict_of(played: &Played) -> Status
    ensures { result ≡ verdict_of played.now }
{
    if played.clean {
        Status::Done
    } else {
        Status::Refused
    }
}

// The line that tells what was played.
fn line_of(alloc: Global, seed: u64, count: u64, played: &Played) -> Result<Bytes, OutOfMemory>
    ensures { IfOk result (λ line. line ≡ played_text seed count played.now) }
{
    let mut text = Vec::new(alloc);
    push_counted(&mut text, b"gen", seed)?;
    push_counted(&mut text, b"", count)?;
    push_counted(&mut text, b" ok", played.done)?;
    push_counted(&mut text, b" no", played.refused)?;
    push_counted(&mut text, b" folders", played.folders)?;
    push_counted(&mut text, b" names", played.names)?;
    push_counted(&mut text, b" files", played.files)?;
    push_counted(&mut text, b" bytes", played.bytes)?;
    push_counted(&mut text, b" sum", played.sum)?;
    if played.clean {
        text.extend_from_slice(b" clean\n")?;
    } else {
        text.extend_from_slice(b" unsound\n")?;
    }
    Ok(Bytes::from_vec(text))
}

// Appends a number behind the word of what it counts.
fn push_counted(text: &mut Vec<u8>, word: &[u8], number: u64) -> Result<(), OutOfMemory>
    ensures { OnOk result (text.new.items ≡ text.old.items ++ (word.now ++ field number)) }
{
    let mut buffer = Buffer::new();
    text.extend_from_slice(word)?;
    text.extend_from_slice(b" ")?;
    text.extend_from_slice(buffer.format(number).as_bytes())?;
    Ok(())
}

// Plays the lines, and looks at what the volume holds behind them.
fn play(alloc: Global, seed: u64, count: u64) -> Result<Played, OutOfMemory>
    ensures { IfOk result (IsPlayed seed count) }
{
    let mut stage = play_lines(alloc, seed, count)?;
    let clean = is_sound(alloc, &stage.image)?;
    let held = look(alloc, &mut stage.image)?;
    Ok(Played {
        done: stage.done,
        refused: stage.refused,
        folders: held.folders,
        names: held.names,
        files: held.files,
        bytes: held.bytes,
        sum: held.sum,
        clean,
    })
}

// Serves these lines on a volume, and gives their replies. A reply that memory was missing says nothing of the volume, so there are none then.
fn answers(alloc: Global, image: &mut MemImage, lines: &[u8]) -> Result<String, OutOfMemory> {
    let told = serve(alloc, image, lines)?;
    let Ok(told) = str::from_utf8(told.as_slice()) else {
        return Ok(String::new(alloc));
    };
    for reply in told.lines() {
        if reply == "no OutOfMemory" {
            return Err(OutOfMemory);
        }
    }
    Ok(told.to_string(alloc)?)
}

// Looks at what the volume holds. The stream makes folders in the root alone, so the names of files stand in the root and in these.
fn look(alloc: Global, image: &mut MemImage) -> Result<Held, OutOfMemory> {
    let mut found = Found {
        folders: Vec::new(alloc),
        names: Vec::new(alloc),
    };
    let root = answers(alloc, image, b"ls /\n")?;
    for reply in root.lines() {
        found.add_entries(alloc, "", reply)?;
    }
    let inside = answers(
        alloc,
        image,
        lines_of(alloc, "ls", &found.folders)?.as_slice(),
    )?;
    let mut deeper = Found {
        folders: Vec::new(alloc),
        names: Vec::new(alloc),
    };
    for (folder, reply) in found.folders.iter().zip(inside.lines()) {
        deeper.add_entries(alloc, folder.as_str(), reply)?;
    }
    found.names.append(&mut deeper.names)?;
    let mut held = Held {
        folders: (found.folders.len() as u64).saturating_add(deeper.folders.len() as u64),
        names: found.names.len() as u64,
        files: 0,
        bytes: 0,
        sum: 0,
    };
    let told = answers(
        alloc,
        image,
        lines_of(alloc, "stat", &found.names)?.as_slice(),
    )?;
    let files = files_told(alloc, found.names, told.as_str())?;
    for file in files.iter() {
        held.files = held.files.saturating_add(1);
        held.bytes = held.bytes.saturating_add(file.size);
    }
    let values = answers(alloc, image, reads_of(alloc, files.as_slice())?.as_slice())?;
    for reply in values.lines() {
        held.sum = held.sum.saturating_add(number_told(reply));
    }
    Ok(held)
}

impl Found {
    // Adds what a reply to `ls` lists of the folder with this path, which is empty for the root.
    fn add_entries(&mut self, alloc: Global, folder: &str, reply: &str) -> Result<(), OutOfMemory> {
        for name in reply.split(' ').skip(2) {
            match name.strip_suffix('/') {
                Some(name) => self.folders.push(path_to(alloc, folder, name)?)?,
                None => self.names.push(path_to(alloc, folder, name)?)?,
            }
        }
        Ok(())
    }
}

// The path to a name in a folder.
fn path_to(alloc: Global, folder: &str, name: &str) -> Result<String, OutOfMemory> {
    let mut path = String::new(alloc);
    path.push_str(folder)?;
    path.push('/')?;
    path.push_str(name)?;
    Ok(path)
}

// A line for each path: the word, and the path.
fn lines_of(alloc: Global, word: &str, paths: &[String]) -> Result<Vec<u8>, OutOfMemory> {
    let mut lines = Vec::new(alloc);
    for path in paths {
        lines.extend_from_slice(word.as_bytes())?;
        lines.push(b' ')?;
        lines.extend_from_slice(path.as_str().as_bytes())?;
        lines.push(b'\n')?;
    }
    Ok(lines)
}

// The files that these names stand for, each once, by the replies to `stat`.
fn files_told(alloc: Global, names: Vec<String>, replies: &str) -> Result<Vec<File>, OutOfMemory> {
    let mut files: Vec<File> = Vec::new(alloc);
    for (path, reply) in names.into_iter().zip(replies.lines()) {
        let mut words = reply.split(' ').skip(2);
        let id = number_of(words.next());
        let size = number_of(words.next());
        if !files.iter().any(|file| file.id == id) {
            files.push(File { id, size, path })?;
        }
    }
    Ok(files)
}

// A line for each file, that reads its last eight bytes.
fn reads_of(alloc: Global, files: &[File]) -> Result<Vec<u8>, OutOfMemory> {
    let mut lines = Vec::new(alloc);
    let mut buffer = Buffer::new();
    for file in files {
        lines.extend_from_slice(b"read ")?;
        lines.extend_from_slice(file.path.as_str().as_bytes())?;
        lines.push(b' ')?;
        lines.extend_from_slice(buffer.format(file.size.saturating_sub(DIGITS)).as_bytes())?;
        lines.extend_from_slice(b" 8\n")?;
    }
    Ok(lines)
}

// The number that the value of a reply spells in decimal, or 0.
fn number_told(reply: &str) -> u64 {
    match reply.strip_prefix("ok =") {
        Some(value) => number_of(Some(value)),
        None => 0,
    }
}

// The number that a word spells in decimal, or 0.
fn number_of(word: Option<&str>) -> u64 {
    match word {
        Some(word) => match word.parse::<u64>() {
            Ok(number) => number,
            Err(_) => 0,
        },
        None => 0,
    }
}
