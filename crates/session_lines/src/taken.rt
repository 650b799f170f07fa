//! What the keeping folder holds before a run: files of an earlier run, or something that isn't the sessions' own.
ghost use Rattle.std.specs.Prelude.{◌≡◌, ◌<◌, ◌^◌, [], ℕ, false, drop, reverse, IfOk, MatchOption, None, Some};
ghost use Rattle.jnl_format.specs.Recovery.{Content};
ghost use Rattle.hfs_volume.specs.Sound.{IsSound};
ghost use Rattle.hfs_volume.specs.TreeOf.{tree_of};
ghost use Rattle.volume_look.specs.Talk.{Ends, HearsRight};
ghost use Rattle.session_lines.specs.Keepers.{FindsFiles, all_own, begun, entry_at, folder_kind, left_by, next_of, own_by, own_file, talk_of};

use hfs_language::{Command, Facts, Path, Reply};
use hfs_volume::sound_content_has_tree;
use hx_bytes::OutOfMemory;
use open_files::{copy_name, is_own_keeper, keeping_path};
use std::alloc::{AllocError, Global};
use volume_look::Asker;

/// A command, and the reply to it.
#[derive(Drop)]
pub struct Told {
    pub command: Command,
    pub reply: Reply,
}

/// Asks what the keeping folder holds: first what its name stands for, then the folder's entries, then what each of these is.
#[derive(Drop)]
pub struct Keepers {
    alloc: Global,
    /// What it heard so far.
    heard: Vec<Told>,
    /// It asked for one reply more.
    waiting: bool,
}

impl Keepers {
    /// Nothing was asked yet.
    pub fn new(alloc: Global) -> Keepers
        ensures heard { result.heard.items ≡ [] }
        ensures waiting { result.waiting ≡ false }
    {
        Keepers {
            alloc,
            heard: Vec::new(alloc),
            waiting: false,
        }
    }

    /// The files that the folder keeps, the last one first; none where it isn't the sessions' own.
    pub fn into_files(self) -> Result<Option<Vec<u32>>, OutOfMemory>
        ensures { (capacity : ℕ) (start : Content) → IsSound start → (tree_of start).next_id < 2 ^ 64 → Ends begun (talk_of self.heard.items self.waiting) → HearsRight capacity start begun (talk_of self.heard.items self.waiting)
            → IfOk result (λ found. MatchOption found (FindsFiles (tree_of start) None) (λ files. FindsFiles (tree_of start) (Some files.items))) }
    {
        sound_content_has_tree();
        files_left(self.alloc, self.heard.as_slice())
    }
}

impl Asker for Keepers {
    ghost state = { λ keepers. talk_of keepers.heard.items keepers.waiting };

    fn ask(&mut self) -> Result<Option<Command>, AllocError> {
        // (it waits for the reply to the last one)
        if self.waiting {
            return Err(AllocError);
        }
        match next_command(self.alloc, self.heard.as_slice()) {
            Ok(next) => {
                self.waiting = next.is_some();
                Ok(next)
            }
            Err(OutOfMemory) => Err(AllocError),
        }
    }

    fn hear(&mut self, command: Command, reply: Reply) -> Result<(), AllocError> {
        // (it asked for nothing)
        if !self.waiting {
            return Err(AllocError);
        }
        self.heard.push(Told { command, reply })?;
        self.waiting = false;
        Ok(())
    }
}

/// What is asked next behind these replies, if anything is.
fn next_command(alloc: Global, heard: &[Told]) -> Result<Option<Command>, OutOfMemory>
    ensures { IfOk result (λ next. next ≡ next_of heard.now) }
{
    match heard {
        [] => Ok(Some(Command::Stat(keeping_path(alloc)?))),
        [folder] => match folder_kind(&folder.reply) {
            Some(true) => Ok(Some(Command::Ls(keeping_path(alloc)?))),
            _ => Ok(None),
        },
        [_, entries, each @ ..] => entry_command(alloc, &entries.reply, each.len()),
    }
}

/// What is asked of this entry of the folder.
fn entry_command(alloc: Global, entries: &Reply, at: usize) -> Result<Option<Command>, OutOfMemory>
    ensures { IfOk result (λ next. next ≡ entry_at entries.now at) }
{
    match entries {
        Reply::Listing(entries) => match entries.get(at) {
            Some(entry) => {
                let mut path = keeping_path(alloc)?;
                path.push(copy_name(alloc, &entry.name)?)?;
                Ok(Some(Command::Stat(path)))
            }
            None => Ok(None),
        },
        _ => Ok(None),
    }
}

/// Whether it is a folder that the reply tells facts of.
fn folder_kind(reply: &Reply) -> Option<bool>
    ensures { result ≡ folder_kind reply.now }
{
    match reply {
        Reply::Facts(facts) => Some(facts.folder),
        _ => None,
    }
}

/// The files that these replies say are kept, the last one first; none where an entry isn't the sessions' own.
fn files_left(alloc: Global, heard: &[Told]) -> Result<Option<Vec<u32>>, OutOfMemory>
    ensures { IfOk result (λ found. MatchOption found (left_by heard.now ≡ None) (λ files. left_by heard.now ≡ Some (reverse files.items))) }
{
    match heard {
        [] => Ok(Some(Vec::new(alloc))),
        [folder, each @ ..] => match folder_kind(&folder.reply) {
            Some(true) => own_files(alloc, behind_entries(each)),
            Some(false) => Ok(None),
            None => Ok(Some(Vec::new(alloc))),
        },
    }
}

/// What was heard behind the list of entries.
fn behind_entries(heard: &[Told]) -> &[Told]
    ensures { result.now ≡ drop 1 heard.now }
{
    match heard {
        [_, each @ ..] => each,
        [] => heard,
    }
}

/// The files of entries that each are one as sessions make it, the last one first.
fn own_files(alloc: Global, each: &[Told]) -> Result<Option<Vec<u32>>, OutOfMemory>
    ensures { IfOk result (λ found. MatchOption found (all_own each.now ≡ None) (λ files. all_own each.now ≡ Some (reverse files.items))) }
{
    let mut files = Vec::new(alloc);
    for told in each {
        match own_file(alloc, told)? {
            Some(id) => files.push(id)?,
            None => return Ok(None),
        }
    }
    files.reverse();
    Ok(Some(files))
}

/// The file that an entry keeps, where it is one as sessions make it.
fn own_file(alloc: Global, told: &Told) -> Result<Option<u32>, OutOfMemory>
    ensures { IfOk result (λ file. file ≡ own_file told.now) }
{
    match &told.command {
        Command::Stat(path) => match &told.reply {
            Reply::Facts(facts) => own_entry(alloc, path, facts),
            _ => Ok(None),
        },
        _ => Ok(None),
    }
}

fn own_entry(alloc: Global, path: &Path, facts: &Facts) -> Result<Option<u32>, OutOfMemory>
    ensures { IfOk result (λ file. file ≡ own_by path.now facts.now) }
{
    match path.as_slice() {
        [_, name] => {
            if is_own_keeper(alloc, facts.folder, name, facts.id)? {
                Ok(Some(facts.id))
            } else {
                Ok(None)
            }
        }
        _ => Ok(None),
    }
}
