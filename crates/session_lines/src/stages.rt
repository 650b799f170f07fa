//! How far a line is: what it asks of the volume next, and what that says.
ghost use Rattle.std.specs.Prelude.{◌≡◌, Some, IfOk, IfSome, IsTrue};
ghost use Rattle.std.specs.Result.{IsErr};
ghost use Rattle.hfs_language.specs.Written.{FitsCommand, FitsPath};
ghost use Rattle.hfs_language.specs.declared.command.Command.{Command};
ghost use Rattle.hfs_language.specs.declared.command.Command.TheVariants as command;
ghost use Rattle.open_files.specs.Keeping.{keeping_path, kept_path, release};
ghost use Rattle.session_lines.specs.declared.stages.Stage.TheVariants as stage;
ghost use Rattle.session_lines.specs.Stages.{FitsStage, closed, command_at, found_to_move, found_to_open, found_to_replace, found_to_take, found_to_tell, heard_at, is_skip, listed, looked_for_folder, looked_for_kept, not_kept, one_less, takes, told_without, unless_refused, unless_skipped, without_keeping};

use hfs_language::{Command, Facts, ListedName, Listing, Path, Refusal, Reply};
use hx_bytes::{Listed, OutOfMemory};
use open_files::{Table, copy_path, is_keeping_name, keeping_path, kept_path, release};
use std::alloc::Global;
use std::mem::replace;

/// Where a line stands. Each stage but the last four asks for a command of which nothing is told.
#[derive(Drop)]
pub enum Stage {
    /// What this path names is to be opened.
    Opening(Path),
    /// A folder is to be listed.
    Listing(Path),
    /// Facts are to be told of what this path names.
    Stating(Path),
    /// Of the root, without the keeping folder.
    StatingRoot(Facts),
    /// Of a file, without its entry in the keeping folder.
    StatingFile(Facts),
    /// A name is to be taken away.
    Taking(Path),
    /// By a move of what stands at `from`.
    Moving { from: Path, to: Path },
    /// By a move of this folder or file.
    Replacing { moved: u32, to: Path },
    /// The name is that of an open file: does the keeping folder have it?
    Losing { path: Path, facts: Facts },
    /// It is its only name: is the keeping folder there?
    Saving { path: Path, id: u32 },
    /// The keeping folder is to be made.
    Making { path: Path, id: u32 },
    /// The file is to get a name in it.
    Linking { path: Path, id: u32 },
    /// No handle names this file any more.
    Closing(u32),
    /// Its name in the keeping folder is to go.
    Releasing(u32),
    /// The line's own command is to be done.
    Does,
    /// The line is told this.
    Says(Reply),
    /// This file is to be opened.
    Opens(u32),
    /// Nothing is left to be done.
    Rests,
}

impl Stage {
    /// The command that is done next, if it asks for one. `OutOfMemory` comes only where it asks for one.
    pub fn asks(&self, alloc: Global) -> Result<Option<Command>, OutOfMemory>
        requires fits { FitsStage self.now }
        ensures made { IfOk result (λ asked. asked ≡ command_at self.now) }
        ensures fits { IfOk result (λ asked. IfSome asked FitsCommand) }
        ensures some { IsErr result → (command : Command) × (command_at self.now ≡ Some command) }
    {
        match self {
            Stage::Opening(path) => stat(alloc, path),
            Stage::Stating(path) => stat(alloc, path),
            Stage::Taking(path) => stat(alloc, path),
            Stage::Moving { from, .. } => stat(alloc, from),
            Stage::Replacing { to, .. } => stat(alloc, to),
            Stage::Listing(path) => list(alloc, path),
            Stage::StatingRoot(_) => stat_keeping(alloc),
            Stage::Saving { .. } => stat_keeping(alloc),
            Stage::StatingFile(facts) => stat_kept(alloc, facts.id),
            Stage::Losing { facts, .. } => stat_kept(alloc, facts.id),
            Stage::Closing(id) => stat_kept(alloc, *id),
            Stage::Making { .. } => make_keeping(alloc),
            Stage::Linking { path, id } => link(alloc, path, *id),
            Stage::Releasing(id) => release_kept(alloc, *id),
            Stage::Does => Ok(None),
            Stage::Says(_) => Ok(None),
            Stage::Opens(_) => Ok(None),
            Stage::Rests => Ok(None),
        }
    }

    /// Whether it asks for nothing, so that the line's own command comes next.
    pub fn is_last(&self) -> bool
        ensures { IsTrue result → self.now ≡ stage.Does }
    {
        match self {
            Stage::Does => true,
            _ => false,
        }
    }

    /// Goes where the line stands once its command has this reply. Which files are open is told by the table.
    pub fn hear(&mut self, table: &Table, reply: Reply)
        ensures heard { self.new ≡ heard_at table.now self.old reply }
        ensures fits { FitsStage self.old → FitsStage self.new }
    {
        let here = replace(self, Stage::Rests);
        *self = here.heard(table, reply);
    }

    fn heard(self, table: &Table, reply: Reply) -> Stage
        ensures { result ≡ heard_at table.now self reply }
    {
        match self {
            Stage::Opening(_) => found_to_open(reply),
            Stage::Listing(path) => Stage::Says(listed(&path, reply)),
            Stage::Stating(path) => found_to_tell(&path, reply),
            Stage::StatingRoot(facts) => Stage::Says(told_without(facts, reply)),
            Stage::StatingFile(facts) => Stage::Says(told_without(facts, reply)),
            Stage::Taking(path) => found_to_take(table, path, reply),
            Stage::Moving { to, .. } => found_to_move(to, reply),
            Stage::Replacing { moved, to } => found_to_replace(table, moved, to, reply),
            Stage::Losing { path, facts } => looked_for_kept(path, facts, reply),
            Stage::Saving { path, id } => looked_for_folder(path, id, reply),
            Stage::Making { path, id } => unless_refused(Stage::Linking { path, id }, reply),
            Stage::Linking { .. } => unless_refused(Stage::Does, reply),
            Stage::Closing(id) => closed(id, reply),
            Stage::Releasing(_) => Stage::Rests,
            other => other,
        }
    }
}

/// What a command comes to that is made, or for which memory is missing.
type Asked = Result<Option<Command>, OutOfMemory>;

fn stat(alloc: Global, path: &Path) -> Asked
    requires fits { FitsPath path.now }
    ensures fits { IfOk result (λ asked. IfSome asked FitsCommand) }
    ensures made { IfOk result (λ asked. asked ≡ Some (command.Stat path.now)) }
{
    Ok(Some(Command::Stat(copy_path(alloc, path)?)))
}

fn list(alloc: Global, path: &Path) -> Asked
    requires fits { FitsPath path.now }
    ensures fits { IfOk result (λ asked. IfSome asked FitsCommand) }
    ensures made { IfOk result (λ asked. asked ≡ Some (command.Ls path.now)) }
{
    Ok(Some(Command::Ls(copy_path(alloc, path)?)))
}

#[tactic(auto, using(crate::proofs::Fitting::keeping_fits, crate::proofs::Fitting::kept_fits))]
fn stat_keeping(alloc: Global) -> Asked
    ensures fits { IfOk result (λ asked. IfSome asked FitsCommand) }
    ensures made { IfOk result (λ asked. asked ≡ Some (command.Stat keeping_path)) }
{
    Ok(Some(Command::Stat(keeping_path(alloc)?)))
}

#[tactic(auto, using(crate::proofs::Fitting::keeping_fits, crate::proofs::Fitting::kept_fits))]
fn stat_kept(alloc: Global, id: u32) -> Asked
    ensures fits { IfOk result (λ asked. IfSome asked FitsCommand) }
    ensures made { IfOk result (λ asked. asked ≡ Some (command.Stat (kept_path id))) }
{
    Ok(Some(Command::Stat(kept_path(alloc, id)?)))
}

#[tactic(auto, using(crate::proofs::Fitting::keeping_fits, crate::proofs::Fitting::kept_fits))]
fn make_keeping(alloc: Global) -> Asked
    ensures fits { IfOk result (λ asked. IfSome asked FitsCommand) }
    ensures made { IfOk result (λ asked. asked ≡ Some (command.Mkdir keeping_path)) }
{
    Ok(Some(Command::Mkdir(keeping_path(alloc)?)))
}

#[tactic(auto, using(crate::proofs::Fitting::keeping_fits, crate::proofs::Fitting::kept_fits))]
fn link(alloc: Global, path: &Path, id: u32) -> Asked
    requires fits { FitsPath path.now }
    ensures fits { IfOk result (λ asked. IfSome asked FitsCommand) }
    ensures made { IfOk result (λ asked. asked ≡ Some (command.Ln path.now (kept_path id))) }
{
    let from = copy_path(alloc, path)?;
    Ok(Some(Command::Ln(from, kept_path(alloc, id)?)))
}

#[tactic(auto, using(crate::proofs::Fitting::keeping_fits, crate::proofs::Fitting::kept_fits))]
fn release_kept(alloc: Global, id: u32) -> Asked
    ensures fits { IfOk result (λ asked. IfSome asked FitsCommand) }
    ensures made { IfOk result (λ asked. asked ≡ Some (release id)) }
{
    Ok(Some(release(alloc, id)?))
}

/// Where a command of Save is refused, that is what the line is told.
fn unless_refused(next: Stage, reply: Reply) -> Stage
    ensures { result ≡ unless_refused next reply }
{
    match reply {
        Reply::No(why) => Stage::Says(Reply::No(why)),
        _ => next,
    }
}

/// Whether this says that memory was missing.
fn is_skip(why: Refusal) -> bool
    ensures { result ≡ is_skip why }
{
    match why {
        Refusal::OutOfMemory => true,
        _ => false,
    }
}

/// A line of which a look wasn't done is told why.
fn unless_skipped(why: Refusal, next: Stage) -> Stage
    ensures { result ≡ unless_skipped why next }
{
    if is_skip(why) {
        return Stage::Says(Reply::No(why));
    }
    next
}

fn found_to_open(reply: Reply) -> Stage
    ensures { result ≡ found_to_open reply }
{
    match reply {
        Reply::Facts(facts) => {
            if facts.folder {
                return Stage::Says(Reply::No(Refusal::IsFolder));
            }
            Stage::Opens(facts.id)
        }
        reply => Stage::Says(reply),
    }
}

/// A listing without the keeping folder, which stands in the root.
fn listed(path: &Path, reply: Reply) -> Reply
    ensures { result ≡ listed path.now reply }
{
    match reply {
        Reply::Listing(listing) => {
            if path.is_empty() {
                return Reply::Listing(without_keeping(listing));
            }
            Reply::Listing(listing)
        }
        reply => reply,
    }
}

fn without_keeping(listing: Listing) -> Listing
    ensures { result ≡ without_keeping listing }
{
    let mut names = listing.into_vec();
    names.retain(|listed| !is_keeping_name(&listed.name));
    Listed::from_vec(names)
}

fn found_to_tell(path: &Path, reply: Reply) -> Stage
    ensures { result ≡ found_to_tell path.now reply }
{
    match reply {
        Reply::Facts(facts) => {
            if !facts.folder {
                return Stage::StatingFile(facts);
            }
            if path.is_empty() {
                return Stage::StatingRoot(facts);
            }
            Stage::Says(Reply::Facts(facts))
        }
        reply => Stage::Says(reply),
    }
}

/// Facts without what the keeping folder adds, by whether that was found.
fn told_without(facts: Facts, reply: Reply) -> Reply
    ensures { result ≡ told_without facts reply }
{
    match reply {
        Reply::Facts(_) => Reply::Facts(one_less(facts)),
        Reply::No(why) => {
            if is_skip(why) {
                return Reply::No(why);
            }
            Reply::Facts(facts)
        }
        _ => Reply::Facts(facts),
    }
}

/// One entry fewer of a folder, and one name fewer of a file.
fn one_less(facts: Facts) -> Facts
    ensures { result ≡ one_less facts }
{
    let mut facts = facts;
    if facts.folder {
        facts.size = facts.size.saturating_sub(1);
    } else {
        facts.links = facts.links.saturating_sub(1);
    }
    facts
}

fn found_to_take(table: &Table, path: Path, reply: Reply) -> Stage
    ensures { result ≡ found_to_take table.now path reply }
{
    match reply {
        Reply::Facts(facts) => takes(table, path, facts),
        Reply::No(why) => unless_skipped(why, Stage::Does),
        _ => Stage::Does,
    }
}

/// A name is taken of what has these facts.
fn takes(table: &Table, path: Path, facts: Facts) -> Stage
    ensures { result ≡ takes table.now path facts }
{
    if !facts.folder && table.held(facts.id) {
        return Stage::Losing { path, facts };
    }
    Stage::Does
}

fn found_to_move(to: Path, reply: Reply) -> Stage
    ensures { result ≡ found_to_move to reply }
{
    match reply {
        Reply::Facts(facts) => {
            if facts.folder {
                return Stage::Does;
            }
            Stage::Replacing {
                moved: facts.id,
                to,
            }
        }
        Reply::No(why) => unless_skipped(why, Stage::Does),
        _ => Stage::Does,
    }
}

fn found_to_replace(table: &Table, moved: u32, to: Path, reply: Reply) -> Stage
    ensures { result ≡ found_to_replace table.now moved to reply }
{
    match reply {
        Reply::Facts(facts) => {
            if facts.id == moved {
                return Stage::Does;
            }
            takes(table, to, facts)
        }
        Reply::No(why) => unless_skipped(why, Stage::Does),
        _ => Stage::Does,
    }
}

/// A file that is kept loses no last name, and neither does one with other names.
fn looked_for_kept(path: Path, facts: Facts, reply: Reply) -> Stage
    ensures { result ≡ looked_for_kept path facts reply }
{
    match reply {
        Reply::No(why) => unless_skipped(why, not_kept(path, facts)),
        _ => Stage::Does,
    }
}

fn not_kept(path: Path, facts: Facts) -> Stage
    ensures { result ≡ not_kept path facts }
{
    if facts.links == 1 {
        return Stage::Saving { path, id: facts.id };
    }
    Stage::Does
}

fn looked_for_folder(path: Path, id: u32, reply: Reply) -> Stage
    ensures { result ≡ looked_for_folder path id reply }
{
    match reply {
        Reply::No(why) => unless_skipped(why, Stage::Making { path, id }),
        _ => Stage::Linking { path, id },
    }
}

/// A file whose only name is in the keeping folder is released.
fn closed(id: u32, reply: Reply) -> Stage
    ensures { result ≡ closed id reply }
{
    match reply {
        Reply::Facts(facts) => {
            if facts.links == 1 {
                return Stage::Releasing(id);
            }
            Stage::Rests
        }
        _ => Stage::Rests,
    }
}
