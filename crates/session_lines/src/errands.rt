//! What a line of a session comes to, by what it asks for and by the files that are open.
ghost use Rattle.std.specs.Prelude.{◌≡◌, ◌⊎◌, IfOk};
ghost use Rattle.hfs_language.specs.Written.{FitsCommand, FitsPath};
ghost use Rattle.hfs_model.specs.Kinds.{path_of_edit};
ghost use Rattle.hfs_serving.specs.Parts.{HasNames};
ghost use Rattle.link_kinds.specs.Lines.{kind_line_of};
ghost use Rattle.open_files.specs.Handles.{file_of};
ghost use Rattle.open_files.specs.Lines.{asks_of};
ghost use Rattle.session_lines.specs.Stages.{FitsStage};
ghost use Rattle.session_lines.specs.Errands.{FitsErrand, HasActParts, HasKindParts, IsErrandOf, IsKindErrandOf, act_errand, ahead_of, edit_errand, errand_for, kind_errand, kind_errand_for, open_errand, own_errand, plain_errand, read_errand, readlink_errand, refused};

use crate::stages::Stage;
use cmd_lang::LineFault;
use hfs_language::{Command, Path, Refusal, Reply};
use hfs_serving::{look_at_command, look_at_path};
use hx_bytes::OutOfMemory;
use line_source::Line;
use link_kinds::{KindCommand, KindEdit, is_kind_line, read_kind};
use open_files::{
    Act, SessionLine, SessionReply, Table, copy_path, is_keeping_path, names_keeping, read_session,
};
use std::alloc::Global;

/// The most bytes that one command reads.
const MOST_BYTES: u64 = 65_536;

/// What is to be done for a line.
#[derive(Drop)]
pub enum Errand {
    /// It is told this, and nothing else is done.
    Says(SessionReply),
    /// What the last of these stages says is told, in this session.
    Asks { session: u8, stage: Stage },
    /// The command is done behind these stages.
    Does { command: Command, stage: Stage },
    /// Bytes of an open file are read.
    Reads { id: u32, from: u64, length: u32 },
    /// A handle is closed.
    Closes { session: u8, handle: u32 },
    /// All handles of the session are closed.
    Ends { session: u8 },
    /// A symbolic link is made, or a resource fork is written or read.
    Edits(KindEdit),
    /// It is told where a link or a path leads.
    Looks(Look),
}

/// What a line looks for.
#[derive(Drop)]
pub enum Look {
    /// The target of the symbolic link at a path.
    Target(Path),
    /// Where a path leads that follows symbolic links.
    Follow(Path),
}

/// What is to be done for a line, where these files are open. Where memory is missing to read it, it is told so.
pub fn errand_of(alloc: Global, table: &Table, line: &Line) -> Errand
    ensures comes { IsErrandOf table.now line.now result ⊎ IsKindErrandOf line.now result }
    // Its command and its stages are such as lines have.
    ensures fits { FitsErrand result }
{
    match read_errand(alloc, table, line) {
        Ok(errand) => errand,
        Err(OutOfMemory) => refused(Refusal::OutOfMemory),
    }
}

fn read_errand(alloc: Global, table: &Table, line: &Line) -> Result<Errand, OutOfMemory>
    ensures fits { IfOk result FitsErrand }
    ensures comes { IfOk result (λ errand. IsErrandOf table.now line.now errand ⊎ IsKindErrandOf line.now errand) }
{
    let text = line.to_text(alloc)?;
    if is_kind_line(text.as_slice()) {
        return read_kind_errand(alloc, text.as_slice());
    }
    read_session_errand(alloc, table, text.as_slice())
}

/// Of a line of sessions.
fn read_session_errand(alloc: Global, table: &Table, text: &[u8]) -> Result<Errand, OutOfMemory>
    ensures fits { IfOk result FitsErrand }
    ensures comes { IfOk result (λ errand. errand ≡ errand_for table.now (asks_of text.now)) }
{
    match read_session(alloc, text) {
        Ok(asks) => errand_for(alloc, table, asks),
        Err(LineFault::No(why)) => Ok(refused(why)),
        Err(LineFault::Memory) => Err(OutOfMemory),
    }
}

/// Of a line on a symbolic link or a resource fork.
fn read_kind_errand(alloc: Global, text: &[u8]) -> Result<Errand, OutOfMemory>
    ensures fits { IfOk result FitsErrand }
    ensures comes { IfOk result (λ errand. errand ≡ kind_errand_for (kind_line_of text.now)) }
{
    match read_kind(alloc, text) {
        Ok(asks) => Ok(kind_errand(asks.command)),
        Err(LineFault::No(why)) => Ok(refused(why)),
        Err(LineFault::Memory) => Err(OutOfMemory),
    }
}

fn kind_errand(command: KindCommand) -> Errand
    requires parts { HasKindParts command }
    ensures fits { FitsErrand result }
    ensures comes { result ≡ kind_errand command }
{
    match command {
        KindCommand::Edit(edit) => edit_errand(edit),
        KindCommand::Readlink(path) => readlink_errand(path),
        KindCommand::Follow(path) => {
            look_at_path(path.as_slice());
            Errand::Looks(Look::Follow(path))
        }
    }
}

fn readlink_errand(path: Path) -> Errand
    requires parts { HasNames path }
    ensures fits { FitsErrand result }
    ensures comes { result ≡ readlink_errand path }
{
    look_at_path(path.as_slice());
    if is_keeping_path(&path) {
        return refused(Refusal::NotFound);
    }
    Errand::Looks(Look::Target(path))
}

fn edit_errand(edit: KindEdit) -> Errand
    requires parts { HasNames (path_of_edit edit) }
    ensures fits { FitsErrand result }
    ensures comes { result ≡ edit_errand edit }
{
    look_at_path(path_of(&edit).as_slice());
    if is_keeping_path(path_of(&edit)) {
        return refused(Refusal::Private);
    }
    Errand::Edits(edit)
}

/// The path that a command names.
fn path_of(edit: &KindEdit) -> &Path
    ensures { result.now ≡ path_of_edit edit.now }
{
    match edit {
        KindEdit::Symlink { path, .. } => path,
        KindEdit::ResourceWrite { path, .. } => path,
        KindEdit::ResourceRead { path, .. } => path,
    }
}

fn refused(why: Refusal) -> Errand
    ensures { result ≡ refused why }
{
    Errand::Says(SessionReply::Plain(Reply::No(why)))
}

fn errand_for(alloc: Global, table: &Table, asks: SessionLine) -> Result<Errand, OutOfMemory>
    requires parts { HasActParts asks.act }
    ensures fits { IfOk result FitsErrand }
    ensures comes { IfOk result (λ errand. errand ≡ act_errand table.now asks.session asks.act) }
{
    let session = asks.session;
    match asks.act {
        Act::Plain(command) => {
            look_at_command(&command);
            plain_errand(alloc, session, command)
        }
        Act::Open(path) => {
            look_at_path(path.as_slice());
            Ok(open_errand(session, path))
        }
        Act::HandleRead {
            handle,
            from,
            length,
        } => Ok(read_errand_of(table, session, handle, from, length)),
        Act::Close(handle) => Ok(match table.file(session, handle) {
            Some(_) => Errand::Closes { session, handle },
            None => Errand::Says(SessionReply::NoHandle(handle)),
        }),
        Act::End => Ok(Errand::Ends { session }),
    }
}

fn open_errand(session: u8, path: Path) -> Errand
    requires fits { FitsPath path }
    ensures fits { FitsErrand result }
    ensures comes { result ≡ open_errand session path }
{
    if is_keeping_path(&path) {
        return refused(Refusal::Private);
    }
    Errand::Asks {
        session,
        stage: Stage::Opening(path),
    }
}

fn read_errand_of(table: &Table, session: u8, handle: u32, from: u64, length: u64) -> Errand
    ensures fits { FitsErrand result }
    ensures comes { result ≡ read_errand handle from length (file_of table.now session handle) }
{
    match table.file(session, handle) {
        Some(id) => {
            if length > MOST_BYTES {
                return refused(Refusal::TooLarge);
            }
            Errand::Reads {
                id,
                from,
                length: length as u32,
            }
        }
        None => Errand::Says(SessionReply::NoHandle(handle)),
    }
}

/// Of a command of the plain language.
fn plain_errand(alloc: Global, session: u8, command: Command) -> Result<Errand, OutOfMemory>
    requires fits { FitsCommand command }
    ensures fits { IfOk result FitsErrand }
    ensures comes { IfOk result (λ errand. errand ≡ plain_errand session command) }
{
    if names_keeping(&command) {
        return Ok(refused(Refusal::Private));
    }
    own_errand(alloc, session, command)
}

fn own_errand(alloc: Global, session: u8, command: Command) -> Result<Errand, OutOfMemory>
    requires fits { FitsCommand command }
    ensures fits { IfOk result FitsErrand }
    ensures comes { IfOk result (λ errand. errand ≡ own_errand session command) }
{
    match command {
        Command::Ls(path) => Ok(Errand::Asks {
            session,
            stage: Stage::Listing(path),
        }),
        Command::Stat(path) => Ok(Errand::Asks {
            session,
            stage: Stage::Stating(path),
        }),
        command => {
            let stage = ahead_of(alloc, &command)?;
            Ok(Errand::Does { command, stage })
        }
    }
}

/// The stages ahead of a command's own.
fn ahead_of(alloc: Global, command: &Command) -> Result<Stage, OutOfMemory>
    requires fits { FitsCommand command.now }
    ensures fits { IfOk result FitsStage }
    ensures comes { IfOk result (λ stage. stage ≡ ahead_of command.now) }
{
    match command {
        Command::Rm(path) => Ok(Stage::Taking(copy_path(alloc, path)?)),
        Command::Mv(from, to) => {
            let from = copy_path(alloc, from)?;
            let to = copy_path(alloc, to)?;
            Ok(Stage::Moving { from, to })
        }
        _ => Ok(Stage::Does),
    }
}
