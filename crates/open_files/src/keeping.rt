//! The keeping folder's names, and the commands that save and release a file.
ghost use Rattle.std.specs.Prelude.{◌≡◌, decimal, IfOk};
ghost use Rattle.std.specs.Str.{bytes_eq};
ghost use Rattle.open_files.specs.Keeping.{is_keeping_path, is_own_keeper, kept_path, keeping_name, keeping_path, names_keeping, release, saves_by};

use crate::copy_path;
use hfs_language::{Command, Path};
use hfs_model::ascii;
use hx_bytes::{Listed, OutOfMemory, Units};
use itoa::Buffer;
use std::alloc::Global;

/// The folder's name in the root: a zero, and then `HFSX Open Files`.
const KEEPING_NAME: [u16; 16] = [
    0, 72, 70, 83, 88, 32, 79, 112, 101, 110, 32, 70, 105, 108, 101, 115,
];

/// The path of the folder in which files that have no other name are kept.
pub fn keeping_path(alloc: Global) -> Result<Path, OutOfMemory>
    ensures { IfOk result (λ path. path ≡ keeping_path) }
{
    let mut path = Path::new(alloc);
    path.push(keeping_name(alloc)?)?;
    Ok(path)
}

/// Where the file with this id is kept: under its id in decimal digits.
pub fn kept_path(alloc: Global, id: u32) -> Result<Path, OutOfMemory>
    ensures { IfOk result (λ path. path ≡ kept_path id) }
{
    let mut path = keeping_path(alloc)?;
    path.push(id_name(alloc, id)?)?;
    Ok(path)
}

/// The command that releases a file.
pub fn release(alloc: Global, id: u32) -> Result<Command, OutOfMemory>
    ensures { IfOk result (λ command. command ≡ release id) }
{
    Ok(Command::Rm(kept_path(alloc, id)?))
}

/// The commands that save a file which this path names: `there` says whether the keeping folder is there, and `kept` whether it has an entry
/// for the file.
pub fn saves(
    alloc: Global,
    there: bool,
    kept: bool,
    path: &Path,
    id: u32,
) -> Result<Listed<Command>, OutOfMemory>
    ensures { IfOk result (λ commands. commands ≡ saves_by there kept path.now id) }
{
    let mut commands = Listed::new(alloc);
    if !there {
        commands.push(Command::Mkdir(keeping_path(alloc)?))?;
        commands.push(Command::Ln(copy_path(alloc, path)?, kept_path(alloc, id)?))?;
        return Ok(commands);
    }
    if !kept {
        commands.push(Command::Ln(copy_path(alloc, path)?, kept_path(alloc, id)?))?;
    }
    Ok(commands)
}

/// Whether the path is the keeping folder's, or one of something in it.
pub fn is_keeping_path(path: &Path) -> bool
    ensures { result ≡ is_keeping_path path.now }
{
    match path.get(0) {
        Some(name) => is_keeping_name(name),
        None => false,
    }
}

/// Whether the name is the keeping folder's, where it stands in the root.
pub fn is_keeping_name(name: &Units) -> bool
    ensures { result ≡ bytes_eq name.now keeping_name }
{
    name.as_slice() == KEEPING_NAME.as_slice()
}

/// Whether a command names the keeping folder, or something in it.
pub fn names_keeping(command: &Command) -> bool
    ensures { result ≡ names_keeping command.now }
{
    match command {
        Command::Mkdir(path)
        | Command::Create(path)
        | Command::Rm(path)
        | Command::Rmdir(path)
        | Command::Ls(path)
        | Command::Stat(path)
        | Command::LsAttr(path) => is_keeping_path(path),
        Command::Mv(one, other) | Command::Ln(one, other) => {
            is_keeping_path(one) || is_keeping_path(other)
        }
        Command::Write { path, .. }
        | Command::Read { path, .. }
        | Command::Trunc { path, .. }
        | Command::Chmod { path, .. }
        | Command::SetAttr { path, .. }
        | Command::GetAttr { path, .. }
        | Command::DelAttr { path, .. } => is_keeping_path(path),
        Command::At(_) | Command::Df | Command::Sync => false,
    }
}

/// Whether an entry of the keeping folder is one that sessions make: a file's, under the file's id.
pub fn is_own_keeper(
    alloc: Global,
    folder: bool,
    name: &Units,
    id: u32,
) -> Result<bool, OutOfMemory>
    ensures { IfOk result (λ answer. answer ≡ is_own_keeper folder name.now id) }
{
    let own = id_name(alloc, id)?;
    Ok(!folder && name.as_slice() == own.as_slice())
}

/// The folder's name.
fn keeping_name(alloc: Global) -> Result<Units, OutOfMemory>
    ensures { IfOk result (λ name. name ≡ keeping_name) }
{
    Ok(Units::from_vec(Vec::from_slice(alloc, KEEPING_NAME.as_slice())?))
}

/// The decimal digits of an id, as a name.
fn id_name(alloc: Global, id: u32) -> Result<Units, OutOfMemory>
    ensures { IfOk result (λ name. name ≡ decimal id) }
{
    let mut buffer = Buffer::new();
    ascii(alloc, buffer.format(id))
}
