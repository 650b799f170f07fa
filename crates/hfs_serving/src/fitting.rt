//! A command that a line spells is such as a line can have: nothing of it is tested.
ghost use Rattle.hx_bytes.specs.Field.{AreBytes};
ghost use Rattle.name_text.specs.Laws.{AreUnits};
ghost use Rattle.hfs_language.specs.Written.{FitsCommand, FitsPath, IsName};
ghost use Rattle.hfs_serving.specs.Parts.{HasLength, HasNames, HasParts};

use hfs_language::Command;
use hx_bytes::Units;

/// The units of a name are numbers of sixteen bits.
fn look_at_units(name: &[u16])
    ensures { AreUnits name.now }
{}

/// Bytes are numbers of eight bits.
fn look_at_bytes(value: &[u8])
    ensures { AreBytes value.now }
{}

/// A name of an attribute's length is a name of an attribute.
fn look_at_name(name: &[u16])
    ensures { HasLength 127 name.now → IsName 127 name.now }
{
    look_at_units(name);
}

/// A path whose names have their lengths is a path.
pub fn look_at_path(path: &[Units])
    ensures { HasNames path.now → FitsPath path.now }
{
    let mut at = path.len();
    while at > 0 {
        look_at_units(path[at - 1].as_slice());
        at -= 1;
    }
}

/// A command whose names have their lengths, and whose numbers are below their limits, is such as a line can have.
pub fn look_at_command(command: &Command)
    ensures { HasParts command.now → FitsCommand command.now }
{
    match command {
        Command::Mkdir(path) => look_at_path(path.as_slice()),
        Command::Create(path) => look_at_path(path.as_slice()),
        Command::Rm(path) => look_at_path(path.as_slice()),
        Command::Rmdir(path) => look_at_path(path.as_slice()),
        Command::Mv(from, to) => {
            look_at_path(from.as_slice());
            look_at_path(to.as_slice());
        }
        Command::Ln(from, to) => {
            look_at_path(from.as_slice());
            look_at_path(to.as_slice());
        }
        Command::Write { path, from, value } => {
            look_at_path(path.as_slice());
            look_at_bytes(value.as_slice());
        }
        Command::Read { path, from, length } => look_at_path(path.as_slice()),
        Command::Trunc { path, size } => look_at_path(path.as_slice()),
        Command::Ls(path) => look_at_path(path.as_slice()),
        Command::Stat(path) => look_at_path(path.as_slice()),
        Command::Chmod { path, mode } => look_at_path(path.as_slice()),
        Command::SetAttr { path, name, value } => {
            look_at_path(path.as_slice());
            look_at_name(name.as_slice());
            look_at_bytes(value.as_slice());
        }
        Command::GetAttr { path, name } => {
            look_at_path(path.as_slice());
            look_at_name(name.as_slice());
        }
        Command::DelAttr { path, name } => {
            look_at_path(path.as_slice());
            look_at_name(name.as_slice());
        }
        Command::LsAttr(path) => look_at_path(path.as_slice()),
        Command::At(_) => {}
        Command::Df => {}
        Command::Sync => {}
    }
}
