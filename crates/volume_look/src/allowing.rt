//! Which commands a look answers.
ghost use Rattle.std.specs.Prelude.{◌≡◌, IsTrue, true};
ghost use Rattle.name_text.specs.Laws.{AreUnits};
ghost use Rattle.hfs_language.specs.Written.{FitsCommand, FitsPath, IsName};
ghost use Rattle.hfs_model.specs.Step.{only_reads};
ghost use Rattle.volume_look.specs.Talk as spec;

use hfs_language::Command;
use hx_bytes::Units;

/// The most code units of a name of a file or folder, and of an attribute.
const MOST_UNITS: usize = 255;

const MOST_ATTRIBUTE_UNITS: usize = 127;

/// Whether a command only reads, and each of its names has a unit and not too many.
pub(crate) fn allows(command: &Command) -> bool
    ensures { result ≡ spec.allows command.now }
{
    match command {
        Command::Read { path, .. } => are_names(path.as_slice()),
        Command::Ls(path) => are_names(path.as_slice()),
        Command::Stat(path) => are_names(path.as_slice()),
        Command::LsAttr(path) => are_names(path.as_slice()),
        Command::GetAttr { path, name } => {
            are_names(path.as_slice()) && is_name(name.as_slice(), MOST_ATTRIBUTE_UNITS)
        }
        Command::Df => true,
        Command::Sync => true,
        _ => false,
    }
}

// Whether each name of a path has its length.
fn are_names(path: &[Units]) -> bool
    ensures { result ≡ spec.are_names path.now }
{
    path.iter().all(|name| is_name(name.as_slice(), MOST_UNITS))
}

// Whether a name has a unit, and at most so many.
fn is_name(name: &[u16], most: usize) -> bool
    ensures { result ≡ spec.is_name most name.now }
{
    !name.is_empty() && name.len() <= most
}

/// A command that is allowed is such as a line can have: nothing of it is tested.
pub(crate) fn look_at_command(command: &Command)
    ensures fits { IsTrue (spec.allows command.now) → FitsCommand command.now }
    ensures reads { IsTrue (spec.allows command.now) → only_reads command.now ≡ true }
{
    match command {
        Command::Read { path, from, length } => {
            let _from = *from;
            let _length = *length;
            look_at_path(path.as_slice());
        }
        Command::Ls(path) => look_at_path(path.as_slice()),
        Command::Stat(path) => look_at_path(path.as_slice()),
        Command::LsAttr(path) => look_at_path(path.as_slice()),
        Command::GetAttr { path, name } => {
            look_at_path(path.as_slice());
            look_at_units(name.as_slice());
        }
        _ => {}
    }
}

// A path whose names have their lengths is a path.
fn look_at_path(path: &[Units])
    ensures { IsTrue (spec.are_names path.now) → FitsPath path.now }
{
    let mut at = path.len();
    while at > 0 {
        look_at_units(path[at - 1].as_slice());
        at -= 1;
    }
}

// The units of a name are numbers of sixteen bits.
fn look_at_units(name: &[u16])
    ensures { AreUnits name.now }
{}
