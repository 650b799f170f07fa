//! Names that a volume keeps for itself.
ghost use Rattle.std.specs.Prelude.{◌≡◌, ◌∷◌, codes};
ghost use Rattle.hfs_model.specs.Step.{private_name, is_private_name, is_private_path, is_private};

use hfs_language::{Command, Path};
use hx_bytes::Units;

/// `.journal`
const JOURNAL: [u16; 8] = [46, 106, 111, 117, 114, 110, 97, 108];

/// `.journal_info_block`
const JOURNAL_INFO: [u16; 19] = [
    46, 106, 111, 117, 114, 110, 97, 108, 95, 105, 110, 102, 111, 95, 98, 108, 111, 99, 107,
];

/// Four zeros and `HFS+ Private Data`: the folder of the files that have several names.
const PRIVATE_FOLDER: [u16; 21] = [
    0, 0, 0, 0, 72, 70, 83, 43, 32, 80, 114, 105, 118, 97, 116, 101, 32, 68, 97, 116, 97,
];

fn is_private_name(name: &Units) -> bool
    ensures { result ≡ is_private_name name.now }
{
    let name = name.as_slice();
    name == JOURNAL.as_slice()
        || name == JOURNAL_INFO.as_slice()
        || name == PRIVATE_FOLDER.as_slice()
}

fn is_private_path(path: &Path) -> bool
    ensures { result ≡ is_private_path path.now }
{
    match path.get(0) {
        Some(name) => is_private_name(name),
        None => false,
    }
}

/// Whether one of a command's paths begins with such a name.
pub(crate) fn is_private(command: &Command) -> bool
    ensures { result ≡ is_private command.now }
{
    match command {
        Command::Mkdir(path)
        | Command::Create(path)
        | Command::Rm(path)
        | Command::Rmdir(path)
        | Command::Write { path, .. }
        | Command::Read { path, .. }
        | Command::Trunc { path, .. }
        | Command::Ls(path)
        | Command::Stat(path)
        | Command::Chmod { path, .. }
        | Command::SetAttr { path, .. }
        | Command::GetAttr { path, .. }
        | Command::DelAttr { path, .. }
        | Command::LsAttr(path) => is_private_path(path),
        Command::Mv(from, to) | Command::Ln(from, to) => {
            is_private_path(from) || is_private_path(to)
        }
        Command::At(_) | Command::Df | Command::Sync => false,
    }
}
