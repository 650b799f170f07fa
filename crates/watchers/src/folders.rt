//! Where folders, and what is made in them, stand.
ghost use Rattle.std.specs.Prelude.{◌≡◌, ◌<◌, length, vec_len, vec_capacity};
ghost use Rattle.watchers.specs.Under.{after_change, is_known, is_within, moved, moved_one, parent_of, placed, without};

use hfs_language::{Change, ChangeKind};

/// A folder, or something that was made in one, and the folder that it stands in, by their ids.
#[derive(Clone, Copy, Debug, PartialEq, Eq)]
pub struct FolderAt {
    pub id: u32,
    pub parent: u32,
}

/// The folder that something stands in, as far as it is known.
fn parent_of(known: &[FolderAt], id: u32) -> Option<u32>
    ensures { result ≡ parent_of known.now id }
{
    match known.iter().find(|at| at.id == id) {
        Some(at) => Some(at.parent),
        None => None,
    }
}

/// Whether it is known where something stands.
fn is_known(known: &[FolderAt], id: u32) -> bool
    ensures { result ≡ is_known known.now id }
{
    known.iter().any(|at| at.id == id)
}

/// Whether a folder is this one, or lies below it.
pub(crate) fn is_within(known: &[FolderAt], top: u32, id: u32) -> bool
    ensures { result ≡ is_within (length known.now) known.now top id }
{
    let mut at = id;
    let mut left = known.len();
    while left > 0 {
        if at == top {
            return true;
        }
        match parent_of(known, at) {
            Some(parent) => at = parent,
            None => return false,
        }
        left -= 1;
    }
    at == top
}

/// The same in another folder, where it is the one that is moved.
fn moved_one(at: FolderAt, id: u32, parent: u32) -> FolderAt
    ensures { result ≡ moved_one id parent at }
{
    FolderAt {
        id: at.id,
        parent: if at.id == id { parent } else { at.parent },
    }
}

/// What stood somewhere stands in another folder.
fn moved(known: &mut [FolderAt], id: u32, parent: u32)
    ensures { known.new ≡ moved id parent known.old }
{
    for at in known.iter_mut() {
        *at = moved_one(*at, id, parent);
    }
}

/// What is made stands in its folder.
fn made(known: &mut Vec<FolderAt>, id: u32, parent: u32)
    requires { vec_len known.old < vec_capacity known.old }
    ensures { known.new.items ≡ placed id parent known.old.items }
{
    if is_known(known.as_slice(), id) {
        moved(known.as_mut_slice(), id, parent);
    } else {
        known.push_reserved(FolderAt { id, parent });
    }
}

/// What is gone stands nowhere.
fn gone(known: &mut Vec<FolderAt>, id: u32)
    ensures { known.new.items ≡ without id known.old.items }
{
    known.retain(|at| at.id != id);
}

/// Keeps what is known after a change. There is room for one item more.
pub(crate) fn note(known: &mut Vec<FolderAt>, change: &Change)
    requires { vec_len known.old < vec_capacity known.old }
    ensures { known.new.items ≡ after_change known.old.items change.now }
{
    match change.kind {
        ChangeKind::Made => made(known, change.id, change.parent),
        ChangeKind::Moved => moved(known.as_mut_slice(), change.id, change.parent),
        ChangeKind::Removed => gone(known, change.id),
        _ => {}
    }
}
