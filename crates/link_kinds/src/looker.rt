//! A path is followed to its end.
ghost use Rattle.std.specs.Prelude.{◌≡◌, ℕ, List, [], IsTrue, IfOk};
ghost use Rattle.link_kinds.specs.Lookers.{Looking, OnlyLooks, front_of, front_seen};
ghost use Rattle.hfs_model.specs.declared.plain.PlainTree.{PlainTree};
ghost use Rattle.link_kinds.specs.Resolves.{most_steps, resolve, resolves, sight_at};

use crate::kinds::{Ask, KindRefusal};
use crate::walk::Walk;
use hfs_language::Path;
use hfs_model::Sight;
use hx_bytes::{Trouble, Units};
use open_files::copy_path;
use std::alloc::Global;

/// Somebody who looks at names in folders.
pub trait Looker {
    /// All that a contract sees of it.
    ghost state: { Self → Looking };

    /// Tells what stands under a name in a folder: of a link its first 1,024 bytes.
    fn look(&mut self, parent: u32, name: &Units) -> Result<Sight, Trouble>
        ensures found { IsTrue (state self.old).tells → IfOk result (λ found. found ≡ front_of ((state self.old).sight parent name.now)) }
        ensures looks { OnlyLooks (state self.old) (state self.new) result };
}

/// Where a path leads from the root that follows symbolic links, by what a looker tells of names: to the names of a folder or file, none of
/// which is a link, or nowhere for this reason. At most 16 links are followed. A looker that sees a tree gets the definition's answer for it.
pub fn follow<L: Looker>(
    alloc: Global,
    path: &Path,
    looker: &mut L,
) -> Result<Result<Path, KindRefusal>, Trouble>
    ensures leads { IsTrue (L.state looker.old).tells → IfOk result (λ answer. answer ≡ resolve (L.state looker.old).sight most_steps [] path.now) }
    ensures tree { IsTrue (L.state looker.old).tells → (tree : PlainTree) → (L.state looker.old).sight ≡ sight_at tree → IfOk result (λ answer. answer ≡ resolves tree path.now) }
    ensures looks { OnlyLooks (L.state looker.old) (L.state looker.new) result }
{
    walk_along(alloc, path, looker)
}

/// Where a path leads, by the fronts of links.
fn walk_along<L: Looker>(
    alloc: Global,
    path: &Path,
    looker: &mut L,
) -> Result<Result<Path, KindRefusal>, Trouble>
    ensures leads { IsTrue (L.state looker.old).tells → IfOk result (λ answer. answer ≡ resolve (front_seen (L.state looker.old).sight) most_steps [] path.now) }
    ensures looks { OnlyLooks (L.state looker.old) (L.state looker.new) result }
{
    let mut walk = Walk::new(alloc, path)?;
    loop {
        let found = match walk.ask() {
            Ask::Look { parent, name } => looker.look(parent, name)?,
            Ask::Done(path) => return Ok(Ok(copy_path(alloc, path)?)),
            Ask::No(why) => return Ok(Err(why)),
        };
        walk = walk.tell(found)?;
    }
}
