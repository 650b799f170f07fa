//! A path is followed through symbolic links.
ghost use Rattle.std.specs.Prelude.{◌≡◌, ◌<◌, ℕ, List, [], reverse, IfOk};
ghost use Rattle.hfs_model.specs.declared.kinds.Sight.{Sight};
ghost use Rattle.link_kinds.specs.declared.walk.Next.TheVariants as asked;
ghost use Rattle.link_kinds.specs.Resolves.{most_steps, resolve};
ghost use Rattle.link_kinds.specs.Walks.{Asks, Sees, asks_left, leads_to};

use crate::kinds::{Ask, Folder, KindRefusal};
use crate::lists::reversed;
use crate::steps::{go_on, seen};
use crate::way::last_id;
use hfs_language::Path;
use hfs_model::Sight;
use hx_bytes::{OutOfMemory, Units};
use std::alloc::Global;
use std::marker::Model;

/// The most links that are followed.
pub(crate) const MOST_STEPS: u32 = 16;

/// A path that is followed, component by component.
#[derive(Drop)]
pub struct Walk {
    alloc: Global,
    more: u32,
    way: Vec<Folder>,
    // The next one stands last.
    left: Vec<Units>,
    next: Next,
}

impl Model for Walk {
    ghost use Rattle.std.specs.Prelude.{reverse};
    ghost use Rattle.link_kinds.specs.Walks.{Walking};

    ghost Value = { Walking };

    ghost view = { λ walk. record { more = walk.more; way = reverse walk.way.items; left = reverse walk.left.items; next = walk.next } };
}

/// What a walk does next.
#[derive(Drop)]
pub enum Next {
    /// It looks at this name, where its way has come to.
    Look(Units),
    /// It has come to its end.
    Done(Path),
    /// It leads nowhere.
    No(KindRefusal),
}

impl Walk {
    /// A walk along a path, from the root.
    pub fn new(alloc: Global, path: &Path) -> Result<Walk, OutOfMemory>
        ensures { IfOk result (λ walk. (look : ℕ → List ℕ → Sight) → leads_to look walk ≡ resolve look most_steps [] path.now) }
    {
        let left = reversed(alloc, path.as_slice())?;
        let walk = from_root(alloc, left)?;
        Ok(walk)
    }

    /// What is asked next, or what came of it.
    pub fn ask(&self) -> Ask<'_>
        ensures { Asks self.now result }
    {
        match &self.next {
            Next::Look(name) => Ask::Look {
                parent: last_id(&self.way),
                name,
            },
            Next::Done(path) => Ask::Done(path),
            Next::No(why) => Ask::No(*why),
        }
    }

    /// Goes on behind the name that it asked for, under which this stands. One that has come to its end stays there.
    pub fn tell(self, found: Sight) -> Result<Walk, OutOfMemory>
        ensures leads { IfOk result (λ walk. (look : ℕ → List ℕ → Sight) → Sees look self found → leads_to look walk ≡ leads_to look self) }
        ensures fewer { (name : List ℕ) → self.next ≡ asked.Look name → IfOk result (λ walk. asks_left walk < asks_left self) }
    {
        let Walk {
            alloc,
            more,
            way,
            left,
            next,
        } = self;
        match next {
            Next::Look(name) => {
                let walk = seen(alloc, more, way, left, name, found)?;
                Ok(walk)
            }
            Next::Done(path) => Ok(Walk {
                alloc,
                more,
                way,
                left,
                next: Next::Done(path),
            }),
            Next::No(why) => Ok(Walk {
                alloc,
                more,
                way,
                left,
                next: Next::No(why),
            }),
        }
    }
}

/// A walk along these components, the next of which stands last, from the root.
fn from_root(alloc: Global, left: Vec<Units>) -> Result<Walk, OutOfMemory>
    ensures { IfOk result (λ walk. (look : ℕ → List ℕ → Sight) → leads_to look walk ≡ resolve look most_steps [] (reverse left.items)) }
{
    let way = Vec::new(alloc);
    let walk = go_on(alloc, MOST_STEPS, way, left)?;
    Ok(walk)
}

/// A walk that has come to its end.
pub(crate) fn at_end(
    alloc: Global,
    more: u32,
    way: Vec<Folder>,
    left: Vec<Units>,
    next: Next,
) -> Walk
    ensures { result ≡ record { more = more; way = reverse way.items; left = reverse left.items; next = next } }
{
    Walk {
        alloc,
        more,
        way,
        left,
        next,
    }
}
