//! A path is followed through symbolic links.
ghost use Rattle.std.specs.Prelude.{◌≡◌, ◌≤◌, ℕ, List, Option, IsTrue, IfOk, false, length};
ghost use Rattle.jnl_format.specs.Recovery.{Content};
ghost use Rattle.hfs_language.specs.Written.{FitsPath};
ghost use Rattle.hfs_model.specs.Plain.{IsPlainTree};
ghost use Rattle.hfs_volume.specs.TreeOf.{tree_of};
ghost use Rattle.hfs_serving.specs.Faults.{Faults};
ghost use Rattle.hfs_serving.specs.Going.{SomeStands, Stands};
ghost use Rattle.link_kinds.specs.Resolves.{resolves};
ghost use Rattle.session_lines.specs.Lookings.{HasLooked, IsNearer, IsSeenUnder, LeadsOn, StepsOn, is_outside};

use hfs_language::Path;
use hfs_model::Sight;
use hfs_serving::{Ground, Volume};
use hx_bytes::{Trouble, Units};
use link_kinds::{Ask, KindRefusal, Walk};
use open_files::{copy_path, is_keeping_name};
use std::alloc::Global;

/// The root folder's id (TN1150, "Catalog Node ID").
const ROOT: u32 = 2;

/// The most units of a name (TN1150, "HFS Plus Names").
const MOST_UNITS: usize = 255;

/// Where a path leads that follows symbolic links: to the names of a folder or file from the root, or nowhere for this reason.
pub(crate) fn walk_along<V: Volume, G: Ground>(
    alloc: Global,
    volume: &mut V,
    base: &mut G,
    path: &Path,
) -> Result<Result<Path, KindRefusal>, Trouble>
    requires serves { (capacity : ℕ) × G.serves base.old capacity × (G.taken base.old ≤ capacity) }
    requires stands { IsTrue (G.space base.old).tells → SomeStands (V.knows volume.old (G.space base.old)) (G.space base.old) (G.outside base.old) }
    requires fits { FitsPath path.now }
    ensures goes { IsTrue (G.space base.old).tells → (capacity : ℕ) (committed now : Content) (shrunk : Option ℕ) → Stands (V.knows volume.old (G.space base.old) capacity) committed now shrunk (G.space base.old) (G.outside base.old)
        → HasLooked capacity (V.knows volume.new (G.space base.new) capacity) committed now shrunk (G.outside base.old) (G.space base.new) (G.outside base.new) }
    ensures leads { IsTrue (G.space base.old).tells → (capacity : ℕ) (committed now : Content) (shrunk : Option ℕ) → Stands (V.knows volume.old (G.space base.old) capacity) committed now shrunk (G.space base.old) (G.outside base.old)
        → IsPlainTree (tree_of now) → IfOk result (λ answer. answer ≡ resolves (tree_of now) path.now) }
    ensures still { (capacity : ℕ) → G.serves base.old capacity → G.taken base.old ≤ capacity → G.serves base.new capacity × (G.taken base.new ≤ capacity) }
    ensures tells { (G.space base.new).tells ≡ (G.space base.old).tells }
    ensures anchor { G.anchor base.new ≡ G.anchor base.old }
    ensures barriers { (G.space base.new).barriers ≡ (G.space base.old).barriers }
    ensures faults { Faults (G.failed base.old) (G.space base.old) (G.failed base.new) (G.space base.new) result }
{
    let mut walk = Walk::new(alloc, path)?;
    loop {
        match walk_once(alloc, volume, base, walk)? {
            Step::On(further) => walk = further,
            Step::End(answer) => return Ok(answer),
        }
    }
}

/// What a step of a walk comes to.
#[derive(Drop)]
enum Step {
    /// It goes on.
    On(Walk),
    /// It is at its end.
    End(Result<Path, KindRefusal>),
}

/// Looks at the name that a walk asks for, or takes its end.
fn walk_once<V: Volume, G: Ground>(
    alloc: Global,
    volume: &mut V,
    base: &mut G,
    walk: Walk,
) -> Result<Step, Trouble>
    requires serves { (capacity : ℕ) × G.serves base.old capacity × (G.taken base.old ≤ capacity) }
    requires stands { IsTrue (G.space base.old).tells → SomeStands (V.knows volume.old (G.space base.old)) (G.space base.old) (G.outside base.old) }
    ensures goes { IsTrue (G.space base.old).tells → (capacity : ℕ) (committed now : Content) (shrunk : Option ℕ) → Stands (V.knows volume.old (G.space base.old) capacity) committed now shrunk (G.space base.old) (G.outside base.old)
        → HasLooked capacity (V.knows volume.new (G.space base.new) capacity) committed now shrunk (G.outside base.old) (G.space base.new) (G.outside base.new) }
    ensures leads { IsTrue (G.space base.old).tells → (capacity : ℕ) (committed now : Content) (shrunk : Option ℕ) → Stands (V.knows volume.old (G.space base.old) capacity) committed now shrunk (G.space base.old) (G.outside base.old)
        → (path : List (List ℕ)) → IsPlainTree (tree_of now) → FitsPath path → LeadsOn (tree_of now) path walk → IfOk result (StepsOn (tree_of now) path) }
    ensures fewer { IfOk result (IsNearer walk) }
    ensures still { (capacity : ℕ) → G.serves base.old capacity → G.taken base.old ≤ capacity → G.serves base.new capacity × (G.taken base.new ≤ capacity) }
    ensures tells { (G.space base.new).tells ≡ (G.space base.old).tells }
    ensures anchor { G.anchor base.new ≡ G.anchor base.old }
    ensures barriers { (G.space base.new).barriers ≡ (G.space base.old).barriers }
    ensures faults { Faults (G.failed base.old) (G.space base.old) (G.failed base.new) (G.space base.new) result }
{
    let found = match walk.ask() {
        Ask::Look { parent, name } => look_at(volume, base, parent, name)?,
        Ask::Done(path) => return Ok(Step::End(Ok(copy_path(alloc, path)?))),
        Ask::No(why) => return Ok(Step::End(Err(why))),
    };
    let further = walk.tell(found)?;
    Ok(Step::On(further))
}

/// What users of sessions see under a name in a folder. What has the keeping folder's name counts as absent, and no name is longer than 255 units.
fn look_at<V: Volume, G: Ground>(
    volume: &mut V,
    base: &mut G,
    parent: u32,
    name: &Units,
) -> Result<Sight, Trouble>
    requires serves { (capacity : ℕ) × G.serves base.old capacity × (G.taken base.old ≤ capacity) }
    requires stands { IsTrue (G.space base.old).tells → SomeStands (V.knows volume.old (G.space base.old)) (G.space base.old) (G.outside base.old) }
    ensures goes { IsTrue (G.space base.old).tells → (capacity : ℕ) (committed now : Content) (shrunk : Option ℕ) → Stands (V.knows volume.old (G.space base.old) capacity) committed now shrunk (G.space base.old) (G.outside base.old)
        → HasLooked capacity (V.knows volume.new (G.space base.new) capacity) committed now shrunk (G.outside base.old) (G.space base.new) (G.outside base.new) }
    ensures sight { IsTrue (G.space base.old).tells → (capacity : ℕ) (committed now : Content) (shrunk : Option ℕ) → Stands (V.knows volume.old (G.space base.old) capacity) committed now shrunk (G.space base.old) (G.outside base.old)
        → IfOk result (IsSeenUnder (tree_of now) parent name.now) }
    ensures still { (capacity : ℕ) → G.serves base.old capacity → G.taken base.old ≤ capacity → G.serves base.new capacity × (G.taken base.new ≤ capacity) }
    ensures tells { (G.space base.new).tells ≡ (G.space base.old).tells }
    ensures anchor { G.anchor base.new ≡ G.anchor base.old }
    ensures barriers { (G.space base.new).barriers ≡ (G.space base.old).barriers }
    ensures faults { Faults (G.failed base.old) (G.space base.old) (G.failed base.new) (G.space base.new) result }
{
    if is_outside(parent, name) {
        return Ok(Sight::Absent);
    }
    volume.look_in(base, parent, name)
}

/// Whether the volume isn't asked for a name: it is the keeping folder's, or longer than a name may be.
fn is_outside(parent: u32, name: &Units) -> bool
    ensures value { result ≡ is_outside parent name.now }
    ensures short { result ≡ false → length name.now ≤ 255 }
{
    parent == ROOT && is_keeping_name(name) || name.len() > MOST_UNITS
}
