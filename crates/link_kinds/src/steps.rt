//! A walk goes on to the next name that it looks at.
ghost use Rattle.std.specs.Prelude.{◌≡◌, ◌≢◌, ◌≤◌, ◌+◌, ◌*◌, true, false, ◌++◌, ℕ, List, [], length, reverse, IfOk, if◌then◌else◌};
ghost use Rattle.hfs_model.specs.declared.kinds.Sight.{Sight};
ghost use Rattle.hfs_model.specs.Targets.{is_from_root};
ghost use Rattle.link_kinds.specs.Resolves.{at_link, by_sight, ends, go_on, reach, resolve};
ghost use Rattle.link_kinds.specs.Walks.{asks_by, asks_left, leads, leads_to};

use crate::kinds::{Folder, KindRefusal};
use crate::lists::{in_front, take_last};
use crate::walk::{MOST_STEPS, Next, Walk, at_end};
use crate::way::{is_looked_at, names, turn};
use hfs_model::Sight;
use hx_bytes::{OutOfMemory, Units};
use link_text::{is_from_root, read_target};
use std::alloc::Global;

/// Goes on behind a name, under which this stands.
pub(crate) fn seen(
    alloc: Global,
    more: u32,
    way: Vec<Folder>,
    left: Vec<Units>,
    name: Units,
    found: Sight,
) -> Result<Walk, OutOfMemory>
    ensures leads { IfOk result (λ walk. (look : ℕ → List ℕ → Sight) → leads_to look walk ≡ go_on look more (by_sight found (reverse way.items) name (reverse left.items) (λ further. reach look further (reverse left.items)))) }
    ensures fewer { IfOk result (λ walk. asks_left walk ≤ more * 1024 + length left.items) }
{
    match found {
        Sight::Absent => Ok(at_end(alloc, more, way, left, Next::No(KindRefusal::NotFound))),
        Sight::Folder(id) => {
            let mut way = way;
            way.push(Folder { name, id })?;
            let walk = go_on(alloc, more, way, left)?;
            Ok(walk)
        }
        Sight::File => {
            let walk = at_file(alloc, more, way, left, name)?;
            Ok(walk)
        }
        Sight::Link(target) => {
            let walk = at_link(alloc, more, way, left, target.as_slice())?;
            Ok(walk)
        }
    }
}

/// A file ends a walk, and isn't a folder of it.
fn at_file(
    alloc: Global,
    more: u32,
    way: Vec<Folder>,
    left: Vec<Units>,
    name: Units,
) -> Result<Walk, OutOfMemory>
    ensures leads { IfOk result (λ walk. (look : ℕ → List ℕ → Sight) → leads_to look walk ≡ go_on look more (ends (reverse way.items) name (reverse left.items))) }
    ensures fewer { IfOk result (λ walk. asks_left walk ≤ more * 1024 + length left.items) }
{
    if is_some(&left) {
        return Ok(at_end(alloc, more, way, left, Next::No(KindRefusal::NotFolder)));
    }
    let mut path = names(alloc, &way)?;
    path.push(name)?;
    Ok(at_end(alloc, more, way, left, Next::Done(path)))
}

/// Whether something is left.
fn is_some(left: &Vec<Units>) -> bool
    ensures some { result ≡ true → left.now.items ≢ [] }
    ensures none { result ≡ false → left.now.items ≡ [] }
{
    !left.is_empty()
}

/// Goes on along a link's target, and then along what is left.
fn at_link(
    alloc: Global,
    more: u32,
    way: Vec<Folder>,
    left: Vec<Units>,
    target: &[u8],
) -> Result<Walk, OutOfMemory>
    ensures leads { IfOk result (λ walk. (look : ℕ → List ℕ → Sight) → leads_to look walk ≡ go_on look more (at_link (reverse way.items) target.now (reverse left.items))) }
    ensures fewer { IfOk result (λ walk. asks_left walk ≤ more * 1024 + length left.items) }
{
    if more == 0 {
        return Ok(at_end(
            alloc,
            more,
            way,
            left,
            Next::No(KindRefusal::TooManySteps(MOST_STEPS)),
        ));
    }
    match read_target(alloc, target)? {
        Some(components) => {
            let way = begin(way, target);
            let left = in_front(components, left)?;
            let walk = go_on(alloc, more - 1, way, left)?;
            Ok(walk)
        }
        None => Ok(at_end(alloc, more, way, left, Next::No(KindRefusal::BadTarget))),
    }
}

/// Where the components of a target are walked from: the root, or the link's folder.
fn begin(way: Vec<Folder>, target: &[u8]) -> Vec<Folder>
    ensures { reverse result.items ≡ (if is_from_root target.now then [] else reverse way.items) }
{
    let mut way = way;
    if is_from_root(target) {
        way.clear();
    }
    way
}

/// Goes on along the components that are left, to the next name that is looked at.
pub(crate) fn go_on(
    alloc: Global,
    more: u32,
    way: Vec<Folder>,
    left: Vec<Units>,
) -> Result<Walk, OutOfMemory>
    ensures leads { IfOk result (λ walk. (look : ℕ → List ℕ → Sight) → leads_to look walk ≡ resolve look more (reverse way.items) (reverse left.items)) }
    ensures fewer { IfOk result (λ walk. asks_left walk ≤ more * 1024 + length left.items) }
{
    let mut way = way;
    let mut left = left;
    let next = advance(alloc, &mut way, &mut left)?;
    Ok(at_end(alloc, more, way, left, next))
}

/// Goes along components that lead nowhere or up, and gives the first other one.
fn advance(alloc: Global, way: &mut Vec<Folder>, left: &mut Vec<Units>) -> Result<Next, OutOfMemory>
    ensures leads { IfOk result (λ next. (look : ℕ → List ℕ → Sight) (more : ℕ) → leads look more (reverse way.new.items) (reverse left.new.items) next ≡ resolve look more (reverse way.old.items) (reverse left.old.items)) }
    ensures fewer { IfOk result (λ next. (more : ℕ) → asks_by more (length left.new.items) next ≤ more * 1024 + length left.old.items) }
{
    while let Some(name) = take_last(left) {
        if is_looked_at(&name) {
            return Ok(Next::Look(name));
        }
        turn(way, &name);
    }
    Ok(Next::Done(names(alloc, way)?))
}
