//! Changes are told to a list of watchers.
ghost use Rattle.std.specs.Prelude.{◌≡◌, ◌++◌, ◌∷◌, ◌⊎◌, [], true, false};
ghost use Rattle.std.specs.List.{AllByRecursion};
ghost use Rattle.watchers.specs.Told.{AreTold};

use crate::{Keep, Watcher};
use hfs_language::{Change, Changes};

/// Tells each change to each watcher, in the order of the list. One that leaves is gone at once, and the rest keep their
/// order. It takes no memory.
pub fn tell_all<W: Watcher>(watchers: &mut Vec<W>, changes: &Changes)
    ensures told { AllByRecursion (λ w. W.leaves w ≡ false) watchers.old.items → AreTold W.told W.leaves changes.now watchers.old.items watchers.new.items }
{
    for change in changes.as_slice() {
        tell_each(watchers, change);
    }
}

/// Tells one change to each watcher.
fn tell_each<W: Watcher>(watchers: &mut Vec<W>, change: &Change)
    ensures { AreTold W.told W.leaves (change.now ∷ []) watchers.old.items watchers.new.items }
{
    let mut at = 0;
    while at < watchers.len() {
        if has_left(&mut watchers[at], change) {
            watchers.remove(at);
        } else {
            at += 1;
        }
    }
}

/// Tells one watcher, and says whether it leaves.
pub(crate) fn has_left<W: Watcher>(watcher: &mut W, change: &Change) -> bool
    ensures stays { result ≡ false → W.told watcher.new ≡ W.told watcher.old ++ change.now ∷ [] }
    ensures unsure { (W.told watcher.new ≡ W.told watcher.old ++ change.now ∷ []) ⊎ (W.told watcher.new ≡ W.told watcher.old) }
    ensures leaves { result ≡ W.leaves watcher.new }
{
    match watcher.tell(change) {
        Keep::Leave => true,
        Keep::Stay => false,
    }
}
