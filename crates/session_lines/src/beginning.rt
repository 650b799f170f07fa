//! Where sessions may begin.
ghost use Rattle.std.specs.Prelude.{◌≡◌, ◌<◌, ◌^◌, ℕ, List, false, map, reverse};
ghost use Rattle.jnl_format.specs.Recovery.{Content};
ghost use Rattle.hfs_volume.specs.Findings.{HasBytes};
ghost use Rattle.hfs_volume.specs.Sound.{IsSound};
ghost use Rattle.hfs_volume.specs.TreeOf.{tree_of};
ghost use Rattle.open_files.specs.Keeping.{is_taken, release, releases};
ghost use Rattle.session_lines.specs.Turns.{MayBegin};

use hfs_volume::sound_content_has_tree;

/// Sessions may begin on the tree of a sound content whose keeping folder is their own, with these files left of an earlier run, the last one first.
pub fn sound_trees_may_begin()
    ensures few { (start : Content) → HasBytes start → (tree_of start).next_id < 2 ^ 32 }
    ensures begin { (start : Content) (files : List ℕ) → IsSound start → HasBytes start → is_taken (tree_of start) ≡ false → releases (tree_of start) ≡ map release (reverse files) → MayBegin (tree_of start) files }
{
    sound_content_has_tree();
}
