//! What commands that move a name or give another one change, for watchers.
ghost use Rattle.std.specs.Prelude.{◌≡◌, false, Err, Ok, IsTrue, IfOk};
ghost use Rattle.hfs_language.specs.Written.{FitsPath};
ghost use Rattle.hfs_language.specs.declared.refusal.Refusal.TheVariants as refusal;
ghost use Rattle.hfs_language.specs.declared.reply.ChangeKind.TheVariants as change;
ghost use Rattle.hfs_model.specs.Step.{Place, is_private_path};
ghost use Rattle.hfs_model.specs.declared.plain.PlainEntry.{PlainEntry};
ghost use Rattle.volume_runs.specs.Told.{of_moved, of_pair};
ghost use Rattle.hfs_volume.specs.TreeOf.{tree_of};
ghost use Rattle.volume_base.specs.Frame.{Looked, Serves};
ghost use Rattle.volume_base.specs.Linking.{MayLink};
ghost use Rattle.volume_base.specs.Making.{path_to};
ghost use Rattle.volume_base.specs.Moving.{MayMove, to_free};

use crate::refusing::is_exists;
use crate::volume::Volume;
use crate::watching::one_change;
use hfs_language::{ChangeKind, Changes, Path};
use hfs_volume::sound_has_plain_tree;
use hx_bytes::{Trouble, Units};
use sector_disk::SectorSpace;
use std::alloc::Global;

impl Volume {
    /// What it changes to give what a path stands for a name under another path.
    fn change_way<P: SectorSpace>(
        &mut self,
        alloc: Global,
        space: &mut P,
        line: u64,
        from: &Path,
        to: &Path,
        above: &[Units],
        old: &Units,
        under: &[Units],
        name: &Units,
    ) -> Result<Changes, Trouble>
        requires serves { Serves self.old (P.SectorView.space space.old) }
        requires from_fits { FitsPath from.now }
        requires to_fits { FitsPath to.now }
        requires split { from.now ≡ path_to above.now old.now }
        requires goal_split { to.now ≡ path_to under.now name.now }
        ensures told { IsTrue (P.SectorView.space space.old).tells → is_private_path from.now ≡ false → is_private_path to.now ≡ false → (pair : PlainEntry × Place) → MayMove (tree_of (P.SectorView.space space.old).content) from.now to.now pair
            → IfOk result (λ changes. changes ≡ of_moved line (Ok pair)) }
        ensures looked { Looked P.SectorView.space P.SectorView.follows self.old self.new space.old space.new result }
        ensures serves { Serves self.new (P.SectorView.space space.new) }
    {
        sound_has_plain_tree();
        match self.route(alloc, space, from.as_slice(), above, under, name)? {
            Ok(way) => Ok(one_change(alloc, line, ChangeKind::Moved, way.id, way.folder, name)?),
            Err(why) => {
                if is_exists(why) {
                    return self.change_over(alloc, space, line, from, to, under, name);
                }
                Ok(Changes::new(alloc))
            }
        }
    }

    /// What it changes to give a file the name of another: nothing where both are one.
    fn change_over<P: SectorSpace>(
        &mut self,
        alloc: Global,
        space: &mut P,
        line: u64,
        from: &Path,
        to: &Path,
        under: &[Units],
        name: &Units,
    ) -> Result<Changes, Trouble>
        requires serves { Serves self.old (P.SectorView.space space.old) }
        requires from_fits { FitsPath from.now }
        requires to_fits { FitsPath to.now }
        requires goal_split { to.now ≡ path_to under.now name.now }
        requires taken { IsTrue (P.SectorView.space space.old).tells → is_private_path from.now ≡ false → is_private_path to.now ≡ false → to_free (tree_of (P.SectorView.space space.old).content) from.now to.now ≡ Err refusal.Exists }
        ensures told { IsTrue (P.SectorView.space space.old).tells → is_private_path from.now ≡ false → is_private_path to.now ≡ false → (pair : PlainEntry × Place) → MayMove (tree_of (P.SectorView.space space.old).content) from.now to.now pair
            → IfOk result (λ changes. changes ≡ of_moved line (Ok pair)) }
        ensures looked { Looked P.SectorView.space P.SectorView.follows self.old self.new space.old space.new result }
        ensures serves { Serves self.new (P.SectorView.space space.new) }
    {
        sound_has_plain_tree();
        let Ok(moved) = self.facts(alloc, space, from)? else {
            return Ok(Changes::new(alloc));
        };
        let Ok(other) = self.standing(alloc, space, to.as_slice(), under)? else {
            return Ok(Changes::new(alloc));
        };
        if other.id == moved.id {
            return Ok(Changes::new(alloc));
        }
        Ok(one_change(alloc, line, ChangeKind::Moved, moved.id, other.parent, name)?)
    }

    /// What `mv` changes: what the first path stands for is at the place that the second one says. It is read before the command
    /// is done. `Memory` comes where memory is wanting, `Disk` where a read failed.
    pub fn change_moved<P: SectorSpace>(
        &mut self,
        alloc: Global,
        space: &mut P,
        line: u64,
        from: &Path,
        to: &Path,
    ) -> Result<Changes, Trouble>
        requires serves { Serves self.old (P.SectorView.space space.old) }
        requires from_fits { FitsPath from.now }
        requires to_fits { FitsPath to.now }
        // Where it may be moved there, it is what watchers are told of it.
        ensures told { IsTrue (P.SectorView.space space.old).tells → is_private_path from.now ≡ false → is_private_path to.now ≡ false → (pair : PlainEntry × Place) → MayMove (tree_of (P.SectorView.space space.old).content) from.now to.now pair
            → IfOk result (λ changes. changes ≡ of_moved line (Ok pair)) }
        ensures looked { Looked P.SectorView.space P.SectorView.follows self.old self.new space.old space.new result }
        ensures serves { Serves self.new (P.SectorView.space space.new) }
    {
        match from.as_slice().split_last() {
            Some((old, above)) => match to.as_slice().split_last() {
                Some((name, under)) => {
                    self.change_way(alloc, space, line, from, to, above, old, under, name)
                }
                None => Ok(Changes::new(alloc)),
            },
            None => Ok(Changes::new(alloc)),
        }
    }

    /// What it changes to give the file that a path stands for another name under another path.
    fn change_name<P: SectorSpace>(
        &mut self,
        alloc: Global,
        space: &mut P,
        line: u64,
        from: &Path,
        to: &Path,
        above: &[Units],
        old: &Units,
        under: &[Units],
        name: &Units,
    ) -> Result<Changes, Trouble>
        requires serves { Serves self.old (P.SectorView.space space.old) }
        requires from_fits { FitsPath from.now }
        requires to_fits { FitsPath to.now }
        requires split { from.now ≡ path_to above.now old.now }
        requires goal_split { to.now ≡ path_to under.now name.now }
        ensures told { IsTrue (P.SectorView.space space.old).tells → is_private_path from.now ≡ false → is_private_path to.now ≡ false → (pair : PlainEntry × Place) → MayLink (tree_of (P.SectorView.space space.old).content) from.now to.now pair
            → IfOk result (λ changes. changes ≡ of_pair line change.Linked (Ok pair)) }
        ensures looked { Looked P.SectorView.space P.SectorView.follows self.old self.new space.old space.new result }
        ensures serves { Serves self.new (P.SectorView.space space.new) }
    {
        sound_has_plain_tree();
        match self.route(alloc, space, from.as_slice(), above, under, name)? {
            Ok(way) => Ok(one_change(alloc, line, ChangeKind::Linked, way.id, way.folder, name)?),
            Err(_why) => Err(Trouble::Memory),
        }
    }

    /// What `ln` changes: the file that the first path stands for has a name at the place that the second one says. It is read before
    /// the command is done. `Memory` comes where memory is wanting, and may come where there is no such file or place; `Disk` where a
    /// read failed.
    pub fn change_linked<P: SectorSpace>(
        &mut self,
        alloc: Global,
        space: &mut P,
        line: u64,
        from: &Path,
        to: &Path,
    ) -> Result<Changes, Trouble>
        requires serves { Serves self.old (P.SectorView.space space.old) }
        requires from_fits { FitsPath from.now }
        requires to_fits { FitsPath to.now }
        // Where it may have a name there, it is what watchers are told of it.
        ensures told { IsTrue (P.SectorView.space space.old).tells → is_private_path from.now ≡ false → is_private_path to.now ≡ false → (pair : PlainEntry × Place) → MayLink (tree_of (P.SectorView.space space.old).content) from.now to.now pair
            → IfOk result (λ changes. changes ≡ of_pair line change.Linked (Ok pair)) }
        ensures looked { Looked P.SectorView.space P.SectorView.follows self.old self.new space.old space.new result }
        ensures serves { Serves self.new (P.SectorView.space space.new) }
    {
        match from.as_slice().split_last() {
            Some((old, above)) => match to.as_slice().split_last() {
                Some((name, under)) => {
                    self.change_name(alloc, space, line, from, to, above, old, under, name)
                }
                None => Ok(Changes::new(alloc)),
            },
            None => Ok(Changes::new(alloc)),
        }
    }
}
