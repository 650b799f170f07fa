//! The verdict of a mount on a volume.
ghost use Rattle.std.specs.Prelude.{◌≡◌, IfOk, IsErrOf, IsTrue, map, true};
ghost use Rattle.btree_file.specs.Frame.{ReadsSpace};
ghost use Rattle.sector_disk.specs.Cause.{Rose};
ghost use Rattle.volume_header.specs.Refusal.{is_volume_size};
ghost use Rattle.served_volume.specs.Verdicts.{IsJudged, unsound};
ghost use Rattle.fsck_core.specs.Wants.{as_found};

use crate::checker::VolumeChecker;
use crate::folding::folds_case;
use fsck_list::Findings;
use hfs_serving::{Checker, Verdict};
use hx_bytes::Trouble;
use sector_disk::SectorView;
use std::alloc::Global;

/// The verdict on a volume that isn't sound.
fn unsound(folds: bool) -> Verdict
    ensures { result ≡ unsound folds }
{
    if folds {
        Verdict::CaseFolding
    } else {
        Verdict::Unsound
    }
}

impl VolumeChecker {
    /// Keeps what was found of a volume, and judges it: it isn't sound.
    fn keep_found<W: SectorView>(
        &mut self,
        alloc: Global,
        view: &mut W,
        found: Findings,
    ) -> Result<Verdict, Trouble>
        requires size { is_volume_size (W.space view.old).sectors ≡ true }
        ensures verdict { IsTrue (W.space view.old).tells → IfOk result (IsJudged (W.space view.old).content) }
        ensures found { self.new.found ≡ found }
        ensures reads { ReadsSpace (W.space view.old) (W.space view.new) }
        ensures below { W.follows view.old view.new }
        ensures disk { IsErrOf result Trouble.Disk → Rose (W.space view.old).faults (W.space view.new).faults }
    {
        self.found = found;
        let folds = folds_case(alloc, view)?;
        Ok(unsound(folds))
    }
}

impl Checker for VolumeChecker {
    ghost findings = { λ checker. map as_found checker.found };

    fn check<W: SectorView>(&mut self, alloc: Global, view: &mut W) -> Result<Verdict, Trouble> {
        match fsck_core::check(alloc, view) {
            Ok(fsck_core::Verdict::Clean(_summary)) => {
                self.found = Findings::new(alloc);
                Ok(Verdict::Sound)
            }
            Ok(fsck_core::Verdict::Findings(found)) => self.keep_found(alloc, view, found),
            Err(trouble) => Err(trouble),
        }
    }
}
