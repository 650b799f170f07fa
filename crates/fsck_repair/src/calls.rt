//! The repair of a volume: the sectors in which it differs, how many they are, and putting them.
ghost use Rattle.std.specs.Prelude.{◌≡◌, ◌↔◌, ◌<◌, ◌≤◌, ℕ, length, true, All, Contains, IsTrue, IfOk, OnErr, IsErrOf};
ghost use Rattle.hx_bytes.specs.declared.faults.Trouble.TheVariants.{Disk};
ghost use Rattle.sector_disk.specs.Cause.{Rose};
ghost use Rattle.sector_disk.specs.Clock.{TimePasses};
ghost use Rattle.sector_disk.specs.Lists.{Content};
ghost use Rattle.sector_disk.specs.Space.{SameSpace, LeavesDurable};
ghost use Rattle.volume_header.specs.Refusal.{is_volume_size};
ghost use Rattle.btree_file.specs.Frame.{ReadsSpace};
ghost use Rattle.hfs_volume.specs.Findings.{HasBytes};
ghost use Rattle.volume_repair.specs.Differing.{Differs, differing};
ghost use Rattle.fsck_repair.specs.Overlay.{overlaid, places_of, ChangesOnce};
ghost use Rattle.volume_repair.specs.Repair.{IsRepair};

use crate::all::all_changes;
use crate::counts::count_volume;
use crate::mend::Mend;
use crate::noting::put_in_order;
use crate::putting::put_changes;
use hx_bytes::Trouble;
use sector_disk::{SectorSpace, SectorView};
use std::alloc::Global;

impl Mend {
    /// The sectors in which the repair of a content differs from it. Nothing is written.
    pub fn new<V: SectorView>(alloc: Global, view: &mut V) -> Result<Mend, Trouble>
        requires size { is_volume_size (V.space view.old).sectors ≡ true }
        // Through them the repair is seen.
        ensures repair { IsTrue (V.space view.old).tells → HasBytes (V.space view.old).content → IfOk result (λ mend. IsRepair (V.space view.old).content (overlaid mend.changes.items (V.space view.old).content)) }
        // There are as many as differ.
        ensures differ { IsTrue (V.space view.old).tells → HasBytes (V.space view.old).content → IfOk result (λ mend. length mend.changes.items ≡ differing (V.space view.old).content (overlaid mend.changes.items (V.space view.old).content)) }
        // Each of them differs.
        ensures each { IsTrue (V.space view.old).tells → HasBytes (V.space view.old).content
            → IfOk result (λ mend. (at : ℕ) → Contains (places_of mend.changes.items) at → Differs (V.space view.old).content (overlaid mend.changes.items (V.space view.old).content) at) }
        ensures bytes { IsTrue (V.space view.old).tells → HasBytes (V.space view.old).content → IfOk result (λ mend. HasBytes (overlaid mend.changes.items (V.space view.old).content)) }
        ensures once { IfOk result (λ mend. ChangesOnce mend.changes.items) }
        ensures inside { IfOk result (λ mend. All (λ at. at < (V.space view.old).sectors) (places_of mend.changes.items)) }
        ensures reads { ReadsSpace (V.space view.old) (V.space view.new) }
        ensures below { V.follows view.old view.new }
        ensures disk { IsErrOf result Disk → Rose (V.space view.old).faults (V.space view.new).faults }
    {
        let Some(counts) = count_volume(alloc, view)? else {
            return Ok(Mend {
                changes: Vec::new(alloc),
            });
        };
        let changes = all_changes(alloc, view, &counts)?;
        let changes = put_in_order(alloc, view.sectors(), changes)?;
        Ok(Mend { changes })
    }
}

/// The number of sectors in which the repair of a content differs from it. Nothing is written.
pub fn repair_size<V: SectorView>(alloc: Global, view: &mut V) -> Result<u64, Trouble>
    requires size { is_volume_size (V.space view.old).sectors ≡ true }
    ensures count { IsTrue (V.space view.old).tells → HasBytes (V.space view.old).content → IfOk result (λ n. (other : Content) → IsRepair (V.space view.old).content other → n ≡ differing (V.space view.old).content other) }
    ensures reads { ReadsSpace (V.space view.old) (V.space view.new) }
    ensures below { V.follows view.old view.new }
    ensures disk { IsErrOf result Disk → Rose (V.space view.old).faults (V.space view.new).faults }
{
    let mend = Mend::new(alloc, view)?;
    Ok(mend.changes.len() as u64)
}

/// Puts the repair of a content into its space, and answers the number of sectors put. All is read before anything is put: where it gives
/// up, nothing was put.
pub fn repair<P: SectorSpace>(alloc: Global, space: &mut P, sectors: u64) -> Result<u64, Trouble>
    requires size { is_volume_size (P.SectorView.space space.old).sectors ≡ true }
    requires bytes { IsTrue (P.SectorView.space space.old).tells → HasBytes (P.SectorView.space space.old).content }
    // No sector of the journal differs, as where the repair is sound.
    requires open { IsTrue (P.SectorView.space space.old).tells → (other : Content) (at : ℕ) → IsRepair (P.SectorView.space space.old).content other → Differs (P.SectorView.space space.old).content other at → (P.SectorView.space space.old).closed at → ⊥ }
    requires enough { IsTrue (P.SectorView.space space.old).tells → (other : Content) → IsRepair (P.SectorView.space space.old).content other → differing (P.SectorView.space space.old).content other ≤ sectors }
    requires room { sectors ≤ (P.SectorView.space space.old).spare }
    ensures repair { IsTrue (P.SectorView.space space.old).tells → HasBytes (P.SectorView.space space.old).content → IfOk result (λ n. IsRepair (P.SectorView.space space.old).content (P.SectorView.space space.new).content) }
    ensures count { IsTrue (P.SectorView.space space.old).tells → HasBytes (P.SectorView.space space.old).content → IfOk result (λ n. n ≡ differing (P.SectorView.space space.old).content (P.SectorView.space space.new).content) }
    ensures few { IfOk result (λ n. n ≤ sectors) }
    ensures nothing { IsTrue (P.SectorView.space space.old).tells → OnErr result ((P.SectorView.space space.new).content ≡ (P.SectorView.space space.old).content) }
    ensures durable { IsTrue (P.SectorView.space space.old).tells → (P.SectorView.space space.new).durable ≡ (P.SectorView.space space.old).durable }
    ensures spilled { IsTrue (P.SectorView.space space.old).tells → (at : ℕ) → (P.SectorView.space space.new).spilled at ↔ (P.SectorView.space space.old).spilled at }
    ensures closed { IsTrue (P.SectorView.space space.old).tells → (at : ℕ) → (P.SectorView.space space.new).closed at ↔ (P.SectorView.space space.old).closed at }
    ensures time { IsTrue (P.SectorView.space space.old).tells → TimePasses (P.SectorView.space space.old).clock (P.SectorView.space space.new).clock (LeavesDurable (P.SectorView.space space.new)) }
    ensures same { SameSpace (P.SectorView.space space.old) (P.SectorView.space space.new) }
    ensures below { P.SectorView.follows space.old space.new }
    ensures disk { IsErrOf result Disk → Rose (P.SectorView.space space.old).faults (P.SectorView.space space.new).faults }
{
    let mend = Mend::new(alloc, space)?;
    let count = mend.changes.len() as u64;
    if count > sectors {
        return Err(Trouble::from(space.fail()));
    }
    put_changes(space, &mend);
    Ok(count)
}
