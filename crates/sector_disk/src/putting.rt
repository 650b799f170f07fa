//! A list of sectors that are put into a space.
ghost use Rattle.std.specs.Prelude.{◌≡◌, ◌<◌, ◌≤◌, ◌∷◌, ℕ, List, [], IsTrue, IfSome, IfNone};
ghost use Rattle.std.specs.List.{All, Contains};
ghost use Rattle.sector_disk.specs.Lists.{sector};
ghost use Rattle.sector_disk.specs.Clock.{TimePasses};
ghost use Rattle.sector_disk.specs.Space.{SameSpace, LeavesDurable};
ghost use Rattle.sector_disk.specs.Putting.{unput, PutsThese, TakesRoomOf};

use crate::view::{SectorSpace, SectorView};
use hx_bytes::Sector;

/// Sectors that are to be put, told one after another: each with its number and its 512 bytes.
pub trait SectorsToPut {
    /// The numbers of the sectors that are still to come, in order.
    ghost places: { Self → List ℕ };

    /// These bytes are some that belong into the sector with this number.
    ghost belongs: { Self → ℕ → List ℕ → Type 0 };

    /// The number of the next sector, whose bytes are then in `into`. After the last one there is none, and nothing
    /// is said of `into`.
    fn next(&mut self, into: &mut Sector) -> Option<u64>
        ensures next { IfSome result (λ at. places self.old ≡ at ∷ places self.new) }
        ensures bytes { IfSome result (λ at. belongs self.old at into.new) }
        ensures end { IfNone result (places self.old ≡ []) }
        ensures same { (at : ℕ) (bytes : List ℕ) → belongs self.new at bytes → belongs self.old at bytes };
}

/// Puts the sectors of a list into a space, in order.
pub fn put_list<P: SectorSpace, L: SectorsToPut>(space: &mut P, list: &mut L)
    requires inside { All (λ at. at < (P.SectorView.space space.old).sectors) (L.places list.old) }
    requires open { IsTrue (P.SectorView.space space.old).tells → (at : ℕ) → Contains (L.places list.old) at → (P.SectorView.space space.old).closed at → ⊥ }
    requires room { unput (P.SectorView.space space.old).put (L.places list.old) ≤ (P.SectorView.space space.old).spare }
    ensures puts { IsTrue (P.SectorView.space space.old).tells → PutsThese (λ at. Contains (L.places list.old) at) (P.SectorView.space space.old) (P.SectorView.space space.new) }
    ensures bytes { IsTrue (P.SectorView.space space.old).tells → (at : ℕ) → Contains (L.places list.old) at → L.belongs list.old at (sector (P.SectorView.space space.new).content at) }
    ensures time { IsTrue (P.SectorView.space space.old).tells → TimePasses (P.SectorView.space space.old).clock (P.SectorView.space space.new).clock (LeavesDurable (P.SectorView.space space.new)) }
    ensures room { TakesRoomOf (λ at. Contains (L.places list.old) at) (unput (P.SectorView.space space.old).put (L.places list.old)) (P.SectorView.space space.old) (P.SectorView.space space.new) }
    ensures same { SameSpace (P.SectorView.space space.old) (P.SectorView.space space.new) }
    ensures below { P.SectorView.follows space.old space.new }
    ensures faults { (P.SectorView.space space.new).faults ≡ (P.SectorView.space space.old).faults }
{
    let mut sector = [0; 512];
    while let Some(at) = list.next(&mut sector) {
        space.put(at, &sector);
    }
}
