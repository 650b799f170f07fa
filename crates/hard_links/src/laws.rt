//! Laws of links, as functions without a body: the calls do nothing, and are there for their contracts.
ghost use Rattle.std.specs.Prelude.{◌≡◌, ℕ, List, Some};
ghost use Rattle.hfs_volume.specs.Links.{AreLinks, private_id};
ghost use Rattle.hfs_volume.specs.Records.{Placed, Overflow};
ghost use Rattle.hard_links.specs.Rules.{AreLinksBut};

/// No link names a file outside the private folder, so it may be put aside.
pub fn plain_files_have_no_links()
    ensures { (private parent : ℕ) (name : List ℕ) (records : List Placed) (overflow : List Overflow) → private_id records ≡ Some private → (parent ≡ private → ⊥) → AreLinks records overflow → AreLinksBut parent name records overflow }
{}
