//! Laws that nothing but counted things differs, each as a function without a body.
ghost use Rattle.volume_repair.specs.Whole.{RepairCounts, RepairKeepsForks, RepairKeepsTrees};

/// A repair that is sound is the volume counted anew.
pub fn repair_counts()
    ensures { RepairCounts }
{}

/// A repair that is sound has the same keys, and the same values but for valences and special words.
pub fn repair_keeps_trees()
    ensures { RepairKeepsTrees }
{}

/// A repair has the same bytes in each fork but the allocation file's and the catalog file's.
pub fn repair_keeps_forks()
    ensures { RepairKeepsForks }
{}
