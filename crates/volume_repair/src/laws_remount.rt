//! Laws of a repair after a remount, as functions.
ghost use Rattle.volume_repair.specs.Remount.{RepairIsRenewed, RepairStaysRemounted};

use hfs_volume::mount_keeps_the_tree;

/// The repair of a remounted content is sound where that of the content is, and changes as many sectors.
pub fn repair_stays_remounted()
    ensures { RepairStaysRemounted }
{
    mount_keeps_the_tree();
}

/// The repair of a remounted content has the sectors of the content's where that one differs, but for its headers, which take the counts.
pub fn repair_is_renewed()
    ensures { RepairIsRenewed }
{}
