//! What commands on symbolic links and resource forks lead to.
ghost use Rattle.hfs_volume.specs.Kinds.{ResourceWriteDoes, SymlinkDoes};

/// What `rwrite` of a byte or more changes leads from a sound volume to a sound volume, whose tree is that of the step.
pub fn rwrite_does_its_step()
    ensures { ResourceWriteDoes }
{}

/// What `symlink` changes leads from a sound volume to a sound volume, whose tree is that of the step.
pub fn symlink_does_its_step()
    ensures { SymlinkDoes }
{}
