//! What a volume in service is asked for.

use hfs_language::Command;
use hfs_model::KindEdit;

/// A command of the plain language, or one on a symbolic link or a resource fork.
#[derive(Drop)]
pub enum Asked {
    Plain(Command),
    Kind(KindEdit),
}
