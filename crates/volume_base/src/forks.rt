//! The two forks of a file (TN1150, "Catalog File Data").
ghost use Rattle.std.specs.Prelude.{◌≡◌, ◌⊎◌};
ghost use Rattle.volume_base.specs.Cutting.{fork_at, kind_of};

use cat_records::FileRecord;
use hx_bytes::ForkRecord;

/// Which fork of a file.
#[derive(Clone, Copy, Debug, PartialEq, Eq)]
pub enum ForkKind {
    Data,
    Resource,
}

/// The number that stands for a kind of fork in keys (TN1150, "Extents Overflow File Keys").
pub fn number_of(kind: ForkKind) -> u8
    ensures same { result ≡ kind_of kind }
    ensures kind { (result ≡ 0) ⊎ (result ≡ 255) }
{
    match kind {
        ForkKind::Data => 0,
        ForkKind::Resource => 255,
    }
}

/// A fork of a file.
pub fn fork_of(kind: ForkKind, file: &FileRecord) -> ForkRecord
    ensures { result ≡ fork_at (kind_of kind) file.now }
{
    match kind {
        ForkKind::Data => file.data_fork,
        ForkKind::Resource => file.resource_fork,
    }
}
