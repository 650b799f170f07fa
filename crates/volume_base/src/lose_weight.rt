//! `weigh` of `rm`.
ghost use Rattle.std.specs.Prelude.{◌≡◌, ◌≤◌, None, Some};
ghost use Rattle.volume_base.specs.Losing.{lose_edits};

use crate::volume::Volume;
use crate::weighing::Edits;

impl Volume {
    /// The edits by which a file loses its only name: where there is no private folder, it is made before.
    pub fn lose_edits(&self) -> Edits
        ensures same { result ≡ lose_edits self.now.private }
        ensures none { result.attributes ≡ 0 }
        ensures few { result.catalog ≤ 5 }
    {
        match self.private {
            Some(_private) => Edits {
                ids: 0,
                catalog: 3,
                attributes: 0,
                updates: 4,
            },
            None => Edits {
                ids: 1,
                catalog: 5,
                attributes: 0,
                updates: 4,
            },
        }
    }
}
