//! What follows the store's keep and commit.
ghost use Rattle.volume_base.specs.Keeping.{Keeps, Settles};

use crate::volume::{Kept, Volume};

impl Volume {
    /// What was done so far stays, whatever is undone later.
    pub fn keep(&mut self)
        ensures { Keeps self.old self.new }
    {
        self.map.keep();
        self.kept = Kept {
            header: self.header,
            private: self.private,
            shrunk: self.shrunk,
        };
    }

    /// The content was committed: no block is held any more, so that a growth may take others than those that were filled for it.
    pub fn settle(&mut self)
        ensures { Settles self.old self.new }
    {
        self.map.settle();
        self.filling = None;
    }
}
