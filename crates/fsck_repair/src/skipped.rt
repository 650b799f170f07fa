//! Sectors of the volume header and of its copy, which aren't looked at as sectors of files.
ghost use Rattle.std.specs.Prelude.{◌≡◌, ◌<◌, false, length};
ghost use Rattle.jnl_format.specs.Recovery.{Content};
ghost use Rattle.fsck_repair.specs.Counted.{IsSkipped, IsPlain};

/// The sector of the header's copy, where that is to be written.
#[derive(Clone, Copy)]
pub(crate) struct Skipped {
    pub copy: Option<u64>,
}

impl Skipped {
    /// Whether this is the header's sector, or that of its copy which is to be written.
    pub(crate) fn has(self, at: u64) -> bool
        ensures plain { (content : Content) → IsSkipped content self → result ≡ false → IsPlain content at }
        ensures other { (content : Content) → IsSkipped content self → IsPlain content at → result ≡ false }
    {
        if at == 2 {
            return true;
        }
        match self.copy {
            Some(copy) => copy == at,
            None => false,
        }
    }
}
