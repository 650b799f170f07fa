//! The two volume headers, read.
ghost use Rattle.std.specs.Prelude.{◌≡◌, ◌<◌, ◌-◌, true, length, IsTrue, IfOk};
ghost use Rattle.sector_disk.specs.Cause.{HasCause};
ghost use Rattle.jnl_format.specs.Recovery.{sector, header_of_volume};
ghost use Rattle.volume_header.specs.Header.{header_of};
ghost use Rattle.volume_header.specs.Refusal.{is_volume_size};
ghost use Rattle.btree_file.specs.Frame.{ReadsSpace};

use hx_bytes::Failed;
use sector_disk::SectorView;
use volume_header::{VolumeHeader, header_at};

/// The volume header and its alternate, as their sectors spell them; no field of them is judged.
#[derive(Clone, Copy, Debug, PartialEq, Eq)]
pub struct Headers {
    pub head: VolumeHeader,
    pub alternate: VolumeHeader,
}

/// The header that a sector of a view spells.
fn read_header_at<V: SectorView>(view: &mut V, at: u64) -> Result<VolumeHeader, Failed>
    requires { at < (V.space view.old).sectors }
    ensures value { IsTrue (V.space view.old).tells → IfOk result (λ head. head ≡ header_of (sector (V.space view.old).content at)) }
    ensures reads { ReadsSpace (V.space view.old) (V.space view.new) }
    ensures below { V.follows view.old view.new }
    ensures cause { HasCause (V.space view.old).faults (V.space view.new).faults result }
{
    let mut bytes = [0; 512];
    view.get(at, &mut bytes)?;
    Ok(header_at(&bytes))
}

/// Reads the volume header from the third sector of a volume, and the alternate from the last but one (TN1150, "Volume Header").
pub fn read_headers<V: SectorView>(view: &mut V) -> Result<Headers, Failed>
    requires { is_volume_size (V.space view.old).sectors ≡ true }
    ensures head { IsTrue (V.space view.old).tells → IfOk result (λ headers. headers.head ≡ header_of_volume (V.space view.old).content) }
    ensures alternate { IsTrue (V.space view.old).tells → IfOk result (λ headers. headers.alternate ≡ header_of (sector (V.space view.old).content (length (V.space view.old).content - 2))) }
    ensures reads { ReadsSpace (V.space view.old) (V.space view.new) }
    ensures below { V.follows view.old view.new }
    ensures cause { HasCause (V.space view.old).faults (V.space view.new).faults result }
{
    let last = view.sectors() - 2;
    let head = read_header_at(view, 2)?;
    let alternate = read_header_at(view, last)?;
    Ok(Headers { head, alternate })
}
