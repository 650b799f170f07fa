//! What was read of a symbolic link, as the server asks for it.
ghost use Rattle.std.specs.Prelude.{◌≡◌};
ghost use Rattle.served_volume.specs.Links.{read_of, result_of};

use hfs_language::Refusal;
use hx_bytes::{Bytes, Trouble};
use volume_base::LinkRead;

/// The bytes of a link, none of a file that isn't one, or the reason against it.
pub(crate) fn link_read(
    read: Result<LinkRead, Trouble>,
) -> Result<Result<Option<Bytes>, Refusal>, Trouble>
    ensures { result ≡ result_of read }
{
    match read {
        Ok(link) => Ok(found_in(link)),
        Err(trouble) => Err(trouble),
    }
}

fn found_in(link: LinkRead) -> Result<Option<Bytes>, Refusal>
    ensures { result ≡ read_of link }
{
    match link {
        LinkRead::Target(bytes) => Ok(Some(bytes)),
        LinkRead::NotLink => Ok(None),
        LinkRead::No(why) => Err(why),
    }
}
