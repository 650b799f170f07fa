//! Why `ln`, `write` and `trunc` are refused.
ghost use Rattle.std.specs.Prelude.{◌≡◌, false, Ok, IsTrue, IfOk};
ghost use Rattle.hfs_language.specs.Written.{FitsPath};
ghost use Rattle.hfs_language.specs.declared.command.Command.TheVariants as command;
ghost use Rattle.hfs_model.specs.Step.{is_private_path, is_root, step_line};
ghost use Rattle.hfs_volume.specs.TreeOf.{tree_of};
ghost use Rattle.volume_base.specs.Frame.{Looked, Serves};
ghost use Rattle.volume_base.specs.Making.{path_to};
ghost use Rattle.volume_base.specs.Refusing.{against_link, against_trunc, against_write, facts_or, is_exists, refusal_in};

use crate::names::is_private_path;
use crate::volume::Volume;
use hfs_language::{Facts, Path, Refusal, Reply};
use hfs_volume::sound_has_plain_tree;
use hx_bytes::{Trouble, Units};
use sector_disk::SectorSpace;
use std::alloc::Global;

/// The largest size of a file, in bytes.
const MOST_SIZE: u128 = 1 << 40;

/// The most bytes of one `write`.
const MOST_BYTES: usize = 65_536;

/// The most names of a file.
const MOST_LINKS: u32 = 32_767;

/// What `stat` tells of a folder or file, or why it tells nothing.
fn facts_or(reply: Reply) -> Result<Facts, Refusal>
    ensures { result ≡ facts_or reply }
{
    match reply {
        Reply::Facts(told) => Ok(told),
        Reply::No(why) => Err(why),
        Reply::Ok => Err(Refusal::NotFound),
        Reply::Listing(_list) => Err(Refusal::NotFound),
        Reply::Content(_bytes) => Err(Refusal::NotFound),
        Reply::Gauge(_gauge) => Err(Refusal::NotFound),
    }
}

/// What stands against `write` of so many bytes from a place on into a file of which this is told.
pub fn against_write(from: u64, long: usize, told: &Facts) -> Option<Refusal>
    ensures { result ≡ against_write from long told.now }
{
    if told.folder {
        return Some(Refusal::IsFolder);
    }
    if from as u128 + long as u128 > MOST_SIZE || long > MOST_BYTES {
        return Some(Refusal::TooLarge);
    }
    None
}

/// What stands against `trunc` to a size of a file of which this is told.
pub fn against_trunc(size: u64, told: &Facts) -> Option<Refusal>
    ensures { result ≡ against_trunc size told.now }
{
    if told.folder {
        return Some(Refusal::IsFolder);
    }
    if size as u128 > MOST_SIZE {
        return Some(Refusal::TooLarge);
    }
    None
}

/// Whether a name is refused because it is taken.
pub fn is_exists(why: Refusal) -> bool
    ensures { result ≡ is_exists why }
{
    match why {
        Refusal::Exists => true,
        _ => false,
    }
}

/// What stands against another name of a file of which this is told, for which this was found to be the place.
fn against_link(site: Result<u32, Refusal>, told: &Facts) -> Option<Refusal>
    ensures { result ≡ against_link site told.now }
{
    match site {
        Err(why) => {
            if is_exists(why) {
                if told.folder {
                    return Some(Refusal::IsFolder);
                }
                return Some(Refusal::Exists);
            }
            Some(why)
        }
        Ok(_folder) => {
            if told.folder {
                return Some(Refusal::IsFolder);
            }
            if told.links >= MOST_LINKS {
                return Some(Refusal::TooManyLinks);
            }
            None
        }
    }
}

impl Volume {
    /// What `stat` tells of what a path stands for, or the first reason against it.
    pub fn facts<P: SectorSpace>(
        &mut self,
        alloc: Global,
        space: &mut P,
        path: &Path,
    ) -> Result<Result<Facts, Refusal>, Trouble>
        requires serves { Serves self.old (P.SectorView.space space.old) }
        requires fits { FitsPath path.now }
        ensures told { IsTrue (P.SectorView.space space.old).tells → IfOk result (λ said. said ≡ facts_or (step_line (tree_of (P.SectorView.space space.old).content) (Ok (command.Stat path.now))).0) }
        ensures looked { Looked P.SectorView.space P.SectorView.follows self.old self.new space.old space.new result }
        ensures serves { Serves self.new (P.SectorView.space space.new) }
    {
        let reply = self.stat(alloc, space, path)?;
        Ok(facts_or(reply))
    }

    /// Why another name of a file is refused, if it is; the place of the new name is a name under a path.
    fn refused_link<P: SectorSpace>(
        &mut self,
        alloc: Global,
        space: &mut P,
        from: &Path,
        to: &Path,
        under: &[Units],
        name: &Units,
    ) -> Result<Option<Refusal>, Trouble>
        requires serves { Serves self.old (P.SectorView.space space.old) }
        requires from_fits { FitsPath from.now }
        requires to_fits { FitsPath to.now }
        requires split { to.now ≡ path_to under.now name.now }
        requires not_own { is_private_path to.now ≡ false }
        requires not_root { is_root from.now ≡ false }
        ensures told { IsTrue (P.SectorView.space space.old).tells → IfOk result (λ said. said ≡ refusal_in (step_line (tree_of (P.SectorView.space space.old).content) (Ok (command.Ln from.now to.now))).0) }
        ensures looked { Looked P.SectorView.space P.SectorView.follows self.old self.new space.old space.new result }
        ensures serves { Serves self.new (P.SectorView.space space.new) }
    {
        sound_has_plain_tree();
        match self.facts(alloc, space, from)? {
            Ok(told) => {
                let site = self.site(alloc, space, under, name)?;
                Ok(against_link(site, &told))
            }
            Err(why) => Ok(Some(why)),
        }
    }

    /// Why `ln` is refused, if it is.
    pub fn refused_ln<P: SectorSpace>(
        &mut self,
        alloc: Global,
        space: &mut P,
        from: &Path,
        to: &Path,
    ) -> Result<Option<Refusal>, Trouble>
        requires serves { Serves self.old (P.SectorView.space space.old) }
        requires from_fits { FitsPath from.now }
        requires to_fits { FitsPath to.now }
        ensures told { IsTrue (P.SectorView.space space.old).tells → IfOk result (λ said. said ≡ refusal_in (step_line (tree_of (P.SectorView.space space.old).content) (Ok (command.Ln from.now to.now))).0) }
        ensures looked { Looked P.SectorView.space P.SectorView.follows self.old self.new space.old space.new result }
        ensures serves { Serves self.new (P.SectorView.space space.new) }
    {
        if is_private_path(from) {
            return Ok(Some(Refusal::Private));
        }
        if is_private_path(to) {
            return Ok(Some(Refusal::Private));
        }
        if from.is_empty() {
            return Ok(Some(Refusal::Root));
        }
        match to.as_slice().split_last() {
            Some((name, under)) => self.refused_link(alloc, space, from, to, under, name),
            None => Ok(Some(Refusal::Root)),
        }
    }
}
