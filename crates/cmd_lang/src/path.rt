//! The path of a file or folder is read.
ghost use Rattle.std.specs.Prelude.{◌≡◌, map, IfOk, IfErr};
ghost use Rattle.hfs_language.specs.Language as spec;
ghost use Rattle.cmd_lang.specs.Reads.{Reads, first_refusal, read_so_far, with_next};
ghost use Rattle.cmd_lang.specs.declared.fault.LineFault.TheVariants.{Memory};

use crate::LineFault;
use crate::fault::earlier;
use crate::split::components_of;
use crate::words::{BAD_COMMAND, read_name};
use hfs_language::{Path, Refusal};
use std::alloc::Global;

/// The path that a word spells: `/`, or a slash before each component.
#[tactic(auto, unfolding(hfs_language::specs::Language::path_of))]
pub fn read_path(alloc: Global, word: &str) -> Result<Path, LineFault>
    ensures { Reads (spec.path_of word.now) result }
{
    match word.strip_prefix('/') {
        None => Err(BAD_COMMAND),
        Some(text) => read_components(alloc, text),
    }
}

/// The names behind the first slash of a path.
fn read_components(alloc: Global, text: &str) -> Result<Path, LineFault>
    ensures { Reads (spec.names_of (spec.components text.now)) result }
{
    if text.is_empty() {
        return Ok(Path::new(alloc));
    }
    let components = components_of(alloc, text)?;
    read_names(alloc, &components)
}

/// The names that components spell, or the first refusal of one of them.
fn read_names(alloc: Global, components: &[&str]) -> Result<Path, LineFault>
    ensures { Reads (spec.names_of (map (λ component. component.now) components.now)) result }
{
    let mut names = Path::new(alloc);
    let mut refusal = None;
    for component in components {
        refusal = read_next(alloc, &mut names, refusal, component)?;
    }
    match refusal {
        None => Ok(names),
        Some(why) => Err(LineFault::No(why)),
    }
}

#[tactic(auto, using(crate::proofs::Paths::refused, crate::proofs::Paths::named))]
/// Reads one name more, and answers the first refusal of one of them.
fn read_next(
    alloc: Global,
    names: &mut Path,
    refusal: Option<Refusal>,
    component: &str,
) -> Result<Option<Refusal>, LineFault>
    ensures next { IfOk result (λ next. read_so_far next names.new ≡ with_next (read_so_far refusal names.old) (spec.name_of component.now)) }
    ensures fault { IfErr result (λ fault. fault ≡ Memory) }
{
    match read_name(alloc, component) {
        Ok(name) => {
            names.push(name)?;
            Ok(refusal)
        }
        Err(LineFault::No(why)) => Ok(Some(first_refusal(refusal, why))),
        Err(LineFault::Memory) => Err(LineFault::Memory),
    }
}

/// The first of the refusals so far and another.
fn first_refusal(before: Option<Refusal>, why: Refusal) -> Refusal
    ensures { result ≡ first_refusal before why }
{
    match before {
        None => why,
        Some(before) => earlier(before, why),
    }
}
