//! The text of a symbolic link is read: its components, in NFD.
ghost use Rattle.std.specs.Prelude.{◌≡◌, ◌≤◌, ◌==◌, ◌++◌, true, false, chars, flat_map, length, map, IfOk, IfSome, IfNone, OnOk};
ghost use Rattle.std.specs.List.{slice_split};
ghost use Rattle.std.specs.Str.{is_utf8};
ghost use Rattle.std.specs.Char.Escape.{encode_utf16};
ghost use Rattle.hfs_model.specs.Targets.{are_short, component_units, components_of, is_from_root, is_target};

use cmd_lang::{components_of, text_of};
use hx_bytes::{OutOfMemory, Units};
use std::alloc::{AllocError, Global};
use unicode_normalization::slice::extend_nfd;

/// The most bytes of a target.
const MOST_BYTES: usize = 1023;

/// The most units of a component (TN1150, "HFS Plus Names").
const MOST_UNITS: usize = 255;

/// The components of a target, in NFD; none where the bytes aren't a target, which is 1 to 1,023 bytes of UTF-8 with components of at most
/// 255 units.
#[tactic(auto, using(crate::proofs::Components::few_components), unfolding(hfs_model::specs::Targets::is_target))]
pub fn read_target(alloc: Global, bytes: &[u8]) -> Result<Option<Vec<Units>>, OutOfMemory>
    ensures components { IfOk result (λ found. IfSome found (λ components. (is_target bytes.now ≡ true) × (components.items ≡ components_of bytes.now))) }
    ensures other { IfOk result (λ found. IfNone found (is_target bytes.now ≡ false)) }
    ensures few { IfOk result (λ found. IfSome found (λ components. length components.items ≤ 1024)) }
{
    if bytes.is_empty() || bytes.len() > MOST_BYTES {
        return Ok(None);
    }
    let Some(text) = text_of(bytes) else {
        return Ok(None);
    };
    let components = components(alloc, text)?;
    if are_short(&components) {
        Ok(Some(components))
    } else {
        Ok(None)
    }
}

/// Whether a target begins at the root.
pub fn is_from_root(bytes: &[u8]) -> bool
    ensures { result ≡ is_from_root bytes.now }
{
    matches!(bytes, [b'/', ..])
}

/// Whether each component has at most 255 units.
fn are_short(components: &[Units]) -> bool
    ensures { result ≡ are_short components.now }
{
    components
        .iter()
        .all(|component| component.len() <= MOST_UNITS)
}

/// The components of a text, which a slash separates.
fn components(alloc: Global, text: &str) -> Result<Vec<Units>, OutOfMemory>
    ensures { IfOk result (λ components. components.items ≡ components_of text.now) }
{
    let parts = components_of(alloc, text)?;
    each_component(alloc, &parts)
}

fn each_component(alloc: Global, parts: &[&str]) -> Result<Vec<Units>, OutOfMemory>
    ensures { IfOk result (λ components. components.items ≡ map component_units (map (λ part. part.now) parts.now)) }
{
    let mut components = Vec::new(alloc);
    for part in parts {
        components.push(units_of(alloc, part)?)?;
    }
    Ok(components)
}

/// The units of a component, in NFD.
fn units_of(alloc: Global, text: &str) -> Result<Units, OutOfMemory>
    ensures { IfOk result (λ units. units ≡ component_units text.now) }
{
    let characters = characters(alloc, text)?;
    let mut normal = Vec::new(alloc);
    extend_nfd(&mut normal, &characters)?;
    Ok(Units::from_vec(encoded(alloc, &normal)?))
}

#[tactic(auto, using(std::proofs::lemmas::Str::chars_from_encodes))]
fn characters(alloc: Global, text: &str) -> Result<Vec<char>, AllocError>
    ensures { IfOk result (λ all. all.items ≡ chars text.now) }
{
    text.chars().collect(alloc)
}

/// The text in UTF-16.
fn encoded(alloc: Global, text: &[char]) -> Result<Vec<u16>, AllocError>
    ensures { IfOk result (λ units. units.items ≡ flat_map encode_utf16 text.now) }
{
    let mut units = Vec::new(alloc);
    for c in text {
        push_character(&mut units, *c)?;
    }
    Ok(units)
}

fn push_character(units: &mut Vec<u16>, c: char) -> Result<(), AllocError>
    ensures { OnOk result (units.new.items ≡ units.old.items ++ encode_utf16 c) }
{
    let mut pair = [0; 2];
    units.extend_from_slice(c.encode_utf16(&mut pair))
}
