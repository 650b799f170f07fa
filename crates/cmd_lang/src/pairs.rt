//! The arguments of a command, of which the first refusal counts.
ghost use Rattle.std.specs.Prelude.{◌≡◌};
ghost use Rattle.hfs_language.specs.Language as spec;
ghost use Rattle.cmd_lang.specs.Reads.{Reads};

use crate::LineFault;
use crate::fault::both;
use crate::path::read_path;
use crate::words::{read_attribute, read_mode, read_number, read_value};
use hfs_language::Path;
use hx_bytes::{Bytes, Units};
use std::alloc::Global;

pub(crate) fn two_paths(alloc: Global, one: &str, two: &str) -> Result<(Path, Path), LineFault>
    ensures { Reads (spec.both (spec.path_of one.now) (spec.path_of two.now)) result }
{
    let first = read_path(alloc, one);
    let second = read_path(alloc, two);
    both(first, second)
}

pub(crate) fn path_and_size(alloc: Global, one: &str, two: &str) -> Result<(Path, u64), LineFault>
    ensures { Reads (spec.both (spec.path_of one.now) (spec.number_of two.now)) result }
{
    let first = read_path(alloc, one);
    let second = read_number(two);
    both(first, second)
}

pub(crate) fn path_and_mode(alloc: Global, one: &str, two: &str) -> Result<(Path, u16), LineFault>
    ensures { Reads (spec.both (spec.path_of one.now) (spec.mode_of two.now)) result }
{
    let first = read_path(alloc, one);
    let second = read_mode(two);
    both(first, second)
}

pub(crate) fn path_and_attribute(
    alloc: Global,
    one: &str,
    two: &str,
) -> Result<(Path, Units), LineFault>
    ensures { Reads (spec.both (spec.path_of one.now) (spec.attribute_of two.now)) result }
{
    let first = read_path(alloc, one);
    let second = read_attribute(alloc, two);
    both(first, second)
}

pub(crate) fn number_and_value(
    alloc: Global,
    one: &str,
    two: &str,
) -> Result<(u64, Bytes), LineFault>
    ensures { Reads (spec.both (spec.number_of one.now) (spec.value_of two.now)) result }
{
    let first = read_number(one);
    let second = read_value(alloc, two);
    both(first, second)
}

pub(crate) fn two_numbers(one: &str, two: &str) -> Result<(u64, u64), LineFault>
    ensures { Reads (spec.both (spec.number_of one.now) (spec.number_of two.now)) result }
{
    let first = read_number(one);
    let second = read_number(two);
    both(first, second)
}

pub(crate) fn attribute_and_value(
    alloc: Global,
    one: &str,
    two: &str,
) -> Result<(Units, Bytes), LineFault>
    ensures { Reads (spec.both (spec.attribute_of one.now) (spec.value_of two.now)) result }
{
    let first = read_attribute(alloc, one);
    let second = read_value(alloc, two);
    both(first, second)
}

/// A path, an offset and the value that is written there.
pub(crate) fn path_offset_value(
    alloc: Global,
    one: &str,
    two: &str,
    three: &str,
) -> Result<(Path, (u64, Bytes)), LineFault>
    ensures { Reads (spec.both (spec.path_of one.now) (spec.both (spec.number_of two.now) (spec.value_of three.now))) result }
{
    let first = read_path(alloc, one);
    let second = number_and_value(alloc, two, three);
    both(first, second)
}

/// A path, an offset and how many bytes are read from there.
pub(crate) fn path_offset_length(
    alloc: Global,
    one: &str,
    two: &str,
    three: &str,
) -> Result<(Path, (u64, u64)), LineFault>
    ensures { Reads (spec.both (spec.path_of one.now) (spec.both (spec.number_of two.now) (spec.number_of three.now))) result }
{
    let first = read_path(alloc, one);
    let second = two_numbers(two, three);
    both(first, second)
}

/// A path, an attribute's name and its value.
pub(crate) fn path_attribute_value(
    alloc: Global,
    one: &str,
    two: &str,
    three: &str,
) -> Result<(Path, (Units, Bytes)), LineFault>
    ensures { Reads (spec.both (spec.path_of one.now) (spec.both (spec.attribute_of two.now) (spec.value_of three.now))) result }
{
    let first = read_path(alloc, one);
    let second = attribute_and_value(alloc, two, three);
    both(first, second)
}
