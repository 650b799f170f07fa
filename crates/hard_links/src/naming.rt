//! Names of the private folder: a word with a number behind it.
ghost use Rattle.std.specs.Prelude.{◌≡◌, ◌≤◌, ◌+◌, ◌++◌, length, decimal, IfOk, OnOk};
ghost use Rattle.hfs_model.specs.Step.{private_name};
ghost use Rattle.hfs_volume.specs.Links.{node_name};
ghost use Rattle.hfs_volume.specs.Naming.{orphan_name};
ghost use Rattle.hfs_volume.specs.Records.{numbered};

use hx_bytes::{OutOfMemory, Units};
use itoa::Buffer;
use std::alloc::Global;

/// `iNode`
pub(crate) const NODE: [u16; 5] = [105, 78, 111, 100, 101];

/// `temp`
pub(crate) const TEMP: [u16; 4] = [116, 101, 109, 112];

/// Four zeros and `HFS+ Private Data`
const PRIVATE_FOLDER: [u16; 21] = [
    0, 0, 0, 0, 72, 70, 83, 43, 32, 80, 114, 105, 118, 97, 116, 101, 32, 68, 97, 116, 97,
];

/// The name of the private folder.
pub(crate) fn private_name(alloc: Global) -> Result<Units, OutOfMemory>
    ensures name { IfOk result (λ name. name ≡ private_name) }
    ensures short { IfOk result (λ name. length name ≤ 255) }
{
    let units = Vec::from_slice(alloc, PRIVATE_FOLDER.as_slice())?;
    Ok(Units::from_vec(units))
}

/// The name of a file with several names, under this number.
pub(crate) fn node_name(alloc: Global, reference: u32) -> Result<Units, OutOfMemory>
    ensures name { IfOk result (λ name. name ≡ node_name reference) }
    ensures some { IfOk result (λ name. 1 ≤ length name) }
    ensures short { IfOk result (λ name. length name ≤ 45) }
{
    let name = numbered(alloc, NODE.as_slice(), reference)?;
    Ok(name)
}

/// The name of a file that waits to be removed, under this number.
pub(crate) fn orphan_name(alloc: Global, number: u32) -> Result<Units, OutOfMemory>
    ensures name { IfOk result (λ name. name ≡ orphan_name number) }
    ensures some { IfOk result (λ name. 1 ≤ length name) }
    ensures short { IfOk result (λ name. length name ≤ 44) }
{
    let name = numbered(alloc, TEMP.as_slice(), number)?;
    Ok(name)
}

/// A word with the decimal digits of a number behind it.
pub(crate) fn numbered(alloc: Global, word: &[u16], number: u32) -> Result<Units, OutOfMemory>
    ensures name { IfOk result (λ name. name ≡ numbered word.now number) }
    ensures some { IfOk result (λ name. length word.now ≤ length name) }
    ensures short { IfOk result (λ name. length name ≤ length word.now + 40) }
{
    let mut digits = Buffer::new();
    let mut name = Units::from_vec(Vec::from_slice(alloc, word)?);
    append_digits(&mut name, digits.format(number).as_bytes())?;
    Ok(name)
}

fn append_digits(name: &mut Units, digits: &[u8]) -> Result<(), OutOfMemory>
    ensures { OnOk result (name.new ≡ name.old ++ digits.now) }
{
    for digit in digits {
        name.push(u16::from(*digit))?;
    }
    Ok(())
}
