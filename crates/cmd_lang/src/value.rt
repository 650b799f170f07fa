//! Values by themselves, as lines and replies spell them.
ghost use Rattle.std.specs.Prelude.{◌≡◌, ◌≢◌, ◌++◌, List, ℕ, Ok, IfOk, IfSome, IfNone, OnOk};
ghost use Rattle.hfs_language.specs.Language as spec;
ghost use Rattle.hfs_language.specs.Text as spec_text;

use crate::LineFault;
use crate::print::push_value_text;
use crate::words::read_value_text;
use hx_bytes::{Bytes, OutOfMemory};
use std::alloc::Global;

/// The value that a text spells, or none where it is the text of none. The text begins with `=`.
pub fn read_value(alloc: Global, text: &[u8]) -> Result<Option<Bytes>, OutOfMemory>
    ensures value { IfOk result (λ found. IfSome found (λ value. spec.value_of text.now ≡ Ok value)) }
    ensures other { IfOk result (λ found. IfNone found ((value : List ℕ) → spec.value_of text.now ≢ Ok value)) }
{
    match read_value_text(alloc, text) {
        Ok(value) => Ok(Some(value)),
        Err(LineFault::No(_)) => Ok(None),
        Err(LineFault::Memory) => Err(OutOfMemory),
    }
}

/// Appends the text of a value.
pub fn push_value(text: &mut Vec<u8>, value: &[u8]) -> Result<(), OutOfMemory>
    ensures { OnOk result (text.new.items ≡ text.old.items ++ spec_text.value_text value.now) }
{
    push_value_text(text, value)?;
    Ok(())
}
