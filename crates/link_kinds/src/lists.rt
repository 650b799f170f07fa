//! Lists of names of which the next stands last.
ghost use Rattle.std.specs.Prelude.{◌≡◌, ◌<◌, ◌++◌, ◌∷◌, [], reverse, vec_len, IfNone, IfOk, IfSome};

use hx_bytes::{OutOfMemory, Units};
use open_files::copy_name;
use std::alloc::Global;

/// The names in the other order.
pub(crate) fn reversed(alloc: Global, names: &[Units]) -> Result<Vec<Units>, OutOfMemory>
    ensures { IfOk result (λ list. reverse list.items ≡ names.now) }
{
    let mut list = Vec::new(alloc);
    let mut at = names.len();
    while at > 0 {
        at -= 1;
        list.push(copy_name(alloc, &names[at])?)?;
    }
    Ok(list)
}

/// The components of a target in front of those that are left.
pub(crate) fn in_front(components: Vec<Units>, left: Vec<Units>) -> Result<Vec<Units>, OutOfMemory>
    ensures { IfOk result (λ all. reverse all.items ≡ components.items ++ reverse left.items) }
{
    let mut components = components;
    let mut left = left;
    while let Some(component) = take_last(&mut components) {
        left.push(component)?;
    }
    Ok(left)
}

/// Takes the last name of a list.
pub(crate) fn take_last(names: &mut Vec<Units>) -> Option<Units>
    ensures some { IfSome result (λ name. names.old.items ≡ names.new.items ++ name ∷ []) }
    ensures shorter { IfSome result (λ _. vec_len names.new < vec_len names.old) }
    ensures none { IfNone result (names.old.items ≡ []) }
    ensures empty { IfNone result (names.new.items ≡ []) }
{
    names.pop()
}
