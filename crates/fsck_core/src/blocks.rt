//! Marks of a volume's blocks.
ghost use Rattle.std.specs.Prelude.{◌≡◌, ◌≤◌, ◌^◌, false, length, replicate, IfOk};

use fsck_list::Marks;
use hx_bytes::OutOfMemory;
use std::alloc::Global;

/// So many blocks, of which none is marked.
pub(crate) fn no_marks(alloc: Global, total: u32) -> Result<Marks, OutOfMemory>
    ensures none { IfOk result (λ marks. marks ≡ replicate total false) }
    ensures few { IfOk result (λ marks. length marks ≤ 2 ^ 32) }
{
    Marks::new(alloc, total)
}
