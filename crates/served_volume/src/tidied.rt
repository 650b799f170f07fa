//! What a step of housekeeping came to, as serving sees it.
ghost use Rattle.std.specs.Prelude.{◌≡◌, IfOk, IsErrOf};
ghost use Rattle.hx_bytes.specs.declared.faults.Trouble.TheVariants as trouble;
ghost use Rattle.served_volume.specs.Tidying.{next_of};

use hfs_serving::Next;
use hx_bytes::Trouble;
use volume_space::Tidying;

/// What a step came to. A step that is affordable fits a transaction to which nothing was put: there it wants no commit.
pub(crate) fn next_of(fresh: bool, came: Tidying) -> Result<Next, Trouble>
    ensures same { IfOk result (λ next. next ≡ next_of came) }
    ensures memory { IsErrOf result trouble.Disk → ⊥ }
{
    match came {
        Tidying::Rest => Ok(Next::Rest),
        Tidying::Made => Ok(Next::Made),
        Tidying::CommitFirst => {
            if fresh {
                Err(Trouble::Memory)
            } else {
                Ok(Next::CommitFirst)
            }
        }
    }
}
