//! An image is opened for reading, and commands are answered from what it stands for.
ghost use Rattle.std.specs.Prelude.{◌≡◌, ℕ, IsTrue, IfOk, IfErr, OnOk};
ghost use Rattle.hx_bytes.specs.declared.faults.Trouble.TheVariants as trouble;
ghost use Rattle.sector_disk.specs.Disk.{OnlyReads, content};
ghost use Rattle.jnl_format.specs.Recovery.{Content};
ghost use Rattle.btree_edit.specs.Causes.{HasTroubleCause};
ghost use Rattle.jnl_replay.specs.Plan.{FitsPlan};
ghost use Rattle.line_source.specs.Cause.{IsCause};
ghost use Rattle.hfs_volume.specs.Mount.{IsMountable, Mounts};
ghost use Rattle.hfs_serving.specs.Checking.{IsFound, RefusesMount};
ghost use Rattle.volume_look.specs.Talk.{Ends, HearsRight};

use crate::answering::answer_all;
use crate::asker::Asker;
use crate::read_only::ReadOnly;
use crate::slots::empty_slots;
use hfs_serving::{Checker, MountRefusal, find_image};
use hx_bytes::Trouble;
use jnl_replay::{Peek, Plan};
use jnl_store::capacity;
use sector_disk::SectorDisk;
use std::alloc::Global;
use volume_base::Volume;

/// How many sectors are held in memory.
const SLOTS: u32 = 8_192;

/// Opens an image and judges what it stands for, as a mount does, and answers the commands that are asked, to the last. A refusal comes exactly
/// where one stands, and then nothing is asked. The image is only read.
pub fn look_into<C: Checker, D: SectorDisk, A: Asker>(
    alloc: Global,
    checker: &mut C,
    disk: &mut D,
    asker: &mut A,
) -> Result<Result<(), MountRefusal>, Trouble>
    // Whatever ends it, each reply that was heard is that of the content which the image stands for.
    ensures right { IsTrue (D.state disk.old).tells → IsTrue (A.state asker.old).tells → (capacity : ℕ) (start : Content) → Mounts (content (D.state disk.old)) capacity start
        → HearsRight capacity start (A.state asker.old) (A.state asker.new) }
    // At Ok each command that was asked has its reply, and no more is asked.
    ensures ends { IsTrue (A.state asker.old).tells → IfOk result (λ answer. OnOk answer (Ends (A.state asker.old) (A.state asker.new))) }
    // A refusal is the first that stands, so an image that can be mounted has none.
    ensures refused { IsTrue (D.state disk.old).tells → IfOk result (λ answer. IfErr answer (RefusesMount (content (D.state disk.old)) (C.findings checker.new))) }
    ensures served { IsTrue (D.state disk.old).tells → IfOk result (λ answer. OnOk answer (IsMountable (content (D.state disk.old)))) }
    ensures unasked { IfOk result (λ answer. IfErr answer (λ _. A.state asker.new ≡ A.state asker.old)) }
    ensures reads { OnlyReads (D.state disk.old) (D.state disk.new) }
    ensures cause { IsCause trouble.Disk (D.state disk.old).faults (D.state disk.new).faults result }
{
    match find_image(alloc, checker, disk)? {
        Ok(plan) => {
            look_through(alloc, &plan, disk, asker)?;
            Ok(Ok(()))
        }
        Err(why) => Ok(Err(why)),
    }
}

/// Answers the commands that are asked, to the last, from what an image stands for that was found with this plan, as `look_into` does behind its
/// check. The image is only read.
pub fn look_through<D: SectorDisk, A: Asker>(
    alloc: Global,
    plan: &Plan,
    disk: &mut D,
    asker: &mut A,
) -> Result<(), Trouble>
    requires fits { FitsPlan (D.state disk.old).sectors plan.now }
    requires found { IsTrue (D.state disk.old).tells → IsFound (content (D.state disk.old)) plan.now }
    ensures right { IsTrue (D.state disk.old).tells → IsTrue (A.state asker.old).tells → (capacity : ℕ) (start : Content) → Mounts (content (D.state disk.old)) capacity start
        → HearsRight capacity start (A.state asker.old) (A.state asker.new) }
    ensures ends { IsTrue (A.state asker.old).tells → OnOk result (Ends (A.state asker.old) (A.state asker.new)) }
    ensures reads { OnlyReads (D.state disk.old) (D.state disk.new) }
    ensures cause { HasTroubleCause (D.state disk.old).faults (D.state disk.new).faults result }
{
    let peek = Peek::new(alloc, disk, plan)?;
    let mut slots = empty_slots(alloc, SLOTS)?;
    let mut space = ReadOnly {
        peek: &peek,
        disk,
        slots: slots.as_mut_slice(),
        put: None,
    };
    let most = capacity(plan);
    let mut volume = Volume::attach(alloc, &mut space, most)?;
    let answered = answer_all(alloc, &mut volume, &mut space, asker);
    drop(volume);
    answered
}
