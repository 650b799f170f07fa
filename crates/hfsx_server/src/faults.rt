// Why an image isn't judged.
use hfs_serving::OpenRefusal;
use hx_bytes::{Failed, OutOfMemory, Trouble};

/// Why no verdict is given on an image.
#[derive(Clone, Copy, Debug, PartialEq, Eq)]
pub enum CheckFault {
    /// It stands for no volume.
    Refused(OpenRefusal),
    /// It could not be read.
    Disk,
    /// There was no memory.
    Memory,
}

impl From<Failed> for CheckFault {
    ghost use Rattle.std.specs.Prelude.{◌≡◌};
    ghost use Rattle.hfsx_server.specs.declared.faults.CheckFault.TheVariants.{Disk};

    ghost from_gives = { λ _ e. e ≡ Disk };

    fn from(_: Failed) -> Self {
        CheckFault::Disk
    }
}

impl From<OutOfMemory> for CheckFault {
    ghost use Rattle.std.specs.Prelude.{◌≡◌};
    ghost use Rattle.hfsx_server.specs.declared.faults.CheckFault.TheVariants.{Memory};

    ghost from_gives = { λ _ e. e ≡ Memory };

    fn from(_: OutOfMemory) -> Self {
        CheckFault::Memory
    }
}

impl From<Trouble> for CheckFault {
    ghost use Rattle.std.specs.Prelude.{◌≡◌};
    ghost use Rattle.hfsx_server.specs.Faults.{fault_of_trouble};

    ghost from_gives = { λ trouble e. e ≡ fault_of_trouble trouble };

    fn from(trouble: Trouble) -> Self {
        match trouble {
            Trouble::Disk => CheckFault::Disk,
            Trouble::Memory => CheckFault::Memory,
        }
    }
}
