//! Why bytes aren't read as a record.
ghost use Rattle.std.specs.Prelude.{◌≡◌};
ghost use Rattle.cat_records.specs.Records.{bad_record};
ghost use Rattle.cat_records.specs.declared.fault.RecordFault.TheVariants.{Memory};

use hx_bytes::OutOfMemory;

/// The largest length that a fault tells.
const LARGEST: usize = 4_294_967_295;

/// The bytes are no record, or there was no memory to read it.
#[derive(Clone, Copy, Debug, PartialEq, Eq)]
pub enum RecordFault {
    /// The type and the length in bytes don't go together; a length over the largest `u32` is told
    /// as that.
    BadRecord { kind: u16, length: u32 },
    Memory,
}

impl From<OutOfMemory> for RecordFault {
    ghost from_gives = { λ _ e. e ≡ Memory };

    fn from(_: OutOfMemory) -> Self {
        RecordFault::Memory
    }
}

impl RecordFault {
    /// The fault of a record with this type and length.
    pub(crate) fn bad_record(kind: u16, length: usize) -> RecordFault
        ensures { result ≡ bad_record kind length }
    {
        RecordFault::BadRecord {
            kind,
            length: length.min(LARGEST) as u32,
        }
    }
}
