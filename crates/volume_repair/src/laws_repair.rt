//! Laws of the repair of a content, each as a function without a body.
ghost use Rattle.volume_repair.specs.RepairLaws.{BytesAreBits, LeafStays, RepairIsOne, RepairKeepsSize, SoundIsMendable, SoundIsOwnRepair, SoundKeepsHeader};

/// A content has one repair.
pub fn repair_is_one()
    ensures { RepairIsOne }
{}

/// A repair has as many sectors.
pub fn repair_keeps_size()
    ensures { RepairKeepsSize }
{}

/// A sound content can be repaired.
pub fn sound_is_mendable()
    ensures { SoundIsMendable }
{}

/// The header of a sound content counts right already.
pub fn sound_keeps_header()
    ensures { SoundKeepsHeader }
{}

/// A sound content is its own repair.
pub fn sound_is_own_repair()
    ensures { SoundIsOwnRepair }
{}

/// A byte of the allocation file is the byte of its bits.
pub fn bytes_are_bits()
    ensures { BytesAreBits }
{}

/// A leaf whose records count right already is as it is.
pub fn leaf_stays()
    ensures { LeafStays }
{}
