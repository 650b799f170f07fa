//! How reading and writing a header undo each other.
ghost use Rattle.std.specs.Prelude.{◌≡◌, ℕ, List, length};
ghost use Rattle.hx_bytes.specs.Field.{AreBytes};
ghost use Rattle.volume_header.specs.Header.{FitsHeader, header_bytes, header_of};
ghost use Rattle.volume_header.specs.declared.header.VolumeHeader.{VolumeHeader};

/// A header that was written is read as it was, and one that was read is written as it stood. The
/// call does nothing: it is there for its contract.
pub fn header_round_trip()
    ensures read_back { (head : VolumeHeader) → FitsHeader head → header_of (header_bytes head) ≡ head }
    ensures written_back { (sector : List ℕ) → length sector ≡ 512 → AreBytes sector → header_bytes (header_of sector) ≡ sector }
{}
