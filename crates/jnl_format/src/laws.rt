//! Laws of the journal's structures. Each is the contract of a function that does nothing.
ghost use Rattle.std.specs.Prelude.{◌≡◌, ◌≤◌, ◌++◌, ℕ, List, length, drop, Some, Ok};
ghost use Rattle.hx_bytes.specs.Field.{number_at, AreBytes};
ghost use Rattle.hx_bytes.specs.declared.fields.Order.{Order};
ghost use Rattle.jnl_format.specs.Info.{info_of, with_info};
ghost use Rattle.jnl_format.specs.Header.{header_bytes, header_read, header_read_as};
ghost use Rattle.jnl_format.specs.List.{entry_at, entry_bytes, list_bytes, list_read, max_blocks};
ghost use Rattle.jnl_format.specs.RoundTrip.{FitsEntry, FitsListHead, header_again, list_again};
ghost use Rattle.jnl_format.specs.Recovery.{Content, recovery, recovery_as};
ghost use Rattle.jnl_format.specs.declared.dialect.Dialect.TheVariants.{Wide};
ghost use Rattle.jnl_format.specs.declared.structures.Header.{Header};
ghost use Rattle.jnl_format.specs.declared.structures.ListHead.{ListHead};
ghost use Rattle.jnl_format.specs.declared.structures.Entry.{Entry};

/// An info block whose fields are written again where they were read stays as it was.
pub fn info_written_back()
    ensures { (sector : List ℕ) → 52 ≤ length sector → AreBytes sector → with_info (info_of sector) sector ≡ sector }
{}

/// A journal header that was read is written again with the same bytes. Only an offset at the journal's end
/// becomes the buffer's first, with the checksum that follows.
pub fn header_written_back()
    ensures same { (size : ℕ) (sector : List ℕ) (head : Header) → 44 ≤ length sector → AreBytes sector → header_read size sector ≡ Ok head
        → head.start ≡ number_at head.order 8 sector 8 → head.end ≡ number_at head.order 8 sector 16
        → header_bytes head ++ drop 44 sector ≡ sector }
    ensures all { (size : ℕ) (sector : List ℕ) (head : Header) → 44 ≤ length sector → AreBytes sector → header_read size sector ≡ Ok head
        → header_bytes head ++ drop 44 sector ≡ header_again head sector }
{}

/// The head of a list is read again as it was written. One that was read is written again with the same
/// bytes. Only the largest number of blocks, which isn't looked at, becomes that of the list header's size,
/// and the pad zero, with the checksum that follows.
pub fn list_round_trip()
    ensures read_back { (order : Order) (blhdr : ℕ) (head : ListHead) (first : Entry) → FitsListHead blhdr head first → FitsEntry first
        → list_read order blhdr (list_bytes head first order blhdr) ≡ Some head }
    ensures first_back { (order : Order) (blhdr : ℕ) (head : ListHead) (first : Entry) → FitsEntry first
        → entry_at order (list_bytes head first order blhdr) 16 ≡ first }
    ensures same { (order : Order) (blhdr : ℕ) (bytes : List ℕ) (head : ListHead) → length bytes ≡ 32 → AreBytes bytes → list_read order blhdr bytes ≡ Some head
        → number_at order 2 bytes 0 ≡ max_blocks blhdr → number_at order 4 bytes 12 ≡ 0
        → list_bytes head (entry_at order bytes 16) order blhdr ≡ bytes }
    ensures all { (order : Order) (blhdr : ℕ) (bytes : List ℕ) (head : ListHead) → length bytes ≡ 32 → AreBytes bytes → list_read order blhdr bytes ≡ Some head
        → list_bytes head (entry_at order bytes 16) order blhdr ≡ list_again order blhdr bytes }
{}

/// An entry is read again as it was written, and one that was read is written again with the same bytes.
pub fn entry_round_trip()
    ensures read_back { (order : Order) (entry : Entry) → FitsEntry entry → entry_at order (entry_bytes order entry) 0 ≡ entry }
    ensures written_back { (order : Order) (bytes : List ℕ) → length bytes ≡ 16 → AreBytes bytes → entry_bytes order (entry_at order bytes 0) ≡ bytes }
{}

/// What the plain dialect reads, the wide one reads as the same: a journal header, and what a content stands for.
pub fn wide_takes_plain()
    ensures header { (size : ℕ) (sector : List ℕ) (head : Header) → header_read size sector ≡ Ok head → header_read_as Wide size sector ≡ Ok head }
    ensures content { (content recovered : Content) → recovery content ≡ Ok recovered → recovery_as Wide content ≡ Ok recovered }
{}
